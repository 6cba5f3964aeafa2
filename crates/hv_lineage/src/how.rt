//! How two terms over one base are combined. The definition is `cells_by` (specs/Made.antt).

/// How the rows of two terms over one base are combined, a base row at a time.
#[derive(Clone, Copy, Debug, PartialEq, Eq, Hash)]
pub enum How2 {
    /// The rows that both have, with the cells of the left and then those of the right.
    Zip,
    /// The rows that either has, with the cells of the left where it has the row.
    Union,
    /// The rows that both have, with the cells of the left.
    Both,
    /// The rows that the left has and the right has not.
    Minus,
}
