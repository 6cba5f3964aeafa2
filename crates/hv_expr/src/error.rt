//! Why a tree can't be used over a schema.

ghost use Rattle.std.specs.Prelude.{Some};
ghost use Rattle.hv_expr.specs.Checks.{expr_err_text};

use std::error::Error;
use std::fmt;

/// The most levels of a tree, a leaf being one.
pub const MAX_DEPTH: usize = 16;

/// Why a predicate or an expression can't be used over a schema.
#[derive(Clone, Copy, Debug, PartialEq, Eq)]
pub enum ExprErr {
    /// A named column isn't in the schema.
    NoColumn,
    /// A column, a constant or an operand has another kind than its place needs.
    WrongKind,
    /// The tree is deeper than 16.
    TooDeep,
}

impl fmt::Display for ExprErr {
    ghost output = { λ err. Some (expr_err_text err) };

    fn fmt<W: fmt::Write>(&self, f: &mut fmt::Formatter<W>) -> fmt::Result {
        f.write_str(match self {
            ExprErr::NoColumn => "a column isn't in the schema",
            ExprErr::WrongKind => "a column, constant or operand has another kind",
            ExprErr::TooDeep => "the tree is too deep",
        })
    }
}

impl Error for ExprErr {}
