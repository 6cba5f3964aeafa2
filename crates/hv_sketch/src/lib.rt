//! Mergeable summaries: the interface of every view, its laws, and one loop over a table's rows.
#![tactic(auto)]

mod cell_gather;
mod cell_lists;
mod columns;
mod counts;
mod gather;
mod group_table;
mod grouped;
mod groups;
mod laws;
mod pair;
mod parts;
mod ranking;
mod row_lists;
mod sorter;
#[cfg(test)]
mod tests;
mod vizketch;

pub use cell_gather::{CellGather, gather_cells};
pub use cell_lists::copied_cells;
pub use columns::is_column_of;
pub use counts::{Counts, copied_counts, count_at};
pub use gather::{Gather, gather_rows};
pub use grouped::{Grouped, GroupedSummary};
pub use groups::Groups;
pub use laws::{least_of_pieces, order_is_free};
pub use pair::{Pair, PairSummary};
pub use parts::add_part;
pub use ranking::{Ranking, joined};
pub use sorter::{Sorter, add_tally, empty_tally, tally};
pub use vizketch::Vizketch;
