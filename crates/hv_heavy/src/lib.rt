//! The values of a column: those that are many of its cells, each with an estimate of how many, and how many cells are
//! each of some values.
#![tactic(auto)]

mod count_of;
mod counts;
mod laws;
mod misra_gries;
mod pair_order;
mod places;
mod placing;
mod pruning;
mod summary;
#[cfg(test)]
mod tests;

pub use count_of::{CountOf, CountShown};
pub use laws::frequent_values_stay;
pub use misra_gries::MisraGries;
pub use summary::{HeavyPair, HeavySummary};
