//! Sets of rows and of partitions, which contracts see as rising lists of numbers.
#![tactic(auto)]

mod lists;
mod member;
mod part_set;
#[cfg(test)]
mod tests;
mod words;

pub use member::Member;
pub use part_set::PartSet;
