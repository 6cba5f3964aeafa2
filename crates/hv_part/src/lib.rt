//! The table of one partition: shared columns, and the set of their rows that are in it.
#![tactic(auto)]

mod part_table;

pub use part_table::PartTable;

#[cfg(test)]
mod tests;
