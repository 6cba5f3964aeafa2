//! Columns: the cells of one column of a partition, kept by kind.
#![tactic(auto)]

mod column;
mod nullable;
mod texts;

pub use column::Column;

#[cfg(test)]
mod tests;
