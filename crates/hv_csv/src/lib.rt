//! A partition's bytes as CSV: its records read into columns, and the table over them.
#![tactic(auto)]

mod fill;
mod header;
mod part;
mod reader;
mod table;

pub use part::read_part;
pub use table::{BaseTable, base_table};

#[cfg(test)]
mod tests;
