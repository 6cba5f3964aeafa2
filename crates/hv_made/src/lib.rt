//! The table of one partition of a lineage: the base's columns, and the term applied to them.
#![tactic(auto)]

mod base;
mod combine;
mod derive;
mod filter;
mod kept;
mod made;
mod project;
mod rows;
mod sample;
mod union;

pub use base::{base_part, share_part};
pub use made::{made_part, table_of};

#[cfg(test)]
mod tests;
