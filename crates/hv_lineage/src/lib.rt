//! Lineages: a base and a term over it, from which a data set can be made again.
#![tactic(auto)]

mod base;
mod checks;
mod columns;
mod error;
mod how;
pub mod laws;
mod lineage;
mod same;
mod shared;
mod term;

pub use base::Base;
pub use columns::{copy_schema, longer_schema, picked_schema, zipped_schema};
pub use error::LineageErr;
pub use how::How2;
pub use lineage::Lineage;
pub use shared::Shared;
pub use term::{MAX_TERM_DEPTH, MAX_TERM_NODES, Term};

#[cfg(test)]
mod tests;
