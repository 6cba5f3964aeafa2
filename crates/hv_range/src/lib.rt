//! The range of a column (how many cells there are and how many are missing, the least, the greatest, the sum),
//! and its distinct values.
#![tactic(auto)]

mod distinct;
mod distinct_summary;
mod extremes;
mod numbers;
mod range;
mod summary;
#[cfg(test)]
mod tests;
mod values;

pub use distinct::Distinct;
pub use distinct_summary::DistinctSummary;
pub use range::Range;
pub use summary::RangeSummary;
