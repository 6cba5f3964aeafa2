//! Charts of one axis: the rows of each bucket counted, and the running sums of the counts.
#![tactic(auto)]

mod cdf;
mod histogram;
mod shown;
#[cfg(test)]
mod tests;

pub use cdf::Cdf;
pub use histogram::Histogram;
pub use shown::{CdfShown, HistogramShown};
