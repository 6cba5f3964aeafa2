//! The view that samples rows for quantiles: of all rows the least by word, and their keys at evenly spaced places.
#![tactic(auto)]

mod compare;
mod keyed;
mod laws;
mod nearest;
mod same;
mod sample;
mod sampling;
mod summary;
#[cfg(test)]
mod tests;
mod value;

pub use laws::least_of_pieces;
pub use sample::Sample;
pub use sampling::Sampling;
pub use summary::{SampleSummary, SampledRow};
pub use value::{SampleValue, quantiles};
