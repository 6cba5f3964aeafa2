//! Buckets: numbers, days and texts put into numbered buckets, for the axes of charts.
#![tactic(auto)]

mod buckets;
mod error;
mod keys;
mod numbers;
#[cfg(test)]
mod tests;
mod texts;

pub use buckets::{Axis, Buckets, Place};
pub use error::{BucketErr, MAX_BUCKETS};
pub use numbers::{IntBuckets, IntLimits};
pub use texts::TextBuckets;
