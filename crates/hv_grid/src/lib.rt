//! Charts of two axes: the rows of each bucket of one counted by the buckets of the other, and any view of the rows
//! of each bucket.
#![tactic(auto)]

mod by_axis;
mod heat_map;
mod shown;
mod slots;
mod stacked;
#[cfg(test)]
mod tests;

pub use by_axis::{ByAxis, Trellis};
pub use heat_map::HeatMap;
pub use shown::{HeatMapShown, StackedShown};
pub use stacked::Stacked;
