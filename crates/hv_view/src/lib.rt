//! Any view: one type for all views, one for their summaries, and one for the values that are shown.
#![tactic(auto)]

mod any_summary;
mod any_view;
mod auto;
mod frequent;
mod plan;
mod shown;
#[cfg(test)]
mod tests;
mod trellis;

pub use any_summary::AnySummary;
pub use any_view::AnyView;
pub use auto::AutoShown;
pub use frequent::{FrequentPair, FrequentShown};
pub use plan::{Plan, Second, conclude, first_view, then};
pub use shown::{Shown, finish};
