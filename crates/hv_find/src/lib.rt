//! The view that finds a text: how many of the rows that have it are above a key in an order, how many aren't, and the
//! least key above.
#![tactic(auto)]

mod find;
mod laws;
mod least;
mod matches;
mod same;
mod summary;
#[cfg(test)]
mod tests;

pub use find::Find;
pub use laws::first_is_least;
pub use summary::FindSummary;
