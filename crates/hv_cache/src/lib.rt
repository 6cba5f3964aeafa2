//! A bounded cache of finished results, which contracts see as the list of its pairs, the newest used first.
#![tactic(auto)]

mod results;
#[cfg(test)]
mod tests;

pub use results::Results;
