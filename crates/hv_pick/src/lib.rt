//! The words that pick sampled rows: contracts see them as the words of the crate rand_pcg's
//! generator `Lcg64Xsh32`, defined in `specs/Word.antt`.
#![tactic(auto)]

#[cfg(test)]
mod tests;
mod walker;
mod words;

pub use walker::Walker;
pub use words::{picked, word};
