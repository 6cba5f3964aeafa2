//! Plays a script: reads it, does its lines in order on one thread, and writes the output.
//!
//! `play` is the top call. Which output is right is `IsTrace` of specs/Run.antt.
#![tactic(auto)]

mod entry;
mod fields;
mod floats;
pub mod laws;
mod lines;
mod output;
mod run;
mod session;
#[cfg(test)]
mod tests;
mod texts;
mod top;

pub use entry::{BadLine, Entry, What};
pub use lines::SESSIONS;
pub use top::{DONE, MAX_SCRIPT_BYTES, NO_MEMORY, READ_FAULT, TOO_LONG, USAGE, WRITE_FAULT, play};
