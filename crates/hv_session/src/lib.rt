//! One session: what it hears, what it owes, and its open requests.
#![tactic(auto)]

mod answer;
mod last_words;
mod request;
mod seeds;
mod session;
#[cfg(test)]
mod tests;

pub use answer::Answer;
pub use request::OpenRequest;
pub use seeds::Seeds;
pub use session::Session;
