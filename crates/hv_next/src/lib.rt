//! The next rows of a table in an order: the first different keys above a key, each with its number of rows.
#![tactic(auto)]

mod add_key;
mod key_ranking;
mod keys;
mod laws;
mod next_rows;
mod same;
mod summary;
#[cfg(test)]
mod tests;

pub use keys::{copied_key, fits_keys, is_above, key_at};
pub use laws::least_of_pieces;
pub use next_rows::NextRows;
pub use same::{are_same_keys, are_same_orders};
pub use summary::{CountedKeys, NextRow, NextSummary};
