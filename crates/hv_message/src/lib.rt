//! Messages: what a text that a client sends means, or the one word that says why it is malformed.
#![tactic(auto)]

mod asked;
mod laws;
mod lineages;
mod made;
mod message;
mod operations;
mod read;
mod samples;
mod state;
mod terms;
mod views;
mod words;

pub use asked::{Asked, InnerAsked, TermAsked, ViewAsked};
pub use hv_asked::{
    AxisAsked, CellAsked, KeyAsked, MAX_CONSTANT_BYTES, MAX_COUNTS, MAX_DISTINCT, MAX_FIND_COLUMNS,
    MAX_GROUPS, MAX_ID, MAX_MESSAGE_BYTES, MAX_NEXT, MAX_NODES, MAX_OBJECTS, MAX_OPEN,
    MAX_QUANTILES, MAX_SAMPLE, OrderAsked, PredAsked, TableAsked, Why, how_word, kind_word,
    rel_word,
};
pub use laws::{levels_are_enough, refusals_have_words};
pub use lineages::{read_lineage, read_lineage_value};
pub use message::{Message, Refusal};
pub use read::{id_in, read_message, read_value};
pub use state::TalkState;
pub use words::how2_word;

#[cfg(test)]
mod tests;
