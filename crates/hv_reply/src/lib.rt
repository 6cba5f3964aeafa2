//! Replies and lineages as texts: the one text of each.
#![tactic(auto)]

mod charts;
mod counts;
mod exprs;
mod laws;
mod lineages;
mod preds;
mod replies;
mod reply;
mod rows;
mod texts;
mod values;

pub use laws::read_back;
pub use lineages::lineage_value;
pub use replies::reply_value;
pub use reply::Reply;
pub use texts::{write_lineage, write_reply};
pub use values::shown_value;

#[cfg(test)]
mod tests;
