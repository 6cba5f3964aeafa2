//! What the parts of a message ask for: fields, cells, predicates, expressions, axes, orders and tables, each read from JSON
//! and held against its limits, before anything of a session is looked up.
#![tactic(auto)]

mod asked;
pub mod axes;
mod constants;
pub mod exprs;
pub mod fields;
mod limits;
pub mod orders;
mod pred_asked;
pub mod preds;
mod refused;
pub mod tables;
pub mod values;
mod why;
mod words;

pub use asked::{AxisAsked, CellAsked, PAST_COUNTS, TableAsked, do_fit, product};
pub use constants::is_short;
pub use limits::{
    LEVELS, MAX_CONSTANT_BYTES, MAX_COUNTED, MAX_COUNTS, MAX_DISTINCT, MAX_FIND_COLUMNS,
    MAX_GROUPS, MAX_HEAVY, MAX_ID, MAX_MESSAGE_BYTES, MAX_NEXT, MAX_NODES, MAX_OBJECTS, MAX_OPEN,
    MAX_QUANTILES, MAX_SAMPLE, MAX_SEED, MAX_THRESHOLD,
};
pub use orders::{KeyAsked, OrderAsked};
pub use pred_asked::PredAsked;
pub use refused::Refused;
pub use why::Why;
pub use words::{how_word, kind_word, rel_word};
