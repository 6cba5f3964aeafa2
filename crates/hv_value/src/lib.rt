//! The values of a table: texts, cells, schemas, rows and the interface of a table.
#![tactic(auto)]

mod catalog;
mod cell;
mod day;
mod listed;
mod memory;
mod number;
mod order;
mod orders;
mod schema;
mod table;
mod text;

pub use catalog::{Catalog, MAX_PARTITIONS};
pub use cell::{Cell, CellRef, Kind};
pub use day::{date_text, day_of};
pub use listed::Listed;
pub use memory::{Mem, Memory};
pub use number::int_of;
pub use order::compare;
pub use orders::{MAX_KEYS, Order, OrderKey};
pub use schema::{MAX_COLUMNS, MAX_NAME_BYTES, Schema, SchemaErr};
pub use table::{Coded, MAX_ROWS, Table};
pub use text::Text;

#[cfg(test)]
mod tests;
