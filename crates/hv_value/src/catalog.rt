//! The catalog of named tables. Contracts see one as the list of its tables, each a name and a number of
//! partitions.

ghost use Rattle.std.specs.Prelude.{◌≡◌, ◌≤◌, true, OnSome};
ghost use Rattle.hv_value.specs.Catalog.{is_catalog, is_table, parts_named};

use crate::Text;
use std::marker::Model;

/// The most partitions of a table.
pub const MAX_PARTITIONS: u32 = 65_536;

/// The tables that the server knows by name, with the number of partitions of each.
#[derive(Drop)]
pub struct Catalog {
    tables: Vec<(Text, u32)>,
}

impl Model for Catalog {
    ghost use Rattle.std.specs.Prelude.{◌≡◌, true};
    ghost use Rattle.hv_value.specs.Catalog.{Tables, is_catalog};

    ghost Value = { Tables };

    ghost view = { λ catalog. catalog.tables.items };

    ghost invariant = { λ catalog. is_catalog catalog.tables.items ≡ true };
}

impl Catalog {
    /// Makes a catalog of tables with names that differ, of at most 65,536 partitions each. It takes no memory.
    pub fn new(tables: Vec<(Text, u32)>) -> Catalog
        requires { is_catalog tables.items ≡ true }
        ensures { result ≡ tables.items }
    {
        Catalog { tables }
    }

    /// The number of partitions of the table with a name, none where there is no such table. It looks at the
    /// tables in turn.
    pub fn parts_of(&self, table: &str) -> Option<u32>
        ensures value { result ≡ parts_named table.now self.now }
        ensures catalog { is_catalog self.now ≡ true }
    {
        let found = self.tables.iter().find(|entry| entry.0.as_str() == table)?;
        Some(found.1)
    }
}
