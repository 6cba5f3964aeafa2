//! What puts each row of a table into a group, or into none (specs/Groups.antt).

ghost use Rattle.std.specs.Prelude.{◌≡◌, ◌<◌, ◌↔◌, ℕ, List, Option, IsTrue, IfSome, Some, option_map};
ghost use Rattle.hv_value.specs.Rows.{Row};
ghost use Rattle.hv_value.specs.Schema.{Columns};
ghost use Rattle.hv_value.specs.Table.{IsTable, row_from};

use hv_value::{Schema, Table};

/// Groups of rows, numbered from 0. A row's group is a function of the tagged row alone.
pub trait Groups {
    // the group of a row, where it is in one
    ghost group_of: { Self → Row → Option ℕ };

    // how many groups there are
    ghost count: { Self → ℕ };

    // whether the columns that tell a row's group are there, each of its kind
    ghost fits_columns: { Self → Columns → Type 0 };

    /// Whether the rows of a table with these columns can be put into the groups.
    fn fits(&self, schema: &Schema) -> bool
        ensures { IsTrue result ↔ fits_columns self.now schema.now };

    /// How many groups there are.
    fn groups(&self) -> u32
        ensures { result ≡ count self.now };

    /// The group of a row that is there, where it is in one.
    fn group<T: Table>(&self, table: &T, row: u32) -> Option<u32>
        requires fit { fits_columns self.now (T.columns table.now) }
        requires whole { IsTable (T.columns table.now) (T.part_number table.now) (T.rows table.now) }
        requires row_there { option_map (λ found. found.number) (row_from row (T.rows table.now)) ≡ Some row }
        ensures value { (found : Row) → row_from row (T.rows table.now) ≡ Some found → result ≡ group_of self.now found }
        ensures within { IfSome result (λ g. g < count self.now) };
}
