//! Whether a schema has the column that a view is made for (specs/Columns.antt).

ghost use Rattle.std.specs.Prelude.{◌↔◌, IsTrue};
ghost use Rattle.hv_sketch.specs.Columns.{IsColumnOf};

use hv_value::{Kind, Schema};

/// Whether there is a column at the place, from 0, and of the kind.
pub fn is_column_of(schema: &Schema, col: u32, kind: Kind) -> bool
    ensures { IsTrue result ↔ IsColumnOf schema.now col kind }
{
    col < schema.len() && schema.kind(col) == kind
}
