//! The buckets of an axis as groups of rows, and the trellis: a view of the rows of each.

ghost use Rattle.std.specs.Prelude.{◌≡◌, ◌↔◌, IfOk, IsTrue};

use hv_bucket::{Axis, Place};
use hv_sketch::{Grouped, Groups};
use hv_value::{Mem, Schema, Table};
use std::alloc::Global;

/// The groups of rows that are in one bucket of an axis each.
#[derive(PartialEq, Eq, Hash, Drop)]
pub struct ByAxis(pub Axis);

/// A view of the rows of each bucket of an axis.
pub type Trellis<V> = Grouped<ByAxis, V>;

impl ByAxis {
    /// Equal groups.
    pub fn copied(&self, alloc: Global) -> Mem<ByAxis>
        ensures { IfOk result (λ groups. groups ≡ self.now) }
    {
        Ok(ByAxis(self.0.copied(alloc)?))
    }

    /// Whether two are the same.
    pub fn same(&self, other: &ByAxis) -> bool
        ensures { IsTrue result ↔ (self.now ≡ other.now) }
    {
        self.0.same(&other.0)
    }
}

impl Groups for ByAxis {
    ghost use Rattle.std.specs.Prelude.{◌≡◌, true};
    ghost use Rattle.hv_bucket.specs.Places.{buckets_len, fits_axis};
    ghost use Rattle.hv_grid.specs.Grids.{bucket_in};

    ghost group_of = { λ by row. bucket_in by.0 row };

    ghost count = { λ by. buckets_len by.0.buckets };

    ghost fits_columns = { λ by columns. fits_axis columns by.0 ≡ true };

    fn fits(&self, schema: &Schema) -> bool {
        self.0.fits(schema)
    }

    fn groups(&self) -> u32 {
        self.0.buckets.len()
    }

    #[inline(always)]
    fn group<T: Table>(&self, table: &T, row: u32) -> Option<u32> {
        match self.0.buckets.bucket_of(table.cell(row, self.0.col)) {
            Place::In(bucket) => Some(bucket),
            Place::Outside | Place::Missing => None,
        }
    }
}
