//! The stacked histogram of two axes as a vizketch. Its summary is the counts by slot (specs/Slots.antt).

ghost use Rattle.std.specs.Prelude.{◌≡◌, ◌↔◌, IfOk, IsTrue, List};
ghost use Rattle.hv_value.specs.Rows.{Row};
ghost use Rattle.hv_grid.specs.Grids.{stacked_of};
ghost use Rattle.hv_grid.specs.Slots.{IsStackedCounted, column_in};

use crate::StackedShown;
use crate::shown::{column_counts, grid_of};
use crate::slots::grid_slot;
use hv_bucket::{Axis, Place};
use hv_sketch::{Counts, Sorter, Vizketch, add_tally, count_at, empty_tally, tally};
use hv_value::{Mem, Schema, Table};
use std::alloc::Global;

/// The stacked histogram of two axes: that of the first, each bucket of it by the buckets of the second.
#[derive(PartialEq, Eq, Hash, Drop)]
pub struct Stacked {
    pub x: Axis,
    pub y: Axis,
}

impl Stacked {
    pub fn new(x: Axis, y: Axis) -> Stacked
        ensures { result ≡ record { x = x; y = y } }
    {
        Stacked { x, y }
    }

    /// An equal view.
    pub fn copied(&self, alloc: Global) -> Mem<Stacked>
        ensures { IfOk result (λ view. view ≡ self.now) }
    {
        Ok(Stacked {
            x: self.x.copied(alloc)?,
            y: self.y.copied(alloc)?,
        })
    }

    /// Whether two views are the same.
    pub fn same(&self, other: &Stacked) -> bool
        ensures { IsTrue result ↔ (self.now ≡ other.now) }
    {
        self.x.same(&other.x) && self.y.same(&other.y)
    }

    /// The stacked histogram of the rows for which a summary stands.
    pub fn value(&self, alloc: Global, s: &Counts) -> Mem<StackedShown>
        ensures { IfOk result (λ value. (rows : List Row) → IsStackedCounted self.now.x self.now.y rows s.now → value ≡ stacked_of self.now.x self.now.y rows) }
    {
        let rows = self.x.buckets.len();
        let columns = self.y.buckets.len();
        let counts = s.as_slice();
        let placed = grid_slot(rows, 0, columns + 1);
        Ok(StackedShown {
            counts: grid_of(alloc, counts, rows, columns + 1, columns)?,
            missing: count_at(counts, placed + 1),
            other: column_counts(alloc, counts, rows, columns + 1, columns)?,
            outside: count_at(counts, placed),
        })
    }
}

impl Sorter for Stacked {
    ghost use Rattle.std.specs.Prelude.{◌≡◌, true};
    ghost use Rattle.hv_bucket.specs.Places.{fits_axis};
    ghost use Rattle.hv_grid.specs.Slots.{stacked_slot_in, stacked_slots};

    ghost slots = { λ view. stacked_slots view.x view.y };

    ghost slot = { λ view row. stacked_slot_in view.x view.y row };

    ghost takes = { λ view columns. (fits_axis columns view.x ≡ true) × (fits_axis columns view.y ≡ true) };

    fn slots(&self) -> usize {
        grid_slot(self.x.buckets.len(), 2, self.y.buckets.len() + 1)
    }

    #[inline(always)]
    fn slot<T: Table>(&self, table: &T, row: u32) -> usize {
        let columns = self.y.buckets.len();
        match self.x.buckets.bucket_of(table.cell(row, self.x.col)) {
            Place::In(bucket) => {
                let second = self.y.buckets.bucket_of(table.cell(row, self.y.col));
                grid_slot(bucket, column_in(columns, second), columns + 1)
            }
            Place::Outside => grid_slot(self.x.buckets.len(), 0, columns + 1),
            Place::Missing => grid_slot(self.x.buckets.len(), 1, columns + 1),
        }
    }
}

/// The column of a place among so many buckets: its bucket, or the one after them.
#[inline(always)]
fn column_in(columns: u32, place: Place) -> u32
    ensures { result ≡ column_in columns place }
{
    match place {
        Place::In(bucket) => bucket,
        Place::Outside | Place::Missing => columns,
    }
}

impl Vizketch for Stacked {
    ghost use Rattle.std.specs.Prelude.{◌≡◌, true, ⊤};
    ghost use Rattle.hv_bucket.specs.Places.{fits_axis};
    ghost use Rattle.hv_sketch.specs.TallyLaws.{IsTally-swap};
    ghost use Rattle.hv_grid.specs.Slots.{IsStackedCounted};

    type Summary = Counts;

    ghost stands = { λ view rows counts. IsStackedCounted view.x view.y rows counts };

    ghost fits_columns = { λ view columns. (fits_axis columns view.x ≡ true) × (fits_axis columns view.y ≡ true) };

    ghost merges_always = { λ view. ⊤ };

    fn fits(&self, schema: &Schema) -> bool {
        self.x.fits(schema) && self.y.fits(schema)
    }

    fn zero(&self, alloc: Global) -> Mem<Counts> {
        empty_tally(alloc, self)
    }

    fn summarize<T: Table>(&self, alloc: Global, table: &T) -> Mem<Counts> {
        tally(alloc, self, table)
    }

    fn merge_into(&self, _alloc: Global, acc: &mut Counts, d: &Counts) -> Mem<()> {
        add_tally(self, acc, d);
        Ok(())
    }

    fn copy(&self, alloc: Global, s: &Counts) -> Mem<Counts> {
        s.copy(alloc)
    }

    ghost any_order = { λ view a b c counts h. IsTally-swap _ _ a b c counts h };
}
