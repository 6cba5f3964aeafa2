//! The heat map of two axes as a vizketch. Its summary is the counts by slot (specs/Slots.antt).

ghost use Rattle.std.specs.Prelude.{◌≡◌, ◌↔◌, IfOk, IsTrue, List};
ghost use Rattle.hv_value.specs.Rows.{Row};
ghost use Rattle.hv_grid.specs.Grids.{heat_map_of};
ghost use Rattle.hv_grid.specs.Slots.{IsHeatMapCounted};

use crate::HeatMapShown;
use crate::shown::grid_of;
use crate::slots::grid_slot;
use hv_bucket::{Axis, Place};
use hv_sketch::{Counts, Sorter, Vizketch, add_tally, count_at, empty_tally, tally};
use hv_value::{Mem, Schema, Table};
use std::alloc::Global;

/// The heat map of two axes: the rows of each bucket of the first by the buckets of the second.
#[derive(PartialEq, Eq, Hash, Drop)]
pub struct HeatMap {
    pub x: Axis,
    pub y: Axis,
}

impl HeatMap {
    pub fn new(x: Axis, y: Axis) -> HeatMap
        ensures { result ≡ record { x = x; y = y } }
    {
        HeatMap { x, y }
    }

    /// An equal view.
    pub fn copied(&self, alloc: Global) -> Mem<HeatMap>
        ensures { IfOk result (λ view. view ≡ self.now) }
    {
        Ok(HeatMap {
            x: self.x.copied(alloc)?,
            y: self.y.copied(alloc)?,
        })
    }

    /// Whether two views are the same.
    pub fn same(&self, other: &HeatMap) -> bool
        ensures { IsTrue result ↔ (self.now ≡ other.now) }
    {
        self.x.same(&other.x) && self.y.same(&other.y)
    }

    /// The heat map of the rows for which a summary stands.
    pub fn value(&self, alloc: Global, s: &Counts) -> Mem<HeatMapShown>
        ensures { IfOk result (λ value. (rows : List Row) → IsHeatMapCounted self.now.x self.now.y rows s.now → value ≡ heat_map_of self.now.x self.now.y rows) }
    {
        let rows = self.x.buckets.len();
        let columns = self.y.buckets.len();
        let counts = s.as_slice();
        Ok(HeatMapShown {
            counts: grid_of(alloc, counts, rows, columns, columns)?,
            rest: count_at(counts, grid_slot(rows, 0, columns)),
        })
    }
}

impl Sorter for HeatMap {
    ghost use Rattle.std.specs.Prelude.{◌≡◌, true};
    ghost use Rattle.hv_bucket.specs.Places.{fits_axis};
    ghost use Rattle.hv_grid.specs.Slots.{heat_map_slot_in, heat_map_slots};

    ghost slots = { λ view. heat_map_slots view.x view.y };

    ghost slot = { λ view row. heat_map_slot_in view.x view.y row };

    ghost takes = { λ view columns. (fits_axis columns view.x ≡ true) × (fits_axis columns view.y ≡ true) };

    fn slots(&self) -> usize {
        grid_slot(self.x.buckets.len(), 1, self.y.buckets.len())
    }

    #[inline(always)]
    fn slot<T: Table>(&self, table: &T, row: u32) -> usize {
        let columns = self.y.buckets.len();
        if let Place::In(a) = self.x.buckets.bucket_of(table.cell(row, self.x.col))
            && let Place::In(b) = self.y.buckets.bucket_of(table.cell(row, self.y.col))
        {
            grid_slot(a, b, columns)
        } else {
            grid_slot(self.x.buckets.len(), 0, columns)
        }
    }
}

impl Vizketch for HeatMap {
    ghost use Rattle.std.specs.Prelude.{◌≡◌, true, ⊤};
    ghost use Rattle.hv_bucket.specs.Places.{fits_axis};
    ghost use Rattle.hv_sketch.specs.TallyLaws.{IsTally-swap};
    ghost use Rattle.hv_grid.specs.Slots.{IsHeatMapCounted};

    type Summary = Counts;

    ghost stands = { λ view rows counts. IsHeatMapCounted view.x view.y rows counts };

    ghost fits_columns = { λ view columns. (fits_axis columns view.x ≡ true) × (fits_axis columns view.y ≡ true) };

    ghost merges_always = { λ view. ⊤ };

    fn fits(&self, schema: &Schema) -> bool {
        self.x.fits(schema) && self.y.fits(schema)
    }

    fn zero(&self, alloc: Global) -> Mem<Counts> {
        empty_tally(alloc, self)
    }

    fn summarize<T: Table>(&self, alloc: Global, table: &T) -> Mem<Counts> {
        tally(alloc, self, table)
    }

    fn merge_into(&self, _alloc: Global, acc: &mut Counts, d: &Counts) -> Mem<()> {
        add_tally(self, acc, d);
        Ok(())
    }

    fn copy(&self, alloc: Global, s: &Counts) -> Mem<Counts> {
        s.copy(alloc)
    }

    ghost any_order = { λ view a b c counts h. IsTally-swap _ _ a b c counts h };
}
