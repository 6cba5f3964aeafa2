//! The histogram of an axis as a vizketch. Its summary is the counts by slot (specs/Slots.antt).

ghost use Rattle.std.specs.Prelude.{◌≡◌, ◌↔◌, IfOk, IsTrue, List};
ghost use Rattle.hv_value.specs.Rows.{Row};
ghost use Rattle.hv_hist.specs.Histogram.{histogram_of};
ghost use Rattle.hv_hist.specs.Slots.{IsCounted};

use crate::HistogramShown;
use crate::shown::first_counts;
use hv_bucket::{Axis, Place};
use hv_sketch::{Counts, Sorter, Vizketch, add_tally, count_at, empty_tally, tally};
use hv_value::{Mem, Schema, Table};
use std::alloc::Global;

/// The histogram of one axis.
#[derive(PartialEq, Eq, Hash, Drop)]
pub struct Histogram {
    pub axis: Axis,
}

impl Histogram {
    pub fn new(axis: Axis) -> Histogram
        ensures { result.axis ≡ axis }
    {
        Histogram { axis }
    }

    /// An equal view.
    pub fn copied(&self, alloc: Global) -> Mem<Histogram>
        ensures { IfOk result (λ view. view ≡ self.now) }
    {
        Ok(Histogram {
            axis: self.axis.copied(alloc)?,
        })
    }

    /// Whether two views are the same.
    pub fn same(&self, other: &Histogram) -> bool
        ensures { IsTrue result ↔ (self.now ≡ other.now) }
    {
        self.axis.same(&other.axis)
    }

    /// The histogram of the rows for which a summary stands.
    pub fn value(&self, alloc: Global, s: &Counts) -> Mem<HistogramShown>
        ensures { IfOk result (λ value. (rows : List Row) → IsCounted self.now.axis rows s.now → value ≡ histogram_of self.now.axis rows) }
    {
        let buckets = self.axis.buckets.len() as usize;
        let counts = s.as_slice();
        Ok(HistogramShown {
            counts: first_counts(alloc, counts, buckets)?,
            missing: count_at(counts, buckets + 1),
            outside: count_at(counts, buckets),
        })
    }
}

impl Sorter for Histogram {
    ghost use Rattle.std.specs.Prelude.{◌≡◌, true};
    ghost use Rattle.hv_bucket.specs.Places.{fits_axis};
    ghost use Rattle.hv_hist.specs.Slots.{slot_in, slots_of};

    ghost slots = { λ view. slots_of view.axis };

    ghost slot = { λ view row. slot_in view.axis row };

    ghost takes = { λ view columns. fits_axis columns view.axis ≡ true };

    fn slots(&self) -> usize {
        self.axis.buckets.len() as usize + 2
    }

    #[inline(always)]
    fn slot<T: Table>(&self, table: &T, row: u32) -> usize {
        match self.axis.buckets.bucket_of(table.cell(row, self.axis.col)) {
            Place::In(bucket) => bucket as usize,
            Place::Outside => self.axis.buckets.len() as usize,
            Place::Missing => self.axis.buckets.len() as usize + 1,
        }
    }
}

impl Vizketch for Histogram {
    ghost use Rattle.std.specs.Prelude.{◌≡◌, true, ⊤};
    ghost use Rattle.hv_bucket.specs.Places.{fits_axis};
    ghost use Rattle.hv_sketch.specs.TallyLaws.{IsTally-swap};
    ghost use Rattle.hv_hist.specs.Slots.{IsCounted};

    type Summary = Counts;

    ghost stands = { λ view rows counts. IsCounted view.axis rows counts };

    ghost fits_columns = { λ view columns. fits_axis columns view.axis ≡ true };

    ghost merges_always = { λ view. ⊤ };

    fn fits(&self, schema: &Schema) -> bool {
        self.axis.fits(schema)
    }

    fn zero(&self, alloc: Global) -> Mem<Counts> {
        empty_tally(alloc, self)
    }

    fn summarize<T: Table>(&self, alloc: Global, table: &T) -> Mem<Counts> {
        tally(alloc, self, table)
    }

    fn merge_into(&self, _alloc: Global, acc: &mut Counts, d: &Counts) -> Mem<()> {
        add_tally(self, acc, d);
        Ok(())
    }

    fn copy(&self, alloc: Global, s: &Counts) -> Mem<Counts> {
        s.copy(alloc)
    }

    ghost any_order = { λ view a b c counts h. IsTally-swap _ _ a b c counts h };
}
