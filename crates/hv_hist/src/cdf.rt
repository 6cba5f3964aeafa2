//! The cumulative distribution of an axis as a vizketch: its summary is that of the histogram.

ghost use Rattle.std.specs.Prelude.{◌≡◌, ◌↔◌, IfOk, IsTrue, List};
ghost use Rattle.hv_value.specs.Rows.{Row};
ghost use Rattle.hv_hist.specs.Histogram.{cdf_of};
ghost use Rattle.hv_hist.specs.Slots.{IsCounted};

use crate::shown::sums;
use crate::{CdfShown, Histogram};
use hv_bucket::Axis;
use hv_sketch::{Counts, Vizketch};
use hv_value::{Mem, Schema, Table};
use std::alloc::Global;

/// The cumulative distribution of one axis.
#[derive(PartialEq, Eq, Hash, Drop)]
pub struct Cdf {
    pub histogram: Histogram,
}

impl Cdf {
    pub fn new(axis: Axis) -> Cdf
        ensures { result.histogram.axis ≡ axis }
    {
        Cdf {
            histogram: Histogram::new(axis),
        }
    }

    /// An equal view.
    pub fn copied(&self, alloc: Global) -> Mem<Cdf>
        ensures { IfOk result (λ view. view ≡ self.now) }
    {
        Ok(Cdf {
            histogram: self.histogram.copied(alloc)?,
        })
    }

    /// Whether two views are the same.
    pub fn same(&self, other: &Cdf) -> bool
        ensures { IsTrue result ↔ (self.now ≡ other.now) }
    {
        self.histogram.same(&other.histogram)
    }

    /// The cumulative distribution of the rows for which a summary stands.
    pub fn value(&self, alloc: Global, s: &Counts) -> Mem<CdfShown>
        ensures { IfOk result (λ value. (rows : List Row) → IsCounted self.now.histogram.axis rows s.now → value ≡ cdf_of self.now.histogram.axis rows) }
    {
        let histogram = self.histogram.value(alloc, s)?;
        Ok(CdfShown {
            missing: histogram.missing,
            outside: histogram.outside,
            sums: sums(alloc, histogram.counts.as_slice())?,
        })
    }
}

impl Vizketch for Cdf {
    ghost use Rattle.std.specs.Prelude.{◌≡◌, true, ⊤};
    ghost use Rattle.hv_bucket.specs.Places.{fits_axis};
    ghost use Rattle.hv_sketch.specs.TallyLaws.{IsTally-swap};
    ghost use Rattle.hv_hist.specs.Slots.{IsCounted};

    type Summary = Counts;

    ghost stands = { λ view rows counts. IsCounted view.histogram.axis rows counts };

    ghost fits_columns = { λ view columns. fits_axis columns view.histogram.axis ≡ true };

    ghost merges_always = { λ view. ⊤ };

    fn fits(&self, schema: &Schema) -> bool {
        self.histogram.fits(schema)
    }

    fn zero(&self, alloc: Global) -> Mem<Counts> {
        self.histogram.zero(alloc)
    }

    fn summarize<T: Table>(&self, alloc: Global, table: &T) -> Mem<Counts> {
        self.histogram.summarize(alloc, table)
    }

    fn merge_into(&self, alloc: Global, acc: &mut Counts, d: &Counts) -> Mem<()> {
        self.histogram.merge_into(alloc, acc, d)
    }

    fn copy(&self, alloc: Global, s: &Counts) -> Mem<Counts> {
        self.histogram.copy(alloc, s)
    }

    ghost any_order = { λ view a b c counts h. IsTally-swap _ _ a b c counts h };
}
