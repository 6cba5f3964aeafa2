//! The histogram of a column between its own ends: its axis, and the value (specs/Auto.antt).

ghost use Rattle.std.specs.Prelude.{◌≡◌, ◌≤◌, true, Some, IfOk};
ghost use Rattle.hv_bucket.specs.Buckets.{are_int_buckets};
ghost use Rattle.hv_view.specs.Auto.{auto_axis, between, do_rise, numbers_axis, without_buckets};

use hv_bucket::{Axis, Buckets, IntBuckets};
use hv_hist::HistogramShown;
use hv_sketch::copied_counts;
use hv_value::{Cell, Listed, Mem};
use std::alloc::Global;

/// A histogram of a column between its own ends.
#[derive(Drop)]
pub struct AutoShown {
    /// How many rows are in each bucket; empty where the column has no value.
    pub counts: Listed<u64>,
    /// The greatest cell of the whole column, missing where it has no value.
    pub hi: Cell,
    /// The least cell of the whole column, missing where it has no value.
    pub lo: Cell,
    /// How many cells are missing.
    pub missing: u64,
}

impl AutoShown {
    /// An equal histogram.
    pub fn copied(&self, alloc: Global) -> Mem<AutoShown>
        ensures { IfOk result (λ copy. copy ≡ self.now) }
    {
        Ok(AutoShown {
            counts: copied_counts(alloc, self.counts.as_slice())?,
            hi: Cell::of(alloc, self.hi.lent())?,
            lo: Cell::of(alloc, self.lo.lent())?,
            missing: self.missing,
        })
    }
}

/// So many buckets between the least and the greatest cell of a column, where it has such.
pub(crate) fn auto_axis(col: u32, n: u32, least: &Cell, greatest: &Cell) -> Option<Axis>
    requires rise { do_rise least.now greatest.now ≡ true }
    requires some { 1 ≤ n }
    requires few { n ≤ 1024 }
    ensures { result ≡ auto_axis col n least.now greatest.now }
{
    match (least, greatest) {
        (Cell::Int(lo), Cell::Int(hi)) => numbers_axis(col, n, *lo, *hi),
        (Cell::Date(lo), Cell::Date(hi)) => { numbers_axis(col, n, i64::from(*lo), i64::from(*hi)) }
        _ => None,
    }
}

/// So many buckets of the numbers from one to another. That there are such is asked for.
fn numbers_axis(col: u32, n: u32, lo: i64, hi: i64) -> Option<Axis>
    requires { are_int_buckets lo hi n ≡ true }
    ensures { result ≡ Some (numbers_axis col n lo hi) }
{
    match IntBuckets::new(lo, hi, n) {
        Ok(buckets) => Some(Axis {
            col,
            buckets: Buckets::Int(buckets),
        }),
        Err(_) => None,
    }
}

/// A histogram with the ends of its axis.
pub(crate) fn between(
    alloc: Global,
    least: &Cell,
    greatest: &Cell,
    histogram: HistogramShown,
) -> Mem<AutoShown>
    ensures { IfOk result (λ value. value ≡ between least.now greatest.now histogram) }
{
    Ok(AutoShown {
        hi: Cell::of(alloc, greatest.lent())?,
        lo: Cell::of(alloc, least.lent())?,
        counts: histogram.counts,
        missing: histogram.missing,
    })
}

/// No buckets, of a column that has no value.
pub(crate) fn without_buckets(
    alloc: Global,
    least: &Cell,
    greatest: &Cell,
    missing: u64,
) -> Mem<AutoShown>
    ensures { IfOk result (λ value. value ≡ without_buckets least.now greatest.now missing) }
{
    Ok(AutoShown {
        counts: Listed::new(alloc),
        hi: Cell::of(alloc, greatest.lent())?,
        lo: Cell::of(alloc, least.lent())?,
        missing,
    })
}
