//! The value of a view. `IsView` (specs/View.antt) says which value a view has over a list of rows.

ghost use Rattle.std.specs.Prelude.{◌≡◌, List, IfOk};
ghost use Rattle.hv_value.specs.Rows.{Row};
ghost use Rattle.hv_view.specs.Stands.{StandsForAny};
ghost use Rattle.hv_view.specs.View.{IsView, sum_shown};

use crate::trellis::values_of_groups;
use crate::{AnySummary, AnyView, AutoShown, FrequentShown};
use hv_find::FindSummary;
use hv_grid::{HeatMapShown, StackedShown};
use hv_heavy::{CountShown, HeavySummary};
use hv_hist::{CdfShown, HistogramShown};
use hv_next::NextSummary;
use hv_quant::SampleValue;
use hv_sketch::copied_cells;
use hv_value::{Cell, Kind, Listed, Mem};
use std::alloc::Global;

/// The value of a view or of a plan, one variant each.
#[derive(Drop)]
pub enum Shown {
    /// Of a range: how many cells aren't missing, the greatest and the least of them (missing where there is
    /// none), how many are missing, and the sum where the column is of whole numbers.
    Range {
        count: u64,
        max: Cell,
        min: Cell,
        missing: u64,
        sum: Option<i128>,
    },
    /// Of distinct values: whether there are more, and the least, rising.
    Distinct {
        more: bool,
        values: Listed<Cell>,
    },
    /// Of a histogram: how many rows are in each bucket, and how many cells are missing or in no bucket.
    Histogram(HistogramShown),
    /// Of a cumulative distribution: the running sums of a histogram's counts, and the rest as there.
    Cdf(CdfShown),
    /// Of a stacked histogram: how many rows are in each bucket of two axes, and how many elsewhere.
    Stacked(StackedShown),
    /// Of a heat map: how many rows are in each bucket of two axes, and how many others there are.
    HeatMap(HeatMapShown),
    /// Of a trellis: the histogram of each group's rows, and how many rows are in no group.
    TrellisHistogram {
        groups: Listed<HistogramShown>,
        rest: u64,
    },
    /// The same with heat maps.
    TrellisHeatMap {
        groups: Listed<HeatMapShown>,
        rest: u64,
    },
    /// Of next rows: the first different keys above a key, each with its number of rows, and how many rows aren't above.
    NextRows(NextSummary),
    /// Of a search: how many rows that match are above a key, how many aren't, and the least key above.
    Find(FindSummary),
    /// Of heavy hitters: values with estimates of how many cells they are, and how many cells there are.
    Heavy(HeavySummary),
    /// Of a count: how many cells are each of the given values, in their order.
    CountOf(CountShown),
    /// Of a sample: quantiles of its keys, how many rows it has, and the seed by which they were sampled.
    Quantiles(SampleValue),
    /// Of a histogram between a column's own ends: the counts, and the ends.
    Auto(AutoShown),
    /// Of frequent values: all of them, each with its count.
    Frequent(FrequentShown),
}

impl Shown {
    /// An equal value.
    pub fn copied(&self, alloc: Global) -> Mem<Shown>
        ensures { IfOk result (λ shown. shown ≡ self.now) }
    {
        Ok(match self {
            Shown::Range {
                count,
                max,
                min,
                missing,
                sum,
            } => Shown::Range {
                count: *count,
                max: Cell::of(alloc, max.lent())?,
                min: Cell::of(alloc, min.lent())?,
                missing: *missing,
                sum: *sum,
            },
            Shown::Distinct { more, values } => Shown::Distinct {
                more: *more,
                values: copied_cells(alloc, values.as_slice())?,
            },
            Shown::Histogram(value) => Shown::Histogram(value.copied(alloc)?),
            Shown::Cdf(value) => Shown::Cdf(value.copied(alloc)?),
            Shown::Stacked(value) => Shown::Stacked(value.copied(alloc)?),
            Shown::HeatMap(value) => Shown::HeatMap(value.copied(alloc)?),
            Shown::TrellisHistogram { groups, rest } => Shown::TrellisHistogram {
                groups: copied_histograms(alloc, groups.as_slice())?,
                rest: *rest,
            },
            Shown::TrellisHeatMap { groups, rest } => Shown::TrellisHeatMap {
                groups: copied_heat_maps(alloc, groups.as_slice())?,
                rest: *rest,
            },
            Shown::NextRows(value) => Shown::NextRows(value.copy(alloc)?),
            Shown::Find(value) => Shown::Find(value.copy(alloc)?),
            Shown::Heavy(value) => Shown::Heavy(value.copy(alloc)?),
            Shown::CountOf(value) => Shown::CountOf(value.copied(alloc)?),
            Shown::Quantiles(value) => Shown::Quantiles(value.copied(alloc)?),
            Shown::Auto(value) => Shown::Auto(value.copied(alloc)?),
            Shown::Frequent(value) => Shown::Frequent(value.copied(alloc)?),
        })
    }
}

/// The value of a view over the rows for which a summary of it stands. A summary of another view stands for nothing, and
/// is shown as no distinct values.
#[tactic(auto, unfolding(crate::specs::Stands::StandsForAny))]
pub fn finish(alloc: Global, view: &AnyView, s: &AnySummary) -> Mem<Shown>
    ensures { IfOk result (λ shown. (rows : List Row)
        → StandsForAny view.now rows s.now → IsView view.now rows shown) }
{
    Ok(match (view, s) {
        (AnyView::Range(view), AnySummary::Range(s)) => Shown::Range {
            count: s.count,
            max: Cell::of(alloc, s.greatest.lent())?,
            min: Cell::of(alloc, s.least.lent())?,
            missing: s.missing,
            sum: sum_shown(view.kind, s.sum),
        },
        (AnyView::Distinct(_), AnySummary::Distinct(s)) => Shown::Distinct {
            more: s.more,
            values: copied_cells(alloc, s.values.as_slice())?,
        },
        (AnyView::Histogram(view), AnySummary::Histogram(s)) => {
            Shown::Histogram(view.value(alloc, s)?)
        }
        (AnyView::Cdf(view), AnySummary::Cdf(s)) => Shown::Cdf(view.value(alloc, s)?),
        (AnyView::Stacked(view), AnySummary::Stacked(s)) => Shown::Stacked(view.value(alloc, s)?),
        (AnyView::HeatMap(view), AnySummary::HeatMap(s)) => Shown::HeatMap(view.value(alloc, s)?),
        (AnyView::TrellisHistogram(view), AnySummary::TrellisHistogram(s)) => {
            Shown::TrellisHistogram {
                groups: values_of_groups(alloc, &view.inner, s.groups())?,
                rest: s.rest(),
            }
        }
        (AnyView::TrellisHeatMap(view), AnySummary::TrellisHeatMap(s)) => Shown::TrellisHeatMap {
            groups: values_of_groups(alloc, &view.inner, s.groups())?,
            rest: s.rest(),
        },
        (AnyView::NextRows(_), AnySummary::NextRows(s)) => Shown::NextRows(s.copy(alloc)?),
        (AnyView::Find(_), AnySummary::Find(s)) => Shown::Find(s.copy(alloc)?),
        (AnyView::Heavy(_), AnySummary::Heavy(s)) => Shown::Heavy(s.copy(alloc)?),
        (AnyView::CountOf(view), AnySummary::CountOf(s)) => Shown::CountOf(view.value(alloc, s)?),
        (AnyView::Sample(view), AnySummary::Sample(s)) => Shown::Quantiles(view.value(alloc, s)?),
        _ => Shown::Distinct {
            more: false,
            values: Listed::new(alloc),
        },
    })
}

/// The sum that is shown of a column of a kind: that of whole numbers.
fn sum_shown(kind: Kind, sum: i128) -> Option<i128>
    ensures { result ≡ sum_shown kind sum }
{
    match kind {
        Kind::Int => Some(sum),
        Kind::Date | Kind::Text => None,
    }
}

/// Equal histograms, in memory of their own.
fn copied_histograms(alloc: Global, values: &[HistogramShown]) -> Mem<Listed<HistogramShown>>
    ensures { IfOk result (λ copy. copy ≡ values.now) }
{
    let mut copy = Listed::new(alloc);
    for value in values {
        copy.push(value.copied(alloc)?)?;
    }
    Ok(copy)
}

/// Equal heat maps, in memory of their own.
fn copied_heat_maps(alloc: Global, values: &[HeatMapShown]) -> Mem<Listed<HeatMapShown>>
    ensures { IfOk result (λ copy. copy ≡ values.now) }
{
    let mut copy = Listed::new(alloc);
    for value in values {
        copy.push(value.copied(alloc)?)?;
    }
    Ok(copy)
}
