//! The summary of any view. What one stands for is `StandsForAny` (specs/Stands.antt).

use hv_find::FindSummary;
use hv_heavy::HeavySummary;
use hv_next::NextSummary;
use hv_quant::SampleSummary;
use hv_range::{DistinctSummary, RangeSummary};
use hv_sketch::{Counts, GroupedSummary};

/// The summary of some rows for a view, one variant a view. `AnyView` copies one as its variant does.
#[derive(Drop)]
pub enum AnySummary {
    Range(RangeSummary),
    Distinct(DistinctSummary),
    /// The counts of the rows of each bucket, of those outside of all, and of those with a missing cell.
    Histogram(Counts),
    /// The same.
    Cdf(Counts),
    /// The counts of the rows of each pair of buckets, and of the others as `Stacked` tells them apart.
    Stacked(Counts),
    /// The counts of the rows of each pair of buckets, and of all others.
    HeatMap(Counts),
    TrellisHistogram(GroupedSummary<Counts>),
    TrellisHeatMap(GroupedSummary<Counts>),
    NextRows(NextSummary),
    Find(FindSummary),
    Heavy(HeavySummary),
    /// The counts of the rows whose cell is each of some values, none of them, or missing.
    CountOf(Counts),
    Sample(SampleSummary),
}
