//! Any view, itself a vizketch: a call is that of the variant.

ghost use Rattle.std.specs.Prelude.{◌≡◌, ◌↔◌, IfOk, IsTrue};
ghost use Rattle.std.specs.Cmp.{partial_equiv_from_equiv};
ghost use Rattle.std.proofs.Common.{ap};
ghost use Rattle.hv_value.specs.Same.{same_by};
ghost use Rattle.hv_value.specs.SameLaws.{same_by-decides, same_by-equiv};
ghost use Rattle.hv_view.specs.Keys.{view_writes};

use crate::AnySummary;
use hv_find::Find;
use hv_grid::{HeatMap, Stacked, Trellis};
use hv_heavy::{CountOf, MisraGries};
use hv_hist::{Cdf, Histogram};
use hv_next::NextRows;
use hv_quant::Sample;
use hv_range::{Distinct, Range};
use hv_sketch::{Grouped, Vizketch};
use hv_value::{Mem, Schema, Table};
use std::alloc::Global;
use std::hash::{Hash, Hasher};

/// A view, one variant a vizketch.
#[derive(Drop)]
pub enum AnyView {
    Range(Range),
    Distinct(Distinct),
    Histogram(Histogram),
    Cdf(Cdf),
    Stacked(Stacked),
    HeatMap(HeatMap),
    TrellisHistogram(Trellis<Histogram>),
    TrellisHeatMap(Trellis<HeatMap>),
    NextRows(NextRows),
    Find(Find),
    Heavy(MisraGries),
    CountOf(CountOf),
    Sample(Sample),
}

impl AnyView {
    /// An equal view.
    pub fn copied(&self, alloc: Global) -> Mem<AnyView>
        ensures { IfOk result (λ view. view ≡ self.now) }
    {
        Ok(match self {
            AnyView::Range(view) => AnyView::Range(*view),
            AnyView::Distinct(view) => AnyView::Distinct(*view),
            AnyView::Histogram(view) => AnyView::Histogram(view.copied(alloc)?),
            AnyView::Cdf(view) => AnyView::Cdf(view.copied(alloc)?),
            AnyView::Stacked(view) => AnyView::Stacked(view.copied(alloc)?),
            AnyView::HeatMap(view) => AnyView::HeatMap(view.copied(alloc)?),
            AnyView::TrellisHistogram(view) => AnyView::TrellisHistogram(Grouped::new(
                view.groups.copied(alloc)?,
                view.inner.copied(alloc)?,
            )),
            AnyView::TrellisHeatMap(view) => AnyView::TrellisHeatMap(Grouped::new(
                view.groups.copied(alloc)?,
                view.inner.copied(alloc)?,
            )),
            AnyView::NextRows(view) => AnyView::NextRows(view.copied(alloc)?),
            AnyView::Find(view) => AnyView::Find(view.copied(alloc)?),
            AnyView::Heavy(view) => AnyView::Heavy(*view),
            AnyView::CountOf(view) => AnyView::CountOf(view.copied(alloc)?),
            AnyView::Sample(view) => AnyView::Sample(view.copied(alloc)?),
        })
    }

    /// Whether two views are the same.
    pub fn same(&self, other: &AnyView) -> bool
        ensures { IsTrue result ↔ (self.now ≡ other.now) }
    {
        match (self, other) {
            (AnyView::Range(view), AnyView::Range(other)) => view == other,
            (AnyView::Distinct(view), AnyView::Distinct(other)) => view == other,
            (AnyView::Histogram(view), AnyView::Histogram(other)) => view.same(other),
            (AnyView::Cdf(view), AnyView::Cdf(other)) => view.same(other),
            (AnyView::Stacked(view), AnyView::Stacked(other)) => view.same(other),
            (AnyView::HeatMap(view), AnyView::HeatMap(other)) => view.same(other),
            (AnyView::TrellisHistogram(view), AnyView::TrellisHistogram(other)) => {
                view.groups.same(&other.groups) && view.inner.same(&other.inner)
            }
            (AnyView::TrellisHeatMap(view), AnyView::TrellisHeatMap(other)) => {
                view.groups.same(&other.groups) && view.inner.same(&other.inner)
            }
            (AnyView::NextRows(view), AnyView::NextRows(other)) => view.same(other),
            (AnyView::Find(view), AnyView::Find(other)) => view.same(other),
            (AnyView::Heavy(view), AnyView::Heavy(other)) => view == other,
            (AnyView::CountOf(view), AnyView::CountOf(other)) => view.same(other),
            (AnyView::Sample(view), AnyView::Sample(other)) => view.same(other),
            _ => false,
        }
    }
}

/// Two views are equal where they are the same.
impl PartialEq for AnyView {
    ghost use Rattle.hv_view.specs.contracts.any_view.AnyView as row;

    ghost eq = { same_by row.the_row.coded };

    ghost laws = { partial_equiv_from_equiv (same_by-equiv row.the_row.coded) };

    fn eq(&self, other: &AnyView) -> bool {
        self.same(other)
    }
}

impl Eq for AnyView {
    ghost use Rattle.hv_view.specs.contracts.any_view.AnyView as row;

    ghost laws = { same_by-equiv row.the_row.coded };
}

/// The same views write the same into a hasher.
impl Hash for AnyView {
    ghost use Rattle.hv_view.specs.contracts.any_view.AnyView as row;

    ghost hash_input = { view_writes };

    ghost respects_eq = { λ x y e. ap view_writes ((same_by-decides row.the_row.coded x y).0 e) };

    fn hash<H: Hasher>(&self, state: &mut H) {
        match self {
            AnyView::Range(view) => {
                state.write_u8(0);
                state.write_u32(view.col);
            }
            AnyView::Distinct(view) => {
                state.write_u8(1);
                state.write_u32(view.col);
                state.write_u32(view.k);
            }
            AnyView::Histogram(view) => {
                state.write_u8(2);
                view.axis.hash(state);
            }
            AnyView::Cdf(view) => {
                state.write_u8(3);
                view.histogram.axis.hash(state);
            }
            AnyView::Stacked(view) => {
                state.write_u8(4);
                view.x.hash(state);
                view.y.hash(state);
            }
            AnyView::HeatMap(view) => {
                state.write_u8(5);
                view.x.hash(state);
                view.y.hash(state);
            }
            AnyView::TrellisHistogram(view) => {
                state.write_u8(6);
                view.groups.0.hash(state);
                view.inner.axis.hash(state);
            }
            AnyView::TrellisHeatMap(view) => {
                state.write_u8(7);
                view.groups.0.hash(state);
                view.inner.x.hash(state);
                view.inner.y.hash(state);
            }
            AnyView::NextRows(view) => {
                state.write_u8(8);
                view.hash(state);
            }
            AnyView::Find(view) => {
                state.write_u8(9);
                view.hash(state);
            }
            AnyView::Heavy(view) => {
                state.write_u8(10);
                state.write_u32(view.col);
                state.write_u32(view.k);
            }
            AnyView::CountOf(view) => {
                state.write_u8(11);
                view.hash(state);
            }
            AnyView::Sample(view) => {
                state.write_u8(12);
                view.hash(state);
            }
        }
    }
}

impl Vizketch for AnyView {
    ghost use Rattle.hv_view.specs.AnyLaws.{StandsForAny-swap};
    ghost use Rattle.hv_view.specs.Stands.{FitsAny, MergesAlways, StandsForAny};

    type Summary = AnySummary;

    ghost stands = { StandsForAny };

    ghost fits_columns = { FitsAny };

    ghost merges_always = { MergesAlways };

    fn fits(&self, schema: &Schema) -> bool {
        match self {
            AnyView::Range(view) => view.fits(schema),
            AnyView::Distinct(view) => view.fits(schema),
            AnyView::Histogram(view) => view.fits(schema),
            AnyView::Cdf(view) => view.fits(schema),
            AnyView::Stacked(view) => view.fits(schema),
            AnyView::HeatMap(view) => view.fits(schema),
            AnyView::TrellisHistogram(view) => view.fits(schema),
            AnyView::TrellisHeatMap(view) => view.fits(schema),
            AnyView::NextRows(view) => view.fits(schema),
            AnyView::Find(view) => view.fits(schema),
            AnyView::Heavy(view) => view.fits(schema),
            AnyView::CountOf(view) => view.fits(schema),
            AnyView::Sample(view) => view.fits(schema),
        }
    }

    #[tactic(auto, unfolding(crate::specs::Stands::StandsForAny))]
    fn zero(&self, alloc: Global) -> Mem<AnySummary> {
        Ok(match self {
            AnyView::Range(view) => AnySummary::Range(view.zero(alloc)?),
            AnyView::Distinct(view) => AnySummary::Distinct(view.zero(alloc)?),
            AnyView::Histogram(view) => AnySummary::Histogram(view.zero(alloc)?),
            AnyView::Cdf(view) => AnySummary::Cdf(view.zero(alloc)?),
            AnyView::Stacked(view) => AnySummary::Stacked(view.zero(alloc)?),
            AnyView::HeatMap(view) => AnySummary::HeatMap(view.zero(alloc)?),
            AnyView::TrellisHistogram(view) => AnySummary::TrellisHistogram(view.zero(alloc)?),
            AnyView::TrellisHeatMap(view) => AnySummary::TrellisHeatMap(view.zero(alloc)?),
            AnyView::NextRows(view) => AnySummary::NextRows(view.zero(alloc)?),
            AnyView::Find(view) => AnySummary::Find(view.zero(alloc)?),
            AnyView::Heavy(view) => AnySummary::Heavy(view.zero(alloc)?),
            AnyView::CountOf(view) => AnySummary::CountOf(view.zero(alloc)?),
            AnyView::Sample(view) => AnySummary::Sample(view.zero(alloc)?),
        })
    }

    #[tactic(auto, unfolding(crate::specs::Stands::StandsForAny))]
    fn summarize<T: Table>(&self, alloc: Global, table: &T) -> Mem<AnySummary> {
        Ok(match self {
            AnyView::Range(view) => AnySummary::Range(view.summarize(alloc, table)?),
            AnyView::Distinct(view) => AnySummary::Distinct(view.summarize(alloc, table)?),
            AnyView::Histogram(view) => AnySummary::Histogram(view.summarize(alloc, table)?),
            AnyView::Cdf(view) => AnySummary::Cdf(view.summarize(alloc, table)?),
            AnyView::Stacked(view) => AnySummary::Stacked(view.summarize(alloc, table)?),
            AnyView::HeatMap(view) => AnySummary::HeatMap(view.summarize(alloc, table)?),
            AnyView::TrellisHistogram(view) => AnySummary::TrellisHistogram(view.summarize(
                alloc, table,
            )?),
            AnyView::TrellisHeatMap(view) => AnySummary::TrellisHeatMap(view.summarize(
                alloc, table,
            )?),
            AnyView::NextRows(view) => AnySummary::NextRows(view.summarize(alloc, table)?),
            AnyView::Find(view) => AnySummary::Find(view.summarize(alloc, table)?),
            AnyView::Heavy(view) => AnySummary::Heavy(view.summarize(alloc, table)?),
            AnyView::CountOf(view) => AnySummary::CountOf(view.summarize(alloc, table)?),
            AnyView::Sample(view) => AnySummary::Sample(view.summarize(alloc, table)?),
        })
    }

    #[tactic(auto, unfolding(crate::specs::Stands::StandsForAny))]
    fn merge_into(&self, alloc: Global, acc: &mut AnySummary, d: &AnySummary) -> Mem<()> {
        match (self, acc, d) {
            (AnyView::Range(view), AnySummary::Range(acc), AnySummary::Range(d)) => {
                view.merge_into(alloc, acc, d)
            }
            (AnyView::Distinct(view), AnySummary::Distinct(acc), AnySummary::Distinct(d)) => {
                view.merge_into(alloc, acc, d)
            }
            (AnyView::Histogram(view), AnySummary::Histogram(acc), AnySummary::Histogram(d)) => {
                view.merge_into(alloc, acc, d)
            }
            (AnyView::Cdf(view), AnySummary::Cdf(acc), AnySummary::Cdf(d)) => {
                view.merge_into(alloc, acc, d)
            }
            (AnyView::Stacked(view), AnySummary::Stacked(acc), AnySummary::Stacked(d)) => {
                view.merge_into(alloc, acc, d)
            }
            (AnyView::HeatMap(view), AnySummary::HeatMap(acc), AnySummary::HeatMap(d)) => {
                view.merge_into(alloc, acc, d)
            }
            (
                AnyView::TrellisHistogram(view),
                AnySummary::TrellisHistogram(acc),
                AnySummary::TrellisHistogram(d),
            ) => { view.merge_into(alloc, acc, d) }
            (
                AnyView::TrellisHeatMap(view),
                AnySummary::TrellisHeatMap(acc),
                AnySummary::TrellisHeatMap(d),
            ) => { view.merge_into(alloc, acc, d) }
            (AnyView::NextRows(view), AnySummary::NextRows(acc), AnySummary::NextRows(d)) => {
                view.merge_into(alloc, acc, d)
            }
            (AnyView::Find(view), AnySummary::Find(acc), AnySummary::Find(d)) => {
                view.merge_into(alloc, acc, d)
            }
            (AnyView::Heavy(view), AnySummary::Heavy(acc), AnySummary::Heavy(d)) => {
                view.merge_into(alloc, acc, d)
            }
            (AnyView::CountOf(view), AnySummary::CountOf(acc), AnySummary::CountOf(d)) => {
                view.merge_into(alloc, acc, d)
            }
            (AnyView::Sample(view), AnySummary::Sample(acc), AnySummary::Sample(d)) => {
                view.merge_into(alloc, acc, d)
            }
            _ => unreachable!(),
        }
    }

    #[tactic(auto, unfolding(crate::specs::Stands::StandsForAny))]
    fn copy(&self, alloc: Global, s: &AnySummary) -> Mem<AnySummary> {
        Ok(match (self, s) {
            (AnyView::Range(view), AnySummary::Range(s)) => AnySummary::Range(view.copy(alloc, s)?),
            (AnyView::Distinct(view), AnySummary::Distinct(s)) => {
                AnySummary::Distinct(view.copy(alloc, s)?)
            }
            (AnyView::Histogram(view), AnySummary::Histogram(s)) => {
                AnySummary::Histogram(view.copy(alloc, s)?)
            }
            (AnyView::Cdf(view), AnySummary::Cdf(s)) => AnySummary::Cdf(view.copy(alloc, s)?),
            (AnyView::Stacked(view), AnySummary::Stacked(s)) => AnySummary::Stacked(view.copy(
                alloc, s,
            )?),
            (AnyView::HeatMap(view), AnySummary::HeatMap(s)) => AnySummary::HeatMap(view.copy(
                alloc, s,
            )?),
            (AnyView::TrellisHistogram(view), AnySummary::TrellisHistogram(s)) =>
                AnySummary::TrellisHistogram(view.copy(alloc, s)?),
            (AnyView::TrellisHeatMap(view), AnySummary::TrellisHeatMap(s)) =>
                AnySummary::TrellisHeatMap(view.copy(alloc, s)?),
            (AnyView::NextRows(view), AnySummary::NextRows(s)) => {
                AnySummary::NextRows(view.copy(alloc, s)?)
            }
            (AnyView::Find(view), AnySummary::Find(s)) => AnySummary::Find(view.copy(alloc, s)?),
            (AnyView::Heavy(view), AnySummary::Heavy(s)) => AnySummary::Heavy(view.copy(alloc, s)?),
            (AnyView::CountOf(view), AnySummary::CountOf(s)) => {
                AnySummary::CountOf(view.copy(alloc, s)?)
            }
            (AnyView::Sample(view), AnySummary::Sample(s)) => AnySummary::Sample(view.copy(
                alloc, s,
            )?),
            // a summary of another view stands for nothing, so any summary will do
            _ => return self.zero(alloc),
        })
    }

    ghost any_order = { StandsForAny-swap };
}
