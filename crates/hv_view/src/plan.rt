//! Plans: how the value that was asked for comes of views. One view's value may be all, or a second view follows
//! that depends on it. The definitions are in specs/Plans.antt, one case a plan.

ghost use Rattle.std.specs.Prelude.{◌≡◌, ◌≤◌, ◌↔◌, true, List, IfOk, IfSome, IsSome, IsTrue};
ghost use Rattle.std.specs.Cmp.{partial_equiv_from_equiv};
ghost use Rattle.std.proofs.Common.{ap};
ghost use Rattle.hv_value.specs.Same.{same_by};
ghost use Rattle.hv_value.specs.SameLaws.{same_by-decides, same_by-equiv};
ghost use Rattle.hv_view.specs.Keys.{plan_writes};
ghost use Rattle.hv_value.specs.Rows.{Row};
ghost use Rattle.hv_value.specs.Schema.{Columns};
ghost use Rattle.hv_view.specs.Auto.{auto_axis, do_rise};
ghost use Rattle.hv_view.specs.Plans.{EndsAtFirst, FitsPlan, FollowsHeavy, auto_next, IsConclusion, IsFirstValue, IsFirstView, IsNext, IsSecondValue, OfPlan, value_next, view_next};
ghost use Rattle.hv_view.specs.Stands.{FitsAny};

use crate::auto::{auto_axis, between, without_buckets};
use crate::frequent::{frequent_among, pair_values};
use crate::{AnyView, Shown};
use hv_heavy::{CountOf, HeavySummary, MisraGries};
use hv_hist::Histogram;
use hv_range::Range;
use hv_value::{Cell, Mem, Schema};
use std::alloc::Global;
use std::hash::{Hash, Hasher};

/// How a value is made of views.
#[derive(Drop)]
pub enum Plan {
    /// The value of one view.
    One(AnyView),
    /// The histogram of a column of whole numbers or days, by its place from 0, in so many buckets between its least and
    /// its greatest cell: its range, and then the histogram.
    AutoHistogram { col: u32, n: u32 },
    /// The values that are more than one in k + 1 of the cells of a column that aren't missing, with their counts: its
    /// heavy hitters, and then how many cells each of them is.
    Frequent { col: u32, k: u32 },
}

/// What follows the value of a plan's first view.
#[derive(Drop)]
pub enum Second {
    /// A second view.
    View(AnyView),
    /// Nothing: the plan's value.
    Value(Shown),
}

impl Plan {
    /// An equal plan.
    pub fn copied(&self, alloc: Global) -> Mem<Plan>
        ensures { IfOk result (λ plan. plan ≡ self.now) }
    {
        Ok(match self {
            Plan::One(view) => Plan::One(view.copied(alloc)?),
            Plan::AutoHistogram { col, n } => Plan::AutoHistogram { col: *col, n: *n },
            Plan::Frequent { col, k } => Plan::Frequent { col: *col, k: *k },
        })
    }

    /// Whether two plans are the same.
    pub fn same(&self, other: &Plan) -> bool
        ensures { IsTrue result ↔ (self.now ≡ other.now) }
    {
        match (self, other) {
            (Plan::One(view), Plan::One(other)) => view.same(other),
            (
                Plan::AutoHistogram { col, n },
                Plan::AutoHistogram {
                    col: other_col,
                    n: other_n,
                },
            ) => col == other_col && n == other_n,
            (
                Plan::Frequent { col, k },
                Plan::Frequent {
                    col: other_col,
                    k: other_k,
                },
            ) => col == other_col && k == other_k,
            _ => false,
        }
    }
}

/// Two plans are equal where they are the same.
impl PartialEq for Plan {
    ghost use Rattle.hv_view.specs.contracts.plan.Plan as row;

    ghost eq = { same_by row.the_row.coded };

    ghost laws = { partial_equiv_from_equiv (same_by-equiv row.the_row.coded) };

    fn eq(&self, other: &Plan) -> bool {
        self.same(other)
    }
}

impl Eq for Plan {
    ghost use Rattle.hv_view.specs.contracts.plan.Plan as row;

    ghost laws = { same_by-equiv row.the_row.coded };
}

/// The same plans write the same into a hasher.
impl Hash for Plan {
    ghost use Rattle.hv_view.specs.contracts.plan.Plan as row;

    ghost hash_input = { plan_writes };

    ghost respects_eq = { λ x y e. ap plan_writes ((same_by-decides row.the_row.coded x y).0 e) };

    fn hash<H: Hasher>(&self, state: &mut H) {
        match self {
            Plan::One(view) => {
                state.write_u8(0);
                view.hash(state);
            }
            Plan::AutoHistogram { col, n } => {
                state.write_u8(1);
                state.write_u32(*col);
                state.write_u32(*n);
            }
            Plan::Frequent { col, k } => {
                state.write_u8(2);
                state.write_u32(*col);
                state.write_u32(*k);
            }
        }
    }
}

/// The view with which a plan begins, under a schema for which the plan is right.
pub fn first_view(alloc: Global, plan: &Plan, schema: &Schema) -> Mem<AnyView>
    requires { FitsPlan plan.now schema.now }
    ensures value { IfOk result (λ view. IsFirstView plan.now schema.now view) }
    ensures fits { IfOk result (λ view. FitsAny view schema.now) }
{
    match plan {
        Plan::One(view) => view.copied(alloc),
        Plan::AutoHistogram { col, .. } => {
            let kind = schema.kind(*col);
            Ok(AnyView::Range(Range::new(*col, kind)))
        }
        Plan::Frequent { col, k } => Ok(AnyView::Heavy(MisraGries::new(*col, *k))),
    }
}

/// What follows the value of a plan's first view: the plan's value exactly where no second view is needed.
pub fn then(alloc: Global, plan: &Plan, schema: &Schema, first: &Shown) -> Mem<Second>
    requires fit { FitsPlan plan.now schema.now }
    requires shown { (rows : List Row) × IsFirstValue plan.now schema.now rows first.now }
    ensures next { IfOk result (λ next. IsNext plan.now schema.now first.now next) }
    ensures at_once { IfOk result (λ next. IsSome (value_next next) ↔ EndsAtFirst plan.now first.now) }
    ensures fits { IfOk result (λ next. IfSome (view_next next) (λ view. FitsAny view schema.now)) }
    ensures value { IfOk result (λ next. IfSome (value_next next) (λ value. (rows : List Row)
        → IsFirstValue plan.now schema.now rows first.now → OfPlan plan.now rows rows value)) }
{
    let _ = schema;
    match (plan, first) {
        (Plan::One(_), first) => Ok(Second::Value(first.copied(alloc)?)),
        (
            Plan::AutoHistogram { col, n },
            Shown::Range {
                max,
                min,
                missing,
                ..
            },
        ) => after_range(alloc, *col, *n, min, max, *missing),
        (Plan::Frequent { col, .. }, Shown::Heavy(found)) => after_heavy(alloc, *col, found),
        // the first value is another view's
        _ => unreachable!(),
    }
}

/// A plan's value, of the value of its first view and that of the view that follows. With one view, `second` is
/// that view's value.
pub fn conclude(alloc: Global, plan: &Plan, first: &Shown, second: Shown) -> Mem<Shown>
    requires { (columns : Columns) × (whole : List Row) × (rows : List Row) × FitsPlan plan.now columns
        × IsFirstValue plan.now columns whole first.now × IsSecondValue plan.now columns first.now rows second }
    ensures made { IfOk result (λ value. IsConclusion plan.now first.now second value) }
    ensures value { IfOk result (λ value. (columns : Columns) (whole : List Row) (rows : List Row)
        → FitsPlan plan.now columns → IsFirstValue plan.now columns whole first.now
        → IsSecondValue plan.now columns first.now rows second → OfPlan plan.now whole rows value) }
{
    match (plan, first, second) {
        (Plan::One(_), _, second) => Ok(second),
        (Plan::AutoHistogram { .. }, Shown::Range { max, min, .. }, Shown::Histogram(histogram)) =>
            Ok(Shown::Auto(between(alloc, min, max, histogram)?)),
        (Plan::Frequent { k, .. }, Shown::Heavy(found), Shown::CountOf(counted)) => {
            let value = frequent_among(alloc, *k, found.pairs.as_slice(), &counted)?;
            Ok(Shown::Frequent(value))
        }
        // the values are other views'
        _ => unreachable!(),
    }
}

/// What follows the range of a column: its histogram between the ends, or the value where there are none.
fn after_range(
    alloc: Global,
    col: u32,
    n: u32,
    least: &Cell,
    greatest: &Cell,
    missing: u64,
) -> Mem<Second>
    requires rise { do_rise least.now greatest.now ≡ true }
    requires some { 1 ≤ n }
    requires few { n ≤ 1024 }
    ensures { IfOk result (λ next.
        next ≡ auto_next (auto_axis col n least.now greatest.now) least.now greatest.now missing) }
{
    match auto_axis(col, n, least, greatest) {
        Some(axis) => Ok(Second::View(AnyView::Histogram(Histogram { axis }))),
        None => {
            let value = without_buckets(alloc, least, greatest, missing)?;
            Ok(Second::Value(Shown::Auto(value)))
        }
    }
}

/// What follows heavy hitters: the counts of their values.
fn after_heavy(alloc: Global, col: u32, found: &HeavySummary) -> Mem<Second>
    ensures { IfOk result (λ next. FollowsHeavy col (Shown.Heavy found.now) next) }
{
    let values = pair_values(alloc, found.pairs.as_slice())?;
    Ok(Second::View(AnyView::CountOf(CountOf { col, values })))
}
