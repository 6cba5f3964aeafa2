//! What a message asks for, before anything is looked up, and its limits. The definitions are in specs/Messages.antt,
//! specs/Terms.antt and specs/Views.antt; what its parts ask for is in hv_asked.

ghost use Rattle.std.specs.Prelude.{◌≡◌, min};
ghost use Rattle.hv_message.specs.Messages as means;
ghost use Rattle.hv_message.specs.Terms as term;
ghost use Rattle.hv_message.specs.Views as seen;

use crate::samples::{is_seed, is_seed_if_given, is_threshold};
use hv_asked::exprs::fits_expr;
use hv_asked::values::fit_values;
use hv_asked::{
    AxisAsked, CellAsked, MAX_COUNTS, MAX_DISTINCT, MAX_FIND_COLUMNS, MAX_GROUPS, MAX_HEAVY,
    MAX_NEXT, MAX_QUANTILES, MAX_SAMPLE, OrderAsked, PAST_COUNTS, PredAsked, TableAsked, do_fit,
    is_short, product,
};
use hv_expr::{Expr, TextTest};
use hv_lineage::How2;
use hv_value::{Listed, Text};

/// What an operation asks for. The numbers of objects and requests are any whole numbers of 64 bits.
#[derive(Drop)]
pub enum Asked {
    /// The object of a table.
    Load(TableAsked),
    /// A term over an object.
    Over(i128, TermAsked),
    /// Two objects, the left one and the right one, combined.
    Combine(How2, i128, i128),
    /// The rows of an object that are picked at a threshold, and the seed by which they are, where it is given.
    Sample(i128, i128, Option<i128>),
    /// What an object is.
    Info(i128),
    /// A view of an object.
    View(i128, ViewAsked),
    /// The end of a request.
    Cancel(i128),
    /// The end of the session's hearing.
    End,
}

/// What is put over a lineage, before its columns are looked up.
#[derive(Drop)]
pub enum TermAsked {
    /// The rows of which a predicate holds.
    Filter(PredAsked),
    /// The columns with these names.
    Project(Listed<Text>),
    /// One more column, by its name, of an expression's values.
    Derive(Text, Expr),
    /// The rows that are picked at a threshold by a seed.
    Sample(i128, i128),
}

/// A view, before its columns are looked up.
#[derive(Drop)]
pub enum ViewAsked {
    /// The range of the column with this name.
    Range(Text),
    /// The least different values of the column with this name, so many of them.
    Distinct(Text, i128),
    /// The histogram of an axis.
    Histogram(AxisAsked),
    /// The cumulative distribution of an axis.
    Cdf(AxisAsked),
    /// The stacked histogram of two axes.
    Stacked(AxisAsked, AxisAsked),
    /// The heat map of two axes.
    HeatMap(AxisAsked, AxisAsked),
    /// A view of the rows of each bucket of an axis.
    Trellis(AxisAsked, InnerAsked),
    /// The next rows in an order, so many of them.
    Next(OrderAsked, i128),
    /// The rows where one of the columns with these names meets a test, in an order.
    Find(Listed<Text>, TextTest, OrderAsked),
    /// The heavy hitters of the column with this name, so many of them at most.
    Heavy(Text, i128),
    /// How many cells of the column with this name are each of some values.
    Count(Text, Listed<CellAsked>),
    /// The histogram of the column with this name between its own ends, in so many buckets.
    Auto(Text, i128),
    /// The values that are more than one in k + 1 of the cells of the column with this name, without missing ones.
    Frequent(Text, i128),
    /// Of a sample of so many rows the keys in an order at so many even places, and the seed of the sample.
    Quantiles(OrderAsked, i128, i128, i128),
}

/// A view of the rows of each group, before its columns are looked up.
#[derive(Drop)]
pub enum InnerAsked {
    /// The histogram of an axis.
    Histogram(AxisAsked),
    /// The heat map of two axes.
    HeatMap(AxisAsked, AxisAsked),
}

impl Asked {
    /// Whether its numbers and lengths are within their limits.
    pub(crate) fn fits(&self) -> bool
        ensures { result ≡ means.fits self.now }
    {
        match self {
            Asked::Load(table) => table.fits(),
            Asked::Over(_, term) => term.fits(),
            Asked::Sample(_, threshold, seed) => {
                is_threshold(*threshold) && is_seed_if_given(*seed)
            }
            Asked::View(_, view) => view.fits(),
            Asked::Combine(_, _, _) | Asked::Info(_) | Asked::Cancel(_) | Asked::End => true,
        }
    }
}

impl TermAsked {
    pub(crate) fn fits(&self) -> bool
        ensures { result ≡ term.fits_term self.now }
    {
        match self {
            TermAsked::Filter(pred) => pred.fits(),
            TermAsked::Project(_) => true,
            TermAsked::Derive(_, expr) => fits_expr(expr),
            TermAsked::Sample(threshold, seed) => is_threshold(*threshold) && is_seed(*seed),
        }
    }
}

impl ViewAsked {
    pub(crate) fn fits(&self) -> bool
        ensures { result ≡ seen.fits_view self.now }
    {
        match self {
            ViewAsked::Range(_) => true,
            ViewAsked::Distinct(_, k) => is_from_one(MAX_DISTINCT, *k),
            ViewAsked::Histogram(axis) => axis.fits(),
            ViewAsked::Cdf(axis) => axis.fits(),
            ViewAsked::Stacked(x, y) => do_fit(x, y),
            ViewAsked::HeatMap(x, y) => do_fit(x, y),
            ViewAsked::Trellis(by, inner) => fits_trellis(by, inner),
            ViewAsked::Next(order, k) => order.fits() && is_from_one(MAX_NEXT, *k),
            ViewAsked::Find(cols, test, order) => fits_find(cols.as_slice(), test, order),
            ViewAsked::Heavy(_, k) | ViewAsked::Frequent(_, k) => is_from_one(MAX_HEAVY, *k),
            ViewAsked::Count(_, values) => fit_values(values.as_slice()),
            ViewAsked::Auto(_, _) => true,
            ViewAsked::Quantiles(order, k, q, seed) => order.fits() && fit_numbers(*k, *q, *seed),
        }
    }
}

impl InnerAsked {
    fn fits(&self) -> bool
        ensures { result ≡ seen.fits_inner self.now }
    {
        match self {
            InnerAsked::Histogram(x) => x.fits(),
            InnerAsked::HeatMap(x, y) => do_fit(x, y),
        }
    }

    /// How many counts it has, 65,537 where there are more.
    #[tactic(auto, using(hv_asked::proofs::AxisLemmas::cut_product))]
    fn counts(&self) -> u64
        ensures { result ≡ min (seen.counts_asked self.now) PAST_COUNTS }
    {
        match self {
            InnerAsked::Histogram(x) => x.buckets(),
            InnerAsked::HeatMap(x, y) => product(x.buckets(), y.buckets()),
        }
    }
}

/// Whether a whole number is one from 1 to the most.
fn is_from_one(most: u32, k: i128) -> bool
    ensures { result ≡ seen.is_from_one most k }
{
    1 <= k && k <= i128::from(most)
}

/// Whether the rows, the quantiles and the seed of a sample are within their limits.
#[tactic(auto, unfolding(crate::specs::Views::fit_numbers))]
fn fit_numbers(k: i128, q: i128, seed: i128) -> bool
    ensures { result ≡ seen.fit_numbers k q seed }
{
    is_from_one(MAX_SAMPLE, k) && 2 <= q && q <= i128::from(MAX_QUANTILES) && is_seed(seed)
}

/// Whether the columns, the test and the order of a search are within their limits.
fn fits_find(cols: &[Text], test: &TextTest, order: &OrderAsked) -> bool
    ensures { result ≡ seen.fits_find cols.now test.now order.now }
{
    1 <= cols.len()
        && cols.len() <= MAX_FIND_COLUMNS
        && is_short(test.text.as_str())
        && order.fits()
}

/// Whether the groups of an axis and a view of each are within their limits.
fn fits_trellis(by: &AxisAsked, inner: &InnerAsked) -> bool
    ensures { result ≡ seen.fits_trellis by.now inner.now }
{
    by.fits()
        && inner.fits()
        && by.buckets() <= MAX_GROUPS
        && product(by.buckets(), inner.counts()) <= MAX_COUNTS
}
