//! Views that a message asks for. What each means is said in specs/Views.antt.

ghost use Rattle.std.specs.Prelude.{◌≡◌, pos, true, unsigned_abs, IfOk};
ghost use Rattle.std.specs.List.{All, list_all};
ghost use Rattle.serde_json.specs.View.{view};
ghost use Rattle.hv_value.specs.declared.cell.Kind.TheVariants as kind;
ghost use Rattle.hv_sketch.specs.Columns.{IsColumnOf};
ghost use Rattle.hv_view.specs.Plans.{FitsPlan};
ghost use Rattle.hv_asked.specs.Constants.{fits_cell};
ghost use Rattle.hv_asked.specs.Flaws.{all_meant, map_ok};
ghost use Rattle.hv_asked.specs.Meant.{IsField, Tells};
ghost use Rattle.hv_asked.specs.Orders.{fits_order, order_over};
ghost use Rattle.hv_message.specs.declared.asked.ViewAsked.TheVariants as wanted;
ghost use Rattle.hv_message.specs.Views as seen;

use crate::asked::{InnerAsked, ViewAsked};
use crate::samples::seed_of;
use hv_asked::axes::{axes_in, axis_in, column, one_axis, three_axes, two_axes};
use hv_asked::fields::{field, name, names, number, word};
use hv_asked::orders::{order_alone_in, order_in, order_over};
use hv_asked::preds::test_in;
use hv_asked::values::{values_at, values_beside};
use hv_asked::{AxisAsked, CellAsked, OrderAsked, Refused, Why};
use hv_bucket::MAX_BUCKETS;
use hv_expr::TextTest;
use hv_find::Find;
use hv_grid::{ByAxis, HeatMap, Stacked};
use hv_heavy::{CountOf, MisraGries};
use hv_hist::{Cdf, Histogram};
use hv_next::NextRows;
use hv_quant::Sample;
use hv_range::{Distinct, Range};
use hv_sketch::Grouped;
use hv_value::{Kind, Listed, Order, Schema, Text};
use hv_view::{AnyView, Plan};
use serde_json::Value;
use std::alloc::Global;

fn range_of(alloc: Global, value: &Value) -> Result<ViewAsked, Refused>
    ensures { IsField result (seen.range_of (view value.now)) }
{
    Ok(ViewAsked::Range(name(alloc, value, "col")?))
}

fn distinct_of(alloc: Global, value: &Value) -> Result<ViewAsked, Refused>
    ensures { IsField result (seen.distinct_of (view value.now)) }
{
    let col = name(alloc, value, "col")?;
    let k = number(value, "k")?;
    Ok(ViewAsked::Distinct(col, k))
}

fn stacked_of(alloc: Global, value: &Value) -> Result<ViewAsked, Refused>
    ensures { IsField result (seen.stacked_of (view value.now)) }
{
    let (x, y) = axes_in(alloc, value)?;
    Ok(ViewAsked::Stacked(x, y))
}

fn heat_map_of(alloc: Global, value: &Value) -> Result<ViewAsked, Refused>
    ensures { IsField result (seen.heat_map_of (view value.now)) }
{
    let (x, y) = axes_in(alloc, value)?;
    Ok(ViewAsked::HeatMap(x, y))
}

fn next_of(alloc: Global, value: &Value) -> Result<ViewAsked, Refused>
    ensures { IsField result (seen.next_of (view value.now)) }
{
    let order = order_in(alloc, value)?;
    let k = number(value, "k")?;
    Ok(ViewAsked::Next(order, k))
}

fn find_of(alloc: Global, value: &Value) -> Result<ViewAsked, Refused>
    ensures { IsField result (seen.find_of (view value.now)) }
{
    let cols = names(alloc, value, "cols")?;
    let test = test_in(alloc, field(value, "test")?)?;
    let order = order_in(alloc, value)?;
    Ok(ViewAsked::Find(cols, test, order))
}

/// The column of a view, and a whole number under a key.
fn column_and(alloc: Global, value: &Value, key: &str) -> Result<(Text, i128), Refused>
    ensures { IsField result (seen.column_and key.now (view value.now)) }
{
    let col = name(alloc, value, "col")?;
    let n = number(value, key)?;
    Ok((col, n))
}

fn heavy_of(alloc: Global, value: &Value) -> Result<ViewAsked, Refused>
    ensures { IsField result (seen.heavy_of (view value.now)) }
{
    let (col, k) = column_and(alloc, value, "k")?;
    Ok(ViewAsked::Heavy(col, k))
}

fn count_of(alloc: Global, value: &Value) -> Result<ViewAsked, Refused>
    ensures { IsField result (seen.count_of (view value.now)) }
{
    let col = name(alloc, value, "col")?;
    let values = values_at(alloc, value, "values")?;
    Ok(ViewAsked::Count(col, values))
}

fn auto_of(alloc: Global, value: &Value) -> Result<ViewAsked, Refused>
    ensures { IsField result (seen.auto_of (view value.now)) }
{
    let (col, n) = column_and(alloc, value, "n")?;
    Ok(ViewAsked::Auto(col, n))
}

fn frequent_of(alloc: Global, value: &Value) -> Result<ViewAsked, Refused>
    ensures { IsField result (seen.frequent_of (view value.now)) }
{
    let (col, k) = column_and(alloc, value, "k")?;
    Ok(ViewAsked::Frequent(col, k))
}

fn quantiles_of(alloc: Global, value: &Value) -> Result<ViewAsked, Refused>
    ensures { IsField result (seen.quantiles_of (view value.now)) }
{
    let order = order_alone_in(alloc, value)?;
    let k = number(value, "k")?;
    let q = number(value, "q")?;
    let seed = number(value, "seed")?;
    Ok(ViewAsked::Quantiles(order, k, q, seed))
}

fn trellis_of(alloc: Global, value: &Value) -> Result<ViewAsked, Refused>
    ensures { IsField result (seen.trellis_of (view value.now)) }
{
    let by = axis_in(alloc, value, "by")?;
    let inner = inner_of(alloc, field(value, "view")?)?;
    Ok(ViewAsked::Trellis(by, inner))
}

/// The view that is taken of each group's rows.
fn inner_of(alloc: Global, value: &Value) -> Result<InnerAsked, Refused>
    ensures { IsField result (seen.inner_of (view value.now)) }
{
    match word(value, "kind")? {
        "histogram" => Ok(InnerAsked::Histogram(axis_in(alloc, value, "axis")?)),
        "heatmap" => {
            let (x, y) = axes_in(alloc, value)?;
            Ok(InnerAsked::HeatMap(x, y))
        }
        _ => Err(Refused::Word(Why::Field)),
    }
}

fn view_of(alloc: Global, value: &Value) -> Result<ViewAsked, Refused>
    ensures { IsField result (seen.view_of (view value.now)) }
{
    match word(value, "kind")? {
        "range" => range_of(alloc, value),
        "distinct" => distinct_of(alloc, value),
        "histogram" => Ok(ViewAsked::Histogram(axis_in(alloc, value, "axis")?)),
        "cdf" => Ok(ViewAsked::Cdf(axis_in(alloc, value, "axis")?)),
        "stacked" => stacked_of(alloc, value),
        "heatmap" => heat_map_of(alloc, value),
        "trellis" => trellis_of(alloc, value),
        "next" => next_of(alloc, value),
        "find" => find_of(alloc, value),
        "heavy" => heavy_of(alloc, value),
        "count" => count_of(alloc, value),
        "auto" => auto_of(alloc, value),
        "frequent" => frequent_of(alloc, value),
        "quantiles" => quantiles_of(alloc, value),
        _ => Err(Refused::Word(Why::Field)),
    }
}

/// The view that a message asks for.
pub(crate) fn view_in(alloc: Global, value: &Value) -> Result<ViewAsked, Refused>
    ensures { IsField result (seen.view_in (view value.now)) }
{
    view_of(alloc, field(value, "view")?)
}

/// The plan of what is asked for, over the columns of a schema.
pub(crate) fn planned(alloc: Global, schema: &Schema, wanted: ViewAsked) -> Result<Plan, Refused>
    requires { seen.fits_view wanted ≡ true }
    ensures value { Tells result (seen.planned schema.now wanted) }
    ensures fits { IfOk result (λ plan. FitsPlan plan schema.now) }
{
    match wanted {
        ViewAsked::Range(name) => {
            let (col, kind) = column(schema, &name)?;
            Ok(Plan::One(AnyView::Range(Range::new(col, kind))))
        }
        ViewAsked::Distinct(name, k) => {
            let (col, _) = column(schema, &name)?;
            Ok(Plan::One(AnyView::Distinct(Distinct::new(col, k as u32))))
        }
        ViewAsked::Histogram(x) => {
            let histogram = Histogram::new(one_axis(schema, x)?);
            Ok(Plan::One(AnyView::Histogram(histogram)))
        }
        ViewAsked::Cdf(x) => {
            let cdf = Cdf::new(one_axis(schema, x)?);
            Ok(Plan::One(AnyView::Cdf(cdf)))
        }
        ViewAsked::Stacked(x, y) => {
            let (x, y) = two_axes(schema, x, y)?;
            Ok(Plan::One(AnyView::Stacked(Stacked::new(x, y))))
        }
        ViewAsked::HeatMap(x, y) => {
            let (x, y) = two_axes(schema, x, y)?;
            Ok(Plan::One(AnyView::HeatMap(HeatMap::new(x, y))))
        }
        ViewAsked::Trellis(by, inner) => trellis_over(schema, by, inner),
        ViewAsked::Next(order, k) => next_over(alloc, schema, order, k as u32),
        ViewAsked::Find(cols, test, order) => find_over(alloc, schema, cols, test, order),
        ViewAsked::Heavy(name, k) => {
            let (col, _) = column(schema, &name)?;
            Ok(Plan::One(AnyView::Heavy(MisraGries::new(col, k as u32))))
        }
        ViewAsked::Count(name, values) => count_over(alloc, schema, &name, values.as_slice()),
        ViewAsked::Auto(name, n) => Ok(auto_over(schema, &name, n)?),
        ViewAsked::Frequent(name, k) => {
            let (col, _) = column(schema, &name)?;
            Ok(Plan::Frequent { col, k: k as u32 })
        }
        ViewAsked::Quantiles(order, k, q, seed) => {
            quantiles_over(alloc, schema, order, k, q, seed)
        }
    }
}

/// The plan of the counts of values in the column with a name.
fn count_over(
    alloc: Global,
    schema: &Schema,
    name: &Text,
    asked: &[CellAsked],
) -> Result<Plan, Refused>
    requires { list_all fits_cell asked.now ≡ true }
    ensures value { Tells result (seen.planned schema.now (wanted.Count name.now asked.now)) }
    ensures fits { IfOk result (λ plan. FitsPlan plan schema.now) }
{
    let (col, kind) = column(schema, name)?;
    let values = values_beside(alloc, kind, asked)?;
    Ok(Plan::One(AnyView::CountOf(CountOf { col, values })))
}

/// The plan of the histogram of the column with a name between its own ends. `Why::Kind` where it is one of texts, then
/// `Why::Buckets` where so many buckets can't be.
fn auto_over(schema: &Schema, name: &Text, n: i128) -> Result<Plan, Why>
    ensures value { result ≡ seen.planned schema.now (wanted.Auto name.now n) }
    ensures fits { IfOk result (λ plan. FitsPlan plan schema.now) }
{
    let (col, kind) = column(schema, name)?;
    if kind == Kind::Text {
        return Err(Why::Kind);
    }
    if n < 1 || n > i128::from(MAX_BUCKETS) {
        return Err(Why::Buckets);
    }
    Ok(Plan::AutoHistogram { col, n: n as u32 })
}

/// The plan of the next rows, `k` of them at most.
fn next_over(alloc: Global, schema: &Schema, asked: OrderAsked, k: u32) -> Result<Plan, Refused>
    requires { fits_order asked ≡ true }
    ensures value { Tells result (map_ok (seen.next_plan (pos k)) (order_over schema.now asked)) }
    ensures fits { IfOk result (λ plan. FitsPlan plan schema.now) }
{
    let (order, after) = order_over(alloc, schema, asked)?;
    Ok(Plan::One(AnyView::NextRows(NextRows { order, after, k })))
}

/// The plan of a sample of `k` rows at most, for `q` quantiles.
fn quantiles_over(
    alloc: Global,
    schema: &Schema,
    asked: OrderAsked,
    k: i128,
    q: i128,
    seed: i128,
) -> Result<Plan, Refused>
    requires order { fits_order asked ≡ true }
    requires numbers { seen.fit_numbers k q seed ≡ true }
    ensures value { Tells result (map_ok (seen.quantiles_plan k q seed) (order_over schema.now asked)) }
    ensures fits { IfOk result (λ plan. FitsPlan plan schema.now) }
{
    let (order, _) = order_over(alloc, schema, asked)?;
    Ok(Plan::One(AnyView::Sample(sample(order, k, q, seed))))
}

/// A sample of `k` rows at most, for `q` quantiles.
#[tactic(auto, unfolding(crate::specs::Views::fit_numbers))]
fn sample(order: Order, k: i128, q: i128, seed: i128) -> Sample
    requires { seen.fit_numbers k q seed ≡ true }
    ensures { result ≡ record {
      order = order;
      seed = unsigned_abs seed;
      k = unsigned_abs k;
      q = unsigned_abs q;
    } }
{
    Sample::new(order, seed_of(seed), k as u32, q as u32)
}

/// The plan of a search for a text in the columns with these names.
fn find_over(
    alloc: Global,
    schema: &Schema,
    names: Listed<Text>,
    test: TextTest,
    asked: OrderAsked,
) -> Result<Plan, Refused>
    requires { fits_order asked ≡ true }
    ensures value { Tells result (seen.planned schema.now (wanted.Find names test asked)) }
    ensures fits { IfOk result (λ plan. FitsPlan plan schema.now) }
{
    let cols = text_columns(alloc, schema, names.as_slice())?;
    let (order, after) = order_over(alloc, schema, asked)?;
    let find = Find {
        cols,
        test,
        order,
        after,
    };
    Ok(Plan::One(AnyView::Find(find)))
}

/// The places of the columns with these names, each of which has to be one of texts.
fn text_columns(alloc: Global, schema: &Schema, names: &[Text]) -> Result<Listed<u32>, Refused>
    ensures value { Tells result (all_meant (seen.text_named schema.now) names.now) }
    ensures there { IfOk result (λ cols. All (λ col. IsColumnOf schema.now col kind.Text) cols) }
{
    let mut cols = Listed::new(alloc);
    let mut rest = names;
    while let [first, after @ ..] = rest {
        cols.push(text_column(schema, first)?)?;
        rest = after;
    }
    Ok(cols)
}

/// The place of the column with a name, which has to be one of texts.
fn text_column(schema: &Schema, name: &Text) -> Result<u32, Why>
    ensures value { result ≡ seen.text_named schema.now name.now }
    ensures there { IfOk result (λ col. IsColumnOf schema.now col kind.Text) }
{
    match column(schema, name)? {
        (col, Kind::Text) => Ok(col),
        _ => Err(Why::Kind),
    }
}

/// The plan of a view of the rows of each bucket of an axis.
fn trellis_over(schema: &Schema, by: AxisAsked, inner: InnerAsked) -> Result<Plan, Refused>
    requires { seen.fits_trellis by inner ≡ true }
    ensures value { Tells result (seen.trellis_over schema.now by inner) }
    ensures fits { IfOk result (λ plan. FitsPlan plan schema.now) }
{
    match inner {
        InnerAsked::Histogram(x) => {
            let (by, x) = two_axes(schema, by, x)?;
            let trellis = Grouped::new(ByAxis(by), Histogram::new(x));
            Ok(Plan::One(AnyView::TrellisHistogram(trellis)))
        }
        InnerAsked::HeatMap(x, y) => {
            let (by, (x, y)) = three_axes(schema, by, x, y)?;
            let trellis = Grouped::new(ByAxis(by), HeatMap::new(x, y));
            Ok(Plan::One(AnyView::TrellisHeatMap(trellis)))
        }
    }
}
