//! What is put over a lineage by a message or by a term of a lineage's text: what it asks for, and what it makes. The
//! definitions are in specs/Terms.antt.

ghost use Rattle.std.specs.Prelude.{◌≡◌, ◌≤◌, ◌^◌, true, IfOk};
ghost use Rattle.std.specs.Arc.{arc_value};
ghost use Rattle.serde_json.specs.View.{view};
ghost use Rattle.hv_expr.specs.Checks.{has_fit_factors};
ghost use Rattle.hv_lineage.specs.Combining.{sample_refusal, sampled};
ghost use Rattle.hv_lineage.specs.Lineages.{derive_refusal, derived, filter_refusal, filtered, project_refusal, projected};
ghost use Rattle.hv_asked.specs.Flaws.{and_then, within};
ghost use Rattle.hv_asked.specs.Meant.{Tells};
ghost use Rattle.hv_message.specs.Meant.{HasFitFactors, IsMade, refused_of};
ghost use Rattle.hv_message.specs.Terms as term;

use crate::asked::TermAsked;
use crate::samples::{seed_of, threshold_of};
use hv_asked::exprs::expr_in;
use hv_asked::fields::{field, name, names, number};
use hv_asked::preds::pred_in;
use hv_asked::{LEVELS, Refused, Why};
use hv_expr::{Expr, Pred};
use hv_lineage::{How2, Lineage, LineageErr};
use hv_value::{Listed, Text};
use serde_json::Value;
use std::alloc::Global;
use std::sync::Arc;

/// The filter that a value asks for.
pub(crate) fn filter_of(alloc: Global, value: &Value) -> Result<TermAsked, Refused>
    ensures value { Tells result (term.filter_of (view value.now)) }
    ensures fit { IfOk result HasFitFactors }
{
    let pred = pred_in(alloc, LEVELS, field(value, "pred")?)?;
    Ok(TermAsked::Filter(pred))
}

/// The choice of columns that a value asks for.
pub(crate) fn project_of(alloc: Global, value: &Value) -> Result<TermAsked, Refused>
    ensures value { Tells result (term.project_of (view value.now)) }
    ensures fit { IfOk result HasFitFactors }
{
    Ok(TermAsked::Project(names(alloc, value, "cols")?))
}

/// The derivation of a column that a value asks for.
pub(crate) fn derive_of(alloc: Global, value: &Value) -> Result<TermAsked, Refused>
    ensures value { Tells result (term.derive_of (view value.now)) }
    ensures fit { IfOk result HasFitFactors }
{
    let name = name(alloc, value, "name")?;
    let expr = expr_in(alloc, LEVELS, field(value, "expr")?)?;
    Ok(TermAsked::Derive(name, expr))
}

/// The sample that a value asks for.
fn sample_of(value: &Value) -> Result<TermAsked, Refused>
    ensures value { Tells result (term.sample_of (view value.now)) }
    ensures fit { IfOk result HasFitFactors }
{
    let threshold = number(value, "threshold")?;
    let seed = number(value, "seed")?;
    Ok(TermAsked::Sample(threshold, seed))
}

/// The lineage with the filter that a value asks for over it, where that is within its limits.
pub(crate) fn filter_over(
    alloc: Global,
    lineage: &Arc<Lineage>,
    value: &Value,
) -> Result<Arc<Lineage>, Refused>
    ensures { IsMade result
        (term.over term.filter_of (view value.now) (arc_value lineage.now)) }
{
    over(alloc, lineage, filter_of(alloc, value)?)
}

/// The lineage with the choice of columns that a value asks for over it, where that is within its limits.
pub(crate) fn project_over(
    alloc: Global,
    lineage: &Arc<Lineage>,
    value: &Value,
) -> Result<Arc<Lineage>, Refused>
    ensures { IsMade result
        (term.over term.project_of (view value.now) (arc_value lineage.now)) }
{
    over(alloc, lineage, project_of(alloc, value)?)
}

/// The lineage with the derivation of a column that a value asks for over it, where that is within its limits.
pub(crate) fn derive_over(
    alloc: Global,
    lineage: &Arc<Lineage>,
    value: &Value,
) -> Result<Arc<Lineage>, Refused>
    ensures { IsMade result
        (term.over term.derive_of (view value.now) (arc_value lineage.now)) }
{
    over(alloc, lineage, derive_of(alloc, value)?)
}

/// The lineage with the sample that a value asks for over it, where that is within its limits.
pub(crate) fn sample_over(
    alloc: Global,
    lineage: &Arc<Lineage>,
    value: &Value,
) -> Result<Arc<Lineage>, Refused>
    ensures { IsMade result
        (term.over term.sample_of (view value.now) (arc_value lineage.now)) }
{
    over(alloc, lineage, sample_of(value)?)
}

/// The lineage with what is asked for over it, where that is within its limits.
fn over(alloc: Global, lineage: &Arc<Lineage>, asked: TermAsked) -> Result<Arc<Lineage>, Refused>
    requires { HasFitFactors asked }
    ensures { IsMade result
        (and_then (λ fit. term.applied fit (arc_value lineage.now)) (within term.fits_term asked)) }
{
    if asked.fits() {
        applied(alloc, lineage, asked)
    } else {
        Err(Refused::Word(Why::Limit))
    }
}

/// The lineage with what is put over it.
pub(crate) fn applied(
    alloc: Global,
    lineage: &Arc<Lineage>,
    asked: TermAsked,
) -> Result<Arc<Lineage>, Refused>
    requires limits { term.fits_term asked ≡ true }
    requires fit { HasFitFactors asked }
    ensures { IsMade result (term.applied asked (arc_value lineage.now)) }
{
    match asked {
        TermAsked::Filter(pred) => {
            let dated = pred.over(alloc, lineage.schema())?;
            filtered(alloc, lineage, dated)
        }
        TermAsked::Project(cols) => projected(alloc, lineage, cols),
        TermAsked::Derive(name, expr) => derived(alloc, lineage, name, expr),
        TermAsked::Sample(threshold, seed) => {
            sampled(alloc, lineage, seed_of(seed), threshold_of(threshold))
        }
    }
}

fn filtered(alloc: Global, lineage: &Arc<Lineage>, pred: Pred) -> Result<Arc<Lineage>, Refused>
    ensures { IsMade result
        (term.unless_refused (filter_refusal (arc_value lineage.now) pred)
        (filtered (arc_value lineage.now) pred)) }
{
    Lineage::filter(alloc, lineage, pred).map_err(refused_of)
}

fn projected(
    alloc: Global,
    lineage: &Arc<Lineage>,
    cols: Listed<Text>,
) -> Result<Arc<Lineage>, Refused>
    ensures { IsMade result
        (term.unless_refused (project_refusal (arc_value lineage.now) cols)
        (projected (arc_value lineage.now) cols)) }
{
    Lineage::project(alloc, lineage, cols.into_vec()).map_err(refused_of)
}

fn derived(
    alloc: Global,
    lineage: &Arc<Lineage>,
    name: Text,
    expr: Expr,
) -> Result<Arc<Lineage>, Refused>
    requires { has_fit_factors expr ≡ true }
    ensures { IsMade result
        (term.unless_refused (derive_refusal (arc_value lineage.now) name expr)
        (derived (arc_value lineage.now) name expr)) }
{
    Lineage::derive(alloc, lineage, name, expr).map_err(refused_of)
}

fn sampled(
    alloc: Global,
    lineage: &Arc<Lineage>,
    seed: u64,
    threshold: u64,
) -> Result<Arc<Lineage>, Refused>
    requires { threshold ≤ 2 ^ 32 }
    ensures { IsMade result
        (term.unless_refused (sample_refusal (arc_value lineage.now))
        (sampled (arc_value lineage.now) seed threshold)) }
{
    Lineage::sample(alloc, lineage, seed, threshold).map_err(refused_of)
}

/// Two lineages, combined.
pub(crate) fn combined(
    alloc: Global,
    how: How2,
    left: &Arc<Lineage>,
    right: &Arc<Lineage>,
) -> Result<Arc<Lineage>, Refused>
    ensures { IsMade result
        (term.both_combined how (arc_value left.now) (arc_value right.now)) }
{
    Lineage::combine(alloc, how, left, right).map_err(refused_of)
}

/// Why a lineage was refused.
fn refused_of(error: LineageErr) -> Refused
    ensures { result ≡ refused_of error }
{
    match error {
        LineageErr::NoColumn => Refused::Word(Why::Column),
        LineageErr::WrongKind => Refused::Word(Why::Kind),
        LineageErr::TooDeep => Refused::Word(Why::Deep),
        LineageErr::BadSchema => Refused::Word(Why::Schema),
        LineageErr::NotSameBase => Refused::Word(Why::Base),
        LineageErr::NameClash => Refused::Word(Why::Clash),
        LineageErr::SchemaDiffers => Refused::Word(Why::Differs),
        LineageErr::Deep => Refused::Word(Why::Depth),
        LineageErr::Memory => Refused::Memory,
    }
}
