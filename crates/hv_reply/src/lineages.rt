//! Lineages as JSON: the base and the term over it. The definition is `lineage_data` (specs/Lineages.antt).

ghost use Rattle.std.specs.Prelude.{◌≡◌, map, codes, true, IfOk};
ghost use Rattle.serde_json.specs.Data.{string, object, member, no_members};
ghost use Rattle.serde_json.specs.View.{view};
ghost use Rattle.hv_message.specs.Words.{how2_word};
ghost use Rattle.hv_reply.specs.Lineages.{base_data, column_data, columns_data, expr_data, has_fit_numbers, lineage_data, pred_data, term_data, texts_data};
ghost use Rattle.hv_reply.specs.Values.{whole};

use crate::exprs::expr_value;
use crate::preds::pred_value;
use hv_lineage::{Base, How2, Lineage, Term};
use hv_message::{how2_word, kind_word};
use hv_value::{Kind, Mem, Schema, Text};
use serde_json::{Value, json};
use std::alloc::{AllocError, Global};

/// A column: its name and its kind.
fn column_value(alloc: Global, name: &str, kind: Kind) -> Result<Value, AllocError>
    ensures { IfOk result (λ value. view value ≡ column_data (name.now, kind)) }
{
    json!(in alloc; [name, kind_word(kind)])
}

/// Columns, in order.
pub(crate) fn columns_value(alloc: Global, schema: &Schema) -> Mem<Value>
    ensures { IfOk result (λ value. view value ≡ columns_data schema.now) }
{
    let mut list = Vec::with_capacity(alloc, schema.len() as usize)?;
    for place in 0..schema.len() {
        list.push(column_value(alloc, schema.name(place), schema.kind(place))?)?;
    }
    Ok(Value::Array(list))
}

fn texts_value(alloc: Global, texts: &[Text]) -> Mem<Value>
    ensures { IfOk result (λ value. view value ≡ texts_data texts.now) }
{
    let mut list = Vec::with_capacity(alloc, texts.len())?;
    for text in texts {
        list.push(Value::try_from_str(alloc, text.as_str())?)?;
    }
    Ok(Value::Array(list))
}

/// A base, in the form in which a load gives it.
fn base_value(alloc: Global, base: &Base) -> Mem<Value>
    ensures { IfOk result (λ value. view value ≡ base_data base.now) }
{
    match base {
        Base::Inline { schema, parts } => {
            let columns = columns_value(alloc, schema)?;
            let parts = texts_value(alloc, parts.as_slice())?;
            Ok(inline_value(alloc, parts, columns)?)
        }
        Base::Named { schema, table, .. } => {
            let columns = columns_value(alloc, schema)?;
            Ok(named_value(alloc, columns, table.as_str())?)
        }
    }
}

fn inline_value(alloc: Global, parts: Value, columns: Value) -> Result<Value, AllocError>
    ensures { IfOk result
        (λ value. view value ≡ object (member (codes "inline")
        (object (member (codes "parts") (view parts)
        (member (codes "schema") (view columns) no_members))) no_members)) }
{
    json!(in alloc; {"inline": {"parts": parts, "schema": columns}})
}

fn named_value(alloc: Global, columns: Value, table: &str) -> Result<Value, AllocError>
    ensures { IfOk result
        (λ value. view value ≡ object (member (codes "named")
        (object (member (codes "schema") (view columns)
        (member (codes "table") (string table.now) no_members))) no_members)) }
{
    json!(in alloc; {"named": {"schema": columns, "table": table}})
}

/// A term whose expressions have factors and summands of 64 bits.
#[tactic(auto, using(crate::proofs::TermFolds::folds), unfolding(crate::specs::Lineages::term_data, crate::specs::Lineages::has_fit_numbers))]
fn term_value(alloc: Global, term: &Term) -> Mem<Value>
    requires { has_fit_numbers term.now ≡ true }
    ensures { IfOk result (λ value. view value ≡ term_data term.now) }
{
    match term {
        Term::Base => Ok(json!(in alloc; {"t": "base"})?),
        Term::Filter { of, pred } => {
            let of = term_value(alloc, of.get())?;
            let pred = pred_value(alloc, pred.get())?;
            Ok(filter_value(alloc, of, pred)?)
        }
        Term::Project { of, cols } => {
            let of = term_value(alloc, of.get())?;
            let cols = texts_value(alloc, cols.get().as_slice())?;
            Ok(project_value(alloc, cols, of)?)
        }
        Term::Derive { of, name, expr } => {
            let of = term_value(alloc, of.get())?;
            let expr = expr_value(alloc, expr.get())?;
            Ok(derive_value(alloc, expr, name.get().as_str(), of)?)
        }
        Term::Sample {
            of,
            seed,
            threshold,
        } => {
            let of = term_value(alloc, of.get())?;
            Ok(sample_value(alloc, of, *seed, *threshold)?)
        }
        Term::Combine { how, left, right } => {
            let left = term_value(alloc, left.get())?;
            let right = term_value(alloc, right.get())?;
            Ok(combine_value(alloc, *how, left, right)?)
        }
    }
}

fn filter_value(alloc: Global, of: Value, pred: Value) -> Result<Value, AllocError>
    ensures { IfOk result
        (λ value. view value ≡ object (member (codes "of") (view of)
        (member (codes "pred") (view pred)
        (member (codes "t") (string (codes "filter")) no_members)))) }
{
    json!(in alloc; {"of": of, "pred": pred, "t": "filter"})
}

fn project_value(alloc: Global, cols: Value, of: Value) -> Result<Value, AllocError>
    ensures { IfOk result
        (λ value. view value ≡ object (member (codes "cols") (view cols)
        (member (codes "of") (view of)
        (member (codes "t") (string (codes "project")) no_members)))) }
{
    json!(in alloc; {"cols": cols, "of": of, "t": "project"})
}

fn derive_value(alloc: Global, expr: Value, name: &str, of: Value) -> Result<Value, AllocError>
    ensures { IfOk result
        (λ value. view value ≡ object (member (codes "expr") (view expr)
        (member (codes "name") (string name.now)
        (member (codes "of") (view of)
        (member (codes "t") (string (codes "derive")) no_members))))) }
{
    json!(in alloc; {"expr": expr, "name": name, "of": of, "t": "derive"})
}

fn sample_value(alloc: Global, of: Value, seed: u64, threshold: u64) -> Result<Value, AllocError>
    ensures { IfOk result
        (λ value. view value ≡ object (member (codes "of") (view of)
        (member (codes "seed") (whole seed)
        (member (codes "t") (string (codes "sample"))
        (member (codes "threshold") (whole threshold) no_members))))) }
{
    json!(in alloc; {"of": of, "seed": seed, "t": "sample", "threshold": threshold})
}

fn combine_value(alloc: Global, how: How2, left: Value, right: Value) -> Result<Value, AllocError>
    ensures { IfOk result
        (λ value. view value ≡ object (member (codes "how") (string (how2_word how))
        (member (codes "left") (view left)
        (member (codes "right") (view right)
        (member (codes "t") (string (codes "combine")) no_members))))) }
{
    json!(in alloc; {"how": how2_word(how), "left": left, "right": right, "t": "combine"})
}

/// A lineage as JSON: its base and its term.
#[tactic(auto, using(crate::proofs::FitNumbers::lineage_fit))]
pub fn lineage_value(alloc: Global, lineage: &Lineage) -> Mem<Value>
    ensures { IfOk result (λ value. view value ≡ lineage_data lineage.now) }
{
    let _kept = lineage.schema();
    let base = base_value(alloc, lineage.origin())?;
    let term = term_value(alloc, lineage.term())?;
    Ok(over_value(alloc, base, term)?)
}

fn over_value(alloc: Global, base: Value, term: Value) -> Result<Value, AllocError>
    ensures { IfOk result
        (λ value. view value ≡ object (member (codes "base") (view base)
        (member (codes "term") (view term) no_members))) }
{
    json!(in alloc; {"base": base, "term": term})
}
