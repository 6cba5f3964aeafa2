//! Predicates as JSON, every field of each. What each is is said in specs/Lineages.antt.

ghost use Rattle.std.specs.Prelude.{◌≡◌, codes, map, IfOk};
ghost use Rattle.serde_json.specs.Data.{boolean, string, object, member, no_members};
ghost use Rattle.serde_json.specs.View.{view, items_of};
ghost use Rattle.hv_asked.specs.Words.{how_word, rel_word};
ghost use Rattle.hv_reply.specs.Lineages.{pred_data};
ghost use Rattle.hv_reply.specs.Values.{cell_data, list_of};

use crate::values::cell_value;
use hv_expr::{Pred, Rel, TextTest};
use hv_message::{how_word, rel_word};
use hv_value::{Cell, Mem};
use serde_json::{Value, json};
use std::alloc::{AllocError, Global};

/// A predicate.
#[cycle(pred_value)]
#[tactic(auto, using(hv_expr::proofs::Folds::folds), unfolding(crate::specs::Lineages::pred_data))]
pub(crate) fn pred_value(alloc: Global, pred: &Pred) -> Mem<Value>
    ensures { IfOk result (λ value. view value ≡ pred_data pred.now) }
{
    match pred {
        Pred::Cmp { col, how, to } => cmp_value(alloc, col.as_str(), *how, to),
        Pred::Missing { col } => Ok(missing_value(alloc, col.as_str())?),
        Pred::Match { col, test } => Ok(match_value(alloc, col.as_str(), test)?),
        Pred::And(parts) => Ok(with_word(alloc, "and", preds_value(alloc, parts.as_slice())?)?),
        Pred::Or(parts) => Ok(with_word(alloc, "or", preds_value(alloc, parts.as_slice())?)?),
        Pred::Not(of) => Ok(with_word(alloc, "not", pred_value(alloc, of.get())?)?),
    }
}

#[cycle(pred_value)]
fn preds_value(alloc: Global, parts: &[Pred]) -> Mem<Value>
    ensures { IfOk result (λ value. view value ≡ list_of (map pred_data parts.now)) }
{
    let mut list = Vec::with_capacity(alloc, parts.len())?;
    for part in parts {
        list.push(pred_value(alloc, part)?)?;
    }
    Ok(Value::Array(list))
}

/// A predicate over others, by its word.
fn with_word(alloc: Global, word: &str, of: Value) -> Result<Value, AllocError>
    ensures { IfOk result
        (λ value. view value ≡ object (member (codes "of") (view of)
        (member (codes "p") (string word.now) no_members))) }
{
    json!(in alloc; {"of": of, "p": word})
}

fn cmp_value(alloc: Global, col: &str, how: Rel, to: &Cell) -> Mem<Value>
    ensures { IfOk result
        (λ value. view value ≡ object (member (codes "col") (string col.now)
        (member (codes "how") (string (rel_word how))
        (member (codes "p") (string (codes "cmp"))
        (member (codes "to") (cell_data to.now) no_members))))) }
{
    let to = cell_value(alloc, to)?;
    Ok(cmp_with(alloc, col, rel_word(how), to)?)
}

fn cmp_with(alloc: Global, col: &str, how: &str, to: Value) -> Result<Value, AllocError>
    ensures { IfOk result
        (λ value. view value ≡ object (member (codes "col") (string col.now)
        (member (codes "how") (string how.now)
        (member (codes "p") (string (codes "cmp"))
        (member (codes "to") (view to) no_members))))) }
{
    json!(in alloc; {"col": col, "how": how, "p": "cmp", "to": to})
}

fn missing_value(alloc: Global, col: &str) -> Result<Value, AllocError>
    ensures { IfOk result
        (λ value. view value ≡ object (member (codes "col") (string col.now)
        (member (codes "p") (string (codes "missing")) no_members))) }
{
    json!(in alloc; {"col": col, "p": "missing"})
}

fn match_value(alloc: Global, col: &str, test: &TextTest) -> Result<Value, AllocError>
    ensures { IfOk result
        (λ value. view value ≡ object (member (codes "col") (string col.now)
        (member (codes "fold") (boolean test.now.fold)
        (member (codes "how") (string (how_word test.now.how))
        (member (codes "p") (string (codes "text"))
        (member (codes "text") (string test.now.text) no_members)))))) }
{
    json!(in alloc; {
        "col": col,
        "fold": test.fold,
        "how": how_word(test.how),
        "p": "text",
        "text": test.text.as_str(),
    })
}
