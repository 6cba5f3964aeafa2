//! Predicates that a message gives: one small function a form. What each asks for is said in specs/Trees.antt.

ghost use Rattle.std.specs.Prelude.{◌≡◌, ◌++◌, codes};
ghost use Rattle.serde_json.specs.View.{view, items_view};
ghost use Rattle.hv_asked.specs.Fields.{all_read};
ghost use Rattle.hv_asked.specs.Meant.{IsField};
ghost use Rattle.hv_asked.specs.Trees as tree;

use crate::Why;
use crate::constants::cell;
use crate::fields::{bool_at, field, list, name, needed, word};
use crate::pred_asked::PredAsked;
use crate::refused::Refused;
use crate::words::{how_named, rel_named};
use hv_expr::TextTest;
use serde_json::Value;
use sqlite_items::{Boxed, Items};
use std::alloc::Global;

fn cmp_in(alloc: Global, value: &Value) -> Result<PredAsked, Refused>
    ensures { IsField result (tree.cmp_in (view value.now)) }
{
    let col = name(alloc, value, "col")?;
    let how = needed(rel_named(word(value, "how")?))?;
    let to = cell(alloc, value, "to")?;
    Ok(PredAsked::Cmp { col, how, to })
}

/// A test of a text. `Why::Field` where the value is none, or memory is refused.
pub fn test_in(alloc: Global, value: &Value) -> Result<TextTest, Refused>
    ensures { IsField result (tree.test_in (view value.now)) }
{
    let how = needed(how_named(word(value, "how")?))?;
    let fold = needed(bool_at(value, "fold"))?;
    let text = name(alloc, value, "text")?;
    Ok(TextTest { how, fold, text })
}

fn match_in(alloc: Global, value: &Value) -> Result<PredAsked, Refused>
    ensures { IsField result (tree.match_in (view value.now)) }
{
    let col = name(alloc, value, "col")?;
    let test = test_in(alloc, value)?;
    Ok(PredAsked::Match { col, test })
}

fn missing_in(alloc: Global, value: &Value) -> Result<PredAsked, Refused>
    ensures { IsField result (tree.missing_in (view value.now)) }
{
    let col = name(alloc, value, "col")?;
    Ok(PredAsked::Missing { col })
}

/// A predicate of at most so many levels. `Why::Field` where the value is none, or memory is refused.
#[cycle(pred_in)]
#[tactic(auto, using(crate::proofs::TreeLemmas::one_level))]
pub fn pred_in(alloc: Global, levels: u32, value: &Value) -> Result<PredAsked, Refused>
    ensures { IsField result (tree.pred_in levels (view value.now)) }
{
    if levels == 0 {
        return Err(Refused::Word(Why::Field));
    }
    let word = word(value, "p")?;
    pred_with(alloc, levels - 1, value, word)
}

#[cycle(pred_in)]
fn pred_with(alloc: Global, levels: u32, value: &Value, word: &str) -> Result<PredAsked, Refused>
    ensures { IsField result (tree.pred_with (tree.pred_in levels) (view value.now) word.now) }
{
    match word {
        "cmp" => cmp_in(alloc, value),
        "missing" => missing_in(alloc, value),
        "text" => match_in(alloc, value),
        "and" => Ok(PredAsked::And(parts_in(alloc, levels, value)?)),
        "or" => Ok(PredAsked::Or(parts_in(alloc, levels, value)?)),
        "not" => Ok(PredAsked::Not(operand_in(alloc, levels, value)?)),
        _ => Err(Refused::Word(Why::Field)),
    }
}

#[cycle(pred_in)]
fn operand_in(alloc: Global, levels: u32, value: &Value) -> Result<Boxed<PredAsked>, Refused>
    ensures { IsField result (tree.under (tree.pred_in levels) (codes "of") (view value.now)) }
{
    let of = pred_in(alloc, levels, field(value, "of")?)?;
    Ok(Boxed::new(alloc, of)?)
}

#[cycle(pred_in)]
fn parts_in(alloc: Global, levels: u32, value: &Value) -> Result<Items<PredAsked>, Refused>
    ensures { IsField result (tree.parts_in (tree.pred_in levels) (view value.now)) }
{
    all_of(alloc, levels, list(value, "of")?)
}

/// The predicates of a list.
#[cycle(pred_in)]
fn all_of(alloc: Global, levels: u32, items: &[Value]) -> Result<Items<PredAsked>, Refused>
    ensures { IsField result (all_read (tree.pred_in levels) (items_view items.now)) }
{
    let mut found = Items::new(alloc);
    let mut rest = items;
    while let [first, after @ ..] = rest {
        found.push(pred_in(alloc, levels, first)?)?;
        rest = after;
    }
    Ok(found)
}
