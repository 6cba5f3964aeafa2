//! Expressions that a message gives: one small function a form, and their limits. The definitions are in
//! specs/Trees.antt.

ghost use Rattle.std.specs.Prelude.{◌≡◌, true, IfOk};
ghost use Rattle.serde_json.specs.View.{view};
ghost use Rattle.hv_expr.specs.Checks.{has_fit_factors};
ghost use Rattle.hv_asked.specs.Meant.{IsField};
ghost use Rattle.hv_asked.specs.Trees as tree;

use crate::constants::is_short;
use crate::fields::{field, name, number, word};
use crate::refused::Refused;
use crate::{MAX_NODES, Why};
use hv_expr::Expr;
use serde_json::Value;
use sqlite_items::Boxed;
use std::alloc::Global;

/// An expression of at most so many levels. `Why::Field` where the value is none, or memory is refused.
#[cycle(expr_in)]
#[tactic(auto, using(crate::proofs::TreeLemmas::one_level))]
pub fn expr_in(alloc: Global, levels: u32, value: &Value) -> Result<Expr, Refused>
    ensures value { IsField result (tree.expr_in levels (view value.now)) }
    ensures fit { IfOk result (λ e. has_fit_factors e ≡ true) }
{
    if levels == 0 {
        return Err(Refused::Word(Why::Field));
    }
    let word = word(value, "e")?;
    expr_with(alloc, levels - 1, value, word)
}

#[cycle(expr_in)]
#[tactic(auto, using(hv_expr::proofs::Folds::folds), unfolding(hv_expr::specs::Checks::has_fit_factors))]
fn expr_with(alloc: Global, levels: u32, value: &Value, word: &str) -> Result<Expr, Refused>
    ensures value { IsField result (tree.expr_with (tree.expr_in levels) (view value.now) word.now) }
    ensures fit { IfOk result (λ e. has_fit_factors e ≡ true) }
{
    match word {
        "col" => Ok(Expr::Col(name(alloc, value, "col")?)),
        "year" => Ok(Expr::Year(operand_in(alloc, levels, value, "of")?)),
        "month" => Ok(Expr::Month(operand_in(alloc, levels, value, "of")?)),
        "day" => Ok(Expr::Day(operand_in(alloc, levels, value, "of")?)),
        "length" => Ok(Expr::Length(operand_in(alloc, levels, value, "of")?)),
        "linear" => linear_in(alloc, levels, value),
        "join" => join_in(alloc, levels, value),
        _ => Err(Refused::Word(Why::Field)),
    }
}

/// The operand under a key.
#[cycle(expr_in)]
fn operand_in(alloc: Global, levels: u32, value: &Value, key: &str) -> Result<Boxed<Expr>, Refused>
    ensures value { IsField result (tree.under (tree.expr_in levels) key.now (view value.now)) }
    ensures fit { IfOk result (λ e. has_fit_factors e ≡ true) }
{
    let of = expr_in(alloc, levels, field(value, key)?)?;
    Ok(Boxed::new(alloc, of)?)
}

#[cycle(expr_in)]
#[tactic(auto, using(hv_expr::proofs::Folds::folds), unfolding(hv_expr::specs::Checks::has_fit_factors))]
fn linear_in(alloc: Global, levels: u32, value: &Value) -> Result<Expr, Refused>
    ensures value { IsField result (tree.linear_in (tree.expr_in levels) (view value.now)) }
    ensures fit { IfOk result (λ e. has_fit_factors e ≡ true) }
{
    let a = number(value, "a")?;
    let b = number(value, "b")?;
    let of = operand_in(alloc, levels, value, "of")?;
    Ok(Expr::Linear { a, b, of })
}

#[cycle(expr_in)]
#[tactic(auto, using(hv_expr::proofs::Folds::folds), unfolding(hv_expr::specs::Checks::has_fit_factors))]
fn join_in(alloc: Global, levels: u32, value: &Value) -> Result<Expr, Refused>
    ensures value { IsField result (tree.join_in (tree.expr_in levels) (view value.now)) }
    ensures fit { IfOk result (λ e. has_fit_factors e ≡ true) }
{
    let left = operand_in(alloc, levels, value, "left")?;
    let between = name(alloc, value, "between")?;
    let right = operand_in(alloc, levels, value, "right")?;
    Ok(Expr::Join {
        left,
        between,
        right,
    })
}

/// Whether an expression's texts between two others have at most 1,024 bytes each, and its nodes are at most 64.
pub fn fits_expr(expr: &Expr) -> bool
    ensures { result ≡ tree.fits_expr expr.now }
{
    has_short_texts(expr) && expr.nodes() <= MAX_NODES
}

#[tactic(auto, using(hv_expr::proofs::Folds::folds), unfolding(crate::specs::Trees::has_short_texts))]
fn has_short_texts(expr: &Expr) -> bool
    ensures { result ≡ tree.has_short_texts expr.now }
{
    match expr {
        Expr::Col(_) => true,
        Expr::Year(of) => has_short_texts(of.get()),
        Expr::Month(of) => has_short_texts(of.get()),
        Expr::Day(of) => has_short_texts(of.get()),
        Expr::Length(of) => has_short_texts(of.get()),
        Expr::Linear { of, .. } => has_short_texts(of.get()),
        Expr::Join {
            left,
            between,
            right,
        } => has_short_texts(left.get())
            && is_short(between.as_str())
            && has_short_texts(right.get()),
    }
}
