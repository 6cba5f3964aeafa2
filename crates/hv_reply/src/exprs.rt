//! Expressions as JSON, every field of each. What each is is said in specs/Lineages.antt.

ghost use Rattle.std.specs.Prelude.{◌≡◌, codes, true, IfOk};
ghost use Rattle.serde_json.specs.Data.{string, object, member, no_members};
ghost use Rattle.serde_json.specs.View.{view};
ghost use Rattle.hv_expr.specs.Checks.{has_fit_factors};
ghost use Rattle.hv_reply.specs.Lineages.{expr_data, operated};

use crate::values::integer_value;
use hv_expr::Expr;
use hv_value::Mem;
use serde_json::{Value, json};
use std::alloc::{AllocError, Global};

/// An expression whose factors and summands are numbers of 64 bits.
#[tactic(auto, using(hv_expr::proofs::Folds::folds), unfolding(crate::specs::Lineages::expr_data, hv_expr::specs::Checks::has_fit_factors))]
pub(crate) fn expr_value(alloc: Global, expr: &Expr) -> Mem<Value>
    requires { has_fit_factors expr.now ≡ true }
    ensures { IfOk result (λ value. view value ≡ expr_data expr.now) }
{
    match expr {
        Expr::Col(name) => Ok(col_value(alloc, name.as_str())?),
        Expr::Year(of) => Ok(operated(alloc, "year", expr_value(alloc, of.get())?)?),
        Expr::Month(of) => Ok(operated(alloc, "month", expr_value(alloc, of.get())?)?),
        Expr::Day(of) => Ok(operated(alloc, "day", expr_value(alloc, of.get())?)?),
        Expr::Length(of) => Ok(operated(alloc, "length", expr_value(alloc, of.get())?)?),
        Expr::Linear { a, b, of } => {
            let a = integer_value(*a);
            let b = integer_value(*b);
            Ok(linear_value(alloc, a, b, expr_value(alloc, of.get())?)?)
        }
        Expr::Join {
            left,
            between,
            right,
        } => {
            let left = expr_value(alloc, left.get())?;
            let right = expr_value(alloc, right.get())?;
            Ok(join_value(alloc, between.as_str(), left, right)?)
        }
    }
}

fn col_value(alloc: Global, name: &str) -> Result<Value, AllocError>
    ensures { IfOk result
        (λ value. view value ≡ object (member (codes "col") (string name.now)
        (member (codes "e") (string (codes "col")) no_members))) }
{
    json!(in alloc; {"col": name, "e": "col"})
}

/// An expression of one operand, by its word.
fn operated(alloc: Global, word: &str, of: Value) -> Result<Value, AllocError>
    ensures { IfOk result (λ value. view value ≡ operated word.now (view of)) }
{
    json!(in alloc; {"e": word, "of": of})
}

fn linear_value(alloc: Global, a: Value, b: Value, of: Value) -> Result<Value, AllocError>
    ensures { IfOk result
        (λ value. view value ≡ object (member (codes "a") (view a)
        (member (codes "b") (view b)
        (member (codes "e") (string (codes "linear"))
        (member (codes "of") (view of) no_members))))) }
{
    json!(in alloc; {"a": a, "b": b, "e": "linear", "of": of})
}

fn join_value(alloc: Global, between: &str, left: Value, right: Value) -> Result<Value, AllocError>
    ensures { IfOk result
        (λ value. view value ≡ object (member (codes "between") (string between.now)
        (member (codes "e") (string (codes "join"))
        (member (codes "left") (view left)
        (member (codes "right") (view right) no_members))))) }
{
    json!(in alloc; {"between": between, "e": "join", "left": left, "right": right})
}
