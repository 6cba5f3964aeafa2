//! The checks of predicates and expressions over a schema, told as a lineage's refusals.

ghost use Rattle.std.specs.Prelude.{◌≡◌, IfOk, IfErr, None, Some};
ghost use Rattle.hv_expr.specs.Checks.{expr_fault, kind_of, pred_fault};
ghost use Rattle.hv_lineage.specs.Refusals.{expr_refusal, pred_refusal};

use crate::LineageErr;
use hv_expr::{Expr, Pred};
use hv_value::{Kind, Schema};

/// Whether the predicate can be used over the schema.
pub(crate) fn check_pred(pred: &Pred, schema: &Schema) -> Result<(), LineageErr>
    ensures ok { IfOk result (λ _. pred_fault schema.now pred.now ≡ None) }
    ensures err { IfErr result (λ e. pred_refusal schema.now pred.now ≡ Some e) }
{
    match pred.check(schema) {
        Ok(_) => Ok(()),
        Err(fault) => Err(LineageErr::from(fault)),
    }
}

/// The kind of the expression's values, where it can be used over the schema.
pub(crate) fn check_expr(expr: &Expr, schema: &Schema) -> Result<Kind, LineageErr>
    ensures ok { IfOk result (λ _. expr_fault schema.now expr.now ≡ None) }
    ensures kind { IfOk result (λ k. kind_of schema.now expr.now ≡ Some k) }
    ensures err { IfErr result (λ e. expr_refusal schema.now expr.now ≡ Some e) }
{
    match expr.check(schema) {
        Ok(kind) => Ok(kind),
        Err(fault) => Err(LineageErr::from(fault)),
    }
}
