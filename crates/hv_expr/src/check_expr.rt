//! Whether an expression can be used over a schema. The definition is `checked_expr` (specs/Checks.antt).

ghost use Rattle.std.specs.Prelude.{◌≡◌, nat_lt, slice_get};
ghost use Rattle.hv_expr.specs.Checks.{checked_expr, expr_faults, kind_of};
ghost use Rattle.hv_expr.specs.Sizes.{expr_depth};

use crate::check::{kind_of_column, own_fault};
use crate::{Expr, ExprErr, MAX_DEPTH};
use hv_value::{Kind, Schema};

impl Expr {
    /// The kind of the expression's values over a schema. Refused where the tree is deeper than 16, else by the
    /// first wrong node in preorder: a node is wrong where its column isn't there, or where it has another kind than
    /// the operand of its parent must have.
    #[tactic(auto, unfolding(crate::specs::Checks::expr_fault))]
    pub fn check(&self, schema: &Schema) -> Result<Kind, ExprErr>
        ensures { result ≡ checked_expr schema.now self.now }
    {
        if self.is_deeper(MAX_DEPTH) {
            return Err(ExprErr::TooDeep);
        }
        match self.fault(schema, None) {
            Some(e) => Err(e),
            None => self.kind(schema).ok_or(ExprErr::NoColumn),
        }
    }

    /// The kind by the outermost node.
    fn kind(&self, schema: &Schema) -> Option<Kind>
        ensures { result ≡ kind_of schema.now self.now }
    {
        match self {
            Expr::Col(name) => kind_of_column(schema, name.as_str()),
            Expr::Year(_) => Some(Kind::Int),
            Expr::Month(_) => Some(Kind::Int),
            Expr::Day(_) => Some(Kind::Int),
            Expr::Length(_) => Some(Kind::Int),
            Expr::Linear { .. } => Some(Kind::Int),
            Expr::Join { .. } => Some(Kind::Text),
        }
    }

    /// Whether the tree is deeper than a limit.
    #[tactic(auto, using(crate::proofs::Folds::folds), unfolding(crate::specs::Sizes::expr_depth))]
    fn is_deeper(&self, limit: usize) -> bool
        ensures { result ≡ nat_lt limit (expr_depth self.now) }
    {
        if limit == 0 {
            return true;
        }
        match self {
            Expr::Col(_) => false,
            Expr::Year(of) => of.get().is_deeper(limit - 1),
            Expr::Month(of) => of.get().is_deeper(limit - 1),
            Expr::Day(of) => of.get().is_deeper(limit - 1),
            Expr::Length(of) => of.get().is_deeper(limit - 1),
            Expr::Linear { of, .. } => of.get().is_deeper(limit - 1),
            Expr::Join { left, right, .. } => {
                left.get().is_deeper(limit - 1) || right.get().is_deeper(limit - 1)
            }
        }
    }

    /// The first wrong node's error, at a place that may want a kind.
    #[tactic(auto, using(crate::proofs::Folds::folds), unfolding(crate::specs::Checks::expr_faults))]
    fn fault(&self, schema: &Schema, wanted: Option<Kind>) -> Option<ExprErr>
        ensures { result ≡ slice_get (expr_faults schema.now self.now wanted) 0 }
    {
        let own = own_fault(wanted, self.kind(schema));
        if own.is_some() {
            return own;
        }
        match self {
            Expr::Col(_) => None,
            Expr::Year(of) => of.get().fault(schema, Some(Kind::Date)),
            Expr::Month(of) => of.get().fault(schema, Some(Kind::Date)),
            Expr::Day(of) => of.get().fault(schema, Some(Kind::Date)),
            Expr::Length(of) => of.get().fault(schema, Some(Kind::Text)),
            Expr::Linear { of, .. } => of.get().fault(schema, Some(Kind::Int)),
            Expr::Join { left, right, .. } => {
                let first = left.get().fault(schema, Some(Kind::Text));
                let second = right.get().fault(schema, Some(Kind::Text));
                first.or(second)
            }
        }
    }
}
