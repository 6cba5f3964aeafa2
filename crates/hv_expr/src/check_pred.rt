//! Whether a predicate can be used over a schema. The definition is `checked_pred` (specs/Checks.antt).

ghost use Rattle.std.specs.Prelude.{◌≡◌, nat_lt, slice_get, flat_map, map};
ghost use Rattle.hv_expr.specs.Checks.{checked_pred, cmp_faults, kind_of_cell, pred_faults};
ghost use Rattle.hv_expr.specs.Sizes.{greatest, pred_depth};

use crate::check::{kind_of_column, own_fault, unlike};
use crate::{ExprErr, MAX_DEPTH, Pred};
use hv_value::{Cell, Kind, Schema};

impl Pred {
    /// Whether the predicate can be used over a schema. Refused where the tree is deeper than 16, else by the first
    /// wrong node in preorder, its column before its constant. A missing constant is of no kind.
    #[tactic(auto, unfolding(crate::specs::Checks::pred_fault))]
    pub fn check(&self, schema: &Schema) -> Result<(), ExprErr>
        ensures { result ≡ checked_pred schema.now self.now }
    {
        if self.is_deeper(MAX_DEPTH) {
            return Err(ExprErr::TooDeep);
        }
        match self.fault(schema) {
            Some(e) => Err(e),
            None => Ok(()),
        }
    }

    /// Whether the tree is deeper than a limit.
    #[cycle(is_deeper)]
    #[tactic(auto, using(crate::proofs::Folds::folds), unfolding(crate::specs::Sizes::pred_depth))]
    fn is_deeper(&self, limit: usize) -> bool
        ensures { result ≡ nat_lt limit (pred_depth self.now) }
    {
        if limit == 0 {
            return true;
        }
        match self {
            Pred::Cmp { .. } => false,
            Pred::Missing { .. } => false,
            Pred::Match { .. } => false,
            Pred::And(parts) => is_any_deeper(parts.as_slice(), limit - 1),
            Pred::Or(parts) => is_any_deeper(parts.as_slice(), limit - 1),
            Pred::Not(of) => of.get().is_deeper(limit - 1),
        }
    }

    /// The first wrong node's error.
    #[cycle(fault)]
    #[tactic(auto, using(crate::proofs::Folds::folds, crate::proofs::FaultLemmas::parts), unfolding(crate::specs::Checks::pred_faults))]
    fn fault(&self, schema: &Schema) -> Option<ExprErr>
        ensures { result ≡ slice_get (pred_faults schema.now self.now) 0 }
    {
        match self {
            Pred::Cmp { col, to, .. } => {
                cmp_fault(kind_of_column(schema, col.as_str()), kind_of_cell(to))
            }
            Pred::Missing { col } => own_fault(None, kind_of_column(schema, col.as_str())),
            Pred::Match { col, .. } => unlike(Kind::Text, kind_of_column(schema, col.as_str())),
            Pred::And(parts) => first_fault(parts.as_slice(), schema),
            Pred::Or(parts) => first_fault(parts.as_slice(), schema),
            Pred::Not(of) => of.get().fault(schema),
        }
    }
}

#[cycle(is_deeper)]
fn is_any_deeper(parts: &[Pred], limit: usize) -> bool
    ensures { result ≡ nat_lt limit (greatest (map pred_depth parts.now)) }
{
    for part in parts {
        if part.is_deeper(limit) {
            return true;
        }
    }
    false
}

#[cycle(fault)]
fn first_fault(parts: &[Pred], schema: &Schema) -> Option<ExprErr>
    ensures { result ≡ slice_get (flat_map (pred_faults schema.now) parts.now) 0 }
{
    for part in parts {
        let fault = part.fault(schema);
        if fault.is_some() {
            return fault;
        }
    }
    None
}

/// The kind of a cell, none of a missing one.
fn kind_of_cell(cell: &Cell) -> Option<Kind>
    ensures { result ≡ kind_of_cell cell.now }
{
    match cell {
        Cell::Missing => None,
        Cell::Int(_) => Some(Kind::Int),
        Cell::Date(_) => Some(Kind::Date),
        Cell::Text(_) => Some(Kind::Text),
    }
}

/// What is wrong with a column and a constant that it is compared with.
fn cmp_fault(column: Option<Kind>, constant: Option<Kind>) -> Option<ExprErr>
    ensures { result ≡ slice_get (cmp_faults column constant) 0 }
{
    match column {
        None => Some(ExprErr::NoColumn),
        Some(kind) => match constant {
            None => Some(ExprErr::WrongKind),
            Some(constant) => unlike(kind, Some(constant)),
        },
    }
}
