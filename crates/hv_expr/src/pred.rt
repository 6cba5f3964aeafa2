//! Predicates: which rows a filter keeps. The definition is `holds` (specs/Holds.antt).

ghost use Rattle.std.specs.Prelude.{◌≡◌, ◌-◌, ◌^◌, min, map, sum, IfOk};
ghost use Rattle.hv_expr.specs.Sizes.{pred_nodes};

use crate::TextTest;
use hv_value::{Cell, Mem, Text};
use sqlite_items::{Boxed, Items};
use std::alloc::Global;

/// A relation of two cells in their order.
#[derive(Clone, Copy, Debug, PartialEq, Eq, Hash)]
pub enum Rel {
    Lt,
    Le,
    Eq,
    Ne,
    Ge,
    Gt,
}

/// A predicate over the cells of a row.
#[derive(Drop)]
pub enum Pred {
    /// The column's cell isn't missing and compares so with a cell of its kind.
    Cmp { col: Text, how: Rel, to: Cell },
    /// The column's cell is missing.
    Missing { col: Text },
    /// The column's text isn't missing and meets the test.
    Match { col: Text, test: TextTest },
    /// All hold.
    And(Items<Pred>),
    /// One holds at least.
    Or(Items<Pred>),
    Not(Boxed<Pred>),
}

impl Pred {
    /// The number of nodes, where it is one of a `u64`, else the greatest `u64`.
    #[cycle(pred_nodes)]
    #[tactic(auto, using(crate::proofs::Folds::folds), unfolding(crate::specs::Sizes::pred_nodes))]
    pub fn nodes(&self) -> u64
        ensures { result ≡ min (pred_nodes self.now) (2 ^ 64 - 1) }
    {
        match self {
            Pred::Cmp { .. } => 1,
            Pred::Missing { .. } => 1,
            Pred::Match { .. } => 1,
            Pred::And(parts) => nodes_of(parts.as_slice()).saturating_add(1),
            Pred::Or(parts) => nodes_of(parts.as_slice()).saturating_add(1),
            Pred::Not(of) => of.get().nodes().saturating_add(1),
        }
    }

    /// The same predicate, in memory of its own.
    #[cycle(pred_copy)]
    pub fn copy(&self, alloc: Global) -> Mem<Pred>
        ensures { IfOk result (λ p. p ≡ self.now) }
    {
        Ok(match self {
            Pred::Cmp { col, how, to } => Pred::Cmp {
                col: col.copy(alloc)?,
                how: *how,
                to: Cell::of(alloc, to.lent())?,
            },
            Pred::Missing { col } => Pred::Missing {
                col: col.copy(alloc)?,
            },
            Pred::Match { col, test } => Pred::Match {
                col: col.copy(alloc)?,
                test: test.copy(alloc)?,
            },
            Pred::And(parts) => Pred::And(copies(alloc, parts.as_slice())?),
            Pred::Or(parts) => Pred::Or(copies(alloc, parts.as_slice())?),
            Pred::Not(of) => Pred::Not(Boxed::new(alloc, of.get().copy(alloc)?)?),
        })
    }
}

#[cycle(pred_nodes)]
fn nodes_of(parts: &[Pred]) -> u64
    ensures { result ≡ min (sum (map pred_nodes parts.now)) (2 ^ 64 - 1) }
{
    let mut nodes: u64 = 0;
    for part in parts {
        nodes = nodes.saturating_add(part.nodes());
    }
    nodes
}

#[cycle(pred_copy)]
fn copies(alloc: Global, parts: &[Pred]) -> Mem<Items<Pred>>
    ensures { IfOk result (λ items. items ≡ parts.now) }
{
    let mut items = Items::new(alloc);
    for part in parts {
        items.push(part.copy(alloc)?)?;
    }
    Ok(items)
}
