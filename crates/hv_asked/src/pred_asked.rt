//! Predicates that a message gives, before their columns are looked up: their limits, and what they mean over columns.
//! The definitions are in specs/Trees.antt.

ghost use Rattle.std.specs.Prelude.{◌≡◌, ◌-◌, ◌^◌, map, min, sum, true, IfOk};
ghost use Rattle.std.specs.List.{list_all};
ghost use Rattle.hv_expr.specs.Checks.{kind_of_column};
ghost use Rattle.hv_asked.specs.Trees as tree;

use crate::MAX_NODES;
use crate::asked::CellAsked;
use crate::constants::{cell_beside, is_short};
use hv_expr::{Pred, Rel, TextTest};
use hv_value::{Kind, Mem, Schema, Text};
use sqlite_items::{Boxed, Items};
use std::alloc::Global;

/// A predicate whose constants aren't known to be dates or texts.
#[derive(Drop)]
pub enum PredAsked {
    /// The column's cell isn't missing and compares so with a cell of its kind.
    Cmp { col: Text, how: Rel, to: CellAsked },
    /// The column's cell is missing.
    Missing { col: Text },
    /// The column's text isn't missing and meets the test.
    Match { col: Text, test: TextTest },
    /// All hold.
    And(Items<PredAsked>),
    /// One holds at least.
    Or(Items<PredAsked>),
    Not(Boxed<PredAsked>),
}

impl PredAsked {
    /// Whether its constants and texts are within their limits, and its nodes are at most 64.
    pub fn fits(&self) -> bool
        ensures { result ≡ tree.fits_pred self.now }
    {
        self.has_fit_constants() && self.nodes() <= MAX_NODES
    }

    #[cycle(has_fit_constants)]
    #[tactic(auto, using(crate::proofs::AskedFolds::folds), unfolding(crate::specs::Trees::has_fit_constants))]
    fn has_fit_constants(&self) -> bool
        ensures { result ≡ tree.has_fit_constants self.now }
    {
        match self {
            PredAsked::Cmp { to, .. } => to.fits(),
            PredAsked::Missing { .. } => true,
            PredAsked::Match { test, .. } => is_short(test.text.as_str()),
            PredAsked::And(parts) => have_fit_constants(parts.as_slice()),
            PredAsked::Or(parts) => have_fit_constants(parts.as_slice()),
            PredAsked::Not(of) => of.get().has_fit_constants(),
        }
    }

    /// The number of nodes, where it is one of a `u64`, else the greatest `u64`.
    #[cycle(nodes)]
    #[tactic(auto, using(crate::proofs::AskedFolds::folds), unfolding(crate::specs::Trees::asked_nodes))]
    fn nodes(&self) -> u64
        ensures { result ≡ min (tree.asked_nodes self.now) (2 ^ 64 - 1) }
    {
        match self {
            PredAsked::Cmp { .. } => 1,
            PredAsked::Missing { .. } => 1,
            PredAsked::Match { .. } => 1,
            PredAsked::And(parts) => nodes_of(parts.as_slice()).saturating_add(1),
            PredAsked::Or(parts) => nodes_of(parts.as_slice()).saturating_add(1),
            PredAsked::Not(of) => of.get().nodes().saturating_add(1),
        }
    }

    /// What it means over columns: a text that names a day is that day where it is compared with a column of dates. Its
    /// columns may be absent. It fails only for want of memory.
    #[cycle(over)]
    #[tactic(auto, using(crate::proofs::AskedFolds::folds), unfolding(crate::specs::Trees::dated_pred, crate::specs::Trees::has_fit_constants))]
    pub fn over(self, alloc: Global, schema: &Schema) -> Mem<Pred>
        requires { tree.has_fit_constants self ≡ true }
        ensures { IfOk result (λ p. p ≡ tree.dated_pred schema.now self) }
    {
        match self {
            PredAsked::Cmp { col, how, to } => {
                let to = cell_beside(kind_of(schema, col.as_str()), to);
                Ok(Pred::Cmp { col, how, to })
            }
            PredAsked::Missing { col } => Ok(Pred::Missing { col }),
            PredAsked::Match { col, test } => Ok(Pred::Match { col, test }),
            PredAsked::And(parts) => Ok(Pred::And(all_over(parts, alloc, schema)?)),
            PredAsked::Or(parts) => Ok(Pred::Or(all_over(parts, alloc, schema)?)),
            PredAsked::Not(of) => {
                let of = of.into_inner().over(alloc, schema)?;
                Ok(Pred::Not(Boxed::new(alloc, of)?))
            }
        }
    }
}

#[cycle(has_fit_constants)]
fn have_fit_constants(parts: &[PredAsked]) -> bool
    ensures { result ≡ list_all tree.has_fit_constants parts.now }
{
    for part in parts {
        if !part.has_fit_constants() {
            return false;
        }
    }
    true
}

#[cycle(nodes)]
fn nodes_of(parts: &[PredAsked]) -> u64
    ensures { result ≡ min (sum (map tree.asked_nodes parts.now)) (2 ^ 64 - 1) }
{
    let mut nodes: u64 = 0;
    for part in parts {
        nodes = nodes.saturating_add(part.nodes());
    }
    nodes
}

/// What predicates mean over columns: the last of them after those before it.
#[cycle(over)]
fn all_over(mut parts: Items<PredAsked>, alloc: Global, schema: &Schema) -> Mem<Items<Pred>>
    requires { list_all tree.has_fit_constants parts ≡ true }
    ensures { IfOk result (λ items. items ≡ map (tree.dated_pred schema.now) parts) }
{
    let Some(last) = parts.pop() else {
        return Ok(Items::new(alloc));
    };
    let mut items = all_over(parts, alloc, schema)?;
    items.push(last.over(alloc, schema)?)?;
    Ok(items)
}

fn kind_of(schema: &Schema, name: &str) -> Option<Kind>
    ensures { result ≡ kind_of_column schema.now name.now }
{
    let place = schema.find(name)?;
    Some(schema.kind(place))
}
