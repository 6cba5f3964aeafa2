//! Predicates that are prepared for many rows: each column's place is found once, and each folded text is folded
//! once. The definition is `IsReadyPred` (specs/Ready.antt).

ghost use Rattle.std.specs.Prelude.{◌≡◌, length, true, Some, option_map, IfOk, MatchResult};
ghost use Rattle.std.specs.List.{list_all, list_any};
ghost use Rattle.hv_value.specs.Cells.{cell_lent};
ghost use Rattle.hv_value.specs.Rows.{Row};
ghost use Rattle.hv_value.specs.Table.{row_from};
ghost use Rattle.hv_expr.specs.declared.pred.Pred.{Pred};
ghost use Rattle.hv_expr.specs.Holds.{holds};
ghost use Rattle.hv_expr.specs.Memory.{pred_takes_memory};
ghost use Rattle.hv_expr.specs.Ready.{AreReadyPreds, IsReadyPred, is_pred_within, ready_cell_meets, ready_holds, ready_pred_takes_memory, ready_takes_memory};
ghost use Rattle.hv_expr.specs.Values.{cell_at_place};

use crate::cells::{cell_at_place, is_missing, is_related};
use crate::{Pred, ReadyTest, Rel};
use hv_value::{Cell, CellRef, Mem, Schema, Table};
use sqlite_items::{Boxed, Items};
use std::alloc::Global;

/// A predicate over the rows of tables of one schema, with columns by place: none where there is no such column.
#[derive(Drop)]
pub enum ReadyPred {
    Cmp {
        place: Option<u32>,
        how: Rel,
        to: Cell,
    },
    Missing {
        place: Option<u32>,
    },
    Match {
        place: Option<u32>,
        test: ReadyTest,
    },
    And(Items<ReadyPred>),
    Or(Items<ReadyPred>),
    Not(Boxed<ReadyPred>),
}

impl ReadyPred {
    /// Prepares a predicate for the rows of tables of a schema.
    #[cycle(of)]
    pub fn of(alloc: Global, pred: &Pred, schema: &Schema) -> Mem<ReadyPred>
        ensures { IfOk result (λ ready. IsReadyPred schema.now pred.now ready) }
    {
        match pred {
            Pred::Cmp { col, how, to } => {
                let to = Cell::of(alloc, to.lent())?;
                let place = schema.find(col.as_str());
                Ok(ReadyPred::Cmp {
                    place,
                    how: *how,
                    to,
                })
            }
            Pred::Missing { col } => {
                let place = schema.find(col.as_str());
                Ok(ReadyPred::Missing { place })
            }
            Pred::Match { col, test } => {
                let test = ReadyTest::of(alloc, test)?;
                let place = schema.find(col.as_str());
                Ok(ReadyPred::Match { place, test })
            }
            Pred::And(parts) => Ok(ReadyPred::And(all_of(alloc, parts.as_slice(), schema)?)),
            Pred::Or(parts) => Ok(ReadyPred::Or(all_of(alloc, parts.as_slice(), schema)?)),
            Pred::Not(of) => {
                let of = ReadyPred::of(alloc, of.get(), schema)?;
                Ok(ReadyPred::Not(boxed(alloc, of)?))
            }
        }
    }

    /// Whether the predicate that was prepared holds of a row that is there, in a table of the schema. It takes memory
    /// only where a test looks for a piece of a folded text.
    #[inline]
    pub fn eval<T: Table>(&self, alloc: Global, table: &T, row: u32) -> Mem<bool>
        requires row_there { option_map (λ found. found.number) (row_from row (T.rows table.now)) ≡ Some row }
        requires within { is_pred_within (length (T.columns table.now)) self.now ≡ true }
        ensures { (pred : Pred) (found : Row) → IsReadyPred (T.columns table.now) pred self.now → row_from row (T.rows table.now) ≡ Some found
            → MatchResult result (λ yes. yes ≡ holds (T.columns table.now) found.cells pred) (λ _. pred_takes_memory pred ≡ true) }
    {
        self.decide_soon(alloc, table, row)
    }

    /// The same by the prepared tree, which takes no further call where it is a comparison alone.
    #[inline]
    #[tactic(auto, using(crate::proofs::ReadyLemmas::nodes))]
    fn decide_soon<T: Table>(&self, alloc: Global, table: &T, row: u32) -> Mem<bool>
        requires row_there { option_map (λ found. found.number) (row_from row (T.rows table.now)) ≡ Some row }
        requires within { is_pred_within (length (T.columns table.now)) self.now ≡ true }
        ensures { (found : Row) → row_from row (T.rows table.now) ≡ Some found
            → MatchResult result (λ yes. yes ≡ ready_holds found.cells self.now) (λ _. ready_pred_takes_memory self.now ≡ true) }
    {
        if let ReadyPred::Cmp { place, how, to } = self {
            return Ok(is_related(*how, cell_at_place(table, row, *place), to));
        }
        self.decide(alloc, table, row)
    }

    /// The same by the prepared tree.
    #[cycle(decide)]
    #[tactic(auto, using(crate::proofs::ReadyLemmas::nodes))]
    fn decide<T: Table>(&self, alloc: Global, table: &T, row: u32) -> Mem<bool>
        requires row_there { option_map (λ found. found.number) (row_from row (T.rows table.now)) ≡ Some row }
        requires within { is_pred_within (length (T.columns table.now)) self.now ≡ true }
        ensures { (found : Row) → row_from row (T.rows table.now) ≡ Some found
            → MatchResult result (λ yes. yes ≡ ready_holds found.cells self.now) (λ _. ready_pred_takes_memory self.now ≡ true) }
    {
        match self {
            ReadyPred::Cmp { place, how, to } => {
                Ok(is_related(*how, cell_at_place(table, row, *place), to))
            }
            ReadyPred::Missing { place } => Ok(is_missing(cell_at_place(table, row, *place))),
            ReadyPred::Match { place, test } => {
                cell_meets(alloc, test, cell_at_place(table, row, *place))
            }
            ReadyPred::And(parts) => all_hold(alloc, parts.as_slice(), table, row),
            ReadyPred::Or(parts) => one_holds(alloc, parts.as_slice(), table, row),
            ReadyPred::Not(of) => Ok(!of.get().decide(alloc, table, row)?),
        }
    }
}

#[cycle(of)]
fn all_of(alloc: Global, parts: &[Pred], schema: &Schema) -> Mem<Items<ReadyPred>>
    ensures { IfOk result (λ ready. AreReadyPreds schema.now parts.now ready) }
{
    let mut ready = Items::new(alloc);
    for part in parts {
        ready.push(ReadyPred::of(alloc, part, schema)?)?;
    }
    Ok(ready)
}

#[cycle(decide)]
fn all_hold<T: Table>(alloc: Global, parts: &[ReadyPred], table: &T, row: u32) -> Mem<bool>
    requires row_there { option_map (λ found. found.number) (row_from row (T.rows table.now)) ≡ Some row }
    requires within { list_all (is_pred_within (length (T.columns table.now))) parts.now ≡ true }
    ensures { (found : Row) → row_from row (T.rows table.now) ≡ Some found
        → MatchResult result (λ yes. yes ≡ list_all (ready_holds found.cells) parts.now) (λ _. list_any ready_pred_takes_memory parts.now ≡ true) }
{
    for part in parts {
        if !part.decide(alloc, table, row)? {
            return Ok(false);
        }
    }
    Ok(true)
}

#[cycle(decide)]
fn one_holds<T: Table>(alloc: Global, parts: &[ReadyPred], table: &T, row: u32) -> Mem<bool>
    requires row_there { option_map (λ found. found.number) (row_from row (T.rows table.now)) ≡ Some row }
    requires within { list_all (is_pred_within (length (T.columns table.now))) parts.now ≡ true }
    ensures { (found : Row) → row_from row (T.rows table.now) ≡ Some found
        → MatchResult result (λ yes. yes ≡ list_any (ready_holds found.cells) parts.now) (λ _. list_any ready_pred_takes_memory parts.now ≡ true) }
{
    for part in parts {
        if part.decide(alloc, table, row)? {
            return Ok(true);
        }
    }
    Ok(false)
}

/// Whether a cell is a text that meets a prepared test.
fn cell_meets(alloc: Global, test: &ReadyTest, cell: CellRef<'_>) -> Mem<bool>
    ensures { MatchResult result (λ yes. yes ≡ ready_cell_meets test.now (cell_lent cell.entry)) (λ _. ready_takes_memory test.now ≡ true) }
{
    match cell {
        CellRef::Text(text) => test.decide(alloc, text),
        _ => Ok(false),
    }
}

fn boxed(alloc: Global, pred: ReadyPred) -> Mem<Boxed<ReadyPred>>
    ensures { IfOk result (λ b. b ≡ pred) }
{
    Ok(Boxed::new(alloc, pred)?)
}
