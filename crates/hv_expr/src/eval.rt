//! The values of trees over a row of a table, with the columns found by name each time. Over many rows `ReadyPred`
//! and `ReadyExpr` find them once. The definitions are `holds` (specs/Holds.antt) and `val` (specs/Values.antt).

ghost use Rattle.std.specs.Prelude.{◌≡◌, true, Some, List, map, option_map, IfOk, MatchResult};
ghost use Rattle.std.specs.List.{list_all, list_any};
ghost use Rattle.hv_value.specs.Cells.{cell_lent};
ghost use Rattle.hv_value.specs.Rows.{Row};
ghost use Rattle.hv_value.specs.Table.{row_from};
ghost use Rattle.hv_expr.specs.Checks.{has_fit_factors};
ghost use Rattle.hv_expr.specs.Holds.{cell_meets, holds};
ghost use Rattle.hv_expr.specs.Memory.{pred_takes_memory, test_takes_memory};
ghost use Rattle.hv_expr.specs.Values.{cell_named, val};

use crate::cells::{
    day_cell, is_missing, is_related, join_cells, length_cell, linear_cell, month_cell, year_cell,
};
use crate::{Expr, Pred, TextTest};
use hv_value::{Cell, CellRef, Mem, Table};
use std::alloc::Global;

impl Expr {
    /// The value in a row that is there, missing where a named column isn't.
    #[tactic(auto, using(crate::proofs::Folds::folds), unfolding(crate::specs::Values::val, crate::specs::Checks::has_fit_factors))]
    pub fn eval<T: Table>(&self, alloc: Global, table: &T, row: u32) -> Mem<Cell>
        requires row_there { option_map (λ found. found.number) (row_from row (T.rows table.now)) ≡ Some row }
        requires factors { has_fit_factors self.now ≡ true }
        ensures { (found : Row) → row_from row (T.rows table.now) ≡ Some found → IfOk result (λ cell. cell ≡ val (T.columns table.now) found.cells self.now) }
    {
        match self {
            Expr::Col(name) => Cell::of(alloc, cell_named(table, row, name.as_str())),
            Expr::Year(of) => Ok(year_cell(of.get().eval(alloc, table, row)?.lent())),
            Expr::Month(of) => Ok(month_cell(of.get().eval(alloc, table, row)?.lent())),
            Expr::Day(of) => Ok(day_cell(of.get().eval(alloc, table, row)?.lent())),
            Expr::Length(of) => Ok(length_cell(of.get().eval(alloc, table, row)?.lent())),
            Expr::Linear { a, b, of } => {
                let x = of.get().eval(alloc, table, row)?;
                Ok(linear_cell(*a, *b, x.lent()))
            }
            Expr::Join {
                left,
                between,
                right,
            } => {
                let left = left.get().eval(alloc, table, row)?;
                let right = right.get().eval(alloc, table, row)?;
                join_cells(alloc, left.lent(), between.as_str(), right.lent())
            }
        }
    }
}

impl Pred {
    /// Whether the predicate holds of a row that is there. A column that isn't there counts as missing. It takes memory
    /// only where a test looks for a piece of a folded text.
    #[cycle(eval)]
    #[tactic(auto, using(crate::proofs::Folds::folds), unfolding(crate::specs::Holds::holds, crate::specs::Memory::pred_takes_memory))]
    pub fn eval<T: Table>(&self, alloc: Global, table: &T, row: u32) -> Mem<bool>
        requires row_there { option_map (λ found. found.number) (row_from row (T.rows table.now)) ≡ Some row }
        ensures { (found : Row) → row_from row (T.rows table.now) ≡ Some found
            → MatchResult result (λ yes. yes ≡ holds (T.columns table.now) found.cells self.now) (λ _. pred_takes_memory self.now ≡ true) }
    {
        match self {
            Pred::Cmp { col, how, to } => {
                Ok(is_related(*how, cell_named(table, row, col.as_str()), to))
            }
            Pred::Missing { col } => Ok(is_missing(cell_named(table, row, col.as_str()))),
            Pred::Match { col, test } => {
                cell_meets(alloc, test, cell_named(table, row, col.as_str()))
            }
            Pred::And(parts) => all_hold(alloc, parts.as_slice(), table, row),
            Pred::Or(parts) => one_holds(alloc, parts.as_slice(), table, row),
            Pred::Not(of) => Ok(!of.get().eval(alloc, table, row)?),
        }
    }
}

#[cycle(eval)]
fn all_hold<T: Table>(alloc: Global, parts: &[Pred], table: &T, row: u32) -> Mem<bool>
    requires row_there { option_map (λ found. found.number) (row_from row (T.rows table.now)) ≡ Some row }
    ensures { (found : Row) → row_from row (T.rows table.now) ≡ Some found
        → MatchResult result (λ yes. yes ≡ list_all (holds (T.columns table.now) found.cells) parts.now) (λ _. list_any pred_takes_memory parts.now ≡ true) }
{
    for part in parts {
        if !part.eval(alloc, table, row)? {
            return Ok(false);
        }
    }
    Ok(true)
}

#[cycle(eval)]
fn one_holds<T: Table>(alloc: Global, parts: &[Pred], table: &T, row: u32) -> Mem<bool>
    requires row_there { option_map (λ found. found.number) (row_from row (T.rows table.now)) ≡ Some row }
    ensures { (found : Row) → row_from row (T.rows table.now) ≡ Some found
        → MatchResult result (λ yes. yes ≡ list_any (holds (T.columns table.now) found.cells) parts.now) (λ _. list_any pred_takes_memory parts.now ≡ true) }
{
    for part in parts {
        if part.eval(alloc, table, row)? {
            return Ok(true);
        }
    }
    Ok(false)
}

/// The cell of the column with a name in a row that is there, missing where there is no such column.
fn cell_named<'t, T: Table>(table: &'t T, row: u32, name: &str) -> CellRef<'t>
    requires row_there { option_map (λ found. found.number) (row_from row (T.rows table.now)) ≡ Some row }
    ensures { (found : Row) → row_from row (T.rows table.now) ≡ Some found → cell_lent result ≡ cell_named (T.columns table.now) found.cells name.now }
{
    match table.schema().find(name) {
        Some(place) => table.cell(row, place),
        None => CellRef::Missing,
    }
}

/// Whether a cell is a text that meets a test.
fn cell_meets(alloc: Global, test: &TextTest, cell: CellRef<'_>) -> Mem<bool>
    ensures { MatchResult result (λ yes. yes ≡ cell_meets test.now (cell_lent cell.entry)) (λ _. test_takes_memory test.now ≡ true) }
{
    match cell {
        CellRef::Text(text) => test.meets(alloc, text),
        _ => Ok(false),
    }
}
