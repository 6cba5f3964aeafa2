//! Expressions that are prepared for many rows: each column's place is found once. The definition is `IsReadyExpr`
//! (specs/Ready.antt).

ghost use Rattle.std.specs.Prelude.{◌≡◌, length, true, Some, option_map, IfOk};
ghost use Rattle.hv_value.specs.Rows.{Row};
ghost use Rattle.hv_value.specs.Table.{row_from};
ghost use Rattle.hv_expr.specs.declared.expr.Expr.{Expr};
ghost use Rattle.hv_expr.specs.Checks.{has_fit_factors};
ghost use Rattle.hv_expr.specs.Ready.{IsReadyExpr, is_expr_within, operand_cell, ready_val};
ghost use Rattle.hv_expr.specs.Values.{val};

use crate::Expr;
use crate::cells::{
    cell_at_place, day_cell, join_cells, length_cell, linear_cell, month_cell, year_cell,
};
use crate::operand::Operand;
use hv_value::{Cell, Mem, Schema, Table, Text};
use sqlite_items::Boxed;
use std::alloc::Global;

/// An expression over the rows of tables of one schema, with columns by place: none where there is no such column.
#[derive(Drop)]
pub enum ReadyExpr {
    Col(Option<u32>),
    Year(Boxed<ReadyExpr>),
    Month(Boxed<ReadyExpr>),
    Day(Boxed<ReadyExpr>),
    Length(Boxed<ReadyExpr>),
    Linear {
        a: i128,
        b: i128,
        of: Boxed<ReadyExpr>,
    },
    Join {
        left: Boxed<ReadyExpr>,
        between: Text,
        right: Boxed<ReadyExpr>,
    },
}

impl ReadyExpr {
    /// Prepares an expression for the rows of tables of a schema.
    #[tactic(auto, using(crate::proofs::Folds::folds), unfolding(crate::specs::Checks::has_fit_factors))]
    pub fn of(alloc: Global, e: &Expr, schema: &Schema) -> Mem<ReadyExpr>
        requires { has_fit_factors e.now ≡ true }
        ensures { IfOk result (λ ready. IsReadyExpr schema.now e.now ready) }
    {
        match e {
            Expr::Col(name) => Ok(ReadyExpr::Col(schema.find(name.as_str()))),
            Expr::Year(of) => {
                let of = ReadyExpr::of(alloc, of.get(), schema)?;
                Ok(ReadyExpr::Year(boxed(alloc, of)?))
            }
            Expr::Month(of) => {
                let of = ReadyExpr::of(alloc, of.get(), schema)?;
                Ok(ReadyExpr::Month(boxed(alloc, of)?))
            }
            Expr::Day(of) => {
                let of = ReadyExpr::of(alloc, of.get(), schema)?;
                Ok(ReadyExpr::Day(boxed(alloc, of)?))
            }
            Expr::Length(of) => {
                let of = ReadyExpr::of(alloc, of.get(), schema)?;
                Ok(ReadyExpr::Length(boxed(alloc, of)?))
            }
            Expr::Linear { a, b, of } => {
                let of = ReadyExpr::of(alloc, of.get(), schema)?;
                let of = boxed(alloc, of)?;
                Ok(ReadyExpr::Linear { a: *a, b: *b, of })
            }
            Expr::Join {
                left,
                between,
                right,
            } => {
                let left = ReadyExpr::of(alloc, left.get(), schema)?;
                let right = ReadyExpr::of(alloc, right.get(), schema)?;
                join(alloc, left, between, right)
            }
        }
    }

    /// The value of the expression that was prepared in a row that is there, in a table of the schema.
    pub fn eval<T: Table>(&self, alloc: Global, table: &T, row: u32) -> Mem<Cell>
        requires row_there { option_map (λ found. found.number) (row_from row (T.rows table.now)) ≡ Some row }
        requires within { is_expr_within (length (T.columns table.now)) self.now ≡ true }
        ensures { (e : Expr) (found : Row) → IsReadyExpr (T.columns table.now) e self.now → row_from row (T.rows table.now) ≡ Some found
            → IfOk result (λ cell. cell ≡ val (T.columns table.now) found.cells e) }
    {
        self.value(alloc, table, row)
    }

    /// The same by the prepared tree.
    #[cycle(value)]
    #[tactic(auto, using(crate::proofs::ReadyFolds::folds), unfolding(crate::specs::Ready::ready_val, crate::specs::Ready::is_expr_within))]
    fn value<T: Table>(&self, alloc: Global, table: &T, row: u32) -> Mem<Cell>
        requires row_there { option_map (λ found. found.number) (row_from row (T.rows table.now)) ≡ Some row }
        requires within { is_expr_within (length (T.columns table.now)) self.now ≡ true }
        ensures { (found : Row) → row_from row (T.rows table.now) ≡ Some found → IfOk result (λ cell. cell ≡ ready_val found.cells self.now) }
    {
        match self {
            ReadyExpr::Col(place) => Cell::of(alloc, cell_at_place(table, row, *place)),
            ReadyExpr::Year(of) => Ok(year_cell(operand(alloc, of.get(), table, row)?.lent())),
            ReadyExpr::Month(of) => Ok(month_cell(operand(alloc, of.get(), table, row)?.lent())),
            ReadyExpr::Day(of) => Ok(day_cell(operand(alloc, of.get(), table, row)?.lent())),
            ReadyExpr::Length(of) => Ok(length_cell(operand(alloc, of.get(), table, row)?.lent())),
            ReadyExpr::Linear { a, b, of } => {
                let x = operand(alloc, of.get(), table, row)?;
                Ok(linear_cell(*a, *b, x.lent()))
            }
            ReadyExpr::Join {
                left,
                between,
                right,
            } => {
                let left = operand(alloc, left.get(), table, row)?;
                let right = operand(alloc, right.get(), table, row)?;
                join_cells(alloc, left.lent(), between.as_str(), right.lent())
            }
        }
    }
}

/// The value of an operand, of which no copy is made where it's a column's.
#[cycle(value)]
#[tactic(auto, using(crate::proofs::ReadyFolds::folds), unfolding(crate::specs::Ready::ready_val, crate::specs::Ready::is_expr_within))]
fn operand<'t, T: Table>(alloc: Global, of: &ReadyExpr, table: &'t T, row: u32) -> Mem<Operand<'t>>
    requires row_there { option_map (λ found. found.number) (row_from row (T.rows table.now)) ≡ Some row }
    requires within { is_expr_within (length (T.columns table.now)) of.now ≡ true }
    ensures { (found : Row) → row_from row (T.rows table.now) ≡ Some found → IfOk result (λ held. operand_cell held ≡ ready_val found.cells of.now) }
{
    match of {
        ReadyExpr::Col(place) => Ok(Operand::Column(cell_at_place(table, row, *place))),
        other => Ok(Operand::Made(other.value(alloc, table, row)?)),
    }
}

fn boxed(alloc: Global, e: ReadyExpr) -> Mem<Boxed<ReadyExpr>>
    ensures { IfOk result (λ b. b ≡ e) }
{
    Ok(Boxed::new(alloc, e)?)
}

fn join(alloc: Global, left: ReadyExpr, between: &Text, right: ReadyExpr) -> Mem<ReadyExpr>
    ensures { IfOk result (λ e. e ≡ ReadyExpr.Join left between.now right) }
{
    Ok(ReadyExpr::Join {
        left: Boxed::new(alloc, left)?,
        between: between.copy(alloc)?,
        right: Boxed::new(alloc, right)?,
    })
}
