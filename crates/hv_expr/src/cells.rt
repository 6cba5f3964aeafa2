//! What a node says of its operands' cells (specs/Values.antt, specs/Holds.antt).

ghost use Rattle.std.specs.Prelude.{◌≡◌, ◌+ℤ◌, ◌*ℤ◌, ◌++◌, true, pos, length, Some, option_map, IfOk};
ghost use Rattle.std.specs.Cmp.Lexicographic.{slice_cmp};
ghost use Rattle.std.specs.Ordering.{nat_cmp};
ghost use Rattle.jiff_core.specs.Date.{epoch_day};
ghost use Rattle.hv_value.specs.Cells.{cell_lent};
ghost use Rattle.hv_value.specs.Days.{is_day_number};
ghost use Rattle.hv_value.specs.Number.{fitting_i64};
ghost use Rattle.hv_value.specs.Rows.{Row, int_cell};
ghost use Rattle.hv_value.specs.Table.{row_from};
ghost use Rattle.hv_value.specs.declared.cell.Cell.TheVariants as cells;
ghost use Rattle.hv_expr.specs.Checks.{is_fit_factor};
ghost use Rattle.hv_value.specs.Civil.{day_of, month_of, year_of};
ghost use Rattle.hv_expr.specs.Holds.{is_missing, is_related, relates};
ghost use Rattle.hv_expr.specs.Ready.{is_place_within};
ghost use Rattle.hv_expr.specs.Values.{cell_at_place, day_part, join_cells, length_cell, linear_cell};

use crate::Rel;
use hv_value::{Cell, CellRef, Mem, Table, Text, compare};
use jiff_core::civil::Date;
use std::alloc::Global;
use std::cmp::Ordering;

/// Whether a cell isn't missing and is in a relation to another. Two whole numbers or two dates take no detour.
#[inline]
#[tactic(auto, unfolding(hv_value::specs::Order::compare_cells))]
pub(crate) fn is_related(how: Rel, cell: CellRef<'_>, to: &Cell) -> bool
    ensures { result ≡ is_related how to.now (cell_lent cell.entry) }
{
    match (cell, to) {
        (CellRef::Int(n), Cell::Int(m)) => relates(how, n.cmp(m)),
        (CellRef::Date(day), Cell::Date(other)) => relates(how, day.cmp(other)),
        (cell, to) => is_other_related(how, cell, to),
    }
}

/// The same, of cells that needn't be whole numbers or dates.
#[inline(never)]
fn is_other_related(how: Rel, cell: CellRef<'_>, to: &Cell) -> bool
    ensures { result ≡ is_related how to.now (cell_lent cell.entry) }
{
    match cell {
        CellRef::Missing => false,
        CellRef::Text(text) => is_text_related(how, text, to),
        CellRef::Int(n) => relates(how, compare(CellRef::Int(n), to.lent())),
        CellRef::Date(day) => relates(how, compare(CellRef::Date(day), to.lent())),
    }
}

/// The same of a text.
#[tactic(auto, unfolding(hv_value::specs::Order::compare_cells))]
fn is_text_related(how: Rel, text: &str, to: &Cell) -> bool
    ensures { result ≡ is_related how to.now (cells.Text text.now) }
{
    match to {
        Cell::Text(other) => are_texts_related(how, text, other.as_str()),
        other => relates(how, compare(CellRef::Text(text), other.lent())),
    }
}

/// Whether two texts are in a relation. Equality looks at the lengths first.
#[tactic(auto, using(crate::proofs::RelationLemmas::orders))]
fn are_texts_related(how: Rel, a: &str, b: &str) -> bool
    ensures { result ≡ relates how (slice_cmp nat_cmp a.now b.now) }
{
    match how {
        Rel::Eq => a == b,
        Rel::Ne => a != b,
        other => relates(other, a.cmp(b)),
    }
}

/// Whether two values that compare so are in a relation.
fn relates(how: Rel, order: Ordering) -> bool
    ensures { result ≡ relates how order }
{
    match how {
        Rel::Lt => order.is_lt(),
        Rel::Le => order.is_le(),
        Rel::Eq => order.is_eq(),
        Rel::Ne => order.is_ne(),
        Rel::Ge => order.is_ge(),
        Rel::Gt => order.is_gt(),
    }
}

pub(crate) fn is_missing(cell: CellRef<'_>) -> bool
    ensures { result ≡ is_missing (cell_lent cell.entry) }
{
    match cell {
        CellRef::Missing => true,
        CellRef::Int(_) => false,
        CellRef::Date(_) => false,
        CellRef::Text(_) => false,
    }
}

fn is_day_number(day: i32) -> bool
    ensures { result ≡ is_day_number day }
{
    -719162 <= day && day <= 2932896
}

/// The date of a day number.
fn date_of(day: i32) -> Date
    requires { is_day_number day ≡ true }
    ensures { epoch_day result ≡ day }
{
    Date::from_unix_epoch_day(i64::from(day)).unwrap()
}

/// The same date, with what its parts are.
fn civil_date(day: i32) -> Date
    requires { is_day_number day ≡ true }
    ensures year { result.year ≡ pos (year_of day) }
    ensures month { result.month ≡ month_of day }
    ensures day { pos result.day ≡ day_of day }
{
    date_of(day)
}

/// The civil year of a date, else missing.
pub(crate) fn year_cell(cell: CellRef<'_>) -> Cell
    ensures { result ≡ day_part (λ day. pos (year_of day)) (cell_lent cell.entry) }
{
    match cell {
        CellRef::Date(day) if is_day_number(day) => Cell::Int(i64::from(civil_date(day).year)),
        _ => Cell::Missing,
    }
}

/// The civil month of a date, else missing.
pub(crate) fn month_cell(cell: CellRef<'_>) -> Cell
    ensures { result ≡ day_part (λ day. pos (month_of day)) (cell_lent cell.entry) }
{
    match cell {
        CellRef::Date(day) if is_day_number(day) => Cell::Int(i64::from(civil_date(day).month)),
        _ => Cell::Missing,
    }
}

/// The civil day of the month of a date, else missing.
pub(crate) fn day_cell(cell: CellRef<'_>) -> Cell
    ensures { result ≡ day_part day_of (cell_lent cell.entry) }
{
    match cell {
        CellRef::Date(day) if is_day_number(day) => Cell::Int(i64::from(civil_date(day).day)),
        _ => Cell::Missing,
    }
}

/// The number of a text's bytes, else missing.
pub(crate) fn length_cell(cell: CellRef<'_>) -> Cell
    ensures { result ≡ length_cell (cell_lent cell.entry) }
{
    match cell {
        CellRef::Text(text) => Cell::Int(text.len() as i64),
        _ => Cell::Missing,
    }
}

/// `a * x + b` of a whole number `x`, else missing.
pub(crate) fn linear_cell(a: i128, b: i128, cell: CellRef<'_>) -> Cell
    requires a { is_fit_factor a ≡ true }
    requires b { is_fit_factor b ≡ true }
    ensures { result ≡ linear_cell a b (cell_lent cell.entry) }
{
    match cell {
        CellRef::Int(x) => fitting_cell(line(a, b, x)),
        _ => Cell::Missing,
    }
}

/// `a * x + b`, which is a number of 128 bits.
fn line(a: i128, b: i128, x: i64) -> i128
    requires a { is_fit_factor a ≡ true }
    requires b { is_fit_factor b ≡ true }
    ensures { result ≡ a *ℤ x +ℤ b }
{
    a * i128::from(x) + b
}

/// A number as a cell, missing where it isn't one of an `i64`.
fn fitting_cell(n: i128) -> Cell
    ensures { result ≡ int_cell (fitting_i64 n) }
{
    match i64::try_from(n) {
        Ok(n) => Cell::Int(n),
        Err(_) => Cell::Missing,
    }
}

/// Two texts with one between them, missing where one of the cells is no text.
pub(crate) fn join_cells(
    alloc: Global,
    left: CellRef<'_>,
    between: &str,
    right: CellRef<'_>,
) -> Mem<Cell>
    ensures { IfOk result (λ cell. cell ≡ join_cells (cell_lent left.entry) between.now (cell_lent right.entry)) }
{
    match left {
        CellRef::Text(left) => join_text(alloc, left, between, right),
        _ => Ok(Cell::Missing),
    }
}

/// The same of a text at the left.
fn join_text(alloc: Global, left: &str, between: &str, right: CellRef<'_>) -> Mem<Cell>
    ensures { IfOk result (λ cell. cell ≡ join_cells (cells.Text left.now) between.now (cell_lent right.entry)) }
{
    match right {
        CellRef::Text(right) => Ok(Cell::Text(joined(alloc, left, between, right)?)),
        _ => Ok(Cell::Missing),
    }
}

fn joined(alloc: Global, left: &str, between: &str, right: &str) -> Mem<Text>
    ensures { IfOk result (λ text. text ≡ left.now ++ (between.now ++ right.now)) }
{
    Ok(Text::from_string(format!(in alloc; "{left}{between}{right}")?))
}

/// The cell at a place in a row that is there, missing where there is no place.
pub(crate) fn cell_at_place<'t, T: Table>(table: &'t T, row: u32, place: Option<u32>) -> CellRef<'t>
    requires row_there { option_map (λ found. found.number) (row_from row (T.rows table.now)) ≡ Some row }
    requires within { is_place_within (length (T.columns table.now)) place ≡ true }
    ensures { (found : Row) → row_from row (T.rows table.now) ≡ Some found → cell_lent result ≡ cell_at_place found.cells place }
{
    match place {
        Some(place) => table.cell(row, place),
        None => CellRef::Missing,
    }
}
