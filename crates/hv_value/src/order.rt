//! The order of cells. The definition is `compare_cells` (specs/Order.antt).

ghost use Rattle.std.specs.Prelude.{◌≡◌};
ghost use Rattle.std.specs.Cmp.Lexicographic.{slice_cmp};
ghost use Rattle.std.specs.Ordering.{int_cmp, nat_cmp};
ghost use Rattle.hv_value.specs.Cells.{cell_lent};
ghost use Rattle.hv_value.specs.Order.{compare_cells, order_bytes, order_number, variant_place};

use crate::CellRef;
use std::cmp::Ordering;

/// How two cells compare: missing is the least; whole numbers and days order by number, texts by bytes, and
/// cells of two kinds as their variants stand in `Cell`. Two of one kind cost one comparison.
#[inline(always)]
pub fn compare(a: CellRef<'_>, b: CellRef<'_>) -> Ordering
    ensures { result ≡ compare_cells (cell_lent a.entry) (cell_lent b.entry) }
{
    match (a, b) {
        (CellRef::Int(m), CellRef::Int(n)) => by_number(m, n),
        (CellRef::Date(m), CellRef::Date(n)) => by_number(i64::from(m), i64::from(n)),
        (CellRef::Text(s), CellRef::Text(t)) => by_text(s, t),
        _ => by_parts(a, b),
    }
}

#[inline(always)]
fn by_number(m: i64, n: i64) -> Ordering
    ensures { result ≡ int_cmp m n }
{
    m.cmp(&n)
}

#[inline(always)]
fn by_text(s: &str, t: &str) -> Ordering
    ensures { result ≡ slice_cmp nat_cmp s.now t.now }
{
    s.cmp(t)
}

/// How any two cells compare: by their variants' places, their numbers and their texts in turn.
#[tactic(auto, unfolding(crate::specs::Order::compare_cells))]
fn by_parts(a: CellRef<'_>, b: CellRef<'_>) -> Ordering
    ensures { result ≡ compare_cells (cell_lent a.entry) (cell_lent b.entry) }
{
    let texts = text_of(a).cmp(text_of(b));
    let numbers = number_of(a).cmp(&number_of(b));
    place_of(a).cmp(&place_of(b)).then(numbers.then(texts))
}

/// The place of a cell's variant among those of `Cell`.
fn place_of(cell: CellRef<'_>) -> u8
    ensures { result ≡ variant_place (cell_lent cell.entry) }
{
    match cell {
        CellRef::Missing => 0,
        CellRef::Int(_) => 1,
        CellRef::Date(_) => 2,
        CellRef::Text(_) => 3,
    }
}

/// The number by which a cell orders among those of its variant, 0 where it has none.
pub(crate) fn number_of(cell: CellRef<'_>) -> i64
    ensures { result ≡ order_number (cell_lent cell.entry) }
{
    match cell {
        CellRef::Missing | CellRef::Text(_) => 0,
        CellRef::Int(n) => n,
        CellRef::Date(day) => i64::from(day),
    }
}

/// The text by which a cell orders among those of its variant, empty where it has none.
pub(crate) fn text_of<'a>(cell: CellRef<'a>) -> &'a str
    ensures { result.now ≡ order_bytes (cell_lent cell.entry) }
{
    match cell {
        CellRef::Missing | CellRef::Int(_) | CellRef::Date(_) => "",
        CellRef::Text(text) => text,
    }
}
