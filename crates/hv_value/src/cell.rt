//! Cells and their kinds. The definitions' cells are the values of `Cell`.

ghost use Rattle.std.specs.Prelude.{◌≡◌, ◌↔◌, IsTrue, IfOk};
ghost use Rattle.std.specs.Cmp.{partial_equiv_from_equiv};
ghost use Rattle.std.proofs.Common.{ap};
ghost use Rattle.hv_value.specs.Same.{same_by};
ghost use Rattle.hv_value.specs.SameLaws.{same_by-decides, same_by-equiv};
ghost use Rattle.hv_value.specs.Cells.{cell_lent};
ghost use Rattle.hv_value.specs.Hashes.{cell_writes};

use crate::order::{number_of, text_of};
use crate::{Mem, Text};
use std::alloc::Global;
use std::hash::{Hash, Hasher};

/// What the cells of a column hold, where they aren't missing.
#[derive(Clone, Copy, Debug, PartialEq, Eq, Hash)]
pub enum Kind {
    /// Whole numbers of 64 bits.
    Int,
    /// Days, by the number of days since 1970-01-01: -719162 (0001-01-01) to 2932896 (9999-12-31).
    Date,
    /// Texts.
    Text,
}

/// A cell of a table.
#[derive(Drop)]
pub enum Cell {
    Missing,
    Int(i64),
    Date(i32),
    Text(Text),
}

/// A cell as a table lends it.
#[derive(Clone, Copy, Debug, PartialEq, Eq)]
pub enum CellRef<'a> {
    Missing,
    Int(i64),
    Date(i32),
    Text(&'a str),
}

impl Cell {
    /// Copies a cell, its text into memory of its own.
    pub fn of(alloc: Global, c: CellRef<'_>) -> Mem<Cell>
        ensures { IfOk result (λ cell. cell ≡ cell_lent c.entry) }
    {
        Ok(match c {
            CellRef::Missing => Cell::Missing,
            CellRef::Int(n) => Cell::Int(n),
            CellRef::Date(day) => Cell::Date(day),
            CellRef::Text(text) => Cell::Text(Text::of(alloc, text)?),
        })
    }

    /// The cell, lent.
    #[inline(always)]
    pub fn lent(&self) -> CellRef<'_>
        ensures { cell_lent result ≡ self.now }
    {
        match self {
            Cell::Missing => CellRef::Missing,
            Cell::Int(n) => CellRef::Int(*n),
            Cell::Date(day) => CellRef::Date(*day),
            Cell::Text(text) => CellRef::Text(text.as_str()),
        }
    }
}

/// Two cells are equal where they are the same.
impl PartialEq for Cell {
    ghost use Rattle.hv_value.specs.contracts.cell.Cell as row;

    ghost eq = { same_by row.the_row.coded };

    ghost laws = { partial_equiv_from_equiv (same_by-equiv row.the_row.coded) };

    fn eq(&self, other: &Cell) -> bool {
        are_same(self, other)
    }
}

fn are_same(a: &Cell, b: &Cell) -> bool
    ensures { IsTrue result ↔ (a.now ≡ b.now) }
{
    match (a, b) {
        (Cell::Missing, Cell::Missing) => true,
        (Cell::Int(m), Cell::Int(n)) => m == n,
        (Cell::Date(m), Cell::Date(n)) => m == n,
        (Cell::Text(s), Cell::Text(t)) => s == t,
        _ => false,
    }
}

impl Eq for Cell {
    ghost use Rattle.hv_value.specs.contracts.cell.Cell as row;

    ghost laws = { same_by-equiv row.the_row.coded };
}

impl Hash for Cell {
    ghost use Rattle.hv_value.specs.contracts.cell.Cell as row;

    ghost hash_input = { cell_writes };

    ghost respects_eq = { λ x y e. ap cell_writes ((same_by-decides row.the_row.coded x y).0 e) };

    fn hash<H: Hasher>(&self, state: &mut H) {
        number_of(self.lent()).hash(state);
        text_of(self.lent()).hash(state);
    }
}
