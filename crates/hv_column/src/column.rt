//! A column. Contracts see one as its kind and the list of its cells (`ColumnCells` of specs/Column.antt).

ghost use Rattle.std.specs.Prelude.{◌≡◌, ◌<◌, ◌≤◌, ◌^◌, ℕ, List, Option, [], ◌∷◌, ◌++◌, length, true, OnOk, OnErr, IfOk, Some, slice_get, option_map};
ghost use Rattle.std.specs.List.{list_all};
ghost use Rattle.hv_value.specs.Cells.{cell_lent, is_of_kind};
ghost use Rattle.hv_value.specs.Rows.{date_cell, int_cell};
ghost use Rattle.hv_value.specs.declared.cell.Kind.TheVariants as kind;
ghost use Rattle.hv_column.specs.Column.{ColumnCells};
ghost use Rattle.hv_column.specs.Store.{text_cell};

use crate::nullable::Nullable;
use crate::texts::Texts;
use hv_value::{CellRef, Kind, Mem};
use std::alloc::Global;
use std::marker::Model;

/// The cells of a column of each kind.
#[derive(Drop)]
enum Store {
    Ints(Nullable<i64>),
    Dates(Nullable<i32>),
    Texts(Texts),
}

/// The cells of one column, missing or of its kind: at most 2^26 of them, the row of number `i` at place `i`.
#[derive(Drop)]
pub struct Column {
    store: Store,
}

impl Model for Column {
    ghost use Rattle.hv_column.specs.Column.{AreCells, ColumnCells};

    ghost Value = { ColumnCells };

    ghost use Rattle.hv_column.specs.Store.{content_of};

    ghost view = { λ column. content_of column.store };

    ghost invariant = { λ column. AreCells (content_of column.store) };
}

/// The whole number of a cell of the kind Int.
fn int_in(cell: CellRef<'_>) -> Option<i64>
    requires { is_of_kind kind.Int (cell_lent cell) ≡ true }
    ensures { int_cell result ≡ cell_lent cell.entry }
{
    match cell {
        CellRef::Int(n) => Some(n),
        _ => None,
    }
}

/// The day of a cell of the kind Date.
fn date_in(cell: CellRef<'_>) -> Option<i32>
    requires { is_of_kind kind.Date (cell_lent cell) ≡ true }
    ensures { date_cell result ≡ cell_lent cell.entry }
{
    match cell {
        CellRef::Date(day) => Some(day),
        _ => None,
    }
}

/// The text of a cell of the kind Text.
fn text_in<'a>(cell: CellRef<'a>) -> Option<&'a str>
    requires { is_of_kind kind.Text (cell_lent cell) ≡ true }
    ensures { text_cell (option_map (λ text. text.now) result) ≡ cell_lent cell.entry }
{
    match cell {
        CellRef::Text(text) => Some(text),
        _ => None,
    }
}

/// The cell of a whole number that may be missing.
fn int_lent(value: Option<i64>) -> CellRef<'static>
    ensures { cell_lent result ≡ int_cell value }
{
    match value {
        None => CellRef::Missing,
        Some(n) => CellRef::Int(n),
    }
}

/// The cell of a day that may be missing.
fn date_lent(value: Option<i32>) -> CellRef<'static>
    ensures { cell_lent result ≡ date_cell value }
{
    match value {
        None => CellRef::Missing,
        Some(day) => CellRef::Date(day),
    }
}

/// The cell of a text that may be missing.
fn text_lent<'a>(value: Option<&'a str>) -> CellRef<'a>
    ensures { cell_lent result ≡ text_cell (option_map (λ text. text.now) value.entry) }
{
    match value {
        None => CellRef::Missing,
        Some(text) => CellRef::Text(text),
    }
}

impl Column {
    /// A column without cells.
    pub fn new(alloc: Global, kind: Kind) -> Mem<Column>
        ensures { IfOk result (λ column. column ≡ record { kind = kind; cells = [] }) }
    {
        let store = match kind {
            Kind::Int => Store::Ints(Nullable::new(alloc)),
            Kind::Date => Store::Dates(Nullable::new(alloc)),
            Kind::Text => Store::Texts(Texts::new(alloc)),
        };
        Ok(Column { store })
    }

    /// Adds a cell at the end. Room grows geometrically.
    pub fn push(&mut self, cell: CellRef<'_>) -> Mem<()>
        requires fits { is_of_kind self.old.kind (cell_lent cell) ≡ true }
        requires room { length self.old.cells < 2 ^ 26 }
        ensures ok { OnOk result (self.new ≡ record self.old { cells = self.old.cells ++ cell_lent cell.entry ∷ [] }) }
        ensures err { OnErr result (self.new ≡ self.old) }
    {
        match &mut self.store {
            Store::Ints(ints) => ints.push(int_in(cell)),
            Store::Dates(dates) => dates.push(date_in(cell)),
            Store::Texts(texts) => texts.push(text_in(cell)),
        }
    }

    /// The number of cells, at most 2^26.
    pub fn len(&self) -> u32
        ensures value { result ≡ length self.now.cells }
        ensures most { length self.now.cells ≤ 2 ^ 26 }
    {
        let count = match &self.store {
            Store::Ints(ints) => ints.len(),
            Store::Dates(dates) => dates.len(),
            Store::Texts(texts) => texts.len(),
        };
        count as u32
    }

    /// The kind of its cells.
    pub fn kind(&self) -> Kind
        ensures value { result ≡ self.now.kind }
        ensures kinds { list_all (is_of_kind self.now.kind) self.now.cells ≡ true }
    {
        match &self.store {
            Store::Ints(_) => Kind::Int,
            Store::Dates(_) => Kind::Date,
            Store::Texts(_) => Kind::Text,
        }
    }

    /// The cell at a place from 0, in constant time.
    pub fn cell(&self, i: u32) -> CellRef<'_>
        requires { i < length self.now.cells }
        ensures { slice_get self.now.cells i ≡ Some (cell_lent result) }
    {
        match &self.store {
            Store::Ints(ints) => int_lent(ints.get(i as usize)),
            Store::Dates(dates) => date_lent(dates.get(i as usize)),
            Store::Texts(texts) => text_lent(texts.get(i as usize)),
        }
    }
}
