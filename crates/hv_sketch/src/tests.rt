//! Views of rows alone: their count, which of them have a cell, two counts as a pair in one group over one partition and over two,
//! and columns as views ask for them.

ghost use Rattle.std.specs.Prelude.{◌≡◌, [], ◌∷◌, codes, IfOk, IfSome};
ghost use Rattle.hv_value.specs.Cells.{cell_lent};
ghost use Rattle.hv_value.specs.Rows.{int_cell};
ghost use Rattle.hv_value.specs.declared.cell.Kind.TheVariants as kind;

use crate::{
    CellGather, Counts, Gather, Grouped, Groups, Pair, Sorter, Vizketch, add_part, add_tally,
    empty_tally, gather_cells, gather_rows, is_column_of, order_is_free, tally,
};
use hv_value::{CellRef, Kind, Mem, Schema, Table, Text};
use std::alloc::Global;
use std::test::Fail;

/// The number of rows.
#[derive(Drop)]
struct RowCount;

impl Gather for RowCount {
    ghost use Rattle.std.specs.Prelude.{◌≡◌, length, ⊤};

    type Gathered = u64;

    ghost gathers = { λ view part rows count. count ≡ length rows };

    ghost takes = { λ view columns. ⊤ };

    fn start<T: Table>(&self, _alloc: Global, _table: &T) -> Mem<u64> {
        Ok(0)
    }

    fn add_row<T: Table>(&self, _alloc: Global, kept: &mut u64, _table: &T, _row: u32) -> Mem<()> {
        *kept += 1;
        Ok(())
    }
}

impl Vizketch for RowCount {
    ghost use Rattle.std.specs.Prelude.{◌≡◌, length, ⊤};
    ghost use Rattle.std.proofs.Common.{arith, length-append};

    type Summary = u64;

    ghost stands = { λ view rows count. count ≡ length rows };

    ghost fits_columns = { λ view columns. ⊤ };

    ghost merges_always = { λ view. ⊤ };

    fn fits(&self, _schema: &Schema) -> bool {
        true
    }

    fn zero(&self, _alloc: Global) -> Mem<u64> {
        Ok(0)
    }

    fn summarize<T: Table>(&self, alloc: Global, table: &T) -> Mem<u64> {
        gather_rows(alloc, self, table)
    }

    fn merge_into(&self, _alloc: Global, acc: &mut u64, d: &u64) -> Mem<()> {
        *acc += *d;
        Ok(())
    }

    fn copy(&self, _alloc: Global, s: &u64) -> Mem<u64> {
        Ok(*s)
    }

    ghost any_order = { λ view a b c count h. Prim.grind (arith, length-append) };
}

/// How many cells a column has and how many of them are missing.
#[derive(Drop)]
struct Missing;

impl CellGather for Missing {
    ghost use Rattle.std.specs.Prelude.{◌≡◌, length, ⊤};
    ghost use Rattle.std.specs.List.{count_by};
    ghost use Rattle.hv_sketch.specs.ColumnCells.{is_missing};

    type Kept = (u64, u64);

    ghost keeps = { λ view cells kept. (kept.0 ≡ length cells) × (kept.1 ≡ count_by is_missing cells) };

    ghost takes = { λ view kind. ⊤ };

    fn start(&self, _alloc: Global) -> Mem<(u64, u64)> {
        Ok((0, 0))
    }

    fn add_cell(&self, _alloc: Global, kept: &mut (u64, u64), cell: CellRef<'_>) -> Mem<()> {
        kept.0 += 1;
        if let CellRef::Missing = cell {
            kept.1 += 1;
        }
        Ok(())
    }
}

/// A chart of two slots: the cells of a column that are missing, and the others.
#[derive(Drop)]
struct Presence {
    col: u32,
}

impl Sorter for Presence {
    ghost use Rattle.std.specs.Prelude.{cond};
    ghost use Rattle.hv_value.specs.declared.cell.Kind.TheVariants as kind;
    ghost use Rattle.hv_value.specs.Cells.{cell_at};
    ghost use Rattle.hv_sketch.specs.ColumnCells.{is_missing};
    ghost use Rattle.hv_sketch.specs.Columns.{IsColumnOf};

    ghost slots = { λ view. 2 };

    ghost slot = { λ view row. cond (is_missing (cell_at row.cells view.col)) 0 1 };

    ghost takes = { λ view columns. IsColumnOf columns view.col kind.Int };

    fn slots(&self) -> usize {
        2
    }

    #[inline(always)]
    fn slot<T: Table>(&self, table: &T, row: u32) -> usize {
        match table.cell(row, self.col) {
            CellRef::Missing => 0,
            _ => 1,
        }
    }
}

impl Vizketch for Presence {
    ghost use Rattle.std.specs.Prelude.{cond, ⊤};
    ghost use Rattle.hv_value.specs.declared.cell.Kind.TheVariants as kind;
    ghost use Rattle.hv_sketch.specs.Columns.{IsColumnOf};
    ghost use Rattle.hv_sketch.specs.Tally.{IsTally};
    ghost use Rattle.hv_sketch.specs.TallyLaws.{IsTally-swap};

    type Summary = Counts;

    ghost stands = { λ view rows counts. IsTally (⟦<Presence as Sorter>⟧.slots view) (⟦<Presence as Sorter>⟧.slot view) rows counts };

    ghost fits_columns = { λ view columns. IsColumnOf columns view.col kind.Int };

    ghost merges_always = { λ view. ⊤ };

    fn fits(&self, schema: &Schema) -> bool {
        is_column_of(schema, self.col, Kind::Int)
    }

    fn zero(&self, alloc: Global) -> Mem<Counts> {
        empty_tally(alloc, self)
    }

    fn summarize<T: Table>(&self, alloc: Global, table: &T) -> Mem<Counts> {
        tally(alloc, self, table)
    }

    fn merge_into(&self, _alloc: Global, acc: &mut Counts, d: &Counts) -> Mem<()> {
        add_tally(self, acc, d);
        Ok(())
    }

    fn copy(&self, alloc: Global, s: &Counts) -> Mem<Counts> {
        s.copy(alloc)
    }

    ghost any_order = { λ view a b c counts h. IsTally-swap _ _ a b c counts h };
}

#[test]
fn an_empty_summary_stays_empty(rt: HostRuntime) -> Result<(), Fail> {
    let view = RowCount;
    let mut acc = view.zero(rt.alloc())?;
    let other = view.zero(rt.alloc())?;
    view.merge_into(rt.alloc(), &mut acc, &other)?;
    order_is_free(&view, &acc);
    assert_eq!(rt; view.copy(rt.alloc(), &acc)?, 0);
    Ok(())
}

#[test]
fn a_column_is_there_and_of_the_kind(rt: HostRuntime) -> Result<(), Fail> {
    let name = Text::of(rt.alloc(), "x")?;
    let columns = vec![in rt.alloc(); (name, Kind::Int)]?;
    let schema = Schema::new(columns).ok().ok_or("a schema")?;
    for (col, want) in [(0, true), (1, false), (u32::MAX, false)] {
        assert_eq!(rt; is_column_of(&schema, col, Kind::Int), want, "at {col}");
    }
    assert!(rt; RowCount.fits(&schema));
    Ok(())
}

#[test]
fn counts_add_up(rt: HostRuntime) -> Result<(), Fail> {
    let view = Presence { col: 0 };
    let mut acc = view.zero(rt.alloc())?;
    let other = view.zero(rt.alloc())?;
    view.merge_into(rt.alloc(), &mut acc, &other)?;
    assert_eq!(rt; acc.as_slice(), [0, 0].as_slice());
    let table = two_rows(rt.alloc(), 0, None, Some(5))?;
    if !view.fits(&table.schema) {
        return Err(Fail::from("the view fits"));
    }
    let counts = view.summarize(rt.alloc(), &table)?;
    assert_eq!(rt; counts.as_slice(), [1, 1].as_slice());
    assert_eq!(rt; gather_cells(rt.alloc(), &Missing, 0, &table)?, (2, 1));
    Ok(())
}

/// A table of one column of whole numbers, with the rows 3 and 7.
#[derive(Drop)]
struct TwoRows {
    schema: Schema,
    part: u32,
    first: Option<i64>,
    second: Option<i64>,
    ghost column: { schema ≡ (codes "x", kind.Int) ∷ [] },
}

impl Table for TwoRows {
    ghost use Rattle.std.specs.Prelude.{◌≡◌, [], ◌∷◌, codes};
    ghost use Rattle.hv_value.specs.Rows.{int_cell};
    ghost use Rattle.hv_value.specs.declared.cell.Kind.TheVariants as kind;

    ghost columns = { λ table. (codes "x", kind.Int) ∷ [] };

    ghost part_number = { λ table. table.part };

    ghost rows = { λ table. record { part = table.part; number = 3; cells = int_cell table.first ∷ [] }
        ∷ record { part = table.part; number = 7; cells = int_cell table.second ∷ [] } ∷ [] };

    fn schema(&self) -> &Schema {
        &self.schema
    }

    fn part(&self) -> u32 {
        self.part
    }

    fn next_row(&self, from: u32) -> Option<u32> {
        match from {
            0..=3 => Some(3),
            4..=7 => Some(7),
            _ => None,
        }
    }

    fn cell(&self, row: u32, _col: u32) -> CellRef<'_> {
        lent(if row == 3 { self.first } else { self.second })
    }
}

/// A cell of a whole number, or a missing one.
fn lent(n: Option<i64>) -> CellRef<'static>
    ensures { cell_lent result ≡ int_cell n }
{
    match n {
        Some(n) => CellRef::Int(n),
        None => CellRef::Missing,
    }
}

/// The rows of two numbers in a partition.
fn two_rows(
    alloc: Global,
    part: u32,
    first: Option<i64>,
    second: Option<i64>,
) -> Result<TwoRows, Fail>
    ensures { IfOk result (λ table. table.part ≡ part) }
{
    let columns = vec![in alloc; (Text::of(alloc, "x")?, Kind::Int)]?;
    Ok(TwoRows {
        schema: Schema::new(columns)?,
        part,
        first,
        second,
    })
}

/// One group, of the rows whose cell isn't missing.
#[derive(Drop)]
struct Present;

impl Groups for Present {
    ghost use Rattle.std.specs.Prelude.{cond, Some, None};
    ghost use Rattle.hv_value.specs.declared.cell.Kind.TheVariants as kind;
    ghost use Rattle.hv_value.specs.Cells.{cell_at};
    ghost use Rattle.hv_sketch.specs.ColumnCells.{is_missing};
    ghost use Rattle.hv_sketch.specs.Columns.{IsColumnOf};

    ghost group_of = { λ groups row. cond (is_missing (cell_at row.cells 0)) None (Some 0) };

    ghost count = { λ groups. 1 };

    ghost fits_columns = { λ groups columns. IsColumnOf columns 0 kind.Int };

    fn fits(&self, schema: &Schema) -> bool {
        is_column_of(schema, 0, Kind::Int)
    }

    fn groups(&self) -> u32 {
        1
    }

    fn group<T: Table>(&self, table: &T, row: u32) -> Option<u32> {
        match table.cell(row, 0) {
            CellRef::Missing => None,
            _ => Some(0),
        }
    }
}

/// How many rows are in no group, and in each group by both halves of a pair, of one partition or of two.
fn counted(
    alloc: Global,
    low: &TwoRows,
    high: Option<&TwoRows>,
) -> Result<(u64, Vec<(u64, u64)>), Fail>
    requires low { low.now.part ≡ 0 }
    requires high { IfSome high (λ table. table.now.part ≡ 1) }
{
    let view = Grouped::new(Present, Pair::new(RowCount, RowCount));
    if !view.fits(&low.schema) {
        return Err(Fail::from("the view fits"));
    }
    let mut acc = view.zero(alloc)?;
    add_part(alloc, &view, &mut acc, low)?;
    if let Some(high) = high {
        if !view.fits(&high.schema) {
            return Err(Fail::from("the view fits"));
        }
        add_part(alloc, &view, &mut acc, high)?;
    }
    let copy = view.copy(alloc, &acc)?;
    let mut counts = Vec::new(alloc);
    for both in copy.groups() {
        counts.push((both.first, both.second))?;
    }
    Ok((copy.rest(), counts))
}

#[test]
fn each_group_counts_its_own_rows(rt: HostRuntime) -> Result<(), Fail> {
    let alloc = rt.alloc();
    for (cells, rest, count) in [
        ([None, None, None, None], 4, 0),
        ([Some(1), None, None, None], 3, 1),
        ([None, Some(1), Some(2), None], 2, 2),
        ([Some(1), Some(2), Some(3), Some(4)], 0, 4),
    ] {
        let low = two_rows(alloc, 0, cells[0], cells[1])?;
        let high = two_rows(alloc, 1, cells[2], cells[3])?;
        let (found, counts) = counted(alloc, &low, Some(&high))?;
        assert_eq!(rt; found, rest);
        assert_eq!(rt; counts.as_slice(), [(count, count)].as_slice());
    }
    for (cells, rest, count) in [([None, None], 2, 0), ([Some(1), None], 1, 1)] {
        let only = two_rows(alloc, 0, cells[0], cells[1])?;
        let (found, counts) = counted(alloc, &only, None)?;
        assert_eq!(rt; found, rest);
        assert_eq!(rt; counts.as_slice(), [(count, count)].as_slice());
    }
    Ok(())
}
