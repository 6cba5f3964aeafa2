//! The range and the distinct values of whole numbers in two partitions. Values of every kind, and at both ends of 64
//! bits, are told by the scripts of the folder tests/. Expected values are worked by hand.

ghost use Rattle.std.specs.Prelude.{◌≡◌, [], ◌∷◌, codes, IfOk};
ghost use Rattle.hv_value.specs.Cells.{cell_lent};
ghost use Rattle.hv_value.specs.Rows.{int_cell};
ghost use Rattle.hv_value.specs.declared.cell.Kind.TheVariants as kind;

use crate::{Distinct, DistinctSummary, Range, RangeSummary};
use hv_sketch::{Vizketch, add_part, order_is_free};
use hv_value::{Cell, CellRef, Kind, Schema, Table, Text};
use std::alloc::Global;
use std::test::Fail;

/// A table of one column of whole numbers, with the rows 3 and 7.
#[derive(Drop)]
struct TwoRows {
    schema: Schema,
    part: u32,
    first: Option<i64>,
    second: Option<i64>,
    ghost column: { schema ≡ (codes "x", kind.Int) ∷ [] },
}

impl Table for TwoRows {
    ghost use Rattle.std.specs.Prelude.{◌≡◌, [], ◌∷◌, codes};
    ghost use Rattle.hv_value.specs.Rows.{int_cell};
    ghost use Rattle.hv_value.specs.declared.cell.Kind.TheVariants as kind;

    ghost columns = { λ table. (codes "x", kind.Int) ∷ [] };

    ghost part_number = { λ table. table.part };

    ghost rows = { λ table. record { part = table.part; number = 3; cells = int_cell table.first ∷ [] }
        ∷ record { part = table.part; number = 7; cells = int_cell table.second ∷ [] } ∷ [] };

    fn schema(&self) -> &Schema {
        &self.schema
    }

    fn part(&self) -> u32 {
        self.part
    }

    fn next_row(&self, from: u32) -> Option<u32> {
        match from {
            0..=3 => Some(3),
            4..=7 => Some(7),
            _ => None,
        }
    }

    fn cell(&self, row: u32, _col: u32) -> CellRef<'_> {
        lent(if row == 3 { self.first } else { self.second })
    }
}

/// A cell of a whole number, or a missing one.
fn lent(n: Option<i64>) -> CellRef<'static>
    ensures { cell_lent result ≡ int_cell n }
{
    match n {
        Some(n) => CellRef::Int(n),
        None => CellRef::Missing,
    }
}

fn one_column(alloc: Global) -> Result<Schema, Fail>
    ensures { IfOk result (λ schema. schema ≡ (codes "x", kind.Int) ∷ []) }
{
    let columns = vec![in alloc; (Text::of(alloc, "x")?, Kind::Int)]?;
    Ok(Schema::new(columns)?)
}

fn two_rows(
    alloc: Global,
    part: u32,
    first: Option<i64>,
    second: Option<i64>,
) -> Result<TwoRows, Fail>
    ensures { IfOk result (λ table. table.part ≡ part) }
{
    Ok(TwoRows {
        schema: one_column(alloc)?,
        part,
        first,
        second,
    })
}

/// The cell of a whole number, or a missing one.
fn cell_of(n: Option<i64>) -> Cell {
    match n {
        Some(n) => Cell::Int(n),
        None => Cell::Missing,
    }
}

/// A range of so many missing cells and of numbers with these bounds.
fn range(count: u64, missing: u64, bounds: [Option<i64>; 2], sum: i128) -> RangeSummary {
    RangeSummary {
        count,
        missing,
        least: cell_of(bounds[0]),
        greatest: cell_of(bounds[1]),
        sum,
    }
}

fn are_equal(a: &RangeSummary, b: &RangeSummary) -> bool {
    a.count == b.count
        && a.missing == b.missing
        && a.least == b.least
        && a.greatest == b.greatest
        && a.sum == b.sum
}

/// Whether the distinct values are these numbers.
fn are(found: &DistinctSummary, numbers: &[i64], more: bool) -> bool {
    let values = found.values.as_slice();
    found.more == more
        && values.len() == numbers.len()
        && values
            .iter()
            .zip(numbers.iter())
            .all(|(value, n)| *value == Cell::Int(*n))
}

/// A copy of the summary of the rows of partitions 0 and 1.
fn of_both<V: Vizketch>(
    alloc: Global,
    view: &V,
    low: &TwoRows,
    high: &TwoRows,
) -> Result<V::Summary, Fail>
    requires low { low.now.part ≡ 0 }
    requires high { high.now.part ≡ 1 }
{
    if !view.fits(&low.schema) || !view.fits(&high.schema) {
        return Err(Fail::from("the view fits"));
    }
    let mut acc = view.zero(alloc)?;
    add_part(alloc, view, &mut acc, low)?;
    add_part(alloc, view, &mut acc, high)?;
    order_is_free(view, &acc);
    Ok(view.copy(alloc, &acc)?)
}

#[test]
fn each_partition_adds_its_rows(rt: HostRuntime) -> Result<(), Fail> {
    let low = two_rows(rt.alloc(), 0, Some(9), None)?;
    let high = two_rows(rt.alloc(), 1, Some(-2), Some(5))?;
    let found = of_both(rt.alloc(), &Range::new(0, Kind::Int), &low, &high)?;
    assert!(rt; are_equal(&found, &range(3, 1, [Some(-2), Some(9)], 12)));
    let found = of_both(rt.alloc(), &Distinct::new(0, 2), &low, &high)?;
    assert!(rt; are(&found, &[-2, 5], true));
    Ok(())
}

#[test]
fn the_column_must_be_there(rt: HostRuntime) -> Result<(), Fail> {
    let schema = one_column(rt.alloc())?;
    for (col, want) in [(0, true), (1, false)] {
        assert_eq!(rt; Range::new(col, Kind::Int).fits(&schema), want, "at {col}");
        assert_eq!(rt; Distinct::new(col, 3).fits(&schema), want, "at {col}");
    }
    assert!(rt; !Range::new(0, Kind::Text).fits(&schema));
    Ok(())
}
