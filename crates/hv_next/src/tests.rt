//! The next rows of two partitions of whole numbers, upwards and downwards, after a key and from the first. Expected
//! values are worked by hand.

ghost use Rattle.std.specs.Prelude.{◌≡◌, [], ◌∷◌, codes, IfOk};
ghost use Rattle.hv_value.specs.Cells.{cell_lent};
ghost use Rattle.hv_value.specs.declared.cell.Cell.TheVariants as cell;
ghost use Rattle.hv_value.specs.declared.cell.Kind.TheVariants as kind;

use crate::{NextRows, NextSummary, least_of_pieces};
use hv_sketch::{Vizketch, add_part, order_is_free};
use hv_value::{Cell, CellRef, Kind, Order, OrderKey, Schema, Table, Text};
use std::alloc::Global;
use std::test::Fail;

/// A table of one column of whole numbers, with the rows 3 and 7.
#[derive(Drop)]
struct TwoRows {
    schema: Schema,
    part: u32,
    first: i64,
    second: i64,
    ghost column: { schema ≡ (codes "x", kind.Int) ∷ [] },
}

impl Table for TwoRows {
    ghost use Rattle.std.specs.Prelude.{◌≡◌, [], ◌∷◌, codes};
    ghost use Rattle.hv_value.specs.declared.cell.Cell.TheVariants as cell;
    ghost use Rattle.hv_value.specs.declared.cell.Kind.TheVariants as kind;

    ghost columns = { λ table. (codes "x", kind.Int) ∷ [] };

    ghost part_number = { λ table. table.part };

    ghost rows = { λ table. record { part = table.part; number = 3; cells = cell.Int table.first ∷ [] }
        ∷ record { part = table.part; number = 7; cells = cell.Int table.second ∷ [] } ∷ [] };

    fn schema(&self) -> &Schema {
        &self.schema
    }

    fn part(&self) -> u32 {
        self.part
    }

    fn next_row(&self, from: u32) -> Option<u32> {
        match from {
            0..=3 => Some(3),
            4..=7 => Some(7),
            _ => None,
        }
    }

    fn cell(&self, row: u32, _col: u32) -> CellRef<'_> {
        CellRef::Int(if row == 3 { self.first } else { self.second })
    }
}

fn one_column(alloc: Global) -> Result<Schema, Fail>
    ensures { IfOk result (λ schema. schema ≡ (codes "x", kind.Int) ∷ []) }
{
    let columns = vec![in alloc; (Text::of(alloc, "x")?, Kind::Int)]?;
    Ok(Schema::new(columns)?)
}

fn two_rows(alloc: Global, part: u32, first: i64, second: i64) -> Result<TwoRows, Fail>
    ensures { IfOk result (λ table. table.part ≡ part) }
{
    Ok(TwoRows {
        schema: one_column(alloc)?,
        part,
        first,
        second,
    })
}

/// The first `k` keys of a column above a number.
fn next(alloc: Global, col: u32, down: bool, after: Option<i64>, k: u32) -> Result<NextRows, Fail> {
    let order = Order::new(vec![in alloc; OrderKey { col, down }]?);
    let after = match after {
        Some(n) => Some(vec![in alloc; Cell::Int(n)]?),
        None => None,
    };
    Ok(NextRows::new(order, after, k))
}

/// Whether the next rows are these numbers, each with its number of rows.
fn are(found: &NextSummary, before: u64, numbers: &[(i64, u64)]) -> bool {
    let rows = found.rows.as_slice();
    found.before == before
        && rows.len() == numbers.len()
        && rows.iter().zip(numbers.iter()).all(|(row, (n, count))| {
            row.count == *count
                && row.key.as_slice().len() == 1
                && row.key.as_slice()[0] == Cell::Int(*n)
        })
}

/// A copy of the summary of the rows of partitions 0 and 1.
fn of_both(
    alloc: Global,
    view: &NextRows,
    low: &TwoRows,
    high: &TwoRows,
) -> Result<NextSummary, Fail>
    requires low { low.now.part ≡ 0 }
    requires high { high.now.part ≡ 1 }
{
    if !view.fits(&low.schema) || !view.fits(&high.schema) {
        return Err(Fail::from("the view fits"));
    }
    let mut acc = view.zero(alloc)?;
    add_part(alloc, view, &mut acc, low)?;
    add_part(alloc, view, &mut acc, high)?;
    order_is_free(view, &acc);
    least_of_pieces(&view.order);
    Ok(view.copy(alloc, &acc)?)
}

#[test]
fn equal_keys_of_two_partitions_are_one(rt: HostRuntime) -> Result<(), Fail> {
    let low = two_rows(rt.alloc(), 0, 3, 3)?;
    let high = two_rows(rt.alloc(), 1, 1, 3)?;
    let first = next(rt.alloc(), 0, false, None, 2)?;
    let found = of_both(rt.alloc(), &first, &low, &high)?;
    assert!(rt; are(&found, 0, &[(1, 1), (3, 3)]));
    let later = next(rt.alloc(), 0, false, Some(1), 2)?;
    let found = of_both(rt.alloc(), &later, &low, &high)?;
    assert!(rt; are(&found, 1, &[(3, 3)]));
    let downward = next(rt.alloc(), 0, true, None, 1)?;
    let found = of_both(rt.alloc(), &downward, &low, &high)?;
    assert!(rt; are(&found, 0, &[(3, 3)]));
    assert!(rt; later.copied(rt.alloc())? == later);
    assert!(rt; later != first);
    Ok(())
}

#[test]
fn the_columns_of_the_keys_must_be_there(rt: HostRuntime) -> Result<(), Fail> {
    let schema = one_column(rt.alloc())?;
    assert!(rt; next(rt.alloc(), 0, true, Some(5), 3)?.fits(&schema));
    assert!(rt; !next(rt.alloc(), 1, true, None, 3)?.fits(&schema));
    Ok(())
}
