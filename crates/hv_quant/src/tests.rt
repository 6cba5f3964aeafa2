//! Quantiles of one partition and of two, of whole numbers. Expected values are worked by hand.

ghost use Rattle.std.specs.Prelude.{◌≡◌, [], ◌∷◌, codes, IfOk};
ghost use Rattle.hv_value.specs.declared.cell.Cell.TheVariants as cell;
ghost use Rattle.hv_value.specs.declared.cell.Kind.TheVariants as kind;

use crate::{Sample, SampleSummary, least_of_pieces, quantiles};
use hv_sketch::{Vizketch, add_part, order_is_free};
use hv_value::{Cell, CellRef, Kind, Order, OrderKey, Schema, Table, Text};
use std::alloc::Global;
use std::test::Fail;

/// A table of one column of whole numbers, with the rows 3 and 7.
#[derive(Drop)]
struct TwoRows {
    schema: Schema,
    part: u32,
    first: i64,
    second: i64,
    ghost column: { schema ≡ (codes "x", kind.Int) ∷ [] },
}

impl Table for TwoRows {
    ghost use Rattle.std.specs.Prelude.{◌≡◌, [], ◌∷◌, codes};
    ghost use Rattle.hv_value.specs.declared.cell.Cell.TheVariants as cell;
    ghost use Rattle.hv_value.specs.declared.cell.Kind.TheVariants as kind;

    ghost columns = { λ table. (codes "x", kind.Int) ∷ [] };

    ghost part_number = { λ table. table.part };

    ghost rows = { λ table. record { part = table.part; number = 3; cells = cell.Int table.first ∷ [] }
        ∷ record { part = table.part; number = 7; cells = cell.Int table.second ∷ [] } ∷ [] };

    fn schema(&self) -> &Schema {
        &self.schema
    }

    fn part(&self) -> u32 {
        self.part
    }

    fn next_row(&self, from: u32) -> Option<u32> {
        match from {
            0..=3 => Some(3),
            4..=7 => Some(7),
            _ => None,
        }
    }

    fn cell(&self, row: u32, _col: u32) -> CellRef<'_> {
        CellRef::Int(if row == 3 { self.first } else { self.second })
    }
}

fn one_column(alloc: Global) -> Result<Schema, Fail>
    ensures { IfOk result (λ schema. schema ≡ (codes "x", kind.Int) ∷ []) }
{
    let columns = vec![in alloc; (Text::of(alloc, "x")?, Kind::Int)]?;
    Ok(Schema::new(columns)?)
}

fn two_rows(alloc: Global, part: u32, first: i64, second: i64) -> Result<TwoRows, Fail>
    ensures { IfOk result (λ table. table.part ≡ part) }
{
    Ok(TwoRows {
        schema: one_column(alloc)?,
        part,
        first,
        second,
    })
}

/// A sample of `k` rows for `q` quantiles of the column.
fn sample(alloc: Global, down: bool, k: u32, q: u32) -> Result<Sample, Fail> {
    let order = Order::new(vec![in alloc; OrderKey { col: 0, down }]?);
    Ok(Sample::new(order, 5, k, q))
}

/// Whether the quantiles of a summary are these numbers.
fn are(alloc: Global, view: &Sample, s: &SampleSummary, numbers: &[i64]) -> Result<bool, Fail> {
    let keys = quantiles(alloc, view, s)?;
    Ok(
        keys.len() == numbers.len()
            && keys
                .iter()
                .zip(numbers.iter())
                .all(|(key, n)| key.len() == 1 && key[0] == Cell::Int(*n)),
    )
}

/// A copy of the summary of the rows of partitions 0 and 1.
fn of_both(
    alloc: Global,
    view: &Sample,
    low: &TwoRows,
    high: &TwoRows,
) -> Result<SampleSummary, Fail>
    requires low { low.now.part ≡ 0 }
    requires high { high.now.part ≡ 1 }
{
    if !view.fits(&low.schema) || !view.fits(&high.schema) {
        return Err(Fail::from("the view fits"));
    }
    let mut acc = view.zero(alloc)?;
    add_part(alloc, view, &mut acc, low)?;
    add_part(alloc, view, &mut acc, high)?;
    order_is_free(view, &acc);
    least_of_pieces(&view.order);
    Ok(view.copy(alloc, &acc)?)
}

#[test]
fn quantiles_of_one_partition_are_its_keys(rt: HostRuntime) -> Result<(), Fail> {
    let alloc = rt.alloc();
    let table = two_rows(alloc, 0, 9, 4)?;
    let view = sample(alloc, false, 10, 3)?;
    if !view.fits(&table.schema) {
        return Err(Fail::from("the view fits"));
    }
    let found = view.summarize(alloc, &table)?;
    assert!(rt; are(alloc, &view, &found, &[4, 4, 9])?);
    assert!(rt; are(alloc, &view, &view.zero(alloc)?, &[])?);
    assert!(rt; view.copied(alloc)? == view);
    Ok(())
}

#[test]
fn quantiles_of_two_partitions_are_of_all_their_rows(rt: HostRuntime) -> Result<(), Fail> {
    let alloc = rt.alloc();
    let low = two_rows(alloc, 0, 9, 4)?;
    let high = two_rows(alloc, 1, 1, 6)?;
    let upward = sample(alloc, false, 10, 4)?;
    let found = of_both(alloc, &upward, &low, &high)?;
    assert!(rt; are(alloc, &upward, &found, &[1, 4, 6, 9])?);
    let value = upward.value(alloc, &found)?.copied(alloc)?;
    assert_eq!(rt; value.rows, 4);
    assert_eq!(rt; value.seed, 5);
    let downward = sample(alloc, true, 10, 2)?;
    let found = of_both(alloc, &downward, &low, &high)?;
    assert!(rt; are(alloc, &downward, &found, &[9, 1])?);
    let few = sample(alloc, false, 1, 3)?;
    let found = of_both(alloc, &few, &low, &high)?;
    assert_eq!(rt; few.value(alloc, &found)?.rows, 1);
    Ok(())
}
