//! Heavy hitters, and counts of some values, of one partition and of two. Expected values are worked by hand.

ghost use Rattle.std.specs.Prelude.{◌≡◌, [], ◌∷◌, codes, IfOk};
ghost use Rattle.hv_value.specs.Cells.{cell_lent};
ghost use Rattle.hv_value.specs.Rows.{int_cell};
ghost use Rattle.hv_value.specs.declared.cell.Kind.TheVariants as kind;

use crate::{CountOf, CountShown, HeavySummary, MisraGries, frequent_values_stay};
use hv_sketch::{Vizketch, add_part, order_is_free};
use hv_value::{Cell, CellRef, Kind, Schema, Table, Text};
use std::alloc::Global;
use std::test::Fail;
/// A table of one column of whole numbers, with the rows 3 and 7.
#[derive(Drop)]
struct TwoRows {
    schema: Schema,
    part: u32,
    first: Option<i64>,
    second: Option<i64>,
    ghost column: { schema ≡ (codes "x", kind.Int) ∷ [] },
}

impl Table for TwoRows {
    ghost use Rattle.std.specs.Prelude.{◌≡◌, [], ◌∷◌, codes};
    ghost use Rattle.hv_value.specs.Rows.{int_cell};
    ghost use Rattle.hv_value.specs.declared.cell.Kind.TheVariants as kind;

    ghost columns = { λ table. (codes "x", kind.Int) ∷ [] };

    ghost part_number = { λ table. table.part };

    ghost rows = { λ table. record { part = table.part; number = 3; cells = int_cell table.first ∷ [] }
        ∷ record { part = table.part; number = 7; cells = int_cell table.second ∷ [] } ∷ [] };

    fn schema(&self) -> &Schema {
        &self.schema
    }

    fn part(&self) -> u32 {
        self.part
    }

    fn next_row(&self, from: u32) -> Option<u32> {
        match from {
            0..=3 => Some(3),
            4..=7 => Some(7),
            _ => None,
        }
    }

    fn cell(&self, row: u32, _col: u32) -> CellRef<'_> {
        lent(if row == 3 { self.first } else { self.second })
    }
}

/// A cell of a whole number, or a missing one.
fn lent(n: Option<i64>) -> CellRef<'static>
    ensures { cell_lent result ≡ int_cell n }
{
    match n {
        Some(n) => CellRef::Int(n),
        None => CellRef::Missing,
    }
}

fn one_column(alloc: Global) -> Result<Schema, Fail>
    ensures { IfOk result (λ schema. schema ≡ (codes "x", kind.Int) ∷ []) }
{
    let columns = vec![in alloc; (Text::of(alloc, "x")?, Kind::Int)]?;
    Ok(Schema::new(columns)?)
}

fn two_rows(
    alloc: Global,
    part: u32,
    first: Option<i64>,
    second: Option<i64>,
) -> Result<TwoRows, Fail>
    ensures { IfOk result (λ table. table.part ≡ part) }
{
    Ok(TwoRows {
        schema: one_column(alloc)?,
        part,
        first,
        second,
    })
}

/// Whether the summary is of so many cells, and has these numbers and estimates.
fn is(found: &HeavySummary, n: u64, missing: u64, pairs: &[(i64, u64)]) -> bool {
    let made = found.pairs.as_slice();
    found.n == n
        && found.missing == missing
        && made.len() == pairs.len()
        && made.iter().zip(pairs.iter()).all(|(pair, want)| pair.value == Cell::Int(want.0)
            && pair.estimate == want.1)
}

/// A copy of the summary of the rows of partitions 0 and 1.
fn of_both<V: Vizketch>(
    alloc: Global,
    view: &V,
    low: &TwoRows,
    high: &TwoRows,
) -> Result<V::Summary, Fail>
    requires low { low.now.part ≡ 0 }
    requires high { high.now.part ≡ 1 }
{
    if !view.fits(&low.schema) || !view.fits(&high.schema) {
        return Err(Fail::from("the view fits"));
    }
    let mut acc = view.zero(alloc)?;
    add_part(alloc, view, &mut acc, low)?;
    add_part(alloc, view, &mut acc, high)?;
    order_is_free(view, &acc);
    Ok(view.copy(alloc, &acc)?)
}

#[test]
fn the_largest_stays_with_what_it_lost(rt: HostRuntime) -> Result<(), Fail> {
    let low = two_rows(rt.alloc(), 0, Some(5), Some(7))?;
    let high = two_rows(rt.alloc(), 1, Some(5), Some(5))?;
    let view = MisraGries::new(0, 1);
    let found = of_both(rt.alloc(), &view, &low, &high)?;
    frequent_values_stay(&view, &found);
    assert!(rt; is(&found, 4, 0, &[(5, 2)]));
    let found = of_both(rt.alloc(), &MisraGries::new(0, 2), &low, &high)?;
    assert!(rt; is(&found, 4, 0, &[(5, 3), (7, 1)]));
    Ok(())
}

#[test]
fn missing_cells_are_no_values(rt: HostRuntime) -> Result<(), Fail> {
    let low = two_rows(rt.alloc(), 0, None, Some(7))?;
    let high = two_rows(rt.alloc(), 1, None, None)?;
    let found = of_both(rt.alloc(), &MisraGries::new(0, 1), &low, &high)?;
    assert!(rt; is(&found, 1, 3, &[(7, 1)]));
    Ok(())
}

/// Whether the counts are these, in order, and as many cells are missing and aren't.
fn shows(found: &CountShown, counts: &[u64], missing: u64, n: u64) -> bool {
    found.counts.as_slice() == counts && found.missing == missing && found.n == n
}

#[test]
fn equal_values_have_equal_counts(rt: HostRuntime) -> Result<(), Fail> {
    let low = two_rows(rt.alloc(), 0, Some(5), None)?;
    let high = two_rows(rt.alloc(), 1, Some(5), Some(7))?;
    let values = vec![in rt.alloc(); Cell::Int(5), Cell::Int(9), Cell::Int(5)]?;
    let view = CountOf::new(0, values);
    let again = view.copied(rt.alloc())?;
    assert!(rt; again == view);
    let found = of_both(rt.alloc(), &view, &low, &high)?;
    let shown = view.value(rt.alloc(), &found)?.copied(rt.alloc())?;
    assert!(rt; shows(&shown, [2, 0, 2].as_slice(), 1, 3));
    Ok(())
}
