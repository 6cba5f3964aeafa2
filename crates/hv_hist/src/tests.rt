//! Both charts of whole numbers in two partitions. Expected values are worked by hand.

ghost use Rattle.std.specs.Prelude.{◌≡◌, [], ◌∷◌, codes, IfOk};
ghost use Rattle.hv_value.specs.Cells.{cell_lent};
ghost use Rattle.hv_value.specs.Rows.{int_cell};
ghost use Rattle.hv_value.specs.declared.cell.Kind.TheVariants as kind;

use crate::Cdf;
use hv_bucket::{Axis, Buckets, IntBuckets};
use hv_sketch::{Counts, Vizketch, add_part};
use hv_value::{CellRef, Kind, Schema, Table, Text};
use std::alloc::Global;
use std::test::Fail;

/// A table of one column of whole numbers, with the rows 3 and 7.
#[derive(Drop)]
struct TwoRows {
    schema: Schema,
    part: u32,
    first: Option<i64>,
    second: Option<i64>,
    ghost column: { schema ≡ (codes "x", kind.Int) ∷ [] },
}

impl Table for TwoRows {
    ghost use Rattle.std.specs.Prelude.{◌≡◌, [], ◌∷◌, codes};
    ghost use Rattle.hv_value.specs.Rows.{int_cell};
    ghost use Rattle.hv_value.specs.declared.cell.Kind.TheVariants as kind;

    ghost columns = { λ table. (codes "x", kind.Int) ∷ [] };

    ghost part_number = { λ table. table.part };

    ghost rows = { λ table. record { part = table.part; number = 3; cells = int_cell table.first ∷ [] }
        ∷ record { part = table.part; number = 7; cells = int_cell table.second ∷ [] } ∷ [] };

    fn schema(&self) -> &Schema {
        &self.schema
    }

    fn part(&self) -> u32 {
        self.part
    }

    fn next_row(&self, from: u32) -> Option<u32> {
        match from {
            0..=3 => Some(3),
            4..=7 => Some(7),
            _ => None,
        }
    }

    fn cell(&self, row: u32, _col: u32) -> CellRef<'_> {
        lent(if row == 3 { self.first } else { self.second })
    }
}

/// A cell of a whole number, or a missing one.
fn lent(n: Option<i64>) -> CellRef<'static>
    ensures { cell_lent result ≡ int_cell n }
{
    match n {
        Some(n) => CellRef::Int(n),
        None => CellRef::Missing,
    }
}

fn two_rows(
    alloc: Global,
    part: u32,
    first: Option<i64>,
    second: Option<i64>,
) -> Result<TwoRows, Fail>
    ensures { IfOk result (λ table. table.part ≡ part) }
{
    let columns = vec![in alloc; (Text::of(alloc, "x")?, Kind::Int)]?;
    Ok(TwoRows {
        schema: Schema::new(columns)?,
        part,
        first,
        second,
    })
}

/// The summary of 5 and a missing cell in partition 0, and of 9 and 10 in partition 1.
fn summary(alloc: Global, view: &Cdf) -> Result<Counts, Fail> {
    let low = two_rows(alloc, 0, Some(5), None)?;
    let high = two_rows(alloc, 1, Some(9), Some(10))?;
    if !view.fits(&low.schema) || !view.fits(&high.schema) {
        return Err(Fail::from("the view fits"));
    }
    let mut acc = view.zero(alloc)?;
    add_part(alloc, view, &mut acc, &low)?;
    add_part(alloc, view, &mut acc, &high)?;
    Ok(view.copy(alloc, &acc)?)
}

#[test]
fn each_bucket_is_counted_and_the_sums_run(rt: HostRuntime) -> Result<(), Fail> {
    let buckets = Buckets::Int(IntBuckets::new(0, 9, 5)?);
    let view = Cdf::new(Axis { col: 0, buckets });
    let counts = summary(rt.alloc(), &view)?;
    let histogram = view.histogram.value(rt.alloc(), &counts)?;
    assert_eq!(rt; histogram.counts.as_slice(), [0, 0, 1, 0, 1].as_slice());
    assert_eq!(rt; (histogram.missing, histogram.outside), (1, 1));
    let cdf = view.value(rt.alloc(), &counts)?;
    assert_eq!(rt; cdf.sums.as_slice(), [0, 0, 1, 1, 2].as_slice());
    Ok(())
}
