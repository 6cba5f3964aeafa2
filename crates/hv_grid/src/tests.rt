//! Charts of two columns of whole numbers in two partitions. Expected values are worked by hand.

ghost use Rattle.std.specs.Prelude.{◌≡◌, [], ◌∷◌, codes, IfOk};
ghost use Rattle.hv_value.specs.Cells.{cell_lent};
ghost use Rattle.hv_value.specs.Rows.{int_cell};
ghost use Rattle.hv_value.specs.declared.cell.Kind.TheVariants as kind;

use crate::{ByAxis, HeatMap, HeatMapShown, Stacked, Trellis};
use hv_bucket::{Axis, Buckets, IntBuckets};
use hv_sketch::{Vizketch, add_part};
use hv_value::{CellRef, Kind, Listed, Schema, Table, Text};
use std::alloc::Global;
use std::test::Fail;

/// The two cells of a row.
#[derive(Clone, Copy)]
struct Cells {
    x: Option<i64>,
    y: Option<i64>,
}

/// A table of two columns of whole numbers, with the rows 3 and 7.
#[derive(Drop)]
struct TwoRows {
    schema: Schema,
    part: u32,
    first: Cells,
    second: Cells,
    ghost column: { schema ≡ (codes "x", kind.Int) ∷ (codes "y", kind.Int) ∷ [] },
}

impl Table for TwoRows {
    ghost use Rattle.std.specs.Prelude.{◌≡◌, [], ◌∷◌, codes};
    ghost use Rattle.hv_value.specs.Rows.{int_cell};
    ghost use Rattle.hv_value.specs.declared.cell.Kind.TheVariants as kind;

    ghost columns = { λ table. (codes "x", kind.Int) ∷ (codes "y", kind.Int) ∷ [] };

    ghost part_number = { λ table. table.part };

    ghost rows = { λ table.
        record { part = table.part; number = 3; cells = int_cell table.first.x ∷ int_cell table.first.y ∷ [] }
        ∷ record { part = table.part; number = 7; cells = int_cell table.second.x ∷ int_cell table.second.y ∷ [] } ∷ [] };

    fn schema(&self) -> &Schema {
        &self.schema
    }

    fn part(&self) -> u32 {
        self.part
    }

    fn next_row(&self, from: u32) -> Option<u32> {
        match from {
            0..=3 => Some(3),
            4..=7 => Some(7),
            _ => None,
        }
    }

    fn cell(&self, row: u32, col: u32) -> CellRef<'_> {
        let cells = if row == 3 { self.first } else { self.second };
        lent(if col == 0 { cells.x } else { cells.y })
    }
}

/// A cell of a whole number, or a missing one.
fn lent(n: Option<i64>) -> CellRef<'static>
    ensures { cell_lent result ≡ int_cell n }
{
    match n {
        Some(n) => CellRef::Int(n),
        None => CellRef::Missing,
    }
}

fn two_rows(alloc: Global, part: u32, first: Cells, second: Cells) -> Result<TwoRows, Fail>
    ensures { IfOk result (λ table. table.part ≡ part) }
{
    let columns = vec![in alloc;
        (Text::of(alloc, "x")?, Kind::Int),
        (Text::of(alloc, "y")?, Kind::Int),
    ]?;
    Ok(TwoRows {
        schema: Schema::new(columns)?,
        part,
        first,
        second,
    })
}

/// The summary of the rows (1, 7) and (9, missing) in partition 0, and of (missing, 0) and (12, 3) in partition 1.
fn summary<V: Vizketch>(alloc: Global, view: &V) -> Result<V::Summary, Fail> {
    let both = Cells {
        x: Some(1),
        y: Some(7),
    };
    let left = Cells {
        x: Some(9),
        y: None,
    };
    let right = Cells {
        x: None,
        y: Some(0),
    };
    let above = Cells {
        x: Some(12),
        y: Some(3),
    };
    let low = two_rows(alloc, 0, both, left)?;
    let high = two_rows(alloc, 1, right, above)?;
    if !view.fits(&low.schema) || !view.fits(&high.schema) {
        return Err(Fail::from("the view fits"));
    }
    let mut acc = view.zero(alloc)?;
    add_part(alloc, view, &mut acc, &low)?;
    add_part(alloc, view, &mut acc, &high)?;
    Ok(view.copy(alloc, &acc)?)
}

/// The numbers from 0 to 9 of a column in two buckets.
fn halves(col: u32) -> Result<Axis, Fail> {
    let buckets = Buckets::Int(IntBuckets::new(0, 9, 2)?);
    Ok(Axis { col, buckets })
}

/// The counts of a grid, row by row.
fn flat(alloc: Global, grid: &Listed<Listed<u64>>) -> Result<Vec<u64>, Fail> {
    let mut counts = Vec::new(alloc);
    for row in grid.as_slice() {
        for count in row.as_slice() {
            counts.push(*count)?;
        }
    }
    Ok(counts)
}

#[test]
fn a_stacked_histogram_counts_buckets_by_buckets(rt: HostRuntime) -> Result<(), Fail> {
    let view = Stacked::new(halves(0)?, halves(1)?);
    assert!(rt; view.same(&view.copied(rt.alloc())?));
    let stacked = view.value(rt.alloc(), &summary(rt.alloc(), &view)?)?;
    assert_eq!(rt;
        flat(rt.alloc(), &stacked.counts)?.as_slice(),
        [0, 1, 0, 0].as_slice()
    );
    assert_eq!(rt; stacked.other.as_slice(), [0, 1].as_slice());
    assert_eq!(rt; (stacked.missing, stacked.outside), (1, 1));
    Ok(())
}

#[test]
fn a_trellis_of_heat_maps_has_one_for_each_bucket(rt: HostRuntime) -> Result<(), Fail> {
    let map = HeatMap::new(halves(0)?, halves(1)?);
    let by = ByAxis(halves(0)?);
    assert!(rt; by.same(&by.copied(rt.alloc())?));
    let view = Trellis::new(by, map.copied(rt.alloc())?);
    let groups = summary(rt.alloc(), &view)?;
    assert_eq!(rt; groups.rest(), 2);
    let mut rests = Vec::new(rt.alloc());
    for group in groups.groups() {
        rests.push(view.inner.value(rt.alloc(), group)?.rest)?;
    }
    assert_eq!(rt; rests.as_slice(), [0, 1].as_slice());
    let whole: HeatMapShown = map.value(rt.alloc(), &summary(rt.alloc(), &map)?)?;
    assert_eq!(rt;
        flat(rt.alloc(), &whole.counts)?.as_slice(),
        [0, 1, 0, 0].as_slice()
    );
    assert_eq!(rt; whole.rest, 3);
    Ok(())
}
