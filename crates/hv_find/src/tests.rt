//! A text that is found in two partitions, from the first key on and after one. Expected values are worked by hand.

ghost use Rattle.std.specs.Prelude.{◌≡◌, [], ◌∷◌, codes, IfOk};
ghost use Rattle.hv_value.specs.declared.cell.Kind.TheVariants as kind;

use crate::{Find, FindSummary};
use hv_expr::{How, TextTest};
use hv_sketch::{Vizketch, add_part};
use hv_value::{Cell, CellRef, Kind, Order, OrderKey, Schema, Table, Text};
use std::alloc::Global;
use std::test::Fail;

/// A table with the columns x (whole numbers) and t (texts) and the rows 3 and 7.
#[derive(Drop)]
struct TwoRows {
    schema: Schema,
    part: u32,
    first: (i64, Text),
    second: (i64, Text),
    ghost columns: { schema ≡ (codes "x", kind.Int) ∷ (codes "t", kind.Text) ∷ [] },
}

impl Table for TwoRows {
    ghost use Rattle.std.specs.Prelude.{[], ◌∷◌, codes};
    ghost use Rattle.hv_value.specs.declared.cell.Cell.TheVariants as cell;
    ghost use Rattle.hv_value.specs.declared.cell.Kind.TheVariants as kind;

    ghost columns = { λ table. (codes "x", kind.Int) ∷ (codes "t", kind.Text) ∷ [] };

    ghost part_number = { λ table. table.part };

    ghost rows = { λ table. record {
      part = table.part;
      number = 3;
      cells = cell.Int table.first.0 ∷ cell.Text table.first.1 ∷ [];
    }
        ∷ record {
          part = table.part;
          number = 7;
          cells = cell.Int table.second.0 ∷ cell.Text table.second.1 ∷ [];
        }
        ∷ [] };

    fn schema(&self) -> &Schema {
        &self.schema
    }

    fn part(&self) -> u32 {
        self.part
    }

    fn next_row(&self, from: u32) -> Option<u32> {
        match from {
            0..=3 => Some(3),
            4..=7 => Some(7),
            _ => None,
        }
    }

    fn cell(&self, row: u32, col: u32) -> CellRef<'_> {
        let (x, t) = if row == 3 { &self.first } else { &self.second };
        match col {
            0 => CellRef::Int(*x),
            _ => CellRef::Text(t.as_str()),
        }
    }
}

fn schema_of(alloc: Global) -> Result<Schema, Fail>
    ensures { IfOk result (λ schema. schema ≡ (codes "x", kind.Int) ∷ (codes "t", kind.Text) ∷ []) }
{
    let x = (Text::of(alloc, "x")?, Kind::Int);
    let t = (Text::of(alloc, "t")?, Kind::Text);
    Ok(Schema::new(vec![in alloc; x, t]?)?)
}

fn two_rows(
    alloc: Global,
    part: u32,
    first: (i64, &str),
    second: (i64, &str),
) -> Result<TwoRows, Fail>
    ensures { IfOk result (λ table. table.part ≡ part) }
{
    Ok(TwoRows {
        schema: schema_of(alloc)?,
        part,
        first: (first.0, Text::of(alloc, first.1)?),
        second: (second.0, Text::of(alloc, second.1)?),
    })
}

/// The rows with "ab" in the text of a column, by rising x, above a number.
fn find(alloc: Global, col: u32, after: Option<i64>) -> Result<Find, Fail> {
    let test = TextTest {
        how: How::Contains,
        fold: false,
        text: Text::of(alloc, "ab")?,
    };
    let order = Order::new(vec![in alloc;
        OrderKey {
            col: 0,
            down: false
        },
    ]?);
    let after = match after {
        Some(n) => Some(vec![in alloc; Cell::Int(n)]?),
        None => None,
    };
    Ok(Find::new(vec![in alloc; col]?, test, order, after))
}

/// A copy of the summary of the rows of partitions 0 and 1.
fn of_both(alloc: Global, view: &Find, low: &TwoRows, high: &TwoRows) -> Result<FindSummary, Fail>
    requires low { low.now.part ≡ 0 }
    requires high { high.now.part ≡ 1 }
{
    if !view.fits(&low.schema) || !view.fits(&high.schema) {
        return Err(Fail::from("the view fits"));
    }
    let mut acc = view.zero(alloc)?;
    add_part(alloc, view, &mut acc, low)?;
    add_part(alloc, view, &mut acc, high)?;
    Ok(view.copy(alloc, &acc)?)
}

/// Whether so many rows are above and so many aren't, and the least key above is a number.
fn is(found: &FindSummary, above: u64, before: u64, first: i64) -> bool {
    match &found.first {
        Some(key) => {
            found.above == above
                && found.before == before
                && key.as_slice() == [Cell::Int(first)].as_slice()
        }
        None => false,
    }
}

#[test]
fn a_text_is_found_in_two_partitions(rt: HostRuntime) -> Result<(), Fail> {
    let low = two_rows(rt.alloc(), 0, (3, "ab"), (3, "b"))?;
    let high = two_rows(rt.alloc(), 1, (1, "abc"), (3, "a"))?;
    let all = find(rt.alloc(), 1, None)?;
    let found = of_both(rt.alloc(), &all, &low, &high)?;
    assert!(rt; is(&found, 2, 0, 1));
    let later = find(rt.alloc(), 1, Some(1))?;
    let found = of_both(rt.alloc(), &later, &low, &high)?;
    assert!(rt; is(&found, 1, 1, 3));
    assert!(rt; later.copied(rt.alloc())? == later);
    assert!(rt; later != all);
    assert!(rt; !find(rt.alloc(), 0, None)?.fits(&low.schema));
    Ok(())
}
