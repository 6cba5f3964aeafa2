ghost use Rattle.std.specs.Prelude.{◌≡◌, true, IfOk};
ghost use Rattle.hv_expr.specs.Checks.{has_fit_factors};

use super::*;
use hv_expr::{Expr, Pred};
use hv_lineage::{Base, How2, Lineage, LineageErr};
use hv_part::PartTable;
use hv_value::{CellRef, Kind, Schema, Table, Text};
use sqlite_items::Boxed;
use std::alloc::Global;
use std::sync::Arc;

/// A table of the whole numbers x and the texts t, of 8 partitions.
fn named_base(alloc: Global) -> Result<Arc<Lineage>, LineageErr> {
    let mut cols = Vec::new(alloc);
    cols.push((Text::of(alloc, "x")?, Kind::Int))?;
    cols.push((Text::of(alloc, "t")?, Kind::Text))?;
    let schema = Schema::new(cols).map_err(|_| LineageErr::Memory)?;
    let base = Base::Named {
        schema,
        table: Text::of(alloc, "flights")?,
        parts: 8,
    };
    Ok(Lineage::base(alloc, base)?)
}

fn has_no(alloc: Global, of: &Arc<Lineage>, col: &str) -> Result<Arc<Lineage>, LineageErr> {
    let pred = Pred::Missing {
        col: Text::of(alloc, col)?,
    };
    Lineage::filter(alloc, of, pred)
}

fn has(alloc: Global, of: &Arc<Lineage>, col: &str) -> Result<Arc<Lineage>, LineageErr> {
    let missing = Pred::Missing {
        col: Text::of(alloc, col)?,
    };
    Lineage::filter(alloc, of, Pred::Not(Boxed::new(alloc, missing)?))
}

#[tactic(auto, using(hv_expr::proofs::Folds::folds), unfolding(hv_expr::specs::Checks::has_fit_factors))]
fn length_of(alloc: Global, name: &str) -> Result<Expr, LineageErr>
    ensures { IfOk result (λ e. has_fit_factors e ≡ true) }
{
    let of = Expr::Col(Text::of(alloc, name)?);
    Ok(Expr::Length(Boxed::new(alloc, of)?))
}

#[tactic(auto, using(hv_expr::proofs::Folds::folds), unfolding(hv_expr::specs::Checks::has_fit_factors))]
fn twice(alloc: Global, name: &str) -> Result<Expr, LineageErr>
    ensures { IfOk result (λ e. has_fit_factors e ≡ true) }
{
    let of = Expr::Col(Text::of(alloc, name)?);
    Ok(Expr::Linear {
        a: 2,
        b: 1,
        of: Boxed::new(alloc, of)?,
    })
}

/// The rows, each by its number and the cells of its columns.
fn has_rows(table: &PartTable, want: &[(u32, &[CellRef<'_>])]) -> bool {
    let mut from = 0u32;
    for (number, cells) in want {
        let Some(row) = table.next_row(from) else {
            return false;
        };
        if row != *number || !has_cells(table, row, cells) {
            return false;
        }
        from = row.saturating_add(1);
    }
    table.next_row(from).is_none()
}

fn has_cells(table: &PartTable, row: u32, cells: &[CellRef<'_>]) -> bool {
    if table.next_row(row) != Some(row) || table.schema().len() as usize != cells.len() {
        return false;
    }
    for col in 0..table.schema().len() {
        if table.cell(row, col) != cells[col as usize] {
            return false;
        }
    }
    true
}

const BYTES: &[u8] = b"t,x\nab,5\n,7\nabc\n\xFF,9\n";

// The base's own rows: a field that isn't there is missing, and a text that isn't UTF-8.
#[test]
fn a_base_has_all_rows_of_its_bytes(rt: HostRuntime) -> Result<(), LineageErr> {
    let alloc = rt.alloc();
    let base = named_base(alloc)?;
    let table = table_of(alloc, &base, 3, BYTES)?;
    assert_eq!(rt; table.part(), 3);
    assert!(rt;
        has_rows(
            &table,
            &[
                (0, &[CellRef::Int(5), CellRef::Text("ab")]),
                (1, &[CellRef::Int(7), CellRef::Text("")]),
                (2, &[CellRef::Missing, CellRef::Text("abc")]),
                (3, &[CellRef::Int(9), CellRef::Missing]),
            ],
        )
    );
    let again = share_part(alloc, &table)?;
    assert_eq!(rt; again.part(), 3);
    assert_eq!(rt; again.height(), 4);
    assert_eq!(rt; again.next_row(3), Some(3));
    assert_eq!(rt; again.cell(3, 0), CellRef::Int(9));
    Ok(())
}

// Rows that are filtered keep their numbers, whatever stands above; a column is derived of the inner columns, also of
// derived ones; chosen columns stand in the order of their names.
#[test]
fn each_node_makes_its_rows(rt: HostRuntime) -> Result<(), LineageErr> {
    let alloc = rt.alloc();
    let base = named_base(alloc)?;
    let kept = has(alloc, &base, "x")?;
    assert!(rt;
        has_rows(
            &table_of(alloc, &kept, 0, BYTES)?,
            &[
                (0, &[CellRef::Int(5), CellRef::Text("ab")]),
                (1, &[CellRef::Int(7), CellRef::Text("")]),
                (3, &[CellRef::Int(9), CellRef::Missing]),
            ],
        )
    );
    let length = Lineage::derive(alloc, &kept, Text::of(alloc, "n")?, length_of(alloc, "t")?)?;
    let more = Lineage::derive(alloc, &length, Text::of(alloc, "m")?, twice(alloc, "n")?)?;
    let without = has_no(alloc, &more, "n")?;
    assert!(rt;
        has_rows(
            &table_of(alloc, &without, 0, BYTES)?,
            &[(
                3,
                &[
                    CellRef::Int(9),
                    CellRef::Missing,
                    CellRef::Missing,
                    CellRef::Missing
                ]
            )],
        )
    );
    let mut names = Vec::new(alloc);
    names.push(Text::of(alloc, "m")?)?;
    names.push(Text::of(alloc, "x")?)?;
    let chosen = Lineage::project(alloc, &has(alloc, &more, "m")?, names)?;
    assert!(rt;
        has_rows(
            &table_of(alloc, &chosen, 0, BYTES)?,
            &[
                (0, &[CellRef::Int(5), CellRef::Int(5)]),
                (1, &[CellRef::Int(1), CellRef::Int(7)]),
            ],
        )
    );
    Ok(())
}

// A partition without rows has none under any term.
#[test]
fn no_bytes_make_no_rows(rt: HostRuntime) -> Result<(), LineageErr> {
    let alloc = rt.alloc();
    let kept = has(alloc, &named_base(alloc)?, "x")?;
    let length = Lineage::derive(alloc, &kept, Text::of(alloc, "n")?, length_of(alloc, "t")?)?;
    for bytes in [b"".as_slice(), b"x,t", b"\n\n"] {
        let table = table_of(alloc, &length, 0, bytes)?;
        assert_eq!(rt; table.next_row(0), None);
        assert_eq!(rt; table.schema().len(), 3);
    }
    Ok(())
}

// Of many rows each that passes is kept, in order, however many were kept before it.
#[test]
fn a_filter_keeps_each_row_of_many(rt: HostRuntime) -> Result<(), LineageErr> {
    let alloc = rt.alloc();
    let kept = has(alloc, &named_base(alloc)?, "x")?;
    let mut bytes = Vec::from_slice(alloc, b"x,t\n")?;
    for _ in 0..600 {
        bytes.extend_from_slice(b"1,a\n,b\n")?;
    }
    assert_eq!(rt; bytes.len(), 4204);
    let table = table_of(alloc, &kept, 0, bytes.as_slice())?;
    assert_eq!(rt; table.member().count(), 600);
    for n in 0..600 {
        assert_eq!(rt; table.next_row(2 * n), Some(2 * n));
        assert_eq!(rt;
            table.next_row(2 * n + 1),
            if n < 599 { Some(2 * n + 2) } else { None }
        );
    }
    Ok(())
}

// A row that both sides have keeps the left's cells, and one that the right alone has gets the right's. Words of
// partition 54 under seed 42 are those of the generator's reference code: row 3 has 2211639955, and is the third.
#[test]
fn sides_are_united_and_rows_picked_by_their_numbers(rt: HostRuntime) -> Result<(), LineageErr> {
    let alloc = rt.alloc();
    let base = named_base(alloc)?;
    let left = Lineage::derive(
        alloc,
        &has(alloc, &base, "x")?,
        Text::of(alloc, "n")?,
        twice(alloc, "x")?,
    )?;
    let right = Lineage::derive(
        alloc,
        &has(alloc, &base, "t")?,
        Text::of(alloc, "n")?,
        length_of(alloc, "t")?,
    )?;
    let either = Lineage::combine(alloc, How2::Union, &left, &right)?;
    assert!(rt;
        has_rows(
            &table_of(alloc, &either, 54, BYTES)?,
            &[
                (0, &[CellRef::Int(5), CellRef::Text("ab"), CellRef::Int(11)]),
                (1, &[CellRef::Int(7), CellRef::Text(""), CellRef::Int(15)]),
                (
                    2,
                    &[CellRef::Missing, CellRef::Text("abc"), CellRef::Int(3)]
                ),
                (3, &[CellRef::Int(9), CellRef::Missing, CellRef::Int(19)]),
            ],
        )
    );
    let picked = Lineage::sample(alloc, &left, 42, 2211639956)?;
    let table = table_of(alloc, &picked, 54, BYTES)?;
    assert_eq!(rt; table.member().count(), 2);
    assert_eq!(rt; table.next_row(0), Some(1));
    assert_eq!(rt; table.next_row(2), Some(3));
    Ok(())
}
