ghost use Rattle.std.specs.Prelude.{◌≡◌, [], ◌∷◌, length, map, IfOk};
ghost use Rattle.std.specs.Arc.{arc_value};
ghost use Rattle.hv_value.specs.declared.cell.Kind.TheVariants as kind;

use super::*;
use hv_column::Column;
use hv_member::Member;
use hv_value::{CellRef, Kind, Memory, Schema, Table, Text};
use std::alloc::Global;
use std::sync::Arc;

fn schema_of_x_and_y(alloc: Global) -> Result<Schema, Memory>
    ensures { IfOk result (λ schema. map (λ column. column.1) schema ≡ kind.Int ∷ kind.Text ∷ []) }
{
    let mut cols = Vec::new(alloc);
    cols.push((Text::of(alloc, "x")?, Kind::Int))?;
    cols.push((Text::of(alloc, "y")?, Kind::Text))?;
    Schema::new(cols).map_err(|_| Memory)
}

fn whole_numbers(alloc: Global) -> Result<Arc<Column>, Memory>
    ensures kind { IfOk result (λ column. (arc_value column).kind ≡ kind.Int) }
    ensures length { IfOk result (λ column. length (arc_value column).cells ≡ 3) }
{
    let mut column = Column::new(alloc, Kind::Int)?;
    column.push(CellRef::Int(5))?;
    column.push(CellRef::Missing)?;
    column.push(CellRef::Int(-2))?;
    Ok(Arc::new(alloc, column)?)
}

fn texts(alloc: Global) -> Result<Arc<Column>, Memory>
    ensures kind { IfOk result (λ column. (arc_value column).kind ≡ kind.Text) }
    ensures length { IfOk result (λ column. length (arc_value column).cells ≡ 3) }
{
    let mut column = Column::new(alloc, Kind::Text)?;
    column.push(CellRef::Text("a"))?;
    column.push(CellRef::Text("b"))?;
    column.push(CellRef::Text("c"))?;
    Ok(Arc::new(alloc, column)?)
}

/// The rows 0 and 2 of three, as partition 7.
fn table_of_two_rows(alloc: Global) -> Result<PartTable, Memory>
    ensures { IfOk result (λ table. table.member.rows ≡ 0 ∷ 2 ∷ [] × length table.columns ≡ 2 × length table.cols ≡ 2) }
{
    let mut cols = Vec::new(alloc);
    cols.push(whole_numbers(alloc)?)?;
    cols.push(texts(alloc)?)?;
    let mut rows = Vec::new(alloc);
    rows.push(0)?;
    rows.push(2)?;
    let member = Member::from_rows(3, rows)?;
    Ok(PartTable::new(schema_of_x_and_y(alloc)?, 7, cols, member))
}

// A row keeps its number and its cells, whatever was filtered before it.
#[test]
fn a_filtered_table_lends_the_cells_of_its_rows(rt: HostRuntime) -> Result<(), Memory> {
    let table = table_of_two_rows(rt.alloc())?;
    assert_eq!(rt; table.part(), 7);
    assert_eq!(rt; table.schema().len(), 2);
    assert_eq!(rt; table.member().count(), 2);
    assert_eq!(rt; table.next_row(3), None);
    assert_eq!(rt; table.next_row(1), Some(2));
    assert_eq!(rt; table.next_near(1, &mut 0), Some(2));
    assert_eq!(rt; table.cell(2, 0), CellRef::Int(-2));
    assert_eq!(rt; table.cell(2, 1), CellRef::Text("c"));
    assert_eq!(rt; table.next_row(0), Some(0));
    assert_eq!(rt; table.cell(0, 0), CellRef::Int(5));
    assert_eq!(rt; table.column(1).len(), 3);
    Ok(())
}
