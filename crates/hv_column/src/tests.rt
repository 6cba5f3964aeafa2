use super::*;
use hv_value::{CellRef, Kind, Memory};

// The cells of each kind with a missing one between them: the ends of the numbers' ranges and the empty text.
#[test]
fn keeps_whole_numbers_in_order(rt: HostRuntime) -> Result<(), Memory> {
    let mut column = Column::new(rt.alloc(), Kind::Int)?;
    assert_eq!(rt; column.len(), 0);
    assert_eq!(rt; column.kind(), Kind::Int);
    column.push(CellRef::Int(5))?;
    column.push(CellRef::Missing)?;
    column.push(CellRef::Int(i64::MIN))?;
    assert_eq!(rt; column.len(), 3);
    assert_eq!(rt; column.cell(0), CellRef::Int(5));
    assert_eq!(rt; column.cell(1), CellRef::Missing);
    assert_eq!(rt; column.cell(2), CellRef::Int(i64::MIN));
    Ok(())
}

#[test]
fn keeps_days_in_order(rt: HostRuntime) -> Result<(), Memory> {
    let mut column = Column::new(rt.alloc(), Kind::Date)?;
    assert_eq!(rt; column.kind(), Kind::Date);
    column.push(CellRef::Date(-719162))?;
    column.push(CellRef::Missing)?;
    column.push(CellRef::Date(2932896))?;
    assert_eq!(rt; column.len(), 3);
    assert_eq!(rt; column.cell(0), CellRef::Date(-719162));
    assert_eq!(rt; column.cell(1), CellRef::Missing);
    assert_eq!(rt; column.cell(2), CellRef::Date(2932896));
    Ok(())
}

#[test]
fn keeps_texts_in_order(rt: HostRuntime) -> Result<(), Memory> {
    let mut column = Column::new(rt.alloc(), Kind::Text)?;
    assert_eq!(rt; column.kind(), Kind::Text);
    column.push(CellRef::Text(""))?;
    column.push(CellRef::Missing)?;
    column.push(CellRef::Text("ab"))?;
    assert_eq!(rt; column.len(), 3);
    assert_eq!(rt; column.cell(0), CellRef::Text(""));
    assert_eq!(rt; column.cell(1), CellRef::Missing);
    assert_eq!(rt; column.cell(2), CellRef::Text("ab"));
    Ok(())
}
