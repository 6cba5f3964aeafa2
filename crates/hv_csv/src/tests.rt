use super::*;
use hv_column::Column;
use hv_value::{CellRef, Kind, Memory, Schema, Table, Text};
use std::alloc::Global;

/// A schema of the columns x and y of whole numbers.
fn schema_of_x_and_y(alloc: Global) -> Result<Schema, Memory> {
    let mut cols = Vec::new(alloc);
    for name in ["x", "y"] {
        cols.push((Text::of(alloc, name)?, Kind::Int))?;
    }
    Schema::new(cols).map_err(|_| Memory)
}

fn int_or_missing(column: &Column, row: u32) -> Option<i64> {
    if row >= column.len() {
        return None;
    }
    match column.cell(row) {
        CellRef::Int(n) => Some(n),
        _ => None,
    }
}

// The cases of the format's description of CSV: the first record is the header, a column takes the first field
// with its name, and a cell is missing where its field isn't there or isn't a whole number.
#[test]
fn reads_each_partition_by_its_records(rt: HostRuntime) -> Result<(), Memory> {
    let schema = schema_of_x_and_y(rt.alloc())?;
    let none: &[(Option<i64>, Option<i64>)] = &[];
    for (bytes, want) in [
        (b"".as_slice(), none),
        (b"x,y\n", none),
        (b"x,y", none),
        (b"\n\r\n", none),
        (
            b"x,y\n5,a\n,b\n-2,c",
            &[(Some(5), None), (None, None), (Some(-2), None)],
        ),
        (
            b"y,z,x\n1,2,3\n4\n5,6,7,8\n",
            &[(Some(3), Some(1)), (None, Some(4)), (Some(7), Some(5))],
        ),
        (
            b"x,y\r\n1,2\r\n\r\n3,4\r",
            &[(Some(1), Some(2)), (Some(3), Some(4))],
        ),
        (
            b"\"x\",\"y\"\n\"1\",\"-2\"\n\"1,0\",\"3\n\"\n\"4\"\"\",\"5",
            &[(Some(1), Some(-2)), (None, None), (None, Some(5))],
        ),
        (b"\xEF\xBB\xBFx,y\n1,2\n", &[(Some(1), Some(2))]),
        (b"z\n1\n2\n", &[(None, None), (None, None)]),
        (b"y,y,x,x\n1,2,3,4\n", &[(Some(3), Some(1))]),
        (b"X,y \n1,2\n", &[(None, None)]),
        (
            b"x,y\n-0,007\n+1, 1\n1.0,0x1\n9223372036854775807,9223372036854775808\n\xFF,1\xFF\n",
            &[
                (Some(0), Some(7)),
                (None, None),
                (None, None),
                (Some(i64::MAX), None),
                (None, None),
            ],
        ),
    ] {
        let cols = read_part(rt.alloc(), bytes, &schema)?;
        assert_eq!(rt; cols.len(), 2);
        assert_eq!(rt; cols[0].len() as usize, want.len(), "rows of {bytes:?}");
        assert_eq!(rt; cols[1].len(), cols[0].len());
        let mut row = 0u32;
        for (x, y) in want {
            assert_eq!(rt;
                int_or_missing(&cols[0], row),
                *x,
                "x of row {row} of {bytes:?}"
            );
            assert_eq!(rt;
                int_or_missing(&cols[1], row),
                *y,
                "y of row {row} of {bytes:?}"
            );
            row = row.saturating_add(1);
        }
    }
    Ok(())
}

fn schema_of_x_and_texts_y(alloc: Global, kind: Kind) -> Result<Schema, Memory> {
    let mut cols = Vec::new(alloc);
    cols.push((Text::of(alloc, "x")?, kind))?;
    cols.push((Text::of(alloc, "y")?, Kind::Text))?;
    Schema::new(cols).map_err(|_| Memory)
}

fn cell_or_missing(column: &Column, row: u32) -> CellRef<'_> {
    if row < column.len() {
        column.cell(row)
    } else {
        CellRef::Missing
    }
}

// The cases of the format's description of dates and texts. A row that can't be read as a day or isn't UTF-8 is
// there, with a missing cell; an empty field that is there is the empty text.
#[test]
fn reads_days_and_texts(rt: HostRuntime) -> Result<(), Memory> {
    for (kind, bytes, want) in [
        (Kind::Text, b"".as_slice(), [].as_slice()),
        (Kind::Text, b"x\n\xFF", &[CellRef::Missing]),
        (
            Kind::Date,
            b"x\n1970-01-01\n0001-01-01\n9999-12-31\n2020-02-29\n",
            &[
                CellRef::Date(0),
                CellRef::Date(-719162),
                CellRef::Date(2932896),
                CellRef::Date(18321),
            ],
        ),
        (
            Kind::Date,
            b"x\n0000-01-01\n1970-1-1\n2019-02-29\n1970-01-01 \n\"\"\n5\n",
            &[
                CellRef::Missing,
                CellRef::Missing,
                CellRef::Missing,
                CellRef::Missing,
                CellRef::Missing,
                CellRef::Missing,
            ],
        ),
        (
            Kind::Text,
            b"z,x\n1,\n2\n3,ab\n4, c \n",
            &[
                CellRef::Text(""),
                CellRef::Missing,
                CellRef::Text("ab"),
                CellRef::Text(" c "),
            ],
        ),
        (
            Kind::Text,
            b"x\n\"\"\n\"a,\"\"b\"\"\n\"\na\"b\"\n\"ab",
            &[
                CellRef::Text(""),
                CellRef::Text("a,\"b\"\n"),
                CellRef::Text("a\"b\""),
                CellRef::Text("ab"),
            ],
        ),
        (
            Kind::Text,
            b"x\n\xC3\xA4\n\xC3\n\xED\xA0\x80\n",
            &[CellRef::Text("\u{e4}"), CellRef::Missing, CellRef::Missing],
        ),
    ] {
        let schema = schema_of_x_and_texts_y(rt.alloc(), kind)?;
        let cols = read_part(rt.alloc(), bytes, &schema)?;
        assert_eq!(rt; cols.len(), 2);
        assert_eq!(rt; cols[0].len() as usize, want.len(), "rows of {bytes:?}");
        let mut row = 0u32;
        for x in want {
            assert_eq!(rt;
                cell_or_missing(&cols[0], row),
                *x,
                "x of row {row} of {bytes:?}"
            );
            assert_eq!(rt; cell_or_missing(&cols[1], row), CellRef::Missing);
            row = row.saturating_add(1);
        }
    }
    Ok(())
}

#[test]
fn a_table_lends_the_cells_of_its_rows(rt: HostRuntime) -> Result<(), Memory> {
    let schema = schema_of_x_and_y(rt.alloc())?;
    let table = base_table(rt.alloc(), &schema, 7, b"y,x\n1,2\n3\n")?;
    assert_eq!(rt; table.part(), 7);
    assert_eq!(rt; table.schema().len(), 2);
    assert_eq!(rt; table.next_row(2), None);
    assert_eq!(rt; table.next_row(1), Some(1));
    assert_eq!(rt; table.cell(1, 0), CellRef::Missing);
    assert_eq!(rt; table.cell(1, 1), CellRef::Int(3));
    assert_eq!(rt; table.next_row(0), Some(0));
    assert_eq!(rt; table.cell(0, 0), CellRef::Int(2));
    Ok(())
}
