//! The table of a partition after its rows were filtered and its columns chosen. Contracts see it as its schema's
//! columns, its partition's number, its columns' cells and its set of rows (specs/Part.antt).

ghost use Rattle.std.specs.Prelude.{◌≡◌, ◌^◌, ◌<◌, ◌≤◌, length, map, slice_get, Some};
ghost use Rattle.std.specs.Arc.{arc_value};
ghost use Rattle.std.specs.List.{AllByRecursion};
ghost use Rattle.hv_column.specs.Column.{AreCells};
ghost use Rattle.hv_part.specs.Part.{Agree, HoldPart, PartRows};

use hv_column::Column;
use hv_member::Member;
use hv_value::{CellRef, Schema, Table};
use std::marker::Model;
use std::sync::Arc;

/// Some rows of a partition. Each call takes no memory, and constant time but `next_row` and `next_near`, which take
/// that of `Member::next` and `Member::next_near`.
#[derive(Drop)]
pub struct PartTable {
    schema: Schema,
    part: u32,
    cols: Vec<Arc<Column>>,
    member: Member,
}

impl Model for PartTable {
    ghost use Rattle.std.specs.Prelude.{map};
    ghost use Rattle.std.specs.Arc.{arc_value};
    ghost use Rattle.hv_part.specs.Part.{HoldPart, PartRows};

    ghost Value = { PartRows };

    ghost view = { λ table. record { columns = table.schema; part = table.part; cols = map arc_value table.cols.items; member = table.member } };

    ghost invariant = { λ table. HoldPart (record { columns = table.schema; part = table.part; cols = map arc_value table.cols.items; member = table.member }) };
}

impl Table for PartTable {
    ghost columns = { λ table. table.columns };

    ghost part_number = { λ table. table.part };

    ghost use Rattle.hv_part.specs.Part.{rows_of as tagged_rows};

    ghost rows = { tagged_rows };

    fn schema(&self) -> &Schema {
        &self.schema
    }

    fn part(&self) -> u32 {
        self.part
    }

    fn next_row(&self, from: u32) -> Option<u32> {
        self.member.next(from)
    }

    #[inline]
    fn next_near(&self, from: u32, hint: &mut usize) -> Option<u32> {
        self.member.next_near(from, hint)
    }

    fn cell(&self, row: u32, col: u32) -> CellRef<'_> {
        self.cols[col as usize].cell(row)
    }
}

/// Hands out what each of the columns keeps: at most 2^26 cells, each missing or of its kind.
fn look_at(cols: &[Arc<Column>])
    ensures { AllByRecursion AreCells (map arc_value cols.now) }
{
    for column in cols {
        let _ = column.len();
        let _ = column.kind();
    }
}

impl PartTable {
    /// The rows of `member` of columns that have the schema's kinds, in order, and as many cells as `member` has
    /// numbers below it. It takes no memory, and time by the number of columns.
    pub fn new(schema: Schema, part: u32, cols: Vec<Arc<Column>>, member: Member) -> PartTable
        requires { Agree schema (map arc_value cols.items) member.size }
        ensures { result ≡ record { columns = schema; part = part; cols = map arc_value cols.items; member = member } }
    {
        look_at(&cols);
        let _ = schema.len();
        let _ = member.count();
        PartTable {
            schema,
            part,
            cols,
            member,
        }
    }

    /// The rows that are there, of those of the columns. Its second clause hands out what each table keeps.
    pub fn member(&self) -> &Member
        ensures value { result.now ≡ self.now.member }
        ensures whole { HoldPart self.now }
    {
        &self.member
    }

    /// The column at a place from 0, with the cells of all rows, whether they are there or not.
    pub fn column(&self, j: u32) -> &Arc<Column>
        requires { j < length self.now.cols }
        ensures { slice_get self.now.cols j ≡ Some (arc_value result.now) }
    {
        &self.cols[j as usize]
    }

    /// The number of cells that each column has, of rows that are there or not: at most 2^26. Its last clause hands
    /// out what each table keeps.
    pub fn height(&self) -> u32
        ensures value { result ≡ self.now.member.size }
        ensures most { result ≤ 2 ^ 26 }
        ensures whole { HoldPart self.now }
    {
        self.cols[0].len()
    }

    /// The schema, the columns and the set of rows. Its last clause hands out what each table keeps.
    pub fn into_parts(self) -> (Schema, Vec<Arc<Column>>, Member)
        ensures schema { result.0 ≡ self.columns }
        ensures cols { map arc_value result.1.items ≡ self.cols }
        ensures member { result.2 ≡ self.member }
        ensures whole { HoldPart self }
    {
        let PartTable {
            schema,
            part: _,
            cols,
            member: rows,
        } = self;
        (schema, cols, rows)
    }
}
