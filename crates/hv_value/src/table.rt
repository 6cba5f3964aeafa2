//! The interface of a table. Contracts see one as its columns, its partition's number and its list of
//! tagged rows (`IsTable` of specs/Table.antt says what each table keeps of them).

ghost use Rattle.std.specs.Prelude.{◌≡◌, ◌<◌, ℕ, List, length, option_map, IfSome, Some};
ghost use Rattle.hv_value.specs.Cells.{cell_lent, cell_at};
ghost use Rattle.hv_value.specs.Codes.{HoldCodes};
ghost use Rattle.hv_value.specs.Rows.{Row};
ghost use Rattle.hv_value.specs.Schema.{Columns};
ghost use Rattle.hv_value.specs.Table.{IsTable, row_from};

use crate::{CellRef, Schema, Text};

/// The most rows of a partition, and so one more than its greatest row number.
pub const MAX_ROWS: u32 = 1 << 26;

/// A column of texts by codes, as a table lends it: the different texts, each once, and codes by row number.
/// At the number of a row that is there stands its cell's code: 0 is a missing cell, and k + 1 the text at
/// place k. At other numbers stands any code from 0 to the number of texts.
#[derive(Clone, Copy)]
pub struct Coded<'a> {
    pub words: &'a [Text],
    pub codes: &'a [u32],
}

/// Some rows of one partition of a table.
pub trait Table {
    ghost columns: { Self → Columns };

    ghost part_number: { Self → ℕ };

    ghost rows: { Self → List Row };

    /// The columns. Its second clause hands out what each table keeps of its rows, which a law can't
    /// say, since it would speak of values that break the invariant.
    fn schema(&self) -> &Schema
        ensures value { result.now ≡ columns self.now }
        ensures whole { IsTable (columns self.now) (part_number self.now) (rows self.now) };

    /// The number of the partition, from 0.
    fn part(&self) -> u32
        ensures { result ≡ part_number self.now };

    /// The least row number at or above `from`.
    fn next_row(&self, from: u32) -> Option<u32>
        ensures { result ≡ option_map (λ row. row.number) (row_from from (rows self.now)) };

    /// The same as `next_row`. A walk over rising rows begins with a `hint` of 0 and hands the same one on to each
    /// call; what it holds is the table's own, and any other value is only slow.
    fn next_near(&self, from: u32, hint: &mut usize) -> Option<u32>
        ensures { result ≡ option_map (λ row. row.number) (row_from from (rows self.now)) }
    {
        let _ = hint;
        self.next_row(from)
    }

    /// The cell in a row that is there, at a column's place from 0.
    fn cell(&self, row: u32, col: u32) -> CellRef<'_>
        requires row_there { option_map (λ found. found.number) (row_from row (rows self.now)) ≡ Some row }
        requires col_there { col < length (columns self.now) }
        ensures { (found : Row) → row_from row (rows self.now) ≡ Some found → cell_lent result ≡ cell_at found.cells col };

    /// The column at a place from 0 by codes, where the table keeps it so. A table that says nothing keeps none so.
    fn codes(&self, col: u32) -> Option<Coded<'_>>
        requires { col < length (columns self.now) }
        ensures { IfSome result (λ lent. HoldCodes col (rows self.now) lent.words.now lent.codes.now) }
    {
        let _ = col;
        None
    }
}
