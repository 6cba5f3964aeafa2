//! The rows of a table by the slots of a column's cells among some values, for a tally (specs/CountOf.antt).

use crate::places::ValuePlaces;
use hv_sketch::Sorter;
use hv_value::Table;

/// What puts each row into the slot of its cell: one look-up a row.
#[derive(Drop)]
pub(crate) struct Placing<'a> {
    /// The place of the column, from 0.
    pub(crate) col: u32,
    pub(crate) places: ValuePlaces<'a>,
}

impl<'a> Sorter for Placing<'a> {
    ghost use Rattle.std.specs.Prelude.{◌<◌, ◌+◌, length};
    ghost use Rattle.hv_heavy.specs.CountOf.{slot_in};

    ghost slots = { λ placing. length placing.places + 2 };

    ghost slot = { λ placing row. slot_in placing.col placing.places row };

    ghost takes = { λ placing columns. placing.col < length columns };

    fn slots(&self) -> usize {
        self.places.slots()
    }

    #[inline(always)]
    fn slot<T: Table>(&self, table: &T, row: u32) -> usize {
        self.places.slot_of(table.cell(row, self.col))
    }
}
