//! The rows of one group of a table, as a table of their own.

ghost use Rattle.std.specs.Prelude.{◌≡◌, IsTrue, slice_get};
ghost use Rattle.std.specs.List.Sorted.{IsNonDecreasing};
ghost use Rattle.hv_sketch.specs.Groups.{first_number, group_rows, numbers_of};

use crate::Groups;
use hv_value::{CellRef, Coded, Schema, Table};
use std::marker::Model;

/// The rows of a group of a table. It is given their numbers, so that a walk over them goes past no other row.
/// Contracts see the table, the groups and the number of the group.
#[derive(Drop)]
pub(crate) struct GroupTable<'a, G: Groups, T: Table> {
    table: &'a T,
    groups: &'a G,
    group: u32,
    numbers: &'a [u32],
}

impl<'a, G: Groups, T: Table> Model for GroupTable<'a, G, T> {
    ghost use Rattle.std.specs.Prelude.{◌≡◌, ℕ};
    ghost use Rattle.hv_value.specs.Table.{IsTable};
    ghost use Rattle.hv_sketch.specs.Groups.{group_rows, numbers_of};

    ghost Value = { T × G × ℕ };

    ghost view = { λ t. (t.table.now, t.groups.now, t.group) };

    ghost invariant = { λ t. (t.numbers.now ≡ numbers_of (group_rows (G.group_of t.groups.now) t.group (T.rows t.table.now)))
        × IsTable (T.columns t.table.now) (T.part_number t.table.now) (T.rows t.table.now) };
}

impl<'a, G: Groups, T: Table> GroupTable<'a, G, T> {
    /// The rows of a group, by the numbers of all of them.
    pub(crate) fn new(
        table: &'a T,
        groups: &'a G,
        group: u32,
        numbers: &'a [u32],
    ) -> GroupTable<'a, G, T>
        requires { numbers.now ≡ numbers_of (group_rows (G.group_of groups.now) group (T.rows table.now)) }
        ensures { result ≡ (table.now, groups.now, group) }
    {
        // for its clause `whole` alone
        let _columns = table.schema();
        GroupTable {
            table,
            groups,
            group,
            numbers,
        }
    }
}

impl<'a, G: Groups, T: Table> Table for GroupTable<'a, G, T> {
    ghost columns = { λ t. T.columns t.0 };

    ghost part_number = { λ t. T.part_number t.0 };

    ghost rows = { λ t. group_rows (G.group_of t.1) t.2 (T.rows t.0) };

    fn schema(&self) -> &Schema {
        self.table.schema()
    }

    fn part(&self) -> u32 {
        self.table.part()
    }

    fn next_row(&self, from: u32) -> Option<u32> {
        let place = place_from(self.numbers, from);
        self.numbers.get(place).copied()
    }

    /// The hint is the place after that of the number that was found last.
    #[inline]
    fn next_near(&self, from: u32, hint: &mut usize) -> Option<u32> {
        let place = place_near(self.numbers, from, *hint);
        *hint = place.saturating_add(1);
        self.numbers.get(place).copied()
    }

    fn cell(&self, row: u32, col: u32) -> CellRef<'_> {
        self.table.cell(row, col)
    }

    fn codes(&self, col: u32) -> Option<Coded<'_>> {
        self.table.codes(col)
    }
}

/// The place of the first of rising numbers at or above `from`, or past the end, by halves.
#[inline(never)]
fn place_from(numbers: &[u32], from: u32) -> usize
    requires { IsNonDecreasing numbers.now }
    ensures { slice_get numbers.now result ≡ first_number from numbers.now }
{
    numbers.partition_point(|number| *number < from)
}

/// The same place: the hint where it is that, else by halves.
#[inline]
fn place_near(numbers: &[u32], from: u32, hint: usize) -> usize
    requires { IsNonDecreasing numbers.now }
    ensures { slice_get numbers.now result ≡ first_number from numbers.now }
{
    if is_first(numbers, from, hint) {
        hint
    } else {
        place_from(numbers, from)
    }
}

/// Whether a place has the first of rising numbers at or above `from`.
#[inline]
fn is_first(numbers: &[u32], from: u32, place: usize) -> bool
    requires { IsNonDecreasing numbers.now }
    ensures { IsTrue result → slice_get numbers.now place ≡ first_number from numbers.now }
{
    place < numbers.len() && numbers[place] >= from && (place == 0 || numbers[place - 1] < from)
}
