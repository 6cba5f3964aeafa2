//! Rows counted by slot: the one pass over a table for all charts (specs/Tally.antt).

ghost use Rattle.std.specs.Prelude.{◌≡◌, ◌<◌, ◌++◌, ℕ, List, [], IfOk, option_map, Some};
ghost use Rattle.hv_value.specs.Rows.{Row};
ghost use Rattle.hv_value.specs.Schema.{Columns};
ghost use Rattle.hv_value.specs.Table.{IsTable, row_from};
ghost use Rattle.hv_sketch.specs.Merging.{CanMerge};
ghost use Rattle.hv_sketch.specs.Tally.{IsTally};

use crate::{Counts, Gather, gather_rows};
use hv_value::{Mem, Table};
use std::alloc::Global;

/// What puts each row of a table into exactly one of its slots, which are numbered from 0.
pub trait Sorter {
    // how many slots there are
    ghost slots: { Self → ℕ };

    // the slot of a row
    ghost slot: { Self → Row → ℕ };

    // the columns that are read are there, each of its kind
    ghost takes: { Self → Columns → Type 0 };

    /// How many slots there are.
    fn slots(&self) -> usize
        ensures { result ≡ slots self.now };

    /// The slot of a row that is there.
    fn slot<T: Table>(&self, table: &T, row: u32) -> usize
        requires fit { takes self.now (T.columns table.now) }
        requires whole { IsTable (T.columns table.now) (T.part_number table.now) (T.rows table.now) }
        requires row_there { option_map (λ found. found.number) (row_from row (T.rows table.now)) ≡ Some row }
        ensures value { (found : Row) → row_from row (T.rows table.now) ≡ Some found → result ≡ slot self.now found }
        ensures within { result < slots self.now };
}

/// How many of a table's rows are in each slot, in one pass that takes no memory but for the counts.
pub fn tally<S: Sorter, T: Table>(alloc: Global, sorter: &S, table: &T) -> Mem<Counts>
    requires { S.takes sorter.now (T.columns table.now) }
    ensures { IfOk result (λ counts. IsTally (S.slots sorter.now) (S.slot sorter.now) (T.rows table.now) counts) }
{
    gather_rows(alloc, &Tallying { sorter }, table)
}

/// The counts of no rows.
pub fn empty_tally<S: Sorter>(alloc: Global, sorter: &S) -> Mem<Counts>
    ensures { IfOk result (λ counts. IsTally (S.slots sorter.now) (S.slot sorter.now) [] counts) }
{
    Counts::zeros(alloc, sorter.slots())
}

/// Adds the counts of further rows, which takes no memory.
pub fn add_tally<S: Sorter>(sorter: &S, acc: &mut Counts, d: &Counts)
    requires { (a : List Row) × (b : List Row) × IsTally (S.slots sorter.now) (S.slot sorter.now) a acc.old
        × IsTally (S.slots sorter.now) (S.slot sorter.now) b d.now × CanMerge a b }
    ensures { (a b : List Row) → IsTally (S.slots sorter.now) (S.slot sorter.now) a acc.old
        → IsTally (S.slots sorter.now) (S.slot sorter.now) b d.now → CanMerge a b
        → IsTally (S.slots sorter.now) (S.slot sorter.now) (a ++ b) acc.new }
{
    acc.add(d);
}

/// The gathering of a tally: one count rises with each row.
#[derive(Drop)]
struct Tallying<'a, S: Sorter> {
    sorter: &'a S,
}

impl<'a, S: Sorter> Gather for Tallying<'a, S> {
    type Gathered = Counts;

    ghost gathers = { λ tallying part rows counts. IsTally (S.slots tallying.sorter.now) (S.slot tallying.sorter.now) rows counts };

    ghost takes = { λ tallying columns. S.takes tallying.sorter.now columns };

    fn start<T: Table>(&self, alloc: Global, _table: &T) -> Mem<Counts> {
        empty_tally(alloc, self.sorter)
    }

    #[inline(always)]
    fn add_row<T: Table>(&self, _alloc: Global, kept: &mut Counts, table: &T, row: u32) -> Mem<()> {
        kept.add_one(self.sorter.slot(table, row));
        Ok(())
    }
}
