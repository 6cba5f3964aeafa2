//! The row numbers of each group of a table's rows, listed in one pass (specs/Groups.antt).

ghost use Rattle.std.specs.Prelude.{◌≡◌, ◌<◌, [], ◌∷◌, ◌++◌, length, slice_index_or, slice_set, IfOk, OnOk};
ghost use Rattle.hv_sketch.specs.Groups.{AreMade, AreListed};

use crate::{Gather, Groups};
use hv_value::{Listed, Mem, Table};
use std::alloc::Global;

/// The row numbers of each group, in order, and how many rows are in no group.
#[derive(Drop)]
pub(crate) struct RowLists {
    pub(crate) lists: Vec<Listed<u32>>,
    pub(crate) rest: u64,
}

/// Lists the numbers of a table's rows by groups.
#[derive(Drop)]
pub(crate) struct Listing<'a, G: Groups> {
    pub(crate) groups: &'a G,
}

impl<'a, G: Groups> Gather for Listing<'a, G> {
    type Gathered = RowLists;

    ghost gathers = { λ listing part rows s.
        AreListed (G.group_of listing.groups.now) (G.count listing.groups.now) rows s.lists.items s.rest };

    ghost takes = { λ listing columns. G.fits_columns listing.groups.now columns };

    fn start<T: Table>(&self, alloc: Global, _table: &T) -> Mem<RowLists> {
        Ok(RowLists {
            lists: empty_lists(alloc, self.groups.groups())?,
            rest: 0,
        })
    }

    #[inline]
    fn add_row<T: Table>(
        &self,
        _alloc: Global,
        kept: &mut RowLists,
        table: &T,
        row: u32,
    ) -> Mem<()> {
        match self.groups.group(table, row) {
            Some(group) => put(&mut kept.lists, group as usize, row),
            None => {
                kept.rest += 1;
                Ok(())
            }
        }
    }
}

/// So many lists of no numbers.
fn empty_lists(alloc: Global, count: u32) -> Mem<Vec<Listed<u32>>>
    ensures { IfOk result (λ made. AreMade (λ group numbers. numbers ≡ []) count made.items) }
{
    let mut made = Vec::new(alloc);
    for _group in 0..count {
        made.push(Listed::new(alloc))?;
    }
    Ok(made)
}

/// Adds a number at the end of a group's list.
#[inline]
fn put(lists: &mut Vec<Listed<u32>>, group: usize, number: u32) -> Mem<()>
    requires { group < length lists.old.items }
    ensures { OnOk result (lists.new.items
        ≡ slice_set lists.old.items group (slice_index_or lists.old.items group [] ++ number ∷ [])) }
{
    let list = &mut lists[group];
    list.push(number)
}
