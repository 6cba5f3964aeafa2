//! What is found, as a value.

ghost use Rattle.std.specs.Prelude.{◌≡◌, ◌<◌, ◌+◌, ◌^◌, [], ◌∷◌, length, option_map, IfOk, IfSome, None, OnOk, Some};
ghost use Rattle.hv_value.specs.Rows.{Row};
ghost use Rattle.hv_value.specs.Table.{row_from};
ghost use Rattle.hv_next.specs.Fits.{FitsNext};
ghost use Rattle.hv_find.specs.Find.{split_at};
ghost use Rattle.hv_find.specs.FindSums.{find_sum};

use crate::least::put_row;
use hv_next::{copied_key, is_above};
use hv_value::{Cell, Listed, Mem, Order, Table};
use std::alloc::Global;

/// Of the rows that match, how many are above a key, how many aren't, and the least key of those above.
#[derive(Drop)]
pub struct FindSummary {
    /// How many rows that match are above; all of them where no key was given.
    pub above: u64,
    /// How many rows that match aren't above.
    pub before: u64,
    /// The least key of the rows that match and are above, none where there is none.
    pub first: Option<Listed<Cell>>,
}

impl FindSummary {
    /// What is found in no rows.
    pub(crate) fn empty() -> FindSummary
        ensures { result ≡ record { above = 0; before = 0; first = None } }
    {
        FindSummary {
            above: 0,
            before: 0,
            first: None,
        }
    }

    /// An equal summary.
    pub fn copy(&self, alloc: Global) -> Mem<FindSummary>
        ensures { IfOk result (λ s. s ≡ self.now) }
    {
        Ok(FindSummary {
            above: self.above,
            before: self.before,
            first: copied_key(alloc, &self.first)?,
        })
    }

    /// Counts a row that is there and matches. After an Err nothing is known of the summary.
    pub(crate) fn add_match<T: Table>(
        &mut self,
        alloc: Global,
        order: &Order,
        after: &Option<Listed<Cell>>,
        table: &T,
        row: u32,
    ) -> Mem<()>
        requires fit { FitsNext order.now after.now (T.columns table.now) }
        requires row_there { option_map (λ found. found.number) (row_from row (T.rows table.now))
            ≡ Some row }
        requires one_each { IfSome self.old.first (λ key. length key ≡ length order.now) }
        requires room_above { self.old.above + 1 < 2 ^ 64 }
        requires room_before { self.old.before + 1 < 2 ^ 64 }
        ensures { OnOk result ((found : Row) → row_from row (T.rows table.now) ≡ Some found
            → self.new ≡ find_sum order.now (split_at order.now after.now (found ∷ [])) self.old) }
    {
        if is_above(order, after, table, row) {
            put_row(alloc, &mut self.first, order, table, row)?;
            self.above += 1;
        } else {
            self.before += 1;
        }
        Ok(())
    }
}
