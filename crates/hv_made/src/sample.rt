//! The rows of a table that are picked at a threshold.

ghost use Rattle.std.specs.Prelude.{◌≡◌, IfOk};
ghost use Rattle.hv_made.specs.Steps.{picked_rows, with_rows};

use crate::kept::KeptRows;
use crate::rows::with_member;
use hv_member::Member;
use hv_part::PartTable;
use hv_pick::Walker;
use hv_value::{Mem, Table};
use std::alloc::Global;

/// The numbers of the rows that are picked, rising. Each row's number and partition alone decide.
fn picked_numbers(alloc: Global, table: &PartTable, seed: u64, threshold: u64) -> Mem<Vec<u32>>
    ensures { IfOk result (λ rows. rows.items ≡ picked_rows seed threshold table.now) }
{
    let mut words = Walker::new(seed, table.part());
    let mut kept = KeptRows::new(alloc);
    let mut from = 0;
    let mut hint = 0;
    while let Some(row) = table.member().next_near(from, &mut hint) {
        let word = words.at(row);
        kept.offer(row, u64::from(word) < threshold)?;
        from = row + 1;
    }
    kept.into_rows()
}

/// Keeps the rows that are picked by a seed at a threshold of 2^32nds, with their numbers.
pub(crate) fn sampled(alloc: Global, table: PartTable, seed: u64, threshold: u64) -> Mem<PartTable>
    ensures { IfOk result (λ made. made ≡ with_rows table (picked_rows seed threshold table)) }
{
    let rows = picked_numbers(alloc, &table, seed, threshold)?;
    let member = Member::from_rows(table.height(), rows)?;
    Ok(with_member(table, member))
}
