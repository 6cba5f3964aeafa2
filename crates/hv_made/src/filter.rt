//! The rows of a table of which a predicate holds.

ghost use Rattle.std.specs.Prelude.{◌≡◌, IfOk};
ghost use Rattle.hv_made.specs.Steps.{passing, with_rows};

use crate::kept::KeptRows;
use crate::rows::with_member;
use hv_expr::{Pred, ReadyPred};
use hv_member::Member;
use hv_part::PartTable;
use hv_value::{Mem, Table};
use std::alloc::Global;

/// The numbers of the rows of which a predicate holds, rising.
fn passing_rows(alloc: Global, table: &PartTable, pred: &Pred) -> Mem<Vec<u32>>
    ensures { IfOk result (λ rows. rows.items ≡ passing pred.now table.now) }
{
    let ready = ReadyPred::of(alloc, pred, table.schema())?;
    let mut kept = KeptRows::new(alloc);
    let mut from = 0;
    let mut hint = 0;
    while let Some(row) = table.member().next_near(from, &mut hint) {
        let passes = ready.eval(alloc, table, row)?;
        kept.offer(row, passes)?;
        from = row + 1;
    }
    kept.into_rows()
}

/// Keeps the rows of which a predicate holds, with their numbers.
pub(crate) fn filtered(alloc: Global, table: PartTable, pred: &Pred) -> Mem<PartTable>
    ensures { IfOk result (λ made. made ≡ with_rows table (passing pred.now table)) }
{
    let rows = passing_rows(alloc, &table, pred)?;
    let member = Member::from_rows(table.height(), rows)?;
    Ok(with_member(table, member))
}
