//! A row's key put to the least keys of some rows, and the test for a row whose key can't be among them: it costs one
//! comparison with the last of them, and no key is built.

ghost use Rattle.std.specs.Prelude.{◌≡◌, ◌≤◌, ◌<◌, length, take, option_map, IfOk, IfErr, OnOk, IsTrue, Some};
ghost use Rattle.hv_value.specs.Orders.{AreInColumns};
ghost use Rattle.hv_value.specs.Rows.{Row};
ghost use Rattle.hv_value.specs.Table.{row_from};
ghost use Rattle.hv_next.specs.AddKey.{AreKept, IsPast, IsPlace, with_key};
ghost use Rattle.hv_next.specs.Next.{one_row};

use crate::{CountedKeys, NextRow, key_at};
use hv_value::{Mem, Order, Table};
use std::alloc::Global;
use std::cmp::Ordering;

/// Whether there are `k` keys, at least one, and the key of a row that is there is above all of them. It costs one
/// comparison, and none where there are fewer.
#[inline(always)]
pub(crate) fn is_past<T: Table>(
    rows: &[NextRow],
    order: &Order,
    k: u32,
    table: &T,
    row: u32,
) -> bool
    requires row_there { option_map (λ found. found.number) (row_from row (T.rows table.now)) ≡ Some row }
    requires cols_there { AreInColumns (T.columns table.now) order.now }
    requires kept { AreKept order.now k rows.now }
    ensures { IsTrue result → (found : Row) → row_from row (T.rows table.now) ≡ Some found
        → IsPast order.now k (one_row order.now found) rows.now }
{
    let count = rows.len();
    if count < k as usize {
        return false;
    }
    count > 0
        && order
            .compare_row(table, row, rows[count - 1].key.as_slice())
            .is_gt()
}

/// Puts the key of a row that is there to the `k` least keys of some rows: for the few rows whose key may be among
/// them. After an Err nothing is known of them.
#[inline(never)]
pub(crate) fn add_key<T: Table>(
    alloc: Global,
    rows: &mut CountedKeys,
    order: &Order,
    k: u32,
    table: &T,
    row: u32,
) -> Mem<()>
    requires row_there { option_map (λ found. found.number) (row_from row (T.rows table.now)) ≡ Some row }
    requires cols_there { AreInColumns (T.columns table.now) order.now }
    requires kept { AreKept order.now k rows.old }
    ensures { OnOk result ((found : Row) → row_from row (T.rows table.now) ≡ Some found
        → rows.new ≡ take k (with_key order.now (one_row order.now found) rows.old)) }
{
    match place_of(rows.as_slice(), order, k, table, row) {
        Ok(place) => {
            rows.count_one(place);
            Ok(())
        }
        Err(place) => {
            let key = key_at(alloc, order, table, row)?;
            rows.insert(place, key)?;
            rows.truncate(k as usize);
            Ok(())
        }
    }
}

/// The place of a row's key in the list, or else where it would stand.
fn place_of<T: Table>(
    rows: &[NextRow],
    order: &Order,
    k: u32,
    table: &T,
    row: u32,
) -> Result<usize, usize>
    requires row_there { option_map (λ found. found.number) (row_from row (T.rows table.now)) ≡ Some row }
    requires cols_there { AreInColumns (T.columns table.now) order.now }
    requires kept { AreKept order.now k rows.now }
    ensures there { IfOk result (λ place. place < length rows.now) }
    ensures within { IfErr result (λ place. place ≤ length rows.now) }
    ensures value { (found : Row) → row_from row (T.rows table.now) ≡ Some found
        → IsPlace order.now (one_row order.now found) rows.now result }
{
    let mut low = 0;
    let mut high = rows.len();
    while low < high {
        let middle = low + (high - low) / 2;
        match order.compare_row(table, row, rows[middle].key.as_slice()) {
            Ordering::Less => high = middle,
            Ordering::Equal => return Ok(middle),
            Ordering::Greater => low = middle + 1,
        }
    }
    Err(low)
}
