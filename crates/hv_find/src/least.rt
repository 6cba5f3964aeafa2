//! The least key so far, to which a row's key or another least key is put. No key is built or copied where it isn't
//! the lesser. The definition is `lesser` (specs/Least.antt).

ghost use Rattle.std.specs.Prelude.{◌≡◌, length, option_map, IfSome, OnErr, OnOk, Some, if◌then◌else◌};
ghost use Rattle.hv_value.specs.Orders.{AreInColumns, compare_keys, key_of};
ghost use Rattle.hv_value.specs.Rows.{Row};
ghost use Rattle.hv_value.specs.Table.{row_from};
ghost use Rattle.hv_find.specs.Least.{lesser};

use hv_next::{copied_key, key_at};
use hv_value::{Cell, Listed, Mem, Order, Table};
use std::alloc::Global;

/// Puts the key of a row that is there to the least key so far.
pub(crate) fn put_row<T: Table>(
    alloc: Global,
    least: &mut Option<Listed<Cell>>,
    order: &Order,
    table: &T,
    row: u32,
) -> Mem<()>
    requires row_there { option_map (λ found. found.number) (row_from row (T.rows table.now))
        ≡ Some row }
    requires cols_there { AreInColumns (T.columns table.now) order.now }
    requires one_each { IfSome least.old (λ key. length key ≡ length order.now) }
    ensures ok { OnOk result ((found : Row) → row_from row (T.rows table.now) ≡ Some found
        → least.new ≡ lesser (compare_keys order.now) (Some (key_of order.now found)) least.old) }
    ensures err { OnErr result (least.new ≡ least.old) }
{
    if is_row_less(least, order, table, row) {
        *least = Some(key_at(alloc, order, table, row)?);
    }
    Ok(())
}

/// Puts another least key, where there is one, to the least key so far.
pub(crate) fn put_key(
    alloc: Global,
    least: &mut Option<Listed<Cell>>,
    order: &Order,
    other: &Option<Listed<Cell>>,
) -> Mem<()>
    requires one_each { IfSome least.old (λ key. length key ≡ length order.now) }
    requires other_each { IfSome other.now (λ key. length key ≡ length order.now) }
    ensures ok { OnOk result (least.new ≡ lesser (compare_keys order.now) other.now least.old) }
    ensures err { OnErr result (least.new ≡ least.old) }
{
    if is_less(other, order, least) {
        *least = copied_key(alloc, other)?;
    }
    Ok(())
}

/// Whether a row's key is the lesser of it and the least key so far, where there is one.
fn is_row_less<T: Table>(least: &Option<Listed<Cell>>, order: &Order, table: &T, row: u32) -> bool
    requires row_there { option_map (λ found. found.number) (row_from row (T.rows table.now))
        ≡ Some row }
    requires cols_there { AreInColumns (T.columns table.now) order.now }
    requires one_each { IfSome least.now (λ key. length key ≡ length order.now) }
    ensures { (found : Row) → row_from row (T.rows table.now) ≡ Some found
        → lesser (compare_keys order.now) (Some (key_of order.now found)) least.now
        ≡ (if result then Some (key_of order.now found) else least.now) }
{
    match least {
        Some(least) => order.compare_row(table, row, least.as_slice()).is_lt(),
        None => true,
    }
}

/// Whether a key, where there is one, is the lesser of it and another, where there is one.
fn is_less(key: &Option<Listed<Cell>>, order: &Order, other: &Option<Listed<Cell>>) -> bool
    requires left { IfSome key.now (λ key. length key ≡ length order.now) }
    requires right { IfSome other.now (λ key. length key ≡ length order.now) }
    ensures { lesser (compare_keys order.now) key.now other.now
        ≡ (if result then key.now else other.now) }
{
    match (key, other) {
        (Some(key), Some(other)) => order.compare(key.as_slice(), other.as_slice()).is_lt(),
        (Some(_), None) => true,
        _ => false,
    }
}
