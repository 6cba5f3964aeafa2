//! Orders of rows by several columns. The definition is `compare_keys` (specs/Orders.antt).

ghost use Rattle.std.specs.Prelude.{◌≡◌, ◌<◌, ◌≤◌, ◌↔◌, length, IsTrue, IfOk, option_map, Some};
ghost use Rattle.std.specs.Cmp.{partial_equiv_from_equiv};
ghost use Rattle.std.proofs.Common.{ap};
ghost use Rattle.hv_value.specs.Cells.{cell_lent};
ghost use Rattle.hv_value.specs.Hashes.{order_writes};
ghost use Rattle.hv_value.specs.Orders.{AreInColumns, compare_by, compare_keys, key_of};
ghost use Rattle.hv_value.specs.Rows.{Row};
ghost use Rattle.hv_value.specs.Same.{same_by};
ghost use Rattle.hv_value.specs.SameLaws.{same_by-decides, same_by-equiv};
ghost use Rattle.hv_value.specs.Table.{row_from};

use crate::{Cell, CellRef, Mem, Table, compare};
use std::alloc::Global;
use std::cmp::Ordering;
use std::hash::{Hash, Hasher};
use std::marker::Model;

/// The most keys of an order.
pub const MAX_KEYS: usize = 8;

/// A column by which rows order: its place from 0, and whether its greater cells come first.
#[derive(Clone, Copy, Debug, PartialEq, Eq, Hash)]
pub struct OrderKey {
    pub col: u32,
    pub down: bool,
}

/// An order of rows: by the first key, where that ties by the second, and so on; 1 to 8 keys.
#[derive(Drop)]
pub struct Order {
    keys: Vec<OrderKey>,
}

impl Model for Order {
    ghost use Rattle.std.specs.Prelude.{List, length, ◌<◌, ◌≤◌};
    ghost use Rattle.hv_value.specs.declared.orders.OrderKey.{OrderKey};
    ghost use Rattle.hv_value.specs.declared.orders.TheConstants.{MAX_KEYS};

    ghost Value = { List OrderKey };

    ghost view = { λ order. order.keys.items };

    ghost invariant = { λ order. (0 < length order.keys.items) × (length order.keys.items ≤ MAX_KEYS) };
}

/// How two cells compare by one key.
#[inline(always)]
fn compare_cell(key: &OrderKey, a: CellRef<'_>, b: CellRef<'_>) -> Ordering
    ensures { result ≡ compare_by key.now (cell_lent a.entry) (cell_lent b.entry) }
{
    if key.down {
        compare(b, a)
    } else {
        compare(a, b)
    }
}

fn compare_all(keys: &[OrderKey], a: &[Cell], b: &[Cell]) -> Ordering
    requires left { length a.now ≡ length keys.now }
    requires right { length b.now ≡ length keys.now }
    ensures { result ≡ compare_keys keys.now a.now b.now }
{
    for (place, key) in keys.iter().enumerate() {
        let found = compare_cell(key, a[place].lent(), b[place].lent());
        if found.is_ne() {
            return found;
        }
    }
    Ordering::Equal
}

fn compare_at<T: Table>(keys: &[OrderKey], table: &T, row: u32, cells: &[Cell]) -> Ordering
    requires row_there { option_map (λ found. found.number) (row_from row (T.rows table.now)) ≡ Some row }
    requires cols_there { AreInColumns (T.columns table.now) keys.now }
    requires one_each { length cells.now ≡ length keys.now }
    ensures { (found : Row) → row_from row (T.rows table.now) ≡ Some found
        → result ≡ compare_keys keys.now (key_of keys.now found) cells.now }
{
    for (place, key) in keys.iter().enumerate() {
        let found = compare_cell(key, table.cell(row, key.col), cells[place].lent());
        if found.is_ne() {
            return found;
        }
    }
    Ordering::Equal
}

impl Order {
    /// The order by keys, the first first. It takes no memory.
    pub fn new(keys: Vec<OrderKey>) -> Order
        requires some { 0 < length keys.items }
        requires few { length keys.items ≤ MAX_KEYS }
        ensures { result ≡ keys.items }
    {
        Order { keys }
    }

    /// The keys, the first first: 1 to 8 of them.
    pub fn keys(&self) -> &[OrderKey]
        ensures value { result.now ≡ self.now }
        ensures some { 0 < length self.now }
        ensures few { length self.now ≤ MAX_KEYS }
    {
        self.keys.as_slice()
    }

    /// An equal order.
    pub fn copied(&self, alloc: Global) -> Mem<Order>
        ensures { IfOk result (λ order. order ≡ self.now) }
    {
        Ok(Order {
            keys: Vec::from_slice(alloc, self.keys.as_slice())?,
        })
    }

    /// How two keys of cells compare, each of one cell a key.
    pub fn compare(&self, a: &[Cell], b: &[Cell]) -> Ordering
        requires left { length a.now ≡ length self.now }
        requires right { length b.now ≡ length self.now }
        ensures { result ≡ compare_keys self.now a.now b.now }
    {
        compare_all(self.keys.as_slice(), a, b)
    }

    /// How a row that is there compares with a key of one cell a key. It copies nothing, and looks at no column after
    /// the first that tells the two apart.
    #[inline(always)]
    pub fn compare_row<T: Table>(&self, table: &T, row: u32, key: &[Cell]) -> Ordering
        requires row_there { option_map (λ found. found.number) (row_from row (T.rows table.now)) ≡ Some row }
        requires cols_there { AreInColumns (T.columns table.now) self.now }
        requires one_each { length key.now ≡ length self.now }
        ensures { (found : Row) → row_from row (T.rows table.now) ≡ Some found
            → result ≡ compare_keys self.now (key_of self.now found) key.now }
    {
        compare_at(self.keys.as_slice(), table, row, key)
    }
}

/// Two orders are equal where their keys are, in turn.
impl PartialEq for Order {
    ghost use Rattle.hv_value.specs.contracts.orders.Order as row;

    ghost eq = { same_by row.the_row.coded };

    ghost laws = { partial_equiv_from_equiv (same_by-equiv row.the_row.coded) };

    fn eq(&self, other: &Order) -> bool {
        are_same_keys(self.keys.as_slice(), other.keys.as_slice())
    }
}

fn are_same_keys(a: &[OrderKey], b: &[OrderKey]) -> bool
    ensures { IsTrue result ↔ (a.now ≡ b.now) }
{
    a == b
}

impl Eq for Order {
    ghost use Rattle.hv_value.specs.contracts.orders.Order as row;

    ghost laws = { same_by-equiv row.the_row.coded };
}

/// The same orders write the same into a hasher.
impl Hash for Order {
    ghost use Rattle.hv_value.specs.contracts.orders.Order as row;

    ghost hash_input = { order_writes };

    ghost respects_eq = { λ x y e. ap order_writes ((same_by-decides row.the_row.coded x y).0 e) };

    fn hash<H: Hasher>(&self, state: &mut H) {
        self.keys.as_slice().hash(state);
    }
}
