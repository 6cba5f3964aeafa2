//! Orders of rows that a message asks for, and a key in them: what is asked for, its limits, and what it means over
//! columns. The definitions are in specs/Orders.antt.

ghost use Rattle.std.specs.Prelude.{◌≡◌, ◌<◌, ◌++◌, true, codes, length, IfOk, OnOk};
ghost use Rattle.std.specs.List.{list_all};
ghost use Rattle.serde_json.specs.Find.{get};
ghost use Rattle.serde_json.specs.View.{view};
ghost use Rattle.hv_value.specs.Orders.{AreInColumns};
ghost use Rattle.hv_next.specs.Fits.{FitsNext};
ghost use Rattle.hv_asked.specs.Constants.{fits_cell};
ghost use Rattle.hv_asked.specs.Flaws.{all_meant};
ghost use Rattle.hv_asked.specs.Meant.{IsField, Tells};
ghost use Rattle.hv_asked.specs.Orders as order;

use crate::Why;
use crate::asked::CellAsked;
use crate::axes::column;
use crate::constants::{cell_beside, cell_in};
use crate::fields::{Item, all_items, list, needed, pair};
use crate::refused::Refused;
use crate::words::down_named;
use hv_next::fits_keys;
use hv_value::{Cell, Listed, MAX_KEYS, Mem, Order, OrderKey, Schema, Text};
use serde_json::Value;
use std::alloc::Global;

/// An order of rows and a key in it, before their columns are looked up.
#[derive(Drop)]
pub struct OrderAsked {
    /// The keys of the order, the first first.
    pub keys: Listed<KeyAsked>,
    /// The key above which rows are, of one cell for each key of the order; none for all rows.
    pub after: Option<Listed<CellAsked>>,
}

/// A column's name, before it is looked up, and whether its greater cells come first.
#[derive(Drop)]
pub struct KeyAsked {
    pub col: Text,
    pub down: bool,
}

impl Item for KeyAsked {
    ghost use Rattle.hv_asked.specs.Orders.{key_in};

    ghost read = { key_in };

    fn item(alloc: Global, value: &Value) -> Result<KeyAsked, Refused> {
        let (name, word) = pair(value)?;
        let name = needed(name.as_str())?;
        let down = needed(word.as_str().and_then(down_named))?;
        let col = Text::of(alloc, name)?;
        Ok(KeyAsked { col, down })
    }
}

impl Item for CellAsked {
    ghost use Rattle.hv_asked.specs.Constants.{cell_in};

    ghost read = { cell_in };

    fn item(alloc: Global, value: &Value) -> Result<CellAsked, Refused> {
        cell_in(alloc, value)
    }
}

/// So many cells of a list.
fn cells_in(alloc: Global, value: &Value, many: usize) -> Result<Listed<CellAsked>, Refused>
    ensures { IsField result (order.cells_in many (view value.now)) }
{
    let cells = all_items(alloc, needed(value.as_array())?.as_slice())?;
    if cells.as_slice().len() == many {
        Ok(cells)
    } else {
        Err(Refused::Word(Why::Field))
    }
}

/// The key above which rows are, of one cell for each of so many keys, where there is one.
fn after_in(alloc: Global, value: &Value, many: usize) -> Result<Option<Listed<CellAsked>>, Refused>
    ensures { IsField result (order.after_in many (get (codes "after") (view value.now))) }
{
    match value.get("after") {
        Some(after) => Ok(Some(cells_in(alloc, after, many)?)),
        None => Ok(None),
    }
}

/// The order under `order` and the key in it under `after`, where there is one. `Why::Field` where one has another shape,
/// or memory is refused.
pub fn order_in(alloc: Global, value: &Value) -> Result<OrderAsked, Refused>
    ensures { IsField result (order.order_in (view value.now)) }
{
    let keys = all_items(alloc, list(value, "order")?)?;
    let after = after_in(alloc, value, keys.as_slice().len())?;
    Ok(OrderAsked { keys, after })
}

/// The order under `order` alone: a key beside it isn't read. `Why::Field` where it is absent or has another shape, or
/// memory is refused.
pub fn order_alone_in(alloc: Global, value: &Value) -> Result<OrderAsked, Refused>
    ensures { IsField result (order.order_alone_in (view value.now)) }
{
    let keys = all_items(alloc, list(value, "order")?)?;
    Ok(OrderAsked { keys, after: None })
}

impl OrderAsked {
    /// Whether it has 1 to 8 keys and its constants are within their limits.
    pub fn fits(&self) -> bool
        ensures { result ≡ order.fits_order self.now }
    {
        let keys = self.keys.as_slice().len();
        1 <= keys && keys <= MAX_KEYS && fits_after(&self.after)
    }
}

fn fits_after(after: &Option<Listed<CellAsked>>) -> bool
    ensures { result ≡ order.fits_after after.now }
{
    match after {
        Some(cells) => fit_cells(cells.as_slice()),
        None => true,
    }
}

/// Whether cells are within the limits of constants.
pub(crate) fn fit_cells(cells: &[CellAsked]) -> bool
    ensures { result ≡ list_all fits_cell cells.now }
{
    cells.iter().all(fits_one)
}

fn fits_one(cell: &CellAsked) -> bool
    ensures { result ≡ fits_cell cell.now }
{
    cell.fits()
}

/// The keys over the columns of a schema.
fn keys_over(
    alloc: Global,
    schema: &Schema,
    asked: &[KeyAsked],
) -> Result<Listed<OrderKey>, Refused>
    ensures value { Tells result (all_meant (order.key_named schema.now) asked.now) }
    ensures there { IfOk result (λ keys. AreInColumns schema.now keys) }
    ensures many { IfOk result (λ keys. length keys ≡ length asked.now) }
{
    let mut keys = Listed::new(alloc);
    let mut rest = asked;
    while let [first, after @ ..] = rest {
        let (col, _) = column(schema, &first.col)?;
        keys.push(OrderKey {
            col,
            down: first.down,
        })?;
        rest = after;
    }
    Ok(keys)
}

/// A cell beside the column of a key, which is there. Its text is copied.
#[tactic(auto, unfolding(crate::specs::Orders::beside))]
fn beside(alloc: Global, schema: &Schema, key: &OrderKey, cell: &CellAsked) -> Mem<Cell>
    requires there { key.now.col < length schema.now }
    requires fit { fits_cell cell.now ≡ true }
    ensures { IfOk result (λ found. found ≡ order.beside schema.now key.now cell.now) }
{
    let cell = cell.copy(alloc)?;
    Ok(cell_beside(Some(schema.kind(key.col)), cell))
}

/// Adds cells beside the columns of keys, in turn, as far as both go.
fn add_beside(
    alloc: Global,
    schema: &Schema,
    keys: &[OrderKey],
    cells: &[CellAsked],
    found: &mut Listed<Cell>,
) -> Mem<()>
    requires there { AreInColumns schema.now keys.now }
    requires fit { list_all fits_cell cells.now ≡ true }
    ensures { OnOk result
        (found.new ≡ found.old ++ order.beside_keys schema.now keys.now cells.now) }
{
    let [key, more_keys @ ..] = keys else {
        return Ok(());
    };
    let [cell, more_cells @ ..] = cells else {
        return Ok(());
    };
    found.push(beside(alloc, schema, key, cell)?)?;
    add_beside(alloc, schema, more_keys, more_cells, found)
}

/// Cells beside the columns of keys, one for each.
fn beside_keys(
    alloc: Global,
    schema: &Schema,
    keys: &[OrderKey],
    cells: &[CellAsked],
) -> Mem<Listed<Cell>>
    requires there { AreInColumns schema.now keys.now }
    requires fit { list_all fits_cell cells.now ≡ true }
    ensures { IfOk result (λ found. found ≡ order.beside_keys schema.now keys.now cells.now) }
{
    let mut found = Listed::new(alloc);
    add_beside(alloc, schema, keys, cells, &mut found)?;
    Ok(found)
}

/// The order over the columns of a schema, and the key in it, where there is one. `Why::Column` where a column isn't
/// there, else `Why::Kind` where a cell is of another kind than its column, or memory is refused.
pub fn order_over(
    alloc: Global,
    schema: &Schema,
    asked: OrderAsked,
) -> Result<(Order, Option<Listed<Cell>>), Refused>
    requires fits { order.fits_order asked ≡ true }
    ensures value { Tells result (order.order_over schema.now asked) }
    ensures fits { IfOk result (λ found. FitsNext found.0 found.1 schema.now) }
{
    let OrderAsked { keys, after } = asked;
    let keys = keys_over(alloc, schema, keys.as_slice())?;
    let after = match after {
        Some(cells) => Some(beside_keys(alloc, schema, keys.as_slice(), cells.as_slice())?),
        None => None,
    };
    let order = Order::new(keys.into_vec());
    if fits_keys(schema, &order, &after) {
        Ok((order, after))
    } else {
        Err(Refused::Word(Why::Kind))
    }
}
