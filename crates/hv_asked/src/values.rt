//! Values that a message gives to be counted: what is asked for, their limits, and what they mean beside a column. The
//! definitions are in specs/Values.antt.

ghost use Rattle.std.specs.Prelude.{◌≡◌, true};
ghost use Rattle.std.specs.List.{list_all};
ghost use Rattle.serde_json.specs.View.{view};
ghost use Rattle.hv_asked.specs.Constants.{fits_cell};
ghost use Rattle.hv_asked.specs.Flaws.{all_meant};
ghost use Rattle.hv_asked.specs.Meant.{IsField, Tells};
ghost use Rattle.hv_asked.specs.Values as values;

use crate::asked::CellAsked;
use crate::constants::cell_beside;
use crate::fields::{all_items, list};
use crate::orders::fit_cells;
use crate::refused::Refused;
use crate::{MAX_COUNTED, Why};
use hv_value::{Cell, Kind, Listed};
use serde_json::Value;
use std::alloc::Global;

/// The cells of a field that is a list. `Why::Field` where it is absent or has another shape, or memory is refused.
pub fn values_at(alloc: Global, value: &Value, key: &str) -> Result<Listed<CellAsked>, Refused>
    ensures { IsField result (values.values_at key.now (view value.now)) }
{
    all_items(alloc, list(value, key)?)
}

/// Whether there are at most 1,000 of them, each within the limits of constants.
pub fn fit_values(cells: &[CellAsked]) -> bool
    ensures { result ≡ values.fit_values cells.now }
{
    cells.len() <= MAX_COUNTED && fit_cells(cells)
}

/// The values beside a column of a kind, in turn. `Why::Kind` where one is missing or of another kind, or memory is
/// refused.
pub fn values_beside(
    alloc: Global,
    kind: Kind,
    asked: &[CellAsked],
) -> Result<Listed<Cell>, Refused>
    requires { list_all fits_cell asked.now ≡ true }
    ensures { Tells result (all_meant (values.value_beside kind) asked.now) }
{
    let mut found = Listed::new(alloc);
    let mut rest = asked;
    while let [first, after @ ..] = rest {
        found.push(value_beside(alloc, kind, first)?)?;
        rest = after;
    }
    Ok(found)
}

/// A value beside a column of a kind. Its text is copied.
fn value_beside(alloc: Global, kind: Kind, asked: &CellAsked) -> Result<Cell, Refused>
    requires { fits_cell asked.now ≡ true }
    ensures { Tells result (values.value_beside kind asked.now) }
{
    let cell = cell_beside(Some(kind), asked.copy(alloc)?);
    if is_value_of(kind, &cell) {
        Ok(cell)
    } else {
        Err(Refused::Word(Why::Kind))
    }
}

/// Whether a cell is a value of a kind, and not missing.
fn is_value_of(kind: Kind, cell: &Cell) -> bool
    ensures { result ≡ values.is_value_of kind cell.now }
{
    matches!(
        (kind, cell),
        (Kind::Int, Cell::Int(_)) | (Kind::Date, Cell::Date(_)) | (Kind::Text, Cell::Text(_))
    )
}
