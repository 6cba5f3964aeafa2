//! Cells that a message gives as constants. What each means is said in specs/Constants.antt.

ghost use Rattle.std.specs.Prelude.{◌≡◌, true};
ghost use Rattle.serde_json.specs.View.{view};
ghost use Rattle.hv_value.specs.Days.{day_of_text};
ghost use Rattle.hv_asked.specs.Meant.{IsField};
ghost use Rattle.hv_asked.specs.Constants as constant;

use crate::asked::CellAsked;
use crate::fields::{field, integer_of, needed};
use crate::refused::Refused;
use crate::{MAX_CONSTANT_BYTES, Why};
use hv_value::{Cell, Kind, Text, day_of};
use serde_json::Value;
use std::alloc::Global;

/// Whether a constant text is within its limit.
pub fn is_short(text: &str) -> bool
    ensures { result ≡ constant.is_short text.now }
{
    text.len() <= MAX_CONSTANT_BYTES
}

/// A constant: null, a whole number of at most 64 bits or a text.
pub(crate) fn cell_in(alloc: Global, value: &Value) -> Result<CellAsked, Refused>
    ensures { IsField result (constant.cell_in (view value.now)) }
{
    match value {
        Value::Null => Ok(CellAsked::Missing),
        Value::Number(number) => Ok(CellAsked::Number(needed(integer_of(number))?)),
        Value::String(text) => Ok(CellAsked::Text(Text::of(alloc, text.as_str())?)),
        Value::Bool(_) | Value::Array(_) | Value::Object(_) => Err(Refused::Word(Why::Field)),
    }
}

/// The constant of a field.
pub(crate) fn cell(alloc: Global, value: &Value, key: &str) -> Result<CellAsked, Refused>
    ensures { IsField result (constant.cell_at key.now (view value.now)) }
{
    cell_in(alloc, field(value, key)?)
}

/// A constant beside a column of a kind, none where there is no such column: a text that names a day is that day
/// beside a column of dates.
pub(crate) fn cell_beside(kind: Option<Kind>, cell: CellAsked) -> Cell
    requires { constant.fits_cell cell ≡ true }
    ensures { result ≡ constant.cell_beside kind cell }
{
    match cell {
        CellAsked::Missing => Cell::Missing,
        CellAsked::Number(n) => Cell::Int(n as i64),
        CellAsked::Text(text) => text_beside(kind, text),
    }
}

fn text_beside(kind: Option<Kind>, text: Text) -> Cell
    ensures { result ≡ constant.text_beside kind text }
{
    match kind {
        Some(Kind::Date) => day_or_text(text),
        _ => Cell::Text(text),
    }
}

fn day_or_text(text: Text) -> Cell
    ensures { result ≡ constant.day_or_text text (day_of_text text) }
{
    match day_of(text.as_str().as_bytes()) {
        Some(day) => Cell::Date(day),
        None => Cell::Text(text),
    }
}
