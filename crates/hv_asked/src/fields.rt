//! The fields of JSON values. What each means is said in specs/Fields.antt.

ghost use Rattle.std.specs.Prelude.{◌≡◌, ◌++◌, true, Option, option_map, IfOk, IfSome};
ghost use Rattle.serde_json.specs.Data.{Data};
ghost use Rattle.serde_json.specs.Find.{as_integer, get};
ghost use Rattle.serde_json.specs.View.{view, items_view, number_view};
ghost use Rattle.hv_expr.specs.Checks.{is_fit_factor};
ghost use Rattle.hv_asked.specs.Fields as field;
ghost use Rattle.hv_asked.specs.Fields.{all_read};
ghost use Rattle.hv_asked.specs.Flaws.{map_ok};
ghost use Rattle.hv_asked.specs.Meant.{IsField, needed};

use crate::Why;
use crate::refused::Refused;
use hv_value::{Listed, Text};
use serde_json::{Number, Value};
use std::alloc::Global;

/// The whole number of at most 64 bits under a key, -2^63 to 2^64 - 1.
pub(crate) fn integer_at(value: &Value, key: &str) -> Option<i128>
    ensures value { result ≡ field.integer_at key.now (view value.now) }
    ensures fit { IfSome result (λ n. is_fit_factor n ≡ true) }
{
    integer_of(value.get(key)?.as_number()?)
}

/// The whole number of at most 64 bits that a number is.
pub(crate) fn integer_of(number: &Number) -> Option<i128>
    ensures value { result ≡ as_integer (number_view number.now) }
    ensures fit { IfSome result (λ n. is_fit_factor n ≡ true) }
{
    match number.as_u64() {
        Some(n) => Some(i128::from(n)),
        None => number.as_i64().map(i128::from),
    }
}

/// The text under a key, none where there is none or a value of another shape.
pub fn text_at<'a>(value: &'a Value, key: &str) -> Option<&'a str>
    ensures { option_map (λ text. text.now) result ≡ field.text_at key.now (view value.now) }
{
    value.get(key)?.as_str()
}

pub(crate) fn bool_at(value: &Value, key: &str) -> Option<bool>
    ensures { result ≡ field.bool_at key.now (view value.now) }
{
    value.get(key)?.as_bool()
}

/// The list under a key.
pub(crate) fn list_at<'a>(value: &'a Value, key: &str) -> Option<&'a [Value]>
    ensures { option_map (λ list. items_view list.now) result
        ≡ field.list_at key.now (view value.now) }
{
    value.get(key).and_then(Value::as_array).map(Vec::as_slice)
}

/// What has to be there in the shape that is asked for.
pub(crate) fn needed<T>(found: Option<T>) -> Result<T, Refused>
    ensures { result ≡ needed found }
{
    match found {
        Some(found) => Ok(found),
        None => Err(Refused::Word(Why::Field)),
    }
}

/// The value of a field that has to be there. `Why::Field` where it is absent.
pub fn field<'a>(value: &'a Value, key: &str) -> Result<&'a Value, Refused>
    ensures { IsField (map_ok (λ found. view found.now) result) (get key.now (view value.now)) }
{
    needed(value.get(key))
}

/// The whole number of at most 64 bits of a field, -2^63 to 2^64 - 1. `Why::Field` where it is absent or no such
/// number.
pub fn number(value: &Value, key: &str) -> Result<i128, Refused>
    ensures value { IsField result (field.integer_at key.now (view value.now)) }
    ensures fit { IfOk result (λ n. is_fit_factor n ≡ true) }
{
    needed(integer_at(value, key))
}

/// The whole number of at most 64 bits that a value is.
fn integer_in(value: &Value) -> Option<i128>
    ensures value { result ≡ field.integer_in (view value.now) }
    ensures fit { IfSome result (λ n. is_fit_factor n ≡ true) }
{
    integer_of(value.as_number()?)
}

/// The whole number of at most 64 bits of a field that may be absent, none where it is. `Why::Field` where there is
/// another value, null too.
pub fn number_if_there(value: &Value, key: &str) -> Result<Option<i128>, Refused>
    ensures { IsField result (field.integer_if_there key.now (view value.now)) }
{
    match value.get(key) {
        Some(found) => Ok(Some(needed(integer_in(found))?)),
        None => Ok(None),
    }
}

/// The word of a field. `Why::Field` where it is absent or no text.
pub fn word<'a>(value: &'a Value, key: &str) -> Result<&'a str, Refused>
    ensures { IsField (map_ok (λ text. text.now) result) (field.text_at key.now (view value.now)) }
{
    needed(text_at(value, key))
}

/// The items of a field that is a list.
pub(crate) fn list<'a>(value: &'a Value, key: &str) -> Result<&'a [Value], Refused>
    ensures { IsField (map_ok (λ list. items_view list.now) result)
        (field.list_at key.now (view value.now)) }
{
    needed(list_at(value, key))
}

/// The name, in memory of its own, of a field. `Why::Field` where it is absent or no text, or memory is refused.
pub fn name(alloc: Global, value: &Value, key: &str) -> Result<Text, Refused>
    ensures { IsField result (field.text_at key.now (view value.now)) }
{
    Ok(Text::of(alloc, word(value, key)?)?)
}

/// What may stand in a list of a message.
pub trait Item: Drop {
    // what a value is read as, none where it has another shape
    ghost read: { Data → Option Self };

    /// What a value is read as. `Why::Field` where it has another shape, or memory is refused.
    fn item(alloc: Global, value: &Value) -> Result<Self, Refused>
        ensures { IsField result (read (view value.now)) };
}

/// What each item of a list is read as, in turn. `Why::Field` where one has another shape, or memory is refused.
pub fn all_items<T: Item>(alloc: Global, items: &[Value]) -> Result<Listed<T>, Refused>
    ensures { IsField result (all_read T.read (items_view items.now)) }
{
    let mut found = Listed::new(alloc);
    let mut rest = items;
    while let [first, after @ ..] = rest {
        found.push(T::item(alloc, first)?)?;
        rest = after;
    }
    Ok(found)
}

impl Item for Text {
    ghost use Rattle.serde_json.specs.Find.{as_str};

    ghost read = { as_str };

    fn item(alloc: Global, value: &Value) -> Result<Text, Refused> {
        Ok(Text::of(alloc, needed(value.as_str())?)?)
    }
}

/// The names of a field that is a list of texts. `Why::Field` where it is absent or has another shape, or memory is
/// refused.
pub fn names(alloc: Global, value: &Value, key: &str) -> Result<Listed<Text>, Refused>
    ensures { IsField result (field.texts_at key.now (view value.now)) }
{
    all_items(alloc, list(value, key)?)
}

/// The two values of a list of just two.
pub(crate) fn pair(value: &Value) -> Result<(&Value, &Value), Refused>
    ensures { IsField (map_ok (λ pair. (view pair.0.now, view pair.1.now)) result)
        (field.pair_in (view value.now)) }
{
    pair_of(needed(value.as_array())?.as_slice())
}

fn pair_of(items: &[Value]) -> Result<(&Value, &Value), Refused>
    ensures { IsField (map_ok (λ pair. (view pair.0.now, view pair.1.now)) result)
        (field.pair_of_items (items_view items.now)) }
{
    let [first, after @ ..] = items else {
        return Err(Refused::Word(Why::Field));
    };
    let [second, more @ ..] = after else {
        return Err(Refused::Word(Why::Field));
    };
    if more.is_empty() {
        Ok((first, second))
    } else {
        Err(Refused::Word(Why::Field))
    }
}
