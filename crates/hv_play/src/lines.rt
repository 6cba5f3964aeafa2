//! The lines of a script: where each ends, and what it asks for.

ghost use Rattle.std.specs.Prelude.{◌≡◌, ◌<◌, ◌≤◌, [], ◌∷◌, length, false, Some, IfOk, IfSome, option_map, IsTrue, true};
ghost use Rattle.serde_json.specs.Data.{depth};
ghost use Rattle.serde_json.specs.Read.{max_depth};
ghost use Rattle.serde_json.specs.View.{view};
ghost use Rattle.serde_json.specs.Written.{has_float};
ghost use Rattle.hv_play.specs.Script as line;
ghost use Rattle.hv_play.specs.Script.{script_lines, value_of_line};

use crate::entry::BadLine;
use crate::fields::whole_at;
use crate::floats::holds_float;
use hv_value::{Mem, Memory};
use memchr::memchr;
use serde_json::Value;
use std::alloc::Global;

/// How many sessions a script has, numbered from 0.
pub const SESSIONS: u64 = 16;

/// The first line of bytes, without its newline, and the bytes after it.
pub(crate) fn split_line(rest: &[u8]) -> (&[u8], &[u8])
    requires { 0 < length rest.now }
    ensures lines { script_lines rest.now ≡ result.0.now ∷ script_lines result.1.now }
    ensures shorter { length result.1.now < length rest.now }
{
    match memchr(b'\n', rest) {
        Some(end) => (&rest[..end], &rest[end + 1..]),
        None => (rest, &[]),
    }
}

/// The value of a line's bytes, where they are JSON.
pub(crate) fn read_value(alloc: Global, line: &[u8]) -> Mem<Option<Value>>
    ensures value { IfOk result (λ found. option_map view found ≡ value_of_line line.now) }
    ensures nests { IfOk result (λ found. IfSome found (λ value. depth (view value) ≤ max_depth)) }
{
    match Value::from_slice(alloc, line) {
        Ok(value) => Ok(Some(value)),
        Err(error) => {
            if error.is_memory() {
                Err(Memory)
            } else {
                Ok(None)
            }
        }
    }
}

/// The session that a line names, where it is there.
pub(crate) fn session_in(value: &Value) -> Option<u64>
    ensures session { result ≡ line.session_in (view value.now) }
    ensures within { IfSome result (λ s. s < 16) }
{
    whole_at(value, "s").filter(|s| *s < SESSIONS)
}

/// The message that a line brings, where it brings one.
pub(crate) fn message_in_line(value: &Value) -> Option<&Value>
    ensures message { option_map (λ message. view message.now) result
        ≡ line.message_in_line (view value.now) }
    ensures exact { IfSome result (λ message. has_float (view message.now) ≡ false) }
    ensures nests { IfSome result (λ message. depth (view message.now) ≤ depth (view value.now)) }
{
    let message = value.get("msg")?;
    if message.is_object() && !holds_float(message) {
        Some(message)
    } else {
        None
    }
}

/// Whether the value under a key is a whole number of 64 bits that is no session's.
fn outside_at(value: &Value, key: &str) -> bool
    ensures { result ≡ line.outside_at key.now (view value.now) }
{
    match value.get(key).and_then(Value::as_number) {
        Some(number) => match number.as_u64() {
            Some(n) => n >= SESSIONS,
            None => number.is_i64(),
        },
        None => false,
    }
}

/// Why a value of no form is a bad line.
pub(crate) fn why_bad(value: &Value) -> BadLine
    ensures { result ≡ line.why_bad (view value.now) }
{
    if !value.is_object() {
        BadLine::Json
    } else if outside_at(value, "s") || outside_at(value, "poll") {
        BadLine::Session
    } else {
        BadLine::Line
    }
}
