//! Reads messages. What a text means is `reading` (specs/Messages.antt).

ghost use Rattle.std.specs.Prelude.{◌≡◌, option_and_then};
ghost use Rattle.serde_json.specs.View.{view};
ghost use Rattle.hv_message.specs.Meant.{IsAnswer, IsReading};
ghost use Rattle.hv_message.specs.Messages as means;

use crate::operations::operation;
use crate::{Message, Refusal, TalkState};
use hv_asked::fields::text_at;
use hv_asked::{MAX_ID, MAX_MESSAGE_BYTES, Refused, Why};
use serde_json::Value;
use std::alloc::Global;

/// The id that a value shows: a whole number from 0 to the greatest id.
pub fn id_in(value: &Value) -> Option<u64>
    ensures { result ≡ means.id_in (view value.now) }
{
    value
        .get("id")
        .and_then(Value::as_u64)
        .filter(|id| *id <= MAX_ID)
}

/// The checks common to all operations, after the id: the session goes on, the id is free.
fn checked(alloc: Global, state: &TalkState, id: u64, value: &Value) -> Result<Message, Refused>
    ensures { IsAnswer state.now id result (means.checked state.now id (view value.now)) }
{
    if state.has_ended() {
        return Err(Refused::Word(Why::Ended));
    }
    if state.is_open(id) {
        return Err(Refused::Word(Why::Busy));
    }
    match text_at(value, "op") {
        Some(op) => operation(alloc, state, id, value, op),
        None => Err(Refused::Word(Why::Op)),
    }
}

/// Reads a message that is given as the value of its text, which has at most 1,048,576 bytes.
#[tactic(auto, unfolding(crate::specs::Messages::reading_of_value))]
pub fn read_value(alloc: Global, value: &Value, state: &TalkState) -> Result<Message, Refusal>
    ensures { IsReading state.now result (option_and_then means.id_in (means.as_object_value (view value.now)))
        (means.reading_of_object state.now (means.as_object_value (view value.now))) }
{
    if !value.is_object() {
        return Err(Refusal::Malformed(Why::Json, None));
    }
    let Some(id) = id_in(value) else {
        return Err(Refusal::Malformed(Why::Id, None));
    };
    match checked(alloc, state, id, value) {
        Ok(message) => Ok(message),
        Err(Refused::Word(why)) => Err(Refusal::Malformed(why, Some(id))),
        Err(Refused::Memory) => Err(Refusal::Memory(Some(id))),
    }
}

/// Reads a message. Malformed: the first check that fails, in the order of the definition.
#[tactic(auto, unfolding(crate::specs::Messages::reading))]
pub fn read_message(alloc: Global, text: &str, state: &TalkState) -> Result<Message, Refusal>
    ensures { IsReading state.now result (means.id_of_text text.now)
        (means.reading state.now text.now) }
{
    if text.len() > MAX_MESSAGE_BYTES {
        return Err(Refusal::Malformed(Why::Size, None));
    }
    match Value::from_str(alloc, text) {
        Ok(value) => read_value(alloc, &value, state),
        Err(error) if error.is_memory() => Err(Refusal::Memory(None)),
        Err(_) => Err(Refusal::Malformed(Why::Json, None)),
    }
}
