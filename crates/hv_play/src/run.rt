//! Doing a script's lines in order, and then the drain.

ghost use Rattle.std.specs.Prelude.{◌≡◌, ◌≤◌, ◌<◌, ◌^◌, ◌+◌, [], ◌∷◌, length, replicate, false, Some, IfOk, OnOk, OnErr};
ghost use Rattle.serde_json.specs.Data.{depth};
ghost use Rattle.serde_json.specs.Read.{max_depth};
ghost use Rattle.serde_json.specs.View.{view};
ghost use Rattle.serde_json.specs.Written.{compact_text, has_float};
ghost use Rattle.hv_outer.specs.Causes.{HasCause};
ghost use Rattle.hv_pick.specs.Word.{word_of};
ghost use Rattle.hv_session.specs.Held.{replies_of};
ghost use Rattle.hv_session.specs.Talk.{Replies, new_talk};
ghost use Rattle.hv_play.specs.Run.{Setting, whole, early, script, drain, ticking, duties_of, round, is_anything_open, Suits};
ghost use Rattle.hv_play.specs.Script.{line_of, line_of_value, script_lines};
ghost use Rattle.hv_play.specs.Steps.{at, entries_by, Shows, OneCloses, DoneSoFar, CutShort, Wrote};

use crate::entry::{BadLine, LineAnswer};
use crate::fields::text_at;
use crate::lines::{SESSIONS, message_in_line, read_value, session_in, split_line, why_bad};
use crate::output::{write_answer, write_reply};
use crate::session::ScriptSession;
use hv_outer::{IoErr, Sink};
use hv_session::Answer;
use hv_value::{Catalog, Mem};
use serde_json::Value;
use std::alloc::Global;
use std::sync::Arc;

/// The session with a number hears a message's compact text.
fn hear_message(alloc: Global, session: &mut ScriptSession, number: u32, message: &Value) -> Answer
    requires exact { has_float (view message.now) ≡ false }
    requires nests { depth (view message.now) ≤ max_depth }
    ensures { Replies [] (word_of 0 number) session.old (compact_text (view message.now))
        (replies_of result) session.new }
{
    match message.to_string(alloc) {
        Ok(text) => session.hear_value(alloc, number, text.as_str(), message),
        Err(_) => session.refuse(),
    }
}

/// Does a line that has a value.
fn do_value(alloc: Global, sessions: &mut [ScriptSession], value: &Value) -> LineAnswer
    requires all { length sessions.now ≡ 16 }
    requires nests { depth (view value.now) ≤ max_depth }
    ensures { (g : Setting) (k : _) → Suits g (length sessions.old)
        → Shows g (duties_of k (line_of_value (Some (view value.now))))
        (at sessions.old) (entries_by k result) (at sessions.new) }
{
    let Some(s) = session_in(value) else {
        return LineAnswer::Bad(why_bad(value));
    };
    let session = &mut sessions[s as usize];
    if let Some(message) = message_in_line(value) {
        return LineAnswer::Said(s as u32, hear_message(alloc, session, s as u32, message));
    }
    match text_at(value, "raw") {
        Some(text) => LineAnswer::Said(s as u32, session.hear(alloc, s as u32, text)),
        None => LineAnswer::Bad(why_bad(value)),
    }
}

/// Does a line, and gives what is said of it at once.
fn do_line(alloc: Global, sessions: &mut [ScriptSession], line: &[u8]) -> Mem<LineAnswer>
    requires { length sessions.now ≡ 16 }
    ensures { IfOk result (λ answer. (g : Setting) (k : _) → Suits g (length sessions.old)
        → Shows g (duties_of k (line_of line.now))
        (at sessions.old) (entries_by k answer) (at sessions.new)) }
{
    if line.is_empty() {
        return Ok(LineAnswer::Nothing);
    }
    match read_value(alloc, line)? {
        Some(value) => Ok(do_value(alloc, sessions, &value)),
        None => Ok(LineAnswer::Bad(BadLine::Json)),
    }
}

/// Does the first line of bytes, whatever it is, and gives the bytes after it.
fn do_first<'a, O: Sink>(
    alloc: Global,
    number: u64,
    sessions: &mut [ScriptSession],
    rest: &'a [u8],
    out: &mut O,
) -> Result<&'a [u8], IoErr>
    requires some { 0 < length rest.now }
    requires all { length sessions.now ≡ 16 }
    ensures ok { IfOk result (λ after. (g : Setting) → Suits g (length sessions.old)
        → DoneSoFar g (script number (script_lines rest.now) ∷ []) (at sessions.old)
        (script (number + 1) (script_lines after.now) ∷ []) (at sessions.new)
        (O.taken out.old) (O.taken out.new)) }
    ensures shorter { IfOk result (λ after. length after.now < length rest.now) }
    ensures err { OnErr result ((g : Setting) → Suits g (length sessions.old)
        → CutShort g (script number (script_lines rest.now) ∷ []) (at sessions.old)
        (O.taken out.old) (O.taken out.new)) }
    ensures cause { HasCause (O.faults out.old) (O.faults out.new) result }
{
    let (line, after) = split_line(rest);
    let answer = match do_line(alloc, sessions, line) {
        Ok(answer) => answer,
        Err(_) => return Err(IoErr::Memory),
    };
    write_answer(alloc, number, answer, out)?;
    Ok(after)
}

/// Does the first line of bytes, and gives the bytes after it. A script may be millions of empty lines, which show
/// nothing.
fn do_next<'a, O: Sink>(
    alloc: Global,
    number: u64,
    sessions: &mut [ScriptSession],
    rest: &'a [u8],
    out: &mut O,
) -> Result<&'a [u8], IoErr>
    requires some { 0 < length rest.now }
    requires all { length sessions.now ≡ 16 }
    ensures ok { IfOk result (λ after. (g : Setting) → Suits g (length sessions.old)
        → DoneSoFar g (script number (script_lines rest.now) ∷ []) (at sessions.old)
        (script (number + 1) (script_lines after.now) ∷ []) (at sessions.new)
        (O.taken out.old) (O.taken out.new)) }
    ensures shorter { IfOk result (λ after. length after.now < length rest.now) }
    ensures err { OnErr result ((g : Setting) → Suits g (length sessions.old)
        → CutShort g (script number (script_lines rest.now) ∷ []) (at sessions.old)
        (O.taken out.old) (O.taken out.new)) }
    ensures cause { HasCause (O.faults out.old) (O.faults out.new) result }
{
    if rest[0] == b'\n' {
        return Ok(&rest[1..]);
    }
    do_first(alloc, number, sessions, rest, out)
}

/// Does the lines of a script, and gives the number of the drain's lines: one more than there are.
fn do_lines<O: Sink>(
    alloc: Global,
    bytes: &[u8],
    sessions: &mut [ScriptSession],
    out: &mut O,
) -> Result<u64, IoErr>
    requires few { length bytes.now < 2 ^ 40 }
    requires all { length sessions.now ≡ 16 }
    ensures ok { IfOk result (λ number. (g : Setting) → Suits g (length sessions.old)
        → DoneSoFar g (script 1 (script_lines bytes.now) ∷ []) (at sessions.old)
        (drain number ∷ []) (at sessions.new) (O.taken out.old) (O.taken out.new)) }
    ensures err { OnErr result ((g : Setting) → Suits g (length sessions.old)
        → CutShort g (script 1 (script_lines bytes.now) ∷ []) (at sessions.old)
        (O.taken out.old) (O.taken out.new)) }
    ensures cause { HasCause (O.faults out.old) (O.faults out.new) result }
{
    let mut rest = bytes;
    let mut number: u64 = 1;
    while !rest.is_empty() {
        rest = do_next(alloc, number, sessions, rest, out)?;
        number += 1;
    }
    Ok(number)
}

/// Answers the open requests of a session, by its number, in the order in which they were opened.
fn answer_all<O: Sink>(
    alloc: Global,
    number: u64,
    s: u64,
    sessions: &mut [ScriptSession],
    out: &mut O,
) -> Result<(), IoErr>
    requires within { s < 16 }
    requires all { length sessions.now ≡ 16 }
    ensures ok { OnOk result ((g : Setting) → DoneSoFar g (ticking number s ∷ [])
        (at sessions.old) [] (at sessions.new) (O.taken out.old) (O.taken out.new)) }
    ensures closes { OnOk result (OneCloses s (at sessions.old) (at sessions.new)) }
    ensures err { OnErr result ((g : Setting) → CutShort g (ticking number s ∷ [])
        (at sessions.old) (O.taken out.old) (O.taken out.new)) }
    ensures cause { HasCause (O.faults out.old) (O.faults out.new) result }
{
    while let Some(reply) = sessions[s as usize].answer_first(alloc) {
        write_reply(alloc, number, s as u32, reply, out)?;
    }
    Ok(())
}

/// A round of the drain: the open requests of each session in order are answered.
fn do_round<O: Sink>(
    alloc: Global,
    number: u64,
    sessions: &mut [ScriptSession],
    out: &mut O,
) -> Result<(), IoErr>
    requires { length sessions.now ≡ 16 }
    ensures ok { OnOk result ((g : Setting) → Suits g (length sessions.old)
        → DoneSoFar g (round g number) (at sessions.old) [] (at sessions.new)
        (O.taken out.old) (O.taken out.new)) }
    ensures closed { OnOk result (is_anything_open (at sessions.new) ≡ false) }
    ensures err { OnErr result ((g : Setting) → Suits g (length sessions.old)
        → CutShort g (round g number) (at sessions.old) (O.taken out.old) (O.taken out.new)) }
    ensures cause { HasCause (O.faults out.old) (O.faults out.new) result }
{
    for s in 0..SESSIONS {
        answer_all(alloc, number, s, sessions, out)?;
    }
    Ok(())
}

fn is_any_waiting(sessions: &[ScriptSession]) -> bool
    ensures { result ≡ is_anything_open (at sessions.now) }
{
    sessions.iter().any(|session| session.is_waiting())
}

/// The drain. One round is enough, since it answers every open request.
fn do_drain<O: Sink>(
    alloc: Global,
    number: u64,
    sessions: &mut [ScriptSession],
    out: &mut O,
) -> Result<(), IoErr>
    requires { length sessions.now ≡ 16 }
    ensures ok { OnOk result ((g : Setting) → Suits g (length sessions.old)
        → DoneSoFar g (drain number ∷ []) (at sessions.old) [] (at sessions.new)
        (O.taken out.old) (O.taken out.new)) }
    ensures err { OnErr result ((g : Setting) → Suits g (length sessions.old)
        → CutShort g (drain number ∷ []) (at sessions.old) (O.taken out.old) (O.taken out.new)) }
    ensures cause { HasCause (O.faults out.old) (O.faults out.new) result }
{
    if is_any_waiting(sessions) {
        do_round(alloc, number, sessions, out)?;
    }
    Ok(())
}

/// The sessions of a script, which have heard nothing.
fn new_sessions(alloc: Global) -> Mem<Vec<ScriptSession>>
    ensures { IfOk result (λ sessions. sessions.items ≡ replicate 16 new_talk) }
{
    let catalog = Arc::new(alloc, Catalog::new(Vec::new(alloc)))?;
    let mut sessions = Vec::new(alloc);
    for _s in 0..SESSIONS {
        sessions.push(ScriptSession::new(alloc, catalog.clone()?)?)?;
    }
    Ok(sessions)
}

/// Does a script: its lines in order, and then the drain.
pub(crate) fn run<O: Sink>(alloc: Global, bytes: &[u8], out: &mut O) -> Result<(), IoErr>
    requires { length bytes.now < 2 ^ 40 }
    ensures done { OnOk result ((g : Setting) → Suits g 16
        → Wrote g whole bytes.now (O.taken out.old) (O.taken out.new)) }
    ensures cut { OnErr result ((g : Setting) → Suits g 16
        → Wrote g early bytes.now (O.taken out.old) (O.taken out.new)) }
    ensures cause { HasCause (O.faults out.old) (O.faults out.new) result }
{
    let mut sessions = match new_sessions(alloc) {
        Ok(sessions) => sessions,
        Err(_) => return Err(IoErr::Memory),
    };
    let all = sessions.as_mut_slice();
    let number = do_lines(alloc, bytes, all, out)?;
    do_drain(alloc, number, all, out)
}
