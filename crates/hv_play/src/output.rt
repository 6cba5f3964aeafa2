//! Writing the lines of the output.

ghost use Rattle.std.specs.Prelude.{[], ◌∷◌, map, OnOk, OnErr};
ghost use Rattle.std.specs.Io.KnownBytes.{Appends};
ghost use Rattle.hv_outer.specs.Causes.{HasCause};
ghost use Rattle.hv_outer.specs.Turns.{AppendsFront};
ghost use Rattle.hv_session.specs.Held.{replies_of};
ghost use Rattle.hv_play.specs.Run.{out};
ghost use Rattle.hv_play.specs.Steps.{entries_by};
ghost use Rattle.hv_play.specs.Texts.{entries_text};

use crate::entry::{Entry, LineAnswer, What};
use crate::texts::entry_line;
use hv_outer::{IoErr, Sink, put_all};
use hv_reply::Reply;
use hv_session::Answer;
use std::alloc::Global;

/// Writes an output line.
fn write_entry<O: Sink>(alloc: Global, number: u64, what: What, sink: &mut O) -> Result<(), IoErr>
    ensures ok { OnOk result (Appends (O.taken sink.old) (O.taken sink.new)
        (entries_text (record { line = number; what = what } ∷ []))) }
    ensures err { OnErr result (AppendsFront (O.taken sink.old) (O.taken sink.new)
        (entries_text (record { line = number; what = what } ∷ []))) }
    ensures cause { HasCause (O.faults sink.old) (O.faults sink.new) result }
{
    let entry = Entry { line: number, what };
    match entry_line(alloc, &entry) {
        Ok(line) => put_all(sink, line.as_bytes()),
        Err(_) => Err(IoErr::Memory),
    }
}

/// Writes the output line in which a session, by its number, replies.
pub(crate) fn write_reply<O: Sink>(
    alloc: Global,
    number: u64,
    s: u32,
    reply: Reply,
    sink: &mut O,
) -> Result<(), IoErr>
    ensures ok { OnOk result (Appends (O.taken sink.old) (O.taken sink.new)
        (entries_text (out number s reply ∷ []))) }
    ensures err { OnErr result (AppendsFront (O.taken sink.old) (O.taken sink.new)
        (entries_text (out number s reply ∷ []))) }
    ensures cause { HasCause (O.faults sink.old) (O.faults sink.new) result }
{
    write_entry(alloc, number, What::Out(s, reply), sink)
}

/// Writes the output lines in which a session, by its number, replies.
fn write_replies<O: Sink>(
    alloc: Global,
    number: u64,
    s: u32,
    answer: Answer,
    sink: &mut O,
) -> Result<(), IoErr>
    ensures ok { OnOk result (Appends (O.taken sink.old) (O.taken sink.new)
        (entries_text (map (out number s) (replies_of answer)))) }
    ensures err { OnErr result (AppendsFront (O.taken sink.old) (O.taken sink.new)
        (entries_text (map (out number s) (replies_of answer)))) }
    ensures cause { HasCause (O.faults sink.old) (O.faults sink.new) result }
{
    match answer {
        Answer::Nothing => Ok(()),
        Answer::One(reply) => write_reply(alloc, number, s, reply, sink),
        Answer::Two(reply, later) => {
            write_reply(alloc, number, s, reply, sink)?;
            write_reply(alloc, number, s, later, sink)
        }
    }
}

/// Writes the output lines of a script line.
pub(crate) fn write_answer<O: Sink>(
    alloc: Global,
    number: u64,
    answer: LineAnswer,
    sink: &mut O,
) -> Result<(), IoErr>
    ensures ok { OnOk result (Appends (O.taken sink.old) (O.taken sink.new)
        (entries_text (entries_by number answer))) }
    ensures err { OnErr result (AppendsFront (O.taken sink.old) (O.taken sink.new)
        (entries_text (entries_by number answer))) }
    ensures cause { HasCause (O.faults sink.old) (O.faults sink.new) result }
{
    match answer {
        LineAnswer::Nothing => Ok(()),
        LineAnswer::Bad(why) => write_entry(alloc, number, What::Bad(why), sink),
        LineAnswer::Said(s, answer) => write_replies(alloc, number, s, answer, sink),
    }
}
