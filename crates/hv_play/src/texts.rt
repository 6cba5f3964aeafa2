//! The texts of output lines: each as a JSON value, which serde_json prints. The definition is `entry_text` of
//! specs/Texts.antt.

ghost use Rattle.std.specs.Prelude.{◌≡◌, codes, string_bytes, IfOk};
ghost use Rattle.serde_json.specs.Data.{object, member, no_members};
ghost use Rattle.serde_json.specs.View.{view};
ghost use Rattle.serde_json.specs.Written.{compact_text};
ghost use Rattle.hv_reply.specs.Values.{whole};
ghost use Rattle.hv_play.specs.Texts as text;
ghost use Rattle.hv_play.specs.declared.entry.What.TheVariants as what;

use crate::entry::{BadLine, Entry, What};
use hv_reply::{Reply, reply_value};
use hv_value::Mem;
use serde_json::{Value, json};
use std::alloc::{AllocError, Global};

/// An output line with its newline.
#[tactic(auto, unfolding(crate::specs::Texts::entry_text))]
pub(crate) fn entry_line(alloc: Global, entry: &Entry) -> Mem<String>
    ensures { IfOk result (λ line. string_bytes line ≡ text.entry_text entry.now) }
{
    let mut line = compact_line(alloc, entry.line, &entry.what)?;
    line.push('\n')?;
    Ok(line)
}

#[tactic(auto, using(crate::proofs::TextLemmas::line_without_float))]
fn compact_line(alloc: Global, line: u64, said: &What) -> Mem<String>
    ensures { IfOk result
        (λ found. string_bytes found ≡ compact_text (text.line_data line said.now)) }
{
    let value = line_value(alloc, line, said)?;
    Ok(value.to_string(alloc)?)
}

fn line_value(alloc: Global, line: u64, said: &What) -> Mem<Value>
    ensures { IfOk result (λ value. view value ≡ text.line_data line said.now) }
{
    match said {
        What::Out(session, reply) => out_value(alloc, line, *session, reply),
        What::Bad(bad) => bad_value(alloc, line, *bad),
    }
}

fn out_value(alloc: Global, line: u64, session: u32, reply: &Reply) -> Mem<Value>
    ensures { IfOk result
        (λ value. view value ≡ text.line_data line (what.Out session reply.now)) }
{
    let said = reply_value(alloc, reply)?;
    Ok(out_line(alloc, line, session, said)?)
}

fn out_line(alloc: Global, line: u64, session: u32, said: Value) -> Result<Value, AllocError>
    ensures { IfOk result (λ value. view value
        ≡ object (member (codes "line") (whole line)
        (member (codes "out") (view said)
        (member (codes "s") (whole session) no_members)))) }
{
    json!(in alloc; {"line": line, "out": said, "s": session})
}

fn bad_value(alloc: Global, line: u64, bad: BadLine) -> Mem<Value>
    ensures { IfOk result (λ value. view value ≡ text.line_data line (what.Bad bad)) }
{
    Ok(json!(in alloc; {"bad": bad_word(bad), "line": line})?)
}

fn bad_word(bad: BadLine) -> &'static str
    ensures { result.now ≡ text.bad_word bad }
{
    match bad {
        BadLine::Json => "json",
        BadLine::Session => "session",
        BadLine::Line => "line",
    }
}
