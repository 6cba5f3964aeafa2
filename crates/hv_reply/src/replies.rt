//! Replies as JSON, one small function a reply. The definition is `reply_data` (specs/Replies.antt).

ghost use Rattle.std.specs.Prelude.{◌≡◌, true, Some, None, map, codes, IfOk};
ghost use Rattle.serde_json.specs.Data.{boolean, object, member, no_members};
ghost use Rattle.serde_json.specs.View.{view};
ghost use Rattle.hv_reply.specs.declared.reply.Reply.TheVariants as reply;
ghost use Rattle.hv_reply.specs.Replies.{info_data, reply_data, why_word};
ghost use Rattle.hv_reply.specs.Values.{list_of, shown_data, whole};

use crate::Reply;
use crate::lineages::{columns_value, lineage_value};
use crate::values::{shown_value, whole_or_null};
use hv_lineage::Lineage;
use hv_member::PartSet;
use hv_message::Why;
use hv_value::Mem;
use hv_view::Shown;
use serde_json::{Value, json};
use std::alloc::{AllocError, Global};

fn why_word(why: Why) -> &'static str
    ensures { result.now ≡ why_word why }
{
    match why {
        Why::Size => "size",
        Why::Json => "json",
        Why::Id => "id",
        Why::Ended => "ended",
        Why::Busy => "busy",
        Why::Op => "op",
        Why::Field => "field",
        Why::Limit => "limit",
        Why::Object => "object",
        Why::Request => "request",
        Why::Table => "table",
        Why::Schema => "schema",
        Why::Column => "column",
        Why::Kind => "kind",
        Why::Deep => "deep",
        Why::Buckets => "buckets",
        Why::Base => "base",
        Why::Clash => "clash",
        Why::Differs => "differs",
        Why::Depth => "depth",
        Why::Full => "full",
    }
}

/// A reply as JSON.
pub fn reply_value(alloc: Global, reply: &Reply) -> Mem<Value>
    ensures { IfOk result (λ value. view value ≡ reply_data reply.now) }
{
    match reply {
        Reply::Made { id, made, seed } => Ok(made_value(alloc, *id, *made, *seed)?),
        Reply::Info { id, of } => info_value(alloc, *id, of.get()),
        Reply::Final { id, parts, value } => final_value(alloc, *id, parts, value),
        Reply::Cancelled { id } => Ok(json!(in alloc; {"cancelled": true, "id": *id})?),
        Reply::Done { id } => Ok(json!(in alloc; {"done": true, "id": *id})?),
        Reply::Malformed { id, why } => Ok(malformed_value(alloc, *id, *why)?),
        Reply::NoMem { id } => Ok(no_mem_value(alloc, *id)?),
    }
}

fn made_value(alloc: Global, id: u64, made: u32, seed: Option<u64>) -> Result<Value, AllocError>
    ensures { IfOk result (λ value. view value ≡ reply_data (reply.Made id made seed)) }
{
    match seed {
        Some(seed) => json!(in alloc; {"id": id, "made": made, "seed": seed}),
        None => json!(in alloc; {"id": id, "made": made}),
    }
}

fn info_value(alloc: Global, id: u64, of: &Lineage) -> Mem<Value>
    ensures { IfOk result (λ value. view value ≡ info_data id of.now) }
{
    let cols = columns_value(alloc, of.schema())?;
    let lineage = lineage_value(alloc, of)?;
    Ok(info_with(alloc, cols, of.depth(), id, lineage, of.size())?)
}

fn info_with(
    alloc: Global,
    cols: Value,
    depth: u32,
    id: u64,
    lineage: Value,
    size: u32,
) -> Result<Value, AllocError>
    ensures { IfOk result
        (λ value. view value ≡ object (member (codes "cols") (view cols)
        (member (codes "depth") (whole depth)
        (member (codes "id") (whole id)
        (member (codes "lineage") (view lineage)
        (member (codes "size") (whole size) no_members)))))) }
{
    json!(in alloc; {"cols": cols, "depth": depth, "id": id, "lineage": lineage, "size": size})
}

/// The numbers of the partitions, rising.
fn parts_value(alloc: Global, parts: &PartSet) -> Mem<Value>
    ensures { IfOk result (λ value. view value ≡ list_of (map whole parts.now.parts)) }
{
    let mut numbers = Vec::with_capacity(alloc, parts.count() as usize)?;
    let mut from = 0;
    while let Some(part) = parts.next(from) {
        numbers.push(Value::from(part))?;
        from = part + 1;
    }
    Ok(Value::Array(numbers))
}

fn final_value(alloc: Global, id: u64, parts: &PartSet, shown: &Shown) -> Mem<Value>
    ensures { IfOk result (λ value. view value ≡ reply_data (reply.Final id parts.now shown.now)) }
{
    let parts = parts_value(alloc, parts)?;
    let value = shown_value(alloc, shown)?;
    Ok(last_value(alloc, id, parts, value)?)
}

fn last_value(alloc: Global, id: u64, parts: Value, value: Value) -> Result<Value, AllocError>
    ensures { IfOk result
        (λ said. view said ≡ object (member (codes "id") (whole id)
        (member (codes "last") (boolean true)
        (member (codes "parts") (view parts)
        (member (codes "value") (view value) no_members))))) }
{
    json!(in alloc; {"id": id, "last": true, "parts": parts, "value": value})
}

fn malformed_value(alloc: Global, id: Option<u64>, why: Why) -> Result<Value, AllocError>
    ensures { IfOk result (λ value. view value ≡ reply_data (reply.Malformed id why)) }
{
    json!(in alloc; {"error": "malformed", "id": whole_or_null(id), "why": why_word(why)})
}

fn no_mem_value(alloc: Global, id: Option<u64>) -> Result<Value, AllocError>
    ensures { IfOk result (λ value. view value ≡ reply_data (reply.NoMem id)) }
{
    json!(in alloc; {"error": "nomem", "id": whole_or_null(id)})
}
