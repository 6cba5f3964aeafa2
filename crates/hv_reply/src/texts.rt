//! Writes replies and lineages as texts: compact JSON, as the crate serde_json prints it. The definitions are
//! `reply_text` (specs/Replies.antt) and `lineage_text` (specs/Lineages.antt).

ghost use Rattle.std.specs.Prelude.{◌≡◌, ◌++◌, IfOk, OnOk, OnErr};
ghost use Rattle.hv_reply.specs.Lineages.{lineage_text};
ghost use Rattle.hv_reply.specs.Replies.{reply_text};

use crate::Reply;
use crate::lineages::lineage_value;
use crate::replies::reply_value;
use hv_lineage::Lineage;
use hv_value::Mem;
use std::alloc::Global;

#[tactic(auto, using(crate::proofs::FloatLemmas::reply_without_float))]
fn reply_bytes(alloc: Global, reply: &Reply) -> Mem<Vec<u8>>
    ensures { IfOk result (λ bytes. bytes.items ≡ reply_text reply.now) }
{
    let value = reply_value(alloc, reply)?;
    Ok(value.to_vec(alloc)?)
}

/// Writes a reply's text at the end of `out`, which keeps what it held where memory is refused.
pub fn write_reply(alloc: Global, reply: &Reply, out: &mut Vec<u8>) -> Mem<()>
    ensures ok { OnOk result (out.new.items ≡ out.old.items ++ reply_text reply.now) }
    ensures err { OnErr result (out.new.items ≡ out.old.items) }
{
    let text = reply_bytes(alloc, reply)?;
    out.extend_from_slice(&text)?;
    Ok(())
}

#[tactic(auto, using(crate::proofs::FloatLemmas::lineage_without_float))]
fn lineage_bytes(alloc: Global, lineage: &Lineage) -> Mem<Vec<u8>>
    ensures { IfOk result (λ bytes. bytes.items ≡ lineage_text lineage.now) }
{
    let value = lineage_value(alloc, lineage)?;
    Ok(value.to_vec(alloc)?)
}

/// Writes a lineage's text at the end of `out`, which keeps what it held where memory is refused.
pub fn write_lineage(alloc: Global, lineage: &Lineage, out: &mut Vec<u8>) -> Mem<()>
    ensures ok { OnOk result (out.new.items ≡ out.old.items ++ lineage_text lineage.now) }
    ensures err { OnErr result (out.new.items ≡ out.old.items) }
{
    let text = lineage_bytes(alloc, lineage)?;
    out.extend_from_slice(&text)?;
    Ok(())
}
