//! The texts that no script reaches, and each public call once. The expected texts are written by hand from the rule:
//! compact JSON, keys in byte order. The scripts in the folder tests/ at the top tell the text of each other reply,
//! and of a lineage with each kind of node.

ghost use Rattle.std.specs.Prelude.{IfOk};
ghost use Rattle.std.specs.Arc.{arc_value};
ghost use Rattle.hv_value.specs.Catalog.{Tables};
ghost use Rattle.hv_reply.specs.ReadBack.{IsGiven};

use crate::laws::read_back;
use crate::values::shown_value;
use crate::{Reply, lineage_value, reply_value, write_lineage, write_reply};
use hv_lineage::{Base, Lineage};
use hv_member::PartSet;
use hv_value::{Catalog, Kind, Listed, Memory, Schema, Text};
use hv_view::Shown;
use sqlite_items::Items;
use std::alloc::Global;
use std::sync::Arc;
use std::test::Fail;

fn text_of_reply(alloc: Global, reply: &Reply) -> Result<String, Fail> {
    let mut out = Vec::new(alloc);
    write_reply(alloc, reply, &mut out)?;
    Ok(String::from_utf8(out)?)
}

/// The partitions 0 and 2 of three.
fn two_parts(alloc: Global) -> Result<PartSet, Memory> {
    let mut parts = PartSet::new(alloc, 3)?;
    parts.insert(2);
    parts.insert(0);
    Ok(parts)
}

// No script shows a value over some partitions only, or is refused memory.
#[test]
fn replies_that_no_script_reaches_have_their_texts(rt: HostRuntime) -> Result<(), Fail> {
    let alloc = rt.alloc();
    let distinct = Shown::Distinct {
        more: true,
        values: Listed::new(alloc),
    };
    for (reply, text) in [
        (
            Reply::Final {
                id: 5,
                parts: two_parts(alloc)?,
                value: distinct,
            },
            "{\"id\":5,\"last\":true,\"parts\":[0,2],\"value\":{\"more\":true,\"values\":[]}}",
        ),
        (
            Reply::NoMem { id: Some(9) },
            "{\"error\":\"nomem\",\"id\":9}",
        ),
        (
            Reply::NoMem { id: None },
            "{\"error\":\"nomem\",\"id\":null}",
        ),
    ]
    .as_slice()
    {
        assert_eq!(rt; text_of_reply(alloc, reply)?.as_str(), *text);
    }
    Ok(())
}

fn columns(alloc: Global) -> Result<Schema, Fail> {
    let mut columns = Vec::new(alloc);
    columns.push((Text::of(alloc, "x")?, Kind::Int))?;
    columns.push((Text::of(alloc, "d")?, Kind::Date))?;
    columns.push((Text::of(alloc, "t")?, Kind::Text))?;
    Ok(Schema::new(columns)?)
}

fn loaded(alloc: Global) -> Result<Arc<Lineage>, Fail>
    ensures { IfOk result (λ made. (tables : Tables) → IsGiven tables (arc_value made)) }
{
    let mut parts = Items::new(alloc);
    parts.push(Text::of(alloc, "x,d,t\n1,2020-02-29,a\n")?)?;
    parts.push(Text::of(alloc, "")?)?;
    let schema = columns(alloc)?;
    Ok(Lineage::base(alloc, Base::Inline { schema, parts })?)
}

/// The named table of flights, in three partitions.
fn flights(alloc: Global) -> Result<Arc<Lineage>, Fail> {
    let base = Base::Named {
        schema: columns(alloc)?,
        table: Text::of(alloc, "flights")?,
        parts: 3,
    };
    Ok(Lineage::base(alloc, base)?)
}

// The catalog of a script is empty.
#[test]
fn a_named_table_is_written_after_what_is_there(rt: HostRuntime) -> Result<(), Fail> {
    let alloc = rt.alloc();
    let lineage = flights(alloc)?;
    let mut out = Vec::from_slice(alloc, b"> ")?;
    write_lineage(alloc, &lineage, &mut out)?;
    assert_eq!(rt;
        String::from_utf8(out)?.as_str(),
        "> {\"base\":{\"named\":{\"schema\":[[\"x\",\"int\"],[\"d\",\"date\"],[\"t\",\"text\"]],\"table\":\"flights\"}},\"term\":{\"t\":\"base\"}}"
    );
    Ok(())
}

#[test]
fn values_are_those_that_are_written(rt: HostRuntime) -> Result<(), Fail> {
    let alloc = rt.alloc();
    let shown = Shown::Distinct {
        more: false,
        values: Listed::new(alloc),
    };
    let value = shown_value(alloc, &shown)?.to_string(alloc)?;
    assert_eq!(rt; value.as_str(), "{\"more\":false,\"values\":[]}");
    let said = reply_value(alloc, &Reply::Done { id: 1 })?.to_string(alloc)?;
    assert_eq!(rt; said.as_str(), "{\"done\":true,\"id\":1}");
    let lineage = lineage_value(alloc, &*loaded(alloc)?)?;
    assert!(rt; lineage.get("term").is_some());
    Ok(())
}

// No script reads a lineage's text.
#[test]
fn a_loaded_table_reads_back(rt: HostRuntime) -> Result<(), Fail> {
    let alloc = rt.alloc();
    let lineage = loaded(alloc)?;
    let Ok(again) = read_back(alloc, &lineage, &Catalog::new(Vec::new(alloc))) else {
        return Err(Fail::new("memory was refused"));
    };
    assert!(rt; again == lineage);
    Ok(())
}
