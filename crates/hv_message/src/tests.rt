//! A message of each operation, and what no script can say. Each word of refusal is told by the scripts in the folder
//! tests/ at the top.

use super::*;
use hv_lineage::{Base, Lineage};
use hv_value::{Catalog, Kind, Schema, Text};
use serde_json::Value;
use sqlite_items::Items;
use std::alloc::Global;
use std::sync::Arc;
use std::test::Fail;

/// A catalog with the table `t` of two partitions.
fn catalog(alloc: Global) -> Result<Arc<Catalog>, Fail> {
    let tables = vec![in alloc; (Text::of(alloc, "t")?, 2)]?;
    Ok(Arc::new(alloc, Catalog::new(tables))?)
}

fn three_columns(alloc: Global) -> Result<Schema, Fail> {
    let mut columns = Vec::new(alloc);
    columns.push((Text::of(alloc, "x")?, Kind::Int))?;
    columns.push((Text::of(alloc, "d")?, Kind::Date))?;
    columns.push((Text::of(alloc, "t")?, Kind::Text))?;
    Ok(Schema::new(columns)?)
}

/// A session with one object, number 0, of the columns x int, d date and t text, and an open request with id 50.
fn session(alloc: Global) -> Result<TalkState, Fail> {
    let mut state = TalkState::new(alloc, catalog(alloc)?)?;
    let base = Base::Inline {
        schema: three_columns(alloc)?,
        parts: Items::new(alloc),
    };
    state.add(Lineage::base(alloc, base)?)?;
    state.begin(50)?;
    Ok(state)
}

/// Why a text is malformed, none where it is a message.
fn word(alloc: Global, text: &str, state: &TalkState) -> Result<Option<Why>, Fail> {
    match read_message(alloc, text, state) {
        Ok(_) => Ok(None),
        Err(Refusal::Malformed(why, _)) => Ok(Some(why)),
        Err(Refusal::Memory(_)) => Err(Fail::new("memory was refused")),
    }
}

#[test]
fn a_message_of_each_operation_is_read(rt: HostRuntime) -> Result<(), Fail> {
    let state = session(rt.alloc())?;
    for text in [
        LOAD,
        r#"{"id":1,"of":0,"op":"filter","pred":{"col":"d","how":"ge","p":"cmp","to":"2020-02-29"}}"#,
        r#"{"cols":["t","x"],"id":1,"of":0,"op":"project"}"#,
        r#"{"expr":{"e":"year","of":{"col":"d","e":"col"}},"id":1,"name":"n","of":0,"op":"derive"}"#,
        r#"{"id":1,"of":0,"op":"info"}"#,
        r#"{"id":1,"of":0,"op":"view","view":{"col":"t","k":500,"kind":"distinct"}}"#,
        r#"{"id":1,"op":"cancel","request":50}"#,
        r#"{"id":1,"op":"end"}"#,
    ] {
        assert_eq!(rt; word(rt.alloc(), text, &state)?, None, "of {text}");
    }
    assert_eq!(rt;
        word(rt.alloc(), r#"{"id":1,"op":"q"}"#, &state)?,
        Some(Why::Op)
    );
    Ok(())
}

const LOAD: &str = r#"{"id":1,"op":"load","table":{"inline":{"parts":[],"schema":[["x","int"]]}}}"#;

// The catalog of a script is empty.
#[test]
fn a_table_of_a_catalog_is_read_though_no_script_has_one(rt: HostRuntime) -> Result<(), Fail> {
    let state = session(rt.alloc())?;
    for (text, want) in [
        (
            r#"{"id":1,"op":"load","table":{"named":{"schema":[["x","int"]],"table":"t"}}}"#,
            None,
        ),
        (
            r#"{"id":1,"op":"load","table":{"named":{"schema":[],"table":"t"}}}"#,
            Some(Why::Schema),
        ),
        (
            r#"{"id":1,"op":"load","table":{"named":{"schema":[],"table":"u"}}}"#,
            Some(Why::Table),
        ),
    ]
    .as_slice()
    {
        assert_eq!(rt; word(rt.alloc(), text, &state)?, *want, "of {text}");
    }
    Ok(())
}

// A session hears texts alone.
#[test]
fn a_value_is_read_as_its_text_is(rt: HostRuntime) -> Result<(), Fail> {
    let alloc = rt.alloc();
    let state = session(alloc)?;
    let Ok(value) = Value::from_str(alloc, r#"{"id":7,"op":"end"}"#) else {
        return Err(Fail::new("it is no JSON"));
    };
    assert_eq!(rt; id_in(&value), Some(7));
    let Ok(Message::End { id }) = read_value(alloc, &value, &state) else {
        return Err(Fail::new("another message was read"));
    };
    assert_eq!(rt; id, 7);
    Ok(())
}

/// Reads a message that makes an object, and adds the object, where it is read.
fn make(alloc: Global, state: &mut TalkState, text: &str) -> Result<Option<Why>, Fail> {
    match read_message(alloc, text, state) {
        Ok(Message::Make { made, .. }) => {
            state.add(made)?;
            Ok(None)
        }
        Ok(_) => Err(Fail::new("another message was read")),
        Err(Refusal::Malformed(why, _)) => Ok(Some(why)),
        Err(Refusal::Memory(_)) => Err(Fail::new("memory was refused")),
    }
}

#[test]
fn a_session_knows_its_objects_and_its_requests(rt: HostRuntime) -> Result<(), Fail> {
    let alloc = rt.alloc();
    let mut state = session(alloc)?;
    let second = r#"{"id":1,"of":1,"op":"info"}"#;
    assert_eq!(rt; word(alloc, second, &state)?, Some(Why::Object));
    assert_eq!(rt; make(alloc, &mut state, LOAD)?, None);
    assert_eq!(rt; word(alloc, second, &state)?, None);
    let cancel = r#"{"id":1,"op":"cancel","request":50}"#;
    assert_eq!(rt; word(alloc, cancel, &state)?, None);
    if state.is_open(50) {
        state.drop_id(50);
    }
    assert_eq!(rt; word(alloc, cancel, &state)?, Some(Why::Request));
    state.end();
    assert_eq!(rt; word(alloc, second, &state)?, Some(Why::Ended));
    Ok(())
}
