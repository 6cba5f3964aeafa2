//! The last words of one session, by its own calls. What each must be is worked by hand; whole talks are scripts (tests/).

use super::*;
use hv_reply::Reply;
use hv_value::{Catalog, Cell, CellRef};
use hv_view::Shown;
use std::alloc::Global;
use std::sync::Arc;
use std::test::Fail;

fn session(alloc: Global) -> Result<Session, Fail> {
    let catalog = Arc::new(alloc, Catalog::new(Vec::new(alloc)))?;
    Ok(Session::new(alloc, catalog)?)
}

/// The three rows 1, 2 and 3 of a column x, one in each partition.
const LOAD: &str =
    r#"{"id":1,"op":"load","table":{"inline":{"parts":["x\n1\n","x\n2\n","x\n3\n"],"schema":[["x","int"]]}}}"#;

/// The rows of object 0 of which x is at least 2.
const FILTER: &str =
    r#"{"id":2,"of":0,"op":"filter","pred":{"col":"x","how":"ge","p":"cmp","to":2}}"#;

/// Whether whole numbers are these, in their order.
fn are_numbers(cells: &[Cell], want: &[i64]) -> bool {
    if cells.len() != want.len() {
        return false;
    }
    for place in 0..want.len() {
        if cells[place].lent() != CellRef::Int(want[place]) {
            return false;
        }
    }
    true
}

/// Whether a reply is the last word of the request with an id, over the partitions 0, 1 and 2: a range of no missing
/// cell with this count, least, greatest and sum.
fn is_range(reply: &Reply, request: u64, want: (u64, i64, i64, i128)) -> bool {
    match reply {
        Reply::Final {
            id,
            parts,
            value: Shown::Range {
                count,
                max,
                min,
                missing,
                sum,
            },
        } => {
            *id == request
                && parts.is_full()
                && parts.count() == 3
                && (*count, *missing, *sum) == (want.0, 0, Some(want.3))
                && min.lent() == CellRef::Int(want.1)
                && max.lent() == CellRef::Int(want.2)
        }
        _ => false,
    }
}

/// The same of distinct values, of which there are no more.
fn is_distinct(reply: &Reply, request: u64, want: &[i64]) -> bool {
    match reply {
        Reply::Final {
            id,
            parts,
            value: Shown::Distinct { more, values },
        } => {
            *id == request
                && parts.is_full()
                && parts.count() == 3
                && !*more
                && are_numbers(values.as_slice(), want)
        }
        _ => false,
    }
}

/// Whether the first open request is answered, by such a range.
fn answers_range(
    alloc: Global,
    session: &mut Session,
    request: u64,
    want: (u64, i64, i64, i128),
) -> bool {
    let Some(reply) = session.answer_first(alloc) else {
        return false;
    };
    let is_wanted = is_range(&reply, request, want);
    drop(reply);
    is_wanted
}

/// Whether it is answered by such distinct values.
fn answers_distinct(alloc: Global, session: &mut Session, request: u64, want: &[i64]) -> bool {
    let Some(reply) = session.answer_first(alloc) else {
        return false;
    };
    let is_wanted = is_distinct(&reply, request, want);
    drop(reply);
    is_wanted
}

/// Whether there is no open request to answer.
fn answers_nothing(alloc: Global, session: &mut Session) -> bool {
    let Some(reply) = session.answer_first(alloc) else {
        return true;
    };
    drop(reply);
    false
}

// Of a filtered table the values are those of its rows in all partitions, also in those that have none.
#[test]
fn open_requests_are_answered_in_their_order(rt: HostRuntime) -> Result<(), Fail> {
    let alloc = rt.alloc();
    let mut session = session(alloc)?;
    for text in [
        LOAD,
        FILTER,
        r#"{"id":9,"of":1,"op":"view","view":{"col":"x","kind":"range"}}"#,
        r#"{"id":4,"of":1,"op":"view","view":{"col":"x","k":500,"kind":"distinct"}}"#,
        r#"{"id":5,"of":0,"op":"view","view":{"col":"x","kind":"range"}}"#,
        r#"{"id":6,"op":"cancel","request":5}"#,
        r#"{"id":5,"of":0,"op":"view","view":{"col":"x","kind":"range"}}"#,
    ]
    .as_slice()
    {
        session.hear(alloc, Seeds { seed: 0, stream: 0 }, text);
    }
    assert!(rt; answers_range(alloc, &mut session, 9, (2, 2, 3, 5)));
    assert!(rt; answers_distinct(alloc, &mut session, 4, [2, 3].as_slice()));
    assert!(rt; session.is_waiting());
    assert!(rt; answers_range(alloc, &mut session, 5, (3, 1, 3, 6)));
    assert!(rt; !session.is_waiting());
    assert!(rt; answers_nothing(alloc, &mut session));
    Ok(())
}
