ghost use Rattle.std.specs.Prelude.{◌≡◌, ◌<◌, IfOk};

use crate::{Member, PartSet};
use hv_value::Mem;
use std::alloc::Global;
use std::test::*;

/// The rows of two members below `n`, `None` for a full one, and the rows of their combinations.
#[derive(Clone, Copy)]
struct Case {
    n: u32,
    left: Option<&'static [u32]>,
    right: Option<&'static [u32]>,
    and: &'static [u32],
    or: &'static [u32],
    minus: &'static [u32],
}

/// The member with those rows below `n` that are in the list.
fn picked(alloc: Global, n: u32, rows: &[u32]) -> Mem<Member>
    ensures { IfOk result (λ made. made.size ≡ n) }
{
    let mut found = Vec::new(alloc);
    for row in 0..n {
        if rows.contains(&row) {
            found.push(row)?;
        }
    }
    Member::from_rows(n, found)
}

fn member_of(alloc: Global, n: u32, rows: Option<&[u32]>) -> Mem<Member>
    ensures { IfOk result (λ made. made.size ≡ n) }
{
    match rows {
        Some(rows) => picked(alloc, n, rows),
        None => Ok(Member::full(n)),
    }
}

fn has_just(member: &Member, n: u32, rows: &[u32]) -> bool {
    member.count() as usize == rows.len()
        && (0..=n).all(|row| member.contains(row) == rows.contains(&row))
}

fn combines_as(alloc: Global, case: Case) -> Mem<bool> {
    let left = member_of(alloc, case.n, case.left)?;
    let right = member_of(alloc, case.n, case.right)?;
    let and = left.and(alloc, &right)?;
    let or = left.or(alloc, &right)?;
    let minus = left.minus(alloc, &right)?;
    Ok(
        has_just(&and, case.n, case.and)
            && has_just(&or, case.n, case.or)
            && has_just(&minus, case.n, case.minus),
    )
}

// The first case is worked by hand from the definition, and the others are its ends: no row, all rows, the first and
// the last, and a full member in either place.
#[test]
fn members_combine_as_their_lists(rt: HostRuntime) -> Result<(), Fail> {
    let cases = [
        Case {
            n: 6,
            left: Some(&[1, 3, 5]),
            right: Some(&[3, 4]),
            and: &[3],
            or: &[1, 3, 4, 5],
            minus: &[1, 5],
        },
        Case {
            n: 0,
            left: Some(&[]),
            right: Some(&[]),
            and: &[],
            or: &[],
            minus: &[],
        },
        Case {
            n: 0,
            left: None,
            right: Some(&[]),
            and: &[],
            or: &[],
            minus: &[],
        },
        Case {
            n: 3,
            left: Some(&[]),
            right: Some(&[0, 2]),
            and: &[],
            or: &[0, 2],
            minus: &[],
        },
        Case {
            n: 3,
            left: Some(&[0, 2]),
            right: Some(&[]),
            and: &[],
            or: &[0, 2],
            minus: &[0, 2],
        },
        Case {
            n: 2,
            left: Some(&[0]),
            right: Some(&[1]),
            and: &[],
            or: &[0, 1],
            minus: &[0],
        },
        Case {
            n: 4,
            left: None,
            right: Some(&[0, 3]),
            and: &[0, 3],
            or: &[0, 1, 2, 3],
            minus: &[1, 2],
        },
        Case {
            n: 4,
            left: Some(&[0, 3]),
            right: None,
            and: &[0, 3],
            or: &[0, 1, 2, 3],
            minus: &[],
        },
        Case {
            n: 2,
            left: None,
            right: None,
            and: &[0, 1],
            or: &[0, 1],
            minus: &[],
        },
    ];
    for case in cases {
        assert!(rt; combines_as(rt.alloc(), case)?);
    }
    Ok(())
}

#[test]
fn the_next_row_may_be_the_one_asked_for(rt: HostRuntime) -> Result<(), Fail> {
    let some = picked(rt.alloc(), 6, &[1, 3, 5])?;
    let all = Member::full(6);
    let mut hint = usize::MAX;
    for (from, of_some, of_all) in [
        (0, Some(1), Some(0)),
        (2, Some(3), Some(2)),
        (3, Some(3), Some(3)),
        (5, Some(5), Some(5)),
        (6, None, None),
        (u32::MAX, None, None),
    ] {
        assert_eq!(rt; some.next(from), of_some, "from {from}");
        assert_eq!(rt; some.next_near(from, &mut hint), of_some, "from {from}");
        assert_eq!(rt; all.next(from), of_all, "from {from}");
    }
    Ok(())
}

/// The set of those partitions below the size that are in the list.
fn set_of(alloc: Global, size: u32, parts: &[u32]) -> Mem<PartSet>
    ensures { IfOk result (λ made. made.size ≡ size) }
{
    let mut set = PartSet::new(alloc, size)?;
    for part in parts {
        if *part < size {
            set.insert(*part);
        }
    }
    Ok(set)
}

// The sizes are those at which a word ends.
#[test]
fn partitions_are_found_and_counted_once(rt: HostRuntime) -> Result<(), Fail> {
    for (size, parts, count, first, is_full) in [
        (3, &[2, 2][..], 1, Some(2), false),
        (0, &[][..], 0, None, true),
        (1, &[0, 0][..], 1, Some(0), true),
        (64, &[63][..], 1, Some(63), false),
        (65, &[64, 64][..], 1, Some(64), false),
        (65_536, &[65_535, 64][..], 2, Some(64), false),
    ] {
        let set = set_of(rt.alloc(), size, parts)?;
        assert_eq!(rt; set.count(), count, "of {size}");
        assert_eq!(rt; set.next(0), first, "of {size}");
        assert_eq!(rt; set.is_full(), is_full, "of {size}");
        assert!(rt; !set.contains(size), "of {size}");
    }
    Ok(())
}

#[test]
fn a_set_exceeds_what_it_has_all_of_and_more(rt: HostRuntime) -> Result<(), Fail> {
    for (left, right, exceeds) in [
        (&[2][..], &[][..], true),
        (&[][..], &[2][..], false),
        (&[2][..], &[2][..], false),
        (&[0, 1][..], &[2][..], false),
        (&[99, 0][..], &[99][..], true),
    ] {
        let left = set_of(rt.alloc(), 100, left)?;
        let right = set_of(rt.alloc(), 100, right)?;
        let copy = left.copy(rt.alloc())?;
        assert!(rt; copy.exceeds(&right) == exceeds && !copy.exceeds(&left));
    }
    Ok(())
}
