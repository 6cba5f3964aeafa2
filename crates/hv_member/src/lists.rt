//! Rising lists of numbers: searched by halves, and combined in one pass over both.

ghost use Rattle.std.specs.Prelude.{◌≡◌, length, slice_get, IfOk, IsTrue};
ghost use Rattle.hv_member.specs.Sets.{is_in, IsRising, IsSetBelow, common, joined, minus, numbers as all_below, next_from};

use hv_value::Mem;
use std::alloc::Global;
use std::cmp::Ordering;

/// The first number that is not below `from`.
pub(crate) fn first_from(numbers: &[u32], from: u32) -> Option<u32>
    requires { IsRising numbers.now }
    ensures { result ≡ next_from from numbers.now }
{
    numbers.get(place_from(numbers, from)).copied()
}

/// The same as `first_from`, which looks at place `hint` before it searches. The hint moves on to the place after what
/// was found, so that a walk over rising numbers takes a step for each.
#[inline(always)]
pub(crate) fn first_near(numbers: &[u32], from: u32, hint: &mut usize) -> Option<u32>
    requires { IsRising numbers.now }
    ensures { result ≡ next_from from numbers.now }
{
    let place = place_near(numbers, from, *hint);
    *hint = place.saturating_add(1);
    numbers.get(place).copied()
}

/// The place of the first number that is not below `from`, which may be the one after the last. It is looked for at
/// `guess` first.
#[inline(always)]
fn place_near(numbers: &[u32], from: u32, guess: usize) -> usize
    requires { IsRising numbers.now }
    ensures { slice_get numbers.now result ≡ next_from from numbers.now }
{
    if is_place_from(numbers, from, guess) {
        guess
    } else {
        place_from(numbers, from)
    }
}

/// Whether the first number that is not below `from` is there, at this place.
#[inline(always)]
fn is_place_from(numbers: &[u32], from: u32, place: usize) -> bool
    requires { IsRising numbers.now }
    ensures { IsTrue result → slice_get numbers.now place ≡ next_from from numbers.now }
{
    if place >= numbers.len() {
        return false;
    }
    numbers[place] >= from && (place == 0 || numbers[place - 1] < from)
}

/// The place of the first number that is not below `from`, which may be the one after the last, by halves.
#[cold]
#[inline(never)]
fn place_from(numbers: &[u32], from: u32) -> usize
    requires { IsRising numbers.now }
    ensures { slice_get numbers.now result ≡ next_from from numbers.now }
{
    numbers.partition_point(|number| *number < from)
}

/// Whether the number is in the list.
pub(crate) fn has(numbers: &[u32], number: u32) -> bool
    requires { IsRising numbers.now }
    ensures { result ≡ is_in number numbers.now }
{
    numbers.binary_search(&number).is_ok()
}

/// The numbers that are in both lists.
pub(crate) fn in_both(alloc: Global, left: &[u32], right: &[u32]) -> Mem<Vec<u32>>
    requires left { IsRising left.now }
    requires right { IsRising right.now }
    ensures { IfOk result (λ made. made.items ≡ common left.now right.now) }
{
    let mut found = Vec::new(alloc);
    let mut left_rest = left;
    let mut right_rest = right;
    while let [x, left_after @ ..] = left_rest
        && let [y, right_after @ ..] = right_rest
    {
        match x.cmp(y) {
            Ordering::Less => left_rest = left_after,
            Ordering::Greater => right_rest = right_after,
            Ordering::Equal => {
                found.push(*x)?;
                left_rest = left_after;
                right_rest = right_after;
            }
        }
    }
    Ok(found)
}

/// The numbers that are in one of the lists or in both, each once.
pub(crate) fn in_either(alloc: Global, left: &[u32], right: &[u32]) -> Mem<Vec<u32>>
    requires left { IsRising left.now }
    requires right { IsRising right.now }
    ensures { IfOk result (λ made. made.items ≡ joined left.now right.now) }
{
    let mut found = Vec::new(alloc);
    let mut left_rest = left;
    let mut right_rest = right;
    while let [x, left_after @ ..] = left_rest
        && let [y, right_after @ ..] = right_rest
    {
        match x.cmp(y) {
            Ordering::Less => {
                found.push(*x)?;
                left_rest = left_after;
            }
            Ordering::Greater => {
                found.push(*y)?;
                right_rest = right_after;
            }
            Ordering::Equal => {
                found.push(*x)?;
                left_rest = left_after;
                right_rest = right_after;
            }
        }
    }
    found.extend_from_slice(left_rest)?;
    found.extend_from_slice(right_rest)?;
    Ok(found)
}

/// The numbers of the left list that are not in the right one.
pub(crate) fn in_left_only(alloc: Global, left: &[u32], right: &[u32]) -> Mem<Vec<u32>>
    requires left { IsRising left.now }
    requires right { IsRising right.now }
    ensures { IfOk result (λ made. made.items ≡ minus left.now right.now) }
{
    let mut found = Vec::new(alloc);
    let mut left_rest = left;
    let mut right_rest = right;
    while let [x, left_after @ ..] = left_rest
        && let [y, right_after @ ..] = right_rest
    {
        match x.cmp(y) {
            Ordering::Less => {
                found.push(*x)?;
                left_rest = left_after;
            }
            Ordering::Greater => right_rest = right_after,
            Ordering::Equal => {
                left_rest = left_after;
                right_rest = right_after;
            }
        }
    }
    found.extend_from_slice(left_rest)?;
    Ok(found)
}

/// The numbers below `size` that are not in the list, which stays below it.
pub(crate) fn not_in(alloc: Global, size: u32, numbers: &[u32]) -> Mem<Vec<u32>>
    requires { IsSetBelow size numbers.now }
    ensures { IfOk result (λ made. made.items ≡ minus (all_below size) numbers.now) }
{
    let mut found = Vec::new(alloc);
    let mut rest = numbers;
    for number in 0..size {
        match rest {
            [first, after @ ..] if *first == number => rest = after,
            _ => found.push(number)?,
        }
    }
    Ok(found)
}
