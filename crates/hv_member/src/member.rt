//! The rows of a partition that are still in it, whatever was filtered. Contracts see the rising list of their
//! numbers, all below the number of rows that the base partition has.

ghost use Rattle.std.specs.Prelude.{◌≡◌, ℕ, ◌+◌, ◌^◌, ◌<◌, ◌≤◌, List, [], length, ◌&&◌, ◌||◌, not, IfOk};
ghost use Rattle.hv_member.specs.Sets.{is_in, IsSetBelow, numbers, common, joined, minus, next_from};

use crate::lists::{first_from, first_near, has, in_both, in_either, in_left_only, not_in};
use hv_value::Mem;
use std::alloc::Global;
use std::marker::Model;

/// Some of the rows below a number of rows, `n`.
#[derive(Drop)]
pub struct Member {
    size: u32,
    kept: Kept,
}

/// All the rows, or a rising list of them.
#[derive(Drop)]
enum Kept {
    Full,
    Listed(Vec<u32>),
}

impl Model for Member {
    ghost use Rattle.hv_member.specs.Member.{RowSet};

    ghost Value = { RowSet };

    ghost use Rattle.hv_member.specs.Kept.{kept_rows};
    ghost use Rattle.hv_member.specs.Sets.{IsSetBelow};

    ghost view = { λ m. record { size = m.size; rows = kept_rows m.size m.kept } };

    ghost invariant = { λ m. IsSetBelow m.size (kept_rows m.size m.kept) };
}

impl Member {
    /// All the rows below `n`.
    pub fn full(n: u32) -> Member
        ensures { result ≡ record { size = n; rows = numbers n } }
    {
        Member {
            size: n,
            kept: Kept::Full,
        }
    }

    /// The rows of a list that strictly rises below `n`. Memory that it takes is of the list's allocator.
    pub fn from_rows(n: u32, rows: Vec<u32>) -> Mem<Member>
        requires { IsSetBelow n rows.items }
        ensures { IfOk result (λ made. made ≡ record { size = n; rows = rows.items }) }
    {
        Ok(Member::listed(n, rows))
    }

    fn listed(size: u32, rows: Vec<u32>) -> Member
        requires { IsSetBelow size rows.items }
        ensures { result ≡ record { size = size; rows = rows.items } }
    {
        Member {
            size,
            kept: Kept::Listed(rows),
        }
    }

    /// Whether the row is there. Takes time by the logarithm of the count.
    pub fn contains(&self, row: u32) -> bool
        ensures { result ≡ is_in row self.now.rows }
    {
        match &self.kept {
            Kept::Full => row < self.size,
            Kept::Listed(rows) => has(rows, row),
        }
    }

    /// How many rows are there, at most `n`. Takes constant time, and tells a caller what each set keeps to.
    pub fn count(&self) -> u32
        ensures value { result ≡ length self.now.rows }
        ensures set { IsSetBelow self.now.size self.now.rows }
        ensures within { length self.now.rows ≤ self.now.size }
        ensures small { self.now.size < 2 ^ 32 }
    {
        let size = self.size;
        match &self.kept {
            Kept::Full => size,
            Kept::Listed(rows) => rows.len() as u32,
        }
    }

    /// The first row that is there and is not below `from`, which may be `from` itself. Takes time by the logarithm of
    /// the count.
    pub fn next(&self, from: u32) -> Option<u32>
        ensures { result ≡ next_from from self.now.rows }
    {
        match &self.kept {
            Kept::Full if from < self.size => Some(from),
            Kept::Full => None,
            Kept::Listed(rows) => first_from(rows, from),
        }
    }

    /// The same as `next`. A walk over rising rows begins with a `hint` of 0 and hands the same one on to each call,
    /// which then takes constant time; any other value is only slow.
    #[inline]
    pub fn next_near(&self, from: u32, hint: &mut usize) -> Option<u32>
        ensures { result ≡ next_from from self.now.rows }
    {
        match &self.kept {
            Kept::Full if from < self.size => Some(from),
            Kept::Full => None,
            Kept::Listed(rows) => first_near(rows, from, hint),
        }
    }

    /// The rows that are in both, of two members below one `n`. Takes time by the rows of both.
    pub fn and(&self, alloc: Global, other: &Member) -> Mem<Member>
        requires { self.now.size ≡ other.now.size }
        ensures rows { IfOk result (λ made.
            made ≡ record self.now { rows = common self.now.rows other.now.rows }) }

        // A row is in the result where it is in both. With the rows of `self` alone it makes up `self`.
        ensures members { IfOk result (λ made. (row : ℕ)
            → is_in row made.rows ≡ (is_in row self.now.rows && is_in row other.now.rows)) }
        ensures count { IfOk result (λ made. length made.rows + length (minus self.now.rows other.now.rows)
            ≡ length self.now.rows) }
    {
        match (&self.kept, &other.kept) {
            (Kept::Full, Kept::Full) => Ok(Member::full(self.size)),
            (Kept::Full, Kept::Listed(rows)) => Ok(Member::listed(
                self.size,
                Vec::from_slice(alloc, rows)?,
            )),
            (Kept::Listed(rows), Kept::Full) => Ok(Member::listed(
                self.size,
                Vec::from_slice(alloc, rows)?,
            )),
            (Kept::Listed(left), Kept::Listed(right)) => Ok(Member::listed(
                self.size,
                in_both(alloc, left, right)?,
            )),
        }
    }

    /// The rows that are in one of them or in both, of two members below one `n`. Takes time by the rows of both.
    pub fn or(&self, alloc: Global, other: &Member) -> Mem<Member>
        requires { self.now.size ≡ other.now.size }
        ensures rows { IfOk result (λ made.
            made ≡ record self.now { rows = joined self.now.rows other.now.rows }) }

        // A row is in the result where it is in either. With the rows in both it has as many as the two.
        ensures members { IfOk result (λ made. (row : ℕ)
            → is_in row made.rows ≡ (is_in row self.now.rows || is_in row other.now.rows)) }
        ensures count { IfOk result (λ made. length made.rows + length (common self.now.rows other.now.rows)
            ≡ length self.now.rows + length other.now.rows) }
    {
        match (&self.kept, &other.kept) {
            (Kept::Full, _) => Ok(Member::full(self.size)),
            (Kept::Listed(_), Kept::Full) => Ok(Member::full(self.size)),
            (Kept::Listed(left), Kept::Listed(right)) => Ok(Member::listed(
                self.size,
                in_either(alloc, left, right)?,
            )),
        }
    }

    /// The rows of this one that are not in the other, of two members below one `n`. Takes time by the rows of both.
    pub fn minus(&self, alloc: Global, other: &Member) -> Mem<Member>
        requires { self.now.size ≡ other.now.size }
        ensures rows { IfOk result (λ made.
            made ≡ record self.now { rows = minus self.now.rows other.now.rows }) }

        // A row is in the result where it is in `self` alone. With the rows in both it makes up `self`.
        ensures members { IfOk result (λ made. (row : ℕ)
            → is_in row made.rows ≡ (is_in row self.now.rows && not (is_in row other.now.rows))) }
        ensures count { IfOk result (λ made. length made.rows + length (common self.now.rows other.now.rows)
            ≡ length self.now.rows) }
    {
        match (&self.kept, &other.kept) {
            (_, Kept::Full) => Ok(Member::listed(self.size, Vec::new(alloc))),
            (Kept::Full, Kept::Listed(rows)) => Ok(Member::listed(
                self.size,
                not_in(alloc, self.size, rows)?,
            )),
            (Kept::Listed(left), Kept::Listed(right)) => Ok(Member::listed(
                self.size,
                in_left_only(alloc, left, right)?,
            )),
        }
    }
}
