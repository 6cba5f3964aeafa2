//! Next rows as a value: the keys, each with its number of rows, and how many rows come before them. Contracts see
//! `CountedKeys` as its list.

ghost use Rattle.std.specs.Prelude.{◌≡◌, ◌≤◌, ◌<◌, ◌+◌, ◌^◌, [], length, take, IfOk, OnOk, get_or, slice_set};
ghost use Rattle.std.specs.List.{All, insert};
ghost use Rattle.hv_next.specs.Next.{added};
ghost use Rattle.hv_next.specs.declared.summary.NextRow.{NextRow};

use hv_sketch::copied_cells;
use hv_value::{Cell, Listed, Mem};
use std::alloc::Global;
use std::marker::Model;

/// A key of an order, and how many rows have it.
#[derive(Drop)]
pub struct NextRow {
    /// The cells of the order's columns, the first first.
    pub key: Listed<Cell>,
    /// How many rows have these cells.
    pub count: u64,
}

impl NextRow {
    /// An equal key with its number of rows.
    pub fn copy(&self, alloc: Global) -> Mem<NextRow>
        ensures { IfOk result (λ row. row ≡ self.now) }
    {
        Ok(NextRow {
            key: copied_cells(alloc, self.key.as_slice())?,
            count: self.count,
        })
    }
}

/// A list of keys, each with its number of rows.
#[derive(Drop)]
pub struct CountedKeys {
    rows: Vec<NextRow>,
}

impl Model for CountedKeys {
    ghost use Rattle.std.specs.Prelude.{List};
    ghost use Rattle.hv_next.specs.declared.summary.NextRow.{NextRow};

    ghost Value = { List NextRow };

    ghost view = { λ keys. keys.rows.items };
}

impl CountedKeys {
    /// No keys.
    pub(crate) fn new(alloc: Global) -> CountedKeys
        ensures { result ≡ [] }
    {
        CountedKeys {
            rows: Vec::new(alloc),
        }
    }

    /// The list of a vector's keys.
    pub(crate) fn from_vec(rows: Vec<NextRow>) -> CountedKeys
        ensures { result ≡ rows.items }
    {
        CountedKeys { rows }
    }

    pub fn as_slice(&self) -> &[NextRow]
        ensures { result.now ≡ self.now }
    {
        self.rows.as_slice()
    }

    /// Counts one row more of the key at a place from 0.
    pub(crate) fn count_one(&mut self, place: usize)
        requires within { place < length self.old }
        requires room { All (λ row. row.count + 1 < 2 ^ 64) self.old }
        ensures { (row : NextRow) → row.count ≡ 1
            → self.new ≡ slice_set self.old place (added row (get_or self.old place row)) }
    {
        self.rows[place].count += 1;
    }

    /// Puts a key of one row at a place from 0, before the keys from there on.
    pub(crate) fn insert(&mut self, place: usize, key: Listed<Cell>) -> Mem<()>
        requires { place ≤ length self.old }
        ensures { OnOk result (self.new ≡ insert self.old place (record { key = key; count = 1 })) }
    {
        self.rows.insert(place, NextRow { key, count: 1 })?;
        Ok(())
    }

    /// Keeps the first keys, at most so many.
    pub(crate) fn truncate(&mut self, len: usize)
        ensures { self.new ≡ take len self.old }
    {
        self.rows.truncate(len);
    }

    /// An equal list.
    pub fn copy(&self, alloc: Global) -> Mem<CountedKeys>
        ensures { IfOk result (λ keys. keys ≡ self.now) }
    {
        copied_rows(alloc, self.as_slice())
    }
}

fn copied_rows(alloc: Global, rows: &[NextRow]) -> Mem<CountedKeys>
    ensures { IfOk result (λ keys. keys ≡ rows.now) }
{
    let mut copy = Vec::new(alloc);
    for row in rows {
        copy.push(row.copy(alloc)?)?;
    }
    Ok(CountedKeys { rows: copy })
}

/// The first different keys above a key, at most some number of them, and how many rows aren't above it.
#[derive(Drop)]
pub struct NextSummary {
    /// How many rows have a key that isn't above; 0 where no key was given.
    pub before: u64,
    /// The keys, strictly rising, each with its number of rows.
    pub rows: CountedKeys,
}

impl NextSummary {
    /// The next rows of no rows.
    pub(crate) fn empty(alloc: Global) -> NextSummary
        ensures { result ≡ record { before = 0; rows = [] } }
    {
        NextSummary {
            before: 0,
            rows: CountedKeys::new(alloc),
        }
    }

    /// An equal summary.
    pub fn copy(&self, alloc: Global) -> Mem<NextSummary>
        ensures { IfOk result (λ s. s ≡ self.now) }
    {
        Ok(NextSummary {
            before: self.before,
            rows: self.rows.copy(alloc)?,
        })
    }
}
