//! A source in memory whose listed calls fail. Contracts see it as a `SourceState` (`specs/SourceState.antt`).
ghost use Rattle.std.specs.Prelude.{◌≡◌, ◌==◌, ◌≤◌, min, length, drop, Ok, Err, if◌then◌else◌};
ghost use Rattle.std.specs.List.{list_any};
ghost use Rattle.std.specs.Io.{ReadsAtMost};
ghost use Rattle.std.specs.Io.KnownBytes.{ReadConsumes};
ghost use Rattle.hv_outer.specs.Causes.{HasCause};
ghost use Rattle.hv_outer.specs.SourceState.{SourceState, not_called, fails_next, fitting_bytes, after_fault, after_take, overwritten};

use crate::{IoErr, Source};
use std::marker::Model;

/// A source in memory that tells what is left. Its call number k, counted from 1, fails where k is listed.
#[derive(Drop)]
pub struct MemSource {
    bytes: Vec<u8>,
    at: usize,
    fail_at: Vec<u64>,
    calls: u64,
    faults: u64,
}

impl Model for MemSource {
    ghost use Rattle.std.specs.Prelude.{◌≤◌, length, drop};
    ghost use Rattle.hv_outer.specs.SourceState.{SourceState};

    ghost Value = { SourceState };

    ghost view = { λ s. record { left = drop s.at s.bytes.items; fail_at = s.fail_at.items; calls = s.calls; faults = s.faults } };

    ghost invariant = { λ s. s.at ≤ length s.bytes.items };
}

impl MemSource {
    /// A source of these bytes. `fail_at` lists the numbers of the calls that fail, in any order.
    pub fn new(bytes: Vec<u8>, fail_at: Vec<u64>) -> MemSource
        ensures { result ≡ not_called bytes.items fail_at.items }
    {
        MemSource {
            bytes,
            at: 0,
            fail_at,
            calls: 0,
            faults: 0,
        }
    }

    /// How many calls have failed.
    pub fn faults(&self) -> u64
        ensures { result ≡ self.now.faults }
    {
        self.faults
    }
}

// Whether a number is listed.
fn is_listed(number: u64, list: &[u64]) -> bool
    ensures { result ≡ list_any (λ k. k == number) list.now }
{
    list.contains(&number)
}

// Copies as many bytes from a place on as fit to the front of the buffer, and answers how many.
fn overwrite(buf: &mut [u8], bytes: &[u8], at: usize) -> usize
    requires { at ≤ length bytes.now }
    ensures count { result ≡ min (length buf.old) (length (drop at bytes.now)) }
    ensures copied { buf.new ≡ overwritten buf.old (drop at bytes.now) }
{
    let left = &bytes[at..];
    let count = buf.len().min(left.len());
    buf[..count].copy_from_slice(&left[..count]);
    count
}

impl Source for MemSource {
    ghost use Rattle.std.specs.Prelude.{Some};

    ghost left = { λ s. Some s.left };

    ghost faults = { λ s. s.faults };

    /// Fails exactly where its number is listed, and else gives as many bytes as fit and keeps the rest of `buf`.
    fn take(&mut self, buf: &mut [u8]) -> Result<usize, IoErr>
        ensures bound { ReadsAtMost result buf.new }
        ensures bytes { ReadConsumes (Some self.old.left) (Some self.new.left) result buf.new }
        ensures cause { HasCause self.old.faults self.new.faults result }

        // Exactly when it fails, and what it gives.
        ensures answer { result ≡
            (if fails_next self.old then Err IoErr.Failed else Ok (fitting_bytes self.old (length buf.old))) }
        ensures copied { buf.new ≡
            (if fails_next self.old then buf.old else overwritten buf.old self.old.left) }
        ensures next { self.new ≡
            (if fails_next self.old then after_fault self.old else after_take self.old (length buf.old)) }
    {
        self.calls = self.calls.saturating_add(1);
        if is_listed(self.calls, &self.fail_at) {
            self.faults = self.faults.saturating_add(1);
            return Err(IoErr::Failed);
        }
        let count = overwrite(buf, &self.bytes, self.at);
        self.at += count;
        Ok(count)
    }
}
