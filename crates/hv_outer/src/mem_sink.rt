//! A sink in memory with a fixed room. Contracts see it as a `SinkState` (`specs/SinkState.antt`).
ghost use Rattle.std.specs.Prelude.{◌≡◌, ◌↔◌, ◌<◌, ◌≤◌, min, length, Some, IfOk, OnOk, IsErrOf};
ghost use Rattle.std.specs.Io.{WritesAtMost};
ghost use Rattle.std.specs.Io.KnownBytes.{WriteAppends};
ghost use Rattle.hv_outer.specs.Causes.{HasCause};
ghost use Rattle.hv_outer.specs.SinkState.{with_room, free_room, Overflows, after_put, after_overflow};

use crate::{IoErr, Sink};
use std::alloc::Global;
use std::marker::Model;

/// A sink in memory that tells what it took. It takes bytes until its room is held, and then fails.
#[derive(Drop)]
pub struct MemSink {
    held: Vec<u8>,
    room: u64,
    faults: u64,
}

impl Model for MemSink {
    ghost use Rattle.std.specs.Prelude.{◌≤◌, length};
    ghost use Rattle.hv_outer.specs.SinkState.{SinkState};

    ghost Value = { SinkState };

    ghost view = { λ s. record { held = s.held.items; room = s.room; faults = s.faults } };

    ghost invariant = { λ s. length s.held.items ≤ s.room };
}

impl MemSink {
    /// A sink that takes `room` bytes in all. It takes memory as it grows, by doubling.
    pub fn new(alloc: Global, room: u64) -> MemSink
        ensures { result ≡ with_room room }
    {
        MemSink {
            held: Vec::new(alloc),
            room,
            faults: 0,
        }
    }

    /// The bytes that it took, in order.
    pub fn contents(&self) -> &[u8]
        ensures bytes { result.now ≡ self.now.held }
        ensures within { length result.now ≤ self.now.room }
    {
        &self.held
    }

    /// How many calls have failed.
    pub fn faults(&self) -> u64
        ensures { result ≡ self.now.faults }
    {
        self.faults
    }
}

impl Sink for MemSink {
    ghost use Rattle.std.specs.Prelude.{Some};

    ghost taken = { λ s. Some s.held };

    ghost faults = { λ s. s.faults };

    /// Takes as many bytes as fit, and fails exactly where none of a piece that isn't empty fits.
    fn put(&mut self, piece: &[u8]) -> Result<usize, IoErr>
        ensures bound { WritesAtMost result piece.now }
        ensures some { IfOk result (λ n. 0 < length piece.now → 0 < n) }
        ensures bytes { WriteAppends (Some self.old.held) (Some self.new.held) result piece.now }
        ensures cause { HasCause self.old.faults self.new.faults result }

        // As many as fit.
        ensures count { IfOk result (λ n. n ≡ min (length piece.now) (free_room self.old)) }
        ensures ok { OnOk result (self.new ≡ after_put self.old piece.now) }

        // Exactly when it fails, and what it then leaves.
        ensures full { IsErrOf result IoErr.Failed ↔ Overflows self.old piece.now }
        ensures fault { IsErrOf result IoErr.Failed → self.new ≡ after_overflow self.old }
        ensures memory { IsErrOf result IoErr.Memory → self.new ≡ self.old }
    {
        if piece.is_empty() {
            return Ok(0);
        }
        let free = self.room - self.held.len() as u64;
        if free == 0 {
            self.faults = self.faults.saturating_add(1);
            return Err(IoErr::Failed);
        }
        let count = piece.len().min(free as usize);
        self.held.extend_from_slice(&piece[..count])?;
        Ok(count)
    }
}
