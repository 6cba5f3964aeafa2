//! Any writer of std as a sink. Contracts see the writer and the count (`specs/Counted.antt`).
ghost use Rattle.std.specs.Prelude.{◌≡◌, ◌<◌, length, IfOk};
ghost use Rattle.std.specs.Io.{WritesAtMost};
ghost use Rattle.std.specs.Io.KnownBytes.{WriteAppends};
ghost use Rattle.hv_outer.specs.Causes.{HasCause, counted};
ghost use Rattle.hv_outer.specs.Counted.{not_failed};

use crate::io_err::count_error;
use crate::{IoErr, Sink};
use std::io::Write;
use std::marker::Model;

/// A writer of std, as standard output, as a sink. It tells what it took where the writer does.
///
/// As std's own `write` does, it hands on an interrupted write as an error and tries none again. Each error but want
/// of memory is a counted fault, and so is a writer that takes nothing of a piece that isn't empty. It never flushes.
#[derive(Drop)]
pub struct WriteSink<W> {
    inner: W,
    faults: u64,
}

impl<W> Model for WriteSink<W> {
    ghost use Rattle.hv_outer.specs.Counted.{Counted, counted_code};

    ghost Value = { Counted W };

    ghost coded = { counted_code W.code };

    ghost view = { λ s. record { inner = s.inner; faults = s.faults } };
}

impl<W> WriteSink<W> {
    /// A sink over this writer.
    pub fn new(inner: W) -> WriteSink<W>
        ensures { result ≡ not_failed inner }
    {
        WriteSink { inner, faults: 0 }
    }

    /// How many writes have failed.
    pub fn faults(&self) -> u64
        ensures { result ≡ self.now.faults }
    {
        self.faults
    }
}

impl<W: Write> Sink for WriteSink<W> {
    ghost taken = { λ s. W.contents s.inner };

    ghost faults = { λ s. s.faults };

    fn put(&mut self, piece: &[u8]) -> Result<usize, IoErr>
        ensures bound { WritesAtMost result piece.now }
        ensures some { IfOk result (λ n. 0 < length piece.now → 0 < n) }
        ensures bytes { WriteAppends (W.contents self.old.inner) (W.contents self.new.inner) result piece.now }
        ensures cause { HasCause self.old.faults self.new.faults result }
        ensures count { self.new.faults ≡ counted self.old.faults result }
    {
        match self.inner.write(piece) {
            Ok(0) if !piece.is_empty() => {
                self.faults = self.faults.saturating_add(1);
                Err(IoErr::Failed)
            }
            Ok(count) => Ok(count),
            Err(error) => Err(count_error(&error, &mut self.faults)),
        }
    }
}
