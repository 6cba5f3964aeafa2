//! Any reader of std as a source. Contracts see the reader and the count (`specs/Counted.antt`).
ghost use Rattle.std.specs.Prelude.{◌≡◌};
ghost use Rattle.std.specs.Io.{ReadsAtMost};
ghost use Rattle.std.specs.Io.KnownBytes.{ReadConsumes};
ghost use Rattle.hv_outer.specs.Causes.{HasCause, counted};
ghost use Rattle.hv_outer.specs.Counted.{not_failed};

use crate::io_err::count_error;
use crate::{IoErr, Source};
use std::io::Read;
use std::marker::Model;

/// A reader of std, as standard input, as a source. It tells what is left where the reader does.
///
/// As std's own `read` does, it hands on an interrupted read as an error and tries none again. Each error but want
/// of memory is a counted fault.
#[derive(Drop)]
pub struct ReadSource<R> {
    inner: R,
    faults: u64,
}

impl<R> Model for ReadSource<R> {
    ghost use Rattle.hv_outer.specs.Counted.{Counted, counted_code};

    ghost Value = { Counted R };

    ghost coded = { counted_code R.code };

    ghost view = { λ s. record { inner = s.inner; faults = s.faults } };
}

impl<R> ReadSource<R> {
    /// A source over this reader.
    pub fn new(inner: R) -> ReadSource<R>
        ensures { result ≡ not_failed inner }
    {
        ReadSource { inner, faults: 0 }
    }

    /// How many reads have failed.
    pub fn faults(&self) -> u64
        ensures { result ≡ self.now.faults }
    {
        self.faults
    }
}

impl<R: Read> Source for ReadSource<R> {
    ghost left = { λ s. R.remaining s.inner };

    ghost faults = { λ s. s.faults };

    fn take(&mut self, buf: &mut [u8]) -> Result<usize, IoErr>
        ensures bound { ReadsAtMost result buf.new }
        ensures bytes { ReadConsumes (R.remaining self.old.inner) (R.remaining self.new.inner) result buf.new }
        ensures cause { HasCause self.old.faults self.new.faults result }
        ensures count { self.new.faults ≡ counted self.old.faults result }
    {
        match self.inner.read(buf) {
            Ok(count) => Ok(count),
            Err(error) => Err(count_error(&error, &mut self.faults)),
        }
    }
}
