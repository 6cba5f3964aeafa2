//! Where bytes come from. Contracts see the bytes that are left, where they are told, and a count of faults.
ghost use Rattle.std.specs.Prelude.{ℕ, List, Option};
ghost use Rattle.std.specs.Io.{ReadsAtMost};
ghost use Rattle.std.specs.Io.KnownBytes.{ReadConsumes};
ghost use Rattle.hv_outer.specs.Causes.{HasCause};

use crate::IoErr;

/// Where bytes come from.
pub trait Source {
    /// The bytes that are left, where they are told.
    ghost left: { Self → Option (List ℕ) };

    /// How often it has failed, which never falls.
    ghost faults: { Self → ℕ };

    /// Moves a front of what is left to the front of `buf`, and answers how many bytes that was. 0 for a `buf` that
    /// isn't empty is the end. What follows them in `buf` may be anything. After an error nothing was taken.
    fn take(&mut self, buf: &mut [u8]) -> Result<usize, IoErr>
        ensures bound { ReadsAtMost result buf.new }
        ensures bytes { ReadConsumes (left self.old) (left self.new) result buf.new }
        ensures cause { HasCause (faults self.old) (faults self.new) result };
}
