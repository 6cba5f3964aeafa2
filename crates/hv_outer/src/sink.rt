//! Where bytes go. Contracts see the bytes that were taken, where they are told, and a count of faults.
ghost use Rattle.std.specs.Prelude.{ℕ, ◌<◌, List, Option, length, IfOk};
ghost use Rattle.std.specs.Io.{WritesAtMost};
ghost use Rattle.std.specs.Io.KnownBytes.{WriteAppends};
ghost use Rattle.hv_outer.specs.Causes.{HasCause};

use crate::IoErr;

/// Where bytes go.
pub trait Sink {
    /// The bytes that were taken, where they are told.
    ghost taken: { Self → Option (List ℕ) };

    /// How often it has failed, which never falls.
    ghost faults: { Self → ℕ };

    /// Takes 1 to all bytes off the front of a piece that isn't empty, and answers how many. After an error none
    /// was taken.
    fn put(&mut self, piece: &[u8]) -> Result<usize, IoErr>
        ensures bound { WritesAtMost result piece.now }
        ensures some { IfOk result (λ n. 0 < length piece.now → 0 < n) }
        ensures bytes { WriteAppends (taken self.old) (taken self.new) result piece.now }
        ensures cause { HasCause (faults self.old) (faults self.new) result };
}
