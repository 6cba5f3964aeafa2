//! The words from which a session draws its seeds.

ghost use Rattle.std.specs.Prelude.{◌≡◌};
ghost use Rattle.hv_pick.specs.Word.{word_of};

use hv_pick::word;

/// A session's words: those of the generator `Lcg64Xsh32` at a seed, on a stream.
#[derive(Clone, Copy, Debug, PartialEq, Eq)]
pub struct Seeds {
    pub seed: u64,
    pub stream: u32,
}

impl Seeds {
    /// The seed that is drawn after so many others, in a number of steps that is logarithmic in these.
    pub(crate) fn after(self, drawn: u32) -> u64
        ensures { result ≡ word_of self.seed self.stream drawn }
    {
        u64::from(word(self.seed, self.stream, drawn))
    }
}
