//! The word of a row, and whether it is picked: functions of the row's place alone.
//! The definitions stand in `specs/Word.antt`.
ghost use Rattle.std.specs.Prelude.{◌≡◌};
ghost use Rattle.hv_pick.specs.Word.{generator_of, is_picked, word_of};

use rand_core::utils::NextWord;
use rand_pcg::Lcg64Xsh32;

/// The word of a row of a partition, in a number of steps that is logarithmic in `row`.
#[tactic(auto, unfolding(crate::specs::Word::word_of))]
pub fn word(seed: u64, part: u32, row: u32) -> u32
    ensures { result ≡ word_of seed part row }
{
    let mut generator = generator_of(seed, part);
    generator.advance(u64::from(row));
    generator.next_word()
}

/// Whether a row of a partition is picked.
///
/// The threshold counts 2^32nds of the rows: none is picked at 0, each at 2^32 and above.
pub fn picked(seed: u64, threshold: u64, part: u32, row: u32) -> bool
    ensures { result ≡ is_picked seed threshold part row }
{
    u64::from(word(seed, part, row)) < threshold
}

// The generator of a partition before any step.
pub(crate) fn generator_of(seed: u64, part: u32) -> Lcg64Xsh32
    ensures { result ≡ generator_of seed part }
{
    Lcg64Xsh32::new(seed, u64::from(part))
}
