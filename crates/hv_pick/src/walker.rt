//! `Walker`, which goes through the words of one partition by rising rows.
//! A contract sees it as the record `Walk` of `specs/Walk.antt`.
ghost use Rattle.std.specs.Prelude.{◌≡◌, ◌+◌, ◌≤◌};
ghost use Rattle.rand_pcg.specs.Lcg.{advance};
ghost use Rattle.rand_pcg.specs.Pcg.{multiplier_64};
ghost use Rattle.hv_pick.specs.Word.{word_of};

use crate::words::generator_of;
use rand_core::utils::NextWord;
use rand_pcg::Lcg64Xsh32;
use std::marker::Model;

/// A walk over the words of one partition, by rising rows.
#[derive(Drop)]
pub struct Walker {
    seed: u64,
    part: u32,
    // From 0 to 2^32, which follows the last row, so that a `u32` is too narrow.
    next: u64,
    generator: Lcg64Xsh32,
}

impl Model for Walker {
    ghost use Rattle.std.specs.Prelude.{◌≡◌};
    ghost use Rattle.hv_pick.specs.Walk.{Walk};
    ghost use Rattle.hv_pick.specs.Word.{generator_at};

    ghost Value = { Walk };

    ghost view = { λ w. record { seed = w.seed; part = w.part; next = w.next } };

    ghost invariant = { λ w. w.generator ≡ generator_at w.seed w.part w.next };
}

impl Walker {
    /// Begins before the partition's first row.
    pub fn new(seed: u64, part: u32) -> Walker
        ensures { result ≡ record { seed = seed; part = part; next = 0 } }
    {
        Walker {
            seed,
            part,
            next: 0,
            generator: generator_of(seed, part),
        }
    }

    /// The word of `row`, which is above each row asked for before.
    ///
    /// It costs one step where `row` follows the last one, and else a number of steps that is
    /// logarithmic in the rows left out.
    pub fn at(&mut self, row: u32) -> u32
        requires rising { self.old.next ≤ row }
        ensures word { result ≡ word_of self.old.seed self.old.part row }
        ensures next { self.new ≡ record self.old { next = row + 1 } }
    {
        let row = u64::from(row);
        skip(&mut self.generator, row - self.next);
        self.next = row + 1;
        self.generator.next_word()
    }
}

// Leaves out `steps` words. A jump has a cost also where it leads nowhere, so none is made there.
fn skip(generator: &mut Lcg64Xsh32, steps: u64)
    ensures { generator.new ≡ advance 64 multiplier_64 steps generator.old }
{
    if steps > 0 {
        generator.advance(steps);
    }
}
