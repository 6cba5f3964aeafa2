//! When two views of samples are the same. What a hash of one writes is in specs/Hashes.antt.

ghost use Rattle.std.specs.Prelude.{◌≡◌, ◌↔◌, IsTrue};
ghost use Rattle.std.specs.Cmp.{partial_equiv_from_equiv};
ghost use Rattle.std.proofs.Common.{ap};
ghost use Rattle.hv_value.specs.Same.{same_by};
ghost use Rattle.hv_value.specs.SameLaws.{same_by-decides, same_by-equiv};
ghost use Rattle.hv_quant.specs.Hashes.{sample_writes};

use crate::Sample;
use hv_next::are_same_orders;
use std::hash::{Hash, Hasher};

impl Sample {
    /// Whether two views are the same.
    pub fn same(&self, other: &Sample) -> bool
        ensures { IsTrue result ↔ (self.now ≡ other.now) }
    {
        self.seed == other.seed
            && self.k == other.k
            && self.q == other.q
            && are_same_orders(&self.order, &other.order)
    }
}

/// Two views are equal where they are the same.
impl PartialEq for Sample {
    ghost use Rattle.hv_quant.specs.contracts.sample.Sample as row;

    ghost eq = { same_by row.the_row.coded };

    ghost laws = { partial_equiv_from_equiv (same_by-equiv row.the_row.coded) };

    fn eq(&self, other: &Sample) -> bool {
        self.same(other)
    }
}

impl Eq for Sample {
    ghost use Rattle.hv_quant.specs.contracts.sample.Sample as row;

    ghost laws = { same_by-equiv row.the_row.coded };
}

/// The same views write the same into a hasher.
impl Hash for Sample {
    ghost use Rattle.hv_quant.specs.contracts.sample.Sample as row;

    ghost hash_input = { sample_writes };

    ghost respects_eq = { λ x y e. ap sample_writes ((same_by-decides row.the_row.coded x y).0 e) };

    fn hash<H: Hasher>(&self, state: &mut H) {
        self.order.hash(state);
        self.seed.hash(state);
        self.k.hash(state);
        self.q.hash(state);
    }
}
