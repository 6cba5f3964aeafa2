//! Heavy hitters as a value: pairs of a value and an estimate of how many cells it is, and how many cells there are
//! (specs/Heavy.antt).

ghost use Rattle.std.specs.Prelude.{◌≡◌, [], IfOk};

use hv_value::{Cell, Listed, Mem};
use std::alloc::Global;

/// A value, and an estimate of how many cells it is: no more than it is.
#[derive(Drop)]
pub struct HeavyPair {
    pub value: Cell,
    /// At least 1.
    pub estimate: u64,
}

impl HeavyPair {
    /// An equal pair.
    pub fn copy(&self, alloc: Global) -> Mem<HeavyPair>
        ensures { IfOk result (λ pair. pair ≡ self.now) }
    {
        Ok(HeavyPair {
            value: Cell::of(alloc, self.value.lent())?,
            estimate: self.estimate,
        })
    }
}

/// At most so many values of a column, each with an estimate, and how many cells the column has.
#[derive(Drop)]
pub struct HeavySummary {
    /// How many cells are missing.
    pub missing: u64,
    /// How many aren't.
    pub n: u64,
    /// The values, strictly rising, each with its estimate.
    pub pairs: Listed<HeavyPair>,
}

impl HeavySummary {
    /// The heavy hitters of no cells.
    pub(crate) fn empty(alloc: Global) -> HeavySummary
        ensures { result ≡ record { missing = 0; n = 0; pairs = [] } }
    {
        HeavySummary {
            missing: 0,
            n: 0,
            pairs: Listed::new(alloc),
        }
    }

    /// An equal summary.
    pub fn copy(&self, alloc: Global) -> Mem<HeavySummary>
        ensures { IfOk result (λ s. s ≡ self.now) }
    {
        Ok(HeavySummary {
            missing: self.missing,
            n: self.n,
            pairs: copied_pairs(alloc, self.pairs.as_slice())?,
        })
    }
}

fn copied_pairs(alloc: Global, pairs: &[HeavyPair]) -> Mem<Listed<HeavyPair>>
    ensures { IfOk result (λ copy. copy ≡ pairs.now) }
{
    let mut copy = Listed::new(alloc);
    for pair in pairs {
        copy.push(pair.copy(alloc)?)?;
    }
    Ok(copy)
}
