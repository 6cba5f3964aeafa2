//! The least of the pairs that come by, each a row's word above its number in one `u64` (specs/Pairs.antt). A pair that
//! can't be among them costs one comparison, another one a push; now and then those kept are sorted and cut.

ghost use Rattle.std.specs.Prelude.{◌≡◌, ◌++◌, [], ◌∷◌, ℕ, List, OnOk};
ghost use Rattle.std.specs.Ordering.{nat_cmp};
ghost use Rattle.hv_sketch.specs.Rising.{rising};
ghost use Rattle.hv_quant.specs.Pairs.{AreNearest, least_pairs};
ghost use Rattle.hv_quant.specs.Sample.{kept};

use hv_value::Mem;
use std::alloc::Global;

/// How many pairs are kept beyond twice as many as are wanted, before they are cut.
const SPARE: usize = 256;

/// The pairs that may be among the least so far.
#[derive(Drop)]
pub(crate) struct Nearest {
    pub(crate) pairs: Vec<u64>,
    // No pair above it is among the least.
    pub(crate) edge: u64,
}

impl Nearest {
    /// The least of no pairs.
    pub(crate) fn new(alloc: Global) -> Nearest
        ensures { (k : ℕ) → AreNearest k [] result }
    {
        Nearest {
            pairs: Vec::new(alloc),
            edge: u64::MAX,
        }
    }

    /// Adds a pair where it may be among the `k` least. It keeps fewer than `2 * k + 256`. After an Err nothing is
    /// known of them.
    pub(crate) fn add(&mut self, k: u32, pair: u64) -> Mem<()>
        ensures { OnOk result ((pairs : List ℕ) → AreNearest k pairs self.old → AreNearest k (pairs ++ pair ∷ []) self.new) }
    {
        if pair > self.edge {
            return Ok(());
        }
        self.pairs.push(pair)?;
        if self.pairs.len() >= 2 * k as usize + SPARE {
            self.cut(k);
        }
        Ok(())
    }

    /// Keeps the `k` least alone, rising.
    pub(crate) fn cut(&mut self, k: u32)
        ensures least { self.new.pairs.items ≡ least_pairs k self.old.pairs.items }
        ensures near { (pairs : List ℕ) → AreNearest k pairs self.old → AreNearest k pairs self.new }
    {
        sort_pairs(&mut self.pairs);
        self.pairs.truncate(k as usize);
        let count = self.pairs.len();
        if count == k as usize && count > 0 {
            self.edge = self.pairs[count - 1];
        }
    }
}

/// Sorts pairs, and leaves each once.
fn sort_pairs(pairs: &mut Vec<u64>)
    ensures { pairs.new.items ≡ rising nat_cmp kept pairs.old.items }
{
    pairs.sort_unstable();
    pairs.dedup();
}
