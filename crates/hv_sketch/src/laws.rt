//! What the laws give of any vizketch and any ranking, as contracts of calls that do nothing.

ghost use Rattle.std.specs.Prelude.{List, IsPermutation};
ghost use Rattle.hv_value.specs.Rows.{Row};
ghost use Rattle.hv_sketch.specs.Rising.{LeastOfJoined, LeastOfPieces};

use crate::{Ranking, Vizketch};

/// What a summary stands for doesn't depend on the order of the rows: as they were delivered, by
/// partition, or in any other.
pub fn order_is_free<V: Vizketch>(view: &V, summary: &V::Summary)
    ensures { (xs ys : List Row) → IsPermutation xs ys
        → V.stands view.now xs summary.now → V.stands view.now ys summary.now }
{}

/// The least different items of joined lists, at most so many, come from as many of each: they are the
/// least of those of both, and of those of both as `joined` joins them.
pub fn least_of_pieces<R: Ranking>(ranking: &R)
    ensures pieces { LeastOfPieces (R.cmp ranking.now) (R.join ranking.now) }
    ensures joined { LeastOfJoined (R.cmp ranking.now) (R.join ranking.now) }
{}
