//! That the sample of joined lists comes from those of each, as the contract of a call that does nothing.

ghost use Rattle.std.specs.Prelude.{◌≡◌, ◌++◌, ℕ, List, take};
ghost use Rattle.hv_value.specs.Rows.{Row};
ghost use Rattle.hv_sketch.specs.Rising.{put_all, rising};
ghost use Rattle.hv_quant.specs.Sample.{by_word, kept, sample_of};
ghost use Rattle.hv_quant.specs.declared.summary.SampledRow.{SampledRow};

use hv_value::Order;

/// The rows least by word of joined lists, at most so many, come from as many of each: they are the least of those of
/// both. So the sample of joined lists of rows is that of each, joined.
pub fn least_of_pieces(order: &Order)
    ensures pieces { (k : ℕ) (a b : List SampledRow) → take k (rising (by_word order.now) kept (a ++ b))
        ≡ take k (rising (by_word order.now) kept (take k (rising (by_word order.now) kept a)
        ++ take k (rising (by_word order.now) kept b))) }
    ensures rows { (seed k : ℕ) (a b : List Row) → sample_of seed k order.now (a ++ b)
        ≡ take k (put_all (by_word order.now) kept (sample_of seed k order.now a) (sample_of seed k order.now b)) }
{
    hv_sketch::least_of_pieces(&crate::compare::WordRanking { order });
}
