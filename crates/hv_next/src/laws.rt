//! That the next rows of joined lists come from those of each, as the contract of a call that does nothing.

ghost use Rattle.std.specs.Prelude.{◌≡◌, ◌++◌, ℕ, List, Option, take};
ghost use Rattle.hv_value.specs.declared.cell.Cell.{Cell};
ghost use Rattle.hv_value.specs.Rows.{Row};
ghost use Rattle.hv_sketch.specs.Rising.{rising};
ghost use Rattle.hv_next.specs.Next.{added, compare_rows, next_of};
ghost use Rattle.hv_next.specs.NextSums.{next_sum};
ghost use Rattle.hv_next.specs.declared.summary.NextRow.{NextRow};

use hv_value::Order;

/// The least different keys of joined lists, at most so many, come from as many of each: they are the least of those
/// of both. So the next rows of joined lists of rows are those of each, joined.
pub fn least_of_pieces(order: &Order)
    ensures keys { (k : ℕ) (a b : List NextRow) → take k (rising (compare_rows order.now) added (a ++ b))
        ≡ take k (rising (compare_rows order.now) added (take k (rising (compare_rows order.now) added a)
        ++ take k (rising (compare_rows order.now) added b))) }
    ensures rows { (after : Option (List Cell)) (k : ℕ) (a b : List Row) → next_of order.now after k (a ++ b)
        ≡ next_sum order.now k (next_of order.now after k a) (next_of order.now after k b) }
{
    hv_sketch::least_of_pieces(&crate::key_ranking::KeyRanking { order });
}
