//! Items in a total order, those that tie joined: two rising lists of them as one, of which the least are
//! kept.

ghost use Rattle.std.specs.Prelude.{◌≡◌, [], take, IfOk, IfSome, IsNone};
ghost use Rattle.hv_sketch.specs.Joining.{AreJoinable, IsFirst};
ghost use Rattle.hv_sketch.specs.Rising.{IsRising, put_all};

use hv_value::Mem;
use std::alloc::Global;
use std::cmp::Ordering;

/// A total order of items, and one item in place of two that tie. It is an object of its own, and not the
/// item, since a view's order may have to be known.
pub trait Ranking {
    ghost use Rattle.std.specs.Prelude.{⊤};
    ghost use Rattle.std.specs.Cmp.{IsTotalOrder};
    ghost use Rattle.std.specs.declared.cmp.Ordering.{Ordering};
    ghost use Rattle.std.specs.declared.cmp.Ordering.TheVariants.{Equal};
    ghost use Rattle.hv_sketch.specs.Rising.{JoinsTies};

    /// What is ranked.
    type Item: Drop;

    // how two items compare
    ghost cmp: { Self → Self.Item → Self.Item → Ordering };

    // what stands for two that tie
    ghost join: { Self → Self.Item → Self.Item → Self.Item };

    // whether two that tie may be joined, as where their sum fits; one that says nothing joins all
    ghost may_join: { Self → Self.Item → Self.Item → Type 0 } = { λ _ _ _. ⊤ };

    /// How two items compare.
    fn compare(&self, a: &Self::Item, b: &Self::Item) -> Ordering
        ensures { result ≡ cmp self.now a.now b.now };

    /// One item in place of two that tie.
    fn join(&self, alloc: Global, a: &Self::Item, b: &Self::Item) -> Mem<Self::Item>
        requires tied { cmp self.now a.now b.now ≡ Equal }
        requires may { may_join self.now a.now b.now }
        ensures { IfOk result (λ item. item ≡ join self.now a.now b.now) };

    /// An equal item.
    fn copy(&self, alloc: Global, a: &Self::Item) -> Mem<Self::Item>
        ensures { IfOk result (λ item. item ≡ a.now) };

    // The items are in a total order.
    ghost order: { (ranking : Self) → IsTotalOrder (cmp ranking) };

    // What stands for two that tie is at their place, and the same in any order and any grouping.
    ghost ties: { (ranking : Self) → JoinsTies (cmp ranking) (join ranking) };
}

/// Two rising lists joined, items that tie as one: the least of them, at most so many, and no step past
/// them.
pub fn joined<R: Ranking>(
    alloc: Global,
    ranking: &R,
    a: &[R::Item],
    b: &[R::Item],
    most: usize,
) -> Mem<Vec<R::Item>>
    requires left { IsRising (R.cmp ranking.now) a.now }
    requires right { IsRising (R.cmp ranking.now) b.now }
    requires joinable { AreJoinable (R.cmp ranking.now) (R.may_join ranking.now) a.now b.now }
    ensures { IfOk result (λ items. items.items
        ≡ take most (put_all (R.cmp ranking.now) (R.join ranking.now) a.now b.now)) }
{
    let mut items = Vec::new(alloc);
    let (mut left, mut right) = (a, b);
    while items.len() < most {
        let Some(step) = first_of(alloc, ranking, left, right)? else {
            return Ok(items);
        };
        items.push(step.item)?;
        left = step.left;
        right = step.right;
    }
    Ok(items)
}

/// The least of two lists, and what is left of both.
#[derive(Drop)]
struct Step<'a, T: Drop> {
    item: T,
    left: &'a [T],
    right: &'a [T],
}

/// The least item of two rising lists, and what is left of both without it; None where both are empty.
fn first_of<'a, R: Ranking>(
    alloc: Global,
    ranking: &R,
    a: &'a [R::Item],
    b: &'a [R::Item],
) -> Mem<Option<Step<'a, R::Item>>>
    requires left { IsRising (R.cmp ranking.now) a.now }
    requires right { IsRising (R.cmp ranking.now) b.now }
    requires joinable { AreJoinable (R.cmp ranking.now) (R.may_join ranking.now) a.now b.now }
    ensures some { IfOk result (λ found. IfSome found (λ step. IsFirst
        (R.cmp ranking.now) (R.join ranking.now) (R.may_join ranking.now) a.now b.now
        step.item step.left.now step.right.now)) }
    ensures none { IfOk result (λ found. IsNone found
        → put_all (R.cmp ranking.now) (R.join ranking.now) a.now b.now ≡ []) }
{
    let [x, after_x @ ..] = a else {
        let [y, after_y @ ..] = b else {
            return Ok(None);
        };
        let item = ranking.copy(alloc, y)?;
        return Ok(Some(Step {
            item,
            left: a,
            right: after_y,
        }));
    };
    let [y, after_y @ ..] = b else {
        let item = ranking.copy(alloc, x)?;
        return Ok(Some(Step {
            item,
            left: after_x,
            right: b,
        }));
    };
    let (item, left, right) = match ranking.compare(x, y) {
        Ordering::Less => (ranking.copy(alloc, x)?, after_x, b),
        Ordering::Equal => (ranking.join(alloc, x, y)?, after_x, after_y),
        Ordering::Greater => (ranking.copy(alloc, y)?, a, after_y),
    };
    Ok(Some(Step { item, left, right }))
}
