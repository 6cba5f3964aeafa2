//! A view of each group of a table's rows.

ghost use Rattle.std.specs.Prelude.{◌≡◌, [], length, IfOk};
ghost use Rattle.hv_sketch.specs.Groups.{AreCopies, AreMade, AreNumbersOfEach, AreSums, CanSum, CanSumEach, IsSum, StandForEach, StandForGroups};

use crate::group_table::GroupTable;
use crate::row_lists::Listing;
use crate::{Groups, Vizketch, gather_rows};
use hv_value::{Listed, Mem, Schema, Table};
use std::alloc::Global;
use std::marker::Model;

/// A view that is taken of the rows of each group.
#[derive(Drop, PartialEq, Eq, Hash)]
pub struct Grouped<G, V> {
    pub groups: G,
    /// The view of each group's rows.
    pub inner: V,
}

/// What a grouped view keeps of some rows: the inner view's summary of each group's, and how many are in
/// no group. Contracts see it as the two.
#[derive(Drop)]
pub struct GroupedSummary<S> {
    groups: Vec<S>,
    rest: u64,
}

impl<S> Model for GroupedSummary<S> {
    ghost use Rattle.std.specs.Prelude.{ℕ, List};

    ghost Value = { List S × ℕ };

    ghost view = { λ s. (s.groups.items, s.rest) };
}

impl<S> GroupedSummary<S> {
    /// The summaries of the groups, in their order.
    pub fn groups(&self) -> &[S]
        ensures { result.now ≡ self.now.0 }
    {
        self.groups.as_slice()
    }

    /// How many rows are in no group.
    pub fn rest(&self) -> u64
        ensures { result ≡ self.now.1 }
    {
        self.rest
    }
}

impl<G: Groups, V: Vizketch> Grouped<G, V> {
    /// The view of each of the groups. It takes no memory.
    pub fn new(groups: G, inner: V) -> Grouped<G, V>
        ensures { result ≡ record { groups = groups; inner = inner } }
    {
        Grouped { groups, inner }
    }
}

impl<G: Groups, V: Vizketch> Vizketch for Grouped<G, V> {
    type Summary = GroupedSummary<V::Summary>;

    ghost stands = { λ view rows s. StandForGroups
        (G.group_of view.groups) (G.count view.groups) (V.stands view.inner) rows s.0 s.1 };

    ghost fits_columns = { λ view columns.
        G.fits_columns view.groups columns × V.fits_columns view.inner columns };

    fn fits(&self, schema: &Schema) -> bool {
        self.groups.fits(schema) && self.inner.fits(schema)
    }

    fn zero(&self, alloc: Global) -> Mem<Self::Summary> {
        Ok(GroupedSummary {
            groups: zeros(alloc, &self.inner, self.groups.groups())?,
            rest: 0,
        })
    }

    /// Two passes: one lists the row numbers of each group, the other summarises each group's rows.
    fn summarize<T: Table>(&self, alloc: Global, table: &T) -> Mem<Self::Summary> {
        let listing = Listing {
            groups: &self.groups,
        };
        let listed = gather_rows(alloc, &listing, table)?;
        let groups = summaries(alloc, &self.groups, &self.inner, table, &listed.lists)?;
        Ok(GroupedSummary {
            groups,
            rest: listed.rest,
        })
    }

    /// Merges copies of all groups' summaries, so that an Err leaves `acc` as it was.
    fn merge_into(&self, alloc: Global, acc: &mut Self::Summary, d: &Self::Summary) -> Mem<()> {
        let groups = sums(alloc, &self.inner, acc.groups(), d.groups())?;
        let rest = acc.rest() + d.rest();
        *acc = GroupedSummary { groups, rest };
        Ok(())
    }

    fn copy(&self, alloc: Global, s: &Self::Summary) -> Mem<Self::Summary> {
        Ok(GroupedSummary {
            groups: copies(alloc, &self.inner, s.groups())?,
            rest: s.rest(),
        })
    }

    ghost use Rattle.hv_sketch.specs.GroupLaws.{StandForGroups-swap};

    ghost any_order = { λ view a b c s h. StandForGroups-swap
        (G.group_of view.groups) (G.count view.groups) (V.stands view.inner)
        (V.any_order view.inner) a b c s.0 s.1 h };
}

/// So many summaries of no rows.
fn zeros<V: Vizketch>(alloc: Global, view: &V, count: u32) -> Mem<Vec<V::Summary>>
    ensures { IfOk result (λ made. AreMade (λ group s. V.stands view.now [] s) count made.items) }
{
    let mut made = Vec::new(alloc);
    for _group in 0..count {
        made.push(view.zero(alloc)?)?;
    }
    Ok(made)
}

/// The summary of each group's rows, by the lists of their numbers.
fn summaries<G: Groups, V: Vizketch, T: Table>(
    alloc: Global,
    groups: &G,
    view: &V,
    table: &T,
    lists: &[Listed<u32>],
) -> Mem<Vec<V::Summary>>
    requires fit { V.fits_columns view.now (T.columns table.now) }
    requires listed { AreNumbersOfEach (G.group_of groups.now) (G.count groups.now)
        (T.rows table.now) lists.now }
    ensures { IfOk result (λ made. StandForEach (G.group_of groups.now) (G.count groups.now)
        (V.stands view.now) (T.rows table.now) made.items) }
{
    let mut made = Vec::new(alloc);
    for group in 0..groups.groups() {
        let numbers = lists[group as usize].as_slice();
        let part = GroupTable::new(table, groups, group, numbers);
        made.push(view.summarize(alloc, &part)?)?;
    }
    Ok(made)
}

/// Copies of some summaries.
fn copies<V: Vizketch>(alloc: Global, view: &V, summaries: &[V::Summary]) -> Mem<Vec<V::Summary>>
    ensures { IfOk result (λ made. AreCopies (V.stands view.now) summaries.now made.items) }
{
    let mut made = Vec::new(alloc);
    for summary in summaries {
        made.push(view.copy(alloc, summary)?)?;
    }
    Ok(made)
}

/// Each of some summaries merged with the one at its place in another list.
fn sums<V: Vizketch>(
    alloc: Global,
    view: &V,
    acc: &[V::Summary],
    d: &[V::Summary],
) -> Mem<Vec<V::Summary>>
    requires many { length d.now ≡ length acc.now }
    requires fit { CanSumEach (V.stands view.now) acc.now d.now }
    ensures { IfOk result (λ made. AreSums (V.stands view.now) acc.now d.now made.items) }
{
    let mut made = Vec::new(alloc);
    for place in 0..acc.len() {
        made.push(merged(alloc, view, &acc[place], &d[place])?)?;
    }
    Ok(made)
}

/// A summary merged with another, as a new one.
fn merged<V: Vizketch>(
    alloc: Global,
    view: &V,
    s: &V::Summary,
    more: &V::Summary,
) -> Mem<V::Summary>
    requires { CanSum (V.stands view.now) s.now more.now }
    ensures { IfOk result (λ t. IsSum (V.stands view.now) s.now more.now t) }
{
    let mut sum = view.copy(alloc, s)?;
    view.merge_into(alloc, &mut sum, more)?;
    Ok(sum)
}
