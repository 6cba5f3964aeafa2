//! The next rows as a vizketch: its summary stands for rows where it is what specs/Next.antt says of them.

ghost use Rattle.std.specs.Prelude.{◌≡◌, option_map, take, IfOk};
ghost use Rattle.hv_sketch.specs.Joining.{AreJoinable};
ghost use Rattle.hv_sketch.specs.Rising.{IsRising, put_all};
ghost use Rattle.hv_next.specs.Next.{added, compare_rows};
ghost use Rattle.hv_next.specs.NextSums.{CanAdd};

use crate::add_key::{add_key, is_past};
use crate::key_ranking::KeyRanking;
use crate::{CountedKeys, NextRow, NextSummary, copied_key, fits_keys, is_above};
use hv_sketch::{Gather, Vizketch, gather_rows, joined};
use hv_value::{Cell, Listed, Mem, Order, Schema, Table};
use std::alloc::Global;

/// The first different keys of an order above a key, at most so many, each with its number of rows.
#[derive(Drop)]
pub struct NextRows {
    /// The columns by which the rows order.
    pub order: Order,
    /// The key above which the rows are, of one cell for each key of the order; none for all rows.
    pub after: Option<Listed<Cell>>,
    /// How many keys are kept at most.
    pub k: u32,
}

impl NextRows {
    /// The first `k` keys above `after`. It takes no memory.
    pub fn new(order: Order, after: Option<Vec<Cell>>, k: u32) -> NextRows
        ensures { result ≡ record { order = order; after = option_map (λ cells. cells.items) after; k = k } }
    {
        let after = match after {
            Some(cells) => Some(Listed::from_vec(cells)),
            None => None,
        };
        NextRows { order, after, k }
    }

    /// An equal view.
    pub fn copied(&self, alloc: Global) -> Mem<NextRows>
        ensures { IfOk result (λ view. view ≡ self.now) }
    {
        let after = copied_key(alloc, &self.after)?;
        Ok(NextRows {
            order: self.order.copied(alloc)?,
            after,
            k: self.k,
        })
    }
}

impl Gather for NextRows {
    ghost use Rattle.hv_next.specs.Fits.{FitsNext};
    ghost use Rattle.hv_next.specs.Next.{IsNext};

    type Gathered = NextSummary;

    ghost gathers = { λ view part rows summary. IsNext view.order view.after view.k rows summary };

    ghost takes = { λ view columns. FitsNext view.order view.after columns };

    fn start<T: Table>(&self, alloc: Global, _table: &T) -> Mem<NextSummary> {
        Ok(NextSummary::empty(alloc))
    }

    #[inline(always)]
    fn add_row<T: Table>(
        &self,
        alloc: Global,
        kept: &mut NextSummary,
        table: &T,
        row: u32,
    ) -> Mem<()> {
        // a key above all that are kept is above `after` too, as they are
        if is_past(kept.rows.as_slice(), &self.order, self.k, table, row) {
            return Ok(());
        }
        if is_above(&self.order, &self.after, table, row) {
            return add_key(alloc, &mut kept.rows, &self.order, self.k, table, row);
        }
        kept.before += 1;
        Ok(())
    }
}

impl Vizketch for NextRows {
    ghost use Rattle.hv_next.specs.Fits.{FitsNext};
    ghost use Rattle.hv_next.specs.Next.{IsNext};
    ghost use Rattle.hv_next.specs.NextLaws.{IsNext-swap};

    type Summary = NextSummary;

    ghost stands = { λ view rows summary. IsNext view.order view.after view.k rows summary };

    ghost fits_columns = { λ view columns. FitsNext view.order view.after columns };

    fn fits(&self, schema: &Schema) -> bool {
        fits_keys(schema, &self.order, &self.after)
    }

    fn zero(&self, alloc: Global) -> Mem<NextSummary> {
        Ok(NextSummary::empty(alloc))
    }

    fn summarize<T: Table>(&self, alloc: Global, table: &T) -> Mem<NextSummary> {
        gather_rows(alloc, self, table)
    }

    fn merge_into(&self, alloc: Global, acc: &mut NextSummary, d: &NextSummary) -> Mem<()> {
        let rows = joined_keys(
            alloc,
            &self.order,
            acc.rows.as_slice(),
            d.rows.as_slice(),
            self.k,
        )?;
        acc.rows = rows;
        acc.before += d.before;
        Ok(())
    }

    fn copy(&self, alloc: Global, s: &NextSummary) -> Mem<NextSummary> {
        s.copy(alloc)
    }

    ghost any_order = { λ view a b c summary h. IsNext-swap view.order view.after view.k a b c summary h };
}

/// The `k` least keys of two rising lists, equal keys with the rows of both.
fn joined_keys(
    alloc: Global,
    order: &Order,
    a: &[NextRow],
    b: &[NextRow],
    k: u32,
) -> Mem<CountedKeys>
    requires left { IsRising (compare_rows order.now) a.now }
    requires right { IsRising (compare_rows order.now) b.now }
    requires joinable { AreJoinable (compare_rows order.now) CanAdd a.now b.now }
    ensures { IfOk result (λ keys. keys ≡ take k (put_all (compare_rows order.now) added a.now b.now)) }
{
    let rows = joined(alloc, &KeyRanking { order }, a, b, k as usize)?;
    Ok(CountedKeys::from_vec(rows))
}
