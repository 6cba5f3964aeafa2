//! The sample as a vizketch: its summary stands for rows where it is what specs/Sample.antt says of them.

ghost use Rattle.std.specs.Prelude.{◌≡◌, take, IfOk};
ghost use Rattle.hv_sketch.specs.Rising.{IsRising, put_all};
ghost use Rattle.hv_quant.specs.Sample.{by_word, kept};

use crate::compare::WordRanking;
use crate::keyed::{WORDS, keyed_rows};
use crate::nearest::Nearest;
use crate::{SampleSummary, SampledRow, Sampling};
use hv_next::fits_keys;
use hv_pick::Walker;
use hv_sketch::{Gather, Vizketch, gather_rows, joined};
use hv_value::{Listed, Mem, Order, Schema, Table};
use std::alloc::Global;

/// The rows least by word under a seed, at most so many, with their keys of an order, for quantiles of these.
#[derive(Drop)]
pub struct Sample {
    /// The columns whose cells are a row's key.
    pub order: Order,
    /// The seed of the words.
    pub seed: u64,
    /// How many rows are sampled at most.
    pub k: u32,
    /// How many quantiles are taken of them.
    pub q: u32,
}

impl Sample {
    /// A sample of `k` rows for `q` quantiles. It takes no memory.
    pub fn new(order: Order, seed: u64, k: u32, q: u32) -> Sample
        ensures { result ≡ record { order = order; seed = seed; k = k; q = q } }
    {
        Sample { order, seed, k, q }
    }

    /// An equal view.
    pub fn copied(&self, alloc: Global) -> Mem<Sample>
        ensures { IfOk result (λ view. view ≡ self.now) }
    {
        Ok(Sample {
            order: self.order.copied(alloc)?,
            seed: self.seed,
            k: self.k,
            q: self.q,
        })
    }
}

impl Gather for Sample {
    ghost use Rattle.hv_value.specs.Orders.{AreInColumns};
    ghost use Rattle.hv_quant.specs.Sampling.{IsSampling};

    type Gathered = Sampling;

    ghost gathers = { λ view part rows kept. IsSampling view.seed view.k part rows kept };

    ghost takes = { λ view columns. AreInColumns columns view.order };

    fn start<T: Table>(&self, alloc: Global, table: &T) -> Mem<Sampling> {
        Ok(Sampling {
            walker: Walker::new(self.seed, table.part()),
            nearest: Nearest::new(alloc),
        })
    }

    fn add_row<T: Table>(
        &self,
        _alloc: Global,
        kept: &mut Sampling,
        _table: &T,
        row: u32,
    ) -> Mem<()> {
        let word = kept.walker.at(row);
        kept.nearest
            .add(self.k, u64::from(word) * WORDS + u64::from(row))
    }
}

impl Vizketch for Sample {
    ghost use Rattle.hv_value.specs.Orders.{AreInColumns};
    ghost use Rattle.hv_quant.specs.Sample.{IsSample};
    ghost use Rattle.hv_quant.specs.SampleLaws.{IsSample-swap};

    type Summary = SampleSummary;

    ghost stands = { λ view rows summary. IsSample view.seed view.k view.order rows summary };

    ghost fits_columns = { λ view columns. AreInColumns columns view.order };

    fn fits(&self, schema: &Schema) -> bool {
        fits_keys(schema, &self.order, &None)
    }

    fn zero(&self, alloc: Global) -> Mem<SampleSummary> {
        Ok(SampleSummary::empty(alloc))
    }

    fn summarize<T: Table>(&self, alloc: Global, table: &T) -> Mem<SampleSummary> {
        // for its clause `whole` alone
        let _columns = table.schema();
        let mut nearest = gather_rows(alloc, self, table)?.nearest;
        nearest.cut(self.k);
        let rows = keyed_rows(alloc, &self.order, table, nearest.pairs.as_slice())?;
        Ok(SampleSummary { rows })
    }

    fn merge_into(&self, alloc: Global, acc: &mut SampleSummary, d: &SampleSummary) -> Mem<()> {
        let rows = joined_rows(
            alloc,
            &self.order,
            acc.rows.as_slice(),
            d.rows.as_slice(),
            self.k,
        )?;
        acc.rows = rows;
        Ok(())
    }

    fn copy(&self, alloc: Global, s: &SampleSummary) -> Mem<SampleSummary> {
        s.copy(alloc)
    }

    ghost any_order = { λ view a b c summary h. IsSample-swap view.seed view.k view.order a b c summary h };
}

/// The `k` least rows of two rising lists.
fn joined_rows(
    alloc: Global,
    order: &Order,
    a: &[SampledRow],
    b: &[SampledRow],
    k: u32,
) -> Mem<Listed<SampledRow>>
    requires left { IsRising (by_word order.now) a.now }
    requires right { IsRising (by_word order.now) b.now }
    ensures { IfOk result (λ rows. rows ≡ take k (put_all (by_word order.now) kept a.now b.now)) }
{
    let rows = joined(alloc, &WordRanking { order }, a, b, k as usize)?;
    Ok(Listed::from_vec(rows))
}
