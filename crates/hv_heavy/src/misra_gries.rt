//! The heavy hitters of a column as a vizketch: its summary stands for rows where it is one of those that
//! specs/Heavy.antt allows of them.

ghost use Rattle.std.specs.Prelude.{◌≡◌, ◌<◌, ◌+◌, ◌++◌, ◌^◌, ℕ, List, IfOk, OnOk};
ghost use Rattle.hv_value.specs.declared.cell.Cell.{Cell};
ghost use Rattle.hv_value.specs.Cells.{cell_lent};
ghost use Rattle.hv_sketch.specs.ColumnCells.{is_missing};
ghost use Rattle.hv_sketch.specs.Rising.{IsRising};
ghost use Rattle.hv_heavy.specs.Counting.{IsGathered, counted};
ghost use Rattle.hv_heavy.specs.Heavy.{AreHeavy, IsNear, by_value, total};

use crate::counts::ValueCounts;
use crate::pruning::sum;
use crate::{HeavyPair, HeavySummary};
use hv_sketch::{CellGather, Vizketch, gather_cells};
use hv_value::{CellRef, Listed, Mem, Schema, Table};
use std::alloc::Global;
use std::mem;

/// The values that are many of the cells of one column, at most so many, each with an estimate of how many cells it
/// is (Misra and Gries; merged as in "Mergeable Summaries", Agarwal and others).
#[derive(Clone, Copy, Debug, PartialEq, Eq, Hash)]
pub struct MisraGries {
    /// The place of the column, from 0.
    pub col: u32,
    /// How many values are kept at most.
    pub k: u32,
}

impl MisraGries {
    /// At most `k` values of a column. It takes no memory.
    pub fn new(col: u32, k: u32) -> MisraGries
        ensures { result ≡ record { col = col; k = k } }
    {
        MisraGries { col, k }
    }
}

/// Heavy hitters of some of the cells so far, and the counts of the values of the others.
#[derive(Drop)]
pub struct Gathering {
    pub(crate) missing: u64,
    pub(crate) n: u64,
    pub(crate) done: Listed<HeavyPair>,
    pub(crate) counts: ValueCounts,
}

/// Whether a cell is missing.
pub(crate) fn is_missing(cell: CellRef<'_>) -> bool
    ensures { result ≡ is_missing (cell_lent cell.entry) }
{
    matches!(cell, CellRef::Missing)
}

impl CellGather for MisraGries {
    ghost use Rattle.std.specs.Prelude.{⊤};
    ghost use Rattle.hv_heavy.specs.Counting.{IsGathered};

    type Kept = Gathering;

    ghost keeps = { λ view cells kept. IsGathered view.k cells kept };

    ghost takes = { λ view kind. ⊤ };

    fn start(&self, alloc: Global) -> Mem<Gathering> {
        Ok(Gathering {
            missing: 0,
            n: 0,
            done: Listed::new(alloc),
            counts: ValueCounts::new(alloc),
        })
    }

    fn add_cell(&self, alloc: Global, kept: &mut Gathering, cell: CellRef<'_>) -> Mem<()> {
        if is_missing(cell) {
            kept.missing += 1;
            return Ok(());
        }
        kept.counts.count(alloc, cell)?;
        kept.n += 1;
        if kept.counts.are_many(self.k) {
            return cut(alloc, kept, self.k);
        }
        Ok(())
    }
}

impl Vizketch for MisraGries {
    ghost use Rattle.std.specs.Prelude.{◌<◌, length};
    ghost use Rattle.hv_heavy.specs.Heavy.{IsHeavy};
    ghost use Rattle.hv_heavy.specs.HeavyLaws.{IsHeavy-swap};

    type Summary = HeavySummary;

    ghost stands = { λ view rows summary. IsHeavy view.col view.k rows summary };

    ghost fits_columns = { λ view columns. view.col < length columns };

    fn fits(&self, schema: &Schema) -> bool {
        self.col < schema.len()
    }

    fn zero(&self, alloc: Global) -> Mem<HeavySummary> {
        Ok(HeavySummary::empty(alloc))
    }

    fn summarize<T: Table>(&self, alloc: Global, table: &T) -> Mem<HeavySummary> {
        let Gathering {
            missing,
            n,
            done,
            counts,
        } = gather_cells(alloc, self, self.col, table)?;
        let pairs = settled(alloc, done.as_slice(), counts, self.k)?;
        Ok(HeavySummary { missing, n, pairs })
    }

    fn merge_into(&self, alloc: Global, acc: &mut HeavySummary, d: &HeavySummary) -> Mem<()> {
        acc.pairs = sum(alloc, acc.pairs.as_slice(), d.pairs.as_slice(), self.k)?;
        acc.n += d.n;
        acc.missing += d.missing;
        Ok(())
    }

    fn copy(&self, alloc: Global, s: &HeavySummary) -> Mem<HeavySummary> {
        s.copy(alloc)
    }

    ghost any_order = { λ view a b c summary h. IsHeavy-swap view.col view.k a b c summary h };
}

/// Cuts what is kept to at most `k` heavy hitters.
fn cut(alloc: Global, kept: &mut Gathering, k: u32) -> Mem<()>
    requires { (cells : List Cell) × IsGathered k cells kept.old }
    ensures { OnOk result ((cells : List Cell) →
        IsGathered k cells kept.old → IsGathered k cells kept.new) }
{
    let counts = mem::replace(&mut kept.counts, ValueCounts::new(alloc));
    kept.done = settled(alloc, kept.done.as_slice(), counts, k)?;
    Ok(())
}

/// Heavy hitters together with the counts of further values, at most `k`.
fn settled(alloc: Global, done: &[HeavyPair], counts: ValueCounts, k: u32) -> Mem<Listed<HeavyPair>>
    requires rising { IsRising by_value done.now }
    requires fits { total done.now + total (counted counts) < 2 ^ 64 }
    ensures { IfOk result (λ pairs. (n : ℕ) (count : Cell → ℕ) →
        IsNear k n count (done.now ++ counted counts) → AreHeavy k n count pairs) }
{
    let pairs = counts.into_rising(alloc)?;
    sum(alloc, done, pairs.as_slice(), k)
}
