//! A sample as a value: rows with their words, their places and their keys (specs/Sample.antt).

ghost use Rattle.std.specs.Prelude.{◌≡◌, [], IfOk};

use hv_sketch::copied_cells;
use hv_value::{Cell, Listed, Mem};
use std::alloc::Global;

/// A sampled row.
#[derive(Drop)]
pub struct SampledRow {
    /// The row's word, by which it was sampled.
    pub word: u32,
    /// The row's partition, from 0.
    pub part: u32,
    /// The row's number in it.
    pub row: u32,
    /// The row's cells of the order's columns, the first first.
    pub key: Listed<Cell>,
}

impl SampledRow {
    /// An equal row.
    pub fn copy(&self, alloc: Global) -> Mem<SampledRow>
        ensures { IfOk result (λ row. row ≡ self.now) }
    {
        Ok(SampledRow {
            word: self.word,
            part: self.part,
            row: self.row,
            key: copied_cells(alloc, self.key.as_slice())?,
        })
    }
}

/// The rows least by word of some rows, at most so many.
#[derive(Drop)]
pub struct SampleSummary {
    /// The rows, strictly rising by word, then by partition and number.
    pub rows: Listed<SampledRow>,
}

impl SampleSummary {
    /// The sample of no rows.
    pub(crate) fn empty(alloc: Global) -> SampleSummary
        ensures { result ≡ record { rows = [] } }
    {
        SampleSummary {
            rows: Listed::new(alloc),
        }
    }

    /// An equal summary.
    pub fn copy(&self, alloc: Global) -> Mem<SampleSummary>
        ensures { IfOk result (λ s. s ≡ self.now) }
    {
        let rows = copied_rows(alloc, self.rows.as_slice())?;
        Ok(SampleSummary {
            rows: Listed::from_vec(rows),
        })
    }
}

pub(crate) fn copied_rows(alloc: Global, rows: &[SampledRow]) -> Mem<Vec<SampledRow>>
    ensures { IfOk result (λ copy. copy.items ≡ rows.now) }
{
    let mut copy = Vec::new(alloc);
    for row in rows {
        copy.push(row.copy(alloc)?)?;
    }
    Ok(copy)
}
