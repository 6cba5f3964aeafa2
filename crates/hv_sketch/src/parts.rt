//! The summary of a table's partitions, one partition at a time.

ghost use Rattle.std.specs.Prelude.{◌≡◌, ◌<◌, ◌^◌, ◌++◌, List, OnOk, OnErr};
ghost use Rattle.hv_value.specs.Rows.{Row};
ghost use Rattle.hv_value.specs.Table.{IsTable};
ghost use Rattle.hv_sketch.specs.Parts.{AreBefore};

use crate::Vizketch;
use hv_value::{Mem, Table};
use std::alloc::Global;

/// Adds a partition's rows to a summary of rows of lower partitions: it summarises the partition and
/// merges the summary.
pub fn add_part<V: Vizketch, T: Table>(
    alloc: Global,
    view: &V,
    acc: &mut V::Summary,
    table: &T,
) -> Mem<()>
    requires fit { V.fits_columns view.now (T.columns table.now) }
    requires part { T.part_number table.now < 2 ^ 16 }
    requires lower { (rows : List Row) × V.stands view.now rows acc.old × AreBefore (T.part_number table.now) rows }
    ensures ok { OnOk result ((rows : List Row) → V.stands view.now rows acc.old → AreBefore (T.part_number table.now) rows
        → V.stands view.now (rows ++ T.rows table.now) acc.new) }
    ensures err { OnErr result (acc.new ≡ acc.old) }
    ensures whole { IsTable (T.columns table.now) (T.part_number table.now) (T.rows table.now) }
{
    // for its clause `whole` alone
    let _columns = table.schema();
    let more = view.summarize(alloc, table)?;
    view.merge_into(alloc, acc, &more)
}
