//! The sampled rows of pairs: their words, their places, and their keys, which are read of a table.

ghost use Rattle.std.specs.Prelude.{◌≡◌, ◌%◌, ◌^◌, Some, map, option_map, IfOk};
ghost use Rattle.std.specs.List.{AllByRecursion};
ghost use Rattle.hv_value.specs.Orders.{AreInColumns};
ghost use Rattle.hv_value.specs.Table.{row_from};
ghost use Rattle.hv_quant.specs.Pairs.{unpacked};

use crate::SampledRow;
use hv_next::key_at;
use hv_value::{Listed, Mem, Order, Table};
use std::alloc::Global;

/// The number of words, by which a pair's word is multiplied.
pub(crate) const WORDS: u64 = 4_294_967_296;

/// The sampled rows of pairs whose rows are there.
pub(crate) fn keyed_rows<T: Table>(
    alloc: Global,
    order: &Order,
    table: &T,
    pairs: &[u64],
) -> Mem<Listed<SampledRow>>
    requires cols_there { AreInColumns (T.columns table.now) order.now }
    requires rows_there { AllByRecursion (λ pair. option_map (λ found. found.number) (row_from (pair % 2 ^ 32) (T.rows table.now))
        ≡ Some (pair % 2 ^ 32)) pairs.now }
    ensures { IfOk result (λ rows. rows ≡ map (unpacked order.now (T.part_number table.now) (T.rows table.now)) pairs.now) }
{
    let mut rows = Listed::new(alloc);
    for pair in pairs {
        rows.push(keyed_row(alloc, order, table, *pair)?)?;
    }
    Ok(rows)
}

/// The sampled row of a pair whose row is there.
fn keyed_row<T: Table>(alloc: Global, order: &Order, table: &T, pair: u64) -> Mem<SampledRow>
    requires cols_there { AreInColumns (T.columns table.now) order.now }
    requires row_there { option_map (λ found. found.number) (row_from (pair % 2 ^ 32) (T.rows table.now)) ≡ Some (pair % 2 ^ 32) }
    ensures { IfOk result (λ row. row ≡ unpacked order.now (T.part_number table.now) (T.rows table.now) pair) }
{
    let row = (pair % WORDS) as u32;
    Ok(SampledRow {
        word: (pair / WORDS) as u32,
        part: table.part(),
        row,
        key: key_at(alloc, order, table, row)?,
    })
}
