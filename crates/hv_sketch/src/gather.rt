//! One loop over a table's rows for all views, generic over what one row does.

ghost use Rattle.std.specs.Prelude.{◌≡◌, ◌++◌, [], ◌∷◌, ℕ, List, IfOk, OnOk, option_map, Some};
ghost use Rattle.hv_value.specs.Rows.{Row};
ghost use Rattle.hv_value.specs.Schema.{Columns};
ghost use Rattle.hv_value.specs.Table.{IsTable, row_from};
ghost use Rattle.hv_sketch.specs.Gathering.{ComesNext};

use hv_value::{Mem, Table};
use std::alloc::Global;

/// What a view does with each row of a table in turn. It stands beside `Vizketch` and has members of its
/// own, since `summarize` of a view calls the loop, whose bound must not need that `summarize` again.
pub trait Gather {
    /// What is kept of the rows so far.
    type Gathered: Drop;

    // what is kept is that of the rows of the partition with the number
    ghost gathers: { Self → ℕ → List Row → Self.Gathered → Type 0 };

    // the columns that a row's step reads are there, each of its kind
    ghost takes: { Self → Columns → Type 0 };

    /// What is kept of none of a table's rows.
    fn start<T: Table>(&self, alloc: Global, table: &T) -> Mem<Self::Gathered>
        requires fit { takes self.now (T.columns table.now) }
        requires whole { IsTable (T.columns table.now) (T.part_number table.now) (T.rows table.now) }
        ensures { IfOk result (λ s. gathers self.now (T.part_number table.now) [] s) };

    /// Adds a row that is there, after the rows that were gathered, whose numbers are all below its own. After an
    /// Err nothing is known of `kept`.
    fn add_row<T: Table>(
        &self,
        alloc: Global,
        kept: &mut Self::Gathered,
        table: &T,
        row: u32,
    ) -> Mem<()>
        requires fit { takes self.now (T.columns table.now) }
        requires whole { IsTable (T.columns table.now) (T.part_number table.now) (T.rows table.now) }
        requires row_there { option_map (λ found. found.number) (row_from row (T.rows table.now)) ≡ Some row }
        requires kept_so_far { (rows : List Row) × (found : Row) × row_from row (T.rows table.now) ≡ Some found
            × gathers self.now (T.part_number table.now) rows kept.old × ComesNext rows found }
        ensures { OnOk result ((rows : List Row) (found : Row) → row_from row (T.rows table.now) ≡ Some found
            → gathers self.now (T.part_number table.now) rows kept.old → ComesNext rows found
            → gathers self.now (T.part_number table.now) (rows ++ found ∷ []) kept.new) };
}

/// Gathers the rows of a table, in their order: one step for each row, and no memory but what the steps take.
pub fn gather_rows<V: Gather, T: Table>(alloc: Global, view: &V, table: &T) -> Mem<V::Gathered>
    requires { V.takes view.now (T.columns table.now) }
    ensures { IfOk result (λ s. V.gathers view.now (T.part_number table.now) (T.rows table.now) s) }
{
    // for its clause `whole` alone
    let _columns = table.schema();
    let mut kept = view.start(alloc, table)?;
    let mut from = 0;
    let mut hint = 0;
    while let Some(row) = table.next_near(from, &mut hint) {
        view.add_row(alloc, &mut kept, table, row)?;
        from = row + 1;
    }
    Ok(kept)
}
