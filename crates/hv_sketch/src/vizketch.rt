//! The interface of a vizketch: a view whose summaries of apart rows can be merged in any order.
//! Contracts see a summary by the lists of tagged rows for which it stands, a relation of the view's own.

ghost use Rattle.std.specs.Prelude.{◌≡◌, ◌↔◌, ◌++◌, [], List, IsTrue, IsOk, IfOk, OnOk, OnErr};
ghost use Rattle.hv_value.specs.Rows.{Row};
ghost use Rattle.hv_value.specs.Schema.{Columns};
ghost use Rattle.hv_sketch.specs.Merging.{CanMerge};

use hv_value::{Mem, Schema, Table};
use std::alloc::Global;

/// A view with mergeable summaries (Hillview's vizketch; "Mergeable Summaries", Agarwal and others).
///
/// A summary stands for a list of rows. It may stand for many lists: for each list with the same rows
/// in another order (the law below), and for as many more as the view doesn't tell apart.
pub trait Vizketch {
    /// What is kept of some rows.
    type Summary: Drop;

    // whether the summary stands for the rows
    ghost stands: { Self → List Row → Self.Summary → Type 0 };

    // whether the columns that the view reads are there, each of the kind that the view takes
    ghost fits_columns: { Self → Columns → Type 0 };

    // whether merging takes no memory; a view that says nothing promises nothing
    ghost merges_always: { Self → Type 0 } = { λ _. ⊥ };

    /// Whether the view can be taken of a table with these columns.
    fn fits(&self, schema: &Schema) -> bool
        ensures { IsTrue result ↔ fits_columns self.now schema.now };

    /// The summary of no rows.
    fn zero(&self, alloc: Global) -> Mem<Self::Summary>
        ensures { IfOk result (λ s. stands self.now [] s) };

    /// The summary of a table's rows, in a fixed number of passes over them.
    fn summarize<T: Table>(&self, alloc: Global, table: &T) -> Mem<Self::Summary>
        requires { fits_columns self.now (T.columns table.now) }
        ensures { IfOk result (λ s. stands self.now (T.rows table.now) s) };

    /// Makes `acc` stand for its rows and then those of `d`: for every two lists for which they stand,
    /// where no tagged row is in both and they have at most 2^42 rows together.
    fn merge_into(&self, alloc: Global, acc: &mut Self::Summary, d: &Self::Summary) -> Mem<()>
        requires { (a : List Row) × (b : List Row) × stands self.now a acc.old × stands self.now b d.now × CanMerge a b }
        ensures ok { OnOk result ((a b : List Row) → stands self.now a acc.old → stands self.now b d.now
            → CanMerge a b → stands self.now (a ++ b) acc.new) }
        ensures err { OnErr result (acc.new ≡ acc.old) }
        ensures always { merges_always self.now → IsOk result };

    /// Another summary for the same rows.
    fn copy(&self, alloc: Global, s: &Self::Summary) -> Mem<Self::Summary>
        ensures { IfOk result (λ t. (rows : List Row) → stands self.now rows s.now → stands self.now rows t) };

    // The order of the rows doesn't matter: two blocks at the end may change places, and so any rows may.
    ghost any_order: { (view : Self) (a b c : List Row) (s : Self.Summary) → stands view (a ++ b ++ c) s → stands view (a ++ c ++ b) s };
}
