//! The search for a text as a vizketch: its summary stands for rows where it is what specs/Find.antt says of them.

ghost use Rattle.std.specs.Prelude.{◌≡◌, ◌↔◌, option_map, IfOk, IsTrue};
ghost use Rattle.std.specs.List.{All};
ghost use Rattle.hv_value.specs.declared.cell.Kind.TheVariants as kind;
ghost use Rattle.hv_sketch.specs.Columns.{IsColumnOf};

use crate::FindSummary;
use crate::least::put_key;
use crate::matches::has_match;
use hv_expr::{ReadyTest, TextTest};
use hv_next::{copied_key, fits_keys};
use hv_sketch::{Gather, Vizketch, gather_rows, is_column_of};
use hv_value::{Cell, Kind, Listed, Mem, Order, Schema, Table};
use std::alloc::Global;

/// The rows where one of some text cells meets a test: how many of them are above a key in an order, how many aren't,
/// and the least key above.
#[derive(Drop)]
pub struct Find {
    /// The places of the columns of texts, from 0.
    pub cols: Listed<u32>,
    /// The test that one of their cells must meet.
    pub test: TextTest,
    /// The columns by which the rows order.
    pub order: Order,
    /// The key above which the rows are, of one cell for each key of the order; none where each row is above.
    pub after: Option<Listed<Cell>>,
}

impl Find {
    /// Finds the rows where the cell of one of the columns `cols` is a text that meets `test`, and tells those whose key
    /// in `order` is above `after` from the others. It takes no memory.
    pub fn new(cols: Vec<u32>, test: TextTest, order: Order, after: Option<Vec<Cell>>) -> Find
        ensures { result ≡ record {
          cols = cols.items;
          test = test;
          order = order;
          after = option_map (λ cells. cells.items) after;
        } }
    {
        let after = match after {
            Some(cells) => Some(Listed::from_vec(cells)),
            None => None,
        };
        Find {
            cols: Listed::from_vec(cols),
            test,
            order,
            after,
        }
    }

    /// An equal view.
    pub fn copied(&self, alloc: Global) -> Mem<Find>
        ensures { IfOk result (λ view. view ≡ self.now) }
    {
        let cols = Vec::from_slice(alloc, self.cols.as_slice())?;
        let test = self.test.copy(alloc)?;
        let order = self.order.copied(alloc)?;
        let after = copied_key(alloc, &self.after)?;
        Ok(Find {
            cols: Listed::from_vec(cols),
            test,
            order,
            after,
        })
    }
}

/// What is found in the rows so far, and the test, prepared for many texts.
#[derive(Drop)]
pub struct Searching {
    ready: ReadyTest,
    found: FindSummary,
}

impl Gather for Find {
    ghost use Rattle.hv_expr.specs.Ready.{IsReadyTest};
    ghost use Rattle.hv_find.specs.Find.{IsFound};
    ghost use Rattle.hv_find.specs.Fits.{FitsFind};

    type Gathered = Searching;

    ghost gathers = { λ view part rows kept. IsReadyTest view.test kept.ready
        × IsFound view rows kept.found };

    ghost takes = { λ view columns. FitsFind view columns };

    fn start<T: Table>(&self, alloc: Global, _table: &T) -> Mem<Searching> {
        let ready = ReadyTest::of(alloc, &self.test)?;
        Ok(Searching {
            ready,
            found: FindSummary::empty(),
        })
    }

    fn add_row<T: Table>(
        &self,
        alloc: Global,
        kept: &mut Searching,
        table: &T,
        row: u32,
    ) -> Mem<()> {
        if !has_match(alloc, self.cols.as_slice(), &kept.ready, table, row)? {
            return Ok(());
        }
        kept.found
            .add_match(alloc, &self.order, &self.after, table, row)
    }
}

impl Vizketch for Find {
    ghost use Rattle.hv_find.specs.Find.{IsFound};
    ghost use Rattle.hv_find.specs.FindLaws.{IsFound-swap};
    ghost use Rattle.hv_find.specs.Fits.{FitsFind};

    type Summary = FindSummary;

    ghost stands = { λ view rows summary. IsFound view rows summary };

    ghost fits_columns = { λ view columns. FitsFind view columns };

    fn fits(&self, schema: &Schema) -> bool {
        are_texts(schema, self.cols.as_slice()) && fits_keys(schema, &self.order, &self.after)
    }

    fn zero(&self, _alloc: Global) -> Mem<FindSummary> {
        Ok(FindSummary::empty())
    }

    fn summarize<T: Table>(&self, alloc: Global, table: &T) -> Mem<FindSummary> {
        let kept = gather_rows(alloc, self, table)?;
        Ok(kept.found)
    }

    fn merge_into(&self, alloc: Global, acc: &mut FindSummary, d: &FindSummary) -> Mem<()> {
        put_key(alloc, &mut acc.first, &self.order, &d.first)?;
        acc.above += d.above;
        acc.before += d.before;
        Ok(())
    }

    fn copy(&self, alloc: Global, s: &FindSummary) -> Mem<FindSummary> {
        s.copy(alloc)
    }

    ghost any_order = { λ view a b c summary h. IsFound-swap view a b c summary h };
}

/// Whether each of some columns is there and one of texts.
fn are_texts(schema: &Schema, cols: &[u32]) -> bool
    ensures { IsTrue result ↔ All (λ col. IsColumnOf schema.now col kind.Text) cols.now }
{
    for col in cols {
        if !is_column_of(schema, *col, Kind::Text) {
            return false;
        }
    }
    true
}
