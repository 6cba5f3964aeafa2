//! How many cells of a column are each of some values, as a vizketch: its summary is the counts by slot
//! (specs/CountOf.antt).

ghost use Rattle.std.specs.Prelude.{◌≡◌, ◌<◌, ◌^◌, ◌↔◌, List, take, map, IfOk, IsTrue};
ghost use Rattle.std.specs.List.{list_all, sum};
ghost use Rattle.std.specs.Cmp.{partial_equiv_from_equiv};
ghost use Rattle.std.proofs.Common.{ap};
ghost use Rattle.hv_value.specs.Rows.{Row};
ghost use Rattle.hv_value.specs.Same.{same_by};
ghost use Rattle.hv_value.specs.SameLaws.{same_by-decides, same_by-equiv};
ghost use Rattle.hv_value.specs.Cells.{cell_lent};
ghost use Rattle.hv_heavy.specs.CountOf.{IsCount, counts_of, fits_count, is_value_of, value_count};
ghost use Rattle.hv_heavy.specs.Hashes.{count_writes};

use crate::misra_gries::is_missing;
use crate::places::ValuePlaces;
use crate::placing::Placing;
use hv_sketch::{Counts, Vizketch, copied_cells, copied_counts, count_at, tally};
use hv_value::{Cell, CellRef, Kind, Listed, Mem, Schema, Table};
use std::alloc::Global;
use std::hash::{Hash, Hasher};

/// How many cells of one column are each of some values. Equal values have equal counts.
#[derive(Drop)]
pub struct CountOf {
    /// The place of the column, from 0.
    pub col: u32,
    /// The values, in the order of their counts.
    pub values: Listed<Cell>,
}

/// How many cells are each of some values.
#[derive(Drop)]
pub struct CountShown {
    /// One for each value, in the values' order.
    pub counts: Listed<u64>,
    /// How many cells are missing.
    pub missing: u64,
    /// How many aren't.
    pub n: u64,
}

impl CountShown {
    /// An equal value.
    pub fn copied(&self, alloc: Global) -> Mem<CountShown>
        ensures { IfOk result (λ copy. copy ≡ self.now) }
    {
        Ok(CountShown {
            counts: copied_counts(alloc, self.counts.as_slice())?,
            missing: self.missing,
            n: self.n,
        })
    }
}

impl CountOf {
    /// The counts of these values in a column. It takes no memory.
    pub fn new(col: u32, values: Vec<Cell>) -> CountOf
        ensures { result ≡ record { col = col; values = values.items } }
    {
        let values = Listed::from_vec(values);
        CountOf { col, values }
    }

    /// An equal view.
    pub fn copied(&self, alloc: Global) -> Mem<CountOf>
        ensures { IfOk result (λ view. view ≡ self.now) }
    {
        Ok(CountOf {
            col: self.col,
            values: copied_cells(alloc, self.values.as_slice())?,
        })
    }

    /// Whether two views are the same.
    pub fn same(&self, other: &CountOf) -> bool
        ensures { IsTrue result ↔ (self.now ≡ other.now) }
    {
        self.col == other.col && are_same_cells(self.values.as_slice(), other.values.as_slice())
    }

    /// Whether the column is there, and each of the values is one of its kind, none of them missing.
    fn fits_schema(&self, schema: &Schema) -> bool
        ensures { result ≡ fits_count schema.now self.now.col self.now.values }
    {
        self.col < schema.len() && are_values_of(self.values.as_slice(), schema.kind(self.col))
    }

    /// How many cells are each value, over the rows for which a summary stands.
    pub fn value(&self, alloc: Global, s: &Counts) -> Mem<CountShown>
        ensures { IfOk result (λ value. (rows : List Row)
            → IsCount self.now.col self.now.values rows s.now → value ≡ counts_of self.now.col self.now.values rows) }
    {
        let values = self.values.as_slice();
        let counts = s.as_slice();
        let places = ValuePlaces::of(alloc, values)?;
        let missing = values.len() + 1;
        Ok(CountShown {
            counts: value_counts(alloc, &places, values, counts)?,
            missing: count_at(counts, missing),
            n: first_sum(counts, missing),
        })
    }
}

/// The counts of values, in their order.
fn value_counts(
    alloc: Global,
    places: &ValuePlaces<'_>,
    values: &[Cell],
    counts: &[u64],
) -> Mem<Listed<u64>>
    ensures { IfOk result (λ made. made ≡ map (value_count places.now counts.now) values.now) }
{
    let mut made = Listed::new(alloc);
    for value in values {
        made.push(value_count(places, value.lent(), counts))?;
    }
    Ok(made)
}

/// The count of a value: that of its slot, where it isn't missing.
fn value_count(places: &ValuePlaces<'_>, value: CellRef<'_>, counts: &[u64]) -> u64
    ensures { result ≡ value_count places.now counts.now (cell_lent value.entry) }
{
    if is_missing(value) {
        return 0;
    }
    count_at(counts, places.slot_of(value))
}

/// The sum of the counts of the first slots, where it fits.
fn first_sum(counts: &[u64], slots: usize) -> u64
    ensures { sum (take slots counts.now) < 2 ^ 64 → result ≡ sum (take slots counts.now) }
{
    let first = &counts[..slots.min(counts.len())];
    let mut total: u64 = 0;
    for count in first {
        total = total.saturating_add(*count);
    }
    total
}

impl Vizketch for CountOf {
    ghost use Rattle.std.specs.Prelude.{◌≡◌, ⊤, true};
    ghost use Rattle.hv_sketch.specs.TallyLaws.{IsTally-swap};
    ghost use Rattle.hv_heavy.specs.CountOf.{IsCount, fits_count};

    type Summary = Counts;

    ghost stands = { λ view rows counts. IsCount view.col view.values rows counts };

    ghost fits_columns = { λ view columns. fits_count columns view.col view.values ≡ true };

    ghost merges_always = { λ view. ⊤ };

    fn fits(&self, schema: &Schema) -> bool {
        self.fits_schema(schema)
    }

    fn zero(&self, alloc: Global) -> Mem<Counts> {
        Counts::zeros(alloc, self.values.as_slice().len() + 2)
    }

    fn summarize<T: Table>(&self, alloc: Global, table: &T) -> Mem<Counts> {
        let col = self.col;
        let places = ValuePlaces::of(alloc, self.values.as_slice())?;
        tally(alloc, &Placing { col, places }, table)
    }

    fn merge_into(&self, _alloc: Global, acc: &mut Counts, d: &Counts) -> Mem<()> {
        acc.add(d);
        Ok(())
    }

    fn copy(&self, alloc: Global, s: &Counts) -> Mem<Counts> {
        s.copy(alloc)
    }

    ghost any_order = { λ view a b c counts h. IsTally-swap _ _ a b c counts h };
}

/// Two views are equal where they are the same.
impl PartialEq for CountOf {
    ghost use Rattle.hv_heavy.specs.contracts.count_of.CountOf as row;

    ghost eq = { same_by row.the_row.coded };

    ghost laws = { partial_equiv_from_equiv (same_by-equiv row.the_row.coded) };

    fn eq(&self, other: &CountOf) -> bool {
        self.same(other)
    }
}

fn are_same_cells(a: &[Cell], b: &[Cell]) -> bool
    ensures { IsTrue result ↔ (a.now ≡ b.now) }
{
    a == b
}

impl Eq for CountOf {
    ghost use Rattle.hv_heavy.specs.contracts.count_of.CountOf as row;

    ghost laws = { same_by-equiv row.the_row.coded };
}

/// The same views write the same into a hasher.
impl Hash for CountOf {
    ghost use Rattle.hv_heavy.specs.contracts.count_of.CountOf as row;

    ghost hash_input = { count_writes };

    ghost respects_eq = { λ x y e. ap count_writes ((same_by-decides row.the_row.coded x y).0 e) };

    fn hash<H: Hasher>(&self, state: &mut H) {
        self.col.hash(state);
        self.values.hash(state);
    }
}

/// Whether each cell is a value of a kind.
fn are_values_of(values: &[Cell], kind: Kind) -> bool
    ensures { result ≡ list_all (is_value_of kind) values.now }
{
    let mut rest = values;
    while let [first, after @ ..] = rest {
        if !is_value_of(first, kind) {
            return false;
        }
        rest = after;
    }
    true
}

/// Whether a cell is a value of a kind: a missing one is of none.
fn is_value_of(cell: &Cell, kind: Kind) -> bool
    ensures { result ≡ is_value_of kind cell.now }
{
    matches!(
        (kind, cell),
        (Kind::Int, Cell::Int(_)) | (Kind::Date, Cell::Date(_)) | (Kind::Text, Cell::Text(_))
    )
}
