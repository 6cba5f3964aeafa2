//! Buckets of one kind or the other, the axis of a chart, and where a cell is put.

ghost use Rattle.std.specs.Prelude.{◌≡◌, ◌≤◌, ◌<◌, ◌↔◌, ℕ, true, IfOk, IsTrue};
ghost use Rattle.hv_value.specs.Cells.{cell_lent};
ghost use Rattle.hv_bucket.specs.Places.{are_buckets, buckets_len, fits_axis, place_of, takes_kind};
ghost use Rattle.std.specs.Cmp.{partial_equiv_from_equiv};
ghost use Rattle.std.proofs.Common.{ap};
ghost use Rattle.hv_value.specs.Same.{same_by};
ghost use Rattle.hv_value.specs.SameLaws.{same_by-decides, same_by-equiv};
ghost use Rattle.hv_bucket.specs.Hashes.{axis_writes, buckets_writes};

use crate::{IntBuckets, TextBuckets};
use hv_value::{CellRef, Kind, Mem, Schema};
use std::alloc::Global;
use std::hash::{Hash, Hasher};

/// Where buckets put a cell.
#[derive(Clone, Copy, Debug, PartialEq, Eq)]
pub enum Place {
    /// In the bucket at this place, from 0.
    In(u32),
    /// In no bucket, though it isn't missing.
    Outside,
    Missing,
}

/// Buckets of numbers and days, or of texts.
#[derive(Drop)]
pub enum Buckets {
    Int(IntBuckets),
    Text(TextBuckets),
}

/// An axis of a chart: a column, by its place from 0, and the buckets that its cells are put into.
#[derive(Drop)]
pub struct Axis {
    pub col: u32,
    pub buckets: Buckets,
}

impl Buckets {
    /// The number of buckets.
    pub fn len(&self) -> u32
        ensures value { result ≡ buckets_len self.now }
        ensures some { 0 < result }
        ensures few { result ≤ 1024 }
        ensures sound { are_buckets self.now ≡ true }
    {
        match self {
            Buckets::Int(buckets) => buckets.limits().n,
            Buckets::Text(buckets) => buckets.bounds().len() as u32,
        }
    }

    /// Whether cells of the kind can be put into a bucket: whole numbers and days, or texts.
    pub fn takes(&self, kind: Kind) -> bool
        ensures { result ≡ takes_kind self.now kind }
    {
        match self {
            Buckets::Int(_) => kind != Kind::Text,
            Buckets::Text(_) => kind == Kind::Text,
        }
    }

    /// Where a cell is put; a day by its number. A cell of another kind is outside. It takes no memory.
    #[inline(always)]
    pub fn bucket_of(&self, cell: CellRef<'_>) -> Place
        ensures value { result ≡ place_of self.now (cell_lent cell.entry) }
        ensures within { (bucket : ℕ) → result ≡ Place.In bucket → bucket < buckets_len self.now }
    {
        // for its clause `sound` alone
        let _len = self.len();
        self.place_of(cell)
    }

    #[inline(always)]
    fn place_of(&self, cell: CellRef<'_>) -> Place
        ensures { result ≡ place_of self.now (cell_lent cell.entry) }
    {
        match (self, cell) {
            (_, CellRef::Missing) => Place::Missing,
            (Buckets::Int(buckets), CellRef::Int(n)) => buckets.place_of(n),
            (Buckets::Int(buckets), CellRef::Date(day)) => buckets.place_of(i64::from(day)),
            (Buckets::Text(buckets), CellRef::Text(text)) => buckets.place_of(text),
            _ => Place::Outside,
        }
    }

    /// Equal buckets.
    pub fn copied(&self, alloc: Global) -> Mem<Buckets>
        ensures { IfOk result (λ buckets. buckets ≡ self.now) }
    {
        Ok(match self {
            Buckets::Int(buckets) => Buckets::Int(buckets.copied()),
            Buckets::Text(buckets) => Buckets::Text(buckets.copied(alloc)?),
        })
    }

    /// Whether two are the same.
    pub fn same(&self, other: &Buckets) -> bool
        ensures { IsTrue result ↔ (self.now ≡ other.now) }
    {
        match (self, other) {
            (Buckets::Int(a), Buckets::Int(b)) => a.same(b),
            (Buckets::Text(a), Buckets::Text(b)) => a.same(b),
            _ => false,
        }
    }
}

impl Axis {
    /// Whether the column is there, and of a kind whose cells can be put into a bucket.
    pub fn fits(&self, schema: &Schema) -> bool
        ensures { result ≡ fits_axis schema.now self.now }
    {
        self.col < schema.len() && self.buckets.takes(schema.kind(self.col))
    }

    /// An equal axis.
    pub fn copied(&self, alloc: Global) -> Mem<Axis>
        ensures { IfOk result (λ axis. axis ≡ self.now) }
    {
        Ok(Axis {
            col: self.col,
            buckets: self.buckets.copied(alloc)?,
        })
    }

    /// Whether two are the same.
    pub fn same(&self, other: &Axis) -> bool
        ensures { IsTrue result ↔ (self.now ≡ other.now) }
    {
        self.col == other.col && self.buckets.same(&other.buckets)
    }
}

/// Two are equal where they are the same.
impl PartialEq for Buckets {
    ghost use Rattle.hv_bucket.specs.contracts.buckets.Buckets as row;

    ghost eq = { same_by row.the_row.coded };

    ghost laws = { partial_equiv_from_equiv (same_by-equiv row.the_row.coded) };

    fn eq(&self, other: &Buckets) -> bool {
        self.same(other)
    }
}

impl Eq for Buckets {
    ghost use Rattle.hv_bucket.specs.contracts.buckets.Buckets as row;

    ghost laws = { same_by-equiv row.the_row.coded };
}

impl Hash for Buckets {
    ghost use Rattle.hv_bucket.specs.contracts.buckets.Buckets as row;

    ghost hash_input = { buckets_writes };

    ghost respects_eq = { λ x y e. ap buckets_writes ((same_by-decides row.the_row.coded x y).0 e) };

    fn hash<H: Hasher>(&self, state: &mut H) {
        match self {
            Buckets::Int(buckets) => {
                0u8.hash(state);
                buckets.hash(state);
            }
            Buckets::Text(buckets) => {
                1u8.hash(state);
                buckets.hash(state);
            }
        }
    }
}

/// Two are equal where they are the same.
impl PartialEq for Axis {
    ghost use Rattle.hv_bucket.specs.contracts.buckets.Axis as row;

    ghost eq = { same_by row.the_row.coded };

    ghost laws = { partial_equiv_from_equiv (same_by-equiv row.the_row.coded) };

    fn eq(&self, other: &Axis) -> bool {
        self.same(other)
    }
}

impl Eq for Axis {
    ghost use Rattle.hv_bucket.specs.contracts.buckets.Axis as row;

    ghost laws = { same_by-equiv row.the_row.coded };
}

impl Hash for Axis {
    ghost use Rattle.hv_bucket.specs.contracts.buckets.Axis as row;

    ghost hash_input = { axis_writes };

    ghost respects_eq = { λ x y e. ap axis_writes ((same_by-decides row.the_row.coded x y).0 e) };

    fn hash<H: Hasher>(&self, state: &mut H) {
        self.col.hash(state);
        self.buckets.hash(state);
    }
}
