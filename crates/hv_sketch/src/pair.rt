//! Two views of a table as one.

ghost use Rattle.std.specs.Prelude.{◌≡◌};

use crate::Vizketch;
use hv_value::{Mem, Schema, Table};
use std::alloc::Global;

/// Two views that are taken together, of the same rows.
#[derive(Drop, PartialEq, Eq, Hash)]
pub struct Pair<A, B> {
    pub first: A,
    pub second: B,
}

/// What a pair of views keeps of some rows: what each of them keeps.
#[derive(Drop)]
pub struct PairSummary<S, T> {
    pub first: S,
    pub second: T,
}

impl<A, B> Pair<A, B> {
    /// The two views as one. It takes no memory.
    pub fn new(a: A, b: B) -> Pair<A, B>
        ensures { result ≡ record { first = a; second = b } }
    {
        Pair {
            first: a,
            second: b,
        }
    }
}

impl<A: Vizketch, B: Vizketch> Vizketch for Pair<A, B> {
    type Summary = PairSummary<A::Summary, B::Summary>;

    ghost stands = { λ view rows s. A.stands view.first rows s.first × B.stands view.second rows s.second };

    ghost fits_columns = { λ view columns. A.fits_columns view.first columns × B.fits_columns view.second columns };

    fn fits(&self, schema: &Schema) -> bool {
        self.first.fits(schema) && self.second.fits(schema)
    }

    fn zero(&self, alloc: Global) -> Mem<Self::Summary> {
        Ok(PairSummary {
            first: self.first.zero(alloc)?,
            second: self.second.zero(alloc)?,
        })
    }

    fn summarize<T: Table>(&self, alloc: Global, table: &T) -> Mem<Self::Summary> {
        Ok(PairSummary {
            first: self.first.summarize(alloc, table)?,
            second: self.second.summarize(alloc, table)?,
        })
    }

    /// Merges copies of both, so that an Err leaves `acc` as it was.
    fn merge_into(&self, alloc: Global, acc: &mut Self::Summary, d: &Self::Summary) -> Mem<()> {
        let mut first = self.first.copy(alloc, &acc.first)?;
        let mut second = self.second.copy(alloc, &acc.second)?;
        self.first.merge_into(alloc, &mut first, &d.first)?;
        self.second.merge_into(alloc, &mut second, &d.second)?;
        acc.first = first;
        acc.second = second;
        Ok(())
    }

    fn copy(&self, alloc: Global, s: &Self::Summary) -> Mem<Self::Summary> {
        Ok(PairSummary {
            first: self.first.copy(alloc, &s.first)?,
            second: self.second.copy(alloc, &s.second)?,
        })
    }

    ghost any_order = { λ view a b c s h. (A.any_order view.first a b c s.first h.0, B.any_order view.second a b c s.second h.1) };
}
