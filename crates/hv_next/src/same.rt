//! When two views of next rows are the same. What a hash of one writes is in specs/Hashes.antt.

ghost use Rattle.std.specs.Prelude.{◌≡◌, ◌↔◌, IsTrue};
ghost use Rattle.std.specs.Cmp.{partial_equiv_from_equiv};
ghost use Rattle.std.proofs.Common.{ap};
ghost use Rattle.hv_value.specs.Same.{same_by};
ghost use Rattle.hv_value.specs.SameLaws.{same_by-decides, same_by-equiv};
ghost use Rattle.hv_next.specs.Hashes.{next_writes};

use crate::NextRows;
use hv_value::{Cell, Listed, Order};
use std::hash::{Hash, Hasher};

impl NextRows {
    /// Whether two views are the same.
    pub fn same(&self, other: &NextRows) -> bool
        ensures { IsTrue result ↔ (self.now ≡ other.now) }
    {
        self.k == other.k
            && are_same_orders(&self.order, &other.order)
            && are_same_keys(&self.after, &other.after)
    }
}

/// Two views are equal where they are the same.
impl PartialEq for NextRows {
    ghost use Rattle.hv_next.specs.contracts.next_rows.NextRows as row;

    ghost eq = { same_by row.the_row.coded };

    ghost laws = { partial_equiv_from_equiv (same_by-equiv row.the_row.coded) };

    fn eq(&self, other: &NextRows) -> bool {
        self.same(other)
    }
}

/// Whether two orders are the same.
pub fn are_same_orders(a: &Order, b: &Order) -> bool
    ensures { IsTrue result ↔ (a.now ≡ b.now) }
{
    a == b
}

/// Whether two keys are the same, or neither is there.
pub fn are_same_keys(a: &Option<Listed<Cell>>, b: &Option<Listed<Cell>>) -> bool
    ensures { IsTrue result ↔ (a.now ≡ b.now) }
{
    match (a, b) {
        (Some(x), Some(y)) => are_same_cells(x.as_slice(), y.as_slice()),
        (None, None) => true,
        _ => false,
    }
}

fn are_same_cells(a: &[Cell], b: &[Cell]) -> bool
    ensures { IsTrue result ↔ (a.now ≡ b.now) }
{
    a == b
}

impl Eq for NextRows {
    ghost use Rattle.hv_next.specs.contracts.next_rows.NextRows as row;

    ghost laws = { same_by-equiv row.the_row.coded };
}

/// The same views write the same into a hasher.
impl Hash for NextRows {
    ghost use Rattle.hv_next.specs.contracts.next_rows.NextRows as row;

    ghost hash_input = { next_writes };

    ghost respects_eq = { λ x y e. ap next_writes ((same_by-decides row.the_row.coded x y).0 e) };

    fn hash<H: Hasher>(&self, state: &mut H) {
        self.order.hash(state);
        self.after.hash(state);
        self.k.hash(state);
    }
}
