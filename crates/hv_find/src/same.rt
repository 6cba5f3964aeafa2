//! When two searches are the same. What a hash of one writes is in specs/Hashes.antt.

ghost use Rattle.std.specs.Prelude.{◌≡◌, ◌↔◌, IsTrue};
ghost use Rattle.std.specs.Cmp.{partial_equiv_from_equiv};
ghost use Rattle.std.proofs.Common.{ap};
ghost use Rattle.hv_value.specs.Same.{same_by};
ghost use Rattle.hv_value.specs.SameLaws.{same_by-decides, same_by-equiv};
ghost use Rattle.hv_find.specs.Hashes.{find_writes};

use crate::Find;
use hv_expr::TextTest;
use hv_next::{are_same_keys, are_same_orders};
use std::hash::{Hash, Hasher};

impl Find {
    /// Whether two views are the same.
    pub fn same(&self, other: &Find) -> bool
        ensures { IsTrue result ↔ (self.now ≡ other.now) }
    {
        are_same_places(self.cols.as_slice(), other.cols.as_slice())
            && are_same_tests(&self.test, &other.test)
            && are_same_orders(&self.order, &other.order)
            && are_same_keys(&self.after, &other.after)
    }
}

/// Two views are equal where they are the same.
impl PartialEq for Find {
    ghost use Rattle.hv_find.specs.contracts.find.Find as row;

    ghost eq = { same_by row.the_row.coded };

    ghost laws = { partial_equiv_from_equiv (same_by-equiv row.the_row.coded) };

    fn eq(&self, other: &Find) -> bool {
        self.same(other)
    }
}

impl Eq for Find {
    ghost use Rattle.hv_find.specs.contracts.find.Find as row;

    ghost laws = { same_by-equiv row.the_row.coded };
}

/// The same views write the same into a hasher.
impl Hash for Find {
    ghost use Rattle.hv_find.specs.contracts.find.Find as row;

    ghost hash_input = { find_writes };

    ghost respects_eq = { λ x y e. ap find_writes ((same_by-decides row.the_row.coded x y).0 e) };

    fn hash<H: Hasher>(&self, state: &mut H) {
        self.cols.as_slice().hash(state);
        self.test.hash(state);
        self.order.hash(state);
        self.after.hash(state);
    }
}

fn are_same_places(a: &[u32], b: &[u32]) -> bool
    ensures { IsTrue result ↔ (a.now ≡ b.now) }
{
    a == b
}

fn are_same_tests(a: &TextTest, b: &TextTest) -> bool
    ensures { IsTrue result ↔ (a.now ≡ b.now) }
{
    a == b
}
