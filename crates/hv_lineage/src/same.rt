//! Equality and hashes of terms and lineages: two are equal exactly where they are the same, so that they can stand in
//! keys. What a hash writes is in specs/Hashes.antt.

ghost use Rattle.std.specs.Prelude.{◌≡◌, ◌↔◌, IsTrue, fold, flat_map};
ghost use Rattle.std.specs.Cmp.{partial_equiv_from_equiv};
ghost use Rattle.std.specs.Hash as fed;
ghost use Rattle.std.proofs.Common.{ap};
ghost use Rattle.hv_value.specs.Same.{same_by};
ghost use Rattle.hv_value.specs.SameLaws.{same_by-decides, same_by-equiv};
ghost use Rattle.hv_lineage.specs.Hashes.{how_number, lineage_writes, term_writes};

use crate::base::{are_same, are_same_texts};
use crate::{How2, Lineage, Term};
use hv_expr::{Expr, Pred};
use hv_value::Text;
use std::hash::{Hash, Hasher};

/// Two lineages are equal where they are the same: of equal bases, with the same term over them.
impl PartialEq for Lineage {
    ghost use Rattle.hv_lineage.specs.contracts.lineage.Lineage as row;

    ghost eq = { same_by row.the_row.coded };

    ghost laws = { partial_equiv_from_equiv (same_by-equiv row.the_row.coded) };

    fn eq(&self, other: &Lineage) -> bool {
        are_same_lineages(self, other)
    }
}

impl Eq for Lineage {
    ghost use Rattle.hv_lineage.specs.contracts.lineage.Lineage as row;

    ghost laws = { same_by-equiv row.the_row.coded };
}

impl Hash for Lineage {
    ghost use Rattle.hv_lineage.specs.contracts.lineage.Lineage as row;

    ghost hash_input = { lineage_writes };

    ghost respects_eq = { λ x y e. ap lineage_writes ((same_by-decides row.the_row.coded x y).0 e) };

    fn hash<H: Hasher>(&self, state: &mut H) {
        self.origin().hash(state);
        hash_term(self.term(), state);
    }
}

/// Terms come first, since a base may have a MiB of text.
fn are_same_lineages(a: &Lineage, b: &Lineage) -> bool
    ensures { IsTrue result ↔ (a.now ≡ b.now) }
{
    are_same_terms(a.term(), b.term()) && are_same(a.origin(), b.origin())
}

fn are_same_preds(a: &Pred, b: &Pred) -> bool
    ensures { IsTrue result ↔ (a.now ≡ b.now) }
{
    a == b
}

fn are_same_exprs(a: &Expr, b: &Expr) -> bool
    ensures { IsTrue result ↔ (a.now ≡ b.now) }
{
    a == b
}

fn are_same_terms(a: &Term, b: &Term) -> bool
    ensures { IsTrue result ↔ (a.now ≡ b.now) }
{
    match (a, b) {
        (Term::Base, Term::Base) => true,
        (
            Term::Filter { of, pred },
            Term::Filter {
                of: inner,
                pred: other,
            },
        ) => { are_same_preds(pred.get(), other.get()) && are_same_terms(of.get(), inner.get()) }
        (
            Term::Project { of, cols },
            Term::Project {
                of: inner,
                cols: other,
            },
        ) => {
            are_same_texts(cols.get().as_slice(), other.get().as_slice())
                && are_same_terms(of.get(), inner.get())
        }
        (
            Term::Derive { of, name, expr },
            Term::Derive {
                of: inner,
                name: other,
                expr: value,
            },
        ) => {
            are_same_names(name.get(), other.get())
                && are_same_exprs(expr.get(), value.get())
                && are_same_terms(of.get(), inner.get())
        }
        (
            Term::Sample {
                of,
                seed,
                threshold,
            },
            Term::Sample {
                of: inner,
                seed: other,
                threshold: limit,
            },
        ) => seed == other && threshold == limit && are_same_terms(of.get(), inner.get()),
        (
            Term::Combine { how, left, right },
            Term::Combine {
                how: other,
                left: first,
                right: second,
            },
        ) => {
            how == other
                && are_same_terms(left.get(), first.get())
                && are_same_terms(right.get(), second.get())
        }
        _ => false,
    }
}

fn are_same_names(a: &Text, b: &Text) -> bool
    ensures { IsTrue result ↔ (a.now ≡ b.now) }
{
    a == b
}

fn number_of_how(how: How2) -> u8
    ensures { result ≡ how_number how }
{
    match how {
        How2::Zip => 0,
        How2::Union => 1,
        How2::Both => 2,
        How2::Minus => 3,
    }
}

#[tactic(auto, using(crate::proofs::TermNodes::folds), unfolding(crate::specs::Hashes::term_writes))]
fn hash_term<H: Hasher>(term: &Term, state: &mut H)
    ensures { state.new ≡ fold H.write state.old (term_writes term.now) }
{
    match term {
        Term::Base => state.write_u8(0),
        Term::Filter { of, pred } => {
            state.write_u8(1);
            pred.get().hash(state);
            hash_term(of.get(), state);
        }
        Term::Project { of, cols } => {
            state.write_u8(2);
            hash_names(cols.get().as_slice(), state);
            hash_term(of.get(), state);
        }
        Term::Derive { of, name, expr } => {
            state.write_u8(3);
            name.get().hash(state);
            expr.get().hash(state);
            hash_term(of.get(), state);
        }
        Term::Sample {
            of,
            seed,
            threshold,
        } => {
            state.write_u8(4);
            seed.hash(state);
            threshold.hash(state);
            hash_term(of.get(), state);
        }
        Term::Combine { how, left, right } => {
            state.write_u8(5);
            state.write_u8(number_of_how(*how));
            hash_term(left.get(), state);
            hash_term(right.get(), state);
        }
    }
}

fn hash_names<H: Hasher>(names: &[Text], state: &mut H)
    ensures { state.new ≡ fold H.write state.old (flat_map fed.str names.now) }
{
    for name in names {
        name.hash(state);
    }
}
