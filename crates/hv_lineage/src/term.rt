//! Terms: what is done to the rows of a base. The definition is `made_of` (specs/Made.antt).

ghost use Rattle.std.specs.Prelude.{◌≡◌, IfOk};
ghost use Rattle.hv_lineage.specs.declared.term.Term.TheVariants as term;

use crate::{How2, Shared};
use hv_expr::{Expr, Pred};
use hv_value::{Mem, Text};
use sqlite_items::{Boxed, Items};
use std::alloc::Global;

/// The most levels of a term, a base being one.
pub const MAX_TERM_DEPTH: u32 = 64;

/// The most nodes of a term.
pub const MAX_TERM_NODES: u32 = 128;

/// What is done to the rows of a base, from the inside out.
#[derive(Drop)]
pub enum Term {
    /// Each row of the base, as it is.
    Base,
    /// The rows of which the predicate holds.
    Filter {
        of: Boxed<Term>,
        pred: Shared<Pred>,
    },
    /// The named columns, in this order.
    Project {
        of: Boxed<Term>,
        cols: Shared<Items<Text>>,
    },
    /// One more column, at the end: the expression's value.
    Derive {
        of: Boxed<Term>,
        name: Shared<Text>,
        expr: Shared<Expr>,
    },
    /// The rows that are picked at a threshold, of 2^32nds: by seed, partition and row number alone.
    Sample {
        of: Boxed<Term>,
        seed: u64,
        threshold: u64,
    },
    /// Two terms over the one base, combined.
    Combine {
        how: How2,
        left: Boxed<Term>,
        right: Boxed<Term>,
    },
}

impl Term {
    /// The same term: nodes of its own, over the same predicates, names and expressions.
    pub fn copy(&self, alloc: Global) -> Mem<Term>
        ensures { IfOk result (λ term. term ≡ self.now) }
    {
        Ok(match self {
            Term::Base => Term::Base,
            Term::Filter { of, pred } => Term::Filter {
                of: Boxed::new(alloc, of.get().copy(alloc)?)?,
                pred: pred.share()?,
            },
            Term::Project { of, cols } => Term::Project {
                of: Boxed::new(alloc, of.get().copy(alloc)?)?,
                cols: cols.share()?,
            },
            Term::Derive { of, name, expr } => Term::Derive {
                of: Boxed::new(alloc, of.get().copy(alloc)?)?,
                name: name.share()?,
                expr: expr.share()?,
            },
            Term::Sample {
                of,
                seed,
                threshold,
            } => Term::Sample {
                of: Boxed::new(alloc, of.get().copy(alloc)?)?,
                seed: *seed,
                threshold: *threshold,
            },
            Term::Combine { how, left, right } => Term::Combine {
                how: *how,
                left: Boxed::new(alloc, left.get().copy(alloc)?)?,
                right: Boxed::new(alloc, right.get().copy(alloc)?)?,
            },
        })
    }

    /// A filter over a copy of the term.
    pub(crate) fn filter(&self, alloc: Global, pred: Pred) -> Mem<Term>
        ensures { IfOk result (λ made. made ≡ term.Filter self.now pred) }
    {
        Ok(Term::Filter {
            of: Boxed::new(alloc, self.copy(alloc)?)?,
            pred: Shared::new(alloc, pred)?,
        })
    }

    /// A choice of columns over a copy of the term.
    pub(crate) fn project(&self, alloc: Global, cols: Vec<Text>) -> Mem<Term>
        ensures { IfOk result (λ made. made ≡ term.Project self.now cols.items) }
    {
        Ok(Term::Project {
            of: Boxed::new(alloc, self.copy(alloc)?)?,
            cols: Shared::new(alloc, Items::from_vec(cols))?,
        })
    }

    /// A derived column over a copy of the term.
    pub(crate) fn derive(&self, alloc: Global, name: Text, expr: Expr) -> Mem<Term>
        ensures { IfOk result (λ made. made ≡ term.Derive self.now name expr) }
    {
        Ok(Term::Derive {
            of: Boxed::new(alloc, self.copy(alloc)?)?,
            name: Shared::new(alloc, name)?,
            expr: Shared::new(alloc, expr)?,
        })
    }

    /// The picked rows of a copy of the term.
    pub(crate) fn sample(&self, alloc: Global, seed: u64, threshold: u64) -> Mem<Term>
        ensures { IfOk result (λ made. made ≡ term.Sample self.now seed threshold) }
    {
        Ok(Term::Sample {
            of: Boxed::new(alloc, self.copy(alloc)?)?,
            seed,
            threshold,
        })
    }

    /// Copies of this term and another, combined.
    pub(crate) fn combine(&self, alloc: Global, how: How2, right: &Term) -> Mem<Term>
        ensures { IfOk result (λ made. made ≡ term.Combine how self.now right.now) }
    {
        Ok(Term::Combine {
            how,
            left: Boxed::new(alloc, self.copy(alloc)?)?,
            right: Boxed::new(alloc, right.copy(alloc)?)?,
        })
    }
}
