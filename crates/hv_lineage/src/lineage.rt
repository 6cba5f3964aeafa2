//! Lineages. Contracts see one as its base and the term over it (specs/Lineages.antt); what each keeps beside them is
//! what these determine.

ghost use Rattle.std.specs.Prelude.{◌≡◌, ◌+◌, ◌≤◌, ◌^◌, ◌↔◌, true, IsTrue, IfOk, IfErr, None, Some, is_none, max};
ghost use Rattle.std.specs.Arc.{arc_value};
ghost use Rattle.hv_expr.specs.Checks.{has_fit_factors};
ghost use Rattle.hv_lineage.specs.declared.term.Term.TheVariants as term;
ghost use Rattle.hv_lineage.specs.Bases.{IsFitBase};
ghost use Rattle.hv_lineage.specs.Combining.{base_refusal, combine_refusal, combined, pair_refusal, sample_refusal, sampled};
ghost use Rattle.hv_lineage.specs.Kept.{Extends};
ghost use Rattle.hv_lineage.specs.Lineages.{IsLineage, IsRefusal, derive_refusal, derived, filter_refusal, filtered, lineage_columns, lineage_parts, project_refusal, projected, room_refusal};
ghost use Rattle.hv_lineage.specs.Refusals.{deep_refusal};
ghost use Rattle.hv_lineage.specs.Sizes.{term_depth, term_size};

use crate::base::are_same;
use crate::checks::{check_expr, check_pred};
use crate::columns::{combined_schema, copy_schema, longer_schema, picked_schema};
use crate::term::{MAX_TERM_DEPTH, MAX_TERM_NODES};
use crate::{Base, How2, LineageErr, Shared, Term};
use hv_expr::{Expr, Pred};
use hv_value::{Mem, Schema, Text};
use std::alloc::Global;
use std::marker::Model;
use std::sync::Arc;

/// What a data set is made of: a base, and a term over it of at most 64 levels and 128 nodes. Copies share the base,
/// the predicates and the expressions.
#[derive(Drop)]
pub struct Lineage {
    base: Arc<Base>,
    term: Term,
    schema: Shared<Schema>,
    depth: u32,
    size: u32,
}

impl Model for Lineage {
    ghost use Rattle.std.specs.Arc.{arc_value};
    ghost use Rattle.std.specs.Coded.{codes};
    ghost use Rattle.hv_lineage.specs.contracts.term.Term as term_row;
    ghost use Rattle.hv_lineage.specs.Kept.{HoldLineage};
    ghost use Rattle.hv_lineage.specs.Lineages.{TermOver};

    ghost Value = { TermOver };

    ghost coded = { Prim.hlevel (codes, term_row.the_row.coded) };

    ghost view = { λ l. record { base = arc_value l.base; term = l.term } };

    ghost invariant = { λ l. HoldLineage (record { base = arc_value l.base; term = l.term }) l.schema l.depth l.size };
}

impl Lineage {
    /// The columns. Its second clause hands out what each lineage keeps.
    pub fn schema(&self) -> &Schema
        ensures value { result.now ≡ lineage_columns self.now }
        ensures whole { IsLineage self.now }
    {
        self.schema.get()
    }

    /// The number of partitions, at most 65,536.
    pub fn parts(&self) -> u32
        ensures { result ≡ lineage_parts self.now }
    {
        self.base.parts()
    }

    /// The depth of its term, 1 of a base.
    pub fn depth(&self) -> u32
        ensures { result ≡ term_depth self.now.term }
    {
        self.depth
    }

    /// The number of nodes of its term, 1 of a base.
    pub fn size(&self) -> u32
        ensures { result ≡ term_size self.now.term }
    {
        self.size
    }

    /// Whether the other lineage has an equal base.
    pub fn same_base(&self, other: &Lineage) -> bool
        ensures { IsTrue result ↔ (self.now.base ≡ other.now.base) }
    {
        are_same(self.origin(), other.origin())
    }

    /// The base.
    pub fn origin(&self) -> &Base
        ensures { result.now ≡ self.now.base }
    {
        &self.base
    }

    /// The term over the base.
    pub fn term(&self) -> &Term
        ensures { result.now ≡ self.now.term }
    {
        &self.term
    }

    /// Makes the lineage of a base: its rows as they are.
    pub fn base(alloc: Global, base: Base) -> Mem<Arc<Lineage>>
        requires { IsFitBase base }
        ensures { IfOk result (λ made. arc_value made ≡ record { base = base; term = term.Base }) }
    {
        let schema = Shared::new(alloc, copy_schema(alloc, base.schema())?)?;
        let base = Arc::new(alloc, base)?;
        Ok(Arc::new(
            alloc,
            Lineage {
                base,
                term: Term::Base,
                schema,
                depth: 1,
                size: 1,
            },
        )?)
    }

    /// Whether one more node over the term leaves it within 64 levels and 128 nodes.
    pub fn has_room(&self) -> bool
        ensures { result ≡ is_none (room_refusal self.now) }
    {
        self.depth < MAX_TERM_DEPTH && self.size < MAX_TERM_NODES
    }

    /// Whether one more node makes the term too deep or too large.
    fn room(&self) -> Result<(), LineageErr>
        ensures ok { IfOk result (λ _. room_refusal self.now ≡ None) }
        ensures err { IfErr result (λ e. room_refusal self.now ≡ Some e) }
    {
        if self.has_room() {
            Ok(())
        } else {
            Err(LineageErr::Deep)
        }
    }

    /// Whether the other lineage has another base.
    fn with_base_of(&self, other: &Lineage) -> Result<(), LineageErr>
        ensures ok { IfOk result (λ _. (base_refusal self.now.base other.now.base ≡ None) × (self.now.base ≡ other.now.base)) }
        ensures err { IfErr result (λ e. base_refusal self.now.base other.now.base ≡ Some e) }
    {
        if self.same_base(other) {
            Ok(())
        } else {
            Err(LineageErr::NotSameBase)
        }
    }

    /// Whether one more node over both terms is too deep or too large.
    fn room_beside(&self, other: &Lineage) -> Result<(), LineageErr>
        ensures ok { IfOk result (λ _. pair_refusal self.now other.now ≡ None) }
        ensures err { IfErr result (λ e. pair_refusal self.now other.now ≡ Some e) }
    {
        if self.depth < MAX_TERM_DEPTH
            && other.depth < MAX_TERM_DEPTH
            && self.size + other.size < MAX_TERM_NODES
        {
            Ok(())
        } else {
            Err(LineageErr::Deep)
        }
    }

    /// The lineage of another term over the base, of this depth and so many nodes.
    fn over(
        &self,
        alloc: Global,
        term: Term,
        schema: Shared<Schema>,
        depth: u32,
        size: u32,
    ) -> Mem<Arc<Lineage>>
        requires longer { Extends self.now term schema depth size }
        requires room { deep_refusal depth size ≡ None }
        ensures { IfOk result (λ made. arc_value made ≡ record self.now { term = term }) }
    {
        let base = Arc::try_clone(&self.base)?;
        Ok(Arc::new(
            alloc,
            Lineage {
                base,
                term,
                schema,
                depth,
                size,
            },
        )?)
    }

    /// A lineage with one more node.
    fn grown(&self, alloc: Global, term: Term, schema: Shared<Schema>) -> Mem<Arc<Lineage>>
        requires longer { Extends self.now term schema (term_depth self.now.term + 1) (term_size self.now.term + 1) }
        requires room { room_refusal self.now ≡ None }
        ensures { IfOk result (λ made. arc_value made ≡ record self.now { term = term }) }
    {
        self.over(alloc, term, schema, self.depth + 1, self.size + 1)
    }

    /// A lineage of both terms under one more node.
    fn joined(
        &self,
        alloc: Global,
        other: &Lineage,
        term: Term,
        schema: Shared<Schema>,
    ) -> Mem<Arc<Lineage>>
        requires longer { Extends self.now term schema (max (term_depth self.now.term) (term_depth other.now.term) + 1) (term_size self.now.term + term_size other.now.term + 1) }
        requires room { pair_refusal self.now other.now ≡ None }
        ensures { IfOk result (λ made. arc_value made ≡ record self.now { term = term }) }
    {
        let depth = self.depth.max(other.depth) + 1;
        self.over(alloc, term, schema, depth, self.size + other.size + 1)
    }

    /// Keeps the rows of which the predicate holds.
    pub fn filter(alloc: Global, of: &Arc<Lineage>, pred: Pred) -> Result<Arc<Lineage>, LineageErr>
        ensures ok { IfOk result (λ made. arc_value made ≡ filtered (arc_value of.now) pred) }
        ensures fit { IfOk result (λ _. filter_refusal (arc_value of.now) pred ≡ None) }
        ensures refused { IfErr result (IsRefusal (filter_refusal (arc_value of.now) pred)) }
    {
        let lineage: &Lineage = of;
        check_pred(&pred, lineage.schema.get())?;
        lineage.room()?;
        let schema = lineage.schema.share()?;
        let term = lineage.term.filter(alloc, pred)?;
        Ok(lineage.grown(alloc, term, schema)?)
    }

    /// Chooses columns, in the order of their names.
    pub fn project(
        alloc: Global,
        of: &Arc<Lineage>,
        cols: Vec<Text>,
    ) -> Result<Arc<Lineage>, LineageErr>
        ensures ok { IfOk result (λ made. arc_value made ≡ projected (arc_value of.now) cols.items) }
        ensures fit { IfOk result (λ _. project_refusal (arc_value of.now) cols.items ≡ None) }
        ensures refused { IfErr result (IsRefusal (project_refusal (arc_value of.now) cols.items)) }
    {
        let lineage: &Lineage = of;
        let schema = picked_schema(alloc, lineage.schema.get(), &cols)?;
        lineage.room()?;
        let schema = Shared::new(alloc, schema)?;
        let term = lineage.term.project(alloc, cols)?;
        Ok(lineage.grown(alloc, term, schema)?)
    }

    /// Adds a column of an expression's values, at the end. The numbers `a` and `b` of the expression lie from -2^63
    /// to 2^64 - 1.
    pub fn derive(
        alloc: Global,
        of: &Arc<Lineage>,
        name: Text,
        expr: Expr,
    ) -> Result<Arc<Lineage>, LineageErr>
        requires { has_fit_factors expr ≡ true }
        ensures ok { IfOk result (λ made. arc_value made ≡ derived (arc_value of.now) name expr) }
        ensures fit { IfOk result (λ _. derive_refusal (arc_value of.now) name expr ≡ None) }
        ensures refused { IfErr result (IsRefusal (derive_refusal (arc_value of.now) name expr)) }
    {
        let lineage: &Lineage = of;
        let kind = check_expr(&expr, lineage.schema.get())?;
        let schema = longer_schema(alloc, lineage.schema.get(), &name, kind)?;
        lineage.room()?;
        let schema = Shared::new(alloc, schema)?;
        let term = lineage.term.derive(alloc, name, expr)?;
        Ok(lineage.grown(alloc, term, schema)?)
    }

    /// Keeps the rows that are picked at a threshold, of 2^32nds, by seed, partition and row number alone.
    pub fn sample(
        alloc: Global,
        of: &Arc<Lineage>,
        seed: u64,
        threshold: u64,
    ) -> Result<Arc<Lineage>, LineageErr>
        requires { threshold ≤ 2 ^ 32 }
        ensures ok { IfOk result (λ made. arc_value made ≡ sampled (arc_value of.now) seed threshold) }
        ensures fit { IfOk result (λ _. sample_refusal (arc_value of.now) ≡ None) }
        ensures refused { IfErr result (IsRefusal (sample_refusal (arc_value of.now))) }
    {
        let lineage: &Lineage = of;
        lineage.room()?;
        let schema = lineage.schema.share()?;
        let term = lineage.term.sample(alloc, seed, threshold)?;
        Ok(lineage.grown(alloc, term, schema)?)
    }

    /// Combines two lineages of one base.
    pub fn combine(
        alloc: Global,
        how: How2,
        left: &Arc<Lineage>,
        right: &Arc<Lineage>,
    ) -> Result<Arc<Lineage>, LineageErr>
        ensures ok { IfOk result (λ made. arc_value made ≡ combined how (arc_value left.now) (arc_value right.now)) }
        ensures fit { IfOk result (λ _. combine_refusal how (arc_value left.now) (arc_value right.now) ≡ None) }
        ensures refused { IfErr result (IsRefusal (combine_refusal how (arc_value left.now) (arc_value right.now))) }
    {
        let first: &Lineage = left;
        let second: &Lineage = right;
        first.with_base_of(second)?;
        let schema = combined_schema(alloc, how, &first.schema, &second.schema)?;
        first.room_beside(second)?;
        let term = first.term.combine(alloc, how, &second.term)?;
        Ok(first.joined(alloc, second, term, schema)?)
    }
}
