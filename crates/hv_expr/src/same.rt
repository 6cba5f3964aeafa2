//! Equality and hashes of trees: two are equal exactly where they are the same, so that they can stand in keys. What
//! a hash writes is in specs/Hashes.antt.

ghost use Rattle.std.specs.Prelude.{◌≡◌, ◌↔◌, IsTrue, fold, flat_map};
ghost use Rattle.std.specs.Cmp.{partial_equiv_from_equiv};
ghost use Rattle.std.proofs.Common.{ap};
ghost use Rattle.hv_value.specs.Same.{same_by};
ghost use Rattle.hv_value.specs.SameLaws.{same_by-decides, same_by-equiv};
ghost use Rattle.hv_expr.specs.Hashes.{expr_writes, how_number, pred_writes, rel_number, test_writes};

use crate::{Expr, How, Pred, Rel, TextTest};
use hv_value::Cell;
use std::hash::{Hash, Hasher};

/// Two tests are equal where they are the same.
impl PartialEq for TextTest {
    ghost use Rattle.hv_expr.specs.contracts.text_test.TextTest as row;

    ghost eq = { same_by row.the_row.coded };

    ghost laws = { partial_equiv_from_equiv (same_by-equiv row.the_row.coded) };

    fn eq(&self, other: &TextTest) -> bool {
        are_same_tests(self, other)
    }
}

impl Eq for TextTest {
    ghost use Rattle.hv_expr.specs.contracts.text_test.TextTest as row;

    ghost laws = { same_by-equiv row.the_row.coded };
}

impl Hash for TextTest {
    ghost use Rattle.hv_expr.specs.contracts.text_test.TextTest as row;

    ghost hash_input = { test_writes };

    ghost respects_eq = { λ x y e. ap test_writes ((same_by-decides row.the_row.coded x y).0 e) };

    fn hash<H: Hasher>(&self, state: &mut H) {
        state.write_u8(number_of_how(self.how));
        self.fold.hash(state);
        self.text.hash(state);
    }
}

/// Two expressions are equal where they are the same.
impl PartialEq for Expr {
    ghost use Rattle.hv_expr.specs.contracts.expr.Expr as row;

    ghost eq = { same_by row.the_row.coded };

    ghost laws = { partial_equiv_from_equiv (same_by-equiv row.the_row.coded) };

    fn eq(&self, other: &Expr) -> bool {
        are_same_exprs(self, other)
    }
}

impl Eq for Expr {
    ghost use Rattle.hv_expr.specs.contracts.expr.Expr as row;

    ghost laws = { same_by-equiv row.the_row.coded };
}

impl Hash for Expr {
    ghost use Rattle.hv_expr.specs.contracts.expr.Expr as row;

    ghost hash_input = { expr_writes };

    ghost respects_eq = { λ x y e. ap expr_writes ((same_by-decides row.the_row.coded x y).0 e) };

    fn hash<H: Hasher>(&self, state: &mut H) {
        hash_expr(self, state);
    }
}

/// Two predicates are equal where they are the same.
impl PartialEq for Pred {
    ghost use Rattle.hv_expr.specs.contracts.pred.Pred as row;

    ghost eq = { same_by row.the_row.coded };

    ghost laws = { partial_equiv_from_equiv (same_by-equiv row.the_row.coded) };

    fn eq(&self, other: &Pred) -> bool {
        are_same_preds(self, other)
    }
}

impl Eq for Pred {
    ghost use Rattle.hv_expr.specs.contracts.pred.Pred as row;

    ghost laws = { same_by-equiv row.the_row.coded };
}

impl Hash for Pred {
    ghost use Rattle.hv_expr.specs.contracts.pred.Pred as row;

    ghost hash_input = { pred_writes };

    ghost respects_eq = { λ x y e. ap pred_writes ((same_by-decides row.the_row.coded x y).0 e) };

    fn hash<H: Hasher>(&self, state: &mut H) {
        hash_pred(self, state);
    }
}

fn are_same_cells(a: &Cell, b: &Cell) -> bool
    ensures { IsTrue result ↔ (a.now ≡ b.now) }
{
    a == b
}

fn are_same_tests(a: &TextTest, b: &TextTest) -> bool
    ensures { IsTrue result ↔ (a.now ≡ b.now) }
{
    a.how == b.how && a.fold == b.fold && a.text == b.text
}

fn are_same_exprs(a: &Expr, b: &Expr) -> bool
    ensures { IsTrue result ↔ (a.now ≡ b.now) }
{
    match (a, b) {
        (Expr::Col(s), Expr::Col(t)) => s == t,
        (Expr::Year(x), Expr::Year(y)) => are_same_exprs(x.get(), y.get()),
        (Expr::Month(x), Expr::Month(y)) => are_same_exprs(x.get(), y.get()),
        (Expr::Day(x), Expr::Day(y)) => are_same_exprs(x.get(), y.get()),
        (Expr::Length(x), Expr::Length(y)) => are_same_exprs(x.get(), y.get()),
        (
            Expr::Linear { a, b, of },
            Expr::Linear {
                a: c,
                b: d,
                of: other,
            },
        ) => { a == c && b == d && are_same_exprs(of.get(), other.get()) }
        (
            Expr::Join {
                left,
                between,
                right,
            },
            Expr::Join {
                left: first,
                between: middle,
                right: last,
            },
        ) => {
            between == middle
                && are_same_exprs(left.get(), first.get())
                && are_same_exprs(right.get(), last.get())
        }
        _ => false,
    }
}

#[cycle(same)]
fn are_same_preds(a: &Pred, b: &Pred) -> bool
    ensures { IsTrue result ↔ (a.now ≡ b.now) }
{
    match (a, b) {
        (
            Pred::Cmp { col, how, to },
            Pred::Cmp {
                col: name,
                how: other,
                to: cell,
            },
        ) => { col == name && how == other && are_same_cells(to, cell) }
        (Pred::Missing { col }, Pred::Missing { col: name }) => col == name,
        (
            Pred::Match { col, test },
            Pred::Match {
                col: name,
                test: other,
            },
        ) => { col == name && are_same_tests(test, other) }
        (Pred::And(xs), Pred::And(ys)) => are_all_same(xs.as_slice(), ys.as_slice()),
        (Pred::Or(xs), Pred::Or(ys)) => are_all_same(xs.as_slice(), ys.as_slice()),
        (Pred::Not(x), Pred::Not(y)) => are_same_preds(x.get(), y.get()),
        _ => false,
    }
}

#[cycle(same)]
fn are_all_same(xs: &[Pred], ys: &[Pred]) -> bool
    ensures { IsTrue result ↔ (xs.now ≡ ys.now) }
{
    if xs.len() != ys.len() {
        return false;
    }
    for (i, x) in xs.iter().enumerate() {
        if !are_same_preds(x, &ys[i]) {
            return false;
        }
    }
    true
}

fn number_of_how(how: How) -> u8
    ensures { result ≡ how_number how }
{
    match how {
        How::Equals => 0,
        How::Contains => 1,
        How::Begins => 2,
    }
}

fn number_of_rel(how: Rel) -> u8
    ensures { result ≡ rel_number how }
{
    match how {
        Rel::Lt => 0,
        Rel::Le => 1,
        Rel::Eq => 2,
        Rel::Ne => 3,
        Rel::Ge => 4,
        Rel::Gt => 5,
    }
}

#[tactic(auto, using(crate::proofs::Folds::folds), unfolding(crate::specs::Hashes::expr_writes))]
fn hash_expr<H: Hasher>(e: &Expr, state: &mut H)
    ensures { state.new ≡ fold H.write state.old (expr_writes e.now) }
{
    match e {
        Expr::Col(name) => {
            state.write_u8(0);
            name.hash(state);
        }
        Expr::Year(of) => {
            state.write_u8(1);
            hash_expr(of.get(), state);
        }
        Expr::Month(of) => {
            state.write_u8(2);
            hash_expr(of.get(), state);
        }
        Expr::Day(of) => {
            state.write_u8(3);
            hash_expr(of.get(), state);
        }
        Expr::Length(of) => {
            state.write_u8(4);
            hash_expr(of.get(), state);
        }
        Expr::Linear { a, b, of } => {
            state.write_u8(5);
            a.hash(state);
            b.hash(state);
            hash_expr(of.get(), state);
        }
        Expr::Join {
            left,
            between,
            right,
        } => {
            state.write_u8(6);
            hash_expr(left.get(), state);
            between.hash(state);
            hash_expr(right.get(), state);
        }
    }
}

#[cycle(hash)]
#[tactic(auto, using(crate::proofs::Folds::folds), unfolding(crate::specs::Hashes::pred_writes))]
fn hash_pred<H: Hasher>(pred: &Pred, state: &mut H)
    ensures { state.new ≡ fold H.write state.old (pred_writes pred.now) }
{
    match pred {
        Pred::Cmp { col, how, to } => {
            state.write_u8(0);
            col.hash(state);
            state.write_u8(number_of_rel(*how));
            to.hash(state);
        }
        Pred::Missing { col } => {
            state.write_u8(1);
            col.hash(state);
        }
        Pred::Match { col, test } => {
            state.write_u8(2);
            col.hash(state);
            test.hash(state);
        }
        Pred::And(parts) => {
            state.write_u8(3);
            hash_parts(parts.as_slice(), state);
        }
        Pred::Or(parts) => {
            state.write_u8(4);
            hash_parts(parts.as_slice(), state);
        }
        Pred::Not(of) => {
            state.write_u8(5);
            hash_pred(of.get(), state);
        }
    }
}

#[cycle(hash)]
fn hash_parts<H: Hasher>(parts: &[Pred], state: &mut H)
    ensures { state.new ≡ fold H.write state.old (flat_map pred_writes parts.now) }
{
    for part in parts {
        hash_pred(part, state);
    }
}
