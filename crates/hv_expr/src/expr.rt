//! Expressions: the values of a column that is derived from others. The definition is `val` (specs/Values.antt).

ghost use Rattle.std.specs.Prelude.{◌≡◌, ◌-◌, ◌^◌, min, IfOk};
ghost use Rattle.hv_expr.specs.Sizes.{expr_nodes};

use hv_value::{Mem, Text};
use sqlite_items::Boxed;
use std::alloc::Global;

/// An expression over the cells of a row. Over a missing value it is missing.
#[derive(Drop)]
pub enum Expr {
    /// The cell of a column.
    Col(Text),
    /// The civil year of a date.
    Year(Boxed<Expr>),
    /// The civil month of a date, from 1.
    Month(Boxed<Expr>),
    /// The civil day of the month of a date, from 1.
    Day(Boxed<Expr>),
    /// The number of bytes of a text.
    Length(Boxed<Expr>),
    /// `a * x + b` over a whole number `x`, missing where that isn't one of an `i64`. `a` and `b` lie from
    /// -2^63 to 2^64 - 1.
    Linear {
        a: i128,
        b: i128,
        of: Boxed<Expr>,
    },
    /// Three texts, one after another.
    Join {
        left: Boxed<Expr>,
        between: Text,
        right: Boxed<Expr>,
    },
}

impl Expr {
    /// The number of nodes, where it is one of a `u64`, else the greatest `u64`.
    #[tactic(auto, using(crate::proofs::Folds::folds), unfolding(crate::specs::Sizes::expr_nodes))]
    pub fn nodes(&self) -> u64
        ensures { result ≡ min (expr_nodes self.now) (2 ^ 64 - 1) }
    {
        match self {
            Expr::Col(_) => 1,
            Expr::Year(of) => of.get().nodes().saturating_add(1),
            Expr::Month(of) => of.get().nodes().saturating_add(1),
            Expr::Day(of) => of.get().nodes().saturating_add(1),
            Expr::Length(of) => of.get().nodes().saturating_add(1),
            Expr::Linear { of, .. } => of.get().nodes().saturating_add(1),
            Expr::Join { left, right, .. } => {
                let both = left.get().nodes().saturating_add(right.get().nodes());
                both.saturating_add(1)
            }
        }
    }

    /// The same expression, in memory of its own.
    pub fn copy(&self, alloc: Global) -> Mem<Expr>
        ensures { IfOk result (λ e. e ≡ self.now) }
    {
        Ok(match self {
            Expr::Col(name) => Expr::Col(name.copy(alloc)?),
            Expr::Year(of) => Expr::Year(boxed(alloc, of.get().copy(alloc)?)?),
            Expr::Month(of) => Expr::Month(boxed(alloc, of.get().copy(alloc)?)?),
            Expr::Day(of) => Expr::Day(boxed(alloc, of.get().copy(alloc)?)?),
            Expr::Length(of) => Expr::Length(boxed(alloc, of.get().copy(alloc)?)?),
            Expr::Linear { a, b, of } => Expr::Linear {
                a: *a,
                b: *b,
                of: boxed(alloc, of.get().copy(alloc)?)?,
            },
            Expr::Join {
                left,
                between,
                right,
            } => Expr::Join {
                left: boxed(alloc, left.get().copy(alloc)?)?,
                between: between.copy(alloc)?,
                right: boxed(alloc, right.get().copy(alloc)?)?,
            },
        })
    }
}

fn boxed(alloc: Global, e: Expr) -> Mem<Boxed<Expr>>
    ensures { IfOk result (λ b. b ≡ e) }
{
    Ok(Boxed::new(alloc, e)?)
}
