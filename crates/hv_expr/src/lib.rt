//! Predicates and expressions over the cells of a row.
#![tactic(auto)]

mod cells;
mod check;
mod check_expr;
mod check_pred;
mod error;
mod eval;
mod expr;
mod operand;
mod pred;
mod ready_expr;
mod ready_pred;
mod ready_test;
mod same;
mod text_test;

pub use error::{ExprErr, MAX_DEPTH};
pub use expr::Expr;
pub use pred::{Pred, Rel};
pub use ready_expr::ReadyExpr;
pub use ready_pred::ReadyPred;
pub use ready_test::ReadyTest;
pub use text_test::{How, TextTest};

#[cfg(test)]
mod tests;
