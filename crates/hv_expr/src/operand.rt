//! The operands of an expression's nodes.

ghost use Rattle.std.specs.Prelude.{◌≡◌};
ghost use Rattle.hv_value.specs.Cells.{cell_lent};
ghost use Rattle.hv_expr.specs.Ready.{operand_cell};

use hv_value::{Cell, CellRef};

/// The cell that a node is applied to.
#[derive(Drop)]
pub(crate) enum Operand<'t> {
    /// A cell of a table's column, lent.
    Column(CellRef<'t>),
    /// The value of an expression.
    Made(Cell),
}

impl<'t> Operand<'t> {
    /// The cell, lent.
    pub(crate) fn lent(&self) -> CellRef<'_>
        ensures { cell_lent result ≡ operand_cell self.now }
    {
        match self {
            Operand::Column(cell) => *cell,
            Operand::Made(cell) => cell.lent(),
        }
    }
}
