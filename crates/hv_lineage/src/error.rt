//! Why a lineage can't be made.

ghost use Rattle.std.specs.Prelude.{◌≡◌, Some};
ghost use Rattle.hv_lineage.specs.Refusals.{lineage_err_text};
ghost use Rattle.hv_lineage.specs.declared.error.LineageErr.TheVariants as err;

use hv_expr::ExprErr;
use hv_value::Memory;
use std::alloc::{AllocError, AllocFailed};
use std::error::Error;
use std::fmt;

/// Why a lineage can't be made.
#[derive(Clone, Copy, Debug, PartialEq, Eq)]
pub enum LineageErr {
    /// A named column isn't in the schema.
    NoColumn,
    /// A column, a constant or an operand has another kind than its place needs.
    WrongKind,
    /// A predicate or an expression is deeper than 16.
    TooDeep,
    /// The columns make no schema: none, more than 64, an unfit name, or one that repeats.
    BadSchema,
    /// The two sides have unequal bases.
    NotSameBase,
    /// A derived column's name is that of a column already.
    NameClash,
    /// The two sides have unequal schemas.
    SchemaDiffers,
    /// The lineage would be deeper than 64 or have more than 128 nodes.
    Deep,
    Memory,
}

impl fmt::Display for LineageErr {
    ghost output = { λ err. Some (lineage_err_text err) };

    fn fmt<W: fmt::Write>(&self, f: &mut fmt::Formatter<W>) -> fmt::Result {
        f.write_str(match self {
            LineageErr::NoColumn => "a column isn't in the schema",
            LineageErr::WrongKind => "a column, constant or operand has another kind",
            LineageErr::TooDeep => "the predicate or expression is too deep",
            LineageErr::BadSchema => "the columns make no schema",
            LineageErr::NotSameBase => "the two sides have unequal bases",
            LineageErr::NameClash => "a column with this name is there already",
            LineageErr::SchemaDiffers => "the two sides have unequal schemas",
            LineageErr::Deep => "the lineage is too deep or too large",
            LineageErr::Memory => "out of memory",
        })
    }
}

impl Error for LineageErr {}

impl From<Memory> for LineageErr {
    ghost from_gives = { λ _ e. e ≡ err.Memory };

    fn from(_: Memory) -> LineageErr {
        LineageErr::Memory
    }
}

impl From<AllocError> for LineageErr {
    ghost from_gives = { λ _ e. e ≡ err.Memory };

    fn from(_: AllocError) -> LineageErr {
        LineageErr::Memory
    }
}

impl<T: Drop> From<AllocFailed<T>> for LineageErr {
    ghost from_gives = { λ _ e. e ≡ err.Memory };

    fn from(_: AllocFailed<T>) -> LineageErr {
        LineageErr::Memory
    }
}

impl From<ExprErr> for LineageErr {
    ghost use Rattle.hv_lineage.specs.Refusals.{refusal_of_fault};

    ghost from_gives = { λ fault e. e ≡ refusal_of_fault fault };

    fn from(fault: ExprErr) -> LineageErr {
        match fault {
            ExprErr::NoColumn => LineageErr::NoColumn,
            ExprErr::WrongKind => LineageErr::WrongKind,
            ExprErr::TooDeep => LineageErr::TooDeep,
        }
    }
}
