//! Why a message is refused while it is read.

ghost use Rattle.std.specs.Prelude.{◌≡◌};

use crate::Why;
use hv_value::Memory;
use std::alloc::AllocError;

/// A check failed, with its word, or memory was refused.
#[derive(Clone, Copy, Debug, PartialEq, Eq)]
pub enum Refused {
    /// The first check that failed.
    Word(Why),
    /// Memory was refused, whatever a check would have said.
    Memory,
}

impl From<Memory> for Refused {
    ghost use Rattle.std.specs.Prelude.{◌≡◌};
    ghost use Rattle.hv_asked.specs.declared.refused.Refused.TheVariants as refused;

    ghost from_gives = { λ _ e. e ≡ refused.Memory };

    fn from(_: Memory) -> Refused {
        Refused::Memory
    }
}

impl From<AllocError> for Refused {
    ghost use Rattle.std.specs.Prelude.{◌≡◌};
    ghost use Rattle.hv_asked.specs.declared.refused.Refused.TheVariants as refused;

    ghost from_gives = { λ _ e. e ≡ refused.Memory };

    fn from(_: AllocError) -> Refused {
        Refused::Memory
    }
}

impl From<Why> for Refused {
    ghost use Rattle.std.specs.Prelude.{◌≡◌};
    ghost use Rattle.hv_asked.specs.declared.refused.Refused.TheVariants as refused;

    ghost from_gives = { λ why e. e ≡ refused.Word why };

    fn from(why: Why) -> Refused {
        Refused::Word(why)
    }
}
