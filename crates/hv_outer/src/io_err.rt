//! Why a call of the outside failed. When it may say so is in `specs/Causes.antt`.

ghost use Rattle.std.specs.Prelude.{◌≡◌, ◌↔◌, ◌≤◌};
ghost use Rattle.std.specs.IoError.{error_kind};
ghost use Rattle.hv_outer.specs.Causes.{Rose, count_after};

use std::alloc::AllocError;
use std::error::Error;
use std::fmt;
use std::io::{self, ErrorKind};

/// Why a call of the outside failed.
#[derive(Clone, Copy, Debug, PartialEq, Eq)]
pub enum IoErr {
    /// The outside failed, and its count of faults rose.
    Failed,
    /// Want of memory.
    Memory,
}

impl fmt::Display for IoErr {
    ghost use Rattle.std.specs.Prelude.{Some};
    ghost use Rattle.hv_outer.specs.Texts.{io_err_text};

    ghost output = { λ e. Some (io_err_text e) };

    fn fmt<W: fmt::Write>(&self, f: &mut fmt::Formatter<W>) -> fmt::Result {
        match *self {
            IoErr::Failed => f.write_str("the outside failed"),
            IoErr::Memory => f.write_str("out of memory"),
        }
    }
}

impl Error for IoErr {}

impl From<AllocError> for IoErr {
    ghost use Rattle.std.specs.Prelude.{◌≡◌};
    ghost use Rattle.hv_outer.specs.declared.io_err.IoErr.TheVariants.{Memory};

    ghost from_gives = { λ _ e. e ≡ Memory };

    fn from(_: AllocError) -> Self {
        IoErr::Memory
    }
}

// What a call that ended in this error of std answers. Each but want of memory is a fault, and counted.
pub(crate) fn count_error(error: &io::Error, faults: &mut u64) -> IoErr
    ensures memory { (result ≡ IoErr.Memory) ↔ (error_kind error.now ≡ ErrorKind.OutOfMemory) }
    ensures count { faults.new ≡ count_after faults.old result }
    ensures later { faults.old ≤ faults.new }
    ensures rose { result ≡ IoErr.Failed → Rose faults.old faults.new }
{
    if error.kind() == ErrorKind::OutOfMemory {
        return IoErr::Memory;
    }
    *faults = faults.saturating_add(1);
    IoErr::Failed
}
