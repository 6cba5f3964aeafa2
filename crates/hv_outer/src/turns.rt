//! The two loops over the outside: putting all of some bytes, and reading to the end below a limit.
ghost use Rattle.std.specs.Prelude.{◌≡◌, ◌^◌, ◌<◌, ◌≤◌, length, IfOk, OnOk, OnErr, IsErrOf};
ghost use Rattle.std.specs.Io.KnownBytes.{Appends, Consumes, IsAtEnd};
ghost use Rattle.hv_outer.specs.Causes.{HasCause, Rose};
ghost use Rattle.hv_outer.specs.Turns.{AppendsFront, ReadsPast, ReadsSome, ReadsWithin};

use crate::{IoErr, Sink, Source};
use std::alloc::{AllocError, Global};
use std::error::Error;
use std::fmt;

/// Why a whole read failed.
#[derive(Clone, Copy, Debug, PartialEq, Eq)]
pub enum ReadAllErr {
    /// The source failed, and its count of faults rose.
    Failed,
    /// There are more bytes than the limit.
    TooLong,
    /// Want of memory.
    Memory,
}

impl fmt::Display for ReadAllErr {
    ghost use Rattle.std.specs.Prelude.{Some};
    ghost use Rattle.hv_outer.specs.Texts.{read_all_err_text};

    ghost output = { λ e. Some (read_all_err_text e) };

    fn fmt<W: fmt::Write>(&self, f: &mut fmt::Formatter<W>) -> fmt::Result {
        match *self {
            ReadAllErr::Failed => f.write_str("the source failed"),
            ReadAllErr::TooLong => f.write_str("more bytes than the limit"),
            ReadAllErr::Memory => f.write_str("out of memory"),
        }
    }
}

impl Error for ReadAllErr {}

impl From<AllocError> for ReadAllErr {
    ghost use Rattle.hv_outer.specs.declared.turns.ReadAllErr.TheVariants.{Memory};

    ghost from_gives = { λ _ e. e ≡ Memory };

    fn from(_: AllocError) -> Self {
        ReadAllErr::Memory
    }
}

impl From<IoErr> for ReadAllErr {
    ghost use Rattle.hv_outer.specs.Turns.{read_all_err};

    ghost from_gives = { λ e r. r ≡ read_all_err e };

    fn from(error: IoErr) -> Self {
        match error {
            IoErr::Failed => ReadAllErr::Failed,
            IoErr::Memory => ReadAllErr::Memory,
        }
    }
}

/// Puts all of some bytes into a sink. After an error some front of them was taken.
pub fn put_all<O: Sink>(out: &mut O, bytes: &[u8]) -> Result<(), IoErr>
    ensures ok { OnOk result (Appends (O.taken out.old) (O.taken out.new) bytes.now) }
    ensures err { OnErr result (AppendsFront (O.taken out.old) (O.taken out.new) bytes.now) }
    ensures cause { HasCause (O.faults out.old) (O.faults out.new) result }
{
    let mut rest = bytes;
    while !rest.is_empty() {
        let count = out.put(rest)?;
        rest = &rest[count..];
    }
    Ok(())
}

// How many bytes are asked for in one turn.
const TURN: usize = 65536;

/// Reads a source to its end, or until more than `limit` bytes were read (below 2^40). It takes at most `limit` and
/// one turns of up to 64 KiB each. After an error what was read is lost.
pub fn read_all<I: Source>(
    alloc: Global,
    source: &mut I,
    limit: usize,
) -> Result<Vec<u8>, ReadAllErr>
    requires { limit < 2 ^ 40 }

    // All that was left, which is no longer than the limit.
    ensures ok { IfOk result (λ v. Consumes (I.left source.old) (I.left source.new) v.items) }
    ensures ended { OnOk result (IsAtEnd (I.left source.new)) }
    ensures short { IfOk result (λ v. length v.items ≤ limit) }

    // Each error only with its cause, and what it leaves.
    ensures long { IsErrOf result ReadAllErr.TooLong →
        ReadsPast (I.left source.old) (I.left source.new) limit }
    ensures failed { IsErrOf result ReadAllErr.Failed →
        Rose (I.faults source.old) (I.faults source.new) }
    ensures within { IsErrOf result ReadAllErr.Failed →
        ReadsWithin (I.left source.old) (I.left source.new) limit }
    ensures later { I.faults source.old ≤ I.faults source.new }
    ensures err { OnErr result (ReadsSome (I.left source.old) (I.left source.new)) }
{
    let mut turn = [0u8; TURN];
    let mut bytes = Vec::new(alloc);
    while bytes.len() <= limit {
        let count = source.take(&mut turn)?;
        if count == 0 {
            return Ok(bytes);
        }
        bytes.extend_from_slice(&turn[..count])?;
    }
    Err(ReadAllErr::TooLong)
}
