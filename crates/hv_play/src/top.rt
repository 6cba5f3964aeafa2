//! The top call: the words, the reading of the script, and the status.

ghost use Rattle.std.specs.Prelude.{◌≡◌, ◌⊎◌, ◌↔◌, false};
ghost use Rattle.std.specs.Io.KnownBytes.{Keeps};
ghost use Rattle.hv_outer.specs.Causes.{Rose};
ghost use Rattle.hv_outer.specs.Turns.{ReadsPast, ReadsWithin};
ghost use Rattle.hv_play.specs.Outcome.{is_play, status_after, Traced};
ghost use Rattle.hv_play.specs.Run.{Setting, Suits, whole, early};

use crate::run::run;
use hv_outer::{IoErr, ReadAllErr, Sink, Source, read_all};
use std::alloc::Global;

/// The script was read to its end and every request is answered.
pub const DONE: u8 = 0;

/// The words aren't those of the command.
pub const USAGE: u8 = 2;

/// The script can't be read.
pub const READ_FAULT: u8 = 3;

/// The output can't be written.
pub const WRITE_FAULT: u8 = 4;

/// Memory was refused outside every request.
pub const NO_MEMORY: u8 = 5;

/// The script has more bytes than a script may have.
pub const TOO_LONG: u8 = 6;

/// The most bytes of a script: 64 MiB.
pub const MAX_SCRIPT_BYTES: usize = 1 << 26;

fn are_play(words: &[String]) -> bool
    ensures { result ≡ is_play words.now }
{
    let [word, more @ ..] = words else {
        return false;
    };
    more.is_empty() && word.as_str() == "play"
}

fn status_of(done: Result<(), IoErr>) -> u8
    ensures { result ≡ status_after done }
{
    match done {
        Ok(()) => DONE,
        Err(IoErr::Failed) => WRITE_FAULT,
        Err(IoErr::Memory) => NO_MEMORY,
    }
}

/// Plays a script: reads it to its end, does its lines in order, answers the open requests, and gives
/// the status. `words` are those after the program's name.
pub fn play<I: Source, O: Sink>(alloc: Global, words: &[String], script: &mut I, out: &mut O) -> u8
    // The headline: what was written is right for what was read, in every setting of 16 sessions
    // over no tables.
    ensures done { result ≡ 0 → (g : Setting) → Suits g 16
        → Traced g whole (I.left script.old) (I.left script.new)
        (O.taken out.old) (O.taken out.new) }

    // Each other status has its cause, and writes nothing or a right beginning.
    ensures usage { (result ≡ 2) ↔ (is_play words.now ≡ false) }
    ensures read_fault { result ≡ 3 → Rose (I.faults script.old) (I.faults script.new) }
    ensures write_fault { result ≡ 4 → Rose (O.faults out.old) (O.faults out.new) }
    ensures cut { result ≡ 4 → (g : Setting) → Suits g 16
        → Traced g early (I.left script.old) (I.left script.new)
        (O.taken out.old) (O.taken out.new) }
    ensures memory { result ≡ 5 → Keeps (O.taken out.old) (O.taken out.new)
        ⊎ ((g : Setting) → Suits g 16
        → Traced g early (I.left script.old) (I.left script.new)
        (O.taken out.old) (O.taken out.new)) }
    ensures long { result ≡ 6 → ReadsPast (I.left script.old) (I.left script.new) 67108864 }
    ensures within { result ≡ 3 → ReadsWithin (I.left script.old) (I.left script.new) 67108864 }
    ensures unread { result ≡ 2 → script.new ≡ script.old }
    ensures silent { (result ≡ 2) ⊎ (result ≡ 3) ⊎ (result ≡ 6)
        → Keeps (O.taken out.old) (O.taken out.new) }
    ensures status { (result ≡ 0) ⊎ (result ≡ 2) ⊎ (result ≡ 3)
        ⊎ (result ≡ 4) ⊎ (result ≡ 5) ⊎ (result ≡ 6) }
{
    if !are_play(words) {
        return USAGE;
    }
    match read_all(alloc, script, MAX_SCRIPT_BYTES) {
        Ok(bytes) => status_of(run(alloc, bytes.as_slice(), out)),
        Err(ReadAllErr::Failed) => READ_FAULT,
        Err(ReadAllErr::Memory) => NO_MEMORY,
        Err(ReadAllErr::TooLong) => TOO_LONG,
    }
}
