//! hill, a spreadsheet server for tables too large to show whole. Today it plays scripts: `hill play`
//! reads one from standard input and writes what it shows to standard output.
#![tactic(auto)]

ghost use Rattle.std.specs.Prelude.{◌≡◌, ◌⊎◌};
ghost use Rattle.std.specs.Io.KnownBytes.{Appends};
ghost use Rattle.hv_outer.specs.Causes.{Rose};

mod help;

use help::{HELP, VERSION, asks_help, asks_version};
use hv_outer::{IoErr, ReadSource, Sink, WriteSink, put_all};
use hv_play::{DONE, NO_MEMORY, READ_FAULT, TOO_LONG, USAGE, WRITE_FAULT, play};
use std::alloc::Global;
use std::process::ExitCode;
use std::rt::Env;
use std::{env, io};

/// The words after the program's name.
fn words_of<R: Env + AllocGlobal>(rt: &R) -> io::Result<Vec<String>> {
    let mut words = Vec::new(rt.alloc());
    for word in env::args(rt)?.skip(1) {
        words.push(word)?;
    }
    Ok(words)
}

/// The status where the words can't be had: want of memory, or a word that is no text.
fn status_without_words(error: &io::Error) -> u8 {
    if error.kind() == io::ErrorKind::OutOfMemory {
        NO_MEMORY
    } else {
        USAGE
    }
}

/// Writes a text of the program's own, and gives the status.
fn say<O: Sink>(out: &mut O, text: &str) -> u8
    ensures done { result ≡ DONE → Appends (O.taken out.old) (O.taken out.new) text.now }
    ensures write_fault { result ≡ WRITE_FAULT → Rose (O.faults out.old) (O.faults out.new) }
    ensures status { (result ≡ DONE) ⊎ (result ≡ WRITE_FAULT) ⊎ (result ≡ NO_MEMORY) }
{
    match put_all(out, text.as_bytes()) {
        Ok(()) => DONE,
        Err(IoErr::Failed) => WRITE_FAULT,
        Err(IoErr::Memory) => NO_MEMORY,
    }
}

/// What standard error says of a status, where it says anything.
fn complaint(status: u8) -> Option<&'static str> {
    match status {
        USAGE => Some("usage"),
        READ_FAULT => Some("read fault"),
        WRITE_FAULT => Some("write fault"),
        NO_MEMORY => Some("no memory"),
        TOO_LONG => Some("script over 64 MiB"),
        _ => None,
    }
}

/// Does what the words ask for, and gives the status.
fn run<I: io::Read, O: io::Write>(alloc: Global, words: &[String], input: I, output: O) -> u8
where
    I: Drop,
    O: Drop,
{
    let mut out = WriteSink::new(output);
    if asks_help(words) {
        return say(&mut out, HELP);
    }
    if asks_version(words) {
        return say(&mut out, VERSION);
    }
    play(alloc, words, &mut ReadSource::new(input), &mut out)
}

fn main(rt: HostRuntime) -> ExitCode {
    let status = match words_of(&rt) {
        Ok(words) => run(rt.alloc(), &words, rt.stdin(), rt.stdout()),
        Err(error) => status_without_words(&error),
    };
    if let Some(text) = complaint(status) {
        let _ = eprintln!(rt; "hill: {text}");
    }
    ExitCode::from(status)
}
