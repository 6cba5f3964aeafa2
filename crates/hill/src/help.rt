//! The program's own texts: its help and its version.

/// What `hill --help` and `hill play --help` print.
pub const HELP: &str = "\
hill: a spreadsheet server for tables too large to show whole

  hill play        reads a script from standard input and writes what it shows
  hill --help      prints this
  hill --version   prints the version

A script has one JSON object a line, {\"s\":0,\"msg\":MESSAGE}; docs/PROTOCOL.md says
what a message may ask for. Try: ./hill play < examples/range.jsonl

Status: 0 done, 2 usage, 3 read fault, 4 write fault, 5 no memory, 6 script over 64 MiB
";

/// What `hill --version` prints.
pub const VERSION: &str = "hill 0.1.0\n";

/// Whether the words ask for the program's help.
pub fn asks_help(words: &[String]) -> bool {
    let [first, after @ ..] = words else {
        return false;
    };
    match first.as_str() {
        "--help" => after.is_empty(),
        "play" => is_just(after, "--help"),
        _ => false,
    }
}

/// Whether the words ask for the program's version.
pub fn asks_version(words: &[String]) -> bool {
    is_just(words, "--version")
}

/// Whether the words are just this one.
fn is_just(words: &[String], wanted: &str) -> bool {
    let [word, after @ ..] = words else {
        return false;
    };
    after.is_empty() && word.as_str() == wanted
}
