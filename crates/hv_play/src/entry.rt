//! Lines of the output. The text of each is `entry_text` of specs/Texts.antt.

use hv_reply::Reply;
use hv_session::Answer;

/// A line of the output, with the number of the script line that it answers, from 1.
#[derive(Drop)]
pub struct Entry {
    pub line: u64,
    pub what: What,
}

/// What a line of the output says.
#[derive(Drop)]
pub enum What {
    /// A reply to the session with this number, from 0.
    Out(u32, Reply),
    /// The script line has none of the forms that a line may have.
    Bad(BadLine),
}

/// Why a script line is bad.
#[derive(Clone, Copy, Debug, PartialEq, Eq)]
pub enum BadLine {
    /// It is no JSON object.
    Json,
    /// It is an object of no form, and names a session that isn't there.
    Session,
    /// It is another object of no form that a line may have.
    Line,
}

/// What is said of a script line at once.
#[derive(Drop)]
pub(crate) enum LineAnswer {
    /// The line is empty.
    Nothing,
    /// The line is bad.
    Bad(BadLine),
    /// What the session with this number, from 0, says of the text that it heard.
    Said(u32, Answer),
}
