//! The outside as traits: where bytes come from and where they go, each with a count of faults; what stands in for
//! them in memory; std's readers and writers as such; and the two loops that everything above uses.
#![tactic(auto)]

mod io_err;
mod mem_sink;
mod mem_source;
mod read_source;
mod sink;
mod source;
#[cfg(test)]
mod tests;
mod turns;
mod write_sink;

pub use io_err::IoErr;
pub use mem_sink::MemSink;
pub use mem_source::MemSource;
pub use read_source::ReadSource;
pub use sink::Sink;
pub use source::Source;
pub use turns::{ReadAllErr, put_all, read_all};
pub use write_sink::WriteSink;
