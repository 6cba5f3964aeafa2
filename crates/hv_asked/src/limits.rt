//! The limits of what a message may say.

/// The greatest id of a message, the greatest whole number that every JSON reader keeps.
pub const MAX_ID: u64 = 9_007_199_254_740_991;

/// The most bytes of a message's text.
pub const MAX_MESSAGE_BYTES: usize = 1_048_576;

/// The most bytes of a text that a message gives as a constant.
pub const MAX_CONSTANT_BYTES: usize = 1_024;

/// The most nodes of a predicate or an expression.
pub const MAX_NODES: u64 = 64;

/// The most values of a distinct view.
pub const MAX_DISTINCT: u32 = 500;

/// The most values of heavy hitters, and of frequent values.
pub const MAX_HEAVY: u32 = 1_000;

/// The most values that are counted.
pub const MAX_COUNTED: usize = 1_000;

/// The most keys of a view of next rows.
pub const MAX_NEXT: u32 = 500;

/// The most rows of a sample for quantiles.
pub const MAX_SAMPLE: u32 = 10_000;

/// The most quantiles of a sample.
pub const MAX_QUANTILES: u32 = 100;

/// The greatest seed of a sample.
pub const MAX_SEED: u64 = 18_446_744_073_709_551_615;

/// The greatest threshold at which rows are picked, of 2^32nds.
pub const MAX_THRESHOLD: u64 = 4_294_967_296;

/// The most columns in which a text is searched for.
pub const MAX_FIND_COLUMNS: usize = 64;

/// The most counts of a chart of two axes, and of a chart of each group in all.
pub const MAX_COUNTS: u64 = 65_536;

/// The most groups of rows of which a chart is taken each.
pub const MAX_GROUPS: u64 = 64;

/// The most objects that a session makes.
pub const MAX_OBJECTS: usize = 4_096;

/// The most requests that a session has open at a time.
pub const MAX_OPEN: usize = 64;

/// As many levels as a JSON value that was read can have, and one more.
pub const LEVELS: u32 = 128;
