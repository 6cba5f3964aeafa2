//! Why no buckets are made, and the most of them.

ghost use Rattle.std.specs.Prelude.{Some};
ghost use Rattle.hv_bucket.specs.Buckets.{bucket_err_text};

use std::error::Error;
use std::fmt;

/// The most buckets of an axis.
pub const MAX_BUCKETS: u32 = 1024;

/// Why there are no such buckets.
#[derive(Clone, Copy, Debug, PartialEq, Eq)]
pub enum BucketErr {
    /// No bucket or more than 1,024, a least number above the greatest, or left boundaries that don't strictly rise.
    BadBuckets,
    Memory,
}

impl fmt::Display for BucketErr {
    ghost output = { λ err. Some (bucket_err_text err) };

    fn fmt<W: fmt::Write>(&self, f: &mut fmt::Formatter<W>) -> fmt::Result {
        f.write_str(match self {
            BucketErr::BadBuckets => "there are no such buckets",
            BucketErr::Memory => "out of memory",
        })
    }
}

impl Error for BucketErr {}
