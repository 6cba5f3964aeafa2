//! What is kept while a partition's rows come by (specs/Sampling.antt).

use crate::nearest::Nearest;
use hv_pick::Walker;

/// The least pairs of a partition's rows so far, and the walk over their words.
#[derive(Drop)]
pub struct Sampling {
    pub(crate) walker: Walker,
    pub(crate) nearest: Nearest,
}
