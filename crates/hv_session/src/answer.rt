//! What a session says at once.

use hv_reply::Reply;

/// At most two replies, in the order in which they are said. It takes no memory of its own, so that want of memory
/// can be told.
#[derive(Drop)]
pub enum Answer {
    Nothing,
    One(Reply),
    Two(Reply, Reply),
}
