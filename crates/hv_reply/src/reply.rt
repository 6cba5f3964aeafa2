//! Replies. The text of each is `reply_text` (specs/Replies.antt).

use hv_lineage::{Lineage, Shared};
use hv_member::PartSet;
use hv_message::Why;
use hv_view::Shown;

/// What the server says to a client.
#[derive(Drop)]
pub enum Reply {
    /// The message with this id made the object with this number; a sample's seed where one was drawn or given.
    Made {
        id: u64,
        made: u32,
        seed: Option<u64>,
    },
    /// What an object is.
    Info {
        id: u64,
        of: Shared<Lineage>,
    },
    /// A request's last word: its value over all partitions.
    Final {
        id: u64,
        parts: PartSet,
        value: Shown,
    },
    /// A request's last word: it was cancelled.
    Cancelled {
        id: u64,
    },
    /// The cancel with this id was heard.
    Done {
        id: u64,
    },
    /// A text that is no message; the id is none where it can't be told.
    Malformed {
        id: Option<u64>,
        why: Why,
    },
    /// Memory was refused for the message or the request with this id, if it is known.
    NoMem {
        id: Option<u64>,
    },
}
