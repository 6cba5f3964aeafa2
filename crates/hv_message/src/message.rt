//! Messages and why a text is none.

use hv_asked::Why;
use hv_lineage::Lineage;
use hv_view::Plan;
use std::sync::Arc;

/// What a message asks for, its checks being passed.
#[derive(Drop)]
pub enum Message {
    /// The session's next object.
    Make {
        id: u64,
        made: Arc<Lineage>,
    },
    /// The rows of an object that are picked at a threshold, of 2^32nds: the session's next object. Without a seed the
    /// session draws one. There is room for one node more over the object.
    Sample {
        id: u64,
        of: Arc<Lineage>,
        threshold: u64,
        seed: Option<u64>,
    },
    /// What an object is.
    Info {
        id: u64,
        of: Arc<Lineage>,
    },
    /// A view of an object, which opens a request.
    View {
        id: u64,
        of: Arc<Lineage>,
        plan: Plan,
    },
    /// The end of an open request.
    Cancel {
        id: u64,
        request: u64,
    },
    /// That the session hears nothing more.
    End {
        id: u64,
    },
}

/// Why a text gave no message, with its id where that is known.
#[derive(Clone, Copy, Debug, PartialEq, Eq)]
pub enum Refusal {
    Malformed(Why, Option<u64>),
    Memory(Option<u64>),
}
