//! Open requests.

use hv_lineage::{Lineage, Shared};
use hv_view::Plan;

/// A request for a view of an object, by the id of the message that opened it.
#[derive(Drop)]
pub struct OpenRequest {
    pub id: u64,
    pub of: Shared<Lineage>,
    pub plan: Plan,
}
