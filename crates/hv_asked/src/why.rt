//! Why a text is malformed.

/// The word that says why a text is malformed. Where several checks fail, the first in the order of the checks
/// decides.
#[derive(Clone, Copy, Debug, PartialEq, Eq, Hash)]
pub enum Why {
    /// The text has more than 1,048,576 bytes.
    Size,
    /// The text isn't a JSON object, or nests deeper than is read.
    Json,
    /// `id` is absent or isn't a whole number from 0 to 9007199254740991.
    Id,
    /// The session heard `end` before.
    Ended,
    /// `id` is that of an open request.
    Busy,
    /// `op` is absent or isn't an operation.
    Op,
    /// A field is absent or has another JSON shape, or a word in it is unknown.
    Field,
    /// A number or a length is outside its limit.
    Limit,
    /// An object with this number isn't made in this session.
    Object,
    /// No request with this id is open.
    Request,
    /// The named table isn't in the catalog.
    Table,
    /// The columns make no schema.
    Schema,
    /// A named column isn't in the schema.
    Column,
    /// A column, a constant or an operand has another kind than its place needs.
    Kind,
    /// A predicate or an expression is deeper than 16.
    Deep,
    /// The buckets are none, too many, or out of order.
    Buckets,
    /// The two sides of a combination have unequal bases.
    Base,
    /// A derived column repeats a name.
    Clash,
    /// The two sides of a union have unequal schemas.
    Differs,
    /// The lineage would be deeper than 64 or have more than 128 nodes.
    Depth,
    /// 64 requests are open, or 4,096 objects are made.
    Full,
}
