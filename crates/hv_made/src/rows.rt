//! A table with another set of its rows.

ghost use Rattle.std.specs.Prelude.{◌≡◌};

use hv_member::Member;
use hv_part::PartTable;
use hv_value::Table;

/// The same columns, and the rows of `member` of them.
pub(crate) fn with_member(table: PartTable, member: Member) -> PartTable
    requires { member.size ≡ table.member.size }
    ensures { result ≡ record table { member = member } }
{
    let part = table.part();
    let (schema, cols, _) = table.into_parts();
    PartTable::new(schema, part, cols, member)
}
