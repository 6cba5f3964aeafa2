//! What the least key that is found is, as the contract of a call that does nothing.

ghost use Rattle.std.specs.Prelude.{List};
ghost use Rattle.hv_value.specs.Rows.{Row};
ghost use Rattle.hv_find.specs.Find.{find_of};
ghost use Rattle.hv_find.specs.First.{IsLeastKey, matches_above};

use crate::Find;

/// The first key that is found is the key of one of the rows that match and are above, and no such row's key is below
/// it; it is none where there is no such row.
pub fn first_is_least(find: &Find)
    ensures { (rows : List Row)
        → IsLeastKey find.now.order (matches_above find.now rows) (find_of find.now rows).first }
{}
