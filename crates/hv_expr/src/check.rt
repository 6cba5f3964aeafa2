//! What is wrong with one node of a tree (specs/Checks.antt).

ghost use Rattle.std.specs.Prelude.{◌≡◌, slice_get};
ghost use Rattle.hv_expr.specs.Checks.{is_same_kind, kind_of_column, own_faults, unlike};

use crate::ExprErr;
use hv_value::{Kind, Schema};

/// The kind of the column with a name, none where there is no such column.
pub(crate) fn kind_of_column(schema: &Schema, name: &str) -> Option<Kind>
    ensures { result ≡ kind_of_column schema.now name.now }
{
    let place = schema.find(name)?;
    Some(schema.kind(place))
}

/// What is wrong with a node of a kind, none where its column isn't there, at a place that wants a kind.
pub(crate) fn unlike(wanted: Kind, own: Option<Kind>) -> Option<ExprErr>
    ensures { result ≡ slice_get (unlike wanted own) 0 }
{
    match own {
        None => Some(ExprErr::NoColumn),
        Some(kind) => {
            if is_same_kind(kind, wanted) {
                None
            } else {
                Some(ExprErr::WrongKind)
            }
        }
    }
}

fn is_same_kind(a: Kind, b: Kind) -> bool
    ensures { result ≡ is_same_kind b a }
{
    match (a, b) {
        (Kind::Int, Kind::Int) => true,
        (Kind::Date, Kind::Date) => true,
        (Kind::Text, Kind::Text) => true,
        _ => false,
    }
}

/// The same at a place that may want none.
pub(crate) fn own_fault(wanted: Option<Kind>, own: Option<Kind>) -> Option<ExprErr>
    ensures { result ≡ slice_get (own_faults wanted own) 0 }
{
    match wanted {
        Some(wanted) => unlike(wanted, own),
        None => match own {
            None => Some(ExprErr::NoColumn),
            Some(_) => None,
        },
    }
}
