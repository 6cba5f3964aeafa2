//! Where a schema's columns stand among the fields of a header: each at the first field with its name.

ghost use Rattle.std.specs.Prelude.{◌≡◌, IfOk, map, position, bytes_eq};
ghost use Rattle.csv.specs.Records.{fields_of};
ghost use Rattle.hv_csv.specs.Fill.{place_in};

use csv::ByteRecord;
use hv_value::{Mem, Schema};
use std::alloc::Global;

/// The place of the first field with a name.
fn place_of(header: &ByteRecord, name: &[u8]) -> Option<usize>
    ensures { result ≡ position (bytes_eq name.now) (fields_of header.now) }
{
    for i in 0..header.len() {
        if let Some(field) = header.get(i) {
            if name == field {
                return Some(i);
            }
        }
    }
    None
}

/// The places of a schema's columns.
pub(crate) fn places_of(
    alloc: Global,
    schema: &Schema,
    header: &ByteRecord,
) -> Mem<Vec<Option<usize>>>
    ensures { IfOk result (λ places. places.items ≡ map (place_in (fields_of header.now)) schema.now) }
{
    let mut places = Vec::new(alloc);
    for j in 0..schema.len() {
        places.push(place_of(header, schema.name(j).as_bytes()))?;
    }
    Ok(places)
}
