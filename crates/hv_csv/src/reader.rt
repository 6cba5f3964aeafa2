//! The records of a slice, one at a time, in csv's default dialect, of any lengths and untrimmed.
//! Contracts see a reader by the records that it has left (specs/Left.antt).

ghost use Rattle.std.specs.Prelude.{◌≡◌, true, OnOk, IfOk};
ghost use Rattle.csv.specs.Reading.{error_kind, stops_reader};
ghost use Rattle.csv.specs.Records.{fields_of};
ghost use Rattle.hv_value.specs.Rows.{records_of};
ghost use Rattle.hv_csv.specs.Left.{IsSetUp, IsNext, records_left};

use csv::{ByteRecord, Error, Reader, ReaderBuilder};
use hv_value::{Mem, Memory};
use std::alloc::Global;

/// A reader of all records of `bytes`, the header among them.
pub(crate) fn reader_of(alloc: Global, bytes: &[u8]) -> Reader<&[u8]>
    ensures set_up { IsSetUp result }
    ensures records { records_left result ≡ records_of bytes.now }
{
    ReaderBuilder::new()
        .has_headers(false)
        .flexible(true)
        .from_reader(alloc, bytes)
}

/// An error of the source underneath or of memory, which alone stop a reader. A slice gives none of its own.
fn want_of_memory(error: Error) -> Memory
    requires { stops_reader (error_kind error) ≡ true }
{
    let _ = error;
    Memory
}

/// Reads the next record into `row`, and says whether there was one.
pub(crate) fn read_next(reader: &mut Reader<&[u8]>, row: &mut ByteRecord) -> Mem<bool>
    requires { IsSetUp reader.old }
    ensures next { IfOk result (λ found. IsNext found (records_left reader.old) (fields_of row.new) (records_left reader.new)) }
    ensures set_up { IfOk result (λ found. found ≡ true → IsSetUp reader.new) }
{
    match reader.read_byte_record(row) {
        Ok(found) => Ok(found),
        Err(error) => Err(want_of_memory(error)),
    }
}
