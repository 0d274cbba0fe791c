//! The rows of a CSV text, read one after another.
ghost use Rattle.std.specs.Prelude.{◌<◌, [], ℕ, List, true, false, IfOk};
ghost use Rattle.csv.specs.Records.{fields_of};
ghost use Rattle.firm_notices.specs.Rows.{StandsAt, MovesOn};

use csv::{ByteRecord, Reader, ReaderBuilder};
use std::alloc::{AllocError, Global};

/// A reader before the first row of a text.
pub(crate) fn reader_of(alloc: Global, bytes: &[u8]) -> Reader<&[u8]>
    ensures { StandsAt result bytes.now [] }
{
    ReaderBuilder::new()
        .has_headers(false)
        .flexible(true)
        .from_reader(alloc, bytes)
}

/// Reads the next row, if there is one. The only error is that memory is missing.
pub(crate) fn next_row(reader: &mut Reader<&[u8]>, row: &mut ByteRecord) -> Result<bool, AllocError>
    ensures { IfOk result (λ found. (bytes : List ℕ) (rows : List (List (List ℕ))) → StandsAt reader.old bytes rows
        → MovesOn reader.old reader.new bytes rows (fields_of row.new) found) }
{
    match reader.read_byte_record(row) {
        Ok(found) => Ok(found),
        Err(_) => Err(AllocError),
    }
}
