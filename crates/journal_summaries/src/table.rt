//! A CSV text that is written row by row.
ghost use Rattle.std.specs.Prelude.{ℕ, List, [], ◌++◌, ◌≡◌, OnOk, IfOk, map};
ghost use Rattle.csv.specs.Writing.{row_text, default_writer};
ghost use Rattle.printed_text.specs.firm_notices.specs.Tables.{HoldsText};

use csv::{Writer, WriterBuilder};
use std::alloc::{AllocError, Global};

/// A text without rows. It takes no memory.
pub(crate) fn new_table(alloc: Global) -> Writer<Vec<u8>>
    ensures { HoldsText result [] }
{
    WriterBuilder::new().from_writer(Vec::new(alloc))
}

/// Writes a row of these fields behind the text so far. The only error is that memory is missing.
pub(crate) fn put_row(table: &mut Writer<Vec<u8>>, fields: &[&[u8]]) -> Result<(), AllocError>
    ensures { OnOk result ((text : List ℕ) → HoldsText table.old text
        → HoldsText table.new (text ++ row_text default_writer (map (λ f. f.now) fields.now))) }
{
    match table.write_fields(fields) {
        Ok(()) => Ok(()),
        Err(_) => Err(AllocError),
    }
}

/// The bytes of the text. The only error is that memory is missing.
pub(crate) fn text_of(table: Writer<Vec<u8>>) -> Result<Vec<u8>, AllocError>
    ensures { IfOk result (λ bytes. (text : List ℕ) → HoldsText table text → bytes.items ≡ text) }
{
    match table.into_inner() {
        Ok(bytes) => Ok(bytes),
        Err(_) => Err(AllocError),
    }
}
