//! Invoices as FILE requests.
ghost use Rattle.std.specs.Prelude.{◌≡◌, ◌∷◌, [], List, length, OnOk, IfOk, IfErr};
ghost use Rattle.claim_book.specs.claim_history.specs.declared.act.Act.{Act};
ghost use Rattle.request_text.specs.Lanes.{IsLane};
ghost use Rattle.csv.specs.Records.{fields_of};
ghost use Rattle.firm_notices.specs.Rows.{StandsAt};
ghost use Rattle.firm_notices.specs.Invoices.{invoice_names, IsInvoiceText, IsFirstBadRow, OnBadRow};
ghost use Rattle.firm_notices.specs.Invoices.{HasCause, import_text, IsFiled, OneReadingLaw, FiledLaw};

use crate::error::{ImportError, RowCause};
use crate::invoice::{has_names, invoice_of};
use crate::rows::{next_row, reader_of};
use claim_book::main_pool_name;
use csv::{ByteRecord, Reader};
use request_text::write_request;
use setoff_model::limits::LINE_BYTES;
use std::alloc::Global;

/// Reads invoices as CSV, and gives the lines of a lane that file them in the pool MAIN, one for each invoice in
/// order.
///
/// The first row has the names `creditor,invoice,debtor,amount,due`, and every other row these fields of an invoice. A
/// byte order mark at the start, quoted fields, and rows that end with a carriage return and a line feed are read as
/// spreadsheets write them. `BadRow` tells the first row that is not as it has to be, and its first cause; the other error is
/// running out of memory. The lane is 1 to 16.
pub fn import(alloc: Global, input: &[u8], lane: u32) -> Result<Vec<u8>, ImportError>
    requires { IsLane lane }
    ensures read { IfOk result (λ text. (filings : List Act) × IsInvoiceText input.now filings × (text.items ≡ import_text lane filings)) }
    ensures bad { IfErr result (OnBadRow (IsFirstBadRow input.now)) }
{
    let mut reader = reader_of(alloc, input);
    let mut fields = ByteRecord::new(alloc);
    lines_of(alloc, input, lane, &mut reader, &mut fields)
}

// The lines that file the invoices of a text, by a reader before its first row.
fn lines_of(
    alloc: Global,
    input: &[u8],
    lane: u32,
    reader: &mut Reader<&[u8]>,
    fields: &mut ByteRecord,
) -> Result<Vec<u8>, ImportError>
    requires lane { IsLane lane }
    requires begins { StandsAt reader.old input.now [] }
    ensures read { IfOk result (λ text. (filings : List Act) × IsInvoiceText input.now filings × (text.items ≡ import_text lane filings)) }
    ensures bad { IfErr result (OnBadRow (IsFirstBadRow input.now)) }
{
    read_names(input, reader, fields)?;
    let mut text = Vec::new(alloc);
    // No row has a number above that of the bytes.
    let _size = size_of(input);
    let mut row = 1;
    'rows: while next_row(reader, fields)? {
        row += 1;
        put_filing(&mut text, lane, row, fields)?;
    }
    Ok(text)
}

fn size_of(bytes: &[u8]) -> u64
    ensures { result ≡ length bytes.now }
{
    bytes.len() as u64
}

/// Invoices have one reading, and no text that has one is refused. A law, which does nothing when it is called.
pub fn invoices_have_one_reading()
    ensures law { OneReadingLaw }
{}

/// What `import` writes is read back as requests of the FILEs that the invoices spell. A law, which does nothing when
/// it is called.
pub fn filed_invoices_are_read_back()
    ensures law { FiledLaw }
{}

// Reads the row of the names.
fn read_names(
    input: &[u8],
    reader: &mut Reader<&[u8]>,
    fields: &mut ByteRecord,
) -> Result<(), ImportError>
    requires { StandsAt reader.old input.now [] }
    ensures read { OnOk result (StandsAt reader.new input.now (invoice_names ∷ [])) }
    ensures bad { IfErr result (OnBadRow (IsFirstBadRow input.now)) }
{
    let _ = input;
    let found = next_row(reader, fields)?;
    if found && has_names(fields) {
        return Ok(());
    }
    let (row, cause) = (1, RowCause::Header);
    Err(ImportError::BadRow { row, cause })
}

// Writes the line of a row's invoice behind the text so far. The row has this number.
fn put_filing(
    text: &mut Vec<u8>,
    lane: u32,
    row: u64,
    fields: &ByteRecord,
) -> Result<(), ImportError>
    requires { IsLane lane }
    ensures put { OnOk result (IsFiled lane (fields_of fields.now) text.old.items text.new.items) }
    ensures bad { IfErr result (OnBadRow (λ number why. (number ≡ row) × HasCause (fields_of fields.now) why)) }
{
    let filing = match invoice_of(fields) {
        Ok(filing) => filing,
        Err(cause) => return Err(ImportError::BadRow { row, cause }),
    };
    text.reserve(LINE_BYTES)?;
    write_request(text, lane, &main_pool_name(), &filing);
    Ok(())
}
