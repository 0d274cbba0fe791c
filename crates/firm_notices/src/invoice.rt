//! The FILE of a row's fields.
ghost use Rattle.std.specs.Prelude.{◌≡◌, ◌∷◌, [], true, false, IsTrue, ◌↔◌, get_or, IfOk, IfErr};
ghost use Rattle.csv.specs.Records.{fields_of};
ghost use Rattle.firm_notices.specs.Invoices.{IsInvoice, HasCause, invoice_names};

use crate::error::RowCause;
use claim_book::{Act, Day};
use csv::ByteRecord;
use setoff_model::{Key, Name, read_claim_amount};

/// The FILE that a row stands for, or the first cause why it stands for none.
pub(crate) fn invoice_of(row: &ByteRecord) -> Result<Act, RowCause>
    ensures found { IfOk result (IsInvoice (fields_of row.now)) }
    ensures bad { IfErr result (HasCause (fields_of row.now)) }
{
    if row.len() != 5 {
        return Err(RowCause::Fields);
    }
    filing(
        field(row, 0),
        field(row, 1),
        field(row, 2),
        field(row, 3),
        field(row, 4),
    )
}

/// Whether a row has the names of the fields.
pub(crate) fn has_names(row: &ByteRecord) -> bool
    ensures yes { result ≡ true → fields_of row.now ≡ invoice_names }
    ensures no { result ≡ false → fields_of row.now ≡ invoice_names → ⊥ }
{
    row.len() == 5
        && is_text(field(row, 0), b"creditor")
        && is_text(field(row, 1), b"invoice")
        && is_text(field(row, 2), b"debtor")
        && is_text(field(row, 3), b"amount")
        && is_text(field(row, 4), b"due")
}

fn is_text(a: &[u8], b: &[u8]) -> bool
    ensures { IsTrue result ↔ (a.now ≡ b.now) }
{
    a == b
}

// The field at a place, from 0; nothing where there is none.
fn field(row: &ByteRecord, place: usize) -> &[u8]
    ensures { result.now ≡ get_or (fields_of row.now) place [] }
{
    match row.get(place) {
        Some(field) => field,
        None => &[],
    }
}

fn filing(
    creditor: &[u8],
    invoice: &[u8],
    debtor: &[u8],
    amount: &[u8],
    due: &[u8],
) -> Result<Act, RowCause>
    ensures found { IfOk result (IsInvoice (creditor.now ∷ invoice.now ∷ debtor.now ∷ amount.now ∷ due.now ∷ [])) }
    ensures bad { IfErr result (HasCause (creditor.now ∷ invoice.now ∷ debtor.now ∷ amount.now ∷ due.now ∷ [])) }
{
    let Some(creditor) = Name::of(creditor) else {
        return Err(RowCause::Field(1));
    };
    let Some(invoice) = Name::of(invoice) else {
        return Err(RowCause::Field(2));
    };
    let Some(debtor) = Name::of(debtor) else {
        return Err(RowCause::Field(3));
    };
    let Some(amount) = read_claim_amount(amount) else {
        return Err(RowCause::Field(4));
    };
    let Some(due) = Day::read(due) else {
        return Err(RowCause::Field(5));
    };
    let key = Key { creditor, invoice };
    Ok(Act::File {
        key,
        debtor,
        amount,
        due,
    })
}
