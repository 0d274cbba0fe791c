//! The open claims of a book.
ghost use Rattle.std.specs.Prelude.{◌≡◌, ◌∷◌, [], ◌++◌, ℕ, List, IfOk, OnOk};
ghost use Rattle.csv.specs.Writing.{row_text, default_writer};
ghost use Rattle.claim_book.specs.Book.{ledger_of};
ghost use Rattle.firm_notices.specs.Tables.{HoldsText};
ghost use Rattle.firm_notices.specs.Notices.{is_open, notice_fields, notices_text};

use crate::fields::{cents_field, day_field, overdue_field, status_field};
use crate::table::{new_table, put_row, text_of};
use claim_book::{Book, ClaimFact, Day, Status};
use csv::Writer;
use std::alloc::{AllocError, Global};

/// The open claims of a book as CSV, in order of filing, each with how many days it is overdue on `today`.
///
/// A claim is open where it is not withdrawn and its open amount is above 0. The only error is that memory is missing.
pub fn notices(alloc: Global, book: &Book, today: Day) -> Result<Vec<u8>, AllocError>
    ensures { IfOk result (λ text. text.items ≡ notices_text today (ledger_of book.now.history)) }
{
    let mut table = new_table(alloc);
    put_row(
        &mut table,
        &[
            b"debtor",
            b"creditor",
            b"invoice",
            b"status",
            b"amount",
            b"open",
            b"part",
            b"due",
            b"overdue",
        ],
    )?;
    let claims = book.claims();
    for claim in claims {
        if is_open(claim) {
            put_notice(&mut table, alloc, claim, today)?;
        }
    }
    text_of(table)
}

fn is_open(claim: &ClaimFact) -> bool
    ensures { result ≡ is_open claim.now }
{
    claim.status != Status::Withdrawn && claim.left > 0
}

// The amounts and days of a claim, as texts.
#[derive(Drop)]
struct Figures {
    amount: Vec<u8>,
    open: Vec<u8>,
    part: Vec<u8>,
    due: Vec<u8>,
    overdue: Vec<u8>,
}

fn put_notice(
    table: &mut Writer<Vec<u8>>,
    alloc: Global,
    claim: &ClaimFact,
    today: Day,
) -> Result<(), AllocError>
    ensures { OnOk result ((text : List ℕ) → HoldsText table.old text
        → HoldsText table.new (text ++ row_text default_writer (notice_fields today claim.now))) }
{
    let figures = Figures {
        amount: cents_field(alloc, claim.amount)?,
        open: cents_field(alloc, claim.left)?,
        part: cents_field(alloc, claim.part)?,
        due: day_field(alloc, claim.due)?,
        overdue: overdue_field(alloc, claim.due, today)?,
    };
    put_claim(table, claim, status_field(claim.status), &figures)
}

fn put_claim<'a>(
    table: &mut Writer<Vec<u8>>,
    claim: &'a ClaimFact,
    status: &'a [u8],
    figures: &'a Figures,
) -> Result<(), AllocError>
    ensures { OnOk result ((text : List ℕ) → HoldsText table.old text
        → HoldsText table.new (text ++ row_text default_writer (claim.now.debtor ∷ claim.now.key.creditor ∷ claim.now.key.invoice
        ∷ status.now ∷ figures.now.amount.items ∷ figures.now.open.items ∷ figures.now.part.items ∷ figures.now.due.items
        ∷ figures.now.overdue.items ∷ []))) }
{
    put_row(
        table,
        &[
            claim.debtor.bytes(),
            claim.key.creditor.bytes(),
            claim.key.invoice.bytes(),
            status,
            &figures.amount,
            &figures.open,
            &figures.part,
            &figures.due,
            &figures.overdue,
        ],
    )
}
