//! The firms of a book.
ghost use Rattle.std.specs.Prelude.{◌≡◌, ◌∷◌, [], ◌++◌, ℕ, List, IfOk, OnOk};
ghost use Rattle.csv.specs.Writing.{row_text, default_writer};
ghost use Rattle.claim_book.specs.Book.{ledger_of};
ghost use Rattle.firm_notices.specs.Tables.{HoldsText};
ghost use Rattle.firm_notices.specs.Positions.{position_fields, positions_text};

use crate::fields::{cents_field, signed_field};
use crate::table::{new_table, put_row, text_of};
use claim_book::{AccountFact, Book, Position};
use csv::Writer;
use std::alloc::{AllocError, Global};

/// The account and the position of each firm of a book as CSV, in order of registration. The only error is that memory
/// is missing.
pub fn positions(alloc: Global, book: &Book) -> Result<Vec<u8>, AllocError>
    ensures { IfOk result (λ text. text.items ≡ positions_text (ledger_of book.now.history)) }
{
    let mut table = new_table(alloc);
    put_row(
        &mut table,
        &[
            b"firm",
            b"balance",
            b"credit",
            b"ceiling",
            b"offer",
            b"receivable",
            b"payable",
        ],
    )?;
    let accounts = book.accounts();
    for account in accounts {
        match book.position(account.firm) {
            Some(position) => put_position(&mut table, alloc, account, &position)?,
            None => unreachable!(),
        }
    }
    text_of(table)
}

// The amounts of an account and a position, as texts.
#[derive(Drop)]
struct Sums {
    balance: Vec<u8>,
    credit: Vec<u8>,
    ceiling: Vec<u8>,
    offer: Vec<u8>,
    receivable: Vec<u8>,
    payable: Vec<u8>,
}

fn put_position(
    table: &mut Writer<Vec<u8>>,
    alloc: Global,
    account: &AccountFact,
    position: &Position,
) -> Result<(), AllocError>
    ensures { OnOk result ((text : List ℕ) → HoldsText table.old text
        → HoldsText table.new (text ++ row_text default_writer (position_fields account.now position.now))) }
{
    let sums = Sums {
        balance: signed_field(alloc, account.balance)?,
        credit: cents_field(alloc, account.credit)?,
        ceiling: cents_field(alloc, account.ceiling)?,
        offer: cents_field(alloc, account.offer)?,
        receivable: cents_field(alloc, position.receivable)?,
        payable: cents_field(alloc, position.payable)?,
    };
    put_sums(table, account, &sums)
}

fn put_sums<'a>(
    table: &mut Writer<Vec<u8>>,
    account: &'a AccountFact,
    sums: &'a Sums,
) -> Result<(), AllocError>
    ensures { OnOk result ((text : List ℕ) → HoldsText table.old text
        → HoldsText table.new (text ++ row_text default_writer (account.now.firm ∷ sums.now.balance.items ∷ sums.now.credit.items
        ∷ sums.now.ceiling.items ∷ sums.now.offer.items ∷ sums.now.receivable.items ∷ sums.now.payable.items ∷ []))) }
{
    put_row(
        table,
        &[
            account.firm.bytes(),
            &sums.balance,
            &sums.credit,
            &sums.ceiling,
            &sums.offer,
            &sums.receivable,
            &sums.payable,
        ],
    )
}
