//! The rows of a register.
ghost use Rattle.std.specs.Prelude.{◌≡◌, ◌<◌, ◌+◌, ◌++◌, ◌∷◌, [], ℕ, List, OnOk, IfOk, true, decimal};
ghost use Rattle.setoff_model.specs.Texts.{cents_text, signed_cents_text};
ghost use Rattle.csv.specs.Writing.{row_text, default_writer};
ghost use Rattle.printed_text.specs.claim_history.specs.Acts.{is_valid};
ghost use Rattle.printed_text.specs.firm_notices.specs.Tables.{HoldsText};
ghost use Rattle.journal_summaries.specs.Account.{account_names, asked_text, row_fields};

use crate::flows::Flow;
use crate::table::put_row;
use claim_history::{Entry, Position, write_act};
use csv::Writer;
use setoff_model::limits::LINE_BYTES;
use setoff_model::{put, write_cents, write_signed, write_whole};
use std::alloc::{AllocError, Global};

// The bytes that a number of any kind may take.
const ROOM: usize = 60;

fn cents_field(alloc: Global, cents: u64) -> Result<Vec<u8>, AllocError>
    ensures { IfOk result (λ text. text.items ≡ cents_text cents) }
{
    let mut text = Vec::with_capacity(alloc, ROOM)?;
    write_cents(&mut text, u128::from(cents));
    Ok(text)
}

fn signed_field(alloc: Global, cents: i64) -> Result<Vec<u8>, AllocError>
    ensures { IfOk result (λ text. text.items ≡ signed_cents_text cents) }
{
    let mut text = Vec::with_capacity(alloc, ROOM)?;
    write_signed(&mut text, cents);
    Ok(text)
}

pub(crate) fn number_field(alloc: Global, number: u64) -> Result<Vec<u8>, AllocError>
    ensures { IfOk result (λ text. text.items ≡ decimal number) }
{
    let mut text = Vec::with_capacity(alloc, ROOM)?;
    write_whole(&mut text, number);
    Ok(text)
}

// The caller and what it asked.
fn entry_field(alloc: Global, entry: &Entry) -> Result<Vec<u8>, AllocError>
    requires { is_valid entry.now.act ≡ true }
    ensures { IfOk result (λ text. text.items ≡ asked_text entry.now) }
{
    let mut text = Vec::with_capacity(alloc, LINE_BYTES)?;
    write_whole(&mut text, u64::from(entry.caller));
    put(&mut text, b" ");
    write_act(&mut text, &entry.act);
    Ok(text)
}

/// Writes the row of the names of the fields.
pub(crate) fn put_names(table: &mut Writer<Vec<u8>>) -> Result<(), AllocError>
    ensures { OnOk result ((text : List ℕ) → HoldsText table.old text
        → HoldsText table.new (text ++ row_text default_writer account_names)) }
{
    put_row(
        table,
        &[
            b"act",
            b"entry",
            b"in",
            b"out",
            b"balance",
            b"receivable",
            b"payable",
        ],
    )
}

// The fields of a row, as texts.
#[derive(Drop)]
struct Fields {
    number: Vec<u8>,
    entry: Vec<u8>,
    added: Vec<u8>,
    taken: Vec<u8>,
    balance: Vec<u8>,
    receivable: Vec<u8>,
    payable: Vec<u8>,
}

fn put_fields<'a>(table: &mut Writer<Vec<u8>>, fields: &'a Fields) -> Result<(), AllocError>
    ensures { OnOk result ((text : List ℕ) → HoldsText table.old text
        → HoldsText table.new (text ++ row_text default_writer (fields.now.number.items ∷ fields.now.entry.items ∷ fields.now.added.items
        ∷ fields.now.taken.items ∷ fields.now.balance.items ∷ fields.now.receivable.items ∷ fields.now.payable.items ∷ []))) }
{
    put_row(
        table,
        &[
            &fields.number,
            &fields.entry,
            &fields.added,
            &fields.taken,
            &fields.balance,
            &fields.receivable,
            &fields.payable,
        ],
    )
}

/// Writes the row of an entry: its number, what it adds and takes, and the position after it.
pub(crate) fn put_entry(
    table: &mut Writer<Vec<u8>>,
    alloc: Global,
    number: u64,
    entry: &Entry,
    flow: Flow,
    position: &Position,
) -> Result<(), AllocError>
    requires { is_valid entry.now.act ≡ true }
    ensures { OnOk result ((text : List ℕ) → HoldsText table.old text
        → HoldsText table.new (text ++ row_text default_writer (row_fields (record {
          number = number;
          entry = entry.now;
          added = flow.added;
          taken = flow.taken;
          position = position.now;
        })))) }
{
    let fields = Fields {
        number: number_field(alloc, number)?,
        entry: entry_field(alloc, entry)?,
        added: cents_field(alloc, flow.added)?,
        taken: cents_field(alloc, flow.taken)?,
        balance: signed_field(alloc, position.balance)?,
        receivable: cents_field(alloc, position.receivable)?,
        payable: cents_field(alloc, position.payable)?,
    };
    put_fields(table, &fields)
}
