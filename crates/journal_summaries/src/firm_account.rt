//! The register of a firm.
ghost use Rattle.std.specs.Prelude.{ℕ, ◌≡◌, ◌++◌, ◌∷◌, [], List, OnOk, IfOk, is_some, true};
ghost use Rattle.setoff_model.specs.declared.limits.TheConstants.{LINE_BYTES};
ghost use Rattle.printed_text.specs.claim_history.specs.declared.call.PoolEntry.{PoolEntry};
ghost use Rattle.printed_text.specs.claim_history.specs.Acts.{is_valid};
ghost use Rattle.printed_text.specs.claim_history.specs.Facts.{is_registered};
ghost use Rattle.printed_text.specs.claim_history.specs.Pools.{ledger_in};
ghost use Rattle.printed_text.specs.claim_book.specs.Book.{ledger_of};
ghost use Rattle.printed_text.specs.firm_notices.specs.Tables.{HoldsText};
ghost use Rattle.journal_summaries.specs.Account.{AccountRow, account_rows, account_status, account_text};
ghost use Rattle.journal_summaries.specs.Account.{is_listed, no_firm_text, register_text, row_of, rows_of};
ghost use Rattle.journal_summaries.specs.Replay.{EndsWith, IsCutOf, IsLast, IsRegister};

use crate::flows::flow_of;
use crate::listing::is_listed;
use crate::rows::{put_entry, put_names};
use crate::table::{new_table, text_of};
use claim_history::Entry;
use csv::Writer;
use printed_text::{Book, Books, ExitStatus};
use setoff_model::limits::LINE_BYTES;
use setoff_model::{Cut, Name, put};
use std::alloc::{AllocError, Global};

// Whether a firm is registered in a pool.
fn is_known(books: &Books, pool: &Name, firm: &Name) -> bool
    ensures { result ≡ is_registered (ledger_in books.now.members pool.now) firm.now }
{
    books.book(pool).account(*firm).is_some()
}

// The line that a firm is not registered.
fn no_firm(alloc: Global, firm: &Name) -> Result<Vec<u8>, AllocError>
    ensures { IfOk result (λ text. text.items ≡ no_firm_text firm.now) }
{
    let mut text = Vec::with_capacity(alloc, LINE_BYTES)?;
    put(&mut text, b"no firm ");
    put(&mut text, firm.bytes());
    put(&mut text, b"\n");
    Ok(text)
}

// Writes the row of an entry that the register has, by the book after it.
fn put_listed(
    alloc: Global,
    table: &mut Writer<Vec<u8>>,
    book: &Book,
    firm: &Name,
    number: u64,
    entry: &Entry,
    cut: &Option<Cut>,
) -> Result<(), AllocError>
    requires valid { is_valid entry.now.act ≡ true }
    requires known { is_registered (ledger_of book.now.history) firm.now ≡ true }
    requires cut { IsCutOf cut.now entry.now }
    ensures { OnOk result ((rows : List AccountRow) → HoldsText table.old (register_text rows)
        → HoldsText table.new (register_text (rows ++ row_of firm.now number cut.now (ledger_of book.now.history) entry.now ∷ []))) }
{
    match book.position(*firm) {
        None => unreachable!(),
        Some(position) => {
            let flow = flow_of(firm, entry, cut);
            put_entry(table, alloc, number, entry, flow, &position)
        }
    }
}

// Writes the row of the last entry of a book, if the register has it.
fn put_own(
    alloc: Global,
    table: &mut Writer<Vec<u8>>,
    book: &Book,
    firm: &Name,
    number: u64,
    entry: &Entry,
    cut: &Option<Cut>,
) -> Result<(), AllocError>
    requires valid { is_valid entry.now.act ≡ true }
    requires last { IsLast book.now.history entry.now cut.now }
    ensures { OnOk result ((rows : List AccountRow) → HoldsText table.old (register_text rows)
        → HoldsText table.new (register_text (rows ++ rows_of firm.now number cut.now (ledger_of book.now.history) entry.now))) }
{
    if is_listed(book, firm, entry, cut) {
        put_listed(alloc, table, book, firm, number, entry, cut)?;
    }
    Ok(())
}

// Writes the row of the last member of the books, if the register has it.
fn put_member(
    alloc: Global,
    table: &mut Writer<Vec<u8>>,
    books: &Books,
    pool: &Name,
    firm: &Name,
    cut: &Option<Cut>,
) -> Result<(), AllocError>
    requires { EndsWith books.now.members cut.now }
    ensures { OnOk result ((before : List PoolEntry) (last : PoolEntry) → books.now.members ≡ before ++ last ∷ []
        → HoldsText table.old (register_text (account_rows pool.now firm.now before))
        → HoldsText table.new (register_text (account_rows pool.now firm.now books.now.members))) }
{
    let len = books.len();
    let (named, entry) = books.member(len - 1);
    if *pool == named {
        put_own(alloc, table, books.book(pool), firm, len, entry, cut)?;
    }
    Ok(())
}

/// The register of a firm of a pool, which is written as a history goes on: it has the rows of the members so far.
#[derive(Drop)]
pub struct Register {
    pool: Name,
    firm: Name,
    table: Writer<Vec<u8>>,
}

impl Register {
    /// A register of no members. The only error is that memory is missing.
    pub fn new(alloc: Global, pool: Name, firm: Name) -> Result<Register, AllocError>
        ensures { IfOk result (IsRegister pool firm []) }
    {
        let mut table = new_table(alloc);
        put_names(&mut table)?;
        Ok(Register { pool, firm, table })
    }

    /// Writes the row of the last member of the books behind those of the members before it, where the register has it. That member is
    /// accepted, and the cut of the round that it publishes, if it does, is given. The only error is that memory is missing.
    pub fn put_last(
        &mut self,
        alloc: Global,
        books: &Books,
        cut: &Option<Cut>,
    ) -> Result<(), AllocError>
        requires { EndsWith books.now.members cut.now }
        ensures { OnOk result ((pool firm : List ℕ) (before : List PoolEntry) (last : PoolEntry) → books.now.members ≡ before ++ last ∷ []
            → IsRegister pool firm before self.old → IsRegister pool firm books.now.members self.new) }
    {
        put_member(alloc, &mut self.table, books, &self.pool, &self.firm, cut)
    }

    /// The register as CSV, or the line that the firm is not registered in the pool; the books have the members whose rows it has. It has
    /// a row for each accepted entry that names the firm or a claim of it, and for each publication of a round of which it is a party, in
    /// order. Amounts are cents. The only error is that memory is missing.
    pub fn into_text(self, alloc: Global, books: &Books) -> Result<Vec<u8>, AllocError>
        ensures { IfOk result (λ text. (pool firm : List ℕ) → IsRegister pool firm books.now.members self
            → text.items ≡ account_text pool firm books.now.members) }
    {
        let Register { pool, firm, table } = self;
        if is_known(books, &pool, &firm) {
            text_of(table)
        } else {
            drop(table);
            no_firm(alloc, &firm)
        }
    }
}

/// The status of the text of a register: `No` where the firm is not registered in the pool, else `Done`. It takes no memory.
pub fn account_status(books: &Books, pool: &Name, firm: &Name) -> ExitStatus
    ensures { result ≡ account_status pool.now firm.now books.now.members }
{
    if is_known(books, pool, firm) {
        ExitStatus::Done
    } else {
        ExitStatus::No
    }
}
