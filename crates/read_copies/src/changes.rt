//! Which rows of a table have changed.
ghost use Rattle.std.specs.Prelude.{◌≡◌, ◌≤◌, length, drop, IfOk, OnOk};
ghost use Rattle.std.specs.List.{list_any};
ghost use mathlib.Core.List.{IsPrefix};
ghost use Rattle.setoff_model.specs.Same.{same_name};
ghost use Rattle.claim_history.specs.Touched.{is_of_firm, is_side_of, touches};
ghost use Rattle.claim_book.specs.Book.{ledger_of};
ghost use Rattle.read_copies.specs.Tables.{IsShown};
ghost use Rattle.read_copies.specs.Rows.{row_in, put_all, HasRows, AreSettled, AreAllSettled};

use crate::row::Row;
use crate::table::Table;
use claim_book::Book;
use claim_history::{Act, Entry, Reply, untouched_firms_stay};
use setoff_model::{Key, Name};
use std::alloc::{AllocError, Global};

// The row of a firm in a book; None where it is not registered.
fn row_of(book: &Book, firm: Name) -> Option<Row>
    ensures { result ≡ row_in (ledger_of book.now.history) firm }
{
    match (book.account(firm), book.position(firm)) {
        (Some(account), Some(position)) => Some(Row { account, position }),
        _ => None,
    }
}

// Puts the row of a firm at the end of the changes, unless the table has it.
fn add_change(
    changes: &mut Vec<Row>,
    table: &Table,
    book: &Book,
    firm: Name,
) -> Result<(), AllocError>
    ensures { OnOk result (AreSettled (ledger_of book.now.history) table.now.rows (λ other. same_name other firm)
        changes.old.items changes.new.items) }
{
    let now = row_of(book, firm);
    if table.row(&firm) == now {
        return Ok(());
    }
    if let Some(row) = now {
        changes.reserve(1)?;
        changes.push_reserved(row);
    }
    Ok(())
}

// Adds the changes of the creditor and the debtor of a claim.
fn add_sides(
    changes: &mut Vec<Row>,
    table: &Table,
    book: &Book,
    key: &Key,
) -> Result<(), AllocError>
    ensures { OnOk result (AreSettled (ledger_of book.now.history) table.now.rows
        (λ firm. is_side_of (ledger_of book.now.history) firm key.now) changes.old.items changes.new.items) }
{
    add_change(changes, table, book, key.creditor)?;
    if let Some(claim) = book.claim(key) {
        add_change(changes, table, book, claim.debtor)?;
    }
    Ok(())
}

// Adds the changes of the firms that an act names, by themselves or by a claim of theirs.
fn add_named(
    changes: &mut Vec<Row>,
    table: &Table,
    book: &Book,
    act: &Act,
) -> Result<(), AllocError>
    ensures { OnOk result (AreSettled (ledger_of book.now.history) table.now.rows
        (λ firm. is_of_firm (ledger_of book.now.history) firm act.now) changes.old.items changes.new.items) }
{
    match act {
        Act::Firm { firm }
        | Act::Fund { firm, .. }
        | Act::Draw { firm, .. }
        | Act::Limit { firm, .. }
        | Act::Offer { firm, .. } => add_change(changes, table, book, *firm),
        Act::File { key, .. }
        | Act::Confirm { key, .. }
        | Act::Dispute { key, .. }
        | Act::Withdraw { key }
        | Act::Receive { key, .. } => add_sides(changes, table, book, key),
        Act::Position { .. } | Act::Close { .. } | Act::Abandon | Act::Publish { .. } => Ok(()),
    }
}

// Adds the changes of the firms that an entry touches.
fn add_touched(
    changes: &mut Vec<Row>,
    table: &Table,
    book: &Book,
    entry: &Entry,
) -> Result<(), AllocError>
    ensures { OnOk result (AreSettled (ledger_of book.now.history) table.now.rows
        (λ firm. touches (ledger_of book.now.history) firm entry.now) changes.old.items changes.new.items) }
{
    match entry.reply {
        Reply::Refused(_) => Ok(()),
        Reply::Published { .. } => add_all(changes, table, book),
        _ => add_named(changes, table, book, &entry.act),
    }
}

// Adds the changes of the firms that entries touch; of all firms, where these are fewer.
fn add_later(
    changes: &mut Vec<Row>,
    table: &Table,
    book: &Book,
    later: &[Entry],
) -> Result<(), AllocError>
    ensures { OnOk result (AreSettled (ledger_of book.now.history) table.now.rows
        (λ firm. list_any (touches (ledger_of book.now.history) firm) later.now) changes.old.items changes.new.items) }
{
    if book.accounts().len() < later.len() {
        return add_all(changes, table, book);
    }
    for entry in later {
        add_touched(changes, table, book, entry)?;
    }
    Ok(())
}

// Adds the change of each firm.
fn add_all(changes: &mut Vec<Row>, table: &Table, book: &Book) -> Result<(), AllocError>
    ensures { OnOk result (AreAllSettled (ledger_of book.now.history) table.now.rows changes.old.items changes.new.items) }
{
    for account in book.accounts() {
        add_change(changes, table, book, account.firm)?;
    }
    Ok(())
}

// The entries of a history that come after those of a table.
fn entries_after<'a>(table: &Table, history: &'a [Entry]) -> &'a [Entry]
    requires { table.now.entries ≤ length history.now }
    ensures { result.now ≡ drop table.now.entries history.now }
{
    &history[table.entries as usize..]
}

// The rows of a book that are not those of a table, which stands for a beginning of the book's history. With them the table has the
// rows of the book.
pub(crate) fn changed_rows(
    alloc: Global,
    table: &Table,
    book: &Book,
) -> Result<Vec<Row>, AllocError>
    requires shown { IsShown table.now }
    requires begins { IsPrefix table.now.history book.now.history }
    ensures { IfOk result (λ rows. HasRows (ledger_of book.now.history) (put_all table.now.rows rows.items)) }
{
    untouched_firms_stay();
    let _rows = table.rows();
    let mut changes = Vec::new(alloc);
    add_later(
        &mut changes,
        table,
        book,
        entries_after(table, book.history()),
    )?;
    Ok(changes)
}
