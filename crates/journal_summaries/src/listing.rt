//! Which entries the register of a firm has.
ghost use Rattle.std.specs.Prelude.{◌≡◌};
ghost use Rattle.printed_text.specs.claim_book.specs.Book.{ledger_of};
ghost use Rattle.printed_text.specs.claim_history.specs.Facts.{party_place};
ghost use Rattle.printed_text.specs.claim_history.specs.Touched.{is_of_firm, is_side_of};
ghost use Rattle.journal_summaries.specs.Account.{is_listed, is_party_of};
ghost use Rattle.journal_summaries.specs.Replay.{IsDebtorOf, IsNamed, NamesDebtor};

use claim_history::{Act, Entry, Reply};
use printed_text::Book;
use setoff_model::{Cut, Key, Name, Party};

// Whether a firm is the creditor or the debtor of a claim.
fn is_side(book: &Book, firm: &Name, key: &Key) -> bool
    ensures { result ≡ is_side_of (ledger_of book.now.history) firm.now key.now }
{
    if *firm == key.creditor {
        return true;
    }
    match book.claim(key) {
        None => false,
        Some(claim) => *firm == claim.debtor,
    }
}

// The same of a claim whose debtor is known, which is not looked up.
fn is_side_named(book: &Book, firm: &Name, key: &Key, debtor: &Name) -> bool
    requires { IsDebtorOf (ledger_of book.now.history) key.now debtor.now }
    ensures { result ≡ is_side_of (ledger_of book.now.history) firm.now key.now }
{
    let _ = book;
    *firm == key.creditor || *firm == *debtor
}

// Whether an act names a firm, or a claim of it. The debtor that it names is the claim's.
fn is_of_firm(book: &Book, firm: &Name, act: &Act) -> bool
    requires { NamesDebtor (ledger_of book.now.history) act.now }
    ensures { result ≡ is_of_firm (ledger_of book.now.history) firm.now act.now }
{
    match act {
        Act::Firm { firm: other } => *firm == *other,
        Act::File { key, debtor, .. } => is_side_named(book, firm, key, debtor),
        Act::Confirm { key, debtor, .. } => is_side_named(book, firm, key, debtor),
        Act::Dispute { key, debtor } => is_side_named(book, firm, key, debtor),
        Act::Withdraw { key } => is_side(book, firm, key),
        Act::Receive { key, .. } => is_side(book, firm, key),
        Act::Fund { firm: other, .. } => *firm == *other,
        Act::Draw { firm: other, .. } => *firm == *other,
        Act::Limit { firm: other, .. } => *firm == *other,
        Act::Offer { firm: other, .. } => *firm == *other,
        Act::Position { .. } => false,
        Act::Close { .. } => false,
        Act::Abandon => false,
        Act::Publish { .. } => false,
    }
}

/// The place of a firm among the parties of a cut.
pub(crate) fn place_of(parties: &[Party], firm: &Name) -> Option<usize>
    ensures { result ≡ party_place parties.now firm.now }
{
    parties.iter().position(|party| *firm == party.firm)
}

// Whether a firm is a party of a cut, if there is one.
fn is_party(firm: &Name, cut: &Option<Cut>) -> bool
    ensures { result ≡ is_party_of cut.now firm.now }
{
    match cut {
        None => false,
        Some(cut) => place_of(cut.parties(), firm).is_some(),
    }
}

/// Whether the register of a firm has an entry, by the book after it. Where it publishes a round, the round's cut is given. Where it
/// is accepted, the debtor that it names is the claim's.
pub(crate) fn is_listed(book: &Book, firm: &Name, entry: &Entry, cut: &Option<Cut>) -> bool
    requires { IsNamed (ledger_of book.now.history) entry.now.act entry.now.reply }
    ensures { result ≡ is_listed firm.now cut.now (ledger_of book.now.history) entry.now }
{
    match entry.reply {
        Reply::Refused(_) => false,
        Reply::Published { .. } => is_party(firm, cut),
        _ => is_of_firm(book, firm, &entry.act),
    }
}
