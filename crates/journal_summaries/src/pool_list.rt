//! The pools of a journal.
ghost use Rattle.std.specs.Prelude.{◌≡◌, ◌++◌, ◌∷◌, [], ℕ, List, OnOk, IfOk, cond, count_by, sum_by};
ghost use Rattle.indexmap.specs.IndexSet.{insert_key};
ghost use Rattle.setoff_model.specs.Same.{same_name};
ghost use Rattle.csv.specs.Writing.{row_text, default_writer};
ghost use Rattle.printed_text.specs.claim_history.specs.History.{is_opening};
ghost use Rattle.printed_text.specs.claim_history.specs.Pools.{entries_in};
ghost use Rattle.printed_text.specs.firm_notices.specs.Notices.{is_open};
ghost use Rattle.printed_text.specs.firm_notices.specs.Tables.{HoldsText};
ghost use Rattle.printed_text.specs.Printing.{rounds_in};
ghost use Rattle.journal_summaries.specs.PoolList.{count_fields, counts_in, pool_names, pools_of, pools_text};

use crate::rows::number_field;
use crate::table::{new_table, put_row, text_of};
use claim_history::{Entry, Reply, Status};
use csv::Writer;
use indexmap::IndexSet;
use printed_text::{Book, Books, ClaimFact};
use setoff_model::Name;
use std::alloc::{AllocError, Global};

// 1 for a claim that is open: not withdrawn, and with an open amount above 0.
fn open_claim(claim: &ClaimFact) -> u64
    ensures { result ≡ cond (is_open claim.now) 1 0 }
{
    if claim.status != Status::Withdrawn && claim.left > 0 {
        1
    } else {
        0
    }
}

// 1 for an entry that opens a round.
fn opening(entry: &Entry) -> u64
    ensures { result ≡ cond (is_opening entry.now.reply) 1 0 }
{
    match entry.reply {
        Reply::Opened { .. } => 1,
        _ => 0,
    }
}

// 1 for an entry that publishes a round.
fn publication(entry: &Entry) -> u64
    ensures { result ≡ rounds_in entry.now.reply }
{
    match entry.reply {
        Reply::Published { .. } => 1,
        _ => 0,
    }
}

fn open_claims(claims: &[ClaimFact]) -> u64
    ensures { result ≡ count_by is_open claims.now }
{
    let mut sum = 0;
    for i in 0..claims.len() {
        sum += open_claim(&claims[i]);
    }
    sum
}

fn openings(entries: &[Entry]) -> u64
    ensures { result ≡ count_by (λ e. is_opening e.reply) entries.now }
{
    let mut sum = 0;
    for i in 0..entries.len() {
        sum += opening(&entries[i]);
    }
    sum
}

fn publications(entries: &[Entry]) -> u64
    ensures { result ≡ sum_by (λ e. rounds_in e.reply) entries.now }
{
    let mut sum = 0;
    for i in 0..entries.len() {
        sum += publication(&entries[i]);
    }
    sum
}

// Puts a name at the end, where it is new.
fn add_name(names: &mut IndexSet<Name>, name: Name) -> Result<(), AllocError>
    ensures { OnOk result (names.new.keys ≡ insert_key same_name names.old.keys name) }
{
    match names.insert(name) {
        Ok(_) => Ok(()),
        Err(_) => Err(AllocError),
    }
}

// The pools that have an entry, in order of its first one.
fn pools_in(alloc: Global, books: &Books) -> Result<IndexSet<Name>, AllocError>
    ensures { IfOk result (λ names. names.keys ≡ pools_of books.now.members) }
{
    let len = books.len();
    let mut names = IndexSet::new(alloc);
    for place in 0..len {
        let (pool, _entry) = books.member(place);
        add_name(&mut names, pool)?;
    }
    Ok(names)
}

// Writes the row of the names of the fields.
fn put_header(table: &mut Writer<Vec<u8>>) -> Result<(), AllocError>
    ensures { OnOk result ((text : List ℕ) → HoldsText table.old text
        → HoldsText table.new (text ++ row_text default_writer pool_names)) }
{
    put_row(
        table,
        &[
            b"pool",
            b"entries",
            b"firms",
            b"claims",
            b"open",
            b"opened",
            b"published",
        ],
    )
}

// The numbers of a pool: of its entries, registered firms, filed claims and open ones, and of the rounds opened and published in it.
#[derive(Clone, Copy)]
pub(crate) struct PoolCounts {
    pub(crate) entries: u64,
    pub(crate) firms: u64,
    pub(crate) claims: u64,
    pub(crate) open_claims: u64,
    pub(crate) rounds: u64,
    pub(crate) published: u64,
}

// What a book counts.
fn counts_in(book: &Book) -> PoolCounts
    ensures { result ≡ counts_in book.now.history }
{
    let entries = book.history();
    let claims = book.claims();
    PoolCounts {
        entries: entries.len() as u64,
        firms: book.accounts().len() as u64,
        claims: claims.len() as u64,
        open_claims: open_claims(claims),
        rounds: openings(entries),
        published: publications(entries),
    }
}

// The numbers of a pool, as texts.
#[derive(Drop)]
struct CountTexts {
    entries: Vec<u8>,
    firms: Vec<u8>,
    claims: Vec<u8>,
    open_claims: Vec<u8>,
    rounds: Vec<u8>,
    published: Vec<u8>,
}

fn put_texts<'a>(
    table: &mut Writer<Vec<u8>>,
    pool: &'a Name,
    texts: &'a CountTexts,
) -> Result<(), AllocError>
    ensures { OnOk result ((text : List ℕ) → HoldsText table.old text
        → HoldsText table.new (text ++ row_text default_writer (pool.now ∷ texts.now.entries.items ∷ texts.now.firms.items
        ∷ texts.now.claims.items ∷ texts.now.open_claims.items ∷ texts.now.rounds.items ∷ texts.now.published.items ∷ []))) }
{
    put_row(
        table,
        &[
            pool.bytes(),
            &texts.entries,
            &texts.firms,
            &texts.claims,
            &texts.open_claims,
            &texts.rounds,
            &texts.published,
        ],
    )
}

// Writes the row of a pool with these numbers.
fn put_counts(
    table: &mut Writer<Vec<u8>>,
    alloc: Global,
    pool: &Name,
    counts: PoolCounts,
) -> Result<(), AllocError>
    ensures { OnOk result ((text : List ℕ) → HoldsText table.old text
        → HoldsText table.new (text ++ row_text default_writer (count_fields pool.now counts))) }
{
    let texts = CountTexts {
        entries: number_field(alloc, counts.entries)?,
        firms: number_field(alloc, counts.firms)?,
        claims: number_field(alloc, counts.claims)?,
        open_claims: number_field(alloc, counts.open_claims)?,
        rounds: number_field(alloc, counts.rounds)?,
        published: number_field(alloc, counts.published)?,
    };
    put_texts(table, pool, &texts)
}

// Writes the row of a pool.
fn put_pool(
    table: &mut Writer<Vec<u8>>,
    alloc: Global,
    books: &Books,
    pool: &Name,
) -> Result<(), AllocError>
    ensures { OnOk result ((text : List ℕ) → HoldsText table.old text
        → HoldsText table.new (text ++ row_text default_writer (count_fields pool.now
        (counts_in (entries_in pool.now books.now.members))))) }
{
    let counts = counts_in(books.book(pool));
    put_counts(table, alloc, pool, counts)
}

/// The pools that have an entry as CSV, in order of its first one, each with its entries, registered firms, filed claims, open claims,
/// and the rounds that were opened and published in it. The only error is that memory is missing.
pub fn pools(alloc: Global, books: &Books) -> Result<Vec<u8>, AllocError>
    ensures { IfOk result (λ text. text.items ≡ pools_text books.now.members) }
{
    let names = pools_in(alloc, books)?;
    let mut table = new_table(alloc);
    put_header(&mut table)?;
    let pools = names.as_slice();
    for pool in pools {
        put_pool(&mut table, alloc, books, pool)?;
    }
    text_of(table)
}
