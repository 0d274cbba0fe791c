//! One round, told by its statement or by its pages.
ghost use Rattle.std.specs.Prelude.{ℕ, ◌≡◌, ◌+◌, ◌≤◌, ◌++◌, [], OnOk, OnErr, Some, position, slice_get, vec_len, vec_capacity, true};
ghost use Rattle.setoff_model.specs.declared.limits.TheConstants.{LINE_BYTES, OUTPUT_BYTES};
ghost use Rattle.std.specs.Io.KnownBytes.{Appends};
ghost use Rattle.bureau_edge.specs.Streams.{AppendsPart, CountsFaults};
ghost use Rattle.claim_history.specs.declared.entry.Reply.TheVariants as reply;
ghost use Rattle.printed_text.specs.declared.exit_status.ExitStatus.TheVariants as statuses;
ghost use Rattle.printed_text.specs.Printing.{IsPrintableAt, statement_of};
ghost use Rattle.printed_text.specs.Statuses.{TellsSinkFault};
ghost use Rattle.printed_text.specs.Writing.{IsWritten, Wrote};
ghost use Rattle.history_text.specs.Histories.{IsDoneWith, IsFormDue, IsRoundDue, no_round_text};
ghost use Rattle.history_text.specs.Histories.{publication_place, publishes_round, text_in_form, was_published};

use crate::pages::tell_pages;
use crate::replaying::{open_cut, replay_to};
use crate::round_form::RoundForm;
use bureau_edge::{Failed, Sink};
use claim_history::{Act, Entry, Reply, main_pool_name};
use printed_text::{Books, ExitStatus, end_with, flush, print_publication, tell_no_memory};
use setoff_model::{Cut, Name, put, write_whole};
use std::alloc::Global;

// Whether an entry publishes the round of this number.
fn publishes(entry: &Entry, round: u32) -> bool
    ensures { result ≡ publishes_round round entry.now }
{
    match (&entry.act, entry.reply) {
        (Act::Publish { round: number, .. }, Reply::Published { .. }) => *number == round,
        _ => false,
    }
}

// The place of the first entry that does.
fn place_of(entries: &[Entry], round: u32) -> Option<usize>
    ensures { result ≡ position (publishes_round round) entries.now }
{
    entries.iter().position(|entry| publishes(entry, round))
}

// Writes that no round of this number was published.
fn write_no_round(buffer: &mut Vec<u8>, round: u32)
    requires { vec_len buffer.old + LINE_BYTES ≤ vec_capacity buffer.old }
    ensures { buffer.new.items ≡ buffer.old.items ++ no_round_text round }
{
    put(buffer, b"no round ");
    write_whole(buffer, u64::from(round));
    put(buffer, b"\n");
}

// Prints the statement of the round that an entry publishes.
fn print_stated<K: Sink>(
    sink: &mut K,
    buffer: &mut Vec<u8>,
    entry: &Entry,
    rounds: &[Cut],
) -> Result<(), Failed>
    requires publication { IsPrintableAt rounds.now 0 entry.now.act }
    requires empty { buffer.old.items ≡ [] }
    requires spare { OUTPUT_BYTES ≤ vec_capacity buffer.old }

    // The text was taken, or the sink failed and took some first bytes of it.
    ensures ok { OnOk result (Appends (K.held sink.old) (K.held sink.new)
        (statement_of (slice_get rounds.now 0) entry.now.act entry.now.reply)) }
    ensures part { OnErr result (AppendsPart (K.held sink.old) (K.held sink.new)
        (statement_of (slice_get rounds.now 0) entry.now.act entry.now.reply)) }
    ensures cause { CountsFaults (K.faults sink.old) (K.faults sink.new) result }
{
    print_publication(sink, buffer, entry, rounds, 0)?;
    flush(sink, buffer)
}

// The same, and gives the status.
fn tell_stated<K: Sink>(
    sink: &mut K,
    buffer: &mut Vec<u8>,
    entry: &Entry,
    rounds: &[Cut],
) -> ExitStatus
    requires publication { IsPrintableAt rounds.now 0 entry.now.act }
    requires empty { buffer.old.items ≡ [] }
    requires spare { OUTPUT_BYTES ≤ vec_capacity buffer.old }

    // What was written, and the status that tells of it.
    ensures written { IsWritten (K.held sink.old) (K.held sink.new) statuses.Done
        (statement_of (slice_get rounds.now 0) entry.now.act entry.now.reply) result }
    ensures failed { TellsSinkFault (K.faults sink.old) (K.faults sink.new) result }
{
    match print_stated(sink, buffer, entry, rounds) {
        Ok(()) => ExitStatus::Done,
        Err(_) => ExitStatus::Sink,
    }
}

// Tells the round that an entry publishes in a form, and gives the status.
fn tell_round<K: Sink>(
    alloc: Global,
    form: RoundForm,
    sink: &mut K,
    buffer: &mut Vec<u8>,
    entry: &Entry,
    rounds: &[Cut],
) -> ExitStatus
    requires published { (total : ℕ) × (entry.now.reply ≡ reply.Published total) }
    requires publication { IsPrintableAt rounds.now 0 entry.now.act }
    requires empty { buffer.old.items ≡ [] }
    requires spare { OUTPUT_BYTES ≤ vec_capacity buffer.old }

    // What was written, and the status that tells of it.
    ensures wrote { Wrote (IsDoneWith (text_in_form form (slice_get rounds.now 0) entry.now.act entry.now.reply))
        (K.held sink.old) (K.held sink.new) result }
    ensures write_fault { TellsSinkFault (K.faults sink.old) (K.faults sink.new) result }
{
    match form {
        RoundForm::Statement => tell_stated(sink, buffer, entry, rounds),
        RoundForm::Pages => tell_pages(alloc, sink, buffer, entry, rounds),
    }
}

// Tells the round that the entry at a place of a pool publishes, as those before it are replayed into empty books.
fn print_behind<K: Sink>(
    alloc: Global,
    form: RoundForm,
    sink: &mut K,
    buffer: &mut Vec<u8>,
    books: &Books,
    pool: Name,
    round: u32,
    place: usize,
    replayed: &mut Books,
) -> ExitStatus
    requires place { publication_place round pool books.now.members ≡ Some place }
    requires none { replayed.old.members ≡ [] }
    requires empty { buffer.old.items ≡ [] }
    requires spare { OUTPUT_BYTES ≤ vec_capacity buffer.old }

    // What was written, and the status that tells of it.
    ensures wrote { Wrote (IsFormDue form round pool books.now.members) (K.held sink.old) (K.held sink.new) result }
    ensures write_fault { TellsSinkFault (K.faults sink.old) (K.faults sink.new) result }
{
    let _ = round;
    let _len = books.len();
    let entries = books.book(&pool).history();
    let entry = &entries[place];
    match replay_to(alloc, books, &Some(pool), place as u64, replayed) {
        Ok(()) => {
            let rounds = open_cut(replayed, &main_pool_name());
            tell_round(alloc, form, sink, buffer, entry, rounds)
        }
        Err(_) => tell_no_memory(sink),
    }
}

// The same, with the books that they are replayed into.
fn print_round_at<K: Sink>(
    alloc: Global,
    form: RoundForm,
    sink: &mut K,
    buffer: &mut Vec<u8>,
    books: &Books,
    pool: Name,
    round: u32,
    place: usize,
) -> ExitStatus
    requires place { publication_place round pool books.now.members ≡ Some place }
    requires empty { buffer.old.items ≡ [] }
    requires spare { OUTPUT_BYTES ≤ vec_capacity buffer.old }

    // What was written, and the status that tells of it.
    ensures wrote { Wrote (IsFormDue form round pool books.now.members) (K.held sink.old) (K.held sink.new) result }
    ensures write_fault { TellsSinkFault (K.faults sink.old) (K.faults sink.new) result }
{
    let mut replayed = Books::new(alloc);
    let status = print_behind(
        alloc,
        form,
        sink,
        buffer,
        books,
        pool,
        round,
        place,
        &mut replayed,
    );
    drop(replayed);
    status
}

/// Tells the round of a pool that was published under a number in a form, as `print_round` does by its statement.
pub(crate) fn print_in_form<K: Sink>(
    alloc: Global,
    form: RoundForm,
    sink: &mut K,
    buffer: &mut Vec<u8>,
    books: &Books,
    pool: Name,
    round: u32,
) -> ExitStatus
    requires empty { buffer.old.items ≡ [] }
    requires len { vec_len buffer.old ≡ 0 }
    requires spare { OUTPUT_BYTES ≤ vec_capacity buffer.old }

    // What was written, and the status that tells of it.
    ensures wrote { Wrote (IsFormDue form round pool books.now.members) (K.held sink.old) (K.held sink.new) result }
    ensures memory { result ≡ statuses.Memory → was_published round pool books.now.members ≡ true }
    ensures write_fault { TellsSinkFault (K.faults sink.old) (K.faults sink.new) result }
{
    let entries = books.book(&pool).history();
    match place_of(entries, round) {
        Some(place) => print_round_at(alloc, form, sink, buffer, books, pool, round, place),
        None => {
            write_no_round(buffer, round);
            end_with(sink, ExitStatus::No, buffer.as_slice())
        }
    }
}

/// Prints the statement of the round of a pool that was published under a number, or the line that there is none. Gives the status:
/// `Done`, or `No` where there is none; `Memory` where there was none to replay the entries up to the publication; `Sink` where the
/// sink failed.
///
/// The buffer is empty, and has room for `OUTPUT_BYTES`.
pub fn print_round<K: Sink>(
    alloc: Global,
    sink: &mut K,
    buffer: &mut Vec<u8>,
    books: &Books,
    pool: Name,
    round: u32,
) -> ExitStatus
    requires empty { buffer.old.items ≡ [] }
    requires len { vec_len buffer.old ≡ 0 }
    requires spare { OUTPUT_BYTES ≤ vec_capacity buffer.old }

    // What was written, and the status that tells of it.
    ensures wrote { Wrote (IsRoundDue round pool books.now.members) (K.held sink.old) (K.held sink.new) result }
    ensures memory { result ≡ statuses.Memory → was_published round pool books.now.members ≡ true }
    ensures write_fault { TellsSinkFault (K.faults sink.old) (K.faults sink.new) result }
{
    print_in_form(
        alloc,
        RoundForm::Statement,
        sink,
        buffer,
        books,
        pool,
        round,
    )
}
