//! The entries of a history, printed in order. They are replayed only where a round is published behind them.
ghost use Rattle.std.specs.Prelude.{ℕ, ◌≡◌, ◌<◌, ◌≤◌, ◌++◌, ◌∷◌, [], true, is_some, Some, OnErr};
ghost use Rattle.std.specs.Prelude.{OnOk, IfOk, length, slice_get, take, drop, vec_capacity};
ghost use Rattle.setoff_model.specs.declared.limits.TheConstants.{OUTPUT_BYTES};
ghost use Rattle.setoff_model.specs.CutView.{CutView};
ghost use Rattle.bureau_edge.specs.Streams.{AppendsPart, CountsFaults};
ghost use Rattle.claim_history.specs.declared.entry.Reply.TheVariants as reply;
ghost use Rattle.claim_history.specs.Acts.{is_valid};
ghost use Rattle.claim_history.specs.Laws.{IsReplyInRange};
ghost use Rattle.claim_history.specs.Pools.{member_of};
ghost use Rattle.claim_history.specs.PoolRounds.{open_cut_in};
ghost use Rattle.printed_text.specs.declared.exit_status.ExitStatus.TheVariants as statuses;
ghost use Rattle.printed_text.specs.entry_text.specs.Entries.{entry_line};
ghost use Rattle.printed_text.specs.Printing.{IsPrintableAt, member_text, statement_of};
ghost use Rattle.printed_text.specs.Statuses.{TellsSinkFault};
ghost use Rattle.printed_text.specs.Writing.{Prints, Wrote};
ghost use Rattle.history_text.specs.declared.told.Told.TheVariants as told;
ghost use Rattle.history_text.specs.Histories.{AreFirst, HasPrinted, HasTold, HasToldOne, IsHistoryDue};
ghost use Rattle.history_text.specs.Histories.{IsToldDue, text_from, told_members, told_text};

use crate::replaying::{open_cut, replay_to};
use crate::told::{Told, told_at, told_len};
use bureau_edge::{Failed, Sink};
use claim_history::{Entry, Reply};
use printed_text::{Books, ExitStatus, flush, print_member, tell_no_memory};
use setoff_model::{Cut, Name};
use std::alloc::{AllocError, Global};

// Prints a member, where the cut of the round that it publishes is the first of those that are given.
fn print_one<K: Sink>(
    sink: &mut K,
    buffer: &mut Vec<u8>,
    pool: &Name,
    entry: &Entry,
    rounds: &[Cut],
) -> Result<(), Failed>
    requires valid { is_valid entry.now.act ≡ true }
    requires range { IsReplyInRange entry.now.reply }
    requires publication { (total : ℕ) → entry.now.reply ≡ reply.Published total → IsPrintableAt rounds.now 0 entry.now.act }
    requires spare { OUTPUT_BYTES ≤ vec_capacity buffer.old }

    // The text went through, or the sink failed and took some first bytes of it.
    ensures { Prints K.held K.faults sink.old sink.new buffer.old buffer.new
        (entry_line (member_of pool.now entry.now) ++ statement_of (slice_get rounds.now 0) entry.now.act entry.now.reply) result }
{
    let _next = print_member(sink, buffer, pool, entry, rounds, 0)?;
    Ok(())
}

// Prints a member. Where it publishes a round, those before it were replayed, and the round is open in its pool.
fn print_shown<K: Sink>(
    sink: &mut K,
    buffer: &mut Vec<u8>,
    replayed: &Books,
    pool: &Name,
    entry: &Entry,
) -> Result<(), Failed>
    requires valid { is_valid entry.now.act ≡ true }
    requires range { IsReplyInRange entry.now.reply }
    requires open { (total : ℕ) → entry.now.reply ≡ reply.Published total → is_some (open_cut_in replayed.now.members pool.now) ≡ true }
    requires printable { (total : ℕ) → entry.now.reply ≡ reply.Published total
        → (cut : CutView) → open_cut_in replayed.now.members pool.now ≡ Some cut → IsPrintableAt (cut ∷ []) 0 entry.now.act }

    // The buffer.
    requires spare { OUTPUT_BYTES ≤ vec_capacity buffer.old }

    // The text went through, or the sink failed and took some first bytes of it.
    ensures { Prints K.held K.faults sink.old sink.new buffer.old buffer.new
        (member_text replayed.now.members (member_of pool.now entry.now)) result }
{
    match entry.reply {
        Reply::Published { .. } => {
            print_one(sink, buffer, pool, entry, open_cut(replayed, pool))
        }
        _ => print_one(sink, buffer, pool, entry, &[]),
    }
}

// Replays the members before a place where the entry there publishes a round.
fn replay_for(
    alloc: Global,
    books: &Books,
    pool: &Option<Name>,
    place: u64,
    entry: &Entry,
    replayed: &mut Books,
) -> Result<(), AllocError>
    requires place { place ≤ length (told_members pool.now books.now.members) }
    requires first { AreFirst place (told_members pool.now books.now.members) replayed.old.members }

    // The members that were replayed; memory is missing only before a publication.
    ensures first { OnOk result (AreFirst place (told_members pool.now books.now.members) replayed.new.members) }
    ensures all { OnOk result ((total : ℕ) → entry.now.reply ≡ reply.Published total
        → replayed.new.members ≡ take place (told_members pool.now books.now.members)) }
    ensures publishes { OnErr result ((total : ℕ) × (entry.now.reply ≡ reply.Published total)) }
{
    let Reply::Published { .. } = entry.reply else {
        return Ok(());
    };
    replay_to(alloc, books, pool, place, replayed)
}

// Prints the member that is told at a place, for which those before it may have to be replayed. Where memory was missing for this,
// nothing is printed.
fn print_next<K: Sink>(
    alloc: Global,
    sink: &mut K,
    buffer: &mut Vec<u8>,
    books: &Books,
    pool: &Option<Name>,
    replayed: &mut Books,
    place: u64,
) -> Result<Told, Failed>
    requires place { place < length (told_members pool.now books.now.members) }
    requires first { AreFirst place (told_members pool.now books.now.members) replayed.old.members }
    requires spare { OUTPUT_BYTES ≤ vec_capacity buffer.old }

    // The text went through, or the sink failed and took some first bytes of it.
    ensures ok { IfOk result (λ done. HasToldOne done (K.held sink.old) (K.held sink.new) buffer.old.items buffer.new.items
        (told_members pool.now books.now.members) place) }
    ensures part { OnErr result (AppendsPart (K.held sink.old) (K.held sink.new)
        (buffer.old.items ++ told_text (told_members pool.now books.now.members) place)) }
    ensures cause { CountsFaults (K.faults sink.old) (K.faults sink.new) result }
    ensures room { OUTPUT_BYTES ≤ vec_capacity buffer.new }

    // The members that were replayed.
    ensures first { IfOk result (λ done. done ≡ told.Whole
        → AreFirst place (told_members pool.now books.now.members) replayed.new.members) }
{
    let _len = told_len(books, pool);
    let (shown, entry) = told_at(books, pool, place);
    let Ok(()) = replay_for(alloc, books, pool, place, entry, replayed) else {
        return Ok(Told::Short);
    };
    print_shown(sink, buffer, replayed, &shown, entry)?;
    Ok(Told::Whole)
}

// Prints the members that are told of books from a place on, of which those before publications are replayed into empty ones.
fn print_told<K: Sink>(
    alloc: Global,
    sink: &mut K,
    buffer: &mut Vec<u8>,
    books: &Books,
    pool: &Option<Name>,
    from: u64,
    replayed: &mut Books,
) -> Result<Told, Failed>
    requires from { from ≤ length (told_members pool.now books.now.members) }
    requires empty { replayed.old.members ≡ [] }
    requires spare { OUTPUT_BYTES ≤ vec_capacity buffer.old }

    // The text went through, or that of the members before a publication; or the sink failed and took some first bytes of it.
    ensures ok { IfOk result (λ done. HasTold done (K.held sink.old) (K.held sink.new) buffer.old.items buffer.new.items
        (told_members pool.now books.now.members) from) }
    ensures part { OnErr result (AppendsPart (K.held sink.old) (K.held sink.new)
        (buffer.old.items ++ text_from (told_members pool.now books.now.members) from)) }
    ensures cause { CountsFaults (K.faults sink.old) (K.faults sink.new) result }
    ensures room { OUTPUT_BYTES ≤ vec_capacity buffer.new }
{
    let len = told_len(books, pool);
    for place in from..len {
        let done = print_next(alloc, sink, buffer, books, pool, replayed, place)?;
        match done {
            Told::Whole => {}
            Told::Short => return Ok(Told::Short),
        }
    }
    Ok(Told::Whole)
}

// The same, with the books that they are replayed into.
fn print_replayed<K: Sink>(
    alloc: Global,
    sink: &mut K,
    buffer: &mut Vec<u8>,
    books: &Books,
    pool: &Option<Name>,
    from: u64,
) -> Result<Told, Failed>
    requires from { from ≤ length (told_members pool.now books.now.members) }
    requires spare { OUTPUT_BYTES ≤ vec_capacity buffer.old }

    // The text went through, or that of the members before a publication; or the sink failed and took some first bytes of it.
    ensures ok { IfOk result (λ done. HasTold done (K.held sink.old) (K.held sink.new) buffer.old.items buffer.new.items
        (told_members pool.now books.now.members) from) }
    ensures part { OnErr result (AppendsPart (K.held sink.old) (K.held sink.new)
        (buffer.old.items ++ text_from (told_members pool.now books.now.members) from)) }
    ensures cause { CountsFaults (K.faults sink.old) (K.faults sink.new) result }
    ensures room { OUTPUT_BYTES ≤ vec_capacity buffer.new }
{
    let mut replayed = Books::new(alloc);
    let told = print_told(alloc, sink, buffer, books, pool, from, &mut replayed);
    drop(replayed);
    told
}

// The same, and writes what is left in the buffer.
fn print_whole<K: Sink>(
    alloc: Global,
    sink: &mut K,
    buffer: &mut Vec<u8>,
    books: &Books,
    pool: &Option<Name>,
    from: u64,
) -> Result<Told, Failed>
    requires from { from ≤ length (told_members pool.now books.now.members) }
    requires empty { buffer.old.items ≡ [] }
    requires spare { OUTPUT_BYTES ≤ vec_capacity buffer.old }

    // The sink took the text, or that of the members before a publication; or some first bytes of it.
    ensures ok { IfOk result (λ done. HasPrinted done (K.held sink.old) (K.held sink.new)
        (told_members pool.now books.now.members) from) }
    ensures part { OnErr result (AppendsPart (K.held sink.old) (K.held sink.new)
        (text_from (told_members pool.now books.now.members) from)) }
    ensures cause { CountsFaults (K.faults sink.old) (K.faults sink.new) result }
{
    let done = print_replayed(alloc, sink, buffer, books, pool, from)?;
    flush(sink, buffer)?;
    Ok(done)
}

/// Prints the members that are told of books from a place on, and gives the status, as `print_history` does of all.
pub(crate) fn print_from<K: Sink>(
    alloc: Global,
    sink: &mut K,
    buffer: &mut Vec<u8>,
    books: &Books,
    pool: &Option<Name>,
    from: u64,
) -> ExitStatus
    requires from { from ≤ length (told_members pool.now books.now.members) }
    requires empty { buffer.old.items ≡ [] }
    requires spare { OUTPUT_BYTES ≤ vec_capacity buffer.old }

    // What was written, and the status that tells of it.
    ensures wrote { Wrote (IsToldDue (take from (told_members pool.now books.now.members))
        (drop from (told_members pool.now books.now.members))) (K.held sink.old) (K.held sink.new) result }
    ensures memory { result ≡ statuses.Memory → 0 < length (drop from (told_members pool.now books.now.members)) }
    ensures write_fault { TellsSinkFault (K.faults sink.old) (K.faults sink.new) result }
{
    match print_whole(alloc, sink, buffer, books, pool, from) {
        Ok(Told::Whole) => ExitStatus::Done,
        Ok(Told::Short) => tell_no_memory(sink),
        Err(_) => ExitStatus::Sink,
    }
}

/// Prints the entries of books of all pools, or of one, each publication followed by the statement of its round. Gives the status:
/// `Done`; `Memory`, told behind the text of the entries before a publication, where there was no memory to replay these; `Sink` where
/// the sink failed.
///
/// The buffer is empty, and has room for `OUTPUT_BYTES`.
pub fn print_history<K: Sink>(
    alloc: Global,
    sink: &mut K,
    buffer: &mut Vec<u8>,
    books: &Books,
    pool: &Option<Name>,
) -> ExitStatus
    requires empty { buffer.old.items ≡ [] }
    requires spare { OUTPUT_BYTES ≤ vec_capacity buffer.old }

    // What was written, and the status that tells of it.
    ensures wrote { Wrote (IsHistoryDue pool.now books.now.members) (K.held sink.old) (K.held sink.new) result }
    ensures memory { result ≡ statuses.Memory → 0 < length (told_members pool.now books.now.members) }
    ensures write_fault { TellsSinkFault (K.faults sink.old) (K.faults sink.new) result }
{
    print_from(alloc, sink, buffer, books, pool, 0)
}
