//! Output in pieces: text goes through a buffer of `OUTPUT_BYTES` to the sink.
ghost use Rattle.std.specs.Prelude.{◌≡◌, ℕ, ◌+◌, ◌≤◌, [], ◌++◌, true, IfOk};
ghost use Rattle.std.specs.Prelude.{OnOk, OnErr, vec_len, vec_capacity, length, slice_get, take, drop};
ghost use Rattle.std.specs.Io.KnownBytes.{Appends};
ghost use Rattle.bureau_edge.specs.Streams.{AppendsPart, CountsFaults};
ghost use Rattle.served_lines.specs.claim_history.specs.declared.entry.Reply.TheVariants as reply;
ghost use Rattle.served_lines.specs.claim_history.specs.Acts.{is_valid};
ghost use Rattle.served_lines.specs.claim_history.specs.Laws.{IsReplyInRange};
ghost use Rattle.served_lines.specs.claim_history.specs.Pools.{member_of};
ghost use Rattle.served_lines.specs.claim_history.specs.PoolRounds.{cuts_after};
ghost use Rattle.entry_text.specs.Entries.{entry_line};
ghost use Rattle.printed_text.specs.Printing.{added_text, end_text, ends_text, statement_of};
ghost use Rattle.printed_text.specs.Printing.{IsPrintableAt, rounds_in, answers_in, printed_of};
ghost use Rattle.printed_text.specs.Writing.{GoesThrough, Prints};

use crate::batch_answers::BatchAnswers;
use crate::fault_text::{write_full_line, write_memory_line};
use crate::statement::print_statement;
use bureau_edge::{Failed, Sink, write_all};
use entry_text::write_member;
use served_lines::{Act, Answer, Books, Entry, LineEnd, Reply};
use setoff_model::limits::{LINE_BYTES, OUTPUT_BYTES};
use setoff_model::{Cut, Name};
use std::alloc::{AllocError, Global};

/// An empty buffer with room for `OUTPUT_BYTES`, as each call that prints asks for. The only error is running out of memory.
pub fn output_buffer(alloc: Global) -> Result<Vec<u8>, AllocError>
    ensures empty { IfOk result (λ buffer. buffer.items ≡ []) }
    ensures len { IfOk result (λ buffer. vec_len buffer ≡ 0) }
    ensures room { IfOk result (λ buffer. OUTPUT_BYTES ≤ vec_capacity buffer) }
{
    Vec::with_capacity(alloc, OUTPUT_BYTES)
}

/// Writes what is in the buffer, and empties it. An error is a failure of the sink, which counted it.
pub fn flush<K: Sink>(sink: &mut K, buffer: &mut Vec<u8>) -> Result<(), Failed>

    // The text went through, or the sink failed and took some first bytes of it.
    ensures ok { OnOk result (GoesThrough (K.held sink.old) (K.held sink.new) buffer.old.items buffer.new.items []) }
    ensures part { OnErr result (AppendsPart (K.held sink.old) (K.held sink.new) buffer.old.items) }
    ensures cause { CountsFaults (K.faults sink.old) (K.faults sink.new) result }
    ensures room { vec_capacity buffer.old ≤ vec_capacity buffer.new }

    // Then the buffer is empty.
    ensures emptied { OnOk result (buffer.new.items ≡ []) }
    ensures empty { OnOk result (vec_len buffer.new ≡ 0) }
{
    write_all(sink, buffer.as_slice())?;
    buffer.clear();
    Ok(())
}

/// Makes room for a line, of `LINE_BYTES`. An error is a failure of the sink, which counted it.
pub fn make_room<K: Sink>(sink: &mut K, buffer: &mut Vec<u8>) -> Result<(), Failed>
    requires { OUTPUT_BYTES ≤ vec_capacity buffer.old }

    // The text went through, or the sink failed and took some first bytes of it.
    ensures ok { OnOk result (GoesThrough (K.held sink.old) (K.held sink.new) buffer.old.items buffer.new.items []) }
    ensures part { OnErr result (AppendsPart (K.held sink.old) (K.held sink.new) buffer.old.items) }
    ensures cause { CountsFaults (K.faults sink.old) (K.faults sink.new) result }
    ensures room { OUTPUT_BYTES ≤ vec_capacity buffer.new }

    // Then there is room for a line.
    ensures spare { OnOk result (vec_len buffer.new + LINE_BYTES ≤ vec_capacity buffer.new) }
{
    if buffer.len() <= OUTPUT_BYTES - LINE_BYTES {
        return Ok(());
    }
    flush(sink, buffer)
}

// Prints the line of an entry of a pool.
fn print_entry<K: Sink>(
    sink: &mut K,
    buffer: &mut Vec<u8>,
    pool: &Name,
    entry: &Entry,
) -> Result<(), Failed>
    requires valid { is_valid entry.now.act ≡ true }
    requires range { IsReplyInRange entry.now.reply }
    requires spare { OUTPUT_BYTES ≤ vec_capacity buffer.old }

    // The text went through, or the sink failed and took some first bytes of it.
    ensures { Prints K.held K.faults sink.old sink.new buffer.old buffer.new
        (entry_line (member_of pool.now entry.now)) result }
{
    make_room(sink, buffer)?;
    write_member(buffer, pool, entry);
    Ok(())
}

/// Prints the statement of the round that an entry publishes, and nothing for one that publishes none. The cut of the round is at
/// the place `next`; gives the place of the cut after it.
///
/// The buffer has room for `OUTPUT_BYTES`. After a failure, which the sink counted, it has some first bytes of what was in the buffer
/// and the text.
pub fn print_publication<K: Sink>(
    sink: &mut K,
    buffer: &mut Vec<u8>,
    entry: &Entry,
    rounds: &[Cut],
    next: usize,
) -> Result<usize, Failed>
    requires publication { (total : ℕ) → entry.now.reply ≡ reply.Published total → IsPrintableAt rounds.now next entry.now.act }
    requires spare { OUTPUT_BYTES ≤ vec_capacity buffer.old }

    // The text went through, or the sink failed and took some first bytes of it.
    ensures printed { Prints K.held K.faults sink.old sink.new buffer.old buffer.new
        (statement_of (slice_get rounds.now next) entry.now.act entry.now.reply) result }
    ensures next { IfOk result (λ place. place ≡ next + rounds_in entry.now.reply) }
{
    let Reply::Published { .. } = entry.reply else {
        return Ok(next);
    };
    let Act::Publish { outcome, .. } = &entry.act else {
        unreachable!()
    };
    print_statement(sink, buffer, &rounds[next], outcome)?;
    Ok(next + 1)
}

/// Prints the line of an entry of a pool, and at once the statement of the round that it publishes. The rest is as for
/// `print_publication`.
pub fn print_member<K: Sink>(
    sink: &mut K,
    buffer: &mut Vec<u8>,
    pool: &Name,
    entry: &Entry,
    rounds: &[Cut],
    next: usize,
) -> Result<usize, Failed>
    requires valid { is_valid entry.now.act ≡ true }
    requires range { IsReplyInRange entry.now.reply }
    requires publication { (total : ℕ) → entry.now.reply ≡ reply.Published total → IsPrintableAt rounds.now next entry.now.act }
    requires spare { OUTPUT_BYTES ≤ vec_capacity buffer.old }

    // The text went through, or the sink failed and took some first bytes of it.
    ensures printed { Prints K.held K.faults sink.old sink.new buffer.old buffer.new
        (entry_line (member_of pool.now entry.now) ++ statement_of (slice_get rounds.now next) entry.now.act entry.now.reply) result }
    ensures next { IfOk result (λ place. place ≡ next + rounds_in entry.now.reply) }
{
    print_entry(sink, buffer, pool, entry)?;
    print_publication(sink, buffer, entry, rounds, next)
}

// Prints the members of a history from a place on, each published one with the statement of its round. The rounds are the cuts of
// those that were published from there on.
//
// The buffer and the failure are as for `print_publication`.
fn print_members<K: Sink>(
    sink: &mut K,
    buffer: &mut Vec<u8>,
    books: &Books,
    from: u64,
    rounds: &[Cut],
) -> Result<(), Failed>
    requires from { from ≤ length books.now.members }
    requires rounds { rounds.now ≡ cuts_after from books.now.members }
    requires spare { OUTPUT_BYTES ≤ vec_capacity buffer.old }

    // The text went through, or the sink failed and took some first bytes of it.
    ensures { Prints K.held K.faults sink.old sink.new buffer.old buffer.new
        (added_text (take from books.now.members) (drop from books.now.members)) result }
{
    let len = books.len();
    let mut next = 0;
    for place in from..len {
        let (pool, entry) = books.member(place);
        next = print_member(sink, buffer, &pool, entry, rounds, next)?;
    }
    Ok(())
}

// Prints what is told of a line after its batch.
fn print_end<K: Sink>(sink: &mut K, buffer: &mut Vec<u8>, answer: &Answer) -> Result<(), Failed>
    requires { OUTPUT_BYTES ≤ vec_capacity buffer.old }

    // The text went through, or the sink failed and took some first bytes of it.
    ensures { Prints K.held K.faults sink.old sink.new buffer.old buffer.new
        (end_text answer.now.line answer.now.end) result }
{
    if let LineEnd::Replied = answer.end {
        return Ok(());
    }
    make_room(sink, buffer)?;
    write_end(buffer, answer.line, answer.end);
    Ok(())
}

fn write_end(buffer: &mut Vec<u8>, line: u64, end: LineEnd)
    requires { vec_len buffer.old + LINE_BYTES ≤ vec_capacity buffer.old }
    ensures text { buffer.new.items ≡ buffer.old.items ++ end_text line end }
    ensures room { vec_capacity buffer.old ≤ vec_capacity buffer.new }
{
    match end {
        LineEnd::Replied => {}
        LineEnd::Memory => write_memory_line(buffer, line),
        LineEnd::Full {
            what,
            needed,
            limit,
        } => write_full_line(buffer, line, what, needed, limit),
    }
}

// Prints what is told of the lines of a batch.
fn print_ends<K: Sink>(
    sink: &mut K,
    buffer: &mut Vec<u8>,
    answers: BatchAnswers<'_>,
) -> Result<(), Failed>
    requires spare { OUTPUT_BYTES ≤ vec_capacity buffer.old }

    // The text went through, or the sink failed and took some first bytes of it.
    ensures { Prints K.held K.faults sink.old sink.new buffer.old buffer.new
        (ends_text (answers_in answers.entry)) result }
{
    for place in 0..answers.len() {
        let answer = answers.at(place);
        print_end(sink, buffer, &answer)?;
    }
    Ok(())
}

/// Prints the members that were added to a history, which are those from a place on, each published one with the statement of its
/// round; and then a line for each line of the batch that was not replied to. The rounds are the cuts of the published ones, in
/// order.
///
/// The buffer is empty at first, and has room for `OUTPUT_BYTES`. After a failure, which the sink counted, it has some first bytes of
/// the text.
pub fn print_batch<K: Sink>(
    sink: &mut K,
    buffer: &mut Vec<u8>,
    books: &Books,
    from: u64,
    rounds: &[Cut],
    answers: BatchAnswers<'_>,
) -> Result<(), Failed>
    requires from { from ≤ length books.now.members }
    requires rounds { rounds.now ≡ cuts_after from books.now.members }

    // The buffer.
    requires empty { buffer.old.items ≡ [] }
    requires spare { OUTPUT_BYTES ≤ vec_capacity buffer.old }

    // The text went through, or the sink failed and took some first bytes of it.
    ensures ok { OnOk result (Appends (K.held sink.old) (K.held sink.new)
        (printed_of (take from books.now.members) (drop from books.now.members) (answers_in answers.entry))) }
    ensures part { OnErr result (AppendsPart (K.held sink.old) (K.held sink.new)
        (printed_of (take from books.now.members) (drop from books.now.members) (answers_in answers.entry))) }
    ensures cause { CountsFaults (K.faults sink.old) (K.faults sink.new) result }
    ensures room { OUTPUT_BYTES ≤ vec_capacity buffer.new }

    // Then the buffer is empty.
    ensures emptied { OnOk result (buffer.new.items ≡ []) }
{
    print_members(sink, buffer, books, from, rounds)?;
    print_ends(sink, buffer, answers)?;
    flush(sink, buffer)
}
