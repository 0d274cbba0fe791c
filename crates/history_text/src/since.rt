//! What a history has behind its first acts.
ghost use Rattle.std.specs.Prelude.{◌≡◌, ◌+◌, ◌<◌, ◌≤◌, ◌++◌, [], length, take, drop, vec_len, vec_capacity};
ghost use Rattle.setoff_model.specs.declared.limits.TheConstants.{LINE_BYTES, OUTPUT_BYTES};
ghost use Rattle.claim_history.specs.Pools.{entries_in};
ghost use Rattle.printed_text.specs.declared.exit_status.ExitStatus.TheVariants as statuses;
ghost use Rattle.printed_text.specs.Statuses.{TellsSinkFault};
ghost use Rattle.printed_text.specs.Writing.{Wrote};
ghost use Rattle.history_text.specs.Histories.{told_members};
ghost use Rattle.history_text.specs.Since.{IsSinceDue, no_act_text};

use crate::history::print_from;
use bureau_edge::Sink;
use printed_text::{Books, ExitStatus, end_with};
use setoff_model::{Name, put, write_whole};
use std::alloc::Global;

// How many entries of a pool are among the first members of all pools.
fn entries_among(books: &Books, pool: &Name, acts: u64) -> u64
    requires { acts ≤ length books.now.members }
    ensures { result ≡ length (entries_in pool.now (take acts books.now.members)) }
{
    let mut count = 0;
    for place in 0..acts {
        let (shown, _) = books.member(place);
        if *pool == shown {
            count += 1;
        }
    }
    count
}

// How many members are told of the first members of all pools, behind which those of the others are told.
fn told_among(books: &Books, pool: &Option<Name>, acts: u64) -> u64
    requires { acts ≤ length books.now.members }
    ensures few { result ≤ length (told_members pool.now books.now.members) }
    ensures first { take result (told_members pool.now books.now.members) ≡ told_members pool.now (take acts books.now.members) }
    ensures behind { drop result (told_members pool.now books.now.members) ≡ told_members pool.now (drop acts books.now.members) }
{
    match pool {
        None => acts,
        Some(pool) => entries_among(books, pool, acts),
    }
}

// Writes that there are fewer acts.
fn write_no_act(buffer: &mut Vec<u8>, acts: u64)
    requires { vec_len buffer.old + LINE_BYTES ≤ vec_capacity buffer.old }
    ensures { buffer.new.items ≡ buffer.old.items ++ no_act_text acts }
{
    put(buffer, b"no act ");
    write_whole(buffer, acts);
    put(buffer, b"\n");
}

/// Prints what `print_history` prints of the entries behind the first acts of all pools, or the line that there are fewer acts. Gives
/// the status: `Done`, or `No` where there are fewer; `Memory`, told behind the text of the entries up to a publication, where there
/// was no memory to replay all that are before it; `Sink` where the sink failed.
///
/// The buffer is empty, and has room for `OUTPUT_BYTES`.
pub fn print_since<K: Sink>(
    alloc: Global,
    sink: &mut K,
    buffer: &mut Vec<u8>,
    books: &Books,
    pool: &Option<Name>,
    acts: u64,
) -> ExitStatus
    requires empty { buffer.old.items ≡ [] }
    requires len { vec_len buffer.old ≡ 0 }
    requires spare { OUTPUT_BYTES ≤ vec_capacity buffer.old }

    // What was written, and the status that tells of it.
    ensures wrote { Wrote (IsSinceDue acts pool.now books.now.members) (K.held sink.old) (K.held sink.new) result }
    ensures memory { result ≡ statuses.Memory → 0 < length (told_members pool.now (drop acts books.now.members)) }
    ensures write_fault { TellsSinkFault (K.faults sink.old) (K.faults sink.new) result }
{
    if books.len() < acts {
        write_no_act(buffer, acts);
        return end_with(sink, ExitStatus::No, buffer.as_slice());
    }
    let from = told_among(books, pool, acts);
    print_from(alloc, sink, buffer, books, pool, from)
}
