//! The pages of one round.
ghost use Rattle.std.specs.Prelude.{◌≡◌, ◌≤◌, [], true, vec_len, vec_capacity};
ghost use Rattle.setoff_model.specs.declared.limits.TheConstants.{OUTPUT_BYTES};
ghost use Rattle.printed_text.specs.declared.exit_status.ExitStatus.TheVariants as statuses;
ghost use Rattle.printed_text.specs.Statuses.{TellsSinkFault};
ghost use Rattle.printed_text.specs.Writing.{Wrote};
ghost use Rattle.history_text.specs.Histories.{IsPartsDue, was_published};

use crate::round::print_in_form;
use crate::round_form::RoundForm;
use bureau_edge::Sink;
use printed_text::{Books, ExitStatus};
use setoff_model::Name;
use std::alloc::Global;

/// Prints a page for each party of the round of a pool that was published under a number, or the line that there is none. Gives the
/// status: `Done`, or `No` where there is none; `Memory`, which is all that is told then, where there was none to replay the entries up
/// to the publication or to list the claims of each party; `Sink` where the sink failed.
///
/// Beside what `print_round` takes, it takes 8 bytes a claim and 4 a party. The buffer is empty, and has room for `OUTPUT_BYTES`.
pub fn print_parts<K: Sink>(
    alloc: Global,
    sink: &mut K,
    buffer: &mut Vec<u8>,
    books: &Books,
    pool: Name,
    round: u32,
) -> ExitStatus
    requires empty { buffer.old.items ≡ [] }
    requires len { vec_len buffer.old ≡ 0 }
    requires spare { OUTPUT_BYTES ≤ vec_capacity buffer.old }

    // What was written, and the status that tells of it.
    ensures wrote { Wrote (IsPartsDue round pool books.now.members) (K.held sink.old) (K.held sink.new) result }
    ensures memory { result ≡ statuses.Memory → was_published round pool books.now.members ≡ true }
    ensures write_fault { TellsSinkFault (K.faults sink.old) (K.faults sink.new) result }
{
    print_in_form(alloc, RoundForm::Pages, sink, buffer, books, pool, round)
}
