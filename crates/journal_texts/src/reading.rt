//! What is told of an input that was not read.
ghost use Rattle.printed_text.specs.Statuses.{TellsSinkFault};
ghost use Rattle.journal_texts.specs.Calls.{IsToldUnread};

use bureau_edge::{ReadEnd, Sink};
use printed_text::{ExitStatus, tell_no_memory, tell_read_fault, tell_too_long};

/// Tells why an input was not read, and gives the status.
#[tactic(none)]
pub fn tell_unread<K: Sink>(end: ReadEnd, sink: &mut K) -> ExitStatus
    ensures written { IsToldUnread end (K.held sink.old) (K.held sink.new) result }
    ensures write_fault { TellsSinkFault (K.faults sink.old) (K.faults sink.new) result }
{
    match end {
        ReadEnd::Memory => tell_no_memory(sink),
        ReadEnd::Failed => tell_read_fault(sink),
        ReadEnd::TooLong => tell_too_long(sink),
    }
}
