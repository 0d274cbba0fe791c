//! From the bytes of an input to the requests of a load.
ghost use Rattle.journal_texts.specs.printed_text.specs.Statuses.{TellsSinkFault};
ghost use Rattle.journal_texts.specs.printed_text.specs.Writing.{Wrote};
ghost use Rattle.load_reading.specs.Reading.{IsFirstBadLoadLine, IsNoLoadText};
ghost use Rattle.load_command.specs.Due.{WroteInOrder};
ghost use Rattle.load_command.specs.Inputs.{IsLoadBadLineDue, IsInputDue};

use crate::serving::load_requests;
use bureau_edge::Sink;
use disk_model::Disk;
use group_runs::{ExitStatus, Witness, end_with, tell_no_memory, write_bad_line};
use load_reading::{LineCause, RequestError, read_load};
use setoff_model::limits::LINE_BYTES;
use std::alloc::Global;

// Tells the first line that is not in the grammar.
fn tell_bad_line<K: Sink>(
    alloc: Global,
    line: u64,
    cause: LineCause,
    input: &[u8],
    sink: &mut K,
) -> ExitStatus
    requires first { IsFirstBadLoadLine input.now line cause }
    requires none { IsNoLoadText input.now }
    ensures wrote { Wrote (IsLoadBadLineDue input.now) (K.held sink.old) (K.held sink.new) result }
    ensures write_fault { TellsSinkFault (K.faults sink.old) (K.faults sink.new) result }
{
    let Ok(mut buffer) = Vec::with_capacity(alloc, LINE_BYTES) else {
        return tell_no_memory(sink);
    };
    write_bad_line(&mut buffer, line, cause);
    end_with(sink, ExitStatus::Form, buffer.as_slice())
}

/// Reads the requests of an input, loads them into the journal of a disk, and prints what came of them. Before each text a witness is
/// shown the sink and the disk.
#[tactic(none)]
pub(crate) fn load_input<K: Sink, W: Witness<K, D>, D: Disk>(
    alloc: Global,
    input: &[u8],
    sink: &mut K,
    witness: &mut W,
    disk: D,
) -> (ExitStatus, D)
    ensures wrote { WroteInOrder D.seen result.1 (λ taken. IsInputDue D.seen taken disk result.1 input.now) (K.held sink.old)
        (K.held sink.new) (W.shown witness.old) (W.shown witness.new) result.0 }
    ensures write_fault { TellsSinkFault (K.faults sink.old) (K.faults sink.new) result.0 }
{
    match read_load(alloc, input) {
        Ok(batches) => load_requests(alloc, batches.as_slice(), sink, witness, disk),
        Err(RequestError::Memory) => (tell_no_memory(sink), disk),
        Err(RequestError::BadLine { line, cause }) => {
            (tell_bad_line(alloc, line, cause, input, sink), disk)
        }
    }
}
