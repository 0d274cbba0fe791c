//! Invoices as requests: from the bytes of CSV to the lines that file them.
ghost use Rattle.command_words.specs.declared.input_report.InputReport.TheVariants as inputs;
ghost use Rattle.weighed_round.specs.request_text.specs.Lanes.{IsLane};
ghost use Rattle.weighed_round.specs.firm_notices.specs.Invoices.{IsFirstBadRow};
ghost use Rattle.weighed_round.specs.printed_text.specs.Statuses.{TellsSinkFault};
ghost use Rattle.weighed_round.specs.printed_text.specs.Writing.{Wrote};
ghost use Rattle.bureau_reports.specs.Inputs.{IsInputDue};

use bureau_edge::Sink;
use setoff_model::limits::LINE_BYTES;
use std::alloc::Global;
use weighed_round::{
    ExitStatus, ImportError, RowCause, end_with, import, tell_no_memory, write_bad_row,
};

// Tells the first row that is not in the grammar of invoices.
#[tactic(auto, using(crate::proofs::Written::input_memory))]
fn tell_bad_row<K: Sink>(
    alloc: Global,
    input: &[u8],
    lane: u32,
    row: u64,
    cause: RowCause,
    sink: &mut K,
) -> ExitStatus
    requires { IsFirstBadRow input.now row cause }
    ensures wrote { Wrote (IsInputDue (inputs.Import lane) input.now) (K.held sink.old) (K.held sink.new) result }
    ensures write_fault { TellsSinkFault (K.faults sink.old) (K.faults sink.new) result }
{
    let Ok(mut buffer) = Vec::with_capacity(alloc, LINE_BYTES) else {
        return tell_no_memory(sink);
    };
    write_bad_row(&mut buffer, row, cause);
    end_with(sink, ExitStatus::Form, buffer.as_slice())
}

/// Reads invoices from an input, and prints the lines of a lane that file them.
#[tactic(auto, using(crate::proofs::Written::input_memory))]
pub(crate) fn import_input<K: Sink>(
    alloc: Global,
    input: &[u8],
    lane: u32,
    sink: &mut K,
) -> ExitStatus
    requires { IsLane lane }
    ensures wrote { Wrote (IsInputDue (inputs.Import lane) input.now) (K.held sink.old) (K.held sink.new) result }
    ensures write_fault { TellsSinkFault (K.faults sink.old) (K.faults sink.new) result }
{
    match import(alloc, input, lane) {
        Ok(text) => end_with(sink, ExitStatus::Done, text.as_slice()),
        Err(ImportError::Memory) => tell_no_memory(sink),
        Err(ImportError::BadRow { row, cause }) => tell_bad_row(
            alloc, input, lane, row, cause, sink,
        ),
    }
}
