//! A statement that is not in form.
ghost use Rattle.std.specs.Str.Lines.{lines};
ghost use Rattle.command_words.specs.declared.input_report.InputReport.TheVariants as inputs;
ghost use Rattle.weighed_round.specs.statement_text.specs.Causes.{HasCause};
ghost use Rattle.weighed_round.specs.statement_text.specs.Statements as statements;
ghost use Rattle.weighed_round.specs.printed_text.specs.Statuses.{TellsSinkFault};
ghost use Rattle.weighed_round.specs.printed_text.specs.Writing.{Wrote};
ghost use Rattle.bureau_reports.specs.Inputs.{IsInputDue};

use bureau_edge::Sink;
use setoff_model::limits::LINE_BYTES;
use std::alloc::Global;
use weighed_round::{ExitStatus, StatementCause, end_with, tell_no_memory, write_bad_statement};

/// Tells the first line that is not in the grammar of statements.
#[tactic(auto, using(crate::proofs::Written::input_memory))]
pub(crate) fn tell_bad_statement<K: Sink>(
    alloc: Global,
    input: &[u8],
    line: u64,
    cause: StatementCause,
    sink: &mut K,
) -> ExitStatus
    requires first { statements.IsFirstBadLine (lines input.now) line }
    requires cause { HasCause (lines input.now) line cause }
    requires none { statements.IsNoStatement (lines input.now) }

    // What was told.
    ensures check { Wrote (IsInputDue inputs.Check input.now) (K.held sink.old) (K.held sink.new) result }
    ensures explain { Wrote (IsInputDue inputs.Explain input.now) (K.held sink.old) (K.held sink.new) result }
    ensures write_fault { TellsSinkFault (K.faults sink.old) (K.faults sink.new) result }
{
    let Ok(mut buffer) = Vec::with_capacity(alloc, LINE_BYTES) else {
        return tell_no_memory(sink);
    };
    write_bad_statement(&mut buffer, line, cause);
    end_with(sink, ExitStatus::Form, buffer.as_slice())
}
