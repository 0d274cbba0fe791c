//! The words `check`: from the bytes of a statement to the line of its verdict.
ghost use Rattle.std.specs.Str.Lines.{lines};
ghost use Rattle.command_words.specs.declared.input_report.InputReport.TheVariants as inputs;
ghost use Rattle.weighed_round.specs.statement_text.specs.Statements.{IsStatement};
ghost use Rattle.weighed_round.specs.printed_text.specs.Statuses.{TellsSinkFault};
ghost use Rattle.weighed_round.specs.printed_text.specs.Writing.{Wrote};
ghost use Rattle.bureau_reports.specs.Inputs.{IsInputDue};

use crate::statement::tell_bad_statement;
use bureau_edge::Sink;
use setoff_checker::Checker;
use setoff_model::limits::LINE_BYTES;
use setoff_model::{Cut, Outcome};
use std::alloc::Global;
use weighed_round::{
    ExitStatus, StatementError, end_with, read_statement, status_of_verdict, tell_no_memory,
    write_verdict,
};

// Judges a statement that was read.
#[tactic(auto, using(crate::proofs::Written::input_memory))]
fn check_statement<K: Sink>(
    alloc: Global,
    input: &[u8],
    cut: &Cut,
    outcome: &Outcome,
    sink: &mut K,
) -> ExitStatus
    requires { IsStatement (lines input.now) cut.now outcome.now }
    ensures wrote { Wrote (IsInputDue inputs.Check input.now) (K.held sink.old) (K.held sink.new) result }
    ensures write_fault { TellsSinkFault (K.faults sink.old) (K.faults sink.new) result }
{
    let Ok(mut buffer) = Vec::with_capacity(alloc, LINE_BYTES) else {
        return tell_no_memory(sink);
    };
    let Ok(mut checker) = Checker::for_cut(alloc, cut) else {
        return tell_no_memory(sink);
    };
    let verdict = checker.verdict(cut, outcome);
    drop(checker);
    write_verdict(&mut buffer, cut, verdict);
    end_with(sink, status_of_verdict(verdict), buffer.as_slice())
}

/// Reads a statement from an input, judges it, and prints the verdict.
#[tactic(auto, using(crate::proofs::Written::input_memory))]
pub(crate) fn check_input<K: Sink>(alloc: Global, input: &[u8], sink: &mut K) -> ExitStatus
    ensures wrote { Wrote (IsInputDue inputs.Check input.now) (K.held sink.old) (K.held sink.new) result }
    ensures write_fault { TellsSinkFault (K.faults sink.old) (K.faults sink.new) result }
{
    match read_statement(alloc, input) {
        Ok((cut, outcome)) => check_statement(alloc, input, &cut, &outcome, sink),
        Err(StatementError::Memory) => tell_no_memory(sink),
        Err(StatementError::BadLine { line, cause }) => tell_bad_statement(
            alloc, input, line, cause, sink,
        ),
    }
}
