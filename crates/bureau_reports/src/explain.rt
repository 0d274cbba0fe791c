//! The words `explain`: from the bytes of a statement to the chains of its round.
ghost use Rattle.std.specs.Prelude.{◌≡◌, ◌≤◌, [], vec_capacity};
ghost use Rattle.std.specs.Str.Lines.{lines};
ghost use Rattle.setoff_model.specs.declared.limits.TheConstants.{OUTPUT_BYTES};
ghost use Rattle.command_words.specs.declared.input_report.InputReport.TheVariants as inputs;
ghost use Rattle.weighed_round.specs.statement_text.specs.Statements.{IsStatement};
ghost use Rattle.weighed_round.specs.printed_text.specs.Statuses.{TellsSinkFault};
ghost use Rattle.weighed_round.specs.printed_text.specs.Writing.{Wrote};
ghost use Rattle.bureau_reports.specs.Inputs.{IsInputDue};

use crate::statement::tell_bad_statement;
use bureau_edge::Sink;
use chain_text::{Explainer, chains_explain, print_chains};
use setoff_checker::{Checked, Checker, Refusal};
use setoff_model::{Cut, Outcome};
use std::alloc::Global;
use weighed_round::{
    ExitStatus, StatementError, end_with, output_buffer, read_statement, status_of_verdict,
    tell_no_memory, write_verdict,
};

// Prints the chains of an outcome that is proved, through an empty buffer.
#[tactic(auto, using(crate::proofs::Written::input_memory))]
fn explain_checked<K: Sink>(
    alloc: Global,
    input: &[u8],
    checked: Checked,
    buffer: &mut Vec<u8>,
    sink: &mut K,
) -> ExitStatus
    requires stated { IsStatement (lines input.now) checked.cut checked.outcome }
    requires empty { buffer.old.items ≡ [] }
    requires room { OUTPUT_BYTES ≤ vec_capacity buffer.old }

    // What was told.
    ensures wrote { Wrote (IsInputDue inputs.Explain input.now) (K.held sink.old) (K.held sink.new) result }
    ensures write_fault { TellsSinkFault (K.faults sink.old) (K.faults sink.new) result }
{
    chains_explain();
    let Ok(mut explainer) = Explainer::for_round(alloc, checked) else {
        return tell_no_memory(sink);
    };
    match print_chains(sink, buffer, &mut explainer) {
        Ok(()) => ExitStatus::Done,
        Err(_) => ExitStatus::Sink,
    }
}

// Judges a statement that was read, and prints its chains where it is proved, else the verdict.
#[tactic(auto, using(crate::proofs::Written::input_memory))]
fn explain_statement<K: Sink>(
    alloc: Global,
    input: &[u8],
    cut: Cut,
    outcome: Outcome,
    sink: &mut K,
) -> ExitStatus
    requires { IsStatement (lines input.now) cut outcome }
    ensures wrote { Wrote (IsInputDue inputs.Explain input.now) (K.held sink.old) (K.held sink.new) result }
    ensures write_fault { TellsSinkFault (K.faults sink.old) (K.faults sink.new) result }
{
    let Ok(mut buffer) = output_buffer(alloc) else {
        return tell_no_memory(sink);
    };
    let Ok(checker) = Checker::for_cut(alloc, &cut) else {
        return tell_no_memory(sink);
    };
    match checker.certify(cut, outcome) {
        Ok(checked) => explain_checked(alloc, input, checked, &mut buffer, sink),
        Err(
            Refusal {
                cut,
                outcome: _,
                verdict,
            },
        ) => {
            write_verdict(&mut buffer, &cut, verdict);
            end_with(sink, status_of_verdict(verdict), buffer.as_slice())
        }
    }
}

/// Reads a statement from an input, and prints the chains that explain it where its prices prove its discharges, else the verdict.
#[tactic(auto, using(crate::proofs::Written::input_memory))]
pub(crate) fn explain_input<K: Sink>(alloc: Global, input: &[u8], sink: &mut K) -> ExitStatus
    ensures wrote { Wrote (IsInputDue inputs.Explain input.now) (K.held sink.old) (K.held sink.new) result }
    ensures write_fault { TellsSinkFault (K.faults sink.old) (K.faults sink.new) result }
{
    match read_statement(alloc, input) {
        Ok((cut, outcome)) => explain_statement(alloc, input, cut, outcome, sink),
        Err(StatementError::Memory) => tell_no_memory(sink),
        Err(StatementError::BadLine { line, cause }) => tell_bad_statement(
            alloc, input, line, cause, sink,
        ),
    }
}
