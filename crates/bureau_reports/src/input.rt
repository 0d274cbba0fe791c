//! Reports on an input.
ghost use Rattle.command_words.specs.declared.command.Command.TheVariants as commands;
ghost use Rattle.command_words.specs.Words.{IsCommand};
ghost use Rattle.weighed_round.specs.printed_text.specs.Statuses.{IsOneOf, TellsSinkFault};
ghost use Rattle.weighed_round.specs.printed_text.specs.Writing.{Wrote};
ghost use Rattle.bureau_reports.specs.Inputs.{IsInputDue, input_statuses};

use crate::check::check_input;
use crate::explain::explain_input;
use crate::import::import_input;
use bureau_edge::Sink;
use command_words::InputReport;
use std::alloc::Global;
use weighed_round::ExitStatus;

/// Reads an input, and prints the report on it. Gives the status: `Done`; `No` where a statement's prices do not prove its
/// discharges; `Form` where the input is not in form; `Memory` where there was none; `Sink` where the sink failed.
pub fn report_input<K: Sink>(
    alloc: Global,
    report: InputReport,
    input: &[u8],
    sink: &mut K,
) -> ExitStatus
    requires { IsCommand (commands.OnInput report) }
    ensures wrote { Wrote (IsInputDue report input.now) (K.held sink.old) (K.held sink.new) result }
    ensures among { IsOneOf input_statuses result }
    ensures write_fault { TellsSinkFault (K.faults sink.old) (K.faults sink.new) result }
{
    match report {
        InputReport::Check => check_input(alloc, input, sink),
        InputReport::Explain => explain_input(alloc, input, sink),
        InputReport::Import { lane } => import_input(alloc, input, lane, sink),
    }
}
