//! The statement of the round that a Close would publish now.
ghost use Rattle.std.specs.Prelude.{◌≡◌, ◌<◌, ◌≤◌, ◌++◌, [], IfOk, OnErr, OnOk, vec_capacity};
ghost use Rattle.std.specs.Io.KnownBytes.{Appends};
ghost use Rattle.setoff_model.specs.declared.limits.TheConstants.{MOST_ROUNDS, OUTPUT_BYTES};
ghost use Rattle.setoff_model.specs.CutView.{obligations};
ghost use Rattle.setoff_model.specs.Setoff.{IsOldestFirst, Proves};
ghost use Rattle.bureau_edge.specs.Streams.{AppendsPart, CountsFaults};
ghost use Rattle.printed_text.specs.claim_history.specs.States.{state_of};
ghost use Rattle.printed_text.specs.statement_text.specs.Statements.{statement_bytes};
ghost use Rattle.printed_text.specs.declared.exit_status.ExitStatus.TheVariants as statuses;
ghost use Rattle.printed_text.specs.Printing.{IsPrintable};
ghost use Rattle.printed_text.specs.Statuses.{TellsSinkFault};
ghost use Rattle.printed_text.specs.Writing.{IsWritten, Wrote};
ghost use Rattle.weighed_round.specs.Forecast.{IsForecastDue, next_cut_of};

use bureau_edge::{Failed, Sink};
use price_certificate::certified;
use printed_text::{Book, Day, ExitStatus, flush, print_statement, tell_no_memory};
use setoff_model::{Cut, Kind, Outcome};
use std::alloc::{AllocError, Global};
use weighted_setoff::LevelSolver;

// The cut that a Close would open now, and a greatest set-off of it with prices that prove it.
fn next_round(
    alloc: Global,
    book: &Book,
    kind: Kind,
    horizon: Day,
) -> Result<(Cut, Outcome), AllocError>
    requires few { (state_of book.now.history).openings < MOST_ROUNDS }
    ensures cut { IfOk result (λ r. r.0 ≡ next_cut_of book.now.history kind horizon) }
    ensures printable { IfOk result (λ r. IsPrintable r.0 r.1) }
    ensures oldest_first { IfOk result (λ r. IsOldestFirst (obligations r.0) r.1.discharges) }
{
    let cut = book.next_cut(alloc, kind, horizon)?;
    let checked = certified(alloc, &LevelSolver::new(), cut)?;
    Ok(checked.parts())
}

// Prints the statement of a cut and its outcome through an empty buffer.
fn print_whole<K: Sink>(
    sink: &mut K,
    buffer: &mut Vec<u8>,
    cut: &Cut,
    outcome: &Outcome,
) -> Result<(), Failed>
    requires printable { IsPrintable cut.now outcome.now }
    requires empty { buffer.old.items ≡ [] }
    requires spare { OUTPUT_BYTES ≤ vec_capacity buffer.old }

    // The text was taken, or the sink failed and took some first bytes of it.
    ensures ok { OnOk result (Appends (K.held sink.old) (K.held sink.new) (statement_bytes cut.now outcome.now)) }
    ensures part { OnErr result (AppendsPart (K.held sink.old) (K.held sink.new) (statement_bytes cut.now outcome.now)) }
    ensures cause { CountsFaults (K.faults sink.old) (K.faults sink.new) result }
{
    print_statement(sink, buffer, cut, outcome)?;
    flush(sink, buffer)
}

// The same, and gives the status.
fn tell_whole<K: Sink>(
    sink: &mut K,
    buffer: &mut Vec<u8>,
    cut: &Cut,
    outcome: &Outcome,
) -> ExitStatus
    requires printable { IsPrintable cut.now outcome.now }
    requires empty { buffer.old.items ≡ [] }
    requires spare { OUTPUT_BYTES ≤ vec_capacity buffer.old }

    // The text was taken, or the status tells that the sink failed.
    ensures written { IsWritten (K.held sink.old) (K.held sink.new) statuses.Done (statement_bytes cut.now outcome.now) result }
    ensures failed { TellsSinkFault (K.faults sink.old) (K.faults sink.new) result }
{
    match print_whole(sink, buffer, cut, outcome) {
        Ok(()) => ExitStatus::Done,
        Err(_) => ExitStatus::Sink,
    }
}

/// Prints the statement of the round that a Close of this kind and horizon would publish now, a round that is open being taken as
/// ended. Gives the status: `Done`; `Memory` where there was none to find the set-off; `Sink` where the sink failed.
///
/// Fewer than 2^32 - 1 rounds of the book were opened. The buffer is empty, and has room for `OUTPUT_BYTES`.
pub fn print_forecast<K: Sink>(
    alloc: Global,
    sink: &mut K,
    buffer: &mut Vec<u8>,
    book: &Book,
    kind: Kind,
    horizon: Day,
) -> ExitStatus
    requires few { (state_of book.now.history).openings < MOST_ROUNDS }
    requires empty { buffer.old.items ≡ [] }
    requires spare { OUTPUT_BYTES ≤ vec_capacity buffer.old }

    // What was due was taken, or the status tells that the sink failed.
    ensures wrote { Wrote (IsForecastDue kind horizon book.now.history) (K.held sink.old) (K.held sink.new) result }
    ensures write_fault { TellsSinkFault (K.faults sink.old) (K.faults sink.new) result }
{
    match next_round(alloc, book, kind, horizon) {
        Ok((cut, outcome)) => tell_whole(sink, buffer, &cut, &outcome),
        Err(_) => tell_no_memory(sink),
    }
}
