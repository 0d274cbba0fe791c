//! The words `live`: the requests of a source, served on a desk while they are read.
ghost use Rattle.std.specs.Prelude.{◌≡◌, ◌≢◌, ◌≤◌, true, false, [], vec_capacity};
ghost use Rattle.setoff_model.specs.declared.limits.TheConstants.{OUTPUT_BYTES};
ghost use Rattle.live_runs.specs.fault_count.specs.Counts.{HasRisen};
ghost use Rattle.live_runs.specs.printed_text.specs.declared.exit_status.ExitStatus.TheVariants as statuses;
ghost use Rattle.live_runs.specs.printed_text.specs.Statuses.{TellsSinkFault};
ghost use Rattle.live_runs.specs.printed_text.specs.Texts.{bad_line_text};
ghost use Rattle.live_runs.specs.printed_text.specs.Writing.{IsWritten};
ghost use Rattle.bureau_commands.specs.Due.{IsLiveDue, WroteTaking, stop_status, stop_text};

use crate::opening::{Begun, NotBegun, begin};
use bureau_edge::{Sink, Source};
use disk_model::Disk;
use live_runs::{
    ExitStatus, Gate, Intake, Pause, Stop, Witness, end_with, serve_input, tell_no_memory,
    tell_read_fault, tell_too_long, write_bad_line,
};
use request_text::LineCause;
use setoff_model::limits::MOST_INPUT_BYTES;
use std::alloc::Global;
use std::sync::Wait;
use std::thread::Threads;

// Tells the first line that is not in the grammar.
#[tactic(none)]
fn tell_line<K: Sink>(sink: &mut K, buffer: &mut Vec<u8>, line: u64, cause: LineCause) -> ExitStatus
    requires empty { buffer.old.items ≡ [] }
    requires spare { OUTPUT_BYTES ≤ vec_capacity buffer.old }
    ensures written { IsWritten (K.held sink.old) (K.held sink.new) statuses.Form (bad_line_text line cause) result }
    ensures write_fault { TellsSinkFault (K.faults sink.old) (K.faults sink.new) result }
{
    write_bad_line(buffer, line, cause);
    end_with(sink, ExitStatus::Form, buffer.as_slice())
}

// Tells the fault by which the reading ended, where there was one. The other status is the one that is due for the lines.
#[tactic(none)]
fn tell_stop<K: Sink>(sink: &mut K, buffer: &mut Vec<u8>, stop: Stop, due: ExitStatus) -> ExitStatus
    requires due { due ≢ statuses.Sink }
    requires empty { buffer.old.items ≡ [] }
    requires spare { OUTPUT_BYTES ≤ vec_capacity buffer.old }

    // The text, and the status.
    ensures written { IsWritten (K.held sink.old) (K.held sink.new) (stop_status stop due) (stop_text stop) result }
    ensures write_fault { TellsSinkFault (K.faults sink.old) (K.faults sink.new) result }
{
    match stop {
        Stop::Fence => due,
        Stop::End => due,
        Stop::BadLine { line, cause } => tell_line(sink, buffer, line, cause),
        Stop::Failed => tell_read_fault(sink),
        Stop::TooLong => tell_too_long(sink),
        Stop::Memory => tell_no_memory(sink),
    }
}

// Whether the sink failed.
fn sink_failed(status: ExitStatus) -> bool
    ensures failed { result ≡ true → status ≡ statuses.Sink }
    ensures took { result ≡ false → status ≢ statuses.Sink }
{
    matches!(status, ExitStatus::Sink)
}

/// Reads requests from a source, serves each batch on a disk when its FENCE has come, and prints what came of it. Behind that it tells
/// the fault by which the reading ended, where there was one. Before the text of each batch a witness is shown the sink and the disk.
/// After a fault of the sink nothing more is served or told.
pub fn serve_source<
    R: Threads + Wait + Sync,
    S: Source,
    K: Sink,
    W: Witness<K, D>,
    D: Disk + Send + Sync,
    G: Gate + Sync,
    P: Pause + Sync,
>(
    rt: &R,
    alloc: Global,
    source: &mut S,
    sink: &mut K,
    witness: &mut W,
    disk: D,
    gate: &G,
    pause: &P,
) -> (ExitStatus, D)
    ensures wrote { WroteTaking (λ output. IsLiveDue S.left D.seen output source.old source.new disk result.1) (K.held sink.old)
        (K.held sink.new) (W.shown witness.old) (W.shown witness.new) result.0 }
    ensures read_fault { result.0 ≡ statuses.Source → HasRisen (S.faults source.old) (S.faults source.new) }
    ensures write_fault { TellsSinkFault (K.faults sink.old) (K.faults sink.new) result.0 }
{
    let Ok(intake) = Intake::new(alloc, MOST_INPUT_BYTES) else {
        return (tell_no_memory(sink), disk);
    };
    let Begun { desk, mut buffer } = match begin(alloc, sink, witness, disk) {
        Ok(begun) => begun,
        Err(NotBegun { status, disk }) => return (status, disk),
    };
    let (due, stop, desk) = serve_input(
        rt,
        alloc,
        intake,
        source,
        sink,
        witness,
        &mut buffer,
        desk,
        gate,
        pause,
    );
    let disk = desk.close();
    if sink_failed(due) {
        return (ExitStatus::Sink, disk);
    }
    (tell_stop(sink, &mut buffer, stop, due), disk)
}
