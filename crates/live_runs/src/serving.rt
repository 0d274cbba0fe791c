//! Batches that are served in turn while the input is read.
ghost use Rattle.std.specs.Prelude.{◌≡◌, ◌≢◌, ◌≤◌, [], true, vec_capacity, OnOk};
ghost use Rattle.batch_runs.specs.setoff_model.specs.declared.limits.TheConstants.{MOST_INPUT_BYTES, OUTPUT_BYTES};
ghost use Rattle.bureau_edge.specs.Streams.{CountsFaults};
ghost use Rattle.live_intake.specs.live_reading.specs.Fronts.{is_fence};
ghost use Rattle.live_intake.specs.live_reading.specs.Reading.{fence_lines};
ghost use Rattle.batch_runs.specs.printed_text.specs.declared.exit_status.ExitStatus.TheVariants as statuses;
ghost use Rattle.batch_runs.specs.printed_text.specs.Statuses.{TellsSinkFault};
ghost use Rattle.live_runs.specs.Serving.{HasServedInput, HasToldLive};

use batch_runs::{
    BatchAnswers, BatchEnd, Desk, ExitStatus, Gate, LevelSolver, Pause, Tally, Witness, answers_or,
    print_added,
};
use bureau_edge::{Failed, Sink, Source};
use disk_model::Disk;
use live_intake::{Intake, LiveEnd, Stop, run_live};
use std::alloc::Global;
use std::sync::Wait;
use std::thread::Threads;

// Whether a batch ended by a FENCE.
fn by_fence(stop: Stop) -> bool
    ensures { result ≡ is_fence stop }
{
    matches!(stop, Stop::Fence)
}

// How many lines behind those of its requests a batch has.
fn lines_behind(stop: Stop) -> u64
    ensures { result ≡ fence_lines stop }
{
    if by_fence(stop) {
        return 1;
    }
    0
}

// Serves the next batch of an input on a desk, counts in what came of it, shows a witness the sink and the disk, and then prints it.
// Gives the desk back, why the batch ended, and whether the sink took the text.
fn serve_next<
    R: Threads + Wait + Sync,
    S: Source,
    K: Sink,
    W: Witness<K, D>,
    D: Disk + Send + Sync,
    G: Gate + Sync,
    P: Pause + Sync,
>(
    rt: &R,
    alloc: Global,
    intake: &mut Intake,
    source: &mut S,
    sink: &mut K,
    witness: &mut W,
    buffer: &mut Vec<u8>,
    tally: &mut Tally,
    desk: Desk<D>,
    gate: &G,
    pause: &P,
) -> (Desk<D>, Stop, Result<(), Failed>)
    requires fenced { intake.old.fenced ≡ true }
    requires limit { intake.old.limit ≤ MOST_INPUT_BYTES }
    requires empty { buffer.old.items ≡ [] }
    requires spare { OUTPUT_BYTES ≤ vec_capacity buffer.old }

    // What was served and told.
    ensures told { HasToldLive D.seen S.left S.faults desk result.0 source.old source.new intake.old intake.new
        tally.old tally.new (K.held sink.old) (K.held sink.new) (W.shown witness.old) (W.shown witness.new) result.1 result.2 }
    ensures emptied { OnOk result.2 (buffer.new.items ≡ []) }
    ensures cause { CountsFaults (K.faults sink.old) (K.faults sink.new) result.2 }
    ensures room { OUTPUT_BYTES ≤ vec_capacity buffer.new }

    // The source.
    ensures later { S.faults source.old ≤ S.faults source.new }
{
    intake.batches();
    let from = desk.books().len();
    let before = intake.lines();
    let LiveEnd { end, stop } = run_live(
        rt,
        alloc,
        desk,
        intake,
        source,
        &LevelSolver::new(),
        gate,
        pause,
    );
    intake.batches();
    let count = intake.lines().saturating_sub(before + lines_behind(stop));
    let BatchEnd { desk, answers } = end;
    tally.add(count != 0, &answers, desk.books(), from);
    witness.show(sink, desk.disk());
    let first = before + 1;
    let lines = BatchAnswers::UnaskedLines {
        first,
        behind: first + count,
    };
    let told = answers_or(&answers, lines);
    let printed = print_added(sink, buffer, &desk, from, told);
    drop(answers);
    (desk, stop, printed)
}

/// Serves the batches of an input on a desk in turn while it is read, and prints what came of each after it was served. Before it is
/// printed a witness is shown the sink and the disk, on which all is that was accepted up to the end of the batch. Gives the status,
/// why the last batch ended, and the desk. The status is that of `run_batches`: `Sink` where the sink failed, which ends the
/// run; else `Memory` where there was none for a line, else `Disk` where a member of the history tells of a device, else `Limit`
/// where a line was full, else `Done`.
///
/// Nothing was taken of the input before, and at most `MOST_INPUT_BYTES` and one byte are. The buffer is empty and has room for
/// `OUTPUT_BYTES` of `printed_text`.
pub fn serve_input<
    R: Threads + Wait + Sync,
    S: Source,
    K: Sink,
    W: Witness<K, D>,
    D: Disk + Send + Sync,
    G: Gate + Sync,
    P: Pause + Sync,
>(
    rt: &R,
    alloc: Global,
    intake: Intake,
    source: &mut S,
    sink: &mut K,
    witness: &mut W,
    buffer: &mut Vec<u8>,
    desk: Desk<D>,
    gate: &G,
    pause: &P,
) -> (ExitStatus, Stop, Desk<D>)
    requires fresh { intake ≡ record {
      limit = MOST_INPUT_BYTES;
      taken = [];
      read = 0;
      lines = 0;
      served = 0;
      fenced = true;
    } }
    requires empty { buffer.old.items ≡ [] }
    requires spare { OUTPUT_BYTES ≤ vec_capacity buffer.old }

    // What was served and told.
    ensures served { HasServedInput D.seen (S.left source.old) (S.left source.new) (S.faults source.old) (S.faults source.new)
        desk result.2 (K.held sink.old) (K.held sink.new) (W.shown witness.old) (W.shown witness.new) result.1 result.0 }

    // A fault is told only where it was counted.
    ensures write_fault { TellsSinkFault (K.faults sink.old) (K.faults sink.new) result.0 }
    ensures later { K.faults sink.old ≤ K.faults sink.new }
    ensures no_read_fault { result.0 ≢ statuses.Source }

    // The buffer serves again where the sink did not fail.
    ensures emptied { result.0 ≢ statuses.Sink → buffer.new.items ≡ [] }
    ensures room { OUTPUT_BYTES ≤ vec_capacity buffer.new }
{
    let mut intake = intake;
    let mut desk = desk;
    let mut tally = Tally::new();
    intake.batches();
    loop {
        let (after, stop, printed) = serve_next(
            rt,
            alloc,
            &mut intake,
            source,
            sink,
            witness,
            buffer,
            &mut tally,
            desk,
            gate,
            pause,
        );
        desk = after;
        if printed.is_err() {
            return (ExitStatus::Sink, stop, desk);
        }
        if !by_fence(stop) {
            return (tally.status(), stop, desk);
        }
        intake.batches();
    }
}
