//! What stands before the batches of a run: a desk, and the lines of the abandonments.
ghost use Rattle.std.specs.Prelude.{◌≡◌, ◌≤◌, [], IfErr, IfOk, vec_capacity};
ghost use Rattle.setoff_model.specs.declared.limits.TheConstants.{OUTPUT_BYTES};
ghost use Rattle.live_runs.specs.printed_text.specs.Statuses.{TellsSinkFault};
ghost use Rattle.bureau_commands.specs.Due.{HasBegun, IsNotBegunDue, WroteTaking};

use bureau_edge::Sink;
use bureau_reports::tell_refused;
use disk_model::Disk;
use live_runs::{
    BatchAnswers, Desk, DeskRefused, ExitStatus, Witness, output_buffer, print_added,
    tell_no_memory,
};
use std::alloc::Global;

/// A desk on which no batch was served yet, and the buffer of the output.
#[derive(Drop)]
pub struct Begun<D: Disk> {
    /// The desk.
    pub desk: Desk<D>,
    /// The buffer, which is empty and has room for `OUTPUT_BYTES`.
    pub buffer: Vec<u8>,
}

/// The disk back, and the status, where no batch can be served.
#[derive(Drop)]
pub struct NotBegun<D> {
    /// What the call ends with.
    pub status: ExitStatus,
    /// The disk that was handed in.
    pub disk: D,
}

/// Opens a desk on a disk, shows a witness the sink and the disk, and then prints the abandonments of the rounds that its journal left
/// open.
///
/// An Err has told that there was no memory for the output, or why no desk was opened; or the sink failed.
pub fn begin<K: Sink, W: Witness<K, D>, D: Disk>(
    alloc: Global,
    sink: &mut K,
    witness: &mut W,
    disk: D,
) -> Result<Begun<D>, NotBegun<D>>
    ensures begun { IfOk result (λ b. HasBegun D.seen disk b.desk (K.held sink.old) (K.held sink.new)
        (W.shown witness.old) (W.shown witness.new)) }
    ensures empty { IfOk result (λ b. b.buffer.items ≡ []) }
    ensures room { IfOk result (λ b. OUTPUT_BYTES ≤ vec_capacity b.buffer) }
    ensures kept { IfOk result (λ _. K.faults sink.new ≡ K.faults sink.old) }

    // Or the end is told.
    ensures wrote { IfErr result (λ e. WroteTaking (λ output. IsNotBegunDue D.seen output disk e.disk) (K.held sink.old)
        (K.held sink.new) (W.shown witness.old) (W.shown witness.new) e.status) }
    ensures write_fault { IfErr result (λ e. TellsSinkFault (K.faults sink.old) (K.faults sink.new) e.status) }
{
    let Ok(mut buffer) = output_buffer(alloc) else {
        return Err(NotBegun {
            status: tell_no_memory(sink),
            disk,
        });
    };
    let desk = match Desk::open(alloc, disk) {
        Ok(desk) => desk,
        Err(DeskRefused { disk, cause }) => {
            return Err(NotBegun {
                status: tell_refused(sink, &mut buffer, cause),
                disk,
            });
        }
    };
    let from = desk.opened_with();
    let _books = desk.books();
    witness.show(sink, desk.disk());
    if print_added(sink, &mut buffer, &desk, from, BatchAnswers::Each(&[])).is_err() {
        return Err(NotBegun {
            status: ExitStatus::Sink,
            disk: desk.close(),
        });
    }
    Ok(Begun { desk, buffer })
}
