//! What stands before the groups of a load: a loader, and the lines of the abandonments.
ghost use Rattle.std.specs.Prelude.{◌≡◌, ◌≤◌, [], IfErr, IfOk, vec_capacity};
ghost use Rattle.setoff_model.specs.declared.limits.TheConstants.{OUTPUT_BYTES};
ghost use Rattle.journal_texts.specs.bureau_desk.specs.Opening.{IsDeskRefused};
ghost use Rattle.journal_texts.specs.printed_text.specs.Statuses.{TellsSinkFault};
ghost use Rattle.group_runs.specs.declared.limits.TheConstants.{GROUP_LINES};
ghost use Rattle.load_command.specs.Due.{HasLoadBegun, IsLoadBegun, IsLoadNotBegunDue, WroteInOrder};

use bureau_edge::Sink;
use disk_model::Disk;
use group_runs::{
    Answer, BatchAnswers, ExitStatus, GROUP_LINES, Loader, Witness, output_buffer, print_batch,
    tell_no_memory,
};
use journal_texts::{Desk, DeskRefused, tell_refused};
use std::alloc::{AllocError, Global};

/// A load of which no group was served yet, and what its printing takes.
#[derive(Drop)]
pub(crate) struct Begun<D: Disk> {
    /// The load.
    pub(crate) loader: Loader<D>,
    /// The buffer and the list of its output.
    pub(crate) room: OutputRoom,
}

/// What the printing of groups takes.
#[derive(Drop)]
pub(crate) struct OutputRoom {
    /// The buffer, which is empty and has room for `OUTPUT_BYTES`.
    pub(crate) buffer: Vec<u8>,
    /// A list with room for the answers of a group.
    pub(crate) answers: Vec<Answer>,
}

/// The disk back, and the status, where no group can be served.
#[derive(Drop)]
pub(crate) struct NotBegun<D> {
    /// What the load ends with.
    pub(crate) status: ExitStatus,
    /// The disk that was handed in.
    pub(crate) disk: D,
}

// A load on the journal of a disk, and how many members stood before the abandonments.
#[derive(Drop)]
struct Opened<D: Disk> {
    loader: Loader<D>,
    from: u64,
}

fn output_room(alloc: Global) -> Result<OutputRoom, AllocError>
    ensures empty { IfOk result (λ room. room.buffer.items ≡ []) }
    ensures spare { IfOk result (λ room. OUTPUT_BYTES ≤ vec_capacity room.buffer) }
    ensures list { IfOk result (λ room. GROUP_LINES ≤ vec_capacity room.answers) }
{
    let buffer = output_buffer(alloc)?;
    let answers = Vec::with_capacity(alloc, GROUP_LINES)?;
    Ok(OutputRoom { buffer, answers })
}

fn open_loader<D: Disk>(alloc: Global, disk: D) -> Result<Opened<D>, DeskRefused<D>>
    ensures opened { IfOk result (λ o. IsLoadBegun D.seen disk o.loader o.from) }
    ensures refused { IfErr result (λ e. IsDeskRefused (D.seen disk) (D.seen e.disk) e.cause) }
{
    let desk = match Desk::open(alloc, disk) {
        Ok(desk) => desk,
        Err(refused) => return Err(refused),
    };
    let from = desk.opened_with();
    let _books = desk.books();
    let (journal, books) = desk.into_parts();
    Ok(Opened {
        loader: Loader::new(alloc, journal, books),
        from,
    })
}

/// Begins a load on the journal of a disk, shows a witness the sink and the disk, and then prints the abandonments of the rounds that
/// the journal left open.
///
/// An Err has told that there was no memory for the output, or why the journal was not opened; or the sink failed.
pub(crate) fn begin<K: Sink, W: Witness<K, D>, D: Disk>(
    alloc: Global,
    sink: &mut K,
    witness: &mut W,
    disk: D,
) -> Result<Begun<D>, NotBegun<D>>
    ensures begun { IfOk result (λ b. HasLoadBegun D.seen disk b.loader (K.held sink.old) (K.held sink.new)
        (W.shown witness.old) (W.shown witness.new)) }
    ensures empty { IfOk result (λ b. b.room.buffer.items ≡ []) }
    ensures spare { IfOk result (λ b. OUTPUT_BYTES ≤ vec_capacity b.room.buffer) }
    ensures list { IfOk result (λ b. GROUP_LINES ≤ vec_capacity b.room.answers) }

    // Where none has begun, the reason was written or the sink failed. Else it did not fail.
    ensures kept { IfOk result (λ _. K.faults sink.new ≡ K.faults sink.old) }
    ensures wrote { IfErr result (λ e. WroteInOrder D.seen e.disk (λ taken. IsLoadNotBegunDue D.seen taken disk e.disk) (K.held sink.old)
        (K.held sink.new) (W.shown witness.old) (W.shown witness.new) e.status) }
    ensures write_fault { IfErr result (λ e. TellsSinkFault (K.faults sink.old) (K.faults sink.new) e.status) }
{
    let Ok(mut room) = output_room(alloc) else {
        return Err(NotBegun {
            status: tell_no_memory(sink),
            disk,
        });
    };
    let Opened { loader, from } = match open_loader(alloc, disk) {
        Ok(opened) => opened,
        Err(DeskRefused { disk, cause }) => {
            return Err(NotBegun {
                status: tell_refused(sink, &mut room.buffer, cause),
                disk,
            });
        }
    };
    witness.show(sink, loader.disk());
    let none = BatchAnswers::Each(&[]);
    if print_batch(sink, &mut room.buffer, loader.books(), from, &[], none).is_err() {
        return Err(NotBegun {
            status: ExitStatus::Sink,
            disk: loader.close(),
        });
    }
    Ok(Begun { loader, room })
}
