//! The batches of a load.
ghost use Rattle.std.specs.Prelude.{◌≡◌, ◌≤◌, [], vec_capacity};
ghost use Rattle.setoff_model.specs.declared.limits.TheConstants.{OUTPUT_BYTES};
ghost use Rattle.journal_texts.specs.DiskTexts.{told_counts};
ghost use Rattle.journal_texts.specs.printed_text.specs.declared.exit_status.ExitStatus.TheVariants as statuses;
ghost use Rattle.journal_texts.specs.printed_text.specs.Statuses.{TellsSinkFault};
ghost use Rattle.journal_texts.specs.printed_text.specs.Writing.{IsWritten};
ghost use Rattle.group_runs.specs.Runs.{CanAllBeLoaded};
ghost use Rattle.load_command.specs.Due.{IsLoadDue, WroteInOrder, device_text};

use crate::opening::{Begun, NotBegun, OutputRoom, begin};
use bureau_edge::Sink;
use disk_model::Disk;
use group_runs::{ExitStatus, LoadBreak, LoadStopped, Loader, Witness, load_batches};
use journal_texts::{DeskCause, tell_refused};
use load_reading::Batch;
use std::alloc::Global;

// Tells that the disk failed at a group, between these counts.
fn tell_device<K: Sink>(sink: &mut K, buffer: &mut Vec<u8>, before: u64, after: u64) -> ExitStatus
    requires empty { buffer.old.items ≡ [] }
    requires spare { OUTPUT_BYTES ≤ vec_capacity buffer.old }
    ensures written { IsWritten (K.held sink.old) (K.held sink.new) statuses.Disk (device_text before after) result }
    ensures write_fault { TellsSinkFault (K.faults sink.old) (K.faults sink.new) result }
{
    tell_refused(sink, buffer, DeskCause::Device { before, after })
}

/// Loads the requests of batches, none of which is a CLOSE, into the journal of a disk, and prints what came of them. Before each text a
/// witness is shown the sink and the disk.
pub fn load_requests<K: Sink, W: Witness<K, D>, D: Disk>(
    alloc: Global,
    batches: &[Batch],
    sink: &mut K,
    witness: &mut W,
    disk: D,
) -> (ExitStatus, D)
    requires can { CanAllBeLoaded batches.now }
    ensures wrote { WroteInOrder D.seen result.1 (λ taken. IsLoadDue D.seen taken disk result.1 batches.now) (K.held sink.old)
        (K.held sink.new) (W.shown witness.old) (W.shown witness.new) result.0 }
    ensures write_fault { TellsSinkFault (K.faults sink.old) (K.faults sink.new) result.0 }
{
    let Begun { loader, room } = match begin(alloc, sink, witness, disk) {
        Ok(begun) => begun,
        Err(NotBegun { status, disk }) => return (status, disk),
    };
    let OutputRoom {
        mut buffer,
        mut answers,
    } = room;
    match load_batches(loader, batches, &mut answers, sink, witness, &mut buffer) {
        Ok((status, disk)) => (status, disk),
        Err(LoadBreak::Sink { disk }) => (ExitStatus::Sink, disk),
        Err(LoadBreak::Disk(stopped)) => {
            let LoadStopped { disk, device } = stopped;
            (
                tell_device(sink, &mut buffer, device.before, device.after),
                disk,
            )
        }
    }
}
