//! The fault line of a disk that has no desk, or no books.
ghost use Rattle.std.specs.Prelude.{◌≡◌, ◌≤◌, [], vec_capacity};
ghost use Rattle.setoff_model.specs.declared.limits.TheConstants.{LINE_BYTES};
ghost use Rattle.journal_texts.specs.DiskTexts.{opening_status, opening_text, IsTellable};
ghost use Rattle.printed_text.specs.Statuses.{TellsSinkFault};
ghost use Rattle.printed_text.specs.Writing.{IsWritten};

use crate::fault_line::{status_of_opening, write_opening_fault};
use bureau_desk::DeskCause;
use bureau_edge::Sink;
use printed_text::{ExitStatus, end_with};

/// Tells why no desk was opened on a disk, or no books made of it, and says the status. The buffer is empty and has room for
/// `LINE_BYTES`.
#[tactic(none)]
pub fn tell_refused<K: Sink>(sink: &mut K, buffer: &mut Vec<u8>, cause: DeskCause) -> ExitStatus
    requires tellable { IsTellable cause }
    requires empty { buffer.old.items ≡ [] }
    requires spare { LINE_BYTES ≤ vec_capacity buffer.old }

    // What was told.
    ensures written { IsWritten (K.held sink.old) (K.held sink.new) (opening_status cause) (opening_text cause) result }
    ensures write_fault { TellsSinkFault (K.faults sink.old) (K.faults sink.new) result }
{
    write_opening_fault(buffer, cause);
    end_with(sink, status_of_opening(cause), buffer.as_slice())
}
