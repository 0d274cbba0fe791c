//! Disks on which no desk was opened.
ghost use Rattle.std.specs.Prelude.{◌≡◌, ◌+◌, ◌≤◌, length, vec_len, vec_capacity};
ghost use Rattle.setoff_model.specs.declared.limits.TheConstants.{LINE_BYTES};
ghost use Rattle.setoff_model.specs.Writing.{Writes};
ghost use Rattle.journal_texts.specs.DiskTexts.{offset_of, record_why, fault_of, told_fault};
ghost use Rattle.journal_texts.specs.DiskTexts.{told_counts, opening_text, opening_status, IsTellable};

use bureau_desk::{DeskCause, RecordWhy};
use printed_text::{ExitStatus, write_reply};
use setoff_model::{put, write_whole};

fn offset_of(cause: DeskCause) -> u64
    ensures { result ≡ offset_of cause }
{
    match cause {
        DeskCause::BadRecord { offset, .. } => offset,
        DeskCause::BadAct { offset, .. } => offset,
        DeskCause::Overfull { offset } => offset,
        _ => 0,
    }
}

fn record_why(why: RecordWhy) -> &'static [u8]
    ensures text { result.now ≡ record_why why }
    ensures short { length result.now ≤ 5 }
{
    match why {
        RecordWhy::Short => b"short",
        RecordWhy::Body => b"body",
    }
}

fn write_fault(buffer: &mut Vec<u8>, cause: DeskCause)
    requires tellable { IsTellable cause }
    requires spare { vec_len buffer.old + 90 ≤ vec_capacity buffer.old }

    // What stands in the buffer then, and its room.
    ensures { Writes buffer.old buffer.new (fault_of cause) 90 }
{
    match cause {
        DeskCause::BadRecord { why, .. } => put(buffer, record_why(why)),
        DeskCause::BadAct { reply, .. } => write_reply(buffer, &reply),
        DeskCause::Overfull { .. } => put(buffer, b"full"),
        _ => put(buffer, b"header"),
    }
}

// Writes where the fault of a journal is and what it is, after a word.
pub fn write_told(buffer: &mut Vec<u8>, word: &[u8], cause: DeskCause)
    requires short { length word.now ≤ 20 }
    requires tellable { IsTellable cause }
    requires spare { vec_len buffer.old + LINE_BYTES ≤ vec_capacity buffer.old }

    // What stands in the buffer then, and its room.
    ensures { Writes buffer.old buffer.new (told_fault word.now cause) LINE_BYTES }
{
    put(buffer, word);
    write_whole(buffer, offset_of(cause));
    put(buffer, b" ");
    write_fault(buffer, cause);
    put(buffer, b"\n");
}

// Writes two counts after a word.
fn write_counts(buffer: &mut Vec<u8>, word: &[u8], before: u64, after: u64)
    requires short { length word.now ≤ 20 }
    requires spare { vec_len buffer.old + LINE_BYTES ≤ vec_capacity buffer.old }

    // What stands in the buffer then, and its room.
    ensures { Writes buffer.old buffer.new (told_counts word.now before after) LINE_BYTES }
{
    put(buffer, word);
    write_whole(buffer, before);
    put(buffer, b" ");
    write_whole(buffer, after);
    put(buffer, b"\n");
}

/// Writes the fault line of a disk on which no desk was opened. The numbers of a reply that it tells are in range.
pub fn write_opening_fault(buffer: &mut Vec<u8>, cause: DeskCause)
    requires tellable { IsTellable cause }
    requires spare { vec_len buffer.old + LINE_BYTES ≤ vec_capacity buffer.old }

    // What stands in the buffer then, and its room.
    ensures { Writes buffer.old buffer.new (opening_text cause) LINE_BYTES }
{
    match cause {
        DeskCause::Memory => put(buffer, b"fault memory\n"),
        DeskCause::Device { before, after } => {
            write_counts(buffer, b"fault device ", before, after)
        }
        DeskCause::BadHeader => write_told(buffer, b"fault journal ", cause),
        DeskCause::BadRecord { .. } => write_told(buffer, b"fault journal ", cause),
        DeskCause::BadAct { .. } => write_told(buffer, b"fault journal ", cause),
        DeskCause::Overfull { .. } => write_told(buffer, b"fault journal ", cause),
    }
}

/// The status of a call that ends with it: `Memory`, `Disk` or `Unsound`.
pub fn status_of_opening(cause: DeskCause) -> ExitStatus
    ensures { result ≡ opening_status cause }
{
    match cause {
        DeskCause::Memory => ExitStatus::Memory,
        DeskCause::Device { .. } => ExitStatus::Disk,
        _ => ExitStatus::Unsound,
    }
}
