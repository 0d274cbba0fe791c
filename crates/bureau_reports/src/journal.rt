//! Reports on a journal.
ghost use Rattle.std.specs.Prelude.{◌≡◌, ◌≤◌, [], Some, None, IfOk, vec_len, vec_capacity};
ghost use Rattle.weighed_round.specs.fault_count.specs.Counts.{HasRisen};
ghost use Rattle.journal_texts.specs.bureau_desk.specs.round_journal.specs.Opened.{IsQuiet};
ghost use Rattle.weighed_round.specs.printed_text.specs.declared.exit_status.ExitStatus.TheVariants as statuses;
ghost use Rattle.weighed_round.specs.printed_text.specs.Statuses.{IsOneOf, TellsSinkFault};
ghost use Rattle.weighed_round.specs.printed_text.specs.Writing.{IsWritten, Wrote};
ghost use Rattle.setoff_model.specs.declared.limits.TheConstants.{OUTPUT_BYTES};
ghost use Rattle.bureau_reports.specs.DiskTexts.{IsTellable, sound_text};
ghost use Rattle.bureau_reports.specs.Journals.{IsBookDue, HasFewOpenings, IsJournalDue, IsMade, IsTextOf};
ghost use Rattle.bureau_reports.specs.Journals.{firm_of, journal_statuses, report_status, unviewed_status, unviewed_text};

use crate::account::view_account;
use crate::sound_line::{status_of_unsound, write_sound, write_unsound};
use bureau_edge::Sink;
use command_words::JournalReport;
use disk_model::Disk;
use history_text::{print_history, print_parts, print_round, print_since};
use journal_summaries::{pools, seal, seal_status};
use journal_texts::{Desk, DeskCause, status_of_opening, write_opening_fault};
use setoff_model::Name;
use setoff_model::limits::LINE_BYTES;
use std::alloc::{AllocError, Global};
use weighed_round::{
    Books, ExitStatus, end_with, notices, output_buffer, positions, print_forecast, tell_no_memory,
    weigh,
};

// The line of an audit of a sound journal.
fn sound_line(alloc: Global, books: &Books) -> Result<Vec<u8>, AllocError>
    ensures { IfOk result (λ text. text.items ≡ sound_text books.now.members) }
{
    let mut line = Vec::with_capacity(alloc, LINE_BYTES)?;
    write_sound(&mut line, books);
    Ok(line)
}

// What a report tells of the books of all pools that makes its text.
fn text_of(alloc: Global, report: &JournalReport, books: &Books) -> Result<Vec<u8>, AllocError>
    requires { IsMade report.now }
    ensures { IfOk result (λ text. IsTextOf report.now books.now.members text.items) }
{
    let book = books.book(&report.pool());
    match report {
        JournalReport::Audit => sound_line(alloc, books),
        JournalReport::Positions { .. } => positions(alloc, book),
        JournalReport::Notices { today, .. } => notices(alloc, book, *today),
        JournalReport::Weigh { kind, today } => weigh(alloc, book, *kind, *today),
        JournalReport::Pools => pools(alloc, books),
        JournalReport::Seal { acts } => seal(alloc, books, *acts),
        JournalReport::Account { .. } => unreachable!(),
        JournalReport::History { .. } => unreachable!(),
        JournalReport::Statement { .. } => unreachable!(),
        JournalReport::Since { .. } => unreachable!(),
        JournalReport::Parts { .. } => unreachable!(),
        JournalReport::Forecast { .. } => unreachable!(),
    }
}

// The status of that.
fn status_of(report: &JournalReport, books: &Books) -> ExitStatus
    requires { IsMade report.now }
    ensures { result ≡ report_status report.now books.now.members }
{
    match report {
        JournalReport::Audit => ExitStatus::Done,
        JournalReport::Positions { .. } => ExitStatus::Done,
        JournalReport::Notices { .. } => ExitStatus::Done,
        JournalReport::Weigh { .. } => ExitStatus::Done,
        JournalReport::Pools => ExitStatus::Done,
        JournalReport::Seal { acts } => seal_status(books, *acts),
        JournalReport::Account { .. } => unreachable!(),
        JournalReport::History { .. } => unreachable!(),
        JournalReport::Statement { .. } => unreachable!(),
        JournalReport::Since { .. } => unreachable!(),
        JournalReport::Parts { .. } => unreachable!(),
        JournalReport::Forecast { .. } => unreachable!(),
    }
}

// Writes why there are no books, as the report tells it.
fn write_unviewed(buffer: &mut Vec<u8>, report: &JournalReport, cause: DeskCause)
    requires tellable { IsTellable cause }
    requires empty { buffer.old.items ≡ [] }
    requires spare { LINE_BYTES ≤ vec_capacity buffer.old }
    ensures { buffer.new.items ≡ unviewed_text report.now cause }
{
    match report {
        JournalReport::Audit => write_unsound(buffer, cause),
        JournalReport::Positions { .. } => write_opening_fault(buffer, cause),
        JournalReport::Notices { .. } => write_opening_fault(buffer, cause),
        JournalReport::Weigh { .. } => write_opening_fault(buffer, cause),
        JournalReport::History { .. } => write_opening_fault(buffer, cause),
        JournalReport::Statement { .. } => write_opening_fault(buffer, cause),
        JournalReport::Pools => write_opening_fault(buffer, cause),
        JournalReport::Since { .. } => write_opening_fault(buffer, cause),
        JournalReport::Seal { .. } => write_opening_fault(buffer, cause),
        JournalReport::Account { .. } => write_opening_fault(buffer, cause),
        JournalReport::Parts { .. } => write_opening_fault(buffer, cause),
        JournalReport::Forecast { .. } => write_opening_fault(buffer, cause),
    }
}

// The status of that.
fn status_of_unviewed(report: &JournalReport, cause: DeskCause) -> ExitStatus
    ensures { result ≡ unviewed_status report.now cause }
{
    match report {
        JournalReport::Audit => status_of_unsound(cause),
        JournalReport::Positions { .. } => status_of_opening(cause),
        JournalReport::Notices { .. } => status_of_opening(cause),
        JournalReport::Weigh { .. } => status_of_opening(cause),
        JournalReport::History { .. } => status_of_opening(cause),
        JournalReport::Statement { .. } => status_of_opening(cause),
        JournalReport::Pools => status_of_opening(cause),
        JournalReport::Since { .. } => status_of_opening(cause),
        JournalReport::Seal { .. } => status_of_opening(cause),
        JournalReport::Account { .. } => status_of_opening(cause),
        JournalReport::Parts { .. } => status_of_opening(cause),
        JournalReport::Forecast { .. } => status_of_opening(cause),
    }
}

// Prints a text that the report makes of the books, or that there was no memory for it.
#[tactic(none)]
fn print_made<K: Sink>(
    alloc: Global,
    report: &JournalReport,
    books: &Books,
    sink: &mut K,
) -> ExitStatus
    requires { IsMade report.now }
    ensures wrote { Wrote (IsBookDue report.now books.now.members) (K.held sink.old) (K.held sink.new) result }
    ensures write_fault { TellsSinkFault (K.faults sink.old) (K.faults sink.new) result }
{
    match text_of(alloc, report, books) {
        Ok(text) => end_with(sink, status_of(report, books), text.as_slice()),
        Err(_) => tell_no_memory(sink),
    }
}

// Prints what the report tells of the books of all pools.
#[tactic(none)]
fn print_books<K: Sink>(
    alloc: Global,
    report: &JournalReport,
    books: &Books,
    sink: &mut K,
    buffer: &mut Vec<u8>,
) -> ExitStatus
    requires no_register { firm_of report.now ≡ None }
    requires few { HasFewOpenings books.now.members }
    requires empty { buffer.old.items ≡ [] }
    requires len { vec_len buffer.old ≡ 0 }
    requires spare { OUTPUT_BYTES ≤ vec_capacity buffer.old }

    // What was told.
    ensures wrote { Wrote (IsBookDue report.now books.now.members) (K.held sink.old) (K.held sink.new) result }
    ensures write_fault { TellsSinkFault (K.faults sink.old) (K.faults sink.new) result }
{
    match report {
        JournalReport::Audit => print_made(alloc, report, books, sink),
        JournalReport::Positions { .. } => print_made(alloc, report, books, sink),
        JournalReport::Notices { .. } => print_made(alloc, report, books, sink),
        JournalReport::Weigh { .. } => print_made(alloc, report, books, sink),
        JournalReport::Pools => print_made(alloc, report, books, sink),
        JournalReport::Seal { .. } => print_made(alloc, report, books, sink),
        JournalReport::Account { .. } => unreachable!(),
        JournalReport::History { pool } => print_history(alloc, sink, buffer, books, pool),
        JournalReport::Statement { round, .. } => {
            print_round(alloc, sink, buffer, books, report.pool(), *round)
        }
        JournalReport::Since { acts, pool } => {
            print_since(alloc, sink, buffer, books, pool, u64::from(*acts))
        }
        JournalReport::Parts { round, .. } => {
            print_parts(alloc, sink, buffer, books, report.pool(), *round)
        }
        JournalReport::Forecast { kind, horizon, .. } => print_forecast(
            alloc,
            sink,
            buffer,
            books.book(&report.pool()),
            *kind,
            *horizon,
        ),
    }
}

// The firm whose register a report is, if it is one.
fn firm_of(report: &JournalReport) -> Option<Name>
    ensures { result ≡ firm_of report.now }
{
    match report {
        JournalReport::Account { firm, .. } => Some(*firm),
        _ => None,
    }
}

// Prints why there are no books.
#[tactic(none)]
fn print_unviewed<K: Sink>(
    report: &JournalReport,
    cause: DeskCause,
    sink: &mut K,
    buffer: &mut Vec<u8>,
) -> ExitStatus
    requires tellable { IsTellable cause }
    requires empty { buffer.old.items ≡ [] }
    requires spare { OUTPUT_BYTES ≤ vec_capacity buffer.old }

    // What was told.
    ensures written { IsWritten (K.held sink.old) (K.held sink.new) (unviewed_status report.now cause) (unviewed_text report.now cause) result }
    ensures write_fault { TellsSinkFault (K.faults sink.old) (K.faults sink.new) result }
{
    write_unviewed(buffer, report, cause);
    end_with(sink, status_of_unviewed(report, cause), buffer.as_slice())
}

// Replays the journal of a disk, and prints a report that is no register.
#[tactic(none)]
fn print_view<K: Sink, D: Disk>(
    alloc: Global,
    report: &JournalReport,
    sink: &mut K,
    disk: &mut D,
    buffer: &mut Vec<u8>,
) -> ExitStatus
    requires no_register { firm_of report.now ≡ None }
    requires empty { buffer.old.items ≡ [] }
    requires len { vec_len buffer.old ≡ 0 }
    requires spare { OUTPUT_BYTES ≤ vec_capacity buffer.old }

    // What was told.
    ensures wrote { Wrote (IsJournalDue report.now (D.seen disk.old).tells (D.seen disk.old).reads (D.seen disk.old).count
        (D.seen disk.new).count) (K.held sink.old) (K.held sink.new) result }
    ensures write_fault { TellsSinkFault (K.faults sink.old) (K.faults sink.new) result }
    ensures quiet { IsQuiet (D.seen disk.old) (D.seen disk.new) }
{
    match Desk::view(alloc, disk) {
        Ok(books) => {
            let _len = books.len();
            let status = print_books(alloc, report, &books, sink, buffer);
            drop(books);
            status
        }
        Err(cause) => print_unviewed(report, cause, sink, buffer),
    }
}

// Replays the journal of a disk, and prints the register of a firm.
#[tactic(none)]
fn print_account<K: Sink, D: Disk>(
    alloc: Global,
    report: &JournalReport,
    firm: Name,
    sink: &mut K,
    disk: &mut D,
    buffer: &mut Vec<u8>,
) -> ExitStatus
    requires register { firm_of report.now ≡ Some firm }
    requires empty { buffer.old.items ≡ [] }
    requires spare { OUTPUT_BYTES ≤ vec_capacity buffer.old }

    // What was told.
    ensures wrote { Wrote (IsJournalDue report.now (D.seen disk.old).tells (D.seen disk.old).reads (D.seen disk.old).count
        (D.seen disk.new).count) (K.held sink.old) (K.held sink.new) result }
    ensures write_fault { TellsSinkFault (K.faults sink.old) (K.faults sink.new) result }
    ensures quiet { IsQuiet (D.seen disk.old) (D.seen disk.new) }
{
    match view_account(alloc, disk, report.pool(), firm) {
        Ok(told) => end_with(sink, told.status, told.text.as_slice()),
        Err(cause) => print_unviewed(report, cause, sink, buffer),
    }
}

/// Replays the journal of a disk, and prints the report on it. It writes nothing to the disk. Gives the status: `Done`; `No` where
/// an audit finds an act that is refused or full, or where the journal does not have the round, the firm or the acts that the report
/// asks for; `Disk`, `Unsound` or `Memory` where the disk was not read or holds no sound journal; `Sink` where the sink failed.
#[tactic(none)]
pub fn report_journal<K: Sink, D: Disk>(
    alloc: Global,
    report: JournalReport,
    sink: &mut K,
    disk: &mut D,
) -> ExitStatus
    ensures wrote { Wrote (IsJournalDue report (D.seen disk.old).tells (D.seen disk.old).reads (D.seen disk.old).count
        (D.seen disk.new).count) (K.held sink.old) (K.held sink.new) result }
    ensures among { IsOneOf journal_statuses result }
    ensures quiet { IsQuiet (D.seen disk.old) (D.seen disk.new) }

    // A fault is told only where it was counted.
    ensures write_fault { TellsSinkFault (K.faults sink.old) (K.faults sink.new) result }
    ensures disk_fault { result ≡ statuses.Disk → HasRisen (D.seen disk.old).count (D.seen disk.new).count }
{
    let Ok(mut buffer) = output_buffer(alloc) else {
        return tell_no_memory(sink);
    };
    match firm_of(&report) {
        Some(firm) => print_account(alloc, &report, firm, sink, disk, &mut buffer),
        None => print_view(alloc, &report, sink, disk, &mut buffer),
    }
}
