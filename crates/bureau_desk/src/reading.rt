//! The reading of a journal without an opening: its records, and why they give no books.
ghost use Rattle.std.specs.Prelude.{ℕ, Bool, List, IfOk, IfErr};
ghost use Rattle.recorded_book.specs.round_journal.specs.Opened.{AreFound, IsQuiet};
ghost use Rattle.recorded_book.specs.round_journal.specs.Stops.{HasCause};
ghost use Rattle.bureau_desk.specs.Opening.{HasViewCause, IsToldAs, StopsAt};

use crate::desk_refused::DeskCause;
use journal_replay::{Record, ReplayStop};
use recorded_book::{Disk, JournalCause, read_records};
use std::alloc::Global;

/// The records of a disk's journal, which a `Desk::view` replays. It writes nothing. The causes of an Err are those of a view for which
/// the disk was not read or holds no records; Device has the counts of the disk before the call and after it.
pub fn records_of<D: Disk>(alloc: Global, disk: &mut D) -> Result<Vec<Record>, DeskCause>
    ensures found { IfOk result (λ records. AreFound (D.seen disk.old).tells (D.seen disk.old).reads records.items) }
    ensures err { IfErr result
        (HasViewCause (D.seen disk.old).tells (D.seen disk.old).reads (D.seen disk.old).count (D.seen disk.new).count) }
    ensures quiet { IsQuiet (D.seen disk.old) (D.seen disk.new) }
{
    match read_records(alloc, disk) {
        Ok(records) => Ok(records),
        Err(cause) => Err(journal_cause(cause)),
    }
}

/// The cause of a view whose records stop a replay.
pub fn replay_cause(stop: ReplayStop) -> DeskCause
    ensures { (tells : Bool) (bytes : List ℕ) (low high : ℕ) → StopsAt tells bytes stop → HasViewCause tells bytes low high result }
{
    match stop {
        ReplayStop::Memory => DeskCause::Memory,
        ReplayStop::BadAct { offset, reply } => DeskCause::BadAct { offset, reply },
        ReplayStop::Overfull { offset } => DeskCause::Overfull { offset },
    }
}

/// The cause of an opening or a view whose journal was not read.
pub(crate) fn journal_cause(cause: JournalCause) -> DeskCause
    ensures told { IsToldAs cause result }
    ensures has { (tells : Bool) (bytes : List ℕ) (low high : ℕ) → HasCause tells bytes low high cause
        → HasViewCause tells bytes low high result }
{
    match cause {
        JournalCause::Memory => DeskCause::Memory,
        JournalCause::Device { before, after } => DeskCause::Device { before, after },
        JournalCause::BadHeader => DeskCause::BadHeader,
        JournalCause::BadRecord { offset, why } => DeskCause::BadRecord { offset, why },
    }
}
