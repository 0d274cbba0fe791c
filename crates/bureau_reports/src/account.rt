//! The register of a firm, which is written while the journal is replayed.
ghost use Rattle.std.specs.Prelude.{◌≡◌, [], ℕ, List, IfErr, IfOk, OnOk, true};
ghost use Rattle.journal_texts.specs.bureau_desk.specs.Opening.{HasViewCause};
ghost use Rattle.journal_texts.specs.bureau_desk.specs.act_bodies.specs.Bodies.{is_keepable};
ghost use Rattle.journal_texts.specs.bureau_desk.specs.journal_replay.specs.Replays.{AreSound, IsReplayed, StopsFirst, Tells};
ghost use Rattle.journal_texts.specs.bureau_desk.specs.journal_replay.specs.Replays.{history_of, recorded_call};
ghost use Rattle.journal_texts.specs.bureau_desk.specs.round_journal.specs.Opened.{IsQuiet};
ghost use Rattle.journal_texts.specs.bureau_desk.specs.round_journal.specs.Records.{AreKeepable};
ghost use Rattle.journal_summaries.specs.Replay.{IsRegister};
ghost use Rattle.bureau_reports.specs.Accounts.{TellsJournal, TellsRecords};

use disk_model::Disk;
use journal_summaries::{Register, account_status};
use journal_texts::{
    DeskCause, LimitedBooks, Record, ReplayStop, records_of, replay_cause, replay_next,
};
use setoff_model::Name;
use std::alloc::Global;
use weighed_round::ExitStatus;

/// What is told of the register of a firm: a text, and its status.
#[derive(Drop)]
pub(crate) struct Told {
    pub(crate) text: Vec<u8>,
    pub(crate) status: ExitStatus,
}

/// The register of a firm after the records of a disk's journal. It writes nothing to the disk. The causes of an Err are those of
/// `Desk::view`, and Memory comes where there is none for the register, too.
pub(crate) fn view_account<D: Disk>(
    alloc: Global,
    disk: &mut D,
    pool: Name,
    firm: Name,
) -> Result<Told, DeskCause>
    ensures ok { IfOk result (TellsJournal (D.seen disk.old).tells (D.seen disk.old).reads pool firm) }
    ensures err { IfErr result
        (HasViewCause (D.seen disk.old).tells (D.seen disk.old).reads (D.seen disk.old).count (D.seen disk.new).count) }
    ensures quiet { IsQuiet (D.seen disk.old) (D.seen disk.new) }
{
    let records = records_of(alloc, disk)?;
    match replay_account(alloc, records, pool, firm) {
        Ok(told) => Ok(told),
        Err(stop) => Err(replay_cause(stop)),
    }
}

// The register of a firm after these records.
fn replay_account(
    alloc: Global,
    records: Vec<Record>,
    pool: Name,
    firm: Name,
) -> Result<Told, ReplayStop>
    requires keepable { AreKeepable records.items }
    ensures told { IfOk result (TellsRecords pool firm records.items) }
    ensures stopped { IfErr result (StopsFirst records.items) }
{
    let mut books = LimitedBooks::new(alloc);
    let told = tell_records(alloc, &mut books, records, pool, firm);
    drop(books);
    told
}

// The same, with empty books, into which the records are put.
fn tell_records(
    alloc: Global,
    books: &mut LimitedBooks,
    records: Vec<Record>,
    pool: Name,
    firm: Name,
) -> Result<Told, ReplayStop>
    requires keepable { AreKeepable records.items }
    requires empty { books.old.members ≡ [] }
    ensures told { IfOk result (TellsRecords pool firm records.items) }
    ensures stopped { IfErr result (StopsFirst records.items) }
{
    let mut register = Register::new(alloc, pool, firm)?;
    put_records(alloc, books, &mut register, records)?;
    let known = books.books();
    let text = register.into_text(alloc, known)?;
    let status = account_status(known, &pool, &firm);
    Ok(Told { text, status })
}

// Puts the calls of records into empty books, and their rows into the register.
fn put_records(
    alloc: Global,
    books: &mut LimitedBooks,
    register: &mut Register,
    records: Vec<Record>,
) -> Result<(), ReplayStop>
    requires keepable { AreKeepable records.items }
    requires empty { books.old.members ≡ [] }

    // The books have the calls of all records, and the register has their rows; or this is why not.
    ensures history { OnOk result (books.new.members ≡ history_of records.items) }
    ensures sound { OnOk result (AreSound records.items) }
    ensures rows { OnOk result ((pool firm : List ℕ) → IsRegister pool firm [] register.old
        → IsRegister pool firm books.new.members register.new) }
    ensures stopped { IfErr result (StopsFirst records.items) }
{
    for kept in records {
        put_record(alloc, books, register, kept)?;
    }
    Ok(())
}

// Puts the call of a record at the end of the books, and its row into the register.
fn put_record(
    alloc: Global,
    books: &mut LimitedBooks,
    register: &mut Register,
    kept: Record,
) -> Result<(), ReplayStop>
    requires keepable { is_keepable (recorded_call kept) ≡ true }
    ensures done { OnOk result (IsReplayed books.old.members books.new.members (recorded_call kept)) }
    ensures rows { OnOk result ((pool firm : List ℕ) → IsRegister pool firm books.old.members register.old
        → IsRegister pool firm books.new.members register.new) }
    ensures stopped { IfErr result (Tells books.old.members kept.offset (recorded_call kept)) }
{
    let cut = replay_next(alloc, books, kept)?;
    register.put_last(alloc, books.books(), &cut)?;
    Ok(())
}
