//! What an audit finds.
ghost use Rattle.std.specs.Prelude.{◌≡◌, ◌+◌, ◌≤◌, count_by, vec_len, vec_capacity};
ghost use Rattle.setoff_model.specs.declared.limits.TheConstants.{LINE_BYTES};
ghost use Rattle.setoff_model.specs.Writing.{Writes};
ghost use Rattle.weighed_round.specs.claim_history.specs.Acts.{is_publication};
ghost use Rattle.bureau_reports.specs.DiskTexts.{sound_text, unsound_text, unsound_status, IsTellable};

use journal_texts::{DeskCause, status_of_opening, write_opening_fault, write_told};
use setoff_model::{put, write_whole};
use weighed_round::{Books, ExitStatus};

// How many acts of all pools publish a round.
fn rounds_in(books: &Books) -> u64
    ensures { result ≡ count_by (λ m. is_publication m.entry.act) books.now.members }
{
    let len = books.len();
    let mut rounds = 0;
    for place in 0..len {
        let (_pool, entry) = books.member(place);
        if entry.act.publishes() {
            rounds += 1;
        }
    }
    rounds
}

/// Writes the line `yes acts N rounds M` of a journal that is sound, whose history is that of these books.
pub(crate) fn write_sound(buffer: &mut Vec<u8>, books: &Books)
    requires { vec_len buffer.old + LINE_BYTES ≤ vec_capacity buffer.old }
    ensures { Writes buffer.old buffer.new (sound_text books.now.members) LINE_BYTES }
{
    put(buffer, b"yes acts ");
    write_whole(buffer, books.len());
    put(buffer, b" rounds ");
    write_whole(buffer, rounds_in(books));
    put(buffer, b"\n");
}

/// Writes the line `no OFFSET ..` of a journal whose act at this offset is refused or full, or the fault line of one that was not
/// read. The numbers of a reply that it tells are in range.
pub(crate) fn write_unsound(buffer: &mut Vec<u8>, cause: DeskCause)
    requires tellable { IsTellable cause }
    requires spare { vec_len buffer.old + LINE_BYTES ≤ vec_capacity buffer.old }

    // What stands in the buffer then, and its room.
    ensures { Writes buffer.old buffer.new (unsound_text cause) LINE_BYTES }
{
    match cause {
        DeskCause::BadAct { .. } => write_told(buffer, b"no ", cause),
        DeskCause::Overfull { .. } => write_told(buffer, b"no ", cause),
        cause => write_opening_fault(buffer, cause),
    }
}

/// The status of a call that ends with it: `No`, or that of a disk that was not read.
pub(crate) fn status_of_unsound(cause: DeskCause) -> ExitStatus
    ensures { result ≡ unsound_status cause }
{
    match cause {
        DeskCause::BadAct { .. } => ExitStatus::No,
        DeskCause::Overfull { .. } => ExitStatus::No,
        cause => status_of_opening(cause),
    }
}
