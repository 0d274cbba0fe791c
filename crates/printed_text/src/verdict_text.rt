//! The line of a verdict.
ghost use Rattle.std.specs.Prelude.{◌≡◌, ◌+◌, ◌≤◌, ◌<◌, ◌++◌, length, codes, unsigned_abs, vec_len, vec_capacity};
ghost use Rattle.printed_text.specs.Texts.{verdict_text, verdict_words, verdict_status, IsPlaced, creditor_at, invoice_at, firm_at};
ghost use Rattle.setoff_model.specs.declared.limits.TheConstants.{LINE_BYTES};
ghost use Rattle.setoff_model.specs.Texts.{cents_text};
ghost use Rattle.setoff_model.specs.Writing.{Writes};
ghost use Rattle.printed_text.specs.declared.verdict_text.TheConstants.{WORDS_BYTES};

use crate::exit_status::ExitStatus;
use served_lines::Verdict;
use setoff_model::{Cut, Key, Name, put, write_cents};

// The bytes that the words of a verdict take at most.
const WORDS_BYTES: usize = 150;

/// `Done` where the set-off was found greatest, else `No`.
pub fn status_of_verdict(verdict: Verdict) -> ExitStatus
    ensures { result ≡ verdict_status verdict }
{
    match verdict {
        Verdict::Greatest { .. } => ExitStatus::Done,
        _ => ExitStatus::No,
    }
}

// The claim and the firm at a place of a cut.
fn key_at(cut: &Cut, claim: u32) -> Key
    requires { claim < length cut.now.claims }
    ensures creditor { result.creditor ≡ creditor_at cut.now claim }
    ensures invoice { result.invoice ≡ invoice_at cut.now claim }
{
    cut.claims()[claim as usize].key
}

fn firm_of(cut: &Cut, party: u32) -> Name
    requires { party < length cut.now.parties }
    ensures { result ≡ firm_at cut.now party }
{
    cut.parties()[party as usize].firm
}

fn write_named(buffer: &mut Vec<u8>, what: &[u8], name: &Name)
    requires short { length what.now ≤ 40 }
    requires spare { vec_len buffer.old + 60 ≤ vec_capacity buffer.old }

    // What stands in the buffer then, and its room.
    ensures { Writes buffer.old buffer.new (what.now ++ name.now) 60 }
{
    put(buffer, what);
    put(buffer, name.bytes());
}

fn write_over_amount(buffer: &mut Vec<u8>, key: &Key)
    requires { vec_len buffer.old + WORDS_BYTES ≤ vec_capacity buffer.old }
    ensures { Writes buffer.old buffer.new (codes "no over-amount " ++ key.now.creditor ++ codes " " ++ key.now.invoice) WORDS_BYTES }
{
    write_named(buffer, b"no over-amount ", &key.creditor);
    write_named(buffer, b" ", &key.invoice);
}

fn write_named_cents(buffer: &mut Vec<u8>, what: &[u8], cents: u128)
    requires short { length what.now ≤ 15 }
    requires spare { vec_len buffer.old + 75 ≤ vec_capacity buffer.old }

    // What stands in the buffer then, and its room.
    ensures { Writes buffer.old buffer.new (what.now ++ cents_text cents) 75 }
{
    put(buffer, what);
    write_cents(buffer, cents);
}

fn write_not_proved(buffer: &mut Vec<u8>, total: u64, bound: i128)
    requires { vec_len buffer.old + WORDS_BYTES ≤ vec_capacity buffer.old }
    ensures { Writes buffer.old buffer.new
        (codes "no not-proved " ++ cents_text total ++ codes " " ++ cents_text (unsigned_abs bound)) WORDS_BYTES }
{
    write_named_cents(buffer, b"no not-proved ", u128::from(total));
    write_named_cents(buffer, b" ", bound.unsigned_abs());
}

fn write_words(buffer: &mut Vec<u8>, cut: &Cut, verdict: Verdict)
    requires placed { IsPlaced cut.now verdict }
    requires spare { vec_len buffer.old + WORDS_BYTES ≤ vec_capacity buffer.old }

    // What stands in the buffer then, and its room.
    ensures { Writes buffer.old buffer.new (verdict_words cut.now verdict) WORDS_BYTES }
{
    match verdict {
        Verdict::Greatest { total } => write_named_cents(buffer, b"yes ", u128::from(total)),
        Verdict::Lengths => put(buffer, b"no lengths"),
        Verdict::OverAmount { claim } => write_over_amount(buffer, &key_at(cut, claim)),
        Verdict::OutsideWindow { party } => {
            let firm = firm_of(cut, party);
            write_named(buffer, b"no outside-window ", &firm);
        }
        Verdict::PriceRange { party } => {
            let firm = firm_of(cut, party);
            write_named(buffer, b"no price-range ", &firm);
        }
        Verdict::NotProved { total, bound } => write_not_proved(buffer, total, bound),
    }
}

/// Writes the line of a verdict on an outcome for a cut, `yes TOTAL` or `no CAUSE ..`; a claim or a party is told by its name. The
/// caller gives room for `LINE_BYTES` behind what the buffer has, and so there is no error.
pub fn write_verdict(buffer: &mut Vec<u8>, cut: &Cut, verdict: Verdict)
    requires placed { IsPlaced cut.now verdict }
    requires spare { vec_len buffer.old + LINE_BYTES ≤ vec_capacity buffer.old }

    // What stands in the buffer then, and its room.
    ensures { Writes buffer.old buffer.new (verdict_text cut.now verdict) LINE_BYTES }
{
    write_words(buffer, cut, verdict);
    put(buffer, b"\n");
}
