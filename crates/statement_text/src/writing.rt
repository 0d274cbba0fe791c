//! Writing statements.
ghost use Rattle.std.specs.Prelude.{◌≡◌, ◌+◌, ◌^◌, ◌<◌, ◌≤◌, ◌++◌, ◌∷◌, [], length, codes, slice_index_or, unsigned_abs, vec_len};
ghost use Rattle.std.specs.Prelude.{vec_capacity};
ghost use Rattle.text_lines.specs.Fields.{line_of};
ghost use Rattle.setoff_model.specs.declared.limits.TheConstants.{SUM_LIMIT, LINE_BYTES, MOST_WINDOW};
ghost use Rattle.setoff_model.specs.declared.cut.CutClaim.{CutClaim};
ghost use Rattle.setoff_model.specs.CutView.{WellFormed};
ghost use Rattle.setoff_model.specs.Texts.{cents_text};
ghost use Rattle.setoff_model.specs.Writing.{Writes};
ghost use Rattle.statement_text.specs.Lines.{head_fields, party_fields, claim_fields};
ghost use Rattle.statement_text.specs.Statements.{firm_at};

use setoff_model::{Cut, Key, Kind, Name, Party, put, write_number, write_sum, write_whole};

/// Writes the line `ROUND r KIND`, with its line feed, into a buffer that has `LINE_BYTES` spare.
///
/// Rounds are numbered from 1.
pub fn write_head(buffer: &mut Vec<u8>, round: u32, kind: Kind)
    // There is room for the line of such a round.
    requires round { 1 ≤ round }
    requires spare { vec_len buffer.old + LINE_BYTES ≤ vec_capacity buffer.old }

    // The line is at the end, and no room is lost.
    ensures { Writes buffer.old buffer.new (line_of (head_fields round kind) ++ codes "\n") LINE_BYTES }
{
    put(buffer, b"ROUND ");
    write_whole(buffer, u64::from(round));
    put(buffer, b" ");
    match kind {
        Kind::Plain => put(buffer, b"PLAIN\n"),
        Kind::Funded => put(buffer, b"FUNDED\n"),
    }
}

/// Writes the line `PARTY firm spend room price`, with its line feed, into a buffer that has `LINE_BYTES` spare.
///
/// Spend and room are at most 2 * 10^15 cents, and the price has at most 9 digits.
pub fn write_party(buffer: &mut Vec<u8>, party: &Party, price: i64)
    // Window and price are within the limits.
    requires spend { party.now.spend ≤ MOST_WINDOW }
    requires room { party.now.room ≤ MOST_WINDOW }
    requires price { unsigned_abs price < 10 ^ 9 }

    // There is room for the line.
    requires spare { vec_len buffer.old + LINE_BYTES ≤ vec_capacity buffer.old }

    // The line is at the end, and no room is lost.
    ensures { Writes buffer.old buffer.new (line_of (party_fields party.now price) ++ codes "\n") LINE_BYTES }
{
    put(buffer, b"PARTY ");
    put(buffer, party.firm.bytes());
    put(buffer, b" ");
    put_sums(buffer, party.spend, party.room);
    put(buffer, b" ");
    write_number(buffer, i128::from(price));
    put(buffer, b"\n");
}

/// Writes the line `CLAIM creditor invoice debtor amount discharged` of the claim at a place of a well-formed cut, with
/// its line feed, into a buffer that has `LINE_BYTES` spare. The discharge is below 10^18 cents.
pub fn write_claim(buffer: &mut Vec<u8>, cut: &Cut, place: u32, discharge: u64)
    // The claim is one of the cut.
    requires cut { WellFormed cut.now }
    requires place { place < length cut.now.claims }
    requires discharge { discharge < SUM_LIMIT }

    // There is room for its line.
    requires spare { vec_len buffer.old + LINE_BYTES ≤ vec_capacity buffer.old }

    // The line is at the end, and no room is lost.
    ensures text { (none : CutClaim)
        → let c = slice_index_or cut.now.claims place none in buffer.new.items
        ≡ buffer.old.items ++ line_of (claim_fields c.key (firm_at cut.now.parties c.debtor) c.amount discharge) ++ codes "\n" }
    ensures len { vec_len buffer.new ≤ vec_len buffer.old + LINE_BYTES }
    ensures room { vec_capacity buffer.old ≤ vec_capacity buffer.new }
{
    put_claim_at(buffer, cut, place, discharge);
    put(buffer, b"\n");
}

/// Writes the line `END`, with its line feed, into a buffer that has `LINE_BYTES` spare.
pub fn write_end(buffer: &mut Vec<u8>)
    requires { vec_len buffer.old + LINE_BYTES ≤ vec_capacity buffer.old }
    ensures { Writes buffer.old buffer.new (codes "END\n") LINE_BYTES }
{
    put(buffer, b"END\n");
}

/// Writes the fields of the claim at a place of a cut, without an end of the line.
pub(crate) fn put_claim_at(buffer: &mut Vec<u8>, cut: &Cut, place: u32, discharge: u64)
    // The claim is one of the cut.
    requires cut { WellFormed cut.now }
    requires place { place < length cut.now.claims }
    requires discharge { discharge < SUM_LIMIT }

    // There is room for its fields.
    requires spare { vec_len buffer.old + LINE_BYTES ≤ vec_capacity buffer.old }

    // They are at the end, and no room is lost.
    ensures text { (none : CutClaim)
        → let c = slice_index_or cut.now.claims place none in buffer.new.items
        ≡ buffer.old.items ++ line_of (claim_fields c.key (firm_at cut.now.parties c.debtor) c.amount discharge) }
    ensures len { vec_len buffer.new ≤ vec_len buffer.old + 100 }
    ensures room { vec_capacity buffer.old ≤ vec_capacity buffer.new }
{
    let claim = cut.claims()[place as usize];
    let debtor = cut.parties()[claim.debtor as usize].firm;
    put_claim(buffer, &claim.key, &debtor, claim.amount, discharge);
}

fn put_claim(buffer: &mut Vec<u8>, key: &Key, debtor: &Name, amount: u64, discharge: u64)
    // There is room for such fields.
    requires amount { amount < SUM_LIMIT }
    requires discharge { discharge < SUM_LIMIT }
    requires spare { vec_len buffer.old + LINE_BYTES ≤ vec_capacity buffer.old }

    // They are at the end, and no room is lost.
    ensures { Writes buffer.old buffer.new (line_of (claim_fields key.now debtor.now amount discharge)) 100 }
{
    put(buffer, b"CLAIM ");
    put_names(buffer, key, debtor);
    put(buffer, b" ");
    put_sums(buffer, amount, discharge);
}

// Creditor, invoice and debtor.
fn put_names(buffer: &mut Vec<u8>, key: &Key, debtor: &Name)
    requires spare { vec_len buffer.old + 50 ≤ vec_capacity buffer.old }
    ensures { Writes buffer.old buffer.new (line_of (key.now.creditor ∷ key.now.invoice ∷ debtor.now ∷ [])) 50 }
{
    put(buffer, key.creditor.bytes());
    put(buffer, b" ");
    put(buffer, key.invoice.bytes());
    put(buffer, b" ");
    put(buffer, debtor.bytes());
}

// Two sums.
fn put_sums(buffer: &mut Vec<u8>, first: u64, second: u64)
    // There is room for such sums.
    requires first { first < SUM_LIMIT }
    requires second { second < SUM_LIMIT }
    requires spare { vec_len buffer.old + 80 ≤ vec_capacity buffer.old }

    // They are at the end, and no room is lost.
    ensures { Writes buffer.old buffer.new (line_of (cents_text first ∷ cents_text second ∷ [])) 39 }
{
    write_sum(buffer, first);
    put(buffer, b" ");
    write_sum(buffer, second);
}
