//! Writing weighted set-offs.
ghost use Rattle.std.specs.Prelude.{◌≡◌, ◌+◌, ◌<◌, ◌≤◌, ◌++◌, length, codes, slice_index_or, vec_len, vec_capacity};
ghost use Rattle.text_lines.specs.Fields.{line_of};
ghost use Rattle.setoff_model.specs.declared.limits.TheConstants.{SUM_LIMIT, LINE_BYTES};
ghost use Rattle.setoff_model.specs.declared.cut.CutClaim.{CutClaim};
ghost use Rattle.setoff_model.specs.CutView.{WellFormed};
ghost use Rattle.statement_text.specs.Statements.{firm_at};
ghost use Rattle.statement_text.specs.Weighed.{weighed_head_fields, weighed_claim_fields, total_fields};

use crate::writing::put_claim_at;
use setoff_model::{Cut, Kind, put, write_cents, write_whole};

/// Writes the line `WEIGHED KIND`, with its line feed, into a buffer that has `LINE_BYTES` spare.
pub fn write_weighed_head(buffer: &mut Vec<u8>, kind: Kind)
    requires { vec_len buffer.old + LINE_BYTES ≤ vec_capacity buffer.old }
    ensures text { buffer.new.items ≡ buffer.old.items ++ line_of (weighed_head_fields kind) ++ codes "\n" }
    ensures room { vec_capacity buffer.old ≤ vec_capacity buffer.new }
{
    match kind {
        Kind::Plain => put(buffer, b"WEIGHED PLAIN\n"),
        Kind::Funded => put(buffer, b"WEIGHED FUNDED\n"),
    }
}

/// Writes the line `CLAIM creditor invoice debtor amount discharged weight` of the claim at a place of a well-formed cut, with its
/// line feed, into a buffer that has `LINE_BYTES` spare. The discharge is below 10^18 cents.
pub fn write_weighed_claim(buffer: &mut Vec<u8>, cut: &Cut, place: u32, discharge: u64, weight: u32)
    // The claim is one of the cut.
    requires cut { WellFormed cut.now }
    requires place { place < length cut.now.claims }
    requires discharge { discharge < SUM_LIMIT }

    // There is room for its line.
    requires spare { vec_len buffer.old + LINE_BYTES ≤ vec_capacity buffer.old }

    // The line is at the end, and no room is lost.
    ensures text { (none : CutClaim)
        → let c = slice_index_or cut.now.claims place none in buffer.new.items
        ≡ buffer.old.items ++ line_of
        (weighed_claim_fields c.key (firm_at cut.now.parties c.debtor) c.amount discharge weight) ++ codes "\n" }
    ensures room { vec_capacity buffer.old ≤ vec_capacity buffer.new }
{
    put_claim_at(buffer, cut, place, discharge);
    put(buffer, b" ");
    write_whole(buffer, u64::from(weight));
    put(buffer, b"\n");
}

/// Writes the line `TOTAL total`, with its line feed, into a buffer that has `LINE_BYTES` spare.
pub fn write_total(buffer: &mut Vec<u8>, total: u64)
    requires { vec_len buffer.old + LINE_BYTES ≤ vec_capacity buffer.old }
    ensures text { buffer.new.items ≡ buffer.old.items ++ line_of (total_fields total) ++ codes "\n" }
    ensures room { vec_capacity buffer.old ≤ vec_capacity buffer.new }
{
    put(buffer, b"TOTAL ");
    write_cents(buffer, u128::from(total));
    put(buffer, b"\n");
}
