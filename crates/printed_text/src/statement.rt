//! Statements: their lines go through the buffer of the output. Their printing is never inlined, so that a profile of the
//! program shows what it takes.
ghost use Rattle.std.specs.Prelude.{◌≡◌, ◌<◌, ◌≤◌, ◌^◌, All, vec_capacity, length, slice_index_or, unsigned_abs};
ghost use Rattle.setoff_model.specs.declared.limits.TheConstants.{OUTPUT_BYTES, SUM_LIMIT, MOST_WINDOW};
ghost use Rattle.setoff_model.specs.declared.cut.CutClaim.{CutClaim};
ghost use Rattle.setoff_model.specs.CutView.{WellFormed};
ghost use Rattle.statement_text.specs.declared.line.Line.TheVariants as line;
ghost use Rattle.statement_text.specs.Statements.{party_lines, claim_line, claim_lines, statement_bytes};
ghost use Rattle.printed_text.specs.Printing.{IsPrintable, line_bytes, lines_bytes};
ghost use Rattle.printed_text.specs.Writing.{Prints};

use crate::output::make_room;
use bureau_edge::{Failed, Sink};
use setoff_model::{Cut, Outcome, Party};
use statement_text::{write_claim, write_end, write_head, write_party};

/// Prints the line of the round. The buffer has room for `OUTPUT_BYTES`.
pub fn print_head<K: Sink>(sink: &mut K, buffer: &mut Vec<u8>, cut: &Cut) -> Result<(), Failed>
    requires round { 1 ≤ cut.now.round }
    requires spare { OUTPUT_BYTES ≤ vec_capacity buffer.old }

    // The text went through, or the sink failed and took some first bytes of it.
    ensures { Prints K.held K.faults sink.old sink.new buffer.old buffer.new
        (line_bytes (line.Head cut.now.round cut.now.kind)) result }
{
    make_room(sink, buffer)?;
    write_head(buffer, cut.round(), cut.kind());
    Ok(())
}

/// Prints the line of a party. The buffer has room for `OUTPUT_BYTES`.
pub fn print_party<K: Sink>(
    sink: &mut K,
    buffer: &mut Vec<u8>,
    party: &Party,
    price: i64,
) -> Result<(), Failed>
    requires spend { party.now.spend ≤ MOST_WINDOW }
    requires room { party.now.room ≤ MOST_WINDOW }
    requires price { unsigned_abs price < 10 ^ 9 }
    requires spare { OUTPUT_BYTES ≤ vec_capacity buffer.old }

    // The text went through, or the sink failed and took some first bytes of it.
    ensures { Prints K.held K.faults sink.old sink.new buffer.old buffer.new
        (line_bytes (line.Party party.now price)) result }
{
    make_room(sink, buffer)?;
    write_party(buffer, party, price);
    Ok(())
}

// Prints the lines of the parties, each with its price.
fn print_parties<K: Sink>(
    sink: &mut K,
    buffer: &mut Vec<u8>,
    parties: &[Party],
    prices: &[i64],
) -> Result<(), Failed>
    requires spends { All (λ f. f.spend ≤ MOST_WINDOW) parties.now }
    requires rooms { All (λ f. f.room ≤ MOST_WINDOW) parties.now }
    requires prices { All (λ p. unsigned_abs p < 10 ^ 9) prices.now }
    requires price_each { length prices.now ≡ length parties.now }

    // The buffer.
    requires spare { OUTPUT_BYTES ≤ vec_capacity buffer.old }

    // The text went through, or the sink failed and took some first bytes of it.
    ensures { Prints K.held K.faults sink.old sink.new buffer.old buffer.new
        (lines_bytes (party_lines parties.now prices.now)) result }
{
    for i in 0..parties.len() {
        print_party(sink, buffer, &parties[i], prices[i])?;
    }
    Ok(())
}

/// Prints the line of the claim at a place. The buffer has room for `OUTPUT_BYTES`.
pub fn print_claim<K: Sink>(
    sink: &mut K,
    buffer: &mut Vec<u8>,
    cut: &Cut,
    place: u32,
    discharge: u64,
) -> Result<(), Failed>
    requires cut { WellFormed cut.now }
    requires place { place < length cut.now.claims }
    requires discharge { discharge < SUM_LIMIT }
    requires spare { OUTPUT_BYTES ≤ vec_capacity buffer.old }

    // The text went through, or the sink failed and took some first bytes of it.
    ensures { (none : CutClaim) → Prints K.held K.faults sink.old sink.new buffer.old buffer.new
        (line_bytes (claim_line cut.now.parties (slice_index_or cut.now.claims place none) discharge)) result }
{
    make_room(sink, buffer)?;
    write_claim(buffer, cut, place, discharge);
    Ok(())
}

// Prints the lines of the claims, each with its discharge.
fn print_claims<K: Sink>(
    sink: &mut K,
    buffer: &mut Vec<u8>,
    cut: &Cut,
    discharges: &[u64],
) -> Result<(), Failed>
    requires cut { WellFormed cut.now }
    requires discharges { All (λ d. d < SUM_LIMIT) discharges.now }
    requires discharge_each { length discharges.now ≡ length cut.now.claims }
    requires spare { OUTPUT_BYTES ≤ vec_capacity buffer.old }

    // The text went through, or the sink failed and took some first bytes of it.
    ensures { Prints K.held K.faults sink.old sink.new buffer.old buffer.new
        (lines_bytes (claim_lines cut.now.parties cut.now.claims discharges.now)) result }
{
    for i in 0..discharges.len() {
        print_claim(sink, buffer, cut, i as u32, discharges[i])?;
    }
    Ok(())
}

// Prints the last line.
fn print_end<K: Sink>(sink: &mut K, buffer: &mut Vec<u8>) -> Result<(), Failed>
    requires spare { OUTPUT_BYTES ≤ vec_capacity buffer.old }

    // The text went through, or the sink failed and took some first bytes of it.
    ensures { Prints K.held K.faults sink.old sink.new buffer.old buffer.new
        (line_bytes line.End) result }
{
    make_room(sink, buffer)?;
    write_end(buffer);
    Ok(())
}

/// Prints the statement of a cut and its outcome: the round, each party with its price, each claim with its discharge, and the end.
///
/// The buffer has room for `OUTPUT_BYTES`. After a failure, which the sink counted, it has some first bytes of what was in the buffer
/// and the statement.
#[inline(never)]
pub fn print_statement<K: Sink>(
    sink: &mut K,
    buffer: &mut Vec<u8>,
    cut: &Cut,
    outcome: &Outcome,
) -> Result<(), Failed>
    requires printable { IsPrintable cut.now outcome.now }
    requires spare { OUTPUT_BYTES ≤ vec_capacity buffer.old }

    // The text went through, or the sink failed and took some first bytes of it.
    ensures { Prints K.held K.faults sink.old sink.new buffer.old buffer.new
        (statement_bytes cut.now outcome.now) result }
{
    print_head(sink, buffer, cut)?;
    print_parties(sink, buffer, cut.parties(), outcome.prices())?;
    print_claims(sink, buffer, cut, outcome.discharges())?;
    print_end(sink, buffer)
}
