//! The line of a chain.
ghost use Rattle.std.specs.Prelude.{◌≡◌, ℕ, ◌<◌, ◌≤◌, ◌+◌, ◌++◌, codes, flat_map, length, slice_index, vec_capacity, vec_len};
ghost use Rattle.setoff_model.specs.declared.limits.TheConstants.{OUTPUT_BYTES, LINE_BYTES};
ghost use Rattle.printed_text.specs.Writing.{Prints};
ghost use Rattle.chain_explain.specs.Chains.{chain_view};
ghost use Rattle.chain_text.specs.Texts.{chain_head, chain_line, claim_name};

use bureau_edge::{Failed, Sink};
use chain_explain::Chain;
use printed_text::make_room;
use setoff_model::{Cut, put, write_cents};

// Writes how a chain begins, into a buffer that has `LINE_BYTES` spare.
fn write_head(buffer: &mut Vec<u8>, chain: Chain)
    requires spare { vec_len buffer.old + LINE_BYTES ≤ vec_capacity buffer.old }
    ensures text { buffer.new.items ≡ buffer.old.items ++ chain_head chain.closed chain.amount }
    ensures room { vec_capacity buffer.old ≤ vec_capacity buffer.new }
{
    if chain.closed {
        put(buffer, b"CLOSED ");
    } else {
        put(buffer, b"OPEN ");
    }
    write_cents(buffer, u128::from(chain.amount));
}

// Writes the claim at a place of the cut, into a buffer that has `LINE_BYTES` spare.
fn write_claim_name(buffer: &mut Vec<u8>, cut: &Cut, place: u32)
    requires place { place < length cut.now.claims }
    requires spare { vec_len buffer.old + LINE_BYTES ≤ vec_capacity buffer.old }
    ensures text { buffer.new.items ≡ buffer.old.items ++ claim_name cut.now.claims place }
    ensures room { vec_capacity buffer.old ≤ vec_capacity buffer.new }
{
    let key = cut.claims()[place as usize].key;
    put(buffer, b" ");
    put(buffer, key.creditor.bytes());
    put(buffer, b"/");
    put(buffer, key.invoice.bytes());
}

// Prints how a chain begins.
fn print_head<K: Sink>(sink: &mut K, buffer: &mut Vec<u8>, chain: Chain) -> Result<(), Failed>
    requires spare { OUTPUT_BYTES ≤ vec_capacity buffer.old }

    // The text went through, or the sink failed and took some first bytes of it.
    ensures { Prints K.held K.faults sink.old sink.new buffer.old buffer.new
        (chain_head chain.closed chain.amount) result }
{
    make_room(sink, buffer)?;
    write_head(buffer, chain);
    Ok(())
}

// Prints the claim at a place.
fn print_claim_name<K: Sink>(
    sink: &mut K,
    buffer: &mut Vec<u8>,
    cut: &Cut,
    place: u32,
) -> Result<(), Failed>
    requires place { place < length cut.now.claims }
    requires spare { OUTPUT_BYTES ≤ vec_capacity buffer.old }

    // The text went through, or the sink failed and took some first bytes of it.
    ensures { Prints K.held K.faults sink.old sink.new buffer.old buffer.new
        (claim_name cut.now.claims place) result }
{
    make_room(sink, buffer)?;
    write_claim_name(buffer, cut, place);
    Ok(())
}

// Prints the claims at these places.
fn print_claim_names<K: Sink>(
    sink: &mut K,
    buffer: &mut Vec<u8>,
    cut: &Cut,
    places: &[u32],
) -> Result<(), Failed>
    requires places { (i : ℕ) → i < length places.now → slice_index places.now i < length cut.now.claims }
    requires spare { OUTPUT_BYTES ≤ vec_capacity buffer.old }

    // The text went through, or the sink failed and took some first bytes of it.
    ensures { Prints K.held K.faults sink.old sink.new buffer.old buffer.new
        (flat_map (λ place. claim_name cut.now.claims place) places.now) result }
{
    for i in 0..places.len() {
        print_claim_name(sink, buffer, cut, places[i])?;
    }
    Ok(())
}

// Prints the end of a line.
fn print_end<K: Sink>(sink: &mut K, buffer: &mut Vec<u8>) -> Result<(), Failed>
    requires spare { OUTPUT_BYTES ≤ vec_capacity buffer.old }

    // The text went through, or the sink failed and took some first bytes of it.
    ensures { Prints K.held K.faults sink.old sink.new buffer.old buffer.new (codes "\n") result }
{
    make_room(sink, buffer)?;
    put(buffer, b"\n");
    Ok(())
}

/// Prints the line of a chain whose claims have these places in the cut.
pub(crate) fn print_chain<K: Sink>(
    sink: &mut K,
    buffer: &mut Vec<u8>,
    cut: &Cut,
    chain: Chain,
    places: &[u32],
) -> Result<(), Failed>
    requires places { (i : ℕ) → i < length places.now → slice_index places.now i < length cut.now.claims }
    requires spare { OUTPUT_BYTES ≤ vec_capacity buffer.old }

    // The text went through, or the sink failed and took some first bytes of it.
    ensures { Prints K.held K.faults sink.old sink.new buffer.old buffer.new
        (chain_line cut.now (chain_view chain places.now)) result }
{
    print_head(sink, buffer, chain)?;
    print_claim_names(sink, buffer, cut, places)?;
    print_end(sink, buffer)
}
