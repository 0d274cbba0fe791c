//! A page for each party of a published round, with its claims and what is discharged towards it and by it.
ghost use Rattle.std.specs.Prelude.{ℕ, ◌≡◌, ◌+◌, ◌<◌, ◌≤◌, ◌++◌, [], IfOk, OnOk, OnErr, length, slice_get};
ghost use Rattle.std.specs.Prelude.{slice_index_or, vec_len, vec_capacity, true};
ghost use Rattle.std.specs.Io.KnownBytes.{Appends};
ghost use Rattle.bureau_edge.specs.Streams.{AppendsPart, CountsFaults};
ghost use Rattle.setoff_model.specs.declared.cut.Party.{Party};
ghost use Rattle.setoff_model.specs.declared.limits.TheConstants.{LINE_BYTES, OUTPUT_BYTES, SUM_LIMIT};
ghost use Rattle.setoff_model.specs.CutView.{WellFormed, obligations};
ghost use Rattle.setoff_model.specs.Setoff.{IsLawful, flow_at, inflow, outflow, price_at};
ghost use Rattle.claim_history.specs.declared.entry.Reply.TheVariants as reply;
ghost use Rattle.printed_text.specs.statement_text.specs.declared.line.Line.TheVariants as line;
ghost use Rattle.printed_text.specs.declared.exit_status.ExitStatus.TheVariants as statuses;
ghost use Rattle.printed_text.specs.Printing.{IsPrintable, IsPrintableAt, line_bytes, lines_bytes};
ghost use Rattle.printed_text.specs.Statuses.{TellsSinkFault};
ghost use Rattle.printed_text.specs.Writing.{IsWritten, Prints, Wrote};
ghost use Rattle.history_text.specs.Histories.{IsDoneWith};
ghost use Rattle.history_text.specs.Lists.{IsListed, names_at};
ghost use Rattle.history_text.specs.Pages.{net_text, page_claims, page_text, pages_of, pages_text};

use crate::lists::{ClaimLists, claims_listed, first_claim, next_claim};
use bureau_edge::{Failed, Sink};
use claim_history::{Act, Entry};
use printed_text::{
    ExitStatus, flush, make_room, print_claim, print_head, print_party, tell_no_memory,
};
use setoff_model::{Cut, Outcome, Party, put, write_sum};
use std::alloc::Global;

/// What is discharged towards a party, and by it, in cents.
#[derive(Clone, Copy)]
pub struct Net {
    /// Towards it.
    pub received: u64,
    /// By it.
    pub paid: u64,
}

// What is discharged towards a party and by it, with the discharge of one claim more that names it.
fn counted(cut: &Cut, discharges: &[u64], party: usize, place: usize, net: Net) -> Net
    requires cut { WellFormed cut.now }
    requires lawful { IsLawful (obligations cut.now) discharges.now }
    requires place { place < length cut.now.claims }
    requires named { names_at (obligations cut.now) party place ≡ true }

    // What the claims before this one come to.
    requires received { net.received ≡ flow_at place (obligations cut.now).creditors discharges.now party }
    requires paid { net.paid ≡ flow_at place (obligations cut.now).debtors discharges.now party }

    // What they come to with it.
    ensures received { result.received ≡ flow_at (place + 1) (obligations cut.now).creditors discharges.now party }
    ensures paid { result.paid ≡ flow_at (place + 1) (obligations cut.now).debtors discharges.now party }
{
    let discharge = discharges[place];
    if cut.claims()[place].creditor as usize == party {
        Net {
            received: net.received + discharge,
            paid: net.paid,
        }
    } else {
        Net {
            received: net.received,
            paid: net.paid + discharge,
        }
    }
}

// Prints the lines of the claims that name a party, and gives what is discharged towards it and by it.
fn print_named<K: Sink>(
    sink: &mut K,
    buffer: &mut Vec<u8>,
    cut: &Cut,
    discharges: &[u64],
    lists: &ClaimLists,
    party: usize,
) -> Result<Net, Failed>
    requires cut { WellFormed cut.now }
    requires lawful { IsLawful (obligations cut.now) discharges.now }
    requires listed { IsListed (obligations cut.now) 0 lists.now }
    requires party { party < length cut.now.parties }

    // The buffer.
    requires spare { OUTPUT_BYTES ≤ vec_capacity buffer.old }

    // The text went through, or the sink failed and took some first bytes of it.
    ensures printed { Prints K.held K.faults sink.old sink.new buffer.old buffer.new
        (lines_bytes (page_claims cut.now.parties party cut.now.claims discharges.now)) result }

    // What is discharged.
    ensures received { IfOk result (λ net. net.received ≡ inflow (obligations cut.now) discharges.now party) }
    ensures paid { IfOk result (λ net. net.paid ≡ outflow (obligations cut.now) discharges.now party) }
{
    let claims = cut.claims().len();
    let mut net = Net {
        received: 0,
        paid: 0,
    };
    let mut place = first_claim(lists, cut, party);
    while place < claims {
        print_claim(sink, buffer, cut, place as u32, discharges[place])?;
        net = counted(cut, discharges, party, place, net);
        place = next_claim(lists, cut, party, place);
    }
    Ok(net)
}

// Writes what is discharged, and the last line of a page.
fn write_page_end(buffer: &mut Vec<u8>, net: Net)
    requires received { net.received < SUM_LIMIT }
    requires paid { net.paid < SUM_LIMIT }
    requires spare { vec_len buffer.old + LINE_BYTES ≤ vec_capacity buffer.old }

    // The text stands at the end, and no room is lost.
    ensures text { buffer.new.items ≡ buffer.old.items ++ (net_text net.received net.paid ++ line_bytes line.End) }
    ensures room { vec_capacity buffer.old ≤ vec_capacity buffer.new }
{
    put(buffer, b"NET ");
    write_sum(buffer, net.received);
    put(buffer, b" ");
    write_sum(buffer, net.paid);
    put(buffer, b"\nEND\n");
}

// Prints what is discharged, and the last line of a page.
fn print_page_end<K: Sink>(sink: &mut K, buffer: &mut Vec<u8>, net: Net) -> Result<(), Failed>
    requires received { net.received < SUM_LIMIT }
    requires paid { net.paid < SUM_LIMIT }
    requires spare { OUTPUT_BYTES ≤ vec_capacity buffer.old }

    // The text went through, or the sink failed and took some first bytes of it.
    ensures { Prints K.held K.faults sink.old sink.new buffer.old buffer.new
        (net_text net.received net.paid ++ line_bytes line.End) result }
{
    make_room(sink, buffer)?;
    write_page_end(buffer, net);
    Ok(())
}

// Prints the page of the party at a place.
fn print_page<K: Sink>(
    sink: &mut K,
    buffer: &mut Vec<u8>,
    cut: &Cut,
    outcome: &Outcome,
    lists: &ClaimLists,
    place: usize,
) -> Result<(), Failed>
    requires printable { IsPrintable cut.now outcome.now }
    requires listed { IsListed (obligations cut.now) 0 lists.now }
    requires place { place < length cut.now.parties }
    requires spare { OUTPUT_BYTES ≤ vec_capacity buffer.old }

    // The text went through, or the sink failed and took some first bytes of it.
    ensures { (none : Party) → Prints K.held K.faults sink.old sink.new buffer.old buffer.new
        (page_text cut.now outcome.now.discharges place
        (slice_index_or cut.now.parties place none) (price_at outcome.now.prices place)) result }
{
    print_head(sink, buffer, cut)?;
    print_party(sink, buffer, &cut.parties()[place], outcome.prices()[place])?;
    let net = print_named(sink, buffer, cut, outcome.discharges(), lists, place)?;
    print_page_end(sink, buffer, net)
}

// Prints the pages of all parties.
fn print_pages<K: Sink>(
    sink: &mut K,
    buffer: &mut Vec<u8>,
    cut: &Cut,
    outcome: &Outcome,
    lists: &ClaimLists,
) -> Result<(), Failed>
    requires printable { IsPrintable cut.now outcome.now }
    requires listed { IsListed (obligations cut.now) 0 lists.now }
    requires spare { OUTPUT_BYTES ≤ vec_capacity buffer.old }

    // The text went through, or the sink failed and took some first bytes of it.
    ensures { Prints K.held K.faults sink.old sink.new buffer.old buffer.new
        (pages_text cut.now outcome.now) result }
{
    let parties = cut.parties().len();
    for place in 0..parties {
        print_page(sink, buffer, cut, outcome, lists, place)?;
    }
    Ok(())
}

// Prints them, and what is left in the buffer.
fn print_flushed<K: Sink>(
    sink: &mut K,
    buffer: &mut Vec<u8>,
    cut: &Cut,
    outcome: &Outcome,
    lists: &ClaimLists,
) -> Result<(), Failed>
    requires printable { IsPrintable cut.now outcome.now }
    requires listed { IsListed (obligations cut.now) 0 lists.now }
    requires empty { buffer.old.items ≡ [] }
    requires spare { OUTPUT_BYTES ≤ vec_capacity buffer.old }

    // The text was taken, or the sink failed and took some first bytes of it.
    ensures ok { OnOk result (Appends (K.held sink.old) (K.held sink.new) (pages_text cut.now outcome.now)) }
    ensures part { OnErr result (AppendsPart (K.held sink.old) (K.held sink.new) (pages_text cut.now outcome.now)) }
    ensures cause { CountsFaults (K.faults sink.old) (K.faults sink.new) result }
{
    print_pages(sink, buffer, cut, outcome, lists)?;
    flush(sink, buffer)
}

// The same, and gives the status.
fn tell_listed<K: Sink>(
    sink: &mut K,
    buffer: &mut Vec<u8>,
    cut: &Cut,
    outcome: &Outcome,
    lists: &ClaimLists,
) -> ExitStatus
    requires printable { IsPrintable cut.now outcome.now }
    requires listed { IsListed (obligations cut.now) 0 lists.now }
    requires empty { buffer.old.items ≡ [] }
    requires spare { OUTPUT_BYTES ≤ vec_capacity buffer.old }

    // What was written, and the status that tells of it.
    ensures written { IsWritten (K.held sink.old) (K.held sink.new) statuses.Done (pages_text cut.now outcome.now) result }
    ensures failed { TellsSinkFault (K.faults sink.old) (K.faults sink.new) result }
{
    match print_flushed(sink, buffer, cut, outcome, lists) {
        Ok(()) => ExitStatus::Done,
        Err(_) => ExitStatus::Sink,
    }
}

// Prints the pages of a cut and its outcome, and gives the status; or tells that there was no memory to list the claims.
fn tell_cut<K: Sink>(
    alloc: Global,
    sink: &mut K,
    buffer: &mut Vec<u8>,
    cut: &Cut,
    outcome: &Outcome,
) -> ExitStatus
    requires printable { IsPrintable cut.now outcome.now }
    requires empty { buffer.old.items ≡ [] }
    requires spare { OUTPUT_BYTES ≤ vec_capacity buffer.old }

    // What was written, and the status that tells of it.
    ensures wrote { Wrote (IsDoneWith (pages_text cut.now outcome.now)) (K.held sink.old) (K.held sink.new) result }
    ensures write_fault { TellsSinkFault (K.faults sink.old) (K.faults sink.new) result }
{
    let Ok(lists) = claims_listed(alloc, cut) else {
        return tell_no_memory(sink);
    };
    let status = tell_listed(sink, buffer, cut, outcome, &lists);
    drop(lists);
    status
}

/// Prints the pages of the round that an entry publishes, whose cut is the first of those that are given. Gives the status: `Done`;
/// `Memory`, which is told in their place, where memory was missing to list the claims; `Sink` where the sink failed.
///
/// The buffer is empty, and has room for `OUTPUT_BYTES`.
pub(crate) fn tell_pages<K: Sink>(
    alloc: Global,
    sink: &mut K,
    buffer: &mut Vec<u8>,
    entry: &Entry,
    rounds: &[Cut],
) -> ExitStatus
    requires published { (total : ℕ) × (entry.now.reply ≡ reply.Published total) }
    requires publication { IsPrintableAt rounds.now 0 entry.now.act }
    requires empty { buffer.old.items ≡ [] }
    requires spare { OUTPUT_BYTES ≤ vec_capacity buffer.old }

    // What was written, and the status that tells of it.
    ensures wrote { Wrote (IsDoneWith (pages_of (slice_get rounds.now 0) entry.now.act entry.now.reply))
        (K.held sink.old) (K.held sink.new) result }
    ensures write_fault { TellsSinkFault (K.faults sink.old) (K.faults sink.new) result }
{
    let Act::Publish { outcome, .. } = &entry.act else {
        unreachable!();
    };
    let first = 0;
    tell_cut(alloc, sink, buffer, &rounds[first], outcome)
}
