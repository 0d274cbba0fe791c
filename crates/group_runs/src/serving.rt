//! The groups of a load in turn.
ghost use Rattle.std.specs.Prelude.{◌≡◌, ◌≤◌, [], All, length, vec_capacity, IfOk, IfErr, OnOk};
ghost use Rattle.printed_text.specs.setoff_model.specs.declared.limits.TheConstants.{OUTPUT_BYTES};
ghost use Rattle.group_runs.specs.declared.limits.TheConstants.{GROUP_LINES};
ghost use Rattle.group_runs.specs.Lines.{CanBeLoaded};
ghost use Rattle.group_runs.specs.Runs.{CanAllBeLoaded, HasBroken, HasBrokenAt, HasLoaded, HasServedGroup, HaveServedGroups};
ghost use Rattle.group_runs.specs.Runs.{IsAllKept, IsBreakCounted, IsEmptied, cut_batch, groups_of};

use crate::answering::answer_lines;
use crate::limits::GROUP_LINES;
use crate::load_break::LoadBreak;
use crate::tally::Tally;
use bureau_edge::Sink;
use disk_model::Disk;
use disk_witness::Witness;
use group_loader::Loader;
use printed_text::{Answer, BatchAnswers, ExitStatus, print_batch};
use request_text::{Batch, Request};

// Answers the lines of a group, keeps the accepted calls, counts in what came of the lines, shows a witness the sink and the disk, and
// then prints it.
fn serve_group<K: Sink, W: Witness<K, D>, D: Disk>(
    loader: Loader<D>,
    requests: &[Request],
    answers: &mut Vec<Answer>,
    tally: &mut Tally,
    sink: &mut K,
    witness: &mut W,
    buffer: &mut Vec<u8>,
) -> Result<Loader<D>, LoadBreak<D>>
    requires all { IsAllKept loader }
    requires can { All CanBeLoaded requests.now }
    requires few { length requests.now ≤ GROUP_LINES }

    // The list, and the buffer.
    requires list { GROUP_LINES ≤ vec_capacity answers.old }
    requires empty { buffer.old.items ≡ [] }
    requires spare { OUTPUT_BYTES ≤ vec_capacity buffer.old }

    // What was kept and told.
    ensures served { IfOk result (λ l. HasServedGroup D.seen loader l requests.now tally.old tally.new (K.held sink.old) (K.held sink.new)
        (W.shown witness.old) (W.shown witness.new)) }
    ensures broken { IfErr result (HasBrokenAt D.seen loader requests.now (K.held sink.old) (K.held sink.new)
        (W.shown witness.old) (W.shown witness.new)) }
    ensures counted { IfErr result (IsBreakCounted (K.faults sink.old) (K.faults sink.new)) }
    ensures quiet { OnOk result (K.faults sink.new ≡ K.faults sink.old) }

    // The list and the buffer go on.
    ensures list { GROUP_LINES ≤ vec_capacity answers.new }
    ensures emptied { OnOk result (buffer.new.items ≡ []) }
    ensures left { IfErr result (IsEmptied buffer.new.items) }
    ensures room { OUTPUT_BYTES ≤ vec_capacity buffer.new }
{
    let mut loader = loader;
    let from = loader.books().len();
    answers.clear();
    answer_lines(&mut loader, requests, answers);
    let _answered = loader.books();
    let loader = match loader.keep() {
        Ok(loader) => loader,
        Err(stopped) => return Err(LoadBreak::Disk(stopped)),
    };
    tally.add(answers.as_slice());
    witness.show(sink, loader.disk());
    let told = BatchAnswers::Each(answers.as_slice());
    if print_batch(sink, buffer, loader.books(), from, &[], told).is_err() {
        return Err(LoadBreak::Sink {
            disk: loader.close(),
        });
    }
    Ok(loader)
}

// Serves the groups of a batch in turn.
fn serve_batch<K: Sink, W: Witness<K, D>, D: Disk>(
    loader: Loader<D>,
    requests: &[Request],
    answers: &mut Vec<Answer>,
    tally: &mut Tally,
    sink: &mut K,
    witness: &mut W,
    buffer: &mut Vec<u8>,
) -> Result<Loader<D>, LoadBreak<D>>
    requires all { IsAllKept loader }
    requires can { All CanBeLoaded requests.now }

    // The list, and the buffer.
    requires list { GROUP_LINES ≤ vec_capacity answers.old }
    requires empty { buffer.old.items ≡ [] }
    requires spare { OUTPUT_BYTES ≤ vec_capacity buffer.old }

    // What was kept and told.
    ensures served { IfOk result (λ l. HaveServedGroups D.seen loader l (cut_batch (length requests.now) requests.now) tally.old tally.new
        (K.held sink.old) (K.held sink.new) (W.shown witness.old) (W.shown witness.new)) }
    ensures broken { IfErr result (HasBroken D.seen loader (cut_batch (length requests.now) requests.now)
        (K.held sink.old) (K.held sink.new) (W.shown witness.old) (W.shown witness.new)) }
    ensures counted { IfErr result (IsBreakCounted (K.faults sink.old) (K.faults sink.new)) }
    ensures quiet { OnOk result (K.faults sink.new ≡ K.faults sink.old) }

    // The list and the buffer go on.
    ensures list { GROUP_LINES ≤ vec_capacity answers.new }
    ensures emptied { OnOk result (buffer.new.items ≡ []) }
    ensures left { IfErr result (IsEmptied buffer.new.items) }
    ensures room { OUTPUT_BYTES ≤ vec_capacity buffer.new }
{
    let mut loader = loader;
    let mut rest = requests;
    while !rest.is_empty() {
        let (group, later) = rest.split_at(GROUP_LINES.min(rest.len()));
        loader = match serve_group(loader, group, answers, tally, sink, witness, buffer) {
            Ok(loader) => loader,
            Err(broken) => return Err(broken),
        };
        rest = later;
    }
    Ok(loader)
}

/// Serves the groups of batches in turn, and gives the disk back with the status: `Memory` where there was none for a line, else
/// `Limit` where a line was full, else `Done`. Each group is on the disk, whole, before its text is written: behind the texts of the
/// groups before it a witness is shown the sink and the disk, and each image of the disk from then on holds all calls that were accepted
/// up to the end of the group.
///
/// An Err is a failure of the sink, or of the disk, which ends the load. The list has room for `GROUP_LINES`; the buffer is empty and
/// has room for `OUTPUT_BYTES` of `printed_text`. It takes no memory but that of entries and of a group's records.
pub fn load_batches<K: Sink, W: Witness<K, D>, D: Disk>(
    loader: Loader<D>,
    batches: &[Batch],
    answers: &mut Vec<Answer>,
    sink: &mut K,
    witness: &mut W,
    buffer: &mut Vec<u8>,
) -> Result<(ExitStatus, D), LoadBreak<D>>
    requires all { IsAllKept loader }
    requires can { CanAllBeLoaded batches.now }

    // The list, and the buffer.
    requires list { GROUP_LINES ≤ vec_capacity answers.old }
    requires empty { buffer.old.items ≡ [] }
    requires spare { OUTPUT_BYTES ≤ vec_capacity buffer.old }

    // What was kept and told.
    ensures loaded { IfOk result (λ r. HasLoaded D.seen loader r.1 batches.now (K.held sink.old) (K.held sink.new)
        (W.shown witness.old) (W.shown witness.new) r.0) }
    ensures broken { IfErr result (HasBroken D.seen loader (groups_of batches.now) (K.held sink.old) (K.held sink.new)
        (W.shown witness.old) (W.shown witness.new)) }

    // A failure of the sink is counted, and nothing else is.
    ensures counted { IfErr result (IsBreakCounted (K.faults sink.old) (K.faults sink.new)) }
    ensures quiet { OnOk result (K.faults sink.new ≡ K.faults sink.old) }

    // The buffer is empty again where the disk failed.
    ensures emptied { IfErr result (IsEmptied buffer.new.items) }
    ensures room { OUTPUT_BYTES ≤ vec_capacity buffer.new }
{
    let mut loader = loader;
    let mut tally = Tally::new();
    for batch in batches {
        let requests = batch.requests();
        loader = match serve_batch(loader, requests, answers, &mut tally, sink, witness, buffer) {
            Ok(loader) => loader,
            Err(broken) => return Err(broken),
        };
    }
    let _loaded = loader.books();
    Ok((tally.status(), loader.close()))
}
