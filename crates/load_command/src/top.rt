//! The top call: the words, a source, a sink and a disk.
ghost use Rattle.std.specs.Prelude.{◌≡◌, ◌<◌, map, string_bytes};
ghost use Rattle.journal_texts.specs.bureau_desk.specs.fault_count.specs.Counts.{HasRisen};
ghost use Rattle.journal_texts.specs.printed_text.specs.declared.exit_status.ExitStatus.TheVariants as statuses;
ghost use Rattle.journal_texts.specs.printed_text.specs.Statuses.{IsNumberOf, TellsSinkFault, number_of};
ghost use Rattle.journal_texts.specs.printed_text.specs.Writing.{Wrote};
ghost use Rattle.journal_texts.specs.Calls.{IsMemoryDue, IsReadDue};
ghost use Rattle.load_command.specs.Causes.{LoadComesOnly, LoadComesWhere};
ghost use Rattle.load_command.specs.Completeness.{CompletesLoad};
ghost use Rattle.load_command.specs.Due.{WroteInOrder};
ghost use Rattle.load_command.specs.Headline.{HasTakenFirst};
ghost use Rattle.load_command.specs.Inputs.{IsInputDue, LoadRan, LoadRanInOrder};

use crate::input::load_input;
use bureau_edge::{Sink, Source, read_whole};
use disk_model::Disk;
use group_runs::{ExitStatus, SilentWitness, Witness, tell_no_memory, tell_words};
use journal_texts::{Ended, tell_unread};
use round_journal::bytes_hold_one_list;
use setoff_model::limits::MOST_INPUT_BYTES;
use std::alloc::Global;

// Loads the requests of a source into the journal of a disk.
#[tactic(none)]
fn load_source<S: Source, K: Sink, W: Witness<K, D>, D: Disk>(
    alloc: Global,
    source: &mut S,
    sink: &mut K,
    witness: &mut W,
    disk: D,
) -> (ExitStatus, D)
    ensures wrote { WroteInOrder D.seen result.1 (λ taken. IsReadDue (IsInputDue D.seen taken disk result.1) (result.1 ≡ disk)
        (S.left source.old) (S.left source.new))
        (K.held sink.old) (K.held sink.new) (W.shown witness.old) (W.shown witness.new) result.0 }
    ensures read_fault { result.0 ≡ statuses.Source → HasRisen (S.faults source.old) (S.faults source.new) }
    ensures write_fault { TellsSinkFault (K.faults sink.old) (K.faults sink.new) result.0 }
{
    match read_whole(alloc, source, MOST_INPUT_BYTES) {
        Ok(input) => load_input(alloc, input.as_slice(), sink, witness, disk),
        Err(end) => (tell_unread(end, sink), disk),
    }
}

// Answers the words.
#[tactic(none)]
fn answer_words<S: Source, K: Sink, W: Witness<K, D>, D: Disk>(
    alloc: Global,
    words: &[String],
    source: &mut S,
    sink: &mut K,
    witness: &mut W,
    disk: D,
) -> (ExitStatus, D)
    ensures ran { LoadRanInOrder S.left D.seen (map (λ w. string_bytes w) words.now) source.old source.new disk result.1 (K.held sink.old)
        (K.held sink.new) (W.shown witness.old) (W.shown witness.new) result.0 }
    ensures read_fault { result.0 ≡ statuses.Source → HasRisen (S.faults source.old) (S.faults source.new) }
    ensures write_fault { TellsSinkFault (K.faults sink.old) (K.faults sink.new) result.0 }
{
    if words.is_empty() {
        load_source(alloc, source, sink, witness, disk)
    } else {
        (tell_words(sink), disk)
    }
}

/// The whole program over the words after its name, of which there are to be none, a source, a sink and a disk. The bytes of the journal
/// stand on the disk.
///
/// It reads the source whole: requests as those of a run, of which none is a CLOSE. Then it loads them into the journal of the disk, a
/// group at a time, and prints what came of each group when that is on the disk, whole. Where no device counts a fault, the input is in
/// the grammar and the journal is sound, all of the text is written, or memory was missing. No line is full where there is room behind
/// the journal for all requests of the input. The status is
///
/// - 0 where none of the others comes;
/// - 2 exactly where there are words; neither source nor disk is then called;
/// - 3 only where the source counted a fault;
/// - 4 where the sink counted a fault, and only there; it has then taken some first bytes of what was due, at least the texts of all
///   groups but the last that was kept;
/// - 5 only where the disk counted a fault: at the opening, or at a group, which may be in the journal, whole, and of which nothing is
///   told but the fault;
/// - 6 exactly where the input is not in the grammar, with the first bad line; the disk is then not called;
/// - 7 exactly where the source had more than 2^26 bytes, or a line was full;
/// - 8 exactly where the disk has more than nine bytes that stand for no sound records;
/// - 9 when memory ran out, always where a line got no reply because of it and neither sink nor disk failed.
///
/// Where the cause of one of these is, 4 or 9 may come in its place, or the status of a step before it: the words, the reading of the
/// source, the grammar, the opening of the journal, and then the groups in turn, at the end of which 9 comes before 7.
///
/// No entry is printed before a crash leaves its act: `load_in_order` tells it by what it shows a witness.
#[tactic(none)]
pub fn load<S: Source, K: Sink, D: Disk>(
    alloc: Global,
    words: Vec<String>,
    source: S,
    sink: K,
    disk: D,
) -> Ended<S, K, D>
    ensures ran { IsNumberOf (LoadRan S.left D.seen (map (λ w. string_bytes w) words.items) source result.source disk result.disk
        (K.held sink) (K.held result.sink)) result.status }

    // A fault of a device is told only where it was counted, and one of the sink wherever it was.
    ensures read_fault { result.status ≡ number_of statuses.Source → HasRisen (S.faults source) (S.faults result.source) }
    ensures write_fault { result.status ≡ number_of statuses.Sink → HasRisen (K.faults sink) (K.faults result.sink) }
    ensures write_fault_told { K.faults sink < K.faults result.sink → result.status ≡ number_of statuses.Sink }
    ensures disk_fault { result.status ≡ number_of statuses.Disk → HasRisen (D.seen disk).count (D.seen result.disk).count }

    // Each status comes where its cause is, and only there.
    ensures comes { IsNumberOf (LoadComesWhere (map (λ w. string_bytes w) words.items) (S.left source) (D.seen disk)) result.status }
    ensures only { IsNumberOf (LoadComesOnly D.seen (HasTakenFirst (K.held sink) (K.held result.sink))
        (map (λ w. string_bytes w) words.items) (S.left source) disk result.disk) result.status }

    // Without a fault it is all done.
    ensures complete { IsNumberOf (CompletesLoad D.seen (map (λ w. string_bytes w) words.items) (S.left source) disk result.disk
        (K.held sink) (K.held result.sink) (HasRisen (S.faults source) (S.faults result.source))
        (HasRisen (K.faults sink) (K.faults result.sink))) result.status }
{
    let mut witness = SilentWitness::new();
    load_in_order(alloc, words, source, sink, &mut witness, disk)
}

/// What `load` does, before a witness. It is shown the sink and the disk before the text of each group, and before the lines of the
/// abandonments. Each image of the disk from that moment on holds all calls that were accepted up to the end of the group, or of the
/// opening.
#[tactic(none)]
pub fn load_in_order<S: Source, K: Sink, W: Witness<K, D>, D: Disk>(
    alloc: Global,
    words: Vec<String>,
    mut source: S,
    mut sink: K,
    witness: &mut W,
    disk: D,
) -> Ended<S, K, D>
    ensures ran { IsNumberOf (LoadRanInOrder S.left D.seen (map (λ w. string_bytes w) words.items) source result.source disk result.disk
        (K.held sink) (K.held result.sink) (W.shown witness.old) (W.shown witness.new)) result.status }

    // A fault of a device is told only where it was counted, and one of the sink wherever it was.
    ensures read_fault { result.status ≡ number_of statuses.Source → HasRisen (S.faults source) (S.faults result.source) }
    ensures write_fault { result.status ≡ number_of statuses.Sink → HasRisen (K.faults sink) (K.faults result.sink) }
    ensures write_fault_told { K.faults sink < K.faults result.sink → result.status ≡ number_of statuses.Sink }
    ensures disk_fault { result.status ≡ number_of statuses.Disk → HasRisen (D.seen disk).count (D.seen result.disk).count }

    // Each status comes where its cause is, and only there.
    ensures comes { IsNumberOf (LoadComesWhere (map (λ w. string_bytes w) words.items) (S.left source) (D.seen disk)) result.status }
    ensures only { IsNumberOf (LoadComesOnly D.seen (HasTakenFirst (K.held sink) (K.held result.sink))
        (map (λ w. string_bytes w) words.items) (S.left source) disk result.disk) result.status }

    // Without a fault it is all done.
    ensures complete { IsNumberOf (CompletesLoad D.seen (map (λ w. string_bytes w) words.items) (S.left source) disk result.disk
        (K.held sink) (K.held result.sink) (HasRisen (S.faults source) (S.faults result.source))
        (HasRisen (K.faults sink) (K.faults result.sink))) result.status }
{
    bytes_hold_one_list();
    let (status, disk) = answer_words(
        alloc,
        words.as_slice(),
        &mut source,
        &mut sink,
        witness,
        disk,
    );
    Ended {
        status: status.number(),
        source,
        sink,
        disk,
    }
}

/// What the program ends with where there was no memory for its words or for the path of its journal: a line and status 9, or
/// status 4. The source is not called, and no disk is made.
pub fn without_words<S: Source, K: Sink>(source: S, mut sink: K) -> Ended<S, K, ()>
    ensures wrote { IsNumberOf (Wrote IsMemoryDue (K.held sink) (K.held result.sink)) result.status }
    ensures write_fault { result.status ≡ number_of statuses.Sink → HasRisen (K.faults sink) (K.faults result.sink) }
    ensures write_fault_told { K.faults sink < K.faults result.sink → result.status ≡ number_of statuses.Sink }
    ensures unread { result.source ≡ source }
{
    let status = tell_no_memory(&mut sink);
    Ended {
        status: status.number(),
        source,
        sink,
        disk: (),
    }
}
