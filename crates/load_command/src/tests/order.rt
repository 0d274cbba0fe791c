//! Tests of the order in which a load uses its sink and its disk.

use crate::tests::made::{disk_of, held};
use crate::{Ended, SilentWitness, Witness, load_in_order};
use bureau_edge::{BytesSink, BytesSource};
use disk_model::MemoryDisk;
use std::process::Abort;

// Three groups, the second of which has no accepted line.
const INPUT: &[u8] = b"1 FIRM A\n2 FIRM B\nFENCE\n1 FIRM A\nFENCE\n1 FIRM C\n";

// What a sink had taken, and the moment of the disk, when both were shown.
#[derive(Clone, Copy, PartialEq)]
struct Note {
    taken: usize,
    moment: u64,
}

fn noted(taken: usize, moment: u64) -> Note {
    Note { taken, moment }
}

// Notes what it is shown, and hands it on.
#[derive(Drop)]
struct NotingWitness<W> {
    witness: W,
    notes: Vec<Note>,
}

impl<W: Witness<BytesSink, MemoryDisk>> Witness<BytesSink, MemoryDisk> for NotingWitness<W> {
    ghost shown = { λ w. W.shown w.witness };

    fn show(&mut self, sink: &BytesSink, disk: &MemoryDisk) {
        let _ = self.notes.push(noted(sink.bytes().len(), disk.moment()));
        self.witness.show(sink, disk)
    }
}

// What is left of a load.
#[derive(Drop)]
struct Left {
    ended: Ended<BytesSource, BytesSink, MemoryDisk>,
    notes: Vec<Note>,
}

// Loads the input on a disk without bytes, before a witness. Of the calls of the sink and of the disk these fail.
fn left_by(rt: &(impl Abort + AllocGlobal), on_sink: u64, on_disk: u64) -> Left {
    let input = Vec::from_slice(rt.alloc(), INPUT).expect(rt, "memory");
    let source = BytesSource::new(input, Vec::new(rt.alloc()));
    let fails = Vec::from_slice(rt.alloc(), &[on_sink]).expect(rt, "memory");
    let sink = BytesSink::new(rt.alloc(), fails);
    let disk = disk_of(rt, b"", &[on_disk]);
    let mut witness = NotingWitness {
        witness: SilentWitness::new(),
        notes: Vec::new(rt.alloc()),
    };
    let words = Vec::new(rt.alloc());
    let ended = load_in_order(rt.alloc(), words, source, sink, &mut witness, disk);
    Left {
        ended,
        notes: witness.notes,
    }
}

// Each image of the disk from a moment on has at least so many records.
fn are_held(rt: &(impl Abort + AllocGlobal), disk: &MemoryDisk, from: u64, least: usize) {
    for moment in from..=disk.moment() {
        for pick in 0..4 {
            let image = disk.image(rt.alloc(), moment, pick).expect(rt, "memory");
            assert!(rt; held(rt, &image) >= least);
        }
    }
}

// Both are shown behind the opening, and behind the last call of the disk for each group, before what is written of it. The opening has
// eight moments, and each group with an accepted line eight more; 28 and 33 bytes are the texts of the first two groups.
#[test]
fn a_group_is_kept_then_shown_and_then_written(rt: HostRuntime) {
    let left = left_by(&rt, 0, 0);
    let due = [noted(0, 8), noted(0, 16), noted(28, 16), noted(61, 24)];
    assert!(rt; left.ended.status == 0);
    assert!(rt; left.notes.as_slice() == due.as_slice());
    are_held(&rt, &left.ended.disk, 16, 2);
    are_held(&rt, &left.ended.disk, 24, 3);
}

// A group at whose text the sink fails was shown, and one at which the disk fails was not.
#[test]
fn a_group_that_fails_is_shown_where_it_is_kept(rt: HostRuntime) {
    let left = left_by(&rt, 1, 0);
    let due = [noted(0, 8), noted(0, 16)];
    assert!(rt; left.ended.status == 4);
    assert!(rt; left.notes.as_slice() == due.as_slice());
    let left = left_by(&rt, 0, 5);
    let due = [noted(0, 8)];
    assert!(rt; left.ended.status == 5);
    assert!(rt; left.notes.as_slice() == due.as_slice());
}
