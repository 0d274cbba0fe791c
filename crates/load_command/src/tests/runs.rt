//! Tests of groups of lines: requests in, entries out.

use crate::tests::made::{begin, held};
use bureau_edge::BytesSink;
use disk_model::MemoryDisk;
use group_runs::{
    ExitStatus, GROUP_LINES, LoadBreak, SilentWitness, first_close, load_batches, output_buffer,
};
use request_text::{Batch, read_requests};
use std::process::Abort;

// Three groups in four batches, with two refused lines, the second of which is a group of its own, and one in another pool.
const INPUT: &[u8] =
    b"1 FIRM A\n1 FIRM A\n2 @EAST FIRM A\nFENCE\n1 FIRM A\nFENCE\nFENCE\n1 FIRM B\n";

// The texts of the groups.
const FIRST: &[u8] = b"1 FIRM A = ok\n1 FIRM A = refused 1 firm-exists\n2 @EAST FIRM A = ok\n";

const TWO: &[u8] =
    b"1 FIRM A = ok\n1 FIRM A = refused 1 firm-exists\n2 @EAST FIRM A = ok\n1 FIRM A = refused 1 firm-exists\n";

const ALL: &[u8] =
    b"1 FIRM A = ok\n1 FIRM A = refused 1 firm-exists\n2 @EAST FIRM A = ok\n1 FIRM A = refused 1 firm-exists\n1 FIRM B = ok\n";

// What is left of a load.
#[derive(Drop)]
struct Left {
    status: ExitStatus,
    sink: BytesSink,
    disk: MemoryDisk,
}

fn batches_of(rt: &(impl Abort + AllocGlobal), input: &[u8]) -> Vec<Batch> {
    let batches = read_requests(rt.alloc(), input).ok();
    batches.expect(rt, "requests")
}

// Loads the input on a disk and a sink, of whose calls these fail.
fn left_by(rt: &(impl Abort + AllocGlobal), on_disk: &[u64], on_sink: &[u64]) -> Left {
    let batches = batches_of(rt, INPUT);
    let None = first_close(batches.as_slice()) else {
        panic!(rt; "no Close");
    };
    let mut answers = Vec::with_capacity(rt.alloc(), GROUP_LINES).expect(rt, "memory");
    let mut buffer = output_buffer(rt.alloc()).expect(rt, "memory");
    let fails = Vec::from_slice(rt.alloc(), on_sink).expect(rt, "memory");
    let mut sink = BytesSink::new(rt.alloc(), fails);
    let loader = begin(rt, on_disk);
    let ended = load_batches(
        loader,
        batches.as_slice(),
        &mut answers,
        &mut sink,
        &mut SilentWitness::new(),
        &mut buffer,
    );
    let (status, disk) = match ended {
        Ok(ended) => ended,
        Err(LoadBreak::Sink { disk }) => (ExitStatus::Sink, disk),
        Err(LoadBreak::Disk(stopped)) => (ExitStatus::Disk, stopped.disk),
    };
    Left { status, sink, disk }
}

// The status, the printed text, and the number of records.
fn expect(
    rt: &(impl Abort + AllocGlobal),
    left: &Left,
    status: ExitStatus,
    text: &[u8],
    count: usize,
) {
    assert!(rt; left.status == status);
    assert!(rt; left.sink.bytes() == text);
    assert!(rt; held(rt, left.disk.bytes()) == count);
}

// The opening has eight moments, and each group with an accepted line eight more.
#[test]
fn groups_are_kept_and_printed(rt: HostRuntime) {
    let left = left_by(&rt, &[], &[]);
    expect(&rt, &left, ExitStatus::Done, ALL, 3);
    assert!(rt; left.disk.moment() == 8 + 2 * 8);
}

// A group at which the disk fails has no text. Once its gate was opened its records may be read.
#[test]
fn each_call_of_the_disk_fails(rt: HostRuntime) {
    for (fails, count) in [(5, 0), (6, 0), (7, 0), (8, 2)] {
        let left = left_by(&rt, &[fails], &[]);
        expect(&rt, &left, ExitStatus::Disk, b"", count);
    }
    for (fails, count) in [(9, 2), (10, 2), (11, 2), (12, 3)] {
        let left = left_by(&rt, &[fails], &[]);
        expect(&rt, &left, ExitStatus::Disk, TWO, count);
    }
}

// A group at whose text the sink fails is kept, and ends the load.
#[test]
fn each_call_of_the_sink_fails(rt: HostRuntime) {
    let table: [(u64, &[u8], usize); 3] = [(1, b"", 2), (2, FIRST, 2), (3, TWO, 3)];
    for (fails, text, count) in table {
        let left = left_by(&rt, &[], &[fails]);
        expect(&rt, &left, ExitStatus::Sink, text, count);
    }
}

#[test]
fn the_first_close_is_found(rt: HostRuntime) {
    let batches = batches_of(
        &rt,
        b"1 FIRM A\nFENCE\n1 FIRM B\n2 CLOSE PLAIN 2025-01-31\n1 CLOSE PLAIN 2025-01-31\n",
    );
    assert!(rt; first_close(batches.as_slice()) == Some(4));
}
