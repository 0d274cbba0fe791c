//! Tests of whole loads: the requests of an input, a disk before and after, and what was printed.

use crate::tests::made::{disk_of, held};
use crate::{ExitStatus, SilentWitness, load_requests};
use bureau_edge::BytesSink;
use disk_model::MemoryDisk;
use group_runs::first_close;
use load_reading::read_load;
use std::process::Abort;

// What is left of a load.
#[derive(Drop)]
struct Left {
    status: ExitStatus,
    sink: BytesSink,
    disk: MemoryDisk,
}

// Two groups of one line each, on a disk in memory of whose calls these fail.
fn left_by(rt: &(impl Abort + AllocGlobal), fails: &[u64]) -> Left {
    let batches = read_load(rt.alloc(), b"1 FIRM A\nFENCE\n1 FIRM B\n").ok();
    let batches = batches.expect(rt, "requests");
    let None = first_close(batches.as_slice()) else {
        panic!(rt; "no Close");
    };
    let mut sink = BytesSink::new(rt.alloc(), Vec::new(rt.alloc()));
    let disk = disk_of(rt, b"", fails);
    let mut witness = SilentWitness::new();
    let batches = batches.as_slice();
    let (status, disk) = load_requests(rt.alloc(), batches, &mut sink, &mut witness, disk);
    Left { status, sink, disk }
}

// The status, the printed text, and the number of records.
fn expect(
    rt: &(impl Abort + AllocGlobal),
    left: &Left,
    status: ExitStatus,
    text: &[u8],
    count: usize,
) {
    assert!(rt; left.status == status);
    assert!(rt; left.sink.bytes() == text);
    assert!(rt; held(rt, left.disk.bytes()) == count);
}

#[test]
fn requests_are_loaded(rt: HostRuntime) {
    let left = left_by(&rt, &[]);
    expect(
        &rt,
        &left,
        ExitStatus::Done,
        b"1 FIRM A = ok\n1 FIRM B = ok\n",
        2,
    );
}

// The opening makes four calls of the disk, and each group four more. A group at which the disk fails has no text.
#[test]
fn a_disk_that_fails_is_told(rt: HostRuntime) {
    let left = left_by(&rt, &[5]);
    expect(&rt, &left, ExitStatus::Disk, b"fault device 0 1\n", 0);
    let left = left_by(&rt, &[9]);
    expect(
        &rt,
        &left,
        ExitStatus::Disk,
        b"1 FIRM A = ok\nfault device 0 1\n",
        1,
    );
}
