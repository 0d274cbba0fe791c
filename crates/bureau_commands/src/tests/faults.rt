//! One failing call at a time, and counts of faults at their last value.

use crate::tests::journals::{TRIANGLE, TWO_OPEN};
use crate::tests::runs::{
    FOUR_ENTRIES, FOUR_LINES, disk_of, expect_audit, failing_source, left_by, left_on, lines_with,
    sink_of, source_of, text_with,
};
use disk_model::MemoryDisk;
use std::alloc::Global;
use std::process::Abort;

// What an audit tells of the triangle whose call of this number failed, with ? for each number that is not looked at.
fn verdict_after(call: u64) -> &'static [u8] {
    match call {
        41..=43 => b"yes acts 9 rounds 0\n",
        44..=47 => b"yes acts 10 rounds 0\n",
        48 => b"yes acts 11 rounds 1\n",
        _ => b"yes acts ? rounds ?\n",
    }
}

// Ends the test where not this entry alone is refused for the device.
fn expect_refused(rt: &impl Abort, output: &[u8], entry: u64) {
    let (times, line) = lines_with(output, b"", b" = refused 18 device 0 1");
    assert!(rt; times == 1);
    assert!(rt; line == entry);
}

// The opening has four calls of the disk and each act four. One of them fails.
#[test]
fn each_call_of_the_triangle_fails(rt: HostRuntime) {
    for call in 1..=48 {
        let left = left_by(&rt, rt.alloc(), &["run"], TRIANGLE, b"", call);
        if call <= 4 {
            left.expect(&rt, 5, b"fault device 0 1\n");
        } else {
            assert!(rt; left.status == 5);
            let entry = (call - 5) / 4 + 1;
            expect_refused(&rt, left.printed.as_slice(), entry);
            expect_audit(
                &rt,
                rt.alloc(),
                left.journal.as_slice(),
                verdict_after(call),
            );
        }
    }
}

// Of two abandonments the second fails: the run ends, and the first one is kept.
#[test]
fn an_abandonment_fails(rt: HostRuntime) {
    let left = left_by(&rt, rt.alloc(), &["run"], b"1 FIRM A\n", TWO_OPEN, 8);
    left.expect(&rt, 5, b"fault device 0 1\n");
    expect_audit(
        &rt,
        rt.alloc(),
        left.journal.as_slice(),
        b"yes acts 3 rounds 0\n",
    );
}

// A Close three times, of which the last is published.
const THREE_ATTEMPTS: &[u8] =
    b"1 FIRM A = ok\n1 FIRM B = ok\n1 FIRM C = ok\n1 FILE B I-1 A 10.00 2025-01-31 = ok\n1 FILE C I-2 B 7.00 2025-01-31 = ok\n1 FILE A I-3 C 12.00 2025-01-31 = ok\n1 CONFIRM B I-1 A = ok\n1 CONFIRM C I-2 B = ok\n1 CONFIRM A I-3 C = ok\n1 CLOSE PLAIN 2025-12-31 = opened 1\n1 PUBLISH 1 = refused 18 device 18446744073709551614 18446744073709551615\n1 CLOSE PLAIN 2025-12-31 = continued 1\n1 PUBLISH 1 = refused 18 device 18446744073709551615 18446744073709551615\n1 CLOSE PLAIN 2025-12-31 = continued 1\n1 PUBLISH 1 = published 21.00\nROUND 1 PLAIN\nPARTY A 0.00 0.00 ?\nPARTY B 0.00 0.00 ?\nPARTY C 0.00 0.00 ?\nCLAIM B I-1 A 10.00 7.00\nCLAIM C I-2 B 7.00 7.00\nCLAIM A I-3 C 12.00 7.00\nEND\n";

// The last line of the triangle three times, on a disk whose count of faults reaches its last value.
#[test]
fn the_count_of_faults_stands_still(rt: HostRuntime) {
    let input = text_with(&rt, rt.alloc(), TRIANGLE, b"1 CLOSE PLAIN 2025-12-31\n", 2);
    let fails = Vec::from_slice(rt.alloc(), &[48, 58]).expect(&rt, "memory");
    let disk = MemoryDisk::with_faults(rt.alloc(), Vec::new(rt.alloc()), fails, u64::MAX - 1);
    let source = source_of(&rt, rt.alloc(), input.as_slice());
    let left = left_on(
        &rt,
        rt.alloc(),
        &["run"],
        source,
        sink_of(&rt, rt.alloc(), 0),
        disk,
    );
    left.expect(&rt, 5, THREE_ATTEMPTS);
    assert!(rt; left.journal.len() == 292);
    expect_audit(
        &rt,
        rt.alloc(),
        left.journal.as_slice(),
        b"yes acts 13 rounds 1\n",
    );
}

// The calls of a source and of a sink that fail; the status, the output, the calls of the disk, and what an audit tells then.
type Fault = (u64, u64, u8, &'static [u8], u64, &'static [u8]);

const FAULTS: [Fault; 6] = [
    (1, 0, 3, b"fault read\n", 0, b"yes acts 0 rounds 0\n"),
    (2, 0, 3, b"fault read\n", 0, b"yes acts 0 rounds 0\n"),
    (3, 0, 0, FOUR_ENTRIES, 20, b"yes acts 4 rounds 0\n"),
    (0, 1, 4, b"", 20, b"yes acts 4 rounds 0\n"),
    (0, 2, 0, FOUR_ENTRIES, 20, b"yes acts 4 rounds 0\n"),
    (1, 1, 4, b"", 0, b"yes acts 0 rounds 0\n"),
];

// The source is called twice, and the sink once: the output is shorter than its buffer. Where the source fails the disk is not
// called; where the sink fails the acts are on the disk all the same.
#[test]
fn a_source_and_a_sink_fail(rt: HostRuntime) {
    for (read, write, status, output, calls, verdict) in FAULTS {
        let source = failing_source(&rt, rt.alloc(), FOUR_LINES, read);
        let left = left_on(
            &rt,
            rt.alloc(),
            &["run"],
            source,
            sink_of(&rt, rt.alloc(), write),
            disk_of(&rt, rt.alloc(), b"", 0),
        );
        left.expect(&rt, status, output);
        assert!(rt; left.calls == calls);
        expect_audit(&rt, rt.alloc(), left.journal.as_slice(), verdict);
    }
}

const TWO_BATCHES: &[u8] = b"1 FIRM A\n1 FIRM B\nFENCE\n1 FIRM C\n";

// The call of the sink that fails; the status, the output, the calls of the disk, and what an audit tells then.
type WriteFault = (u64, u8, &'static [u8], u64, &'static [u8]);

const WRITE_FAULTS: [WriteFault; 3] = [
    (1, 4, b"", 12, b"yes acts 2 rounds 0\n"),
    (
        2,
        4,
        b"1 FIRM A = ok\n1 FIRM B = ok\n",
        16,
        b"yes acts 3 rounds 0\n",
    ),
    (
        3,
        0,
        b"1 FIRM A = ok\n1 FIRM B = ok\n1 FIRM C = ok\n",
        16,
        b"yes acts 3 rounds 0\n",
    ),
];

// The sink is called once for each batch. Where it fails at the first, the second is not served: nothing of it is in the journal.
#[test]
fn no_batch_is_served_after_a_write_that_failed(rt: HostRuntime) {
    for (write, status, output, calls, verdict) in WRITE_FAULTS {
        let left = left_on(
            &rt,
            rt.alloc(),
            &["run"],
            source_of(&rt, rt.alloc(), TWO_BATCHES),
            sink_of(&rt, rt.alloc(), write),
            disk_of(&rt, rt.alloc(), b"", 0),
        );
        left.expect(&rt, status, output);
        assert!(rt; left.calls == calls);
        expect_audit(&rt, rt.alloc(), left.journal.as_slice(), verdict);
    }
}

// So many lines of positions, then a Close and one more position.
fn positions_and_close(rt: &impl Abort, alloc: Global, positions: usize) -> Vec<u8> {
    let mut input = text_with(rt, alloc, b"", b"1 POSITION Z\n", positions);
    let close = b"1 CLOSE PLAIN 2025-12-31\n1 POSITION Z\n";
    input.extend_from_slice(close).expect(rt, "memory");
    input
}

// Where the history has room for a Close but not for the end of its round, the Close is full; with one entry less before it the
// round is published.
#[test]
fn a_history_gets_full(rt: HostRuntime) {
    let cases: [(usize, u8, &[u8]); 2] = [
        (
            1_048_574,
            7,
            b"\n1 POSITION Z = refused 3 unknown-firm\n! line 1048575 full entries 1048577 1048576\n",
        ),
        (
            1_048_573,
            0,
            b"\n1 CLOSE PLAIN 2025-12-31 = opened 1\n1 PUBLISH 1 = published 0.00\nROUND 1 PLAIN\nEND\n1 POSITION Z = refused 3 unknown-firm\n",
        ),
    ];
    for (positions, status, end) in cases {
        let input = positions_and_close(&rt, rt.alloc(), positions);
        let left = left_by(&rt, rt.alloc(), &["run"], input.as_slice(), b"", 0);
        assert!(rt; left.status == status);
        assert!(rt; left.printed.as_slice().ends_with(end));
        let (refused, _) = lines_with(left.printed.as_slice(), b"", b" = refused 3 unknown-firm");
        assert!(rt; refused == (positions as u64).wrapping_add(1));
    }
}
