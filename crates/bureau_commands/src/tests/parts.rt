//! Claims of which a part is agreed to.
use crate::tests::runs::{expect_end, left_by};

// A claim of 10.00 of which 6.00 are agreed to, and one of 10.00 against it.
const PART_AND_WHOLE: &[u8] =
    b"1 FIRM A\n1 FIRM B\n1 FILE B I-1 A 10.00 2025-01-31\n1 FILE A I-2 B 10.00 2025-01-31\n1 CONFIRM B I-1 A 6.00\n1 CONFIRM A I-2 B\n1 CLOSE PLAIN 2025-12-31\n1 POSITION A\n";

const PART_AND_WHOLE_DONE: &[u8] =
    b"1 FIRM A = ok\n1 FIRM B = ok\n1 FILE B I-1 A 10.00 2025-01-31 = ok\n1 FILE A I-2 B 10.00 2025-01-31 = ok\n1 CONFIRM B I-1 A 6.00 = ok\n1 CONFIRM A I-2 B = ok\n1 CLOSE PLAIN 2025-12-31 = opened 1\n1 PUBLISH 1 = published 12.00\nROUND 1 PLAIN\nPARTY A 0.00 0.00 ?\nPARTY B 0.00 0.00 ?\nCLAIM B I-1 A 6.00 6.00\nCLAIM A I-2 B 10.00 6.00\nEND\n1 POSITION A = balance 0.00 receivable 4.00 payable 0.00\n";

// The rest of both is settled once all of the first is agreed to.
const THE_REST: &[u8] =
    b"1 CONFIRM B I-1 A\n1 DISPUTE B I-1 A\n1 CONFIRM B I-1 A\n1 POSITION A\n1 CLOSE PLAIN 2025-12-31\n1 POSITION A\n";

const THE_REST_DONE: &[u8] =
    b"1 CONFIRM B I-1 A = refused 9 wrong-state\n1 DISPUTE B I-1 A = ok\n1 CONFIRM B I-1 A = ok\n1 POSITION A = balance 0.00 receivable 4.00 payable 4.00\n1 CLOSE PLAIN 2025-12-31 = opened 2\n1 PUBLISH 2 = published 8.00\nROUND 2 PLAIN\nPARTY A 0.00 0.00 ?\nPARTY B 0.00 0.00 ?\nCLAIM B I-1 A 4.00 4.00\nCLAIM A I-2 B 4.00 4.00\nEND\n1 POSITION A = balance 0.00 receivable 0.00 payable 0.00\n";

// The second run reads the first one's journal.
#[test]
fn a_part_and_then_the_rest(rt: HostRuntime) {
    let first = left_by(&rt, rt.alloc(), &["run"], PART_AND_WHOLE, b"", 0);
    first.expect(&rt, 0, PART_AND_WHOLE_DONE);
    let journal = first.journal.as_slice();
    let second = left_by(&rt, rt.alloc(), &["run"], THE_REST, journal, 0);
    second.expect(&rt, 0, THE_REST_DONE);
}

// Requests behind two firms and a claim of 10.00 that A owes B, and the output for them.
const AGREED: [(&[u8], &[u8]); 5] = [
    (
        b"1 CONFIRM B I-1 A 10.01\n1 CONFIRM B I-1 B 10.01\n1 CONFIRM B I-1 A 10.00\n1 CONFIRM B I-1 A 10.01\n",
        b"1 CONFIRM B I-1 A 10.01 = refused 20 over-amount\n1 CONFIRM B I-1 B 10.01 = refused 8 not-debtor\n1 CONFIRM B I-1 A 10.00 = ok\n1 CONFIRM B I-1 A 10.01 = refused 9 wrong-state\n",
    ),
    (
        b"1 CONFIRM B I-1 A 6.00\n1 RECEIVE B I-1 7.00\n1 POSITION B\n1 CLOSE PLAIN 2025-12-31\n1 RECEIVE B I-1 3.01\n1 RECEIVE B I-1 3.00\n",
        b"1 CONFIRM B I-1 A 6.00 = ok\n1 RECEIVE B I-1 7.00 = ok\n1 POSITION B = balance 0.00 receivable 0.00 payable 0.00\n1 CLOSE PLAIN 2025-12-31 = opened 1\n1 PUBLISH 1 = published 0.00\nROUND 1 PLAIN\nEND\n1 RECEIVE B I-1 3.01 = refused 11 over-open\n1 RECEIVE B I-1 3.00 = ok\n",
    ),
    (
        b"1 CONFIRM B I-1 A 6.00\n1 POSITION B\n1 RECEIVE B I-1 4.00\n1 POSITION B\n1 CLOSE PLAIN 2025-12-31\n",
        b"1 CONFIRM B I-1 A 6.00 = ok\n1 POSITION B = balance 0.00 receivable 6.00 payable 0.00\n1 RECEIVE B I-1 4.00 = ok\n1 POSITION B = balance 0.00 receivable 2.00 payable 0.00\n1 CLOSE PLAIN 2025-12-31 = opened 1\n1 PUBLISH 1 = published 0.00\nROUND 1 PLAIN\nPARTY A 0.00 0.00 ?\nPARTY B 0.00 0.00 ?\nCLAIM B I-1 A 2.00 0.00\nEND\n",
    ),
    (
        b"1 CONFIRM B I-1 A 6.00\n1 DISPUTE B I-1 A\n1 POSITION B\n1 CONFIRM B I-1 A 8.00\n1 POSITION B\n",
        b"1 CONFIRM B I-1 A 6.00 = ok\n1 DISPUTE B I-1 A = ok\n1 POSITION B = balance 0.00 receivable 0.00 payable 0.00\n1 CONFIRM B I-1 A 8.00 = ok\n1 POSITION B = balance 0.00 receivable 8.00 payable 0.00\n",
    ),
    (
        b"1 RECEIVE B I-1 9.00\n1 CONFIRM B I-1 A 6.00\n1 POSITION B\n1 DISPUTE B I-1 A\n1 CONFIRM B I-1 A\n1 POSITION B\n",
        b"1 RECEIVE B I-1 9.00 = ok\n1 CONFIRM B I-1 A 6.00 = ok\n1 POSITION B = balance 0.00 receivable 0.00 payable 0.00\n1 DISPUTE B I-1 A = ok\n1 CONFIRM B I-1 A = ok\n1 POSITION B = balance 0.00 receivable 1.00 payable 0.00\n",
    ),
];

const FILED: &[u8] = b"1 FIRM A\n1 FIRM B\n1 FILE B I-1 A 10.00 2025-01-31\n";

#[test]
fn parts_of_a_claim(rt: HostRuntime) {
    let filed = left_by(&rt, rt.alloc(), &["run"], FILED, b"", 0);
    for (requests, output) in AGREED {
        let journal = filed.journal.as_slice();
        left_by(&rt, rt.alloc(), &["run"], requests, journal, 0).expect(&rt, 0, output);
    }
}

// The notices of a claim on which more was received than was agreed to.
#[test]
fn the_part_is_noticed(rt: HostRuntime) {
    let filed = left_by(&rt, rt.alloc(), &["run"], FILED, b"", 0);
    let agreed = left_by(
        &rt,
        rt.alloc(),
        &["run"],
        b"1 CONFIRM B I-1 A 6.00\n1 RECEIVE B I-1 7.00\n",
        filed.journal.as_slice(),
        0,
    );
    let journal = agreed.journal.as_slice();
    let told = left_by(&rt, rt.alloc(), &["notices", "2026-01-10"], b"", journal, 0);
    told.expect(
        &rt,
        0,
        b"debtor,creditor,invoice,status,amount,open,part,due,overdue\nA,B,I-1,confirmed,10.00,3.00,0.00,2025-01-31,344\n",
    );
}

// The record of `1 CONFIRM B I-1 A 6.00` has the tag 16, and stands behind a pool, too.
#[test]
fn amounts_stand_in_the_journal(rt: HostRuntime) {
    let cases: [(&[u8], usize, &[u8]); 2] = [
        (
            b"1 FIRM A\n1 FIRM B\n1 FILE B I-1 A 10.00 2025-01-31\n1 CONFIRM B I-1 A 6.00\n",
            89,
            b"\x01\x00\x00\x00\x15\x00\x00\x00\x01\x10\x01B\x03I-1\x01A\x00\x00\x00\x00\x00\x00\x02\x58\x00",
        ),
        (
            b"1 @EAST FIRM A\n1 @EAST FIRM B\n1 @EAST FILE B I-1 A 10.00 2025-01-31\n1 @EAST CONFIRM B I-1 A 6.00\n",
            113,
            b"\x01\x00\x00\x00\x1b\x00\x00\x00\x01\x0f\x04EAST\x10\x01B\x03I-1\x01A\x00\x00\x00\x00\x00\x00\x02\x58\x00",
        ),
    ];
    for (requests, length, end) in cases {
        let run = left_by(&rt, rt.alloc(), &["run"], requests, b"", 0);
        assert!(rt; run.status == 0);
        assert!(rt; run.journal.len() == length && run.journal.as_slice().ends_with(end));
    }
}

// Requests whose amount is none, or has a field behind it, and what is told of them.
const BAD: [(&[u8], &[u8]); 3] = [
    (b"1 CONFIRM B I-1 A 0.00\n", b"fault line 1 field 4\n"),
    (
        b"1 FIRM A\n1 @EAST CONFIRM B I-1 A 10000000000.00\n",
        b"fault line 2 field 4\n",
    ),
    (b"1 CONFIRM B I-1 A 6.00 6.00\n", b"fault line 1 fields\n"),
];

#[test]
fn amounts_are_in_their_range(rt: HostRuntime) {
    for (requests, output) in BAD {
        expect_end(&rt, rt.alloc(), &["run"], requests, 6, output);
    }
}
