//! What a journal holds, as text.
use crate::tests::journals::{TRIANGLE, TWO_OPEN};
use crate::tests::runs::left_by;
use std::alloc::Global;
use std::process::Abort;
use std::sync::Wait;
use std::thread::Threads;

// Ends the test where these words do not end so on a journal, which stays as it is.
fn expect_told<R: Abort + Threads + Wait + Sync>(
    rt: &R,
    alloc: Global,
    journal: &[u8],
    texts: &[&str],
    status: u8,
    output: &[u8],
) {
    let told = left_by(rt, alloc, texts, b"", journal, 0);
    told.expect(rt, status, output);
    assert!(rt; told.journal.as_slice() == journal);
}

// Rings of two firms in the pools MAIN and EAST, each with a round, and a round of MAIN without claims; a refusal and a position.
const TWO_POOLS: &[u8] =
    b"1 FIRM A\n1 FIRM B\n1 FIRM A\n1 @EAST FIRM A\n1 @EAST FIRM B\n1 FILE B I-1 A 10.00 2025-01-31\n1 FILE A I-2 B 6.00 2025-01-31\n1 @EAST FILE B I-1 A 3.00 2025-01-31\n1 @EAST FILE A I-2 B 5.00 2025-01-31\n1 CONFIRM B I-1 A\n1 CONFIRM A I-2 B\n1 @EAST CONFIRM B I-1 A\n1 @EAST CONFIRM A I-2 B\n1 CLOSE PLAIN 2025-01-31\n1 @EAST CLOSE PLAIN 2025-01-31\n1 POSITION A\n1 CLOSE PLAIN 2024-12-31\n";

// What the words tell of the journal then, with ? for each price.
const OF_TWO_POOLS: [(&[&str], u8, &[u8]); 22] = [
    (
        &["statement", "1"],
        0,
        b"ROUND 1 PLAIN\nPARTY A 0.00 0.00 ?\nPARTY B 0.00 0.00 ?\nCLAIM B I-1 A 10.00 6.00\nCLAIM A I-2 B 6.00 6.00\nEND\n",
    ),
    (
        &["statement", "1", "EAST"],
        0,
        b"ROUND 1 PLAIN\nPARTY A 0.00 0.00 ?\nPARTY B 0.00 0.00 ?\nCLAIM B I-1 A 3.00 3.00\nCLAIM A I-2 B 5.00 3.00\nEND\n",
    ),
    (&["statement", "2"], 0, b"ROUND 2 PLAIN\nEND\n"),
    (&["statement", "2", "EAST"], 1, b"no round 2\n"),
    (&["statement", "4294967295"], 1, b"no round 4294967295\n"),
    (
        &["history", "EAST"],
        0,
        b"1 FIRM A = ok\n1 FIRM B = ok\n1 FILE B I-1 A 3.00 2025-01-31 = ok\n1 FILE A I-2 B 5.00 2025-01-31 = ok\n1 CONFIRM B I-1 A = ok\n1 CONFIRM A I-2 B = ok\n1 CLOSE PLAIN 2025-01-31 = opened 1\n1 PUBLISH 1 = published 6.00\nROUND 1 PLAIN\nPARTY A 0.00 0.00 ?\nPARTY B 0.00 0.00 ?\nCLAIM B I-1 A 3.00 3.00\nCLAIM A I-2 B 5.00 3.00\nEND\n",
    ),
    (&["history", "WEST"], 0, b""),
    (
        &["pools"],
        0,
        b"pool,entries,firms,claims,open,opened,published\nMAIN,11,2,2,1,2,2\nEAST,8,2,2,1,1,1\n",
    ),
    (
        &["account", "A"],
        0,
        b"act,entry,in,out,balance,receivable,payable\n1,1 FIRM A,0.00,0.00,0.00,0.00,0.00\n5,1 FILE B I-1 A 10.00 2025-01-31,0.00,0.00,0.00,0.00,0.00\n6,1 FILE A I-2 B 6.00 2025-01-31,0.00,0.00,0.00,0.00,0.00\n9,1 CONFIRM B I-1 A,0.00,0.00,0.00,0.00,10.00\n10,1 CONFIRM A I-2 B,0.00,0.00,0.00,6.00,10.00\n14,1 PUBLISH 1,6.00,6.00,0.00,0.00,4.00\n",
    ),
    (
        &["account", "A", "EAST"],
        0,
        b"act,entry,in,out,balance,receivable,payable\n3,1 FIRM A,0.00,0.00,0.00,0.00,0.00\n7,1 FILE B I-1 A 3.00 2025-01-31,0.00,0.00,0.00,0.00,0.00\n8,1 FILE A I-2 B 5.00 2025-01-31,0.00,0.00,0.00,0.00,0.00\n11,1 CONFIRM B I-1 A,0.00,0.00,0.00,0.00,3.00\n12,1 CONFIRM A I-2 B,0.00,0.00,0.00,5.00,3.00\n16,1 PUBLISH 1,3.00,3.00,0.00,2.00,0.00\n",
    ),
    (&["account", "C"], 1, b"no firm C\n"),
    (
        &["since", "16"],
        0,
        b"1 POSITION A = balance 0.00 receivable 0.00 payable 4.00\n1 CLOSE PLAIN 2024-12-31 = opened 2\n1 PUBLISH 2 = published 0.00\nROUND 2 PLAIN\nEND\n",
    ),
    (
        &["since", "15", "EAST"],
        0,
        b"1 PUBLISH 1 = published 6.00\nROUND 1 PLAIN\nPARTY A 0.00 0.00 ?\nPARTY B 0.00 0.00 ?\nCLAIM B I-1 A 3.00 3.00\nCLAIM A I-2 B 5.00 3.00\nEND\n",
    ),
    (&["since", "19"], 0, b""),
    (&["since", "20"], 1, b"no act 20\n"),
    (
        &["parts", "1"],
        0,
        b"ROUND 1 PLAIN\nPARTY A 0.00 0.00 ?\nCLAIM B I-1 A 10.00 6.00\nCLAIM A I-2 B 6.00 6.00\nNET 6.00 6.00\nEND\nROUND 1 PLAIN\nPARTY B 0.00 0.00 ?\nCLAIM B I-1 A 10.00 6.00\nCLAIM A I-2 B 6.00 6.00\nNET 6.00 6.00\nEND\n",
    ),
    (&["parts", "2", "EAST"], 1, b"no round 2\n"),
    (
        &["forecast", "PLAIN", "2025-01-31"],
        0,
        b"ROUND 3 PLAIN\nPARTY A 0.00 0.00 ?\nPARTY B 0.00 0.00 ?\nCLAIM B I-1 A 4.00 0.00\nEND\n",
    ),
    (
        &["forecast", "FUNDED", "2025-01-31", "WEST"],
        0,
        b"ROUND 1 FUNDED\nEND\n",
    ),
    (
        &["seal", "0"],
        0,
        b"acts 0 bytes 0 sha256 e3b0c44298fc1c149afbf4c8996fb92427ae41e4649b934ca495991b7852b855\n",
    ),
    (
        &["seal", "2"],
        0,
        b"acts 2 bytes 24 sha256 8feeb1d3269c0fba00e79621495faed01f9c52fac4217ee8b7b8e79fb921759d\n",
    ),
    (&["seal", "20"], 1, b"no act 20\n"),
];

#[test]
fn rounds_of_two_pools(rt: HostRuntime) {
    let day = left_by(&rt, rt.alloc(), &["run"], TWO_POOLS, b"", 0);
    for (texts, status, output) in OF_TWO_POOLS {
        expect_told(
            &rt,
            rt.alloc(),
            day.journal.as_slice(),
            texts,
            status,
            output,
        );
    }
}

// All that a run prints whose lines are accepted is what the history prints, with the same prices.
#[test]
fn a_run_is_its_history(rt: HostRuntime) {
    let day = left_by(&rt, rt.alloc(), &["run"], TRIANGLE, b"", 0);
    let printed = day.printed.as_slice();
    expect_told(
        &rt,
        rt.alloc(),
        day.journal.as_slice(),
        &["history"],
        0,
        printed,
    );
}

// Rounds that were left open are abandoned, and have no statement.
#[test]
fn an_abandoned_round_has_no_statement(rt: HostRuntime) {
    let opened = left_by(&rt, rt.alloc(), &["run"], b"", TWO_OPEN, 0);
    let journal = opened.journal.as_slice();
    expect_told(
        &rt,
        rt.alloc(),
        journal,
        &["history"],
        0,
        b"1 CLOSE PLAIN 2025-12-31 = opened 1\n1 @EAST CLOSE PLAIN 2025-12-31 = opened 1\n0 ABANDON = abandoned 1\n0 @EAST ABANDON = abandoned 1\n",
    );
    expect_told(
        &rt,
        rt.alloc(),
        journal,
        &["statement", "1"],
        1,
        b"no round 1\n",
    );
    expect_told(
        &rt,
        rt.alloc(),
        TWO_OPEN,
        &["statement", "1", "EAST"],
        1,
        b"no round 1\n",
    );
}

// A journal that is not sound is told by its fault line alone.
#[test]
fn a_damaged_journal_is_told(rt: HostRuntime) {
    let journal =
        b"BUREAUJ1\x01\x00\x00\x00\x07\x00\x00\x00\x01\x01\x01A\x01\x00\x00\x00\x07\x00\x00\x00\x01\x01\x01A\x00";
    let fault = b"fault journal 20 refused 1 firm-exists\n";
    expect_told(&rt, rt.alloc(), journal, &["history"], 8, fault);
    expect_told(&rt, rt.alloc(), journal, &["statement", "1"], 8, fault);
}
