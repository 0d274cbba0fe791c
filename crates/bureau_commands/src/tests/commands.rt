//! Words, the tables of a journal, invoices, and a day of forty firms.
use crate::tests::journals::TRIANGLE;
use crate::tests::runs::{copied, left_by, lines_with};
use std::alloc::{AllocError, Global};
use std::process::Abort;
use std::sync::Wait;
use std::thread::Threads;

// Words that are no command. The source and the disk are not called.
const NO_COMMANDS: [&[&str]; 22] = [
    &[],
    &["RUN"],
    &["run", "now"],
    &["help"],
    &["--help"],
    &["-V"],
    &["positions", "a"],
    &["positions", "@EAST"],
    &["positions", "EAST", "WEST"],
    &["notices", "2026-01-10", "EAST", "WEST"],
    &["notices"],
    &["notices", "2026-02-29"],
    &["notices", "2026-01-10", "2026-01-11"],
    &["weigh", "PLAIN"],
    &["explain", "1"],
    &["history", "EAST", "WEST"],
    &["statement"],
    &["statement", "0"],
    &["import", "0"],
    &["import", "17"],
    &["import", "01"],
    &["trial", "1", "1", "1"],
];

// Ends the test where these words, with an input and a disk without bytes, do not end so before any call of the disk.
fn expect_apart<R: Abort + Threads + Wait + Sync>(
    rt: &R,
    alloc: Global,
    texts: &[&str],
    input: &[u8],
    status: u8,
    output: &[u8],
) {
    let left = left_by(rt, alloc, texts, input, b"", 0);
    left.expect(rt, status, output);
    assert!(rt; left.calls == 0);
}

#[test]
fn words_of_no_command(rt: HostRuntime) {
    for texts in NO_COMMANDS {
        expect_apart(&rt, rt.alloc(), texts, b"1 FIRM A\n", 2, b"fault words\n");
    }
}

// Ends the test where these words do not print this of a journal, which stays as it is.
fn expect_table<R: Abort + Threads + Wait + Sync>(
    rt: &R,
    alloc: Global,
    journal: &[u8],
    texts: &[&str],
    output: &[u8],
) {
    let told = left_by(rt, alloc, texts, b"", journal, 0);
    told.expect(rt, 0, output);
    assert!(rt; told.journal.as_slice() == journal);
}

const TABLES: [(&[&str], &[u8]); 2] = [
    (
        &["notices", "2026-01-10"],
        b"debtor,creditor,invoice,status,amount,open,part,due,overdue\nA,B,I-1,confirmed,10.00,3.00,3.00,2025-01-31,344\nC,A,I-3,confirmed,12.00,5.00,5.00,2025-01-31,344\n",
    ),
    (
        &["positions"],
        b"firm,balance,credit,ceiling,offer,receivable,payable\nA,0.00,0.00,10000000000000.00,0.00,5.00,3.00\nB,0.00,0.00,10000000000000.00,0.00,3.00,0.00\nC,0.00,0.00,10000000000000.00,0.00,0.00,5.00\n",
    ),
];

#[test]
fn tables_of_the_triangle(rt: HostRuntime) {
    let day = left_by(&rt, rt.alloc(), &["run"], TRIANGLE, b"", 0);
    for (texts, output) in TABLES {
        expect_table(&rt, rt.alloc(), day.journal.as_slice(), texts, output);
    }
}

// Firms of the same name in two pools, and a claim in one of them.
const TWO_POOLS: &[u8] =
    b"1 FIRM A\n1 @EAST FIRM A\n1 @EAST FIRM B\n1 @EAST FILE B I-1 A 10.00 2025-01-31\n1 @EAST CONFIRM B I-1 A\n";

const POOL_TABLES: [(&[&str], &[u8]); 6] = [
    (
        &["positions"],
        b"firm,balance,credit,ceiling,offer,receivable,payable\nA,0.00,0.00,10000000000000.00,0.00,0.00,0.00\n",
    ),
    (
        &["positions", "EAST"],
        b"firm,balance,credit,ceiling,offer,receivable,payable\nA,0.00,0.00,10000000000000.00,0.00,0.00,10.00\nB,0.00,0.00,10000000000000.00,0.00,10.00,0.00\n",
    ),
    (
        &["positions", "WEST"],
        b"firm,balance,credit,ceiling,offer,receivable,payable\n",
    ),
    (
        &["notices", "2026-01-09", "EAST"],
        b"debtor,creditor,invoice,status,amount,open,part,due,overdue\nA,B,I-1,confirmed,10.00,10.00,10.00,2025-01-31,343\n",
    ),
    (
        &["notices", "2026-01-09"],
        b"debtor,creditor,invoice,status,amount,open,part,due,overdue\n",
    ),
    (&["audit"], b"yes acts 5 rounds 0\n"),
];

#[test]
fn tables_of_pools(rt: HostRuntime) {
    let day = left_by(&rt, rt.alloc(), &["run"], TWO_POOLS, b"", 0);
    for (texts, output) in POOL_TABLES {
        expect_table(&rt, rt.alloc(), day.journal.as_slice(), texts, output);
    }
}

// A owes B since long ago, and is owed by it; what goes over C is not overdue by a month.
const OVERDUE: &[u8] =
    b"1 FIRM A\n1 FIRM B\n1 FIRM C\n1 FILE B I-1 A 10.00 2025-01-01\n1 FILE A I-2 B 6.00 2025-12-15\n1 FILE C I-3 A 10.00 2025-12-15\n1 FILE B I-4 C 10.00 2025-12-15\n1 CONFIRM B I-1 A\n1 CONFIRM A I-2 B\n1 CONFIRM C I-3 A\n1 CONFIRM B I-4 C\n";

// Two claims of one day, one against the other.
const RING: &[u8] =
    b"1 FIRM A\n1 FIRM B\n1 FILE B I-1 A 10.00 2025-01-01\n1 FILE A I-2 B 10.00 2025-01-01\n1 CONFIRM B I-1 A\n1 CONFIRM A I-2 B\n";

// Acts, the words, and the text, in which each ? stands for a price.
const WEIGHED: [(&[u8], &[&str], &[u8]); 9] = [
    (
        OVERDUE,
        &["weigh", "PLAIN", "2025-12-31"],
        b"WEIGHED PLAIN\nPARTY A 0.00 0.00 ?\nPARTY B 0.00 0.00 ?\nPARTY C 0.00 0.00 ?\nCLAIM B I-1 A 10.00 6.00 9\nCLAIM A I-2 B 6.00 6.00 1\nCLAIM C I-3 A 10.00 0.00 1\nCLAIM B I-4 C 10.00 0.00 1\nTOTAL 60.00\nEND\n",
    ),
    (
        b"1 FIRM A\n1 FIRM B\n1 FIRM C\n1 FILE B I-1 A 10.00 2025-01-31\n1 FILE C I-2 B 7.00 2025-01-31\n1 FILE A I-3 C 12.00 2025-01-31\n1 CONFIRM B I-1 A\n1 CONFIRM C I-2 B\n1 CONFIRM A I-3 C\n",
        &["weigh", "PLAIN", "2025-01-31"],
        b"WEIGHED PLAIN\nPARTY A 0.00 0.00 ?\nPARTY B 0.00 0.00 ?\nPARTY C 0.00 0.00 ?\nCLAIM B I-1 A 10.00 7.00 1\nCLAIM C I-2 B 7.00 7.00 1\nCLAIM A I-3 C 12.00 7.00 1\nTOTAL 21.00\nEND\n",
    ),
    (
        b"1 FIRM A\n1 FIRM B\n1 FUND A 60.00\n1 OFFER A 60.00\n1 FILE B I-1 A 100.00 2025-01-31\n1 FILE B I-2 A 1.00 2025-04-01\n1 CONFIRM B I-1 A\n1 CONFIRM B I-2 A\n",
        &["weigh", "FUNDED", "2025-03-31"],
        b"WEIGHED FUNDED\nPARTY A 60.00 9999999999940.00 ?\nPARTY B 0.00 10000000000000.00 ?\nCLAIM B I-1 A 100.00 60.00 2\nTOTAL 120.00\nEND\n",
    ),
    (
        RING,
        &["weigh", "PLAIN", "2025-01-30"],
        b"WEIGHED PLAIN\nPARTY A 0.00 0.00 ?\nPARTY B 0.00 0.00 ?\nCLAIM B I-1 A 10.00 10.00 1\nCLAIM A I-2 B 10.00 10.00 1\nTOTAL 20.00\nEND\n",
    ),
    (
        RING,
        &["weigh", "PLAIN", "2025-01-31"],
        b"WEIGHED PLAIN\nPARTY A 0.00 0.00 ?\nPARTY B 0.00 0.00 ?\nCLAIM B I-1 A 10.00 10.00 2\nCLAIM A I-2 B 10.00 10.00 2\nTOTAL 40.00\nEND\n",
    ),
    (
        RING,
        &["weigh", "PLAIN", "2025-08-28"],
        b"WEIGHED PLAIN\nPARTY A 0.00 0.00 ?\nPARTY B 0.00 0.00 ?\nCLAIM B I-1 A 10.00 10.00 8\nCLAIM A I-2 B 10.00 10.00 8\nTOTAL 160.00\nEND\n",
    ),
    (
        RING,
        &["weigh", "PLAIN", "2025-08-29"],
        b"WEIGHED PLAIN\nPARTY A 0.00 0.00 ?\nPARTY B 0.00 0.00 ?\nCLAIM B I-1 A 10.00 10.00 9\nCLAIM A I-2 B 10.00 10.00 9\nTOTAL 180.00\nEND\n",
    ),
    (
        RING,
        &["weigh", "PLAIN", "2025-08-30"],
        b"WEIGHED PLAIN\nPARTY A 0.00 0.00 ?\nPARTY B 0.00 0.00 ?\nCLAIM B I-1 A 10.00 10.00 9\nCLAIM A I-2 B 10.00 10.00 9\nTOTAL 180.00\nEND\n",
    ),
    (
        RING,
        &["weigh", "PLAIN", "2024-12-31"],
        b"WEIGHED PLAIN\nTOTAL 0.00\nEND\n",
    ),
];

#[test]
fn overdue_claims_are_weighed(rt: HostRuntime) {
    for (acts, texts, output) in WEIGHED {
        let run = left_by(&rt, rt.alloc(), &["run"], acts, b"", 0);
        expect_table(&rt, rt.alloc(), run.journal.as_slice(), texts, output);
    }
}

// The liquidity of a firm goes down a chain of claims.
#[test]
fn an_open_chain_is_explained(rt: HostRuntime) {
    let statement =
        b"ROUND 1 FUNDED\nPARTY A 60.00 9999999999940.00 -2\nPARTY B 0.00 10000000000000.00 -1\nPARTY C 0.00 10000000000000.00 0\nCLAIM B I-1 A 100.00 60.00\nCLAIM C I-2 B 100.00 60.00\nEND\n";
    let told = left_by(&rt, rt.alloc(), &["explain"], statement, b"", 0);
    told.expect(&rt, 0, b"OPEN 60.00 B/I-1 C/I-2\n");
}

// The total of the larger trial was found by a min-cost-flow solver.
const TRIALS: [(&[&str], &[u8]); 2] = [
    (
        &["trial", "2", "2", "1"],
        b"trial firms 2 claims 2 seed 1 cut 2 parties 2 total 484.34 yes\n",
    ),
    (
        &["trial", "60", "400", "1"],
        b"trial firms 60 claims 400 seed 1 cut 400 parties 60 total 80898.46 yes\n",
    ),
];

#[test]
fn trials(rt: HostRuntime) {
    for (texts, output) in TRIALS {
        expect_apart(&rt, rt.alloc(), texts, b"", 0, output);
    }
}

// ---- a day of forty firms on a circle

// Puts a line that was made.
fn put(rt: &impl Abort, text: &mut Vec<u8>, line: Result<String, AllocError>) {
    let line = line.expect(rt, "memory");
    text.extend_from_slice(line.as_bytes()).expect(rt, "memory");
}

// 300 invoices of 100.00, each owed by a firm to the next one.
fn invoices(rt: &impl Abort, alloc: Global) -> Vec<u8> {
    let mut text = copied(rt, alloc, b"creditor,invoice,debtor,amount,due\n");
    for number in 0..300_u64 {
        let (debtor, creditor, invoice) = (number % 40 + 1, (number + 1) % 40 + 1, number + 1);
        put(
            rt,
            &mut text,
            format!(in alloc; "F-{creditor},J-{invoice},F-{debtor},100.00,2025-06-30\n"),
        );
    }
    text
}

fn put_firms(rt: &impl Abort, alloc: Global, text: &mut Vec<u8>) {
    for firm in 1..=40_u64 {
        put(rt, text, format!(in alloc; "1 FIRM F-{firm}\n"));
    }
}

// Four lanes confirm the invoices in turn.
fn put_confirmations(rt: &impl Abort, alloc: Global, text: &mut Vec<u8>) {
    for number in 0..300_u64 {
        let (debtor, creditor, invoice) = (number % 40 + 1, (number + 1) % 40 + 1, number + 1);
        let lane = number % 4 + 1;
        put(
            rt,
            text,
            format!(in alloc; "{lane} CONFIRM F-{creditor} J-{invoice} F-{debtor}\n"),
        );
    }
}

// The requests of the day, of which these file the invoices.
fn requests(rt: &impl Abort, alloc: Global, filed: &[u8]) -> Vec<u8> {
    let mut text = Vec::new(alloc);
    put_firms(rt, alloc, &mut text);
    text.extend_from_slice(filed).expect(rt, "memory");
    text.extend_from_slice(b"FENCE\n").expect(rt, "memory");
    put_confirmations(rt, alloc, &mut text);
    text.extend_from_slice(
        b"FENCE\n1 DISPUTE F-1 J-40 F-40\n1 FUND F-1 50.00\n1 OFFER F-1 50.00\n1 CLOSE FUNDED 2025-12-31\n",
    ).expect(rt, "memory");
    text
}

// Ends the test where not so many lines of a text begin so and end so.
fn expect_count(rt: &impl Abort, text: &[u8], start: &[u8], end: &[u8], count: u64) {
    let (times, _) = lines_with(text, start, end);
    assert!(rt; times == count);
}

// The requests that file the invoices, as they are imported.
fn filed<R: Abort + Threads + Wait + Sync>(rt: &R, alloc: Global) -> Vec<u8> {
    let invoices = invoices(rt, alloc);
    let filed = left_by(rt, alloc, &["import", "1"], invoices.as_slice(), b"", 0);
    assert!(rt; filed.status == 0);
    expect_count(rt, filed.printed.as_slice(), b"1 FILE F-", b"", 300);
    filed.printed
}

// The journal of the day.
fn journal_of_the_day<R: Abort + Threads + Wait + Sync>(rt: &R, alloc: Global) -> Vec<u8> {
    let requests = requests(rt, alloc, filed(rt, alloc).as_slice());
    let day = left_by(rt, alloc, &["run"], requests.as_slice(), b"", 0);
    let printed = day.printed.as_slice();
    assert!(rt; day.status == 0);
    expect_count(rt, printed, b"", b" = ok", 643);
    expect_count(rt, printed, b"PARTY ", b"", 40);
    expect_count(rt, printed, b"CLAIM ", b"", 299);
    expect_count(rt, printed, b"1 PUBLISH 1 = published 25950.00", b"", 1);
    day.journal
}

#[test]
fn a_day_of_forty_firms(rt: HostRuntime) {
    let journal = journal_of_the_day(&rt, rt.alloc());
    let told = left_by(&rt, rt.alloc(), &["positions"], b"", journal.as_slice(), 0);
    let table = told.printed.as_slice();
    expect_count(&rt, table, b"F-1,0.00,", b"", 1);
    expect_count(&rt, table, b"F-40,50.00,", b"", 1);
}
