use bureau_edge::BytesSink;
use bureau_reports::{ExitStatus, report_input, report_journal};
use claim_history::Day;
use command_words::{InputReport, JournalReport};
use disk_model::MemoryDisk;
use setoff_model::{Kind, Name};
use std::alloc::{AllocError, Global};
use std::process::Abort;

fn new_sink(alloc: Global) -> BytesSink {
    BytesSink::new(alloc, Vec::new(alloc))
}

// A disk with these bytes, of whose calls one fails.
fn disk_of(rt: &impl Abort, alloc: Global, bytes: &[u8], fails: u64) -> MemoryDisk {
    let bytes = Vec::from_slice(alloc, bytes).expect(rt, "memory");
    let fails = Vec::from_slice(alloc, &[fails]).expect(rt, "memory");
    MemoryDisk::new(alloc, bytes, fails)
}

// Ends the test where a report gave another status, or its sink took another output.
fn expect_told(rt: &impl Abort, told: ExitStatus, sink: &BytesSink, status: u8, output: &[u8]) {
    assert!(rt; told.number() == status);
    assert!(rt; sink.bytes() == output);
}

// ---- statements

const STATEMENTS: [(&[u8], u8, &[u8]); 20] = [
    (
        b"ROUND 1 PLAIN\nPARTY A 0.00 0.00 1\nPARTY B 0.00 0.00 2\nPARTY C 0.00 0.00 0\nCLAIM B I-1 A 10.00 7.00\nCLAIM C I-2 B 7.00 7.00\nCLAIM A I-3 C 12.00 7.00\nEND\n",
        0,
        b"yes 21.00\n",
    ),
    (
        b"ROUND 1 PLAIN\nPARTY A 0.00 0.00 1\nPARTY B 0.00 0.00 2\nPARTY C 0.00 0.00 0\nCLAIM B I-1 A 10.00 7.00\nCLAIM C I-2 B 7.00 7.00\nCLAIM A I-3 C 12.00 7.00\nEND",
        0,
        b"yes 21.00\n",
    ),
    (
        b"ROUND 1 PLAIN\nPARTY A 0.00 0.00 2\nPARTY B 0.00 0.00 3\nPARTY C 0.00 0.00 1\nCLAIM B I-1 A 10.00 7.00\nCLAIM C I-2 B 7.00 7.00\nCLAIM A I-3 C 12.00 7.00\nEND\n",
        0,
        b"yes 21.00\n",
    ),
    (
        b"ROUND 1 PLAIN\nPARTY A 0.00 0.00 3\nPARTY B 0.00 0.00 4\nPARTY C 0.00 0.00 2\nCLAIM B I-1 A 10.00 7.00\nCLAIM C I-2 B 7.00 7.00\nCLAIM A I-3 C 12.00 7.00\nEND\n",
        1,
        b"no price-range B\n",
    ),
    (
        b"ROUND 1 PLAIN\nPARTY A 0.00 0.00 1\nPARTY B 0.00 0.00 2\nPARTY C 0.00 0.00 0\nCLAIM B I-1 A 10.00 6.00\nCLAIM C I-2 B 7.00 6.00\nCLAIM A I-3 C 12.00 6.00\nEND\n",
        1,
        b"no not-proved 18.00 21.00\n",
    ),
    (
        b"ROUND 1 PLAIN\nPARTY A 0.00 0.00 0\nPARTY B 0.00 0.00 0\nPARTY C 0.00 0.00 0\nCLAIM B I-1 A 10.00 0.00\nCLAIM C I-2 B 7.00 0.00\nCLAIM A I-3 C 12.00 0.00\nEND\n",
        1,
        b"no not-proved 0.00 29.00\n",
    ),
    (
        b"ROUND 1 PLAIN\nPARTY A 0.00 0.00 1\nPARTY B 0.00 0.00 2\nPARTY C 0.00 0.00 0\nCLAIM B I-1 A 10.00 7.00\nCLAIM C I-2 B 7.00 7.01\nCLAIM A I-3 C 12.00 7.00\nEND\n",
        1,
        b"no over-amount C I-2\n",
    ),
    (
        b"ROUND 1 PLAIN\nPARTY A 0.00 0.00 1\nPARTY B 0.00 0.00 2\nPARTY C 0.00 0.00 0\nCLAIM B I-1 A 10.00 7.00\nCLAIM C I-2 B 7.00 6.00\nCLAIM A I-3 C 12.00 7.00\nEND\n",
        1,
        b"no outside-window B\n",
    ),
    (
        b"ROUND 1 PLAIN\nPARTY A 0.00 0.00 0\nPARTY B 0.00 0.00 1\nPARTY C 0.00 0.00 2\nCLAIM B I-1 A 100.00 0.00\nCLAIM C I-2 B 100.00 0.00\nEND\n",
        0,
        b"yes 0.00\n",
    ),
    (
        b"ROUND 1 FUNDED\nPARTY A 60.00 9999999999940.00 -2\nPARTY B 0.00 10000000000000.00 -1\nPARTY C 0.00 10000000000000.00 0\nCLAIM B I-1 A 100.00 60.00\nCLAIM C I-2 B 100.00 60.00\nEND\n",
        0,
        b"yes 120.00\n",
    ),
    (
        b"ROUND 1 FUNDED\nPARTY A 60.00 9999999999940.00 -2\nPARTY B 0.00 10000000000000.00 -1\nPARTY C 0.00 50.00 0\nCLAIM B I-1 A 100.00 60.00\nCLAIM C I-2 B 100.00 60.00\nEND\n",
        1,
        b"no outside-window C\n",
    ),
    (b"ROUND 1 PLAIN\nEND\n", 0, b"yes 0.00\n"),
    (b"", 6, b"fault line 1 round\n"),
    (
        b"ROUND 1 PLAIN\nPARTY A 0.00 0.00 1\nPARTY B 0.00 0.00 2\nPARTY C 0.00 0.00 0\nCLAIM B I-1 A 10.00 7.00\nCLAIM C I-2 B 7.00 7.00\nCLAIM A I-3 C 12.00 7.00\nEND\nEND\n",
        6,
        b"fault line 9 after\n",
    ),
    (
        b"ROUND 1 PLAIN\nPARTY A 0.00 0.00 1\nPARTY B 0.00 0.00 2\nPARTY C 0.00 0.00 0\nCLAIM B I-1 A 10.00 7.00\nCLAIM C I-2 B 7.00 7.0\nCLAIM A I-3 C 12.00 7.00\nEND\n",
        6,
        b"fault line 6 shape\n",
    ),
    (
        b"ROUND 1 PLAIN\nPARTY A 0.00 0.00 0\nPARTY A 0.00 0.00 0\nEND\n",
        6,
        b"fault line 3 repeat\n",
    ),
    (
        b"ROUND 1 PLAIN\nPARTY A 0.00 0.00 0\nCLAIM A I-1 B 1.00 0.00\nEND\n",
        6,
        b"fault line 3 party\n",
    ),
    (
        b"ROUND 1 PLAIN\nPARTY A 0.00 0.00 0\nCLAIM A I-1 A 1.00 0.00\nEND\n",
        6,
        b"fault line 3 same-firm\n",
    ),
    (
        b"ROUND 1 PLAIN\nPARTY A 0.00 0.01 0\nEND\n",
        6,
        b"fault line 2 window\n",
    ),
    (
        b"ROUND 1 PLAIN\nPARTY A 0.00 0.00 0\n",
        6,
        b"fault line 3 end\n",
    ),
];

// Ends the test where a statement is not judged so.
fn expect_judged(rt: &impl Abort, alloc: Global, statement: &[u8], status: u8, output: &[u8]) {
    let mut sink = new_sink(alloc);
    let told = report_input(alloc, InputReport::Check, statement, &mut sink);
    expect_told(rt, told, &sink, status, output);
}

#[test]
fn statements_are_judged(rt: HostRuntime) {
    for (statement, status, output) in STATEMENTS {
        expect_judged(&rt, rt.alloc(), statement, status, output);
    }
}

// Puts a line that was made.
fn put(rt: &impl Abort, text: &mut String, line: Result<String, AllocError>) {
    let line = line.expect(rt, "memory");
    text.push_str(line.as_str()).expect(rt, "memory");
}

// The party after the most of a statement is told as that, also where it repeats one.
#[test]
fn a_statement_of_too_many_parties(rt: HostRuntime) {
    let mut statement = String::from_str(rt.alloc(), "ROUND 1 PLAIN\n").expect(&rt, "memory");
    for party in 0..16_384 {
        put(
            &rt,
            &mut statement,
            format!(in rt.alloc(); "PARTY F-{party} 0.00 0.00 0\n"),
        );
    }
    statement
        .push_str("PARTY F-0 0.00 0.00 0\n")
        .expect(&rt, "memory");
    expect_judged(
        &rt,
        rt.alloc(),
        statement.as_bytes(),
        6,
        b"fault line 16386 limit\n",
    );
}

// Statements of which no chain is left open to choice.
const EXPLAINED: [(&[u8], u8, &[u8]); 4] = [
    (
        b"ROUND 1 PLAIN\nPARTY A 0.00 0.00 0\nPARTY B 0.00 0.00 1\nPARTY C 0.00 0.00 2\nCLAIM B I-1 A 100.00 0.00\nCLAIM C I-2 B 100.00 0.00\nEND\n",
        0,
        b"",
    ),
    (
        b"ROUND 1 FUNDED\nPARTY A 60.00 9999999999940.00 -2\nPARTY B 0.00 10000000000000.00 -1\nPARTY C 0.00 10000000000000.00 0\nCLAIM B I-1 A 100.00 60.00\nCLAIM C I-2 B 100.00 60.00\nEND\n",
        0,
        b"OPEN 60.00 B/I-1 C/I-2\n",
    ),
    (
        b"ROUND 1 PLAIN\nPARTY A 0.00 0.00 1\nPARTY B 0.00 0.00 2\nPARTY C 0.00 0.00 0\nCLAIM B I-1 A 10.00 6.00\nCLAIM C I-2 B 7.00 6.00\nCLAIM A I-3 C 12.00 6.00\nEND\n",
        1,
        b"no not-proved 18.00 21.00\n",
    ),
    (b"", 6, b"fault line 1 round\n"),
];

#[test]
fn statements_are_explained(rt: HostRuntime) {
    for (statement, status, output) in EXPLAINED {
        let mut sink = new_sink(rt.alloc());
        let told = report_input(rt.alloc(), InputReport::Explain, statement, &mut sink);
        expect_told(&rt, told, &sink, status, output);
    }
}

// The chain of the triangle may begin at any of its firms.
#[test]
fn the_triangle_is_one_closed_chain(rt: HostRuntime) {
    let mut sink = new_sink(rt.alloc());
    let told = report_input(rt.alloc(), InputReport::Explain, STATEMENTS[0].0, &mut sink);
    assert!(rt; told.number() == 0);
    let chain = sink.bytes();
    let is_first = chain == b"CLOSED 7.00 B/I-1 C/I-2 A/I-3\n".as_slice();
    let is_second = chain == b"CLOSED 7.00 C/I-2 A/I-3 B/I-1\n".as_slice();
    let is_third = chain == b"CLOSED 7.00 A/I-3 B/I-1 C/I-2\n".as_slice();
    assert!(rt; is_first || is_second || is_third);
}

// ---- invoices

const INVOICES: [(&[u8], u8, &[u8]); 3] = [
    (
        b"creditor,invoice,debtor,amount,due\r\nB,I-1,A,10.00,2025-01-31\r\n\"C\",\"I-2\",B,7.00,2025-01-31",
        0,
        b"2 FILE B I-1 A 10.00 2025-01-31\n2 FILE C I-2 B 7.00 2025-01-31\n",
    ),
    (
        b"creditor,invoice,debtor,amount,due\r\nB,I-1,A,10.00,2025-01-31\r\n\"C\",\"I-2\",B,7.00,2025-01-31\nC,I-3,B,7.0,2025-01-31\n",
        6,
        b"fault row 4 field 4\n",
    ),
    (b"", 6, b"fault row 1 header\n"),
];

// Ends the test where invoices are not filed so in the second lane.
fn expect_filed(rt: &impl Abort, alloc: Global, invoices: &[u8], status: u8, output: &[u8]) {
    let mut sink = new_sink(alloc);
    let told = report_input(alloc, InputReport::Import { lane: 2 }, invoices, &mut sink);
    expect_told(rt, told, &sink, status, output);
}

#[test]
fn invoices_are_filed(rt: HostRuntime) {
    for (invoices, status, output) in INVOICES {
        expect_filed(&rt, rt.alloc(), invoices, status, output);
    }
}

// ---- journals

// The record of the act `1 FIRM A`, and that of `1 CONFIRM A I A`, which is refused.
const ONE_RECORD: &[u8] = b"BUREAUJ1\x01\x00\x00\x00\x07\x00\x00\x00\x01\x01\x01A\x00";

const REFUSED_RECORD: &[u8] =
    b"BUREAUJ1\x01\x00\x00\x00\x0b\x00\x00\x00\x01\x03\x01A\x01I\x01A\x00";

// Whether positions are printed, the bytes of a disk, the call of it that fails, the status and the output.
const TABLES: [(bool, &[u8], u64, u8, &[u8]); 6] = [
    (
        true,
        b"",
        0,
        0,
        b"firm,balance,credit,ceiling,offer,receivable,payable\n",
    ),
    (
        true,
        ONE_RECORD,
        0,
        0,
        b"firm,balance,credit,ceiling,offer,receivable,payable\nA,0.00,0.00,10000000000000.00,0.00,0.00,0.00\n",
    ),
    (
        false,
        ONE_RECORD,
        0,
        0,
        b"debtor,creditor,invoice,status,amount,open,part,due,overdue\n",
    ),
    (
        true,
        REFUSED_RECORD,
        0,
        8,
        b"fault journal 8 refused 7 unknown-claim\n",
    ),
    (false, b"0123456789", 0, 8, b"fault journal 0 header\n"),
    (false, ONE_RECORD, 1, 5, b"fault device 0 1\n"),
];

// Ends the test where a report on a disk with these bytes does not tell this, or the bytes change.
fn expect_report(
    rt: &impl Abort,
    alloc: Global,
    report: JournalReport,
    bytes: &[u8],
    fails: u64,
    status: u8,
    output: &[u8],
) {
    let mut disk = disk_of(rt, alloc, bytes, fails);
    let mut sink = new_sink(alloc);
    let told = report_journal(alloc, report, &mut sink, &mut disk);
    expect_told(rt, told, &sink, status, output);
    assert!(rt; disk.bytes() == bytes);
}

#[test]
fn tables_of_journals(rt: HostRuntime) {
    let today = Day::read(b"2026-01-10").expect(&rt, "a day");
    for (is_positions, bytes, fails, status, output) in TABLES {
        let table = if is_positions {
            JournalReport::Positions { pool: None }
        } else {
            JournalReport::Notices { today, pool: None }
        };
        expect_report(&rt, rt.alloc(), table, bytes, fails, status, output);
    }
}

// The record of the act `1 @EAST FIRM A`.
const RECORD_OF_EAST: &[u8] =
    b"BUREAUJ2\x01\x00\x00\x00\x0d\x00\x00\x00\x01\x0f\x04EAST\x01\x01A\x00";

// The name of a pool, and its positions.
const POOLS: [(&[u8], &[u8]); 3] = [
    (
        b"MAIN",
        b"firm,balance,credit,ceiling,offer,receivable,payable\n",
    ),
    (
        b"EAST",
        b"firm,balance,credit,ceiling,offer,receivable,payable\nA,0.00,0.00,10000000000000.00,0.00,0.00,0.00\n",
    ),
    (
        b"WEST",
        b"firm,balance,credit,ceiling,offer,receivable,payable\n",
    ),
];

#[test]
fn tables_of_pools(rt: HostRuntime) {
    for (name, output) in POOLS {
        let pool = Some(Name::of(name).expect(&rt, "a name"));
        let report = JournalReport::Positions { pool };
        expect_report(&rt, rt.alloc(), report, RECORD_OF_EAST, 0, 0, output);
    }
}

// Whether a history is printed, or else the statement of a first round; the pool; the bytes of a disk, the call of it that fails, the
// status and the output.
const HELD: [(bool, &[u8], &[u8], u64, u8, &[u8]); 8] = [
    (true, b"MAIN", b"", 0, 0, b""),
    (true, b"MAIN", ONE_RECORD, 0, 0, b"1 FIRM A = ok\n"),
    (true, b"EAST", RECORD_OF_EAST, 0, 0, b"1 FIRM A = ok\n"),
    (true, b"WEST", RECORD_OF_EAST, 0, 0, b""),
    (
        true,
        b"MAIN",
        REFUSED_RECORD,
        0,
        8,
        b"fault journal 8 refused 7 unknown-claim\n",
    ),
    (false, b"MAIN", ONE_RECORD, 0, 1, b"no round 1\n"),
    (
        false,
        b"MAIN",
        b"0123456789",
        0,
        8,
        b"fault journal 0 header\n",
    ),
    (false, b"MAIN", ONE_RECORD, 1, 5, b"fault device 0 1\n"),
];

// The history of a pool, or else the statement of its first round.
fn report_on(is_history: bool, pool: Name) -> JournalReport {
    let pool = Some(pool);
    if is_history {
        JournalReport::History { pool }
    } else {
        JournalReport::Statement { round: 1, pool }
    }
}

#[test]
fn what_journals_hold(rt: HostRuntime) {
    for (is_history, name, bytes, fails, status, output) in HELD {
        let report = report_on(is_history, Name::of(name).expect(&rt, "a name"));
        expect_report(&rt, rt.alloc(), report, bytes, fails, status, output);
    }
}

#[test]
fn the_history_of_all_pools(rt: HostRuntime) {
    let report = JournalReport::History { pool: None };
    let line = b"1 @EAST FIRM A = ok\n";
    expect_report(&rt, rt.alloc(), report, RECORD_OF_EAST, 0, 0, line);
}

// The bytes of a disk, the call of it that fails, the status and the output.
const WEIGHED: [(&[u8], u64, u8, &[u8]); 5] = [
    (b"", 0, 0, b"WEIGHED FUNDED\nTOTAL 0.00\nEND\n"),
    (ONE_RECORD, 0, 0, b"WEIGHED FUNDED\nTOTAL 0.00\nEND\n"),
    (
        REFUSED_RECORD,
        0,
        8,
        b"fault journal 8 refused 7 unknown-claim\n",
    ),
    (b"0123456789", 0, 8, b"fault journal 0 header\n"),
    (ONE_RECORD, 1, 5, b"fault device 0 1\n"),
];

#[test]
fn weighed_journals(rt: HostRuntime) {
    let today = Day::read(b"2026-01-10").expect(&rt, "a day");
    for (bytes, fails, status, output) in WEIGHED {
        let report = JournalReport::Weigh {
            kind: Kind::Funded,
            today,
        };
        expect_report(&rt, rt.alloc(), report, bytes, fails, status, output);
    }
}

const AUDITS: [(&[u8], u64, u8, &[u8]); 6] = [
    (b"", 0, 0, b"yes acts 0 rounds 0\n"),
    (ONE_RECORD, 0, 0, b"yes acts 1 rounds 0\n"),
    (RECORD_OF_EAST, 0, 0, b"yes acts 1 rounds 0\n"),
    (REFUSED_RECORD, 0, 1, b"no 8 refused 7 unknown-claim\n"),
    (b"0123456789", 0, 8, b"fault journal 0 header\n"),
    (ONE_RECORD, 1, 5, b"fault device 0 1\n"),
];

#[test]
fn audits_of_journals(rt: HostRuntime) {
    for (bytes, fails, status, output) in AUDITS {
        expect_report(
            &rt,
            rt.alloc(),
            JournalReport::Audit,
            bytes,
            fails,
            status,
            output,
        );
    }
}
