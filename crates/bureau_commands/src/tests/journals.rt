use crate::tests::runs::{Left, disk_of, expect_audit, left_by, program, sink_of, source_of};
use std::alloc::Global;
use std::process::Abort;
use std::sync::Wait;
use std::thread::Threads;

// The header, and the record of the act `1 FIRM A`.
const ONE_RECORD: &[u8] = b"BUREAUJ1\x01\x00\x00\x00\x07\x00\x00\x00\x01\x01\x01A\x00";

// Its first 18 bytes, which end within the record.
const SHORT_RECORD: &[u8] = b"BUREAUJ1\x01\x00\x00\x00\x07\x00\x00\x00\x01\x01";

// The same with its record twice, of which the second is refused.
const RECORD_TWICE: &[u8] =
    b"BUREAUJ1\x01\x00\x00\x00\x07\x00\x00\x00\x01\x01\x01A\x01\x00\x00\x00\x07\x00\x00\x00\x01\x01\x01A\x00";

// A round of the pool MAIN and one of EAST, which caller 1 opened.
pub(crate) const TWO_OPEN: &[u8] =
    b"BUREAUJ2\x01\x00\x00\x00\x0a\x00\x00\x00\x01\x0c\x00\x00\x00\x4f\xe5\x01\x00\x00\x00\x10\x00\x00\x00\x01\x0f\x04EAST\x0c\x00\x00\x00\x4f\xe5\x00";

// Three claims in a circle, and a Close: eleven acts, 262 bytes of a journal and 48 calls of a disk.
pub(crate) const TRIANGLE: &[u8] =
    b"1 FIRM A\n1 FIRM B\n1 FIRM C\n1 FILE B I-1 A 10.00 2025-01-31\n1 FILE C I-2 B 7.00 2025-01-31\n1 FILE A I-3 C 12.00 2025-01-31\n1 CONFIRM B I-1 A\n1 CONFIRM C I-2 B\n1 CONFIRM A I-3 C\n1 CLOSE PLAIN 2025-12-31\n";

const TRIANGLE_TWICE: &[u8] =
    b"1 FIRM A\n1 FIRM B\n1 FIRM C\n1 FILE B I-1 A 10.00 2025-01-31\n1 FILE C I-2 B 7.00 2025-01-31\n1 FILE A I-3 C 12.00 2025-01-31\n1 CONFIRM B I-1 A\n1 CONFIRM C I-2 B\n1 CONFIRM A I-3 C\n1 CLOSE PLAIN 2025-12-31\n1 CLOSE PLAIN 2025-12-31\n";

const TRIANGLE_DONE: &[u8] =
    b"1 FIRM A = ok\n1 FIRM B = ok\n1 FIRM C = ok\n1 FILE B I-1 A 10.00 2025-01-31 = ok\n1 FILE C I-2 B 7.00 2025-01-31 = ok\n1 FILE A I-3 C 12.00 2025-01-31 = ok\n1 CONFIRM B I-1 A = ok\n1 CONFIRM C I-2 B = ok\n1 CONFIRM A I-3 C = ok\n1 CLOSE PLAIN 2025-12-31 = opened 1\n1 PUBLISH 1 = published 21.00\nROUND 1 PLAIN\nPARTY A 0.00 0.00 ?\nPARTY B 0.00 0.00 ?\nPARTY C 0.00 0.00 ?\nCLAIM B I-1 A 10.00 7.00\nCLAIM C I-2 B 7.00 7.00\nCLAIM A I-3 C 12.00 7.00\nEND\n";

const PUBLISHED_LATER: &[u8] =
    b"1 FIRM A = ok\n1 FIRM B = ok\n1 FIRM C = ok\n1 FILE B I-1 A 10.00 2025-01-31 = ok\n1 FILE C I-2 B 7.00 2025-01-31 = ok\n1 FILE A I-3 C 12.00 2025-01-31 = ok\n1 CONFIRM B I-1 A = ok\n1 CONFIRM C I-2 B = ok\n1 CONFIRM A I-3 C = ok\n1 CLOSE PLAIN 2025-12-31 = opened 1\n1 PUBLISH 1 = refused 18 device 0 1\n1 CLOSE PLAIN 2025-12-31 = continued 1\n1 PUBLISH 1 = published 21.00\nROUND 1 PLAIN\nPARTY A 0.00 0.00 ?\nPARTY B 0.00 0.00 ?\nPARTY C 0.00 0.00 ?\nCLAIM B I-1 A 10.00 7.00\nCLAIM C I-2 B 7.00 7.00\nCLAIM A I-3 C 12.00 7.00\nEND\n";

const NOT_PUBLISHED: &[u8] =
    b"1 FIRM A = ok\n1 FIRM B = ok\n1 FIRM C = ok\n1 FILE B I-1 A 10.00 2025-01-31 = ok\n1 FILE C I-2 B 7.00 2025-01-31 = ok\n1 FILE A I-3 C 12.00 2025-01-31 = ok\n1 CONFIRM B I-1 A = ok\n1 CONFIRM C I-2 B = ok\n1 CONFIRM A I-3 C = ok\n1 CLOSE PLAIN 2025-12-31 = opened 1\n1 PUBLISH 1 = refused 18 device 0 1\n";

// A word, an input, the bytes of a disk and the call that fails; the status, the output with ? for each price, the bytes of the
// journal then, and how many calls the disk had.
type Case = (
    &'static str,
    &'static [u8],
    &'static [u8],
    u64,
    u8,
    &'static [u8],
    usize,
    u64,
);

const JOURNALS: [Case; 15] = [
    ("run", b"", b"", 0, 0, b"", 9, 4),
    ("run", TRIANGLE, b"", 0, 0, TRIANGLE_DONE, 262, 48),
    ("run", TRIANGLE_TWICE, b"", 48, 5, PUBLISHED_LATER, 277, 58),
    ("run", TRIANGLE, b"", 45, 5, NOT_PUBLISHED, 204, 45),
    (
        "run",
        b"1 FILE B I-1 A 0.00 2025-01-31\n",
        b"",
        0,
        6,
        b"fault line 1 field 4\n",
        0,
        0,
    ),
    (
        "run",
        b"1 FIRM A\n",
        ONE_RECORD,
        0,
        0,
        b"1 FIRM A = refused 1 firm-exists\n",
        21,
        3,
    ),
    (
        "run",
        b"",
        SHORT_RECORD,
        0,
        8,
        b"fault journal 8 short\n",
        18,
        3,
    ),
    (
        "run",
        b"",
        b"BUREAUJ1\x00\x00\x00\x00\x07\x00\x00\x00\x01\x01",
        0,
        0,
        b"",
        18,
        3,
    ),
    (
        "run",
        b"",
        b"0123456789",
        0,
        8,
        b"fault journal 0 header\n",
        10,
        3,
    ),
    (
        "run",
        b"",
        RECORD_TWICE,
        0,
        8,
        b"fault journal 20 refused 1 firm-exists\n",
        33,
        3,
    ),
    (
        "audit",
        b"",
        RECORD_TWICE,
        0,
        1,
        b"no 20 refused 1 firm-exists\n",
        33,
        2,
    ),
    ("run", b"", b"", 1, 5, b"fault device 0 1\n", 0, 1),
    (
        "run",
        b"",
        TWO_OPEN,
        0,
        0,
        b"0 ABANDON = abandoned 1\n0 @EAST ABANDON = abandoned 1\n",
        71,
        11,
    ),
    (
        "audit",
        b"",
        ONE_RECORD,
        0,
        0,
        b"yes acts 1 rounds 0\n",
        21,
        2,
    ),
    (
        "positions",
        b"",
        ONE_RECORD,
        1,
        5,
        b"fault device 0 1\n",
        21,
        1,
    ),
];

#[test]
fn journals(rt: HostRuntime) {
    for (word, input, bytes, fails, status, output, length, calls) in JOURNALS {
        let left = left_by(&rt, rt.alloc(), &[word], input, bytes, fails);
        left.expect(&rt, status, output);
        left.expect_disk(&rt, length, calls);
    }
}

// Two runs on one journal: the input of the first and the call of its disk that fails; the input of the second, its output, the bytes
// of the journal then, and what an audit tells of them.
type Days = (
    &'static [u8],
    u64,
    &'static [u8],
    &'static [u8],
    usize,
    &'static [u8],
);

const DAYS: [Days; 4] = [
    (b"", 0, b"", b"", 9, b"yes acts 0 rounds 0\n"),
    (
        TRIANGLE,
        45,
        b"",
        b"0 ABANDON = abandoned 1\n",
        214,
        b"yes acts 11 rounds 0\n",
    ),
    (
        TRIANGLE,
        0,
        b"1 POSITION A\n1 FIRM A\n",
        b"1 POSITION A = balance 0.00 receivable 5.00 payable 3.00\n1 FIRM A = refused 1 firm-exists\n",
        274,
        b"yes acts 12 rounds 1\n",
    ),
    (
        TRIANGLE,
        0,
        b"1 FILE B I-4 A 6.00 2026-01-31\n1 CONFIRM B I-4 A\n1 CLOSE PLAIN 2026-12-31\n",
        b"1 FILE B I-4 A 6.00 2026-01-31 = ok\n1 CONFIRM B I-4 A = ok\n1 CLOSE PLAIN 2026-12-31 = opened 2\n1 PUBLISH 2 = published 0.00\nROUND 2 PLAIN\nPARTY A 0.00 0.00 ?\nPARTY B 0.00 0.00 ?\nPARTY C 0.00 0.00 ?\nCLAIM B I-1 A 3.00 0.00\nCLAIM A I-3 C 5.00 0.00\nCLAIM B I-4 A 6.00 0.00\nEND\n",
        383,
        b"yes acts 15 rounds 2\n",
    ),
];

// What a second run leaves on the journal of a first one.
fn second_day<R: Abort + Threads + Wait + Sync>(
    rt: &R,
    alloc: Global,
    first: &[u8],
    fails: u64,
    second: &[u8],
) -> Left {
    let day = left_by(rt, alloc, &["run"], first, b"", fails);
    left_by(rt, alloc, &["run"], second, day.journal.as_slice(), 0)
}

// A second run goes on where the first ended, and ends the round that a failed publication left open.
#[test]
fn days_on_one_journal(rt: HostRuntime) {
    for (first, fails, second, output, length, verdict) in DAYS {
        let day = second_day(&rt, rt.alloc(), first, fails, second);
        day.expect(&rt, 0, output);
        assert!(rt; day.journal.as_slice().starts_with(b"BUREAUJ2"));
        assert!(rt; day.journal.len() == length);
        expect_audit(&rt, rt.alloc(), day.journal.as_slice(), verdict);
    }
}

// A journal that an older program began is read as others are, and keeps its header.
#[test]
fn an_older_journal_keeps_its_header(rt: HostRuntime) {
    let mut day = left_by(&rt, rt.alloc(), &["run"], TRIANGLE, b"", 45);
    assert!(rt; day.journal.len() == 204);
    day.journal[7] = b'1';
    let next = left_by(&rt, rt.alloc(), &["run"], b"", day.journal.as_slice(), 0);
    next.expect(&rt, 0, b"0 ABANDON = abandoned 1\n");
    assert!(rt; next.journal.as_slice().starts_with(b"BUREAUJ1"));
    assert!(rt; next.journal.len() == 214);
}

// Where the last gate of the triangle's journal stands after each number of its acts.
const GATES: [usize; 12] = [8, 20, 32, 44, 74, 104, 134, 152, 170, 188, 203, 261];

// Which of the numbers of acts a line of an audit tells; None where it tells something else.
fn acts_told(rt: &impl Abort, alloc: Global, told: &[u8]) -> Option<usize> {
    for acts in 0..GATES.len() {
        let rounds = if acts == 11 { 1 } else { 0 };
        let line = format!(in alloc; "yes acts {acts} rounds {rounds}\n").expect(rt, "memory");
        if told == line.as_bytes() {
            return Some(acts);
        }
    }
    None
}

// How many acts an image holds.
fn acts_of<R: Abort + Threads + Wait + Sync>(rt: &R, alloc: Global, image: &[u8]) -> usize {
    let audit = left_by(rt, alloc, &["audit"], b"", image, 0);
    acts_told(rt, alloc, audit.printed.as_slice()).expect(rt, "some first acts")
}

// Ends the test where an image of a moment does not hold some first acts of a journal, with all that were answered by then: the
// opening has four calls and each act four.
fn expect_answered<R: Abort + Threads + Wait + Sync>(
    rt: &R,
    alloc: Global,
    journal: &[u8],
    moment: u64,
    image: &[u8],
) {
    let acts = acts_of(rt, alloc, image);
    let gate = *GATES.get(acts).expect(rt, "a gate");
    let kept = journal.get(..gate).expect(rt, "the records");
    assert!(rt; acts as u64 >= (moment / 8).saturating_sub(1));
    assert!(rt; acts == 0 || image.starts_with(kept));
}

// A crash at any moment leaves some first acts of the triangle, with all that were answered by then.
#[test]
fn every_crash_of_the_triangle(rt: HostRuntime) {
    let ended = program(
        &rt,
        rt.alloc(),
        &["run"],
        source_of(&rt, rt.alloc(), TRIANGLE),
        sink_of(&rt, rt.alloc(), 0),
        disk_of(&rt, rt.alloc(), b"", 0),
    );
    for moment in 0..=ended.disk.moment() {
        for pick in 0..8 {
            let image = ended
                .disk
                .image(rt.alloc(), moment, pick)
                .expect(&rt, "memory");
            expect_answered(
                &rt,
                rt.alloc(),
                ended.disk.bytes(),
                moment,
                image.as_slice(),
            );
        }
    }
    drop(ended);
}

// Ends the test where an image of a moment does not hold the two acts that were found, with the abandonments that were kept by then:
// the opening has three calls and each abandonment four.
fn expect_abandoned<R: Abort + Threads + Wait + Sync>(
    rt: &R,
    alloc: Global,
    moment: u64,
    image: &[u8],
) {
    let acts = acts_of(rt, alloc, image);
    assert!(rt; acts as u64 >= (moment.saturating_sub(6) / 8).saturating_add(2));
    assert!(rt; acts <= 4);
}

// A crash at any moment of an opening that abandons the rounds of two pools leaves both openings, and the first of the abandonments.
#[test]
fn every_crash_of_two_abandonments(rt: HostRuntime) {
    let ended = program(
        &rt,
        rt.alloc(),
        &["run"],
        source_of(&rt, rt.alloc(), b""),
        sink_of(&rt, rt.alloc(), 0),
        disk_of(&rt, rt.alloc(), TWO_OPEN, 0),
    );
    for moment in 0..=ended.disk.moment() {
        for pick in 0..8 {
            let image = ended
                .disk
                .image(rt.alloc(), moment, pick)
                .expect(&rt, "memory");
            expect_abandoned(&rt, rt.alloc(), moment, image.as_slice());
        }
    }
    drop(ended);
}
