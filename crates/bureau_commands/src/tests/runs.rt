use crate::{Ended, Unhindered, bureau, without_words};
use bureau_edge::{BytesSink, BytesSource, Failed, Sink, Source, SureSource};
use disk_model::{Disk, MemoryDisk};
use std::alloc::Global;
use std::process::Abort;
use std::sync::Wait;
use std::thread::Threads;

pub(crate) const FOUR_LINES: &[u8] =
    b"1 FIRM A\n1 FIRM B\r\n1 FILE B I-1 A 10.00 2025-01-31\n1 CONFIRM B I-1 A";

pub(crate) const FOUR_ENTRIES: &[u8] =
    b"1 FIRM A = ok\n1 FIRM B = ok\n1 FILE B I-1 A 10.00 2025-01-31 = ok\n1 CONFIRM B I-1 A = ok\n";

// An account between its limits: drawn to the floor, and funded to the ceiling.
const ACCOUNT_LINES: &[u8] =
    b"1 FIRM A\n1 LIMIT A 50.00 100.00\n1 DRAW A 50.00\n1 DRAW A 0.01\n1 POSITION A\n1 FUND A 150.01\n1 FUND A 150.00\n1 LIMIT A 0.00 99.99\n1 OFFER A 90.00\n1 POSITION A\n1 OFFER B 1.00\n";

const ACCOUNT_ENTRIES: &[u8] =
    b"1 FIRM A = ok\n1 LIMIT A 50.00 100.00 = ok\n1 DRAW A 50.00 = ok\n1 DRAW A 0.01 = refused 13 below-floor\n1 POSITION A = balance -50.00 receivable 0.00 payable 0.00\n1 FUND A 150.01 = refused 12 over-ceiling\n1 FUND A 150.00 = ok\n1 LIMIT A 0.00 99.99 = refused 14 limits-exclude-balance\n1 OFFER A 90.00 = ok\n1 POSITION A = balance 100.00 receivable 0.00 payable 0.00\n1 OFFER B 1.00 = refused 3 unknown-firm\n";

// The life of a claim: confirmed, received on, disputed and withdrawn.
const CLAIM_LINES: &[u8] =
    b"1 FIRM A\n1 FIRM B\n1 FILE B I-1 A 10.00 2025-01-31\n1 RECEIVE B I-1 10.01\n1 CONFIRM B I-1 A\n1 RECEIVE B I-1 4.00\n1 POSITION A\n1 POSITION B\n1 DISPUTE B I-1 B\n1 DISPUTE B I-1 A\n1 POSITION A\n1 DISPUTE B I-1 A\n1 WITHDRAW B I-1\n1 RECEIVE B I-1 1.00\n1 WITHDRAW B I-2\n";

const CLAIM_ENTRIES: &[u8] =
    b"1 FIRM A = ok\n1 FIRM B = ok\n1 FILE B I-1 A 10.00 2025-01-31 = ok\n1 RECEIVE B I-1 10.01 = refused 11 over-open\n1 CONFIRM B I-1 A = ok\n1 RECEIVE B I-1 4.00 = ok\n1 POSITION A = balance 0.00 receivable 0.00 payable 6.00\n1 POSITION B = balance 0.00 receivable 6.00 payable 0.00\n1 DISPUTE B I-1 B = refused 8 not-debtor\n1 DISPUTE B I-1 A = ok\n1 POSITION A = balance 0.00 receivable 0.00 payable 0.00\n1 DISPUTE B I-1 A = refused 9 wrong-state\n1 WITHDRAW B I-1 = ok\n1 RECEIVE B I-1 1.00 = refused 9 wrong-state\n1 WITHDRAW B I-2 = refused 7 unknown-claim\n";

// Inputs, each with the status and the output of its run.
const RUNS: [(&[u8], u8, &[u8]); 15] = [
    (FOUR_LINES, 0, FOUR_ENTRIES),
    (b"", 0, b""),
    (
        b"1 FILE B I-1 A 01.00 2025-01-31",
        6,
        b"fault line 1 field 4\n",
    ),
    (b"1 FIRM A\n\n", 6, b"fault line 2 lane\n"),
    (b"1  FIRM A\n", 6, b"fault line 1 verb\n"),
    (b"1 FIRM\n", 6, b"fault line 1 fields\n"),
    (b"1 FIRM A\r", 6, b"fault line 1 field 1\n"),
    (b"1 FIRM A\n1 PUBLISH 1\n", 6, b"fault line 2 verb\n"),
    (b"1 @MAIN FIRM A\n", 6, b"fault line 1 pool\n"),
    (b"1 @ FIRM A\n", 6, b"fault line 1 pool\n"),
    (b"1 @EAST\n", 6, b"fault line 1 verb\n"),
    (
        b"1 FIRM A\n1 @EAST FIRM A\n1 @EAST POSITION A\n",
        0,
        b"1 FIRM A = ok\n1 @EAST FIRM A = ok\n1 @EAST POSITION A = balance 0.00 receivable 0.00 payable 0.00\n",
    ),
    (
        b"1 FIRM A\n1 FIRM A\n1 FIRM B\n1 FILE B I A 1.00 2025-01-31\n1 FILE C I A 1.00 2025-01-31\n1 FILE A J A 1.00 2025-01-31\n1 FILE B I A 2.00 2025-01-31\n1 CONFIRM A I A\n1 CONFIRM B I B\n1 CONFIRM B I A\n1 CONFIRM B I A\n",
        0,
        b"1 FIRM A = ok\n1 FIRM A = refused 1 firm-exists\n1 FIRM B = ok\n1 FILE B I A 1.00 2025-01-31 = ok\n1 FILE C I A 1.00 2025-01-31 = refused 3 unknown-firm\n1 FILE A J A 1.00 2025-01-31 = refused 4 same-firm\n1 FILE B I A 2.00 2025-01-31 = refused 5 claim-exists\n1 CONFIRM A I A = refused 7 unknown-claim\n1 CONFIRM B I B = refused 8 not-debtor\n1 CONFIRM B I A = ok\n1 CONFIRM B I A = refused 9 wrong-state\n",
    ),
    (ACCOUNT_LINES, 0, ACCOUNT_ENTRIES),
    (CLAIM_LINES, 0, CLAIM_ENTRIES),
];

// ---- a call of the program

pub(crate) fn copied(rt: &impl Abort, alloc: Global, bytes: &[u8]) -> Vec<u8> {
    Vec::from_slice(alloc, bytes).expect(rt, "memory")
}

// The numbers of the calls of a device that fail: this one, or none where it is 0.
fn failing(rt: &impl Abort, alloc: Global, call: u64) -> Vec<u64> {
    Vec::from_slice(alloc, &[call]).expect(rt, "memory")
}

// A source of these bytes, none of whose calls fails.
pub(crate) fn source_of(rt: &impl Abort, alloc: Global, input: &[u8]) -> SureSource {
    SureSource::new(copied(rt, alloc, input))
}

// The same, of whose calls one fails; none where it is 0.
pub(crate) fn failing_source(
    rt: &impl Abort,
    alloc: Global,
    input: &[u8],
    fails: u64,
) -> BytesSource {
    BytesSource::new(copied(rt, alloc, input), failing(rt, alloc, fails))
}

// A sink of whose calls one fails; none where it is 0.
pub(crate) fn sink_of(rt: &impl Abort, alloc: Global, fails: u64) -> BytesSink {
    BytesSink::new(alloc, failing(rt, alloc, fails))
}

// A disk in memory with these bytes, of whose calls one fails; none where it is 0.
pub(crate) fn disk_of(rt: &impl Abort, alloc: Global, bytes: &[u8], fails: u64) -> MemoryDisk {
    MemoryDisk::new(alloc, copied(rt, alloc, bytes), failing(rt, alloc, fails))
}

pub(crate) fn words_of(rt: &impl Abort, alloc: Global, texts: &[&str]) -> Vec<String> {
    let mut words = Vec::new(alloc);
    for text in texts {
        let word = String::from_str(alloc, text).expect(rt, "memory");
        words.push(word).expect(rt, "memory");
    }
    words
}

// The program over these words, whose lanes nothing holds up.
pub(crate) fn program<R: Abort + Threads + Wait + Sync, S: Source, K: Sink, D: Disk + Send + Sync>(
    rt: &R,
    alloc: Global,
    texts: &[&str],
    source: S,
    sink: K,
    disk: D,
) -> Ended<S, K, D> {
    let words = words_of(rt, alloc, texts);
    bureau(rt, alloc, words, source, sink, disk, Unhindered, Unhindered)
}

// What a call of the program left: its status, what it printed, the bytes of its disk, and how many calls the disk has had.
#[derive(Drop)]
pub(crate) struct Left {
    pub(crate) status: u8,
    pub(crate) printed: Vec<u8>,
    pub(crate) journal: Vec<u8>,
    pub(crate) calls: u64,
}

impl Left {
    // Ends the test where this was not the status, or this not the output, in which each ? stands for a price.
    pub(crate) fn expect(&self, rt: &impl Abort, status: u8, output: &[u8]) {
        assert!(rt; self.status == status);
        assert!(rt; is_like(self.printed.as_slice(), output));
    }

    // Ends the test where the disk does not have so many bytes, or has not had so many calls.
    pub(crate) fn expect_disk(&self, rt: &impl Abort, length: usize, calls: u64) {
        assert!(rt; self.journal.len() == length);
        assert!(rt; self.calls == calls);
    }
}

pub(crate) fn left_on<R: Abort + Threads + Wait + Sync, S: Source + Drop>(
    rt: &R,
    alloc: Global,
    texts: &[&str],
    source: S,
    sink: BytesSink,
    disk: MemoryDisk,
) -> Left {
    let ended = program(rt, alloc, texts, source, sink, disk);
    let moment = ended.disk.moment();
    assert!(rt; moment % 2 == 0);
    let left = Left {
        status: ended.status,
        printed: copied(rt, alloc, ended.sink.bytes()),
        journal: copied(rt, alloc, ended.disk.bytes()),
        calls: moment / 2,
    };
    drop(ended);
    left
}

// What the program leaves for words and an input, on a disk with these bytes, of whose calls one fails; none where it is 0.
pub(crate) fn left_by<R: Abort + Threads + Wait + Sync>(
    rt: &R,
    alloc: Global,
    texts: &[&str],
    input: &[u8],
    bytes: &[u8],
    fails: u64,
) -> Left {
    left_on(
        rt,
        alloc,
        texts,
        source_of(rt, alloc, input),
        sink_of(rt, alloc, 0),
        disk_of(rt, alloc, bytes, fails),
    )
}

// Ends the test where the program does not end so for words and an input, on a disk without bytes.
pub(crate) fn expect_end<R: Abort + Threads + Wait + Sync>(
    rt: &R,
    alloc: Global,
    texts: &[&str],
    input: &[u8],
    status: u8,
    output: &[u8],
) {
    left_by(rt, alloc, texts, input, b"", 0).expect(rt, status, output);
}

// Ends the test where an audit does not find a journal sound, or does not tell this of it.
pub(crate) fn expect_audit<R: Abort + Threads + Wait + Sync>(
    rt: &R,
    alloc: Global,
    journal: &[u8],
    line: &[u8],
) {
    left_by(rt, alloc, &["audit"], b"", journal, 0).expect(rt, 0, line);
}

// ---- runs

#[test]
fn runs(rt: HostRuntime) {
    for (input, status, output) in RUNS {
        expect_end(&rt, rt.alloc(), &["run"], input, status, output);
    }
}

#[test]
fn no_memory_for_the_words(rt: HostRuntime) {
    let cases: [(u64, u8, &[u8]); 2] = [(0, 9, b"fault memory\n"), (1, 4, b"")];
    for (write, status, output) in cases {
        let ended = without_words(
            source_of(&rt, rt.alloc(), b""),
            sink_of(&rt, rt.alloc(), write),
        );
        assert!(rt; ended.status == status);
        assert!(rt; ended.sink.bytes() == output);
    }
}

// A source of so many bytes 0.
#[derive(Drop)]
pub(crate) struct Zeros {
    pub(crate) left: usize,
}

impl Source for Zeros {
    ghost use Rattle.std.specs.Prelude.{None};

    ghost left = { λ _. None };

    ghost faults = { λ _. 0 };

    fn read(&mut self, into: &mut [u8]) -> Result<usize, Failed> {
        let count = self.left.min(into.len());
        self.left -= count;
        Ok(count)
    }
}

// An input of 2^26 bytes is read, and one byte more is too much.
#[test]
fn the_longest_input(rt: HostRuntime) {
    let cases: [(usize, u8, &[u8]); 2] = [
        (67_108_864, 6, b"fault line 1 lane\n"),
        (67_108_865, 7, b"fault input too long\n"),
    ];
    for (zeros, status, output) in cases {
        let source = Zeros { left: zeros };
        let left = left_on(
            &rt,
            rt.alloc(),
            &["run"],
            source,
            sink_of(&rt, rt.alloc(), 0),
            disk_of(&rt, rt.alloc(), b"", 0),
        );
        left.expect(&rt, status, output);
    }
}

// A text, and another one so many times behind it.
pub(crate) fn text_with(
    rt: &impl Abort,
    alloc: Global,
    first: &[u8],
    more: &[u8],
    times: usize,
) -> Vec<u8> {
    let mut text = copied(rt, alloc, first);
    for _ in 0..times {
        text.extend_from_slice(more).expect(rt, "memory");
    }
    text
}

#[test]
fn a_run_of_100_000_lines(rt: HostRuntime) {
    let input = text_with(&rt, rt.alloc(), b"1 FIRM A\n", b"1 POSITION A\n", 100_000);
    let output = text_with(
        &rt,
        rt.alloc(),
        b"1 FIRM A = ok\n",
        b"1 POSITION A = balance 0.00 receivable 0.00 payable 0.00\n",
        100_000,
    );
    expect_end(
        &rt,
        rt.alloc(),
        &["run"],
        input.as_slice(),
        0,
        output.as_slice(),
    );
}

// Rounds: requests, the output with ? for each price, and the verdict on its statement.
pub(crate) const ROUNDS: [(&[u8], &[u8], &[u8]); 6] = [
    (
        b"1 FIRM A\n1 FIRM B\n1 FIRM C\n1 FILE B I-1 A 10.00 2025-01-31\n1 FILE C I-2 B 7.00 2025-01-31\n1 FILE A I-3 C 12.00 2025-01-31\n1 CONFIRM B I-1 A\n1 CONFIRM C I-2 B\n1 CONFIRM A I-3 C\n1 CLOSE PLAIN 2025-12-31\n1 POSITION A\n1 ABANDON\n",
        b"1 FIRM A = ok\n1 FIRM B = ok\n1 FIRM C = ok\n1 FILE B I-1 A 10.00 2025-01-31 = ok\n1 FILE C I-2 B 7.00 2025-01-31 = ok\n1 FILE A I-3 C 12.00 2025-01-31 = ok\n1 CONFIRM B I-1 A = ok\n1 CONFIRM C I-2 B = ok\n1 CONFIRM A I-3 C = ok\n1 CLOSE PLAIN 2025-12-31 = opened 1\n1 PUBLISH 1 = published 21.00\nROUND 1 PLAIN\nPARTY A 0.00 0.00 ?\nPARTY B 0.00 0.00 ?\nPARTY C 0.00 0.00 ?\nCLAIM B I-1 A 10.00 7.00\nCLAIM C I-2 B 7.00 7.00\nCLAIM A I-3 C 12.00 7.00\nEND\n1 POSITION A = balance 0.00 receivable 5.00 payable 3.00\n1 ABANDON = refused 16 no-round\n",
        b"yes 21.00\n",
    ),
    (
        b"1 FIRM A\n1 FIRM B\n1 FIRM C\n1 FILE B I-1 A 100.00 2025-01-31\n1 FILE C I-2 B 100.00 2025-01-31\n1 CONFIRM B I-1 A\n1 CONFIRM C I-2 B\n1 CLOSE PLAIN 2025-12-31\n",
        b"1 FIRM A = ok\n1 FIRM B = ok\n1 FIRM C = ok\n1 FILE B I-1 A 100.00 2025-01-31 = ok\n1 FILE C I-2 B 100.00 2025-01-31 = ok\n1 CONFIRM B I-1 A = ok\n1 CONFIRM C I-2 B = ok\n1 CLOSE PLAIN 2025-12-31 = opened 1\n1 PUBLISH 1 = published 0.00\nROUND 1 PLAIN\nPARTY A 0.00 0.00 ?\nPARTY B 0.00 0.00 ?\nPARTY C 0.00 0.00 ?\nCLAIM B I-1 A 100.00 0.00\nCLAIM C I-2 B 100.00 0.00\nEND\n",
        b"yes 0.00\n",
    ),
    (
        b"1 FIRM A\n1 FIRM B\n1 FIRM C\n1 FUND A 60.00\n1 OFFER A 60.00\n1 FILE B I-1 A 100.00 2025-01-31\n1 FILE C I-2 B 100.00 2025-01-31\n1 CONFIRM B I-1 A\n1 CONFIRM C I-2 B\n1 CLOSE FUNDED 2025-12-31\n1 POSITION A\n1 POSITION B\n1 POSITION C\n",
        b"1 FIRM A = ok\n1 FIRM B = ok\n1 FIRM C = ok\n1 FUND A 60.00 = ok\n1 OFFER A 60.00 = ok\n1 FILE B I-1 A 100.00 2025-01-31 = ok\n1 FILE C I-2 B 100.00 2025-01-31 = ok\n1 CONFIRM B I-1 A = ok\n1 CONFIRM C I-2 B = ok\n1 CLOSE FUNDED 2025-12-31 = opened 1\n1 PUBLISH 1 = published 120.00\nROUND 1 FUNDED\nPARTY A 60.00 9999999999940.00 ?\nPARTY B 0.00 10000000000000.00 ?\nPARTY C 0.00 10000000000000.00 ?\nCLAIM B I-1 A 100.00 60.00\nCLAIM C I-2 B 100.00 60.00\nEND\n1 POSITION A = balance 0.00 receivable 0.00 payable 40.00\n1 POSITION B = balance 0.00 receivable 40.00 payable 40.00\n1 POSITION C = balance 60.00 receivable 40.00 payable 0.00\n",
        b"yes 120.00\n",
    ),
    (
        b"1 FIRM A\n1 FIRM B\n1 FILE B I-1 A 4.00 2025-01-31\n1 FILE B I-2 A 9.00 2025-01-31\n1 FILE A I-3 B 6.00 2025-01-31\n1 CONFIRM B I-1 A\n1 CONFIRM B I-2 A\n1 CONFIRM A I-3 B\n1 CLOSE PLAIN 2025-12-31\n",
        b"1 FIRM A = ok\n1 FIRM B = ok\n1 FILE B I-1 A 4.00 2025-01-31 = ok\n1 FILE B I-2 A 9.00 2025-01-31 = ok\n1 FILE A I-3 B 6.00 2025-01-31 = ok\n1 CONFIRM B I-1 A = ok\n1 CONFIRM B I-2 A = ok\n1 CONFIRM A I-3 B = ok\n1 CLOSE PLAIN 2025-12-31 = opened 1\n1 PUBLISH 1 = published 12.00\nROUND 1 PLAIN\nPARTY A 0.00 0.00 ?\nPARTY B 0.00 0.00 ?\nCLAIM B I-1 A 4.00 4.00\nCLAIM B I-2 A 9.00 2.00\nCLAIM A I-3 B 6.00 6.00\nEND\n",
        b"yes 12.00\n",
    ),
    (
        b"1 FIRM A\n1 FIRM B\n1 FILE B I-1 A 9999999999.99 2025-01-31\n1 FILE A I-2 B 9999999999.99 2025-01-31\n1 CONFIRM B I-1 A\n1 CONFIRM A I-2 B\n1 CLOSE PLAIN 2025-12-31\n",
        b"1 FIRM A = ok\n1 FIRM B = ok\n1 FILE B I-1 A 9999999999.99 2025-01-31 = ok\n1 FILE A I-2 B 9999999999.99 2025-01-31 = ok\n1 CONFIRM B I-1 A = ok\n1 CONFIRM A I-2 B = ok\n1 CLOSE PLAIN 2025-12-31 = opened 1\n1 PUBLISH 1 = published 19999999999.98\nROUND 1 PLAIN\nPARTY A 0.00 0.00 ?\nPARTY B 0.00 0.00 ?\nCLAIM B I-1 A 9999999999.99 9999999999.99\nCLAIM A I-2 B 9999999999.99 9999999999.99\nEND\n",
        b"yes 19999999999.98\n",
    ),
    (
        b"1 CLOSE PLAIN 2025-12-31\n",
        b"1 CLOSE PLAIN 2025-12-31 = opened 1\n1 PUBLISH 1 = published 0.00\nROUND 1 PLAIN\nEND\n",
        b"yes 0.00\n",
    ),
];

// The place after the digits and signs from a place on.
fn price_end(text: &[u8], from: usize) -> usize {
    for i in from..text.len() {
        if !text[i].is_ascii_digit() && text[i] != b'-' {
            return i;
        }
    }
    text.len()
}

// Whether a text is another one, in which each ? stands for a price.
pub(crate) fn is_like(text: &[u8], like: &[u8]) -> bool {
    let mut place = 0;
    for byte in like {
        if *byte == b'?' {
            place = price_end(text, place);
        } else if place < text.len() && text[place] == *byte {
            place += 1;
        } else {
            return false;
        }
    }
    place == text.len()
}

// How many lines of a text begin so and end so, and the last of them among the lines, from 1; 0 where there is none.
pub(crate) fn lines_with(text: &[u8], start: &[u8], end: &[u8]) -> (u64, u64) {
    let (mut times, mut last, mut number) = (0_u64, 0_u64, 0_u64);
    for line in text.split(|byte| *byte == b'\n') {
        number = number.wrapping_add(1);
        if line.starts_with(start) && line.ends_with(end) {
            times = times.wrapping_add(1);
            last = number;
        }
    }
    (times, last)
}

// The lines of an output that begin with a letter: those of its statements.
fn statement_in(rt: &impl Abort, alloc: Global, output: &[u8]) -> Vec<u8> {
    let mut statement = Vec::new(alloc);
    for line in output.split_inclusive(|byte| *byte == b'\n') {
        if matches!(line.first(), Some(b'A'..=b'Z')) {
            statement.extend_from_slice(line).expect(rt, "memory");
        }
    }
    statement
}

// Each output is the expected one but for its prices, and `check` accepts its statement.
#[test]
fn rounds(rt: HostRuntime) {
    for (requests, output, verdict) in ROUNDS {
        let left = left_by(&rt, rt.alloc(), &["run"], requests, b"", 0);
        left.expect(&rt, 0, output);
        let statement = statement_in(&rt, rt.alloc(), left.printed.as_slice());
        expect_end(
            &rt,
            rt.alloc(),
            &["check"],
            statement.as_slice(),
            0,
            verdict,
        );
    }
}
