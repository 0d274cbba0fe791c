//! Inputs that are served while they are read.
use crate::tests::runs::{
    FOUR_ENTRIES, FOUR_LINES, ROUNDS, Zeros, copied, disk_of, expect_audit, expect_end,
    failing_source, left_by, left_on, sink_of, source_of, words_of,
};
use crate::{Gate, Unhindered, bureau};
use bureau_edge::{Failed, Source, SureSource};
use std::alloc::Global;
use std::process::Abort;
use std::sync::Wait;
use std::sync::atomic::{AtomicU64, Ordering};
use std::thread::{self, Threads};

// ---- what is printed, and the status

// Inputs, each with the status and the output of its service.
const INPUTS: [(&[u8], u8, &[u8]); 11] = [
    (FOUR_LINES, 0, FOUR_ENTRIES),
    (b"", 0, b""),
    (b"FENCE\nFENCE\n", 0, b""),
    (
        b"1 FIRM A\nFENCE\n2 FIRM A\n",
        0,
        b"1 FIRM A = ok\n2 FIRM A = refused 1 firm-exists\n",
    ),
    // A FENCE without its line feed.
    (
        b"1 FIRM A\nFENCE\r\n2 FIRM B\nFENCE",
        0,
        b"1 FIRM A = ok\n2 FIRM B = ok\n",
    ),
    // The bad line stands in the first batch, in the second, behind a FENCE, or at the end without its line feed.
    (
        b"1 FIRM A\n1 NO\n1 FIRM B\n",
        6,
        b"1 FIRM A = ok\nfault line 2 verb\n",
    ),
    (
        b"1 FIRM A\nFENCE\n1 FIRM B\n1 NO\n",
        6,
        b"1 FIRM A = ok\n1 FIRM B = ok\nfault line 4 verb\n",
    ),
    (
        b"1 FIRM A\nFENCE\n0 FIRM A\n",
        6,
        b"1 FIRM A = ok\nfault line 3 lane\n",
    ),
    (b"1 FIRM A\n1 FI", 6, b"1 FIRM A = ok\nfault line 2 verb\n"),
    (b"1 FIRM A\n\n", 6, b"1 FIRM A = ok\nfault line 2 lane\n"),
    (
        b"1 FIRM A\n1 @EAST FIRM A\nFENCE\n1 @EAST POSITION A\n",
        0,
        b"1 FIRM A = ok\n1 @EAST FIRM A = ok\n1 @EAST POSITION A = balance 0.00 receivable 0.00 payable 0.00\n",
    ),
];

#[test]
fn inputs(rt: HostRuntime) {
    for (input, status, output) in INPUTS {
        expect_end(&rt, rt.alloc(), &["live"], input, status, output);
    }
}

// What stands before the first bad line is answered, what stands behind it is not. The lanes mix as they may.
#[test]
fn a_bad_line_ends_the_service(rt: HostRuntime) {
    let input = b"1 FIRM A\n2 FIRM B\n1 NO\n2 FIRM C\n";
    let left = left_by(&rt, rt.alloc(), &["live"], input.as_slice(), b"", 0);
    assert!(rt; left.status == 6);
    let printed = left.printed.as_slice();
    assert!(rt;
        printed == b"1 FIRM A = ok\n2 FIRM B = ok\nfault line 3 verb\n".as_slice()
            || printed == b"2 FIRM B = ok\n1 FIRM A = ok\nfault line 3 verb\n".as_slice()
    );
    expect_audit(
        &rt,
        rt.alloc(),
        left.journal.as_slice(),
        b"yes acts 2 rounds 0\n",
    );
}

// The rounds of a run come out of a service alike.
#[test]
fn rounds_are_those_of_a_run(rt: HostRuntime) {
    for (requests, output, _) in ROUNDS {
        left_by(&rt, rt.alloc(), &["live"], requests, b"", 0).expect(&rt, 0, output);
    }
}

#[test]
fn two_hundred_lines_of_a_lane(rt: HostRuntime) {
    let alloc = rt.alloc();
    let mut input = Vec::new(alloc);
    let mut output = Vec::new(alloc);
    for k in 1..=200_u64 {
        let line = format!(in alloc; "1 FIRM F-{k}\n").expect(&rt, "memory");
        let entry = format!(in alloc; "1 FIRM F-{k} = ok\n").expect(&rt, "memory");
        input
            .extend_from_slice(line.as_bytes())
            .expect(&rt, "memory");
        output
            .extend_from_slice(entry.as_bytes())
            .expect(&rt, "memory");
    }
    expect_end(
        &rt,
        alloc,
        &["live"],
        input.as_slice(),
        0,
        output.as_slice(),
    );
}

// The longest input that is taken, and one byte more.
#[test]
fn the_longest_input(rt: HostRuntime) {
    let cases: [(usize, u8, &[u8]); 2] = [
        (67_108_864, 6, b"fault line 1 lane\n"),
        (67_108_865, 7, b"fault input too long\n"),
    ];
    for (zeros, status, output) in cases {
        let left = left_on(
            &rt,
            rt.alloc(),
            &["live"],
            Zeros { left: zeros },
            sink_of(&rt, rt.alloc(), 0),
            disk_of(&rt, rt.alloc(), b"", 0),
        );
        left.expect(&rt, status, output);
    }
}

// ---- faults

// The source fails in the midst of a line: the whole lines before are answered.
#[test]
fn the_source_fails(rt: HostRuntime) {
    let left = left_on(
        &rt,
        rt.alloc(),
        &["live"],
        failing_source(&rt, rt.alloc(), b"1 FIRM A\n1 FI", 2),
        sink_of(&rt, rt.alloc(), 0),
        disk_of(&rt, rt.alloc(), b"", 0),
    );
    left.expect(&rt, 3, b"1 FIRM A = ok\nfault read\n");
}

// The sink fails at the text of the first batch: nothing more is served or told.
#[test]
fn the_sink_fails(rt: HostRuntime) {
    let left = left_on(
        &rt,
        rt.alloc(),
        &["live"],
        source_of(&rt, rt.alloc(), b"1 FIRM A\nFENCE\n1 FIRM B\n1 NO\n"),
        sink_of(&rt, rt.alloc(), 1),
        disk_of(&rt, rt.alloc(), b"", 0),
    );
    left.expect(&rt, 4, b"");
    expect_audit(
        &rt,
        rt.alloc(),
        left.journal.as_slice(),
        b"yes acts 1 rounds 0\n",
    );
}

// A journal that is not sound is told before anything is read.
#[test]
fn an_unsound_journal(rt: HostRuntime) {
    let journal = b"BUREAUJ0 and more";
    let like_run = left_by(&rt, rt.alloc(), &["run"], b"", journal.as_slice(), 0);
    let left = left_on(
        &rt,
        rt.alloc(),
        &["live"],
        failing_source(&rt, rt.alloc(), b"", 1),
        sink_of(&rt, rt.alloc(), 0),
        disk_of(&rt, rt.alloc(), journal.as_slice(), 0),
    );
    left.expect(&rt, 8, like_run.printed.as_slice());
    assert!(rt; like_run.status == 8);
}

// ---- the input in pieces

// Gives one byte at a time.
#[derive(Drop)]
struct ByBytes {
    source: SureSource,
}

impl Source for ByBytes {
    ghost use Rattle.std.specs.Prelude.{None};

    ghost left = { λ _. None };

    ghost faults = { λ _. 0 };

    fn read(&mut self, into: &mut [u8]) -> Result<usize, Failed> {
        let Some((one, _)) = into.split_at_mut_checked(1) else {
            return Ok(0);
        };
        self.source.read(one)
    }
}

#[test]
fn a_byte_at_a_time(rt: HostRuntime) {
    let (requests, output, _) = ROUNDS[0];
    let source = ByBytes {
        source: source_of(&rt, rt.alloc(), requests),
    };
    let left = left_on(
        &rt,
        rt.alloc(),
        &["live"],
        source,
        sink_of(&rt, rt.alloc(), 0),
        disk_of(&rt, rt.alloc(), b"", 0),
    );
    left.expect(&rt, 0, output);
}

// Sixteen lanes with two hundred lines each and no FENCE, of which each lane is answered in order.
#[test]
fn sixteen_lanes_without_a_fence(rt: HostRuntime) {
    let alloc = rt.alloc();
    let mut input = copied(&rt, alloc, b"1 FIRM A\nFENCE\n");
    for k in 1..=3_200_u64 {
        let lane = k % 16 + 1;
        let line = format!(in alloc; "{lane} FUND A 1.00\n").expect(&rt, "memory");
        input
            .extend_from_slice(line.as_bytes())
            .expect(&rt, "memory");
    }
    let position = b"FENCE\n1 POSITION A\n";
    input
        .extend_from_slice(position.as_slice())
        .expect(&rt, "memory");
    let left = left_by(&rt, alloc, &["live"], input.as_slice(), b"", 0);
    assert!(rt; left.status == 0);
    let last = b"\n1 POSITION A = balance 3200.00 receivable 0.00 payable 0.00\n";
    assert!(rt; left.printed.as_slice().ends_with(last.as_slice()));
}

// ---- lines are served while reading goes on

// Counts the lines that were answered.
#[derive(Drop)]
struct Told<'a>(&'a AtomicU64);

impl Gate for Told<'_> {
    fn before<R: Wait>(&self, _rt: &R, _line: u64) {}

    fn after<R: Wait>(&self, _rt: &R, _line: u64) {
        let _ = self.0.fetch_add(1, Ordering::SeqCst);
    }
}

// Gives some lines, and then nothing before so many were answered.
#[derive(Drop)]
struct Patient<'a> {
    source: SureSource,
    told: &'a AtomicU64,
    due: u64,
    given: bool,
    late: bool,
}

impl Source for Patient<'_> {
    ghost use Rattle.std.specs.Prelude.{None};

    ghost left = { λ _. None };

    ghost faults = { λ _. 0 };

    fn read(&mut self, into: &mut [u8]) -> Result<usize, Failed> {
        if !self.given {
            self.given = true;
            return self.source.read(into);
        }
        for _ in 0..1_000_000 {
            if self.told.load(Ordering::SeqCst) == self.due {
                return Ok(0);
            }
            thread::yield_now();
        }
        self.late = true;
        Ok(0)
    }
}

// Each of so many lines is answered while the source waits, and the output is one of these.
fn are_answered_meanwhile<R: Threads + Wait + Abort + Sync>(
    rt: &R,
    alloc: Global,
    lines: &[u8],
    due: u64,
    outputs: [&[u8]; 2],
) {
    let told = AtomicU64::new(0);
    let source = Patient {
        source: source_of(rt, alloc, lines),
        told: &told,
        due,
        given: false,
        late: false,
    };
    let words = words_of(rt, alloc, &["live"]);
    let ended = bureau(
        rt,
        alloc,
        words,
        source,
        sink_of(rt, alloc, 0),
        disk_of(rt, alloc, b"", 0),
        Told(&told),
        Unhindered,
    );
    assert!(rt; ended.status == 0 && !ended.source.late);
    let printed = ended.sink.bytes();
    assert!(rt; printed == outputs[0] || printed == outputs[1]);
}

#[test]
fn a_line_is_answered_before_the_next_is_read(rt: HostRuntime) {
    let output = b"1 FIRM A = ok\n".as_slice();
    are_answered_meanwhile(&rt, rt.alloc(), b"1 FIRM A\n", 1, [output, output]);
}

// A batch of two lanes that stays open.
#[test]
fn lines_of_two_lanes_are_answered_before_more_is_read(rt: HostRuntime) {
    let outputs: [&[u8]; 2] = [
        b"1 FIRM A = ok\n2 FIRM B = ok\n",
        b"2 FIRM B = ok\n1 FIRM A = ok\n",
    ];
    are_answered_meanwhile(&rt, rt.alloc(), b"1 FIRM A\n2 FIRM B\n", 2, outputs);
}
