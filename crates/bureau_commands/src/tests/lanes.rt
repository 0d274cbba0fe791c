//! Lanes, fences, and the order of the calls of a sink and of a disk.
ghost use Rattle.std.specs.Prelude.{◌≡◌, ◌+◌, ◌≤◌, true, length};
ghost use Rattle.fault_count.specs.Counts.{HasRisen, next_count};
ghost use Rattle.disk_model.specs.Untold.{untold};

use crate::tests::runs::{disk_of, expect_end, is_like, sink_of, source_of, words_of};
use crate::{Gate, Pause, SilentWitness, Unhindered, Witness, bureau, bureau_in_order};
use bureau_edge::{BytesSink, Failed, Sink};
use disk_model::{Disk, DiskFailed, MemoryDisk};
use fault_count::next_count;
use std::alloc::Global;
use std::marker::Model;
use std::process::Abort;
use std::sync::Wait;
use std::sync::atomic::{AtomicU64, Ordering};
use std::thread::{self, Threads};

// ---- fences

const LANES: [(&[u8], u8, &[u8]); 6] = [
    (
        b"1 FIRM A\nFENCE\n2 FIRM A\n",
        0,
        b"1 FIRM A = ok\n2 FIRM A = refused 1 firm-exists\n",
    ),
    (
        b"16 FIRM A\nFENCE\nFENCE\r\n2 FIRM B\nFENCE",
        0,
        b"16 FIRM A = ok\n2 FIRM B = ok\n",
    ),
    (
        b"2 FIRM B\n2 FUND B 5.00\n2 POSITION B\n",
        0,
        b"2 FIRM B = ok\n2 FUND B 5.00 = ok\n2 POSITION B = balance 5.00 receivable 0.00 payable 0.00\n",
    ),
    (b"FENCE\nFENCE\n", 0, b""),
    (b"1 FIRM A\nFENCE\n0 FIRM A\n", 6, b"fault line 3 lane\n"),
    (b"1 FIRM A\nfence\n", 6, b"fault line 2 lane\n"),
];

#[test]
fn lanes(rt: HostRuntime) {
    for (input, status, output) in LANES {
        expect_end(&rt, rt.alloc(), &["run"], input, status, output);
    }
}

// ---- a round gives the turn back while it is solved

// The line of the second lane.
const SECOND: u64 = 12;

const WITH_SECOND: &[u8] =
    b"1 FIRM A\n1 FIRM B\n1 FIRM C\n1 FILE B I-1 A 10.00 2025-01-31\n1 FILE C I-2 B 7.00 2025-01-31\n1 FILE A I-3 C 12.00 2025-01-31\n1 CONFIRM B I-1 A\n1 CONFIRM C I-2 B\n1 CONFIRM A I-3 C\nFENCE\n1 CLOSE PLAIN 2025-12-31\n2 FIRM D\n";

const BETWEEN: &[u8] =
    b"1 FIRM A = ok\n1 FIRM B = ok\n1 FIRM C = ok\n1 FILE B I-1 A 10.00 2025-01-31 = ok\n1 FILE C I-2 B 7.00 2025-01-31 = ok\n1 FILE A I-3 C 12.00 2025-01-31 = ok\n1 CONFIRM B I-1 A = ok\n1 CONFIRM C I-2 B = ok\n1 CONFIRM A I-3 C = ok\n1 CLOSE PLAIN 2025-12-31 = opened 1\n2 FIRM D = ok\n1 PUBLISH 1 = published 21.00\nROUND 1 PLAIN\nPARTY A 0.00 0.00 ?\nPARTY B 0.00 0.00 ?\nPARTY C 0.00 0.00 ?\nCLAIM B I-1 A 10.00 7.00\nCLAIM C I-2 B 7.00 7.00\nCLAIM A I-3 C 12.00 7.00\nEND\n";

// What the lanes of a test tell one another: 1 in each of the first words once it is so, and the number of the round that is solved.
#[derive(Drop)]
struct Signs {
    paused: AtomicU64,
    answered: AtomicU64,
    given_up: AtomicU64,
    round: AtomicU64,
}

impl Signs {
    fn new() -> Signs {
        Signs {
            paused: AtomicU64::new(0),
            answered: AtomicU64::new(0),
            given_up: AtomicU64::new(0),
            round: AtomicU64::new(0),
        }
    }

    // Waits for a sign, at most 1,000,000 turns.
    fn wait_for(&self, sign: &AtomicU64) {
        for _ in 0..1_000_000 {
            if sign.load(Ordering::SeqCst) == 1 {
                return;
            }
            thread::yield_now();
        }
        self.given_up.store(1, Ordering::SeqCst);
    }
}

// Holds the line of the second lane until the round of the first is being solved.
#[derive(Drop)]
struct HoldsSecond<'a>(&'a Signs);

impl Gate for HoldsSecond<'_> {
    fn before<R: Wait>(&self, _rt: &R, line: u64) {
        if line == SECOND {
            self.0.wait_for(&self.0.paused);
        }
    }

    fn after<R: Wait>(&self, _rt: &R, line: u64) {
        if line == SECOND {
            self.0.answered.store(1, Ordering::SeqCst);
        }
    }
}

// Holds the round until the line of the second lane was answered.
#[derive(Drop)]
struct HoldsRound<'a>(&'a Signs);

impl Pause for HoldsRound<'_> {
    fn pause<R: Wait>(&self, _rt: &R, round: u32) {
        self.0.round.store(u64::from(round), Ordering::SeqCst);
        self.0.paused.store(1, Ordering::SeqCst);
        self.0.wait_for(&self.0.answered);
    }
}

#[test]
fn others_are_answered_while_a_round_is_solved(rt: HostRuntime) {
    let signs = Signs::new();
    let words = words_of(&rt, rt.alloc(), &["run"]);
    let ended = bureau(
        &rt,
        rt.alloc(),
        words,
        source_of(&rt, rt.alloc(), WITH_SECOND),
        sink_of(&rt, rt.alloc(), 0),
        disk_of(&rt, rt.alloc(), b"", 0),
        HoldsSecond(&signs),
        HoldsRound(&signs),
    );
    assert!(rt; signs.given_up.load(Ordering::SeqCst) == 0);
    assert!(rt; signs.round.load(Ordering::SeqCst) == 1);
    assert!(rt; ended.status == 0);
    assert!(rt; is_like(ended.sink.bytes(), BETWEEN));
}

// ---- the calls of a sink, a disk and a gate, in order

const DISK_CALL: u64 = 1;

const WRITE: u64 = 2;

const BEFORE: u64 = 3;

const AFTER: u64 = 4;

const SHOWN: u64 = 5;

// The calls so far, each in its place.
#[derive(Drop)]
struct Calls {
    next: AtomicU64,
    places: Vec<AtomicU64>,
}

impl Calls {
    fn new(rt: &impl Abort, alloc: Global) -> Calls {
        let mut places = Vec::new(alloc);
        for _ in 0..500 {
            places.push(AtomicU64::new(0)).expect(rt, "memory");
        }
        Calls {
            next: AtomicU64::new(0),
            places,
        }
    }

    fn note(&self, call: u64) {
        let at = self.next.fetch_add(1, Ordering::SeqCst);
        if let Some(place) = self.places.get(at as usize) {
            place.store(call, Ordering::SeqCst);
        }
    }

    // The calls, with one for several of a kind in a row.
    fn kinds(&self, rt: &impl Abort, alloc: Global) -> Vec<u64> {
        let mut kinds = Vec::new(alloc);
        let mut last = 0;
        for place in &self.places {
            let call = place.load(Ordering::SeqCst);
            if call != last && call != 0 {
                kinds.push(call).expect(rt, "memory");
            }
            last = call;
        }
        kinds
    }
}

// Notes its calls.
#[derive(Drop)]
struct NotingSink<'a> {
    sink: BytesSink,
    calls: &'a Calls,
}

impl Sink for NotingSink<'_> {
    ghost use Rattle.std.specs.Prelude.{None};

    ghost held = { λ s. None };

    ghost faults = { λ s. s.sink.faults };

    fn write(&mut self, piece: &[u8]) -> Result<usize, Failed> {
        self.calls.note(WRITE);
        self.sink.write(piece)
    }
}

// Notes its calls, and tells no bytes.
#[derive(Drop)]
struct NotingDisk<'a> {
    disk: MemoryDisk,
    faults: u64,
    calls: &'a Calls,
}

impl<'a> Model for NotingDisk<'a> {
    ghost use Rattle.std.specs.Prelude.{ℕ};

    ghost Value = { ℕ };

    ghost view = { λ d. d.faults };
}

impl NotingDisk<'_> {
    // One fault more.
    fn fail(&mut self) -> DiskFailed
        ensures next { self.new ≡ next_count self.old }
        ensures later { self.old ≤ self.new }
        ensures rose { HasRisen self.old self.new }
    {
        self.faults = next_count(self.faults);
        DiskFailed
    }
}

// Whether a disk has bytes up to so many past a place.
fn has(disk: &MemoryDisk, at: u64, count: usize) -> bool
    ensures { result ≡ true → at + count ≤ length disk.now.bytes.items }
{
    match at.checked_add(count as u64) {
        Some(end) => end <= disk.bytes().len() as u64,
        None => false,
    }
}

impl Disk for NotingDisk<'_> {
    ghost use Rattle.disk_model.specs.Untold.{nothing_told};

    ghost seen = { untold };

    ghost reads_now = { λ d told. absurd (nothing_told told) };

    fn len(&mut self) -> Result<u64, DiskFailed> {
        self.calls.note(DISK_CALL);
        match self.disk.len() {
            Ok(count) => Ok(count),
            Err(_) => Err(self.fail()),
        }
    }

    fn read_at(&mut self, at: u64, into: &mut [u8]) -> Result<(), DiskFailed> {
        self.calls.note(DISK_CALL);
        if !has(&self.disk, at, into.len()) {
            return Err(self.fail());
        }
        match self.disk.read_at(at, into) {
            Ok(()) => Ok(()),
            Err(_) => Err(self.fail()),
        }
    }

    fn write_at(&mut self, at: u64, piece: &[u8]) -> Result<(), DiskFailed> {
        self.calls.note(DISK_CALL);
        if !has(&self.disk, at, 0) {
            return Err(self.fail());
        }
        match self.disk.write_at(at, piece) {
            Ok(()) => Ok(()),
            Err(_) => Err(self.fail()),
        }
    }

    fn sync(&mut self) -> Result<(), DiskFailed> {
        self.calls.note(DISK_CALL);
        match self.disk.sync() {
            Ok(()) => Ok(()),
            Err(_) => Err(self.fail()),
        }
    }

    fn faults(&self) -> u64 {
        self.faults
    }
}

// Notes its calls, and hands them on.
#[derive(Drop)]
struct NotingWitness<'a, W> {
    witness: W,
    calls: &'a Calls,
}

impl<K: Sink, D, W: Witness<K, D>> Witness<K, D> for NotingWitness<'_, W> {
    ghost shown = { λ w. W.shown w.witness };

    fn show(&mut self, sink: &K, disk: &D) {
        self.calls.note(SHOWN);
        self.witness.show(sink, disk)
    }
}

// The calls of a sink, a disk and a witness, for two batches and these words.
fn calls_of_two_batches<R: Abort + Threads + Wait + Sync>(
    rt: &R,
    alloc: Global,
    text: &str,
) -> Vec<u64> {
    let calls = Calls::new(rt, alloc);
    let words = words_of(rt, alloc, &[text]);
    let source = source_of(rt, alloc, WITH_SECOND);
    let sink = NotingSink {
        sink: sink_of(rt, alloc, 0),
        calls: &calls,
    };
    let disk = NotingDisk {
        disk: disk_of(rt, alloc, b"", 0),
        faults: 0,
        calls: &calls,
    };
    let mut witness = NotingWitness {
        witness: SilentWitness::new(),
        calls: &calls,
    };
    let ended = bureau_in_order(
        rt,
        alloc,
        words,
        source,
        sink,
        &mut witness,
        disk,
        Unhindered,
        Unhindered,
    );
    assert!(rt; ended.status == 0);
    assert!(rt; calls.next.load(Ordering::SeqCst) <= 500);
    calls.kinds(rt, alloc)
}

// All calls of the disk for a batch come before the witness is shown both, and that before what is written of the batch; what is
// written comes before the calls for the next one. The calls at the opening are the first.
#[test]
fn a_batch_is_written_after_its_last_call_of_the_disk(rt: HostRuntime) {
    let due = [
        DISK_CALL, SHOWN, DISK_CALL, SHOWN, WRITE, DISK_CALL, SHOWN, WRITE,
    ];
    for text in ["run", "live"] {
        let kinds = calls_of_two_batches(&rt, rt.alloc(), text);
        assert!(rt; kinds.as_slice() == due.as_slice());
    }
}

// Notes its calls.
#[derive(Drop)]
struct NotingGate<'a>(&'a Calls);

impl Gate for NotingGate<'_> {
    fn before<R: Wait>(&self, _rt: &R, _line: u64) {
        self.0.note(BEFORE);
    }

    fn after<R: Wait>(&self, _rt: &R, _line: u64) {
        self.0.note(AFTER);
    }
}

// All calls of the disk for a line come between those of the gate round it. The first calls are those of the opening.
#[test]
fn a_line_is_served_between_the_calls_of_the_gate(rt: HostRuntime) {
    let alloc = rt.alloc();
    let calls = Calls::new(&rt, alloc);
    let disk = NotingDisk {
        disk: disk_of(&rt, alloc, b"", 0),
        faults: 0,
        calls: &calls,
    };
    let words = words_of(&rt, alloc, &["run"]);
    let source = source_of(&rt, alloc, b"1 FIRM A\n1 FIRM B\n");
    let sink = sink_of(&rt, alloc, 0);
    let gate = NotingGate(&calls);
    let ended = bureau(&rt, alloc, words, source, sink, disk, gate, Unhindered);
    assert!(rt; ended.status == 0);
    let kinds = calls.kinds(&rt, alloc);
    let due = [
        DISK_CALL, BEFORE, DISK_CALL, AFTER, BEFORE, DISK_CALL, AFTER,
    ];
    assert!(rt; kinds.as_slice() == due.as_slice());
}
