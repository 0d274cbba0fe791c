//! Inputs that are served while they are read.
ghost use Rattle.std.specs.Prelude.{◌≡◌, ◌<◌, true};
ghost use Rattle.live_intake.specs.live_reading.specs.declared.stop.Stop.TheVariants as stop;

use crate::acts::{MemoryDesk, desk_on, main_entries};
use crate::lanes::{Nothing, batches_of};
use crate::thousand::are_lines_of;
use bureau_edge::{BytesSource, Failed, Source, SureSource};
use claim_history::Reply;
use flow_solver::PlainSolver;
use input_front::Intake;
use live_intake::{Answer, BatchEnd, Gate, LineEnd, LiveEnd, Stop, run_live};
use request_text::LineCause;
use std::alloc::Global;
use std::process::Abort;
use std::sync::Wait;
use std::sync::atomic::{AtomicU64, Ordering};
use std::thread::{self, Threads};

// ---- a batch

// The answers are those of the lines from this number on, and each was replied to.
fn are_replied(rt: &impl Abort, answers: &[Answer], first: u64) {
    for (i, answer) in answers.iter().enumerate() {
        assert!(rt; first.checked_add(i as u64) == Some(answer.line));
        assert!(rt; answer.end == LineEnd::Replied);
    }
}

// Serves one batch of an intake, each of whose lines is replied to, from this number on: the desk, how many lines there were, and
// why the batch ended.
fn served<S: Source, R: Threads + Wait + Abort + Sync, G: Gate + Sync>(
    rt: &R,
    alloc: Global,
    desk: MemoryDesk,
    intake: &mut Intake,
    source: &mut S,
    gate: &G,
    first: u64,
) -> (MemoryDesk, usize, Stop)
    requires { intake.old.fenced ≡ true }
    ensures { result.2 ≡ stop.Fence → intake.new.fenced ≡ true }
{
    let LiveEnd { end, stop } = run_live(
        rt,
        alloc,
        desk,
        intake,
        source,
        &PlainSolver::new(),
        gate,
        &Nothing,
    );
    let BatchEnd { desk, answers } = end;
    let answers = answers.expect(rt, "answers");
    are_replied(rt, answers.list(), first);
    (desk, answers.list().len(), stop)
}

// ---- inputs of one batch

// What comes of an input: how many lines are replied to, how many members the history has, and why it ends.
#[derive(Clone, Copy)]
struct Due {
    lines: usize,
    members: u64,
    stop: Stop,
}

// A source, of which at most so many bytes are taken, comes to this on a new desk.
fn comes_to<S: Source, R: Threads + Wait + Abort + Sync, G: Gate + Sync>(
    rt: &R,
    alloc: Global,
    source: &mut S,
    limit: u16,
    gate: &G,
    due: &Due,
) {
    let intake = Intake::new(alloc, u64::from(limit));
    let mut intake = intake.ok().expect(rt, "memory");
    let desk = desk_on(rt, alloc, b"");
    let (desk, lines, stop) = served(rt, alloc, desk, &mut intake, source, gate, 1);
    assert!(rt; lines == due.lines && stop == due.stop);
    assert!(rt; desk.books().len() == due.members);
    drop(desk.close());
}

// A source of this text, which fails at the call of this number.
fn source_of(rt: &impl Abort, alloc: Global, text: &[u8], fails: u64) -> BytesSource {
    let bytes = Vec::from_slice(alloc, text).ok().expect(rt, "memory");
    let fails = Vec::from_slice(alloc, &[fails]).ok().expect(rt, "memory");
    BytesSource::new(bytes, fails)
}

// A bad line, a FENCE and a bad line without a line feed, a fault in the middle of a line, and one byte more than the limit.
#[test]
fn inputs_come_to_their_ends(rt: HostRuntime) {
    let third = Stop::BadLine {
        line: 3,
        cause: LineCause::Verb,
    };
    let second = Stop::BadLine {
        line: 2,
        cause: LineCause::Verb,
    };
    let cases: [(&[u8], u16, u64, usize, Stop); 7] = [
        (b"", 100, 0, 0, Stop::End),
        (b"1 FIRM A\n2 FIRM B\n1 NO\n2 FIRM C\n", 100, 0, 2, third),
        (b"1 FIRM A\nFENCE", 100, 0, 1, Stop::End),
        (b"1 FIRM A\n2 FIR", 100, 0, 1, second),
        (b"1 FIRM A\n2 FIR", 100, 2, 1, Stop::Failed),
        (b"1 FIRM A\n2 FIRM B\n", 18, 0, 2, Stop::End),
        (b"1 FIRM A\n2 FIRM B\n", 17, 0, 2, Stop::TooLong),
    ];
    for (text, limit, fails, lines, stop) in cases {
        let mut source = source_of(&rt, rt.alloc(), text, fails);
        let due = Due {
            lines,
            members: lines as u64,
            stop,
        };
        comes_to(&rt, rt.alloc(), &mut source, limit, &Nothing, &due);
    }
}

// ---- a source of single bytes

// Bytes that are given one at a time.
#[derive(Drop)]
struct ByBytes(SureSource);

impl Source for ByBytes {
    ghost use Rattle.std.specs.Prelude.{None};

    ghost left = { λ _. None };

    ghost faults = { λ _. 0 };

    fn read(&mut self, into: &mut [u8]) -> Result<usize, Failed> {
        self.0.read(&mut into[..1])
    }
}

// A round of three firms, which is published.
const BOOK: &[u8] = b"1 FIRM A
1 FIRM B
1 FIRM C
1 FILE B I-1 A 10.00 2025-01-31
1 FILE C I-2 B 7.00 2025-01-31
1 FILE A I-3 C 12.00 2025-01-31
1 CONFIRM B I-1 A
1 CONFIRM C I-2 B
1 CONFIRM A I-3 C
1 CLOSE PLAIN 2025-12-31
";

#[test]
fn an_input_of_single_bytes(rt: HostRuntime) {
    let bytes = Vec::from_slice(rt.alloc(), BOOK).expect(&rt, "memory");
    let mut source = ByBytes(SureSource::new(bytes));
    let due = Due {
        lines: 10,
        members: 11,
        stop: Stop::End,
    };
    comes_to(&rt, rt.alloc(), &mut source, 1_000, &Nothing, &due);
}

// ---- more lines than a ring has places

// So many lines of lanes in turn, each of which registers a firm.
fn registrations(rt: &impl Abort, alloc: Global, lanes: u32, lines: u32) -> Vec<u8>
    requires { 0 < lanes }
{
    let mut text = Vec::new(alloc);
    for number in 0..lines {
        let lane = number % lanes + 1;
        let line = format!(in alloc; "{lane} FIRM F-{number}\n").expect(rt, "memory");
        text.extend_from_slice(line.as_bytes()).expect(rt, "memory");
    }
    text
}

// Each of so many lines is done, those of each lane in order.
fn all_are_done<R: Threads + Wait + Abort + Sync>(rt: &R, alloc: Global, lanes: u32, lines: u32)
    requires { 0 < lanes }
{
    let text = registrations(rt, alloc, lanes, lines);
    let batches = batches_of(rt, alloc, &text);
    assert!(rt; batches.len() == 1);
    let mut source = SureSource::new(text);
    let mut intake = Intake::new(alloc, 1_000_000).ok().expect(rt, "memory");
    let desk = desk_on(rt, alloc, b"");
    let (desk, count, stop) = served(rt, alloc, desk, &mut intake, &mut source, &Nothing, 1);
    assert!(rt; count == lines as usize && stop == Stop::End);
    let history = main_entries(&desk);
    assert!(rt; history.iter().all(|entry| entry.reply == Reply::Done));
    for lane in 1..17 {
        assert!(rt; are_lines_of(lane, batches[0].requests(), history));
    }
    drop(desk.close());
}

#[test]
fn two_hundred_lines_of_one_lane(rt: HostRuntime) {
    all_are_done(&rt, rt.alloc(), 1, 200);
}

#[test]
fn two_hundred_lines_of_each_lane(rt: HostRuntime) {
    all_are_done(&rt, rt.alloc(), 16, 3_200);
}

// ---- batches

// Two batches of an input: a line is replied to in each, the lines 1 and 3, and this ends the second.
fn second_ends<R: Threads + Wait + Abort + Sync>(
    rt: &R,
    alloc: Global,
    text: &[u8],
    fails: u64,
    due: Stop,
) {
    let mut source = source_of(rt, alloc, text, fails);
    let mut intake = Intake::new(alloc, 100).ok().expect(rt, "memory");
    let desk = desk_on(rt, alloc, b"");
    let (desk, one, fence) = served(rt, alloc, desk, &mut intake, &mut source, &Nothing, 1);
    assert!(rt; one == 1 && fence == Stop::Fence);
    let (desk, two, stop) = served(rt, alloc, desk, &mut intake, &mut source, &Nothing, 3);
    assert!(rt; two == 1 && stop == due);
    assert!(rt; desk.books().len() == 2);
    drop(desk.close());
}

#[test]
fn batches_follow_one_another(rt: HostRuntime) {
    let bad = Stop::BadLine {
        line: 4,
        cause: LineCause::Verb,
    };
    let cases: [(&[u8], u64, Stop); 3] = [
        (b"1 FIRM A\nFENCE\n2 FIRM B\n2 NO\n", 0, bad),
        (b"1 FIRM A\nFENCE\n2 FIRM B\n3 FIRM C", 2, Stop::Failed),
        (b"1 FIRM A\nFENCE\n2 FIRM B", 0, Stop::End),
    ];
    for (text, fails, stop) in cases {
        second_ends(&rt, rt.alloc(), text, fails, stop);
    }
}

// ---- lines are served while the source waits

// Counts the lines that were answered.
#[derive(Drop)]
struct Told {
    lines: AtomicU64,
}

impl Told {
    // Waits until so many lines were answered, for at most 1,000,000 turns; false where fewer were.
    fn have_come(&self, due: u64) -> bool {
        for _ in 0..1_000_000 {
            if self.lines.load(Ordering::SeqCst) >= due {
                return true;
            }
            thread::yield_now();
        }
        false
    }
}

impl Gate for Told {
    fn before<R: Wait>(&self, _rt: &R, _line: u64) {}

    fn after<R: Wait>(&self, _rt: &R, _line: u64) {
        let _ = self.lines.fetch_add(1, Ordering::SeqCst);
    }
}

// Gives one text, and another only when so many lines were answered.
#[derive(Drop)]
struct Patient<'a> {
    told: &'a Told,
    due: u64,
    first: SureSource,
    second: SureSource,
    late: bool,
}

impl Source for Patient<'_> {
    ghost use Rattle.std.specs.Prelude.{None};

    ghost left = { λ _. None };

    ghost faults = { λ _. 0 };

    fn read(&mut self, into: &mut [u8]) -> Result<usize, Failed> {
        match self.first.read(into) {
            Ok(0) => {}
            given => return given,
        }
        if !self.told.have_come(self.due) {
            self.late = true;
        }
        self.second.read(into)
    }
}

// So many lines of a first text are answered while the source waits, and with a second one it comes to this.
fn is_answered_meanwhile<R: Threads + Wait + Abort + Sync>(
    rt: &R,
    alloc: Global,
    first: &[u8],
    answered: u64,
    second: &[u8],
    due: &Due,
) {
    let told = Told {
        lines: AtomicU64::new(0),
    };
    let first = Vec::from_slice(alloc, first).ok().expect(rt, "memory");
    let second = Vec::from_slice(alloc, second).ok().expect(rt, "memory");
    let mut source = Patient {
        told: &told,
        due: answered,
        first: SureSource::new(first),
        second: SureSource::new(second),
        late: false,
    };
    comes_to(rt, alloc, &mut source, 1_000, &told, due);
    assert!(rt; !source.late);
}

// A line of a lane before one that is not whole; lines of two lanes; and those that come with a CLOSE, while each lane may be handed
// more.
#[test]
fn lines_are_answered_while_the_source_waits(rt: HostRuntime) {
    let close = b"1 CLOSE PLAIN 2025-12-31\n2 FIRM A\n16 FIRM B\n";
    let cases: [(&[u8], u64, &[u8], usize, u64); 3] = [
        (b"1 FIRM A\n2 FI", 1, b"RM B\n", 2, 2),
        (b"1 FIRM A\n2 FIRM B\n", 2, b"2 FIRM C\n", 3, 3),
        (close, 3, b"1 FIRM C\n16 FIRM D\n", 5, 6),
    ];
    for (first, answered, second, lines, members) in cases {
        let due = Due {
            lines,
            members,
            stop: Stop::End,
        };
        is_answered_meanwhile(&rt, rt.alloc(), first, answered, second, &due);
    }
}

// A batch with a round ends with its FENCE, and its lanes are served side by side: those up to the last that was handed a line.
#[test]
fn a_round_beside_lines_of_other_lanes(rt: HostRuntime) {
    let bytes = b"1 FIRM A\n1 CLOSE PLAIN 2025-12-31\n2 FIRM B\n5 FIRM C\nFENCE\n";
    let mut source = source_of(&rt, rt.alloc(), bytes.as_slice(), 0);
    let due = Due {
        lines: 4,
        members: 5,
        stop: Stop::Fence,
    };
    comes_to(&rt, rt.alloc(), &mut source, 1_000, &Nothing, &due);
}
