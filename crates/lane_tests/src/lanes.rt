//! Batches, served by lanes side by side.
ghost use Rattle.std.specs.Prelude.{◌≤◌};

use crate::acts::{MemoryDesk, desk_on, main_entries, pool};
use crate::steps::{Steps, UntilAllCome};
use claim_history::{Act, Entry, Position, Reply};
use flow_solver::PlainSolver;
use live_intake::{Answer, BatchEnd, Gate, LineEnd, Pause, run_batch};
use request_text::{Batch, read_requests};
use std::alloc::Global;
use std::process::Abort;
use std::sync::Wait;
use std::thread::Threads;

// ---- batches, and what is done round a line

/// Nothing is done round a line or in a round.
pub struct Nothing;

impl Gate for Nothing {
    fn before<R: Wait>(&self, _rt: &R, _line: u64) {}

    fn after<R: Wait>(&self, _rt: &R, _line: u64) {}
}

impl Pause for Nothing {
    fn pause<R: Wait>(&self, _rt: &R, _round: u32) {}
}

/// The batches that a text spells.
pub fn batches_of(rt: &impl Abort, alloc: Global, text: &[u8]) -> Vec<Batch> {
    let batches = read_requests(alloc, text).ok();
    batches.expect(rt, "batches")
}

// So many lines were replied to, and these are all.
fn are_replied(rt: &impl Abort, answers: &[Answer], count: usize) {
    assert!(rt; answers.len() == count);
    for answer in answers {
        assert!(rt; answer.end == LineEnd::Replied);
    }
}

/// The desk after a batch, each of whose lines was replied to.
pub fn served<R: Threads + Wait + Abort + Sync, G: Gate + Sync, P: Pause + Sync>(
    rt: &R,
    alloc: Global,
    desk: MemoryDesk,
    batch: &Batch,
    gate: &G,
    pause: &P,
) -> MemoryDesk {
    let end = run_batch(rt, alloc, desk, batch, &PlainSolver::new(), gate, pause);
    let BatchEnd { desk, answers } = end;
    let answers = answers.expect(rt, "answers");
    are_replied(rt, answers.list(), batch.requests().len());
    desk
}

// ---- lanes at the same time

// The lanes from 1 to 8, or from 9 to 16, have one entry each in a pool, and the reply of each is that it is done.
fn each_has_one(rt: &impl Abort, history: &[Entry], first: u32)
    requires { first ≤ 100 }
{
    assert!(rt; history.len() == 8);
    assert!(rt; history.iter().all(|entry| entry.reply == Reply::Done));
    for past in 0..8 {
        assert!(rt; history.iter().any(|entry| entry.caller == first + past));
    }
}

// The gate of each line waits until all sixteen lines have come to it, those of another pool, too, so lanes in turn fail this.
#[test]
fn lanes_are_served_at_the_same_time(rt: HostRuntime) {
    let alloc = rt.alloc();
    let lines: &[u8] = b"1 FIRM F-1
2 FIRM F-2
3 FIRM F-3
4 FIRM F-4
5 FIRM F-5
6 FIRM F-6
7 FIRM F-7
8 FIRM F-8
9 @EAST FIRM F-9
10 @EAST FIRM F-10
11 @EAST FIRM F-11
12 @EAST FIRM F-12
13 @EAST FIRM F-13
14 @EAST FIRM F-14
15 @EAST FIRM F-15
16 @EAST FIRM F-16
";
    let batches = batches_of(&rt, alloc, lines);
    assert!(rt; batches.len() == 1);
    let steps = Steps::new();
    let gate = UntilAllCome {
        lines: 16,
        steps: &steps,
    };
    let desk = served(
        &rt,
        alloc,
        desk_on(&rt, alloc, b""),
        &batches[0],
        &gate,
        &Nothing,
    );
    assert!(rt; !steps.was_late(&rt));
    each_has_one(&rt, main_entries(&desk), 1);
    each_has_one(&rt, desk.books().book(&pool(&rt, b"EAST")).history(), 9);
    drop(desk.close());
}

// ---- a lane finds its own writes

// The entries of the second lane are these two, in order: B was funded with 5.00, and then its position was told.
fn finds_own_writes(rt: &impl Abort, history: &[Entry]) {
    let mut entries = history.iter().filter(|entry| entry.caller == 2);
    let funded = entries.next();
    let told = entries.next();
    let none = entries.next();
    assert!(rt; funded.is_some_and(is_funding));
    assert!(rt; told.is_some_and(tells_funds));
    assert!(rt; none.is_none());
}

fn is_funding(entry: &Entry) -> bool {
    matches!(entry.act, Act::Fund { amount: 500, .. }) && entry.reply == Reply::Done
}

fn tells_funds(entry: &Entry) -> bool {
    let position = Position {
        balance: 500,
        receivable: 0,
        payable: 0,
    };
    entry.reply == Reply::Position(position)
}

// The other lanes are busy with another firm.
#[test]
fn a_lane_finds_its_own_writes(rt: HostRuntime) {
    let alloc = rt.alloc();
    let lines: &[u8] = b"1 FIRM B
1 FIRM C
FENCE
1 FUND C 1.00
3 FUND C 1.00
2 FUND B 5.00
1 POSITION C
4 FUND C 1.00
3 POSITION C
2 POSITION B
1 FUND C 1.00
4 POSITION C
";
    let batches = batches_of(&rt, alloc, lines);
    assert!(rt; batches.len() == 2);
    let desk = desk_on(&rt, alloc, b"");
    let desk = served(&rt, alloc, desk, &batches[0], &Nothing, &Nothing);
    let desk = served(&rt, alloc, desk, &batches[1], &Nothing, &Nothing);
    finds_own_writes(&rt, main_entries(&desk));
    drop(desk.close());
}
