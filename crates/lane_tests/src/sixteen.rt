//! Sixteen rounds that are open at once, each in a pool of its own.
ghost use Rattle.std.specs.Prelude.{◌≤◌};

use crate::acts::{MemoryDesk, desk_on, pool};
use crate::lanes::{Nothing, batches_of, served};
use crate::rounds::horizon;
use crate::steps::{Steps, UntilAllCome};
use claim_history::{Act, Reply};
use live_intake::CutReply;
use setoff_model::Kind;
use std::alloc::Global;
use std::process::Abort;
use std::sync::Wait;
use std::thread::Threads;

// The pools of the lanes from 1 to 16, whose names are in no order.
const POOLS: [&str; 16] = [
    "P-7", "B", "Z-1", "M", "Q", "A-16", "NORTH", "E", "P-12", "Y", "C-3", "WEST", "D", "P-1",
    "EAST", "K",
];

// What makes the triangle.
const TRIANGLE: [&str; 9] = [
    "FIRM A",
    "FIRM B",
    "FIRM C",
    "FILE B I-1 A 10.00 2025-01-31",
    "FILE C I-2 B 7.00 2025-01-31",
    "FILE A I-3 C 12.00 2025-01-31",
    "CONFIRM B I-1 A",
    "CONFIRM C I-2 B",
    "CONFIRM A I-3 C",
];

// A line of each lane, in its pool, that asks this act.
fn lines_of(rt: &impl Abort, alloc: Global, act: &str) -> Vec<u8> {
    let mut text = Vec::new(alloc);
    for place in 0..16 {
        let (lane, pool) = (place + 1, POOLS[place]);
        let line = format!(in alloc; "{lane} @{pool} {act}\n").expect(rt, "memory");
        text.extend_from_slice(line.as_bytes()).expect(rt, "memory");
    }
    text
}

// The triangle in the pool of each lane, and this behind it.
fn triangles(rt: &impl Abort, alloc: Global, last: &[u8]) -> Vec<u8> {
    let mut text = Vec::new(alloc);
    for act in TRIANGLE {
        let lines = lines_of(rt, alloc, act);
        text.extend_from_slice(&lines).expect(rt, "memory");
    }
    text.extend_from_slice(last).expect(rt, "memory");
    text
}

// A new desk on which all these lines were replied to, in one batch. Each round waits until so many were made.
fn after_lines<R: Threads + Wait + Abort + Sync>(
    rt: &R,
    alloc: Global,
    text: &[u8],
    rounds: u32,
) -> MemoryDesk {
    let batches = batches_of(rt, alloc, text);
    assert!(rt; batches.len() == 1);
    let steps = Steps::new();
    let pause = UntilAllCome {
        lines: rounds,
        steps: &steps,
    };
    let desk = desk_on(rt, alloc, b"");
    let desk = served(rt, alloc, desk, &batches[0], &Nothing, &pause);
    assert!(rt; !steps.was_late(rt));
    desk
}

// The first round of a pool discharged 7.00 of each claim of its triangle.
fn has_triangle_discharged(rt: &impl Abort, desk: &MemoryDesk, name: &str) {
    let entries = desk.books().book(&pool(rt, name.as_bytes())).history();
    assert!(rt; entries.len() == 11);
    assert!(rt; entries[9].reply == Reply::Opened { round: 1 });
    assert!(rt; entries[10].reply == Reply::Published { total: 2_100 });
}

// No round is solved before all sixteen are open.
#[test]
fn sixteen_lanes_close_a_round_each(rt: HostRuntime) {
    let alloc = rt.alloc();
    let closes = lines_of(&rt, alloc, "CLOSE PLAIN 2025-12-31");
    let text = triangles(&rt, alloc, &closes);
    let desk = after_lines(&rt, alloc, &text, 16);
    for name in POOLS {
        has_triangle_discharged(&rt, &desk, name);
    }
    assert!(rt; desk.rounds().len() == 16);
    drop(desk.close());
}

// Opens the round of a lane in its pool, with its three claims.
fn opens_round(rt: &impl Abort, desk: &mut MemoryDesk, lane: u32, name: &str)
    requires { 1 ≤ lane }
{
    let reply = desk.cut(lane, pool(rt, name.as_bytes()), Kind::Plain, horizon(rt));
    match reply.ok().expect(rt, "a reply") {
        CutReply::Frozen(cut) => assert!(rt; cut.claims().len() == 3),
        CutReply::Refused(_) => panic!(rt; "it is refused"),
    }
}

// A member of the books is the bureau's abandonment of the round of a pool.
fn is_abandonment(rt: &impl Abort, desk: &MemoryDesk, place: u64, name: &str) -> bool {
    assert!(rt; place < desk.books().len());
    let (of, entry) = desk.books().member(place);
    of == pool(rt, name.as_bytes())
        && entry.caller == 0
        && matches!(entry.act, Act::Abandon)
        && entry.reply == Reply::Abandoned { round: 1 }
}

// Rounds that were left open are abandoned in the order in which they were opened.
#[test]
fn sixteen_open_rounds_are_abandoned(rt: HostRuntime) {
    let alloc = rt.alloc();
    let mut desk = after_lines(&rt, alloc, &triangles(&rt, alloc, b""), 0);
    for place in 0..16 {
        opens_round(&rt, &mut desk, place as u32 + 1, POOLS[place]);
    }
    let disk = desk.close();
    let desk = desk_on(&rt, alloc, disk.bytes());
    assert!(rt; desk.books().len() == 176);
    for place in 0..16 {
        assert!(rt; is_abandonment(&rt, &desk, 160 + place as u64, POOLS[place]));
    }
    drop(desk.close());
}
