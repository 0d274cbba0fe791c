//! A thousand lines of sixteen lanes, and what is due to them.
use crate::acts::{MemoryDesk, desk_on, is_same, main_entries};
use crate::lanes::{Nothing, batches_of, served};
use claim_history::{Act, Entry, main_pool_name};
use request_text::Request;
use std::alloc::Global;
use std::process::Abort;

// ---- the lines

const FIRMS: [&str; 3] = ["A", "B", "C"];

const VERBS: [&str; 5] = ["FIRM", "FUND", "POSITION", "DRAW", "DRAW"];

// The line of this number: an act of one of three firms, by the lanes in turn.
fn line_of(rt: &impl Abort, alloc: Global, number: usize) -> String {
    let lane = number % 16 + 1;
    let firm = FIRMS[number % 3];
    let verb = VERBS[number % 5];
    let line = match number % 5 {
        0 | 2 => format!(in alloc; "{lane} {verb} {firm}\n"),
        _ => format!(in alloc; "{lane} {verb} {firm} {number}.00\n"),
    };
    line.expect(rt, "memory")
}

fn thousand_lines(rt: &impl Abort, alloc: Global) -> Vec<u8> {
    let mut text = Vec::new(alloc);
    for number in 0..1_000 {
        let line = line_of(rt, alloc, number);
        text.extend_from_slice(line.as_bytes()).expect(rt, "memory");
    }
    text
}

// ---- what is due

// A desk that is asked the act of this entry gives its reply.
fn is_due(rt: &impl Abort, desk: &mut MemoryDesk, entry: &Entry) {
    let act = entry.act.clone().expect(rt, "memory");
    assert!(rt; entry.caller != 0);
    assert!(rt; act.valid());
    assert!(rt; !act.publishes());
    assert!(rt; !matches!(act, Act::Close { .. }));
    let reply = desk.act(entry.caller, main_pool_name(), act).ok();
    assert!(rt; reply == Some(entry.reply));
}

// Another desk, which is asked these acts one after another, gives their replies.
fn are_due(rt: &impl Abort, desk: &mut MemoryDesk, history: &[Entry]) {
    for entry in history {
        is_due(rt, desk, entry);
    }
}

/// Whether the entries of a lane are its lines, in order.
pub fn are_lines_of(lane: u32, requests: &[Request], history: &[Entry]) -> bool {
    let lines = || requests.iter().filter(|request| request.lane == lane);
    let entries = || history.iter().filter(|entry| entry.caller == lane);
    lines().count() == entries().count()
        && lines()
            .zip(entries())
            .all(|(line, entry)| is_same(&line.act, &entry.act))
}

#[test]
fn a_thousand_lines_have_the_replies_that_are_due(rt: HostRuntime) {
    let alloc = rt.alloc();
    let batches = batches_of(&rt, alloc, &thousand_lines(&rt, alloc));
    assert!(rt; batches.len() == 1);
    let desk = desk_on(&rt, alloc, b"");
    let desk = served(&rt, alloc, desk, &batches[0], &Nothing, &Nothing);
    let history = main_entries(&desk);
    assert!(rt; history.len() == 1_000);
    for lane in 1..17 {
        assert!(rt; are_lines_of(lane, batches[0].requests(), history));
    }
    let mut other = desk_on(&rt, alloc, b"");
    are_due(&rt, &mut other, history);
    drop(other.close());
    drop(desk.close());
}
