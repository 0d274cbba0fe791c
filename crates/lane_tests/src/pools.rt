//! Pools of one desk: rounds that are open at the same time, and a batch whose lanes ask in eight pools.
use crate::acts::{MemoryDesk, desk_on, is_same, pool};
use crate::lanes::{Nothing, batches_of, served};
use crate::many::are_due;
use crate::rounds::{finished, frozen, published, two_seats};
use crate::steps::{Steps, UntilAllCome};
use claim_history::{Entry, Reply, main_pool_name};
use request_text::Request;
use setoff_model::Name;
use std::alloc::Global;
use std::process::Abort;

// ---- two rounds that are open at the same time

// Each of two seats closes round 1 of a pool. The round without claims is published first.
#[test]
fn two_pools_have_a_first_round_each(rt: HostRuntime) {
    let alloc = rt.alloc();
    let (main, east) = (main_pool_name(), pool(&rt, b"EAST"));
    let (shared, registrar, first, second) = two_seats(&rt, alloc);
    let mut first = first;
    let mut second = second;
    let one = frozen(&rt, &shared, &mut first, main, &[1_000, 700, 1_200]);
    let other = frozen(&rt, &shared, &mut second, east, &[]);
    assert!(rt; one.round() == 1 && other.round() == 1);
    assert!(rt; published(&rt, alloc, &shared, &mut second, east, other) == 0);
    assert!(rt; published(&rt, alloc, &shared, &mut first, main, one) == 2_100);
    let desk = finished(&rt, alloc, shared, registrar, first, second);
    assert!(rt; desk.rounds().len() == 2);
    drop(desk.close());
}

// The entries of a pool, of which the first is a Firm, are so many rounds without discharges, with numbers of their own.
fn has_rounds(rt: &impl Abort, desk: &MemoryDesk, pool: Name, rounds: u32) {
    let entries = desk.books().book(&pool).history();
    assert!(rt; entries.len() == 1 + 2 * rounds as usize);
    for past in 0..rounds {
        let at = 1 + 2 * past as usize;
        assert!(rt; entries[at].reply == Reply::Opened { round: past + 1 });
        assert!(rt; entries[at + 1].reply == Reply::Published { total: 0 });
    }
}

// The first rounds of the two lanes wait for each other, so lanes in turn fail this, and one number for both pools does.
#[test]
fn two_lanes_close_rounds_of_two_pools_at_the_same_time(rt: HostRuntime) {
    let alloc = rt.alloc();
    let lines: &[u8] = b"1 FIRM A
2 @EAST FIRM A
1 CLOSE PLAIN 2025-12-31
2 @EAST CLOSE PLAIN 2025-12-31
2 @EAST CLOSE FUNDED 2025-12-31
";
    let batches = batches_of(&rt, alloc, lines);
    assert!(rt; batches.len() == 1);
    let steps = Steps::new();
    let pause = UntilAllCome {
        lines: 2,
        steps: &steps,
    };
    let desk = desk_on(&rt, alloc, b"");
    let desk = served(&rt, alloc, desk, &batches[0], &Nothing, &pause);
    assert!(rt; !steps.was_late(&rt));
    has_rounds(&rt, &desk, main_pool_name(), 1);
    has_rounds(&rt, &desk, pool(&rt, b"EAST"), 2);
    assert!(rt; desk.rounds().len() == 3);
    drop(desk.close());
}

// ---- eight pools

const FIELDS: [&str; 8] = [
    "", "@P-1 ", "@P-2 ", "@P-3 ", "@P-4 ", "@P-5 ", "@P-6 ", "@P-7 ",
];

const ACTS: [&str; 4] = ["FIRM A", "DRAW A 2.00", "FUND A 3.00", "POSITION A"];

// Each of sixteen lanes asks four acts in each of eight pools: the lines of one act.
fn lines_of(rt: &impl Abort, alloc: Global, act: &str) -> Vec<u8> {
    let mut text = Vec::new(alloc);
    for number in 0..128 {
        let (lane, field) = (number / 8 + 1, FIELDS[number % 8]);
        let line = format!(in alloc; "{lane} {field}{act}\n").expect(rt, "memory");
        text.extend_from_slice(line.as_bytes()).expect(rt, "memory");
    }
    text
}

fn all_lines(rt: &impl Abort, alloc: Global) -> Vec<u8> {
    let mut text = Vec::new(alloc);
    for act in ACTS {
        let lines = lines_of(rt, alloc, act);
        text.extend_from_slice(&lines).expect(rt, "memory");
    }
    text
}

// Whether a member of the history is the call of a line.
fn is_line(line: &Request, pool: Name, entry: &Entry) -> bool {
    entry.caller == line.lane && pool == line.pool && is_same(&entry.act, &line.act)
}

// The place of the first line of a lane from this one on, or how many lines there are.
fn next_of(lines: &[Request], lane: u32, from: usize) -> usize {
    for at in from..lines.len() {
        if lines[at].lane == lane {
            return at;
        }
    }
    lines.len()
}

// The members of a lane are its lines, in order.
fn are_lines_of(rt: &impl Abort, desk: &MemoryDesk, lane: u32, lines: &[Request]) {
    let books = desk.books();
    let mut from = 0usize;
    for place in 0..books.len() {
        let (pool, entry) = books.member(place);
        if entry.caller == lane {
            let at = next_of(lines, lane, from);
            assert!(rt; at < lines.len() && is_line(&lines[at], pool, entry));
            from = at.saturating_add(1);
        }
    }
    assert!(rt; next_of(lines, lane, from) == lines.len());
}

// In each pool the replies are those that are due from the entries there alone.
#[test]
fn lanes_ask_in_eight_pools(rt: HostRuntime) {
    let alloc = rt.alloc();
    let batches = batches_of(&rt, alloc, &all_lines(&rt, alloc));
    assert!(rt; batches.len() == 1);
    let desk = desk_on(&rt, alloc, b"");
    let desk = served(&rt, alloc, desk, &batches[0], &Nothing, &Nothing);
    assert!(rt; desk.books().len() == 512);
    for lane in 1..17 {
        are_lines_of(&rt, &desk, lane, batches[0].requests());
    }
    let names: [&[u8]; 8] = [
        b"MAIN", b"P-1", b"P-2", b"P-3", b"P-4", b"P-5", b"P-6", b"P-7",
    ];
    for name in names {
        let entries = desk.books().book(&pool(&rt, name)).history();
        assert!(rt; entries.len() == 64);
        assert!(rt; are_due(entries));
    }
    drop(desk.close());
}

// ---- many pools

// So many lines, each of which registers a firm in a pool of its own.
fn pools_of_one_firm(rt: &impl Abort, alloc: Global, count: u32) -> Vec<u8> {
    let mut text = Vec::new(alloc);
    for number in 0..count {
        let line = format!(in alloc; "1 @P-{number} FIRM A\n").expect(rt, "memory");
        text.extend_from_slice(line.as_bytes()).expect(rt, "memory");
    }
    text
}

#[test]
fn six_thousand_pools(rt: HostRuntime) {
    let alloc = rt.alloc();
    let batches = batches_of(&rt, alloc, &pools_of_one_firm(&rt, alloc, 6_000));
    assert!(rt; batches.len() == 1);
    let desk = desk_on(&rt, alloc, b"");
    let desk = served(&rt, alloc, desk, &batches[0], &Nothing, &Nothing);
    assert!(rt; desk.books().len() == 6_000);
    drop(desk.close());
}
