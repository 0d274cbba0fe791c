//! Sixteen seats that ask side by side.
ghost use Rattle.std.specs.Prelude.{◌≡◌, All, length};
ghost use Rattle.turn_lock.specs.Seats.{lock_of, registry, made};
ghost use Rattle.live_intake.specs.shared_bureau.specs.Adding.{IsReady};

use crate::acts::{MemoryDesk, ask, desk_on, firm, is_same, main_entries};
use claim_history::{Act, Entry, Position, Reply, Why, accepted};
use disk_model::MemoryDisk;
use live_intake::Shared;
use setoff_model::Name;
use std::alloc::{AllocError, Global};
use std::process::Abort;
use std::sync::Wait;
use std::thread::{self, Threads};
use turn_lock::{Registrar, Seat};

// ---- acts of one firm, by sixteen seats

// Registers the firm, draws on it, funds it and asks for its position, fifty times.
fn asks<R: Wait + Abort>(
    rt: &R,
    shared: &Shared<MemoryDisk>,
    seat: &mut Seat<MemoryDesk>,
    firm: Name,
)
    requires { IsReady shared.now.turn seat.old }
    ensures { IsReady shared.now.turn seat.new }
{
    for _ in 0..50 {
        asks_once(rt, shared, seat, firm);
    }
}

fn asks_once<R: Wait + Abort>(
    rt: &R,
    shared: &Shared<MemoryDisk>,
    seat: &mut Seat<MemoryDesk>,
    firm: Name,
)
    requires { IsReady shared.now.turn seat.old }
    ensures { IsReady shared.now.turn seat.new }
{
    ask(rt, shared, seat, Act::Firm { firm });
    ask(rt, shared, seat, Act::Draw { firm, amount: 200 });
    ask(rt, shared, seat, Act::Fund { firm, amount: 300 });
    ask(rt, shared, seat, Act::Position { firm });
}

// Each seat asks, in a thread of its own.
fn all_ask<R: Threads + Wait + Abort + Sync>(
    rt: &R,
    shared: &Shared<MemoryDisk>,
    seats: &mut [Seat<MemoryDesk>],
    firm: Name,
)
    requires { All (IsReady shared.now.turn) seats.old }
    ensures ready { All (IsReady shared.now.turn) seats.new }
    ensures length { length seats.new ≡ length seats.old }
{
    let threads = seats.len();
    if threads == 0 {
        return;
    }
    let each = |_at: usize, seat: &mut Seat<MemoryDesk>|
        requires { IsReady shared.now.turn seat.now }
        ensures { IsReady shared.entry.now.turn seat.exit.now }
    { asks(rt, shared, seat, firm) };
    thread::for_each_mut(rt, seats, threads, &each);
}

// A shared desk on an empty disk, with sixteen seats.
fn sixteen_seats(
    rt: &impl Abort,
    alloc: Global,
) -> (
    Shared<MemoryDisk>,
    Registrar<MemoryDesk>,
    Vec<Seat<MemoryDesk>>,
)
    ensures made { (registry result.1 ≡ lock_of result.0.turn) × (made result.1 ≡ 16) }
    ensures seats { (length result.2.items ≡ 16) × All (IsReady result.0.turn) result.2.items }
{
    match Shared::open(alloc, desk_on(rt, alloc, b""), 16) {
        Ok((shared, registrar, seats)) => (shared, registrar, seats),
        Err(_) => panic!(rt; "memory"),
    }
}

// ---- the replies that are due, found from the entries before

// The balance of the one firm after these entries, in cents.
fn balance_after(entries: &[Entry]) -> i64 {
    let mut balance = 0i64;
    for entry in entries {
        balance = match (&entry.act, entry.reply) {
            (Act::Fund { .. }, Reply::Done) => balance.saturating_add(300),
            (Act::Draw { .. }, Reply::Done) => balance.saturating_sub(200),
            _ => balance,
        };
    }
    balance
}

// The reply that is due to an act of the one firm after these entries.
fn due(before: &[Entry], act: &Act) -> Reply {
    let registered = before
        .iter()
        .any(|entry| matches!(&entry.act, Act::Firm { .. }));
    let balance = balance_after(before);
    match act {
        Act::Firm { .. } if registered => Reply::Refused(Why::FirmExists),
        Act::Draw { .. } if balance < 200 => Reply::Refused(Why::BelowFloor),
        Act::Position { .. } => Reply::Position(Position {
            balance,
            receivable: 0,
            payable: 0,
        }),
        _ => Reply::Done,
    }
}

/// Whether each entry has the reply that is due after those before it.
pub fn are_due(history: &[Entry]) -> bool {
    (0..history.len()).all(|at| history[at].reply == due(&history[..at], &history[at].act))
}

// The place of an act among those that a seat asks in turn.
fn place_of(act: &Act) -> usize {
    match act {
        Act::Firm { .. } => 0,
        Act::Draw { .. } => 1,
        Act::Fund { .. } => 2,
        _ => 3,
    }
}

// Whether the entries of a caller are the two hundred that it asked, in order.
fn has_all(history: &[Entry], caller: u32) -> bool {
    let mut asked = 0usize;
    for entry in history {
        if entry.caller == caller {
            if place_of(&entry.act) != asked % 4 {
                return false;
            }
            asked = asked.saturating_add(1);
        }
    }
    asked == 200
}

// ---- the journal

// The accepted entries, in order: those that the journal keeps.
fn accepted_of(alloc: Global, history: &[Entry]) -> Result<Vec<Entry>, AllocError> {
    let mut kept = Vec::new(alloc);
    for entry in history {
        if accepted(entry) {
            kept.push(entry.clone()?)?;
        }
    }
    Ok(kept)
}

// Whether two lists have the same entries, in the same order.
fn are_same(ones: &[Entry], others: &[Entry]) -> bool {
    ones.len() == others.len()
        && ones.iter().zip(others).all(|(one, other)| {
            one.caller == other.caller && is_same(&one.act, &other.act) && one.reply == other.reply
        })
}

// Whether the journal of these bytes replays to these entries.
fn replays_to(rt: &impl Abort, alloc: Global, bytes: &[u8], kept: &[Entry]) -> bool {
    let desk = desk_on(rt, alloc, bytes);
    let same = are_same(main_entries(&desk), kept);
    drop(desk.close());
    same
}

#[test]
fn sixteen_seats_have_one_history(rt: HostRuntime) {
    let alloc = rt.alloc();
    let (shared, registrar, mut seats) = sixteen_seats(&rt, alloc);
    all_ask(&rt, &shared, seats.as_mut_slice(), firm(&rt, b'A'));
    let desk = shared.finish(registrar, seats);
    let history = main_entries(&desk);
    assert!(rt; history.len() == 3_200);
    assert!(rt; are_due(history));
    assert!(rt; (1..17).all(|caller| has_all(history, caller)));
    let kept = accepted_of(alloc, history).ok().expect(&rt, "memory");
    let disk = desk.close();
    assert!(rt; replays_to(&rt, alloc, disk.bytes(), kept.as_slice()));
}
