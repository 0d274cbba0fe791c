//! Acts, and how a seat of a shared desk on a disk in memory asks them.
ghost use Rattle.live_intake.specs.shared_bureau.specs.Adding.{IsReady};

use claim_history::{Act, Entry, Reply, main_pool_name};
use disk_model::MemoryDisk;
use live_intake::{Desk, Shared};
use setoff_model::Name;
use std::alloc::Global;
use std::process::Abort;
use std::sync::Wait;
use turn_lock::Seat;

pub type MemoryDesk = Desk<MemoryDisk>;

/// A desk on a disk in memory with these bytes.
pub fn desk_on(rt: &impl Abort, alloc: Global, bytes: &[u8]) -> MemoryDesk {
    let bytes = Vec::from_slice(alloc, bytes).ok().expect(rt, "memory");
    let disk = MemoryDisk::new(alloc, bytes, Vec::new(alloc));
    Desk::open(alloc, disk).ok().expect(rt, "a journal")
}

/// The firm whose name is this letter.
pub fn firm(rt: &impl Abort, letter: u8) -> Name {
    Name::of(&[letter]).expect(rt, "a name")
}

/// The pool of this name.
pub fn pool(rt: &impl Abort, text: &[u8]) -> Name {
    Name::of(text).expect(rt, "a name")
}

/// The entries of the pool MAIN, in order.
pub fn main_entries(desk: &MemoryDesk) -> &[Entry] {
    desk.books().book(&main_pool_name()).history()
}

/// The reply to an act in the pool MAIN that is no Close and no publication.
pub fn ask<R: Wait + Abort>(
    rt: &R,
    shared: &Shared<MemoryDisk>,
    seat: &mut Seat<MemoryDesk>,
    act: Act,
) -> Reply
    requires { IsReady shared.now.turn seat.old }
    ensures { IsReady shared.now.turn seat.new }
{
    assert!(rt; act.valid() && !act.publishes() && !matches!(act, Act::Close { .. }));
    let reply = shared.submit(rt, seat, main_pool_name(), act).ok();
    reply.expect(rt, "a reply")
}

/// Whether two acts are the same Firm, Position, Fund or Draw.
pub fn is_same(one: &Act, other: &Act) -> bool {
    match (one, other) {
        (Act::Firm { firm: one }, Act::Firm { firm: other }) => one == other,
        (Act::Position { firm: one }, Act::Position { firm: other }) => one == other,
        (
            Act::Fund { firm: one, amount },
            Act::Fund {
                firm: other,
                amount: same,
            },
        )
        | (
            Act::Draw { firm: one, amount },
            Act::Draw {
                firm: other,
                amount: same,
            },
        ) => one == other && amount == same,
        _ => false,
    }
}
