//! Rounds of two pools side by side, within the limits of both.
ghost use Rattle.std.specs.Prelude.{◌≡◌, ◌≤◌, true};
ghost use Rattle.claim_history.specs.Acts.{is_valid};
ghost use Rattle.claim_history.specs.Pools.{state_in};
ghost use Rattle.claim_book.specs.Book.{room_for};
ghost use Rattle.claim_book.specs.Pools.{room_in};

use crate::acts::name;
use crate::rounds::{circle_acts, make_circle};
use claim_history::{Act, Call, Day, Entry, Reply, main_pool_name, use_is_counted};
use limited_book::LimitedBooks;
use setoff_model::{Kind, Name, Outcome};
use std::alloc::Global;
use std::process::Abort;

// Makes the room that a call needs. The test ends where its act is not valid.
fn make_room(rt: &impl Abort, books: &mut LimitedBooks, call: &Call)
    ensures valid { is_valid call.now.act ≡ true }
    ensures room { room_for (state_in books.new.members call.now.pool) call.now.act ≤ room_in call.now.pool books.new.rooms }
{
    assert!(rt; call.act.valid());
    books.reserve(call).expect(rt, "memory");
}

// Puts an act of caller 1 in the pool MAIN at the end, which is done.
#[tactic(auto, using(crate::proofs::Members::due_follows))]
pub(crate) fn is_done(rt: &impl Abort, books: &mut LimitedBooks, act: Act) {
    let call = Call {
        caller: 1,
        pool: main_pool_name(),
        act,
    };
    assert!(rt; !call.act.publishes());
    make_room(rt, books, &call);
    use_is_counted();
    let reply = books.answer(&call);
    assert!(rt; reply == Reply::Done && !matches!(reply, Reply::Opened { .. }));
    let Ok(()) = books.fits(&call, reply) else {
        panic!(rt; "it does not fit");
    };
    let Call { caller, pool, act } = call;
    books.apply(pool, Entry { caller, act, reply });
}

// Lets a caller open the round of a number in a pool.
#[tactic(auto, using(crate::proofs::Members::due_follows))]
pub(crate) fn opens(
    rt: &impl Abort,
    alloc: Global,
    books: &mut LimitedBooks,
    caller: u32,
    pool: Name,
    day: Day,
    round: u32,
) {
    let act = Act::Close {
        kind: Kind::Plain,
        horizon: day,
    };
    let call = Call { caller, pool, act };
    make_room(rt, books, &call);
    use_is_counted();
    let reply = books.answer(&call);
    assert!(rt; matches!(reply, Reply::Opened { .. }) && reply == Reply::Opened { round });
    let cut = books.next_cut(alloc, &call).expect(rt, "memory");
    let Ok(()) = books.fits_opening(&call, &cut) else {
        panic!(rt; "it does not fit");
    };
    let Call { caller, pool, act } = call;
    books.apply_close(pool, Entry { caller, act, reply }, cut);
}

// Lets a call publish its round with this total.
#[tactic(auto, using(crate::proofs::Members::due_follows))]
pub(crate) fn publishes(
    rt: &impl Abort,
    alloc: Global,
    books: &mut LimitedBooks,
    call: Call,
    total: u64,
) {
    assert!(rt; call.act.publishes());
    make_room(rt, books, &call);
    let reply = books.publication_reply(alloc, &call).expect(rt, "memory");
    assert!(rt; matches!(reply, Reply::Published { .. }) && reply == Reply::Published { total });
    let Call { caller, pool, act } = call;
    assert!(rt;
        books
            .apply_publish(pool, Entry { caller, act, reply })
            .is_some()
    );
}

// The publication of a round with these discharges and prices.
pub(crate) fn publication(round: u32, discharges: Vec<u64>, prices: Vec<i64>) -> Act {
    Act::Publish {
        round,
        outcome: Outcome::new(discharges, prices),
    }
}

fn fill(rt: &impl Abort, alloc: Global, books: &mut LimitedBooks) -> Day {
    let circle = make_circle(rt);
    for act in circle_acts(rt, alloc, &circle) {
        is_done(rt, books, act);
    }
    circle.due
}

fn main_publishes(rt: &impl Abort, alloc: Global, books: &mut LimitedBooks) {
    let discharges = vec![in alloc; 700u64; 3].expect(rt, "memory");
    let prices = vec![in alloc; 1i64, 2, 0].expect(rt, "memory");
    let call = Call {
        caller: 1,
        pool: main_pool_name(),
        act: publication(1, discharges, prices),
    };
    publishes(rt, alloc, books, call, 2_100);
}

fn other_publishes(rt: &impl Abort, alloc: Global, books: &mut LimitedBooks, pool: Name) {
    let call = Call {
        caller: 2,
        pool,
        act: publication(1, Vec::new(alloc), Vec::new(alloc)),
    };
    publishes(rt, alloc, books, call, 0);
}

// Each of two pools opens its round 1, and they are published in the other order.
fn rounds_stand_side_by_side(rt: &impl Abort, alloc: Global, books: &mut LimitedBooks) {
    let east = name(rt, b"EAST");
    let day = fill(rt, alloc, books);
    opens(rt, alloc, books, 1, main_pool_name(), day, 1);
    opens(rt, alloc, books, 2, east, day, 1);
    assert!(rt; books.open_rounds() == 2);
    other_publishes(rt, alloc, books, east);
    assert!(rt; books.open_rounds() == 1 && books.books().book(&east).open_round().is_none());
    main_publishes(rt, alloc, books);
    assert!(rt; books.open_rounds() == 0 && books.books().len() == 13);
}

#[test]
fn rounds_of_two_pools(rt: HostRuntime) {
    let mut books = LimitedBooks::new(rt.alloc());
    rounds_stand_side_by_side(&rt, rt.alloc(), &mut books);
    drop(books);
}
