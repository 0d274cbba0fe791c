//! The books of several pools.
ghost use Rattle.std.specs.Prelude.{◌≡◌, ◌<◌, ◌≤◌, true, false};
ghost use Rattle.setoff_model.specs.declared.limits.TheConstants.{MOST_ROUNDS};
ghost use Rattle.claim_history.specs.Acts.{is_valid, is_publication};
ghost use Rattle.claim_history.specs.Pools.{state_in};
ghost use Rattle.claim_book.specs.Book.{room_for};
ghost use Rattle.claim_book.specs.Pools.{room_in};

use crate::acts::name;
use crate::books::numbered;
use claim_book::Books;
use claim_history::{Act, Entry, Position, Reply, Why, main_pool_name};
use setoff_model::Name;
use std::process::Abort;

// Makes the room that an act needs in a pool. The test ends where it is not valid or a publication, or where many rounds were
// opened there.
fn make_room(rt: &impl Abort, books: &mut Books, pool: Name, act: &Act)
    ensures valid { is_valid act.now ≡ true }
    ensures apart { is_publication act.now ≡ false }
    ensures few { (state_in books.new.members pool).openings < MOST_ROUNDS }
    ensures room { room_for (state_in books.new.members pool) act.now ≤ room_in pool books.new.rooms }
{
    assert!(rt; act.valid() && !act.publishes());
    assert!(rt; books.book(&pool).history().len() < 1_000_000);
    books.reserve(pool, act).expect(rt, "memory");
}

// The books give caller 1 this reply to an act of a pool that opens no round, and the entry is put at their end.
#[tactic(auto, using(crate::proofs::Members::due_follows))]
fn is_answered(rt: &impl Abort, books: &mut Books, pool: Name, act: Act, due: Reply) {
    make_room(rt, books, pool, &act);
    let reply = books.answer(1, pool, &act);
    assert!(rt; reply == due && !matches!(reply, Reply::Opened { .. }));
    books.apply(
        pool,
        Entry {
            caller: 1,
            act,
            reply,
        },
    );
}

// The firm A of two pools is two firms.
fn firms_are_of_their_pools(rt: &impl Abort, books: &mut Books, east: Name) {
    let firm = name(rt, b"A");
    let nothing = Reply::Position(Position {
        balance: 0,
        receivable: 0,
        payable: 0,
    });
    is_answered(rt, books, main_pool_name(), Act::Firm { firm }, Reply::Done);
    let unknown = Reply::Refused(Why::UnknownFirm);
    is_answered(rt, books, east, Act::Position { firm }, unknown);
    is_answered(rt, books, east, Act::Firm { firm }, Reply::Done);
    is_answered(rt, books, east, Act::Position { firm }, nothing);
}

// The members stand in the order in which they came, and each pool has its own.
fn members_are_in_order(rt: &impl Abort, books: &Books, east: Name) {
    assert!(rt; books.len() == 4);
    let (pool, first) = books.member(0);
    assert!(rt; pool == main_pool_name() && first.reply == Reply::Done);
    let (pool, last) = books.member(3);
    assert!(rt; pool == east && matches!(last.act, Act::Position { .. }));
    let own = books.pool(east).expect(rt, "a book");
    assert!(rt; own.history().len() == 3 && own.accounts().len() == 1);
}

// A pool has a book exactly where it has an entry, whether or not there is room for one.
fn only_pools_with_entries_have_books(rt: &impl Abort, books: &mut Books) {
    let west = name(rt, b"WEST");
    assert!(rt; books.pool(west).is_none());
    make_room(rt, books, west, &Act::Abandon);
    assert!(rt; books.pool(west).is_none() && books.book(&west).history().is_empty());
    let none = Reply::Refused(Why::NoRound);
    is_answered(rt, books, west, Act::Abandon, none);
    assert!(rt; books.pool(west).is_some() && books.len() == 5);
}

#[test]
fn a_firm_of_two_pools(rt: HostRuntime) {
    let mut books = Books::new(rt.alloc());
    let east = name(&rt, b"EAST");
    firms_are_of_their_pools(&rt, &mut books, east);
    members_are_in_order(&rt, &books, east);
    only_pools_with_entries_have_books(&rt, &mut books);
    drop(books);
}

fn registers_in(rt: &impl Abort, books: &mut Books, number: u32) {
    let firm = name(rt, b"A");
    let pool = numbered(rt, number);
    is_answered(rt, books, pool, Act::Firm { firm }, Reply::Done);
}

// Each pool has its firm, and no other.
fn has_one_firm(rt: &impl Abort, books: &Books, number: u32) {
    let book = books.pool(numbered(rt, number)).expect(rt, "a book");
    assert!(rt; book.accounts().len() == 1 && book.history().len() == 1);
}

#[test]
fn a_thousand_pools_of_one_firm(rt: HostRuntime) {
    let mut books = Books::new(rt.alloc());
    for number in 0..1_000 {
        registers_in(&rt, &mut books, number);
    }
    for number in 0..1_000 {
        has_one_firm(&rt, &books, number);
    }
    assert!(&rt; books.len() == 1_000 && books.pool(numbered(&rt, 1_000)).is_none());
    drop(books);
}
