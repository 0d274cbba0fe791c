//! Claims of which a part is agreed to.
use crate::acts::{agree, confirm, dispute, due_day, file, key, name, receive};
use crate::books::{Stage, are_registered, goes_through, make_parts};
use crate::limits::{is_done, opens, publication, publishes};
use claim_book::Book;
use claim_history::{Act, Call, Position, Reply, Status, Why, main_pool_name};
use limited_book::LimitedBooks;
use setoff_model::{Key, Kind, Name};
use std::alloc::Global;
use std::process::Abort;

// ---- one claim

// An amount above the filed one is refused, and last of all refusals.
fn no_more_than_all_is_agreed_to(rt: &impl Abort, alloc: Global, book: &mut Book) {
    let parts = make_parts(rt);
    let acts = vec![in alloc;
        file(parts.key, parts.a, 1_000, parts.due),
        agree(parts.key, parts.b, 1_001),
        agree(parts.key, parts.a, 1_001),
        agree(parts.key, parts.a, 1_000),
        agree(parts.key, parts.a, 1_001),
    ];
    let stages: [Stage; 5] = [
        (Reply::Done, Status::Filed, 1_000, 0),
        (Reply::Refused(Why::NotDebtor), Status::Filed, 1_000, 0),
        (Reply::Refused(Why::OverAmount), Status::Filed, 1_000, 0),
        (Reply::Done, Status::Confirmed, 1_000, 1_000),
        (
            Reply::Refused(Why::WrongState),
            Status::Confirmed,
            1_000,
            1_000,
        ),
    ];
    are_registered(rt, alloc, book, &parts);
    goes_through(rt, book, &parts, acts.expect(rt, "memory"), &stages);
}

#[test]
fn an_amount_above_the_filed_one(rt: HostRuntime) {
    let mut book = Book::new(rt.alloc());
    no_more_than_all_is_agreed_to(&rt, rt.alloc(), &mut book);
    drop(book);
}

// What was received counts against each part that is agreed to.
fn more_is_agreed_to(rt: &impl Abort, alloc: Global, book: &mut Book) {
    let parts = make_parts(rt);
    let acts = vec![in alloc;
        file(parts.key, parts.a, 1_000, parts.due),
        agree(parts.key, parts.a, 600),
        receive(parts.key, 200),
        dispute(parts.key, parts.a),
        agree(parts.key, parts.a, 900),
        receive(parts.key, 750),
        receive(parts.key, 51),
    ];
    let stages: [Stage; 7] = [
        (Reply::Done, Status::Filed, 1_000, 0),
        (Reply::Done, Status::Confirmed, 1_000, 600),
        (Reply::Done, Status::Confirmed, 800, 400),
        (Reply::Done, Status::Disputed, 800, 0),
        (Reply::Done, Status::Confirmed, 800, 700),
        (Reply::Done, Status::Confirmed, 50, 0),
        (Reply::Refused(Why::OverOpen), Status::Confirmed, 50, 0),
    ];
    are_registered(rt, alloc, book, &parts);
    goes_through(rt, book, &parts, acts.expect(rt, "memory"), &stages);
}

#[test]
fn agreed_to_more_after_a_dispute(rt: HostRuntime) {
    let mut book = Book::new(rt.alloc());
    more_is_agreed_to(&rt, rt.alloc(), &mut book);
    drop(book);
}

// How many claims a plain round would have now.
fn claims_of_next(rt: &impl Abort, alloc: Global, book: &Book) -> usize {
    assert!(rt; book.history().len() < 1_000_000);
    let cut = book.next_cut(alloc, Kind::Plain, due_day(rt));
    let cut = cut.expect(rt, "memory");
    let claims = cut.claims().len();
    drop(cut);
    claims
}

fn more_than_the_part_is_received(rt: &impl Abort, alloc: Global, book: &mut Book) {
    let parts = make_parts(rt);
    are_registered(rt, alloc, book, &parts);
    let acts = vec![in alloc;
        file(parts.key, parts.a, 1_000, parts.due),
        agree(parts.key, parts.a, 600),
    ];
    let stages: [Stage; 2] = [
        (Reply::Done, Status::Filed, 1_000, 0),
        (Reply::Done, Status::Confirmed, 1_000, 600),
    ];
    goes_through(rt, book, &parts, acts.expect(rt, "memory"), &stages);
    assert!(rt; claims_of_next(rt, alloc, book) == 1);
    let acts = vec![in alloc; receive(parts.key, 700)];
    let stages: [Stage; 1] = [(Reply::Done, Status::Confirmed, 300, 0)];
    goes_through(rt, book, &parts, acts.expect(rt, "memory"), &stages);
    assert!(rt; claims_of_next(rt, alloc, book) == 0);
}

#[test]
fn a_receipt_above_the_part(rt: HostRuntime) {
    let mut book = Book::new(rt.alloc());
    more_than_the_part_is_received(&rt, rt.alloc(), &mut book);
    drop(book);
}

// ---- rounds

// Two firms, each of which owes the other 10.00.
#[derive(Clone, Copy)]
struct Pair {
    a: Name,
    b: Name,
    owed_by_a: Key,
    owed_by_b: Key,
}

fn make_pair(rt: &impl Abort) -> Pair {
    let a = name(rt, b"A");
    let b = name(rt, b"B");
    Pair {
        a,
        b,
        owed_by_a: key(b, name(rt, b"I-1")),
        owed_by_b: key(a, name(rt, b"I-2")),
    }
}

fn all_are_done(rt: &impl Abort, books: &mut LimitedBooks, acts: Vec<Act>) {
    for act in acts {
        is_done(rt, books, act);
    }
}

// A agrees to 6.00 of what it owes, and B to all.
fn fill(rt: &impl Abort, alloc: Global, books: &mut LimitedBooks, pair: &Pair) {
    let due = due_day(rt);
    let acts = vec![in alloc;
        Act::Firm { firm: pair.a },
        Act::Firm { firm: pair.b },
        file(pair.owed_by_a, pair.a, 1_000, due),
        file(pair.owed_by_b, pair.b, 1_000, due),
        agree(pair.owed_by_a, pair.a, 600),
        confirm(pair.owed_by_b, pair.b),
    ];
    all_are_done(rt, books, acts.expect(rt, "memory"));
}

// The two claims stand in the cut of the open round with these amounts.
fn stand_with(rt: &impl Abort, books: &LimitedBooks, amounts: [u64; 2]) {
    let book = books.books().book(&main_pool_name());
    let claims = book.kept_cut().expect(rt, "a cut").claims();
    assert!(rt; claims.len() == 2);
    assert!(rt; [claims[0].amount, claims[1].amount] == amounts);
}

// A round discharges an amount of each claim, which these prices of A and B prove.
fn sets_off(
    rt: &impl Abort,
    alloc: Global,
    books: &mut LimitedBooks,
    round: u32,
    amount: u64,
    prices: [i64; 2],
) {
    let discharges = vec![in alloc; amount; 2].expect(rt, "memory");
    let prices = vec![in alloc; prices[0], prices[1]].expect(rt, "memory");
    let call = Call {
        caller: 1,
        pool: main_pool_name(),
        act: publication(round, discharges, prices),
    };
    publishes(rt, alloc, books, call, amount.saturating_mul(2));
}

// A is owed this on confirmed claims, and owes that.
fn owes(rt: &impl Abort, books: &LimitedBooks, firm: Name, receivable: u64, payable: u64) {
    let book = books.books().book(&main_pool_name());
    let due = Position {
        balance: 0,
        receivable,
        payable,
    };
    assert!(rt; book.position(firm) == Some(due));
}

// A first round settles the part, and a later one what A agrees to then.
fn rounds_settle_parts(rt: &impl Abort, alloc: Global, books: &mut LimitedBooks) {
    let pair = make_pair(rt);
    fill(rt, alloc, books, &pair);
    owes(rt, books, pair.a, 1_000, 600);
    opens(rt, alloc, books, 1, main_pool_name(), due_day(rt), 1);
    stand_with(rt, books, [600, 1_000]);
    sets_off(rt, alloc, books, 1, 600, [1, 0]);
    owes(rt, books, pair.a, 400, 0);
    let acts = vec![in alloc;
        dispute(pair.owed_by_a, pair.a),
        confirm(pair.owed_by_a, pair.a),
    ];
    all_are_done(rt, books, acts.expect(rt, "memory"));
    owes(rt, books, pair.a, 400, 400);
    opens(rt, alloc, books, 1, main_pool_name(), due_day(rt), 2);
    stand_with(rt, books, [400, 400]);
    sets_off(rt, alloc, books, 2, 400, [0, 0]);
    owes(rt, books, pair.a, 0, 0);
}

#[test]
fn rounds_of_a_part_and_of_the_rest(rt: HostRuntime) {
    let mut books = LimitedBooks::new(rt.alloc());
    rounds_settle_parts(&rt, rt.alloc(), &mut books);
    drop(books);
}
