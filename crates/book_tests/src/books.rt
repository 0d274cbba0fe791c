//! Books: limits of accounts, lives of claims, and sums.
use crate::acts::{
    confirm, dispute, draw, due_day, file, fund, is_answered, key, limit, name, receive, replies,
};
use claim_book::Book;
use claim_history::{AccountFact, Act, Day, Position, Reply, Status, Why};
use setoff_model::{Key, Name};
use std::alloc::Global;
use std::process::Abort;

// ---- accounts

// What the limits of an account let pass, and what the account is then.
fn limits_hold(rt: &impl Abort, alloc: Global, book: &mut Book) {
    let a = name(rt, b"A");
    let acts = vec![in alloc;
        Act::Firm { firm: a },
        limit(a, 5_000, 10_000),
        draw(a, 5_000),
        draw(a, 1),
        fund(a, 15_001),
        fund(a, 15_000),
        limit(a, 0, 9_999),
        Act::Position { firm: a },
        Act::Offer { firm: a, amount: 7 },
        Act::Firm { firm: a },
    ];
    let due = [
        Reply::Done,
        Reply::Done,
        Reply::Done,
        Reply::Refused(Why::BelowFloor),
        Reply::Refused(Why::OverCeiling),
        Reply::Done,
        Reply::Refused(Why::LimitsExcludeBalance),
        Reply::Position(Position {
            balance: 10_000,
            receivable: 0,
            payable: 0,
        }),
        Reply::Done,
        Reply::Refused(Why::FirmExists),
    ];
    replies(rt, book, 1, acts.expect(rt, "memory"), &due);
    account_is_as_set(rt, book);
}

fn account_is_as_set(rt: &impl Abort, book: &Book) {
    let firm = name(rt, b"A");
    let account = AccountFact {
        firm,
        balance: 10_000,
        credit: 5_000,
        ceiling: 10_000,
        offer: 7,
    };
    assert!(rt; book.account(firm) == Some(account));
    assert!(rt; book.account(name(rt, b"B")).is_none());
    assert!(rt; book.accounts().len() == 1 && book.history().len() == 10);
}

#[test]
fn limits_of_an_account(rt: HostRuntime) {
    let mut book = Book::new(rt.alloc());
    limits_hold(&rt, rt.alloc(), &mut book);
    drop(book);
}

// ---- claims

// What the acts below are made of: B's claim I-1 against A, due on 31 January 2025.
#[derive(Clone, Copy)]
pub(crate) struct Parts {
    pub(crate) a: Name,
    pub(crate) b: Name,
    pub(crate) key: Key,
    pub(crate) due: Day,
}

pub(crate) fn make_parts(rt: &impl Abort) -> Parts {
    let b = name(rt, b"B");
    Parts {
        a: name(rt, b"A"),
        b,
        key: key(b, name(rt, b"I-1")),
        due: due_day(rt),
    }
}

pub(crate) fn are_registered(rt: &impl Abort, alloc: Global, book: &mut Book, parts: &Parts) {
    let firms = vec![in alloc; Act::Firm { firm: parts.a }, Act::Firm { firm: parts.b }];
    replies(rt, book, 1, firms.expect(rt, "memory"), &[Reply::Done; 2]);
    assert!(rt; book.claim(&parts.key).is_none() && book.claims().len() == 0);
}

// What an act is answered, and the status of the claim, its open amount and its part then.
pub(crate) type Stage = (Reply, Status, u64, u64);

// The claim goes through these stages.
pub(crate) fn goes_through(
    rt: &impl Abort,
    book: &mut Book,
    parts: &Parts,
    acts: Vec<Act>,
    stages: &[Stage],
) {
    assert!(rt; acts.len() == stages.len());
    for (act, (due, status, left, part)) in acts.into_iter().zip(stages) {
        is_answered(rt, book, 1, act, *due);
        stands_at(rt, book, &parts.key, *status, (*left, *part));
    }
}

// The claim of a key has this status, this open amount and this part.
pub(crate) fn stands_at(
    rt: &impl Abort,
    book: &Book,
    key: &Key,
    status: Status,
    amounts: (u64, u64),
) {
    let claim = book.claim(key).expect(rt, "a claim");
    assert!(rt; claim.status == status && (claim.left, claim.part) == amounts);
}

fn is_received_in_part(rt: &impl Abort, alloc: Global, book: &mut Book, parts: &Parts) {
    let acts = vec![in alloc;
        file(parts.key, parts.a, 1_000, parts.due),
        confirm(parts.key, parts.a),
        receive(parts.key, 400),
        receive(parts.key, 601),
    ];
    let stages = [
        (Reply::Done, Status::Filed, 1_000, 0),
        (Reply::Done, Status::Confirmed, 1_000, 1_000),
        (Reply::Done, Status::Confirmed, 600, 600),
        (Reply::Refused(Why::OverOpen), Status::Confirmed, 600, 600),
    ];
    goes_through(rt, book, parts, acts.expect(rt, "memory"), &stages);
}

// B's claim of 6.00 on A is all that the two have.
fn is_owed(rt: &impl Abort, book: &Book, parts: &Parts) {
    for (firm, receivable, payable) in [(parts.b, 600, 0), (parts.a, 0, 600)] {
        let due = Position {
            balance: 0,
            receivable,
            payable,
        };
        assert!(rt; book.position(firm) == Some(due));
    }
}

fn is_withdrawn(rt: &impl Abort, alloc: Global, book: &mut Book, parts: &Parts) {
    let acts = vec![in alloc;
        dispute(parts.key, parts.a),
        Act::Withdraw { key: parts.key },
        confirm(parts.key, parts.a),
    ];
    let stages = [
        (Reply::Done, Status::Disputed, 600, 0),
        (Reply::Done, Status::Withdrawn, 600, 0),
        (Reply::Refused(Why::WrongState), Status::Withdrawn, 600, 0),
    ];
    goes_through(rt, book, parts, acts.expect(rt, "memory"), &stages);
    assert!(rt; book.claims().len() == 1 && book.history().len() == 9);
}

// The life of a claim, from its firms to its end.
fn claim_lives(rt: &impl Abort, alloc: Global, book: &mut Book) {
    let parts = make_parts(rt);
    are_registered(rt, alloc, book, &parts);
    is_received_in_part(rt, alloc, book, &parts);
    is_owed(rt, book, &parts);
    is_withdrawn(rt, alloc, book, &parts);
}

#[test]
fn life_of_a_claim(rt: HostRuntime) {
    let mut book = Book::new(rt.alloc());
    claim_lives(&rt, rt.alloc(), &mut book);
    drop(book);
}

// ---- a full register

// The name of A with the hexadecimal-like letters of a number.
pub(crate) fn numbered(rt: &impl Abort, number: u32) -> Name {
    let text = [
        b'A',
        b'A' + (number >> 12 & 15) as u8,
        b'A' + (number >> 8 & 15) as u8,
        b'A' + (number >> 4 & 15) as u8,
        b'A' + (number & 15) as u8,
    ];
    name(rt, &text)
}

fn registers(rt: &impl Abort, book: &mut Book, number: u32, due: Reply) {
    let firm = numbered(rt, number);
    is_answered(rt, book, 1, Act::Firm { firm }, due);
}

fn fill_with_firms(rt: &impl Abort, book: &mut Book) {
    for number in 0..16_384 {
        registers(rt, book, number, Reply::Done);
    }
    registers(rt, book, 16_384, Reply::Refused(Why::FirmsFull));
    registers(rt, book, 77, Reply::Refused(Why::FirmExists));
    assert!(rt; book.accounts().len() == 16_384);
}

// The invoice I-i of a number i.
fn invoice(rt: &impl Abort, alloc: Global, number: u32) -> Name {
    let text = format!(in alloc; "I-{number}").expect(rt, "memory");
    name(rt, text.as_bytes())
}

// What a claim of the next firm against a firm is made of.
fn ring_parts(rt: &impl Abort, alloc: Global, number: u32) -> Parts {
    let b = numbered(rt, (number % 16_384 + 1) % 16_384);
    Parts {
        a: numbered(rt, number % 16_384),
        b,
        key: key(b, invoice(rt, alloc, number)),
        due: due_day(rt),
    }
}

// Lets a firm owe another an amount, on a claim that is filed and confirmed.
fn owe(rt: &impl Abort, book: &mut Book, parts: &Parts, amount: u64) {
    let filed = file(parts.key, parts.a, amount, parts.due);
    is_answered(rt, book, 1, filed, Reply::Done);
    is_answered(rt, book, 1, confirm(parts.key, parts.a), Reply::Done);
}

// Lets firms owe the next ones in a ring, on each claim a cent more than its number.
fn owe_in_a_ring(rt: &impl Abort, alloc: Global, book: &mut Book) {
    for number in 0..100_000 {
        let parts = ring_parts(rt, alloc, number);
        owe(rt, book, &parts, u64::from(number) + 1);
    }
}

// What all firms together are owed, and what they owe.
fn owed_in_all(rt: &impl Abort, book: &Book) -> (u64, u64) {
    let mut receivable: u64 = 0;
    let mut payable: u64 = 0;
    for number in 0..16_384 {
        let position = book.position(numbered(rt, number)).expect(rt, "a position");
        receivable = receivable.saturating_add(position.receivable);
        payable = payable.saturating_add(position.payable);
    }
    (receivable, payable)
}

fn all_is_summed(rt: &impl Abort, alloc: Global, book: &mut Book) {
    fill_with_firms(rt, book);
    owe_in_a_ring(rt, alloc, book);
    assert!(rt; owed_in_all(rt, book) == (5_000_050_000, 5_000_050_000));
}

// A book that looked through its entries for each answer would not end within a test's time.
#[test]
fn sums_of_a_full_register(rt: HostRuntime) {
    let mut book = Book::new(rt.alloc());
    all_is_summed(&rt, rt.alloc(), &mut book);
    drop(book);
}
