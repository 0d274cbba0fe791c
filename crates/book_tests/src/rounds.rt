//! Books with an open round.
use crate::acts::{
    confirm, dispute, due_day, file, fund, is_answered, key, make_room, name, receive, replies,
};
use crate::books::stands_at;
use claim_book::Book;
use claim_history::{Act, Day, Entry, Reply, Status, Why};
use setoff_model::{Key, Kind, Name};
use std::alloc::Global;
use std::process::Abort;

// Three firms, of which each owes the next on its invoice I-1, due on 31 January 2025.
#[derive(Clone, Copy)]
pub(crate) struct Circle {
    a: Name,
    b: Name,
    c: Name,
    owed_by_a: Key,
    owed_by_b: Key,
    owed_by_c: Key,
    pub(crate) due: Day,
}

pub(crate) fn make_circle(rt: &impl Abort) -> Circle {
    let a = name(rt, b"A");
    let b = name(rt, b"B");
    let c = name(rt, b"C");
    let invoice = name(rt, b"I-1");
    Circle {
        a,
        b,
        c,
        owed_by_a: key(b, invoice),
        owed_by_b: key(c, invoice),
        owed_by_c: key(a, invoice),
        due: due_day(rt),
    }
}

// The acts by which A owes B 10.00, B owes C 7.00 and C owes A 12.00.
pub(crate) fn circle_acts(rt: &impl Abort, alloc: Global, circle: &Circle) -> Vec<Act> {
    let Circle { a, b, c, due, .. } = *circle;
    let acts = vec![in alloc;
        Act::Firm { firm: a },
        Act::Firm { firm: b },
        Act::Firm { firm: c },
        file(circle.owed_by_a, a, 1_000, due),
        file(circle.owed_by_b, b, 700, due),
        file(circle.owed_by_c, c, 1_200, due),
        confirm(circle.owed_by_a, a),
        confirm(circle.owed_by_b, b),
        confirm(circle.owed_by_c, c),
    ];
    acts.expect(rt, "memory")
}

fn fill(rt: &impl Abort, alloc: Global, book: &mut Book, circle: &Circle) {
    let acts = circle_acts(rt, alloc, circle);
    replies(rt, book, 1, acts, &[Reply::Done; 9]);
}

// Opens round 1 of caller 1.
fn open(rt: &impl Abort, alloc: Global, book: &mut Book, kind: Kind, horizon: Day) {
    let act = Act::Close { kind, horizon };
    make_room(rt, book, &act);
    let reply = book.answer(1, &act);
    assert!(rt; matches!(reply, Reply::Opened { round: 1 }));
    let cut = book.next_cut(alloc, kind, horizon).expect(rt, "memory");
    book.apply_close(
        Entry {
            caller: 1,
            act,
            reply,
        },
        cut,
    );
}

// Lets caller 1 open round 1 over a circle, with the day on which the claims are due as its horizon.
fn open_circle(rt: &impl Abort, alloc: Global, book: &mut Book, kind: Kind) -> Circle {
    let circle = make_circle(rt);
    fill(rt, alloc, book, &circle);
    open(rt, alloc, book, kind, circle.due);
    circle
}

fn others_are_frozen(rt: &impl Abort, alloc: Global, book: &mut Book, circle: &Circle) {
    let key = circle.owed_by_a;
    let acts = vec![in alloc;
        dispute(key, circle.a),
        receive(key, 1),
        Act::Withdraw { key },
    ];
    let frozen = Reply::Refused(Why::Frozen { round: 1 });
    replies(rt, book, 2, acts.expect(rt, "memory"), &[frozen; 3]);
    assert!(rt; book.open_round() == Some(1) && book.owner() == Some(1));
}

fn bureau_abandons(rt: &impl Abort, book: &mut Book, circle: &Circle) {
    let not_owner = Reply::Refused(Why::NotOwner { round: 1 });
    is_answered(rt, book, 2, Act::Abandon, not_owner);
    is_answered(rt, book, 0, Act::Abandon, Reply::Abandoned { round: 1 });
    assert!(rt; book.open_round().is_none() && book.owner().is_none());
    is_answered(
        rt,
        book,
        2,
        dispute(circle.owed_by_a, circle.a),
        Reply::Done,
    );
    is_answered(rt, book, 1, Act::Abandon, Reply::Refused(Why::NoRound));
}

fn claims_are_held(rt: &impl Abort, alloc: Global, book: &mut Book) {
    let circle = open_circle(rt, alloc, book, Kind::Plain);
    others_are_frozen(rt, alloc, book, &circle);
    bureau_abandons(rt, book, &circle);
}

#[test]
fn others_while_a_round_is_open(rt: HostRuntime) {
    let mut book = Book::new(rt.alloc());
    claims_are_held(&rt, rt.alloc(), &mut book);
    drop(book);
}

fn new_claim_goes_on(rt: &impl Abort, alloc: Global, book: &mut Book) {
    let circle = open_circle(rt, alloc, book, Kind::Plain);
    let key = key(circle.b, name(rt, b"I-4"));
    let acts = vec![in alloc;
        file(key, circle.a, 500, circle.due),
        confirm(key, circle.a),
        receive(key, 200),
        dispute(key, circle.a),
    ];
    replies(rt, book, 2, acts.expect(rt, "memory"), &[Reply::Done; 4]);
    stands_at(rt, book, &key, Status::Disputed, (300, 0));
}

#[test]
fn claims_outside_the_cut_go_on(rt: HostRuntime) {
    let mut book = Book::new(rt.alloc());
    new_claim_goes_on(&rt, rt.alloc(), &mut book);
    drop(book);
}

// A party and another firm fund in a round of this kind.
fn two_fund(rt: &impl Abort, alloc: Global, book: &mut Book, kind: Kind) {
    let circle = open_circle(rt, alloc, book, kind);
    let other = name(rt, b"D");
    let acts = vec![in alloc;
        fund(circle.a, 1),
        Act::Firm { firm: other },
        fund(other, 1),
    ];
    let of_a_party = match kind {
        Kind::Plain => Reply::Done,
        Kind::Funded => Reply::Refused(Why::Frozen { round: 1 }),
    };
    let due = [of_a_party, Reply::Done, Reply::Done];
    replies(rt, book, 2, acts.expect(rt, "memory"), &due);
}

#[test]
fn funds_are_held_in_a_funded_round_alone(rt: HostRuntime) {
    for kind in [Kind::Plain, Kind::Funded] {
        let mut book = Book::new(rt.alloc());
        two_fund(&rt, rt.alloc(), &mut book, kind);
        drop(book);
    }
}

fn keeps_the_cut(rt: &impl Abort, book: &Book) {
    let cut = book.kept_cut().expect(rt, "a cut");
    let claims = cut.claims();
    assert!(rt; cut.round() == 1 && claims.len() == 3);
    assert!(rt; claims[0].amount == 1_000 && claims[1].amount == 700 && claims[2].amount == 1_200);
}

fn only_the_owner_continues(rt: &impl Abort, alloc: Global, book: &mut Book) {
    let horizon = open_circle(rt, alloc, book, Kind::Plain).due;
    let is_open = Reply::Refused(Why::RoundOpen { round: 1 });
    let cases = [
        (1, Kind::Funded, is_open),
        (2, Kind::Plain, is_open),
        (1, Kind::Plain, Reply::Continued { round: 1 }),
    ];
    for (caller, kind, due) in cases {
        is_answered(rt, book, caller, Act::Close { kind, horizon }, due);
    }
    keeps_the_cut(rt, book);
}

#[test]
fn a_close_continues_its_own_round_alone(rt: HostRuntime) {
    let mut book = Book::new(rt.alloc());
    only_the_owner_continues(&rt, rt.alloc(), &mut book);
    drop(book);
}
