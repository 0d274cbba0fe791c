//! The acts of a triangle of claims, and how a book takes them.
ghost use Rattle.std.specs.Prelude.{◌≡◌, ◌<◌, ◌≤◌, true, false};
ghost use Rattle.setoff_model.specs.declared.limits.TheConstants.{MOST_ROUNDS};
ghost use Rattle.claim_history.specs.Acts.{is_valid, is_publication};
ghost use Rattle.claim_history.specs.States.{state_of};
ghost use Rattle.limited_book.specs.claim_book.specs.Book.{room_for};
ghost use mathlib.Core.List.{IsPrefix};

use claim_history::{Act, Day, Entry, Reply};
use limited_book::{Book, publication_reply};
use read_copies::Row;
use setoff_model::{Key, Kind, Name, Outcome};
use std::alloc::Global;
use std::process::Abort;

/// The firm whose name is this letter.
pub fn firm(rt: &impl Abort, letter: u8) -> Name {
    Name::of(&[letter]).expect(rt, "a name")
}

fn day(rt: &impl Abort, number: u32) -> Day {
    Day::of_number(number).expect(rt, "a day")
}

fn key_of(rt: &impl Abort, creditor: u8, invoice: &[u8]) -> Key {
    Key {
        creditor: firm(rt, creditor),
        invoice: Name::of(invoice).expect(rt, "a name"),
    }
}

fn file(rt: &impl Abort, creditor: u8, invoice: &[u8], debtor: u8, amount: u64) -> Act {
    Act::File {
        key: key_of(rt, creditor, invoice),
        debtor: firm(rt, debtor),
        amount,
        due: day(rt, 20_119),
    }
}

fn confirm(rt: &impl Abort, creditor: u8, invoice: &[u8], debtor: u8) -> Act {
    Act::Confirm {
        key: key_of(rt, creditor, invoice),
        debtor: firm(rt, debtor),
        agreed: None,
    }
}

/// A owes B 10.00, B owes C 7.00, and C owes A 12.00. Each claim is confirmed, and the round that they make is published.
pub fn triangle(rt: &impl Abort, alloc: Global) -> Vec<Act> {
    let discharges = vec![in alloc; 700u64; 3].expect(rt, "memory");
    let prices = vec![in alloc; 1i64, 2, 0].expect(rt, "memory");
    let acts = vec![in alloc;
        Act::Firm {
            firm: firm(rt, b'A')
        },
        Act::Firm {
            firm: firm(rt, b'B')
        },
        Act::Firm {
            firm: firm(rt, b'C')
        },
        file(rt, b'B', b"I-1", b'A', 1_000),
        file(rt, b'C', b"I-2", b'B', 700),
        file(rt, b'A', b"I-3", b'C', 1_200),
        confirm(rt, b'B', b"I-1", b'A'),
        confirm(rt, b'C', b"I-2", b'B'),
        confirm(rt, b'A', b"I-3", b'C'),
        Act::Close {
            kind: Kind::Plain,
            horizon: day(rt, 20_453)
        },
        Act::Publish {
            round: 1,
            outcome: Outcome::new(discharges, prices)
        },
    ];
    acts.expect(rt, "memory")
}

// Makes the room that an act needs. The test ends where it is not valid or a publication, or where many rounds were opened.
fn make_room(rt: &impl Abort, book: &mut Book, act: &Act)
    ensures history { book.new.history ≡ book.old.history }

    // The act is valid and no publication, and there is room for it.
    ensures valid { is_valid act.now ≡ true }
    ensures apart { is_publication act.now ≡ false }
    ensures few { (state_of book.new.history).openings < MOST_ROUNDS }
    ensures room { room_for (state_of book.new.history) act.now ≤ book.new.room }
{
    assert!(rt; act.valid() && !act.publishes());
    assert!(rt; book.history().len() < 1_000_000);
    book.reserve(act).expect(rt, "memory");
}

// Puts an act of caller 1 that opens and publishes no round at the end of a book, with its reply.
#[tactic(auto, using(claim_history::proofs::Growth::due_follows, crate::proofs::Longer::one_longer))]
fn put(rt: &impl Abort, book: &mut Book, act: Act)
    ensures { IsPrefix book.old.history book.new.history }
{
    make_room(rt, book, &act);
    let caller = 1;
    let reply = book.answer(caller, &act);
    assert!(rt; !matches!(reply, Reply::Opened { .. }));
    book.apply(Entry { caller, act, reply });
}

// Opens round 1.
#[tactic(auto, using(claim_history::proofs::Growth::due_follows, crate::proofs::Longer::one_longer))]
fn open(rt: &impl Abort, alloc: Global, book: &mut Book, kind: Kind, horizon: Day)
    ensures { IsPrefix book.old.history book.new.history }
{
    let act = Act::Close { kind, horizon };
    make_room(rt, book, &act);
    let caller = 1;
    let reply = book.answer(caller, &act);
    assert!(rt; matches!(reply, Reply::Opened { round: 1 }));
    let cut = book.next_cut(alloc, kind, horizon).expect(rt, "memory");
    book.apply_close(Entry { caller, act, reply }, cut);
}

// Publishes a round.
#[tactic(auto, using(claim_history::proofs::Growth::due_follows, crate::proofs::Longer::one_longer))]
fn publish(rt: &impl Abort, alloc: Global, book: &mut Book, act: Act)
    ensures { IsPrefix book.old.history book.new.history }
{
    let Act::Publish { round, outcome } = &act else {
        return;
    };
    let caller = 1;
    let reply = publication_reply(alloc, book, caller, *round, outcome).expect(rt, "memory");
    assert!(rt; matches!(reply, Reply::Published { total: 2_100 }));
    assert!(rt; act.valid());
    book.reserve(&act).expect(rt, "memory");
    assert!(rt; book.apply_publish(Entry { caller, act, reply }).is_some());
}

/// Puts an act of a triangle at the end of a book.
pub fn put_any(rt: &impl Abort, alloc: Global, book: &mut Book, act: Act)
    ensures { IsPrefix book.old.history book.new.history }
{
    match &act {
        Act::Close { kind, horizon } => open(rt, alloc, book, *kind, *horizon),
        Act::Publish { .. } => publish(rt, alloc, book, act),
        _ => put(rt, book, act),
    }
}

/// Puts all acts of the triangle at the end of a book.
pub fn fill(rt: &impl Abort, alloc: Global, book: &mut Book) {
    for act in triangle(rt, alloc) {
        put_any(rt, alloc, book, act);
    }
}

/// The row of a firm as the book has it.
pub fn row_in(book: &Book, firm: Name) -> Option<Row> {
    match (book.account(firm), book.position(firm)) {
        (Some(account), Some(position)) => Some(Row { account, position }),
        _ => None,
    }
}
