//! Tests of replays.
ghost use Rattle.std.specs.Prelude.{◌≡◌, IsTrue, true};
ghost use Rattle.act_bodies.specs.Bodies.{is_keepable};
ghost use Rattle.round_journal.specs.Records.{AreKeepable, recorded_call};

use crate::made::{day, in_east, in_main, name};
use bureau_desk::{Book, LimitedBooks, ReplayStop, replay};
use claim_history::{Act, Call, Day, Position, Reply, Why, main_pool_name};
use round_journal::Record;
use setoff_model::{Key, Kind, Name, Outcome};
use std::alloc::Global;
use std::process::Abort;

// Whether the calls can be kept in a journal.
fn are_keepable(records: &[Record]) -> bool
    ensures { IsTrue result → AreKeepable records.now }
{
    records.iter().all(can_be_kept)
}

#[tactic(auto, unfolding(act_bodies::specs::Bodies::is_keepable))]
fn can_be_kept(kept: &Record) -> bool
    ensures { IsTrue result → is_keepable (recorded_call kept.now) ≡ true }
{
    let _ = kept.pool.bytes();
    1 <= kept.caller && kept.act.valid()
}

// What is told of a book: how many entries it has, the open round, what is left of the invoices I-1 of A, B and C, and the
// position of A.
#[derive(Clone, Copy, PartialEq, Eq)]
struct Told {
    entries: usize,
    open: Option<u32>,
    left: [Option<u64>; 3],
    position: Option<Position>,
}

// What is left of a creditor's invoice I-1.
fn left(book: &Book, creditor: &[u8]) -> Option<u64> {
    let creditor = Name::of(creditor)?;
    let invoice = Name::of(b"I-1")?;
    let claim = book.claim(&Key { creditor, invoice })?;
    Some(claim.left)
}

fn tell(limited: &LimitedBooks, pool: &Name) -> Told {
    let book = limited.books().book(pool);
    Told {
        entries: book.history().len(),
        open: book.open_round(),
        left: [left(book, b"A"), left(book, b"B"), left(book, b"C")],
        position: position_of_a(book),
    }
}

fn position_of_a(book: &Book) -> Option<Position> {
    book.position(Name::of(b"A")?)
}

// What is told of the book of a pool after these records, or why their replay stops.
fn replayed(alloc: Global, pool: &Name, records: Vec<Record>) -> Result<Told, ReplayStop>
    requires { AreKeepable records.items }
{
    let books = replay(alloc, records)?;
    let told = tell(&books, pool);
    drop(books);
    Ok(told)
}

// The same of calls, which can be kept, and whose records have the offsets 0, 1 and so on.
fn called(
    rt: &(impl Abort + AllocGlobal),
    pool: &Name,
    calls: Vec<Call>,
) -> Result<Told, ReplayStop> {
    let mut records = Vec::new(rt.alloc());
    for (place, call) in calls.into_iter().enumerate() {
        let Call { caller, pool, act } = call;
        let record = Record {
            offset: place as u64,
            caller,
            pool,
            act,
        };
        records.push(record).expect(rt, "memory");
    }
    assert!(rt; are_keepable(&records));
    replayed(rt.alloc(), pool, records)
}

// The same of acts of caller 1 in the pool MAIN, of which it is told.
fn acted(rt: &(impl Abort + AllocGlobal), acts: Vec<Act>) -> Result<Told, ReplayStop> {
    let mut calls = Vec::new(rt.alloc());
    for act in acts {
        calls.push(in_main(1, act)).expect(rt, "memory");
    }
    called(rt, &main_pool_name(), calls)
}

// A creditor's invoice I-1 against a debtor, and its confirmation.
fn file(creditor: Name, invoice: Name, debtor: Name, amount: u64, due: Day) -> Act {
    let key = Key { creditor, invoice };
    Act::File {
        key,
        debtor,
        amount,
        due,
    }
}

fn confirm(creditor: Name, invoice: Name, debtor: Name) -> Act {
    let key = Key { creditor, invoice };
    Act::Confirm {
        key,
        debtor,
        agreed: None,
    }
}

// A owes B 10.00, B owes C 7.00, and C owes A 12.00; a round is opened.
fn triangle(rt: &(impl Abort + AllocGlobal)) -> Vec<Act> {
    let (a, b, c) = (name(rt, b"A"), name(rt, b"B"), name(rt, b"C"));
    let one = name(rt, b"I-1");
    let horizon = day(rt, 20_119);
    let acts = vec![in rt.alloc();
        Act::Firm { firm: a },
        Act::Firm { firm: b },
        Act::Firm { firm: c },
        file(b, one, a, 1000, horizon),
        file(c, one, b, 700, horizon),
        file(a, one, c, 1200, horizon),
        confirm(b, one, a),
        confirm(c, one, b),
        confirm(a, one, c),
        Act::Close {
            kind: Kind::Plain,
            horizon
        },
    ];
    acts.expect(rt, "memory")
}

// The round of the triangle: 7.00 of each claim.
fn publication(rt: &(impl Abort + AllocGlobal)) -> Act {
    let discharges = vec![in rt.alloc(); 700, 700, 700].expect(rt, "memory");
    let prices = vec![in rt.alloc(); 1, 2, 0].expect(rt, "memory");
    let outcome = Outcome::new(discharges, prices);
    Act::Publish { round: 1, outcome }
}

// The triangle with its round published.
fn settled(rt: &(impl Abort + AllocGlobal)) -> Vec<Act> {
    let mut acts = triangle(rt);
    acts.push(publication(rt)).expect(rt, "memory");
    acts
}

#[test]
fn a_round_stays_open(rt: HostRuntime) {
    let told = Told {
        entries: 10,
        open: Some(1),
        left: [Some(1200), Some(1000), Some(700)],
        position: Some(Position {
            balance: 0,
            receivable: 1200,
            payable: 1000,
        }),
    };
    let found = acted(&rt, triangle(&rt));
    assert!(rt; found == Ok(told));
}

#[test]
fn a_publication_settles(rt: HostRuntime) {
    let told = Told {
        entries: 11,
        open: None,
        left: [Some(500), Some(300), Some(0)],
        position: Some(Position {
            balance: 0,
            receivable: 500,
            payable: 300,
        }),
    };
    let found = acted(&rt, settled(&rt));
    assert!(rt; found == Ok(told));
}

// Firm A, its position, and firm A again.
fn repeated(rt: &(impl Abort + AllocGlobal)) -> Vec<Act> {
    let firm = name(rt, b"A");
    let acts = vec![in rt.alloc();
        Act::Firm { firm },
        Act::Position { firm },
        Act::Firm { firm },
    ];
    acts.expect(rt, "memory")
}

#[test]
fn a_second_firm_of_one_name_is_bad(rt: HostRuntime) {
    let reply = Reply::Refused(Why::FirmExists);
    let found = acted(&rt, repeated(&rt));
    assert!(rt; found == Err(ReplayStop::BadAct { offset: 2, reply }));
}

// A firm A in the pool EAST and a round there, behind the triangle in the pool MAIN.
fn in_two_pools(rt: &(impl Abort + AllocGlobal)) -> Vec<Call> {
    let mut calls = Vec::new(rt.alloc());
    for act in triangle(rt) {
        calls.push(in_main(1, act)).expect(rt, "memory");
    }
    let firm = Act::Firm {
        firm: name(rt, b"A"),
    };
    let close = Act::Close {
        kind: Kind::Plain,
        horizon: day(rt, 20_119),
    };
    calls.push(in_east(rt, 2, firm)).expect(rt, "memory");
    calls.push(in_east(rt, 2, close)).expect(rt, "memory");
    calls
}

// Each pool has its own firms, claims and rounds.
#[test]
fn pools_are_apart(rt: HostRuntime) {
    let east = name(&rt, b"EAST");
    let told = Told {
        entries: 2,
        open: Some(1),
        left: [None, None, None],
        position: Some(Position {
            balance: 0,
            receivable: 0,
            payable: 0,
        }),
    };
    let found = called(&rt, &east, in_two_pools(&rt));
    assert!(rt; found == Ok(told));
    let main = called(&rt, &main_pool_name(), in_two_pools(&rt));
    assert!(rt; main == acted(&rt, triangle(&rt)));
}
