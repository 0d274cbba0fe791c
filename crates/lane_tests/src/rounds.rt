//! Rounds of a desk that two seats share.
ghost use Rattle.std.specs.Prelude.{◌≡◌};
ghost use Rattle.turn_lock.specs.Seats.{lock_of, number, seen, own, registry, made};
ghost use Rattle.live_intake.specs.shared_bureau.specs.Owned.{OwnsRound};
ghost use Rattle.live_intake.specs.shared_bureau.specs.Adding.{IsReady};

use crate::acts::{MemoryDesk, ask, desk_on, firm, main_entries};
use crate::steps::{Steps, UntilAnswered};
use claim_history::{Act, Day, Reply, Why, main_pool_name};
use disk_model::MemoryDisk;
use flow_solver::PlainSolver;
use live_intake::{CloseEnd, CutReply, PublishReply, Shared, certified};
use setoff_model::{Cut, Key, Kind, Name};
use std::alloc::Global;
use std::process::Abort;
use std::sync::Wait;
use std::thread;
use turn_lock::{Registrar, Seat};

// ---- acts

/// The 31st of December 2025.
pub fn horizon(rt: &impl Abort) -> Day {
    Day::of_number(20_453).expect(rt, "a day")
}

// What names the claim of a creditor with this text.
fn key_of(rt: &impl Abort, creditor: Name, text: &[u8]) -> Key {
    let invoice = Name::of(text).expect(rt, "a name");
    Key { creditor, invoice }
}

fn file(rt: &impl Abort, creditor: Name, invoice: &[u8], debtor: Name, amount: u64) -> Act {
    Act::File {
        key: key_of(rt, creditor, invoice),
        debtor,
        amount,
        due: Day::of_number(20_119).expect(rt, "a day"),
    }
}

fn confirm(rt: &impl Abort, creditor: Name, invoice: &[u8], debtor: Name) -> Act {
    Act::Confirm {
        key: key_of(rt, creditor, invoice),
        debtor,
        agreed: None,
    }
}

fn dispute(rt: &impl Abort, creditor: Name, invoice: &[u8], debtor: Name) -> Act {
    Act::Dispute {
        key: key_of(rt, creditor, invoice),
        debtor,
    }
}

fn done(act: Act) -> (Act, Reply) {
    (act, Reply::Done)
}

// A owes B 10.00, B owes C 7.00, and C owes A 12.00. Each claim is confirmed.
fn three_claims(rt: &impl Abort, alloc: Global) -> Vec<(Act, Reply)> {
    let (a, b, c) = (firm(rt, b'A'), firm(rt, b'B'), firm(rt, b'C'));
    let asked = vec![in alloc;
        done(Act::Firm { firm: a }),
        done(Act::Firm { firm: b }),
        done(Act::Firm { firm: c }),
        done(file(rt, b, b"I-1", a, 1_000)),
        done(confirm(rt, b, b"I-1", a)),
        done(file(rt, c, b"I-2", b, 700)),
        done(confirm(rt, c, b"I-2", b)),
        done(file(rt, a, b"I-3", c, 1_200)),
        done(confirm(rt, a, b"I-3", c)),
    ];
    asked.ok().expect(rt, "memory")
}

// Acts of another seat while round 1 is open: its claims are frozen, and it is not that seat's; others are not in it.
fn other_acts(rt: &impl Abort, alloc: Global) -> Vec<(Act, Reply)> {
    let (a, b, c) = (firm(rt, b'A'), firm(rt, b'B'), firm(rt, b'C'));
    let frozen = Reply::Refused(Why::Frozen { round: 1 });
    let not_owner = Reply::Refused(Why::NotOwner { round: 1 });
    let fund = Act::Fund {
        firm: a,
        amount: 100,
    };
    let asked = vec![in alloc;
        done(file(rt, b, b"I-4", a, 200)),
        done(confirm(rt, b, b"I-4", a)),
        done(file(rt, c, b"I-5", a, 100)),
        done(confirm(rt, c, b"I-5", a)),
        done(dispute(rt, c, b"I-5", a)),
        (dispute(rt, b, b"I-1", a), frozen),
        (Act::Abandon, not_owner),
        done(fund),
    ];
    asked.ok().expect(rt, "memory")
}

// Asks acts one after another, each of which is to have this reply.
fn ask_all<R: Wait + Abort>(
    rt: &R,
    shared: &Shared<MemoryDisk>,
    seat: &mut Seat<MemoryDesk>,
    asked: Vec<(Act, Reply)>,
)
    requires { IsReady shared.now.turn seat.old }
    ensures { IsReady shared.now.turn seat.new }
{
    for call in asked {
        let (act, reply) = call;
        assert!(rt; ask(rt, shared, seat, act) == reply);
    }
}

// ---- a round is its owner's

// Whether these are the amounts of the cut's claims, in order.
fn has_amounts(cut: &Cut, amounts: &[u64]) -> bool {
    cut.claims().len() == amounts.len()
        && cut
            .claims()
            .iter()
            .zip(amounts)
            .all(|(claim, amount)| claim.amount == *amount)
}

// Whether its parties are A, B and C.
fn has_three_parties(cut: &Cut) -> bool {
    let letters = b"ABC";
    cut.parties().len() == 3
        && cut
            .parties()
            .iter()
            .zip(letters)
            .all(|(party, letter)| Name::of(&[*letter]) == Some(party.firm))
}

/// The cut of the round that a seat closes in a pool, or continues. Its claims have these amounts.
pub fn frozen<R: Wait + Abort>(
    rt: &R,
    shared: &Shared<MemoryDisk>,
    seat: &mut Seat<MemoryDesk>,
    pool: Name,
    amounts: &[u64],
) -> Cut
    requires { IsReady shared.now.turn seat.old }
    ensures ready { IsReady shared.now.turn seat.new }
    ensures owned { OwnsRound (seen seat.new) (own seat.new) (number seat.new) pool result }
{
    match shared.cut(rt, seat, pool, Kind::Plain, horizon(rt)) {
        Ok(CutReply::Frozen(cut)) => {
            assert!(rt; has_amounts(&cut, amounts));
            cut
        }
        _ => panic!(rt; "a round"),
    }
}

// The Close of a seat in the pool MAIN is refused, since round 1 is open.
fn finds_open<R: Wait + Abort>(
    rt: &R,
    shared: &Shared<MemoryDisk>,
    seat: &mut Seat<MemoryDesk>,
    kind: Kind,
)
    requires { IsReady shared.now.turn seat.old }
    ensures { IsReady shared.now.turn seat.new }
{
    match shared.cut(rt, seat, main_pool_name(), kind, horizon(rt)) {
        Ok(CutReply::Refused(Why::RoundOpen { round: 1 })) => {}
        _ => panic!(rt; "an open round"),
    }
}

/// Solves and publishes the round that the seat owns in a pool: the total.
pub fn published<R: Wait + Abort>(
    rt: &R,
    alloc: Global,
    shared: &Shared<MemoryDisk>,
    seat: &mut Seat<MemoryDesk>,
    pool: Name,
    cut: Cut,
) -> u64
    requires ready { IsReady shared.now.turn seat.old }
    requires owned { OwnsRound (seen seat.old) (own seat.old) (number seat.old) pool cut }
    ensures { IsReady shared.now.turn seat.new }
{
    assert!(rt; cut.well_formed());
    let checked = certified(alloc, &PlainSolver::new(), cut).ok();
    match shared.publish(rt, seat, pool, checked.expect(rt, "memory")) {
        PublishReply::Published { total } => total,
        PublishReply::Device { .. } => panic!(rt; "a publication"),
    }
}

// The first seat closes a round, which it alone may continue, with the same kind. It publishes the round once the second seat was
// answered.
fn first_round<R: Wait + Abort>(
    rt: &R,
    alloc: Global,
    shared: &Shared<MemoryDisk>,
    seat: Seat<MemoryDesk>,
    steps: &Steps,
) -> (Seat<MemoryDesk>, u64)
    requires { IsReady shared.now.turn seat }
    ensures { IsReady shared.now.turn result.0 }
{
    let amounts = [1_000, 700, 1_200];
    let main = main_pool_name();
    let mut seat = seat;
    frozen(rt, shared, &mut seat, main, &amounts);
    finds_open(rt, shared, &mut seat, Kind::Funded);
    let cut = frozen(rt, shared, &mut seat, main, &amounts);
    steps.step(rt);
    steps.wait_for(rt, 2);
    let total = published(rt, alloc, shared, &mut seat, main, cut);
    steps.step(rt);
    (seat, total)
}

// The second seat asks once the cut of the first round is made. It finds the round frozen and not its own, and files more claims.
fn answered<R: Wait + Abort>(
    rt: &R,
    alloc: Global,
    shared: &Shared<MemoryDisk>,
    seat: Seat<MemoryDesk>,
    steps: &Steps,
) -> Seat<MemoryDesk>
    requires { IsReady shared.now.turn seat }
    ensures { IsReady shared.now.turn result }
{
    let mut seat = seat;
    steps.wait_for(rt, 1);
    ask_all(rt, shared, &mut seat, other_acts(rt, alloc));
    finds_open(rt, shared, &mut seat, Kind::Plain);
    steps.step(rt);
    seat
}

// The second seat is answered while the first round is open. Once that round is published, it closes and publishes one of its own.
fn second_round<R: Wait + Abort>(
    rt: &R,
    alloc: Global,
    shared: &Shared<MemoryDisk>,
    seat: Seat<MemoryDesk>,
    steps: &Steps,
) -> (Seat<MemoryDesk>, u64)
    requires { IsReady shared.now.turn seat }
    ensures { IsReady shared.now.turn result.0 }
{
    let mut seat = answered(rt, alloc, shared, seat, steps);
    steps.wait_for(rt, 3);
    let main = main_pool_name();
    let cut = frozen(rt, shared, &mut seat, main, &[300, 500, 200]);
    assert!(rt; cut.round() == 2 && has_three_parties(&cut));
    let total = published(rt, alloc, shared, &mut seat, main, cut);
    (seat, total)
}

/// A shared desk on an empty disk, with two seats, the first of which has filed and confirmed three claims in the pool MAIN.
pub fn two_seats<R: Wait + Abort>(
    rt: &R,
    alloc: Global,
) -> (
    Shared<MemoryDisk>,
    Registrar<MemoryDesk>,
    Seat<MemoryDesk>,
    Seat<MemoryDesk>,
)
    ensures made { (registry result.1 ≡ lock_of result.0.turn) × (made result.1 ≡ 2) }
    ensures ready { IsReady result.0.turn result.2 × IsReady result.0.turn result.3 }
{
    let (shared, mut registrar) = opened(rt, alloc);
    let mut first = shared.caller(&mut registrar);
    let second = shared.caller(&mut registrar);
    ask_all(rt, &shared, &mut first, three_claims(rt, alloc));
    (shared, registrar, first, second)
}

// A shared desk on an empty disk, without seats.
fn opened(rt: &impl Abort, alloc: Global) -> (Shared<MemoryDisk>, Registrar<MemoryDesk>)
    ensures { (registry result.1 ≡ lock_of result.0.turn) × (made result.1 ≡ 0) }
{
    match Shared::open(alloc, desk_on(rt, alloc, b""), 0) {
        Ok((shared, registrar, no_seats)) => {
            no_seats.destroy_empty();
            (shared, registrar)
        }
        Err(_) => panic!(rt; "memory"),
    }
}

/// The desk, when its two seats have asked all.
pub fn finished(
    rt: &impl Abort,
    alloc: Global,
    shared: Shared<MemoryDisk>,
    registrar: Registrar<MemoryDesk>,
    first: Seat<MemoryDesk>,
    second: Seat<MemoryDesk>,
) -> MemoryDesk
    requires made { (registry registrar ≡ lock_of shared.turn) × (made registrar ≡ 2) }
    requires ready { IsReady shared.turn first × IsReady shared.turn second }
{
    let mut seats = Vec::with_capacity(alloc, 2).ok().expect(rt, "memory");
    seats.push_reserved(first);
    seats.push_reserved(second);
    shared.finish(registrar, seats)
}

#[test]
fn a_round_stays_its_owners(rt: HostRuntime) {
    let alloc = rt.alloc();
    let (shared, registrar, first, second) = two_seats(&rt, alloc);
    let steps = Steps::new();
    let ((first, one), (second, other)) = thread::join(
        &rt,
        || first_round(&rt, alloc, &shared, first, &steps),
        || second_round(&rt, alloc, &shared, second, &steps),
    );
    assert!(rt; !steps.was_late(&rt));
    assert!(rt; one == 2_100);
    assert!(rt; other == 0);
    let desk = finished(&rt, alloc, shared, registrar, first, second);
    assert!(rt; desk.rounds().len() == 2);
    drop(desk.close());
}

// ---- the turn while a round is solved

// The first seat closes a round. It is solved once the second seat was answered. The total of the round, which is the first.
fn closed<R: Wait + Abort>(
    rt: &R,
    alloc: Global,
    shared: &Shared<MemoryDisk>,
    seat: Seat<MemoryDesk>,
    steps: &Steps,
) -> (Seat<MemoryDesk>, u64)
    requires { IsReady shared.now.turn seat }
    ensures { IsReady shared.now.turn result.0 }
{
    let mut seat = seat;
    let solver = PlainSolver::new();
    let pause = UntilAnswered(steps);
    let day = horizon(rt);
    let main = main_pool_name();
    match shared.close_round(
        rt,
        alloc,
        &mut seat,
        main,
        &solver,
        &pause,
        Kind::Plain,
        day,
    ) {
        CloseEnd::Published { round: 1, total } => (seat, total),
        _ => panic!(rt; "a publication"),
    }
}

#[test]
fn others_are_answered_while_a_round_is_solved(rt: HostRuntime) {
    let alloc = rt.alloc();
    let (shared, registrar, first, second) = two_seats(&rt, alloc);
    let steps = Steps::new();
    let ((first, total), second) = thread::join(
        &rt,
        || closed(&rt, alloc, &shared, first, &steps),
        || answered(&rt, alloc, &shared, second, &steps),
    );
    assert!(rt; !steps.was_late(&rt));
    assert!(rt; total == 2_100);
    let desk = finished(&rt, alloc, shared, registrar, first, second);
    let history = main_entries(&desk);
    assert!(rt; history.len() == 20);
    assert!(rt; history[9].reply == Reply::Opened { round: 1 });
    assert!(rt; history[19].reply == Reply::Published { total });
    drop(desk.close());
}
