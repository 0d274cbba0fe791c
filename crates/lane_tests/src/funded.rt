//! A FUNDED round of a shared desk, which holds its firms, and which the level solver solves.
ghost use Rattle.live_intake.specs.shared_bureau.specs.Adding.{IsReady};

use crate::acts::{MemoryDesk, ask, firm};
use crate::rounds::{finished, horizon, two_seats};
use claim_history::{Act, Reply, Why, main_pool_name};
use disk_model::MemoryDisk;
use level_solver::LevelSolver;
use live_intake::{CloseEnd, CutReply, Pause, Shared};
use setoff_model::Kind;
use std::alloc::Global;
use std::process::Abort;
use std::sync::{Mutex, Wait};
use turn_lock::Seat;

// Keeps the number of the round that it is told.
#[derive(Drop)]
struct Told(Mutex<u32>);

impl Pause for Told {
    fn pause<R: Wait>(&self, rt: &R, round: u32) {
        *self.0.lock(rt) = round;
    }
}

// A puts in 1.00.
fn funding(rt: &impl Abort) -> Act {
    Act::Fund {
        firm: firm(rt, b'A'),
        amount: 100,
    }
}

// The first seat opens a FUNDED round, and the other finds its firms held.
fn is_held<R: Wait + Abort>(
    rt: &R,
    shared: &Shared<MemoryDisk>,
    first: &mut Seat<MemoryDesk>,
    second: &mut Seat<MemoryDesk>,
)
    requires first { IsReady shared.now.turn first.old }
    requires second { IsReady shared.now.turn second.old }
    ensures first { IsReady shared.now.turn first.new }
    ensures second { IsReady shared.now.turn second.new }
{
    match shared.cut(rt, first, main_pool_name(), Kind::Funded, horizon(rt)) {
        Ok(CutReply::Frozen(cut)) => assert!(rt; cut.kind() == Kind::Funded && cut.round() == 1),
        _ => panic!(rt; "a round"),
    }
    let held = Reply::Refused(Why::Frozen { round: 1 });
    assert!(rt; ask(rt, shared, second, funding(rt)) == held);
}

// The seat goes on with its round, which is solved and published. What is done between is told its number.
fn goes_on<R: Wait + Abort>(
    rt: &R,
    alloc: Global,
    shared: &Shared<MemoryDisk>,
    seat: &mut Seat<MemoryDesk>,
)
    requires { IsReady shared.now.turn seat.old }
    ensures { IsReady shared.now.turn seat.new }
{
    let solver = LevelSolver::new();
    let told = Told(Mutex::new(0));
    let day = horizon(rt);
    let main = main_pool_name();
    match shared.close_round(rt, alloc, seat, main, &solver, &told, Kind::Funded, day) {
        CloseEnd::Published {
            round: 1,
            total: 2_100,
        } => {}
        _ => panic!(rt; "a publication"),
    }
    assert!(rt; *told.0.lock(rt) == 1);
}

#[test]
fn a_funded_round_holds_its_firms(rt: HostRuntime) {
    let alloc = rt.alloc();
    let (shared, registrar, first, second) = two_seats(&rt, alloc);
    let mut first = first;
    let mut second = second;
    is_held(&rt, &shared, &mut first, &mut second);
    goes_on(&rt, alloc, &shared, &mut first);
    assert!(rt; ask(&rt, &shared, &mut second, funding(&rt)) == Reply::Done);
    let desk = finished(&rt, alloc, shared, registrar, first, second);
    assert!(rt; desk.rounds().len() == 1);
    drop(desk.close());
}
