//! Cuts that are solved and certified.
ghost use Rattle.std.specs.Prelude.{◌≡◌, IfOk};
ghost use Rattle.setoff_model.specs.CutView.{WellFormed, obligations};
ghost use Rattle.setoff_model.specs.Setoff.{Proves, IsOldestFirst};
ghost use Rattle.flow_solver.specs.Solution.{IsSolution};

use crate::certificate::outcome_of;
use flow_solver::{Flow, Net, Solver};
use setoff_checker::{Checked, Checker};
use setoff_model::{Cut, Outcome};
use std::alloc::{AllocError, Global};

/// A greatest set-off of a cut, found by a solver and certified by the checker. A round is solved by this call alone.
///
/// The cut is well formed, and goes into what is answered. There is no other answer, since the checker never refuses what
/// a solver finds. Of two claims of one debtor and one creditor the earlier is filled first. The only error is running out of memory.
#[inline(never)]
pub fn certified<S: Solver>(alloc: Global, solver: &S, cut: Cut) -> Result<Checked, AllocError>
    requires { WellFormed cut }
    ensures cut { IfOk result (λ checked. checked.cut ≡ cut) }
    ensures proved { IfOk result (λ checked. Proves (obligations cut) checked.outcome.discharges checked.outcome.prices) }
    ensures oldest_first { IfOk result (λ checked. IsOldestFirst (obligations cut) checked.outcome.discharges) }
{
    let outcome = find_outcome(alloc, solver, &cut)?;
    let checker = Checker::for_cut(alloc, &cut)?;
    match checker.certify(cut, outcome) {
        Ok(checked) => Ok(checked),
        Err(_) => unreachable!(),
    }
}

// The outcome of a cut by what the solver finds of its net.
fn find_outcome<S: Solver>(alloc: Global, solver: &S, cut: &Cut) -> Result<Outcome, AllocError>
    requires { WellFormed cut.now }
    ensures proved { IfOk result (λ outcome. Proves (obligations cut.now) outcome.discharges outcome.prices) }
    ensures oldest_first { IfOk result (λ outcome. IsOldestFirst (obligations cut.now) outcome.discharges) }
{
    let net = Net::of(alloc, cut)?;
    let flow = solve_net(alloc, solver, &net)?;
    outcome_of(alloc, cut, &net, flow)
}

// What the solver finds for a net. It is never inlined, so that a profile shows what solving takes.
#[inline(never)]
fn solve_net<S: Solver>(alloc: Global, solver: &S, net: &Net) -> Result<Flow, AllocError>
    ensures { IfOk result (λ flow. IsSolution net.now flow) }
{
    solver.solve(alloc, net)
}
