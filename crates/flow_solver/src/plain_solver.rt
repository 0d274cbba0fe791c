//! The plain solver.
ghost use Rattle.std.specs.Prelude.{◌<◌, ℕ, IfOk, length, pos, ◌≤ℤ◌};
ghost use Rattle.residual_state.specs.Excesses.{excess_of};
ghost use Rattle.residual_state.specs.States.{IsStateOf};
ghost use Rattle.flow_solver.specs.Starts.{unweighed};

use crate::flow::{Flow, flow_at_rest};
use crate::solver::Solver;
use crate::start::state_of_net;
use netting_graph::Net;
use residual_state::{State, augment};
use std::alloc::{AllocError, Global};

/// Moves excess along labelled paths, and raises prices where no label passes.
///
/// It begins with each arc full, each price 0 and no balance changed. The excess of a party is what is discharged towards
/// it, less what is discharged by it and less what its balance rises by. The ground is a node as well: it has what all
/// balances rise by, and its price stays 0. Labels begin at the nodes with an excess above 0, and pass over arcs where a
/// unit neither gains nor loses at the prices. Where a label reaches a node with an excess below 0, excess is moved to it.
/// Where none passes, the prices of the labelled nodes are raised by the least amount that lets one pass. At the end each
/// excess is 0.
///
/// This is the primal-dual method for flows of least cost: R. K. Ahuja, T. L. Magnanti and J. B. Orlin, Network Flows,
/// Prentice Hall 1993, chapter 9. It asks for memory that is linear in the parties and the arcs.
#[derive(Clone, Copy)]
pub struct PlainSolver {}

impl PlainSolver {
    /// The solver.
    pub fn new() -> PlainSolver {
        PlainSolver {}
    }
}

impl Solver for PlainSolver {
    fn solve(&self, alloc: Global, net: &Net) -> Result<Flow, AllocError> {
        let state = solve_net(alloc, net)?;
        Ok(flow_at_rest(net, state))
    }
}

// The state when no node has an excess above 0.
fn solve_net(alloc: Global, net: &Net) -> Result<State, AllocError>
    ensures state { IfOk result (IsStateOf (unweighed net.now)) }
    ensures rest { IfOk result (λ state. (v : ℕ) → v < length state.excess.items → excess_of state.excess.items v ≤ℤ pos 0) }
{
    let mut state = state_of_net(alloc, net)?;
    loop {
        if !augment(alloc, &mut state)? {
            return Ok(state);
        }
    }
}
