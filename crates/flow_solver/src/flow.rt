//! What a solver finds of a net.
ghost use Rattle.std.specs.Prelude.{◌≡◌, ◌<◌, ℕ, length, pos, ◌≤ℤ◌};
ghost use Rattle.residual_state.specs.Excesses.{excess_of};
ghost use Rattle.residual_state.specs.States.{IsStateOf};
ghost use Rattle.flow_solver.specs.Solution.{IsSolution};
ghost use Rattle.flow_solver.specs.Starts.{unweighed};

use netting_graph::Net;
use residual_state::{State, found_at_rest};
use std::marker::Model;

/// What a solver found: one flow for each arc of a net, in cents, and one price for each party.
#[derive(Drop)]
pub struct Flow {
    flows: Vec<u64>,
    prices: Vec<i64>,
}

impl Model for Flow {
    ghost use Rattle.flow_solver.specs.Solution.{FlowView};

    ghost Value = { FlowView };

    ghost view = { λ f. record { flows = f.flows.items; prices = f.prices.items } };
}

impl Flow {
    /// These flows, one for each arc in its order and in cents, and these prices, one for each party in its order.
    ///
    /// A solver makes its answer by it. Nothing is tested here: what the two have to be, `Solver::solve` says.
    pub fn new(flows: Vec<u64>, prices: Vec<i64>) -> Flow
        ensures { result ≡ record { flows = flows.items; prices = prices.items } }
    {
        Flow { flows, prices }
    }

    /// The flow of each arc, in cents.
    pub fn flows(&self) -> &[u64]
        ensures { result.now ≡ self.now.flows }
    {
        &self.flows
    }

    /// The price of each party.
    pub fn prices(&self) -> &[i64]
        ensures { result.now ≡ self.now.prices }
    {
        &self.prices
    }

    /// The flows and the prices, for whoever makes an outcome of them. It takes no memory.
    pub fn into_parts(self) -> (Vec<u64>, Vec<i64>)
        ensures flows { result.0.items ≡ self.flows }
        ensures prices { result.1.items ≡ self.prices }
    {
        (self.flows, self.prices)
    }
}

/// What a state at rest has found of its net: the flows on the arcs of the net, and the prices.
///
/// It is how a solver ends that takes steps until no node has an excess above 0. It takes no memory.
pub fn flow_at_rest(net: &Net, state: State) -> Flow
    requires state { IsStateOf (unweighed net.now) state }
    requires rest { (v : ℕ) → v < length state.excess.items → excess_of state.excess.items v ≤ℤ pos 0 }
    ensures { IsSolution net.now result }
{
    let (flows, prices) = found_at_rest(state, net.arcs().len());
    Flow::new(flows, prices)
}
