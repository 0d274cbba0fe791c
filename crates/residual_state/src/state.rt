//! The state of a search for a greatest set-off.
ghost use Rattle.std.specs.Prelude.{◌≡◌, ◌<◌, ◌≤◌, ℕ, length, pos, ◌≤ℤ◌, All, IfOk};
ghost use Rattle.setoff_model.specs.declared.limits.TheConstants.{MOST_FIRMS, MOST_CLAIMS, MOST_WINDOW};
ghost use Rattle.residual_state.specs.Edges.{IsClaimEdge};
ghost use Rattle.residual_state.specs.Excesses.{excess_of};
ghost use Rattle.residual_state.specs.States.{Weighed, IsState, IsStateOf, IsFound, weighed_edges};

use crate::around::{Around, arcs_around};
use crate::edge::add_windows;
use crate::start::{excess_at_start, flows_at_start};
use residual_network::Edge;
use setoff_model::Party;
use std::alloc::{AllocError, Global};

/// The arcs with a flow on each, the excess of each node and the price of each party.
///
/// The nodes are the parties, and after them the ground. The first arcs are those of the claims, in their order, and then comes
/// one from each party to the ground. The excess of a node is what it has beyond what it owes.
#[derive(Drop)]
pub struct State {
    /// The arcs: those of the claims, and then one from each party to the ground.
    pub edges: Vec<Edge>,
    /// The arcs of each node.
    pub around: Around,
    /// The flow of each arc in cents, at most its capacity.
    pub flows: Vec<u64>,
    /// The excess of each node in cents; less than 0 where it wants more than it has.
    pub excess: Vec<i128>,
    /// The price of each party. That of the ground is 0.
    pub prices: Vec<i64>,
}

/// The state at the beginning of a search on the arcs of claims among parties: each claim is discharged whole, no balance changes,
/// and the prices are 0.
///
/// Several arcs may join the same two parties. A claim weighs what a cent on its arc counts. The only error is running out of memory.
pub fn state_at_start(
    alloc: Global,
    parties: &[Party],
    claims: Vec<Edge>,
) -> Result<State, AllocError>
    requires few_parties { length parties.now ≤ MOST_FIRMS }
    requires few_claims { length claims.items ≤ MOST_CLAIMS }

    // Each claim is one between the parties, and no window is too wide.
    requires claims { All (IsClaimEdge (length parties.now)) claims.items }
    requires spends { All (λ f. f.spend ≤ MOST_WINDOW) parties.now }
    requires rooms { All (λ f. f.room ≤ MOST_WINDOW) parties.now }

    // With memory, it is a state on these arcs.
    ensures { IfOk result (IsStateOf (weighed_edges parties.now claims.items)) }
{
    let nodes = parties.len() + 1;
    let flows = flows_at_start(alloc, parties, &claims)?;
    let excess = excess_at_start(alloc, &claims, nodes)?;
    let prices = vec![in alloc; 0i64; parties.len()]?;
    let mut edges = claims;
    add_windows(&mut edges, parties)?;
    let around = arcs_around(alloc, &edges, nodes)?;
    Ok(State {
        edges,
        around,
        flows,
        excess,
        prices,
    })
}

/// What a state at rest has found of so many claims: a flow for each, and a price for each party.
///
/// The flows are lawful, and the prices prove that none has a greater total by the weights. It takes no memory.
pub fn found_at_rest(state: State, claims: usize) -> (Vec<u64>, Vec<i64>)
    requires state { IsState state }
    requires rest { (v : ℕ) → v < length state.excess.items → excess_of state.excess.items v ≤ℤ pos 0 }
    ensures { (g : Weighed) → IsStateOf g state → claims ≡ length g.obligations.amounts →
        IsFound g result.0.items result.1.items }
{
    let mut state = state;
    state.flows.truncate(claims);
    (state.flows, state.prices)
}
