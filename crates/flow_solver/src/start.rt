//! Where a search on a net begins.
ghost use Rattle.std.specs.Prelude.{◌≡◌, map, IfOk};
ghost use Rattle.residual_state.specs.States.{IsStateOf};
ghost use Rattle.flow_solver.specs.Starts.{claim_edge, unweighed};

use netting_graph::{Arc, Net};
use residual_state::{Edge, State, state_at_start};
use std::alloc::{AllocError, Global};

/// The state at the beginning of a search on a net, where a cent counts 1 on each arc. The only error is running out of memory.
pub fn state_of_net(alloc: Global, net: &Net) -> Result<State, AllocError>
    ensures { IfOk result (IsStateOf (unweighed net.now)) }
{
    let edges = claim_edges(alloc, net.arcs())?;
    state_at_start(alloc, net.parties(), edges)
}

fn claim_edges(alloc: Global, arcs: &[Arc]) -> Result<Vec<Edge>, AllocError>
    ensures { IfOk result (λ edges. edges.items ≡ map claim_edge arcs.now) }
{
    arcs.iter()
        .map(|arc| Edge {
            tail: arc.debtor as usize,
            head: arc.creditor as usize,
            capacity: arc.amount,
            reward: 1,
        })
        .collect(alloc)
}
