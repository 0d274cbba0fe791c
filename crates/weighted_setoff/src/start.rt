//! Where a search on a cut with weights begins.
ghost use Rattle.std.specs.Prelude.{◌≡◌, length, IfOk};
ghost use Rattle.setoff_model.specs.CutView.{WellFormed, obligations};
ghost use Rattle.setoff_model.specs.Weighted.{AreWeights};
ghost use Rattle.level_solver.specs.residual_state.specs.States.{IsStateOf};
ghost use Rattle.weighted_setoff.specs.Starts.{AreEdgesOf, weighed_cut};

use level_solver::{Edge, State, state_at_start};
use setoff_model::{Cut, CutClaim};
use std::alloc::{AllocError, Global};

// The state at the beginning of a search on a cut, where a cent of each claim counts its weight.
pub(crate) fn state_of_cut(alloc: Global, cut: &Cut, weights: &[u32]) -> Result<State, AllocError>
    requires cut { WellFormed cut.now }
    requires weights { AreWeights (obligations cut.now) weights.now }
    ensures { IfOk result (IsStateOf (weighed_cut cut.now weights.now)) }
{
    let edges = claim_edges(alloc, cut.claims(), weights)?;
    state_at_start(alloc, cut.parties(), edges)
}

// An arc for each claim, from its debtor to its creditor, on which a cent counts the claim's weight.
fn claim_edges(alloc: Global, claims: &[CutClaim], weights: &[u32]) -> Result<Vec<Edge>, AllocError>
    requires { length weights.now ≡ length claims.now }
    ensures { IfOk result (λ edges. AreEdgesOf claims.now weights.now edges.items) }
{
    let mut edges = Vec::with_capacity(alloc, claims.len())?;
    for (place, claim) in claims.iter().enumerate() {
        edges.push(Edge {
            tail: claim.debtor as usize,
            head: claim.creditor as usize,
            capacity: claim.amount,
            reward: weights[place],
        })?;
    }
    Ok(edges)
}
