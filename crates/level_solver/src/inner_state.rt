//! The state of a net that is made of another, and the solution that a state has come to.
ghost use Rattle.std.specs.Prelude.{◌<◌, ◌≤◌, ◌↔◌, All, IfOk, IfSome, IsTrue, length};
ghost use Rattle.setoff_model.specs.declared.limits.TheConstants.{MOST_CLAIMS, MOST_FIRMS, MOST_WINDOW};
ghost use Rattle.flow_solver.specs.residual_state.specs.Edges.{IsClaimEdge};
ghost use Rattle.flow_solver.specs.residual_state.specs.States.{IsState};

use flow_solver::{State, state_at_start};
use net_presolve::Window;
use setoff_model::limits::{MOST_AMOUNT, MOST_CLAIMS, MOST_FIRMS, MOST_WEIGHT, MOST_WINDOW};
use setoff_model::{Name, Party};
use simplex_engine::{Edge, Halves, Solution, Start};
use std::alloc::{AllocError, Global};

// The state at the start of claims among parties, where they are such.
pub(crate) fn state_of(
    alloc: Global,
    parties: &[Party],
    claims: Vec<Edge>,
) -> Result<Option<State>, AllocError>
    ensures { IfOk result (λ state. IfSome state IsState) }
{
    if MOST_FIRMS < parties.len() || MOST_CLAIMS < claims.len() {
        return Ok(None);
    }
    if !are_among(parties, &claims) || !are_within(parties) {
        return Ok(None);
    }
    let state = state_at_start(alloc, parties, claims)?;
    Ok(Some(state))
}

// The flows and prices of a state.
pub(crate) fn solution_of(state: State) -> Solution {
    Solution {
        flows: state.flows,
        prices: state.prices,
    }
}

// Where the search for a solution starts, with the halves of the arcs, and the flows of the windows' arcs at which no balance changes.
pub(crate) fn start_at<'a>(state: &'a State, halves: &'a Halves, windows: &'a [u64]) -> Start<'a> {
    Start {
        edges: &state.edges,
        halves,
        flows: &state.flows,
        prices: &state.prices,
        excess: &state.excess,
        windows,
    }
}

// Parties with these windows, whose names are all the same.
pub(crate) fn parties_of(alloc: Global, windows: &[Window]) -> Result<Vec<Party>, AllocError> {
    let mut parties = Vec::with_capacity(alloc, windows.len())?;
    if let Some(firm) = Name::of(b"F") {
        for window in windows {
            parties.push(Party {
                firm,
                spend: window.spend,
                room: window.room,
            })?;
        }
    }
    Ok(parties)
}

// Whether the arcs are those of claims among the parties.
fn are_among(parties: &[Party], claims: &[Edge]) -> bool
    ensures { IsTrue result ↔ All (IsClaimEdge (length parties.now)) claims.now }
{
    let many = parties.len();
    claims.iter().all(|claim| is_between(many, claim))
}

fn is_between(parties: usize, claim: &Edge) -> bool
    ensures { IsTrue result ↔ IsClaimEdge parties claim.now }
{
    if parties <= claim.tail || parties <= claim.head || claim.tail == claim.head {
        return false;
    }
    claim.capacity <= MOST_CLAIMS as u64 * MOST_AMOUNT && claim.reward <= MOST_WEIGHT
}

// Whether no balance can fall or rise by more than in a round.
fn are_within(parties: &[Party]) -> bool
    ensures spends { IsTrue result → All (λ f. f.spend ≤ MOST_WINDOW) parties.now }
    ensures rooms { IsTrue result → All (λ f. f.room ≤ MOST_WINDOW) parties.now }
{
    parties.iter().all(|party| party.spend <= MOST_WINDOW)
        && parties.iter().all(|party| party.room <= MOST_WINDOW)
}
