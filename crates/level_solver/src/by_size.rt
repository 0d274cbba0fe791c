//! A whole solution to which claims come by their sizes.
ghost use Rattle.std.specs.Prelude.{OnOk};
ghost use Rattle.flow_solver.specs.residual_state.specs.States.{IsState, StaysOn};

use crate::inner_state::start_at;
use crate::settling::take_found;
use flow_solver::{State, surplus_of};
use net_presolve::{Sizes, Unused};
use simplex_engine::schedule::{FEW_HALVES, SHARES_HALVES, SPARSE_HALVES};
use simplex_engine::{
    Halves, Solution, seek_by_shares, seek_cold_by_shares, seek_drained, seek_first,
};
use std::alloc::{AllocError, Global};

// Takes a whole solution that is found where the levels stall, where any excess is left and there are turns.
pub(crate) fn take_by_size(
    alloc: Global,
    state: &mut State,
    halves: &Halves,
    windows: &[u64],
    turns: u32,
) -> Result<(), AllocError>
    requires { IsState state.old }
    ensures { OnOk result (StaysOn state.old state.new) }
{
    if turns == 0 || surplus_of(&state.excess) == 0 {
        return Ok(());
    }
    let found = find_by_size(alloc, state, halves, windows)?;
    take_found(alloc, state, found)
}

// Takes a whole solution that is found by shares from where nothing is set off, where any excess is left.
pub(crate) fn take_by_shares(
    alloc: Global,
    state: &mut State,
    halves: &Halves,
    windows: &[u64],
) -> Result<(), AllocError>
    requires { IsState state.old }
    ensures { OnOk result (StaysOn state.old state.new) }
{
    if surplus_of(&state.excess) == 0 {
        return Ok(());
    }
    let found = find_cold_by_shares(alloc, state, halves, windows)?;
    take_found(alloc, state, found)
}

// A whole solution by shares from where nothing is set off, where nodes have neither few halves nor many, and claims are of many sizes and
// most of them small.
fn find_cold_by_shares(
    alloc: Global,
    state: &State,
    halves: &Halves,
    windows: &[u64],
) -> Result<Option<Solution>, AllocError> {
    let (many, nodes) = (halves.len(), windows.len());
    if many / FEW_HALVES <= nodes || nodes < many / SHARES_HALVES {
        return Ok(None);
    }
    let net = Unused {
        edges: &state.edges,
        halves,
        windows,
    };
    let sizes = Sizes::of(&net);
    if sizes.are_many() && sizes.are_mostly_small() {
        seek_cold_by_shares(alloc, &start_at(state, halves, windows))
    } else {
        Ok(None)
    }
}

// A whole solution, where nodes have not few halves: one that a simplex finds soon, or else one by shares.
fn find_by_size(
    alloc: Global,
    state: &State,
    halves: &Halves,
    windows: &[u64],
) -> Result<Option<Solution>, AllocError> {
    if halves.len() / SPARSE_HALVES <= windows.len() {
        return Ok(None);
    }
    let start = start_at(state, halves, windows);
    let net = Unused {
        edges: &state.edges,
        halves,
        windows,
    };
    let soon = if Sizes::of(&net).are_mostly_alike() {
        seek_first(alloc, &start)?
    } else {
        seek_drained(alloc, &start)?
    };
    if soon.is_some() {
        return Ok(soon);
    }
    seek_by_shares(alloc, &start)
}
