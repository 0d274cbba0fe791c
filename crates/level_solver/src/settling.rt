//! A state brought to rest.
ghost use Rattle.std.specs.Prelude.{◌<◌, ℕ, OnOk, length, pos, ◌≤ℤ◌};
ghost use Rattle.flow_solver.specs.residual_state.specs.Excesses.{excess_of};
ghost use Rattle.flow_solver.specs.residual_state.specs.States.{IsState, StaysOn};

use crate::by_size::{take_by_shares, take_by_size};
use crate::inner_state::start_at;
use crate::levels::{all_levels, first_levels};
use crate::parting::take_parts;
use flow_solver::{State, adopt, surplus_of};
use simplex_engine::schedule::TURNS;
use simplex_engine::{Advice, Halves, Solution, seek_cold, seek_solution};
use std::alloc::{AllocError, Global};

/// Moves excess until no node of the state has any above 0: one level of prices after another, and the rest at once where levels
/// stall.
///
/// The state may be one on claims with weights as well. The only error is running out of memory.
pub fn settle(alloc: Global, state: &mut State) -> Result<(), AllocError>
    requires { IsState state.old }
    ensures state { OnOk result (StaysOn state.old state.new) }
    ensures rest { OnOk result ((v : ℕ) → v < length state.new.excess.items → excess_of state.new.excess.items v ≤ℤ pos 0) }
{
    settle_within(alloc, state, TURNS)
}

/// The same, where the rest is sought at once in at most so many turns, each of twice as much work as the one before.
///
/// Where it was not found, levels go on to the end. So any number will do.
pub fn settle_within(alloc: Global, state: &mut State, turns: u32) -> Result<(), AllocError>
    requires { IsState state.old }
    ensures state { OnOk result (StaysOn state.old state.new) }
    ensures rest { OnOk result ((v : ℕ) → v < length state.new.excess.items → excess_of state.new.excess.items v ≤ℤ pos 0) }
{
    let windows = window_flows(alloc, state)?;
    let halves = Halves::of(alloc, &state.edges, state.excess.len())?;
    take_parts(alloc, state, &halves, &windows, turns)?;
    settle_over(alloc, state, halves, &windows, turns)
}

// The same, where the parts of the net are not taken apart.
pub(crate) fn settle_whole(alloc: Global, state: &mut State, turns: u32) -> Result<(), AllocError>
    requires { IsState state.old }
    ensures state { OnOk result (StaysOn state.old state.new) }
{
    let windows = window_flows(alloc, state)?;
    let halves = Halves::of(alloc, &state.edges, state.excess.len())?;
    settle_over(alloc, state, halves, &windows, turns)
}

// Settles over the halves of the arcs, with the flows of the windows' arcs at which no balance changes.
fn settle_over(
    alloc: Global,
    state: &mut State,
    halves: Halves,
    windows: &[u64],
    turns: u32,
) -> Result<(), AllocError>
    requires { IsState state.old }
    ensures state { OnOk result (StaysOn state.old state.new) }
    ensures rest { OnOk result ((v : ℕ) → v < length state.new.excess.items → excess_of state.new.excess.items v ≤ℤ pos 0) }
{
    take_cold(alloc, state, &halves, windows, turns)?;
    let halves = levels_at_first(alloc, state, halves)?;
    take_by_size(alloc, state, &halves, windows, turns)?;
    take_solution(alloc, state, &halves, windows, turns)?;
    levels_to_the_end(alloc, state)
}

// Goes from one level of prices to the next while they get on. The halves of the arcs; the other lists of the advice make room.
fn levels_at_first(alloc: Global, state: &mut State, halves: Halves) -> Result<Halves, AllocError>
    requires { IsState state.old }
    ensures { OnOk result (StaysOn state.old state.new) }
{
    if surplus_of(&state.excess) == 0 {
        return Ok(halves);
    }
    let mut advice = Advice::over(alloc, halves, state.edges.len(), state.excess.len())?;
    first_levels(alloc, state, &mut advice)?;
    Ok(advice.into_halves())
}

// Takes a whole solution that is found from where nothing is set off, by all claims or by shares, where any excess is left and there are
// turns.
fn take_cold(
    alloc: Global,
    state: &mut State,
    halves: &Halves,
    windows: &[u64],
    turns: u32,
) -> Result<(), AllocError>
    requires { IsState state.old }
    ensures { OnOk result (StaysOn state.old state.new) }
{
    if turns == 0 || surplus_of(&state.excess) == 0 {
        return Ok(());
    }
    let found = find_cold(alloc, state, halves, windows)?;
    take_found(alloc, state, found)?;
    take_by_shares(alloc, state, halves, windows)
}

// Goes from one level of prices to the next until no node has an excess above 0.
fn levels_to_the_end(alloc: Global, state: &mut State) -> Result<(), AllocError>
    requires { IsState state.old }
    ensures state { OnOk result (StaysOn state.old state.new) }
    ensures rest { OnOk result ((v : ℕ) → v < length state.new.excess.items → excess_of state.new.excess.items v ≤ℤ pos 0) }
{
    if surplus_of(&state.excess) == 0 {
        return Ok(());
    }
    let mut advice = Advice::new(alloc, &state.edges, state.excess.len())?;
    all_levels(alloc, state, &mut advice)
}

// The flow of each window's arc.
fn window_flows(alloc: Global, state: &State) -> Result<Vec<u64>, AllocError> {
    let parties = state.prices.len();
    if state.flows.len() < parties {
        return Ok(Vec::new(alloc));
    }
    Vec::from_slice(alloc, &state.flows[state.flows.len() - parties..])
}

// Takes a whole solution, where any excess is left and one is found.
fn take_solution(
    alloc: Global,
    state: &mut State,
    halves: &Halves,
    windows: &[u64],
    turns: u32,
) -> Result<(), AllocError>
    requires { IsState state.old }
    ensures { OnOk result (StaysOn state.old state.new) }
{
    if surplus_of(&state.excess) == 0 {
        return Ok(());
    }
    let found = find_solution(alloc, state, halves, windows, turns)?;
    take_found(alloc, state, found)
}

// Takes a whole solution, where one was found that proves.
pub(crate) fn take_found(
    alloc: Global,
    state: &mut State,
    found: Option<Solution>,
) -> Result<(), AllocError>
    requires { IsState state.old }
    ensures { OnOk result (StaysOn state.old state.new) }
{
    if let Some(Solution { flows, prices }) = found {
        let _taken = adopt(alloc, state, flows, prices)?;
    }
    Ok(())
}

// A whole solution, if it is found in so many turns.
fn find_solution(
    alloc: Global,
    state: &State,
    halves: &Halves,
    windows: &[u64],
    turns: u32,
) -> Result<Option<Solution>, AllocError> {
    seek_solution(alloc, &start_at(state, halves, windows), turns)
}

// A whole solution, if it is found from where nothing is set off.
fn find_cold(
    alloc: Global,
    state: &State,
    halves: &Halves,
    windows: &[u64],
) -> Result<Option<Solution>, AllocError> {
    seek_cold(alloc, &start_at(state, halves, windows))
}
