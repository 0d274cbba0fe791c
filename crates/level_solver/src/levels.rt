//! Levels of prices.
ghost use Rattle.std.specs.Prelude.{◌<◌, ℕ, IfOk, OnOk, IsTrue, length, pos, ◌≤ℤ◌};
ghost use Rattle.flow_solver.specs.residual_state.specs.Excesses.{excess_of};
ghost use Rattle.flow_solver.specs.residual_state.specs.States.{IsState, StaysOn, surplus};
ghost use Rattle.flow_solver.specs.residual_state.specs.Carries.{IsNoWorse};

use flow_solver::{State, augment, carry_all, reprice, surplus_of};
use simplex_engine::Advice;
use simplex_engine::schedule::{
    FEW_HALVES, LEVELS, LEVELS_ASKED, LEVELS_ASKED_SOON, LEVELS_FEW, LEVELS_GAIN, LEVELS_WEIGHTED,
    SOME_HALVES,
};
use std::alloc::{AllocError, Global};

// Goes from one level of prices to the next while they get on, up to the last that is tried at first.
pub(crate) fn first_levels(
    alloc: Global,
    state: &mut State,
    advice: &mut Advice,
) -> Result<(), AllocError>
    requires { IsState state.old }
    ensures { OnOk result (IsNoWorse state.old state.new) }
{
    let halves = advice.halves().len();
    let most = most_levels(state, halves);
    let mut past = Vec::with_capacity(alloc, most)?;
    let asked = if halves / SOME_HALVES <= state.excess.len() {
        LEVELS_ASKED_SOON
    } else {
        LEVELS_ASKED
    };
    for _ in 0..most {
        let left = surplus_of(&state.excess);
        if left == 0 || is_stalled(&past, left, asked) {
            return Ok(());
        }
        past.push(left)?;
        advise(alloc, state, advice)?;
    }
    Ok(())
}

// How many levels are tried at first.
fn most_levels(state: &State, halves: usize) -> usize {
    if halves / FEW_HALVES <= state.excess.len() {
        return LEVELS_FEW;
    }
    for edge in &state.edges {
        if 1 < edge.reward {
            return LEVELS_WEIGHTED;
        }
    }
    LEVELS
}

// Whether levels get on no longer: too much is left of what was left at half the level.
fn is_stalled(past: &[u128], left: u128, asked: usize) -> bool {
    let level = past.len();
    if level < asked || level == 0 {
        return false;
    }
    let before = past[level / 2];
    before - before / LEVELS_GAIN < left
}

// Goes from one level of prices to the next, until no node has an excess above 0.
pub(crate) fn all_levels(
    alloc: Global,
    state: &mut State,
    advice: &mut Advice,
) -> Result<(), AllocError>
    requires { IsState state.old }
    ensures state { OnOk result (StaysOn state.old state.new) }
    ensures rest { OnOk result ((v : ℕ) → v < length state.new.excess.items → excess_of state.new.excess.items v ≤ℤ pos 0) }
{
    while level(alloc, state, advice)? {}
    Ok(())
}

// Moves excess at one level of prices. False where no node has an excess above 0.
fn level(alloc: Global, state: &mut State, advice: &mut Advice) -> Result<bool, AllocError>
    requires { IsState state.old }
    ensures state { OnOk result (StaysOn state.old state.new) }
    ensures falls { IfOk result (λ moved. IsTrue moved → surplus state.new.excess.items < surplus state.old.excess.items) }
    ensures rest { IfOk result (λ moved. (IsTrue moved → ⊥) →
        (v : ℕ) → v < length state.new.excess.items → excess_of state.new.excess.items v ≤ℤ pos 0) }
{
    let before = surplus_of(&state.excess);
    if before == 0 {
        return Ok(false);
    }
    advise(alloc, state, advice)?;
    if surplus_of(&state.excess) < before {
        return Ok(true);
    }
    augment(alloc, state)
}

// Raises prices and moves excess as the advice says.
fn advise(alloc: Global, state: &mut State, advice: &mut Advice) -> Result<(), AllocError>
    requires { IsState state.old }
    ensures { OnOk result (IsNoWorse state.old state.new) }
{
    let prices = advice.raise_prices(alloc, &state.flows, &state.prices, &state.excess)?;
    reprice(alloc, state, prices)?;
    let pushes = advice.pushes(&state.flows, &state.prices, &state.excess)?;
    carry_all(state, pushes);
    Ok(())
}
