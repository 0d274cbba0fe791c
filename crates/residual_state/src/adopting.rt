//! A whole solution put in place of the state's flows and prices.
ghost use Rattle.std.specs.Prelude.{◌≡◌, ◌<◌, ◌≤◌, ◌^◌, ◌↔◌, ℕ, ℤ, List, length, pos, slice_index, unsigned_abs, ◌≤ℤ◌, IsTrue, IfOk, OnOk};
ghost use Rattle.residual_state.specs.Excesses.{excess_of};
ghost use Rattle.residual_state.specs.Edges.{AreAmong, capacities};
ghost use Rattle.residual_state.specs.States.{IsState};
ghost use Rattle.residual_state.specs.Carries.{IsDrawn, IsNoWorse};
ghost use Rattle.residual_state.specs.Adoptions.{CanAdopt, IsAdopted, IsRebalanced};

use crate::edge::edge_at;
use crate::excess::change;
use crate::repricing::{are_near, draw_near, facts_are_kept};
use crate::state::State;
use residual_network::Edge;
use std::alloc::{AllocError, Global};

/// Takes the flows and the prices, as they are or squeezed, in place of the state's, where they are a solution. Whether it did.
///
/// They are one where each flow fits its arc, each arc keeps its facts at the prices, and no node has any excess. Else nothing is
/// changed. The only error is running out of memory.
#[inline(never)]
pub fn adopt(
    alloc: Global,
    state: &mut State,
    flows: Vec<u64>,
    prices: Vec<i64>,
) -> Result<bool, AllocError>
    requires { IsState state.old }
    ensures no_worse { OnOk result (IsNoWorse state.old state.new) }
    ensures rest { IfOk result (λ taken. IsTrue taken →
        (v : ℕ) → v < length state.new.excess.items → excess_of state.new.excess.items v ≤ℤ pos 0) }
    ensures adopted { IfOk result (λ taken.
        (q : List ℤ) × IsDrawn prices.items q × IsAdopted state.old flows.items q taken state.new) }
{
    let mut prices = prices;
    draw_near(alloc, &mut prices)?;
    let mut left = Vec::from_slice(alloc, &state.excess)?;
    if !is_solution(state, &flows, &prices, &mut left) {
        return Ok(false);
    }
    state.flows = flows;
    state.prices = prices;
    state.excess = left;
    Ok(true)
}

// Whether the flows and the prices are a solution. Of the list of excesses each is then 0.
fn is_solution(state: &State, flows: &[u64], prices: &[i64], left: &mut [i128]) -> bool
    requires state { IsState state.now }
    requires left { left.old ≡ state.now.excess.items }

    // Whether they can be adopted. No node has an excess left then.
    ensures solution { IsTrue result ↔ CanAdopt state.now flows.now prices.now }
    ensures one_each { length left.new ≡ length left.old }
    ensures zero { IsTrue result → (v : ℕ) → v < length left.new → excess_of left.new v ≡ pos 0 }
{
    if flows.len() != state.edges.len() || prices.len() != state.prices.len() {
        return false;
    }
    if (u32::MAX as usize) < flows.len() || !are_near(prices) {
        return false;
    }
    if !are_within(&state.edges, flows) || !facts_are_kept(&state.edges, flows, prices) {
        return false;
    }
    move_changes(left, &state.edges, &state.flows, flows);
    are_zero(left)
}

// Whether each flow is at most what its arc holds.
fn are_within(edges: &[Edge], flows: &[u64]) -> bool
    requires { length flows.now ≡ length edges.now }
    ensures { IsTrue result ↔
        ((a : ℕ) → a < length edges.now → slice_index flows.now a ≤ slice_index (capacities edges.now) a) }
{
    for arc in 0..edges.len() {
        if edge_at(edges, arc).capacity < flows[arc] {
            return false;
        }
    }
    true
}

// Moves between the ends of each arc what it has more, or less, than before.
fn move_changes(excess: &mut [i128], edges: &[Edge], before: &[u64], after: &[u64])
    requires among { AreAmong (length excess.old) edges.now }
    requires before { length before.now ≡ length edges.now }
    requires after { length after.now ≡ length edges.now }

    // There are few enough arcs, and the excesses are small enough, to be added up.
    requires few { length edges.now < 2 ^ 32 }
    requires small { (v : ℕ) → v < length excess.old → unsigned_abs (excess_of excess.old v) ≤ 2 ^ 100 }

    // Each excess is changed by what the arcs of its node have more or less than before.
    ensures { IsRebalanced edges.now before.now after.now excess.old excess.new (length edges.now) }
{
    for arc in 0..edges.len() {
        let edge = edge_at(edges, arc);
        let more = after[arc] as i128 - before[arc] as i128;
        change(excess, edge.tail, -more);
        change(excess, edge.head, more);
    }
}

// Whether no node has an excess, nor wants any.
fn are_zero(excess: &[i128]) -> bool
    ensures { IsTrue result ↔ ((v : ℕ) → v < length excess.now → excess_of excess.now v ≡ pos 0) }
{
    for node in 0..excess.len() {
        if excess[node] != 0 {
            return false;
        }
    }
    true
}
