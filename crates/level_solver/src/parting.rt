//! A state whose net is in parts.
ghost use Rattle.std.specs.Prelude.{OnOk};
ghost use Rattle.flow_solver.specs.residual_state.specs.States.{IsState, StaysOn};

use crate::inner_state::{parties_of, solution_of, start_at, state_of};
use crate::settling::{settle_whole, take_found};
use flow_solver::{State, surplus_of};
use net_presolve::{Inner, Parts, Series, Sizes, Unused, risen};
use setoff_model::Party;
use simplex_engine::schedule::{DENSE_HALVES, RISEN};
use simplex_engine::{Edge, Halves, Solution, seek_alone, seek_from};
use std::alloc::{AllocError, Global};

// Takes a whole solution that the shape of the net leads to, where it is not dense, any excess is left, and there are turns.
pub(crate) fn take_parts(
    alloc: Global,
    state: &mut State,
    halves: &Halves,
    windows: &[u64],
    turns: u32,
) -> Result<(), AllocError>
    requires { IsState state.old }
    ensures { OnOk result (StaysOn state.old state.new) }
{
    if turns == 0 || halves.len() / DENSE_HALVES > windows.len() || surplus_of(&state.excess) == 0 {
        return Ok(());
    }
    let found = find_in_parts(alloc, state, halves, windows, turns)?;
    take_found(alloc, state, found)
}

// A whole solution that is put together of those of the parts, where many claims are between parts, or else of series, or one from
// risen prices.
fn find_in_parts(
    alloc: Global,
    state: &State,
    halves: &Halves,
    windows: &[u64],
    turns: u32,
) -> Result<Option<Solution>, AllocError> {
    let net = Unused {
        edges: &state.edges,
        halves,
        windows,
    };
    let parts = Parts::of(alloc, &net)?;
    if parts.are_apart(&net) {
        return find_apart(alloc, &net, &parts, turns);
    }
    let in_series = find_in_series(alloc, &net, &parts)?;
    if in_series.is_some() {
        return Ok(in_series);
    }
    find_risen(alloc, state, &net, &parts)
}

// A whole solution by that of the series, where there are many.
fn find_in_series(
    alloc: Global,
    net: &Unused,
    parts: &Parts,
) -> Result<Option<Solution>, AllocError> {
    if !net.is_sparse() {
        return Ok(None);
    }
    let inner = Inner::of(alloc, net, parts)?;
    match solve_by_series(alloc, &inner)? {
        Some(found) => put_together(alloc, net, parts, &inner, &found),
        None => Ok(None),
    }
}

// A whole solution that a simplex finds from risen prices, where few claims lead back.
fn find_risen(
    alloc: Global,
    state: &State,
    net: &Unused,
    parts: &Parts,
) -> Result<Option<Solution>, AllocError> {
    let Some(prices) = risen(alloc, net, parts)? else {
        return Ok(None);
    };
    let work = if Sizes::of(net).are_many() {
        RISEN
    } else {
        u64::MAX
    };
    seek_from(
        alloc,
        &start_at(state, net.halves, net.windows),
        &prices,
        work,
    )
}

// A whole solution that is put together of those of the parts.
fn find_apart(
    alloc: Global,
    net: &Unused,
    parts: &Parts,
    turns: u32,
) -> Result<Option<Solution>, AllocError> {
    let inner = Inner::of(alloc, net, parts)?;
    match solve_inside(alloc, &inner, turns)? {
        Some(found) => put_together(alloc, net, parts, &inner, &found),
        None => Ok(None),
    }
}

// The whole solution of which this is the one inside the parts.
fn put_together(
    alloc: Global,
    net: &Unused,
    parts: &Parts,
    inner: &Inner,
    found: &Solution,
) -> Result<Option<Solution>, AllocError> {
    let flows = inner.flows(alloc, net, parts, &found.flows)?;
    let prices = inner.prices(alloc, net, parts, &found.prices)?;
    Ok(Some(Solution { flows, prices }))
}

// The solution inside the parts.
fn solve_inside(alloc: Global, inner: &Inner, turns: u32) -> Result<Option<Solution>, AllocError> {
    let by_series = solve_by_series(alloc, inner)?;
    if by_series.is_some() {
        return Ok(by_series);
    }
    let parties = parties_of(alloc, &inner.windows)?;
    let claims = Vec::from_slice(alloc, &inner.claims)?;
    solve_claims(alloc, &parties, claims, turns)
}

// The solution by that of the net of series, where there are many.
fn solve_by_series(alloc: Global, inner: &Inner) -> Result<Option<Solution>, AllocError> {
    match Series::of(alloc, inner)? {
        Some(series) => solve_over(alloc, inner, &series),
        None => Ok(None),
    }
}

fn solve_over(
    alloc: Global,
    inner: &Inner,
    series: &Series,
) -> Result<Option<Solution>, AllocError> {
    let spends = series.spends(alloc)?;
    if series.claims.is_empty() {
        let (flows, prices) = series.spread(alloc, inner, &spends, &[])?;
        return Ok(Some(Solution { flows, prices }));
    }
    let edges = series.edges(alloc)?;
    match seek_alone(alloc, &edges, &spends)? {
        Some(found) => {
            let (flows, prices) = series.spread(alloc, inner, &found.flows, &found.prices)?;
            Ok(Some(Solution { flows, prices }))
        }
        None => Ok(None),
    }
}

// The solution for claims among parties, where they are such.
fn solve_claims(
    alloc: Global,
    parties: &[Party],
    claims: Vec<Edge>,
    turns: u32,
) -> Result<Option<Solution>, AllocError> {
    let Some(mut state) = state_of(alloc, parties, claims)? else {
        return Ok(None);
    };
    settle_whole(alloc, &mut state, turns)?;
    Ok(Some(solution_of(state)))
}
