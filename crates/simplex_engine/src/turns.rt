//! A solution from where the levels stand, or from where the rest was drained, by turns.
use crate::by_shares::seek_by_shares;
use crate::cold::whole_at_once;
use crate::draining::Drain;
use crate::simplex::Simplex;
use crate::start::{Solution, Start, answer, answer_if, cents, node_prices, square_of, work_of};
use spanning_tree::schedule::{DRAIN, DRAIN_BRIEF, DRAINED, FEW_HALVES, TURN, TURN_SQUARES, WARM};
use std::alloc::{AllocError, Global};

/// A solution from where the rest of the excess was drained, if one is found with little work.
///
/// Nothing is proved of it. The only error is running out of memory.
pub fn seek_drained(alloc: Global, start: &Start) -> Result<Option<Solution>, AllocError> {
    let drain = drain_for(alloc, start, DRAIN_BRIEF)?;
    if drain.is_over() {
        drained_within(alloc, start, &drain, work_of(start, DRAINED))
    } else {
        Ok(None)
    }
}

/// A solution from where the rest of the excess was drained, or else from where nothing is set off, if one is found in the first turn.
///
/// Nothing is proved of it. The only error is running out of memory.
pub fn seek_first(alloc: Global, start: &Start) -> Result<Option<Solution>, AllocError> {
    let drain = drain_for(alloc, start, DRAIN_BRIEF)?;
    if drain.is_over() {
        drained_within(alloc, start, &drain, first_turn(start))
    } else {
        drop(drain);
        whole_at_once(alloc, start)
    }
}

// A solution from where the drain ended, if one is found with so much work.
fn drained_within(
    alloc: Global,
    start: &Start,
    drain: &Drain,
    work: u64,
) -> Result<Option<Solution>, AllocError> {
    let prices = node_prices(alloc, start.prices)?;
    let mut drained = drained_simplex(alloc, start, drain, &prices)?;
    let over = drained.run(alloc, start.edges, start.halves, work);
    answer_if(alloc, start.edges, &drained, over)
}

/// A solution, if one is found in so many turns, each of twice as much work as the one before.
///
/// Nothing is proved of it. The only error is running out of memory.
pub fn seek_solution(
    alloc: Global,
    start: &Start,
    turns: u32,
) -> Result<Option<Solution>, AllocError> {
    if turns == 0 {
        return Ok(None);
    }
    let prices = node_prices(alloc, start.prices)?;
    let mut warm = warm_simplex(alloc, start, &prices)?;
    seek_warm(alloc, start, &mut warm, &prices, turns)
}

// Tries the warm simplex alone where arcs are few, and then both by turns.
fn seek_warm(
    alloc: Global,
    start: &Start,
    warm: &mut Simplex,
    prices: &[i32],
    turns: u32,
) -> Result<Option<Solution>, AllocError> {
    if warm.run(alloc, start.edges, start.halves, work_where_sparse(start))? {
        return answer(alloc, start.edges, warm);
    }
    let drain = drain_for(alloc, start, DRAIN_BRIEF)?;
    if drain.is_over() {
        seek_by_turns(alloc, start, &drain, warm, prices, turns)
    } else {
        drop(drain);
        seek_undrained(alloc, start, warm, prices, turns)
    }
}

// Seeks the whole at once, or by shares, and then from where a longer drain ends.
fn seek_undrained(
    alloc: Global,
    start: &Start,
    warm: &mut Simplex,
    prices: &[i32],
    turns: u32,
) -> Result<Option<Solution>, AllocError> {
    if let Some(whole) = whole_at_once(alloc, start)? {
        return Ok(Some(whole));
    }
    if let Some(found) = seek_by_shares(alloc, start)? {
        return Ok(Some(found));
    }
    let drain = drain_for(alloc, start, DRAIN)?;
    seek_by_turns(alloc, start, &drain, warm, prices, turns)
}

// Lets a simplex that begins where the drain ended and the warm one go on by turns.
fn seek_by_turns(
    alloc: Global,
    start: &Start,
    drain: &Drain,
    warm: &mut Simplex,
    prices: &[i32],
    turns: u32,
) -> Result<Option<Solution>, AllocError> {
    let mut drained = drained_simplex(alloc, start, drain, prices)?;
    by_turns(alloc, start, &mut drained, warm, turns)
}

// The work that the undrained simplex has first: none where there are not few halves.
fn work_where_sparse(start: &Start) -> u64 {
    if start.halves.len() / FEW_HALVES <= start.excess.len() {
        (start.halves.len() as u64).saturating_mul(WARM)
    } else {
        0
    }
}

// Lets the two go on by turns.
fn by_turns(
    alloc: Global,
    start: &Start,
    drained: &mut Simplex,
    warm: &mut Simplex,
    turns: u32,
) -> Result<Option<Solution>, AllocError> {
    let mut work = first_turn(start);
    for _ in 0..turns {
        if drained.run(alloc, start.edges, start.halves, work)? {
            return answer(alloc, start.edges, drained);
        }
        if warm.run(alloc, start.edges, start.halves, work)? {
            return answer(alloc, start.edges, warm);
        }
        work = work.saturating_mul(2);
    }
    Ok(None)
}

// The work of the first turn.
fn first_turn(start: &Start) -> u64 {
    let square = square_of(start).saturating_mul(TURN_SQUARES);
    square.saturating_add((start.halves.len() as u64).saturating_mul(TURN))
}

// A simplex that begins at the prices of the start.
fn warm_simplex(alloc: Global, start: &Start, prices: &[i32]) -> Result<Simplex, AllocError> {
    let flows = Vec::from_slice(alloc, start.flows)?;
    let excess = cents(alloc, start.excess)?;
    charged_simplex(alloc, start, flows, prices, excess)
}

// A simplex from these flows, prices and excesses, in which all excess is brought in at any cost.
fn charged_simplex(
    alloc: Global,
    start: &Start,
    flows: Vec<u64>,
    prices: &[i32],
    excess: Vec<i64>,
) -> Result<Simplex, AllocError> {
    let mut simplex = Simplex::new(alloc, start.edges, start.halves, flows, prices, excess)?;
    simplex.charge_fully(alloc)?;
    Ok(simplex)
}

// The start drained of its excess, with so much work for each half.
fn drain_for(alloc: Global, start: &Start, work: u64) -> Result<Drain, AllocError> {
    let excess = cents(alloc, start.excess)?;
    let mut drain = Drain::new(alloc, start.flows, excess, start.windows)?;
    let most = (start.halves.len() as u64).saturating_mul(work);
    drain.run(alloc, start.halves, most)?;
    Ok(drain)
}

// A simplex that starts from the start after the rest of the excess was drained.
fn drained_simplex(
    alloc: Global,
    start: &Start,
    drain: &Drain,
    prices: &[i32],
) -> Result<Simplex, AllocError> {
    let flows = Vec::from_slice(alloc, drain.flows())?;
    let excess = Vec::from_slice(alloc, drain.excess())?;
    charged_simplex(alloc, start, flows, prices, excess)
}
