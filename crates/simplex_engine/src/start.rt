//! Where a search starts, and what it finds.
use crate::simplex::Simplex;
use loose_places::{narrow, near, put};
use spanning_tree::schedule::WHOLE_SQUARES;
use spanning_tree::{Edge, Halves};
use std::alloc::{AllocError, Global};

/// A flow for each arc, and a price for each party.
#[derive(Drop)]
pub struct Solution {
    /// The flows, in cents.
    pub flows: Vec<u64>,
    /// The prices.
    pub prices: Vec<i64>,
}

/// Where the search for a solution starts, as a state has it.
#[derive(Clone, Copy)]
pub struct Start<'a> {
    /// The arcs: those of claims, and then one from each party to the ground.
    pub edges: &'a [Edge],
    /// The halves of the arcs.
    pub halves: &'a Halves,
    /// The flow of each arc in cents.
    pub flows: &'a [u64],
    /// The price of each party.
    pub prices: &'a [i64],
    /// The excess of each node in cents.
    pub excess: &'a [i128],
    /// The flows of the windows' arcs at which no balance changes.
    pub windows: &'a [u64],
}

// How many of the arcs are those of claims.
pub(crate) fn claims_of(start: &Start) -> usize {
    start.edges.len().saturating_sub(start.windows.len())
}

// The square of the nodes.
pub(crate) fn square_of(start: &Start) -> u64 {
    let nodes = start.excess.len() as u64;
    nodes.saturating_mul(nodes)
}

// So much work for each half, and a share of the square of the nodes.
pub(crate) fn work_of(start: &Start, each: u64) -> u64 {
    let work = (start.halves.len() as u64).saturating_mul(each);
    work.saturating_add(square_of(start) / WHOLE_SQUARES)
}

// The flow of each arc where nothing is set off, and no balance changes.
pub(crate) fn unused_flows(alloc: Global, start: &Start) -> Result<Vec<u64>, AllocError> {
    let mut flows = vec![in alloc; 0u64; claims_of(start)]?;
    for &flow in start.windows {
        flows.push(flow)?;
    }
    Ok(flows)
}

// The price of each node. That of the ground is 0.
pub(crate) fn node_prices(alloc: Global, prices: &[i64]) -> Result<Vec<i32>, AllocError> {
    let mut list = vec![in alloc; 0i32; prices.len().saturating_add(1)]?;
    for (place, &price) in prices.iter().enumerate() {
        put(&mut list, place, near(price));
    }
    Ok(list)
}

// The excess of each node, or the nearest number of the type.
pub(crate) fn cents(alloc: Global, excess: &[i128]) -> Result<Vec<i64>, AllocError> {
    let mut list = vec![in alloc; 0i64; excess.len()]?;
    for (place, &amount) in excess.iter().enumerate() {
        put(&mut list, place, narrow(amount));
    }
    Ok(list)
}

// The solution of a simplex, if it came to its end.
pub(crate) fn answer_if(
    alloc: Global,
    edges: &[Edge],
    simplex: &Simplex,
    over: Result<bool, AllocError>,
) -> Result<Option<Solution>, AllocError> {
    if over? {
        answer(alloc, edges, simplex)
    } else {
        Ok(None)
    }
}

pub(crate) fn answer(
    alloc: Global,
    edges: &[Edge],
    simplex: &Simplex,
) -> Result<Option<Solution>, AllocError> {
    let flows = simplex.flows(alloc, edges)?;
    let prices = simplex.prices(alloc)?;
    Ok(Some(Solution { flows, prices }))
}
