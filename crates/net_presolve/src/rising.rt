//! Prices that rise along the claims.
use crate::parts::Parts;
use crate::search::NONE;
use crate::unused::Unused;
use level_engine::schedule::{CENTS_BACK, NODES_FOR_PRICE};
use loose_places::{at, put, short};
use std::alloc::{AllocError, Global};

/// A price for each node at which no claim gains but those that lead back, where these have few of all cents, and the
/// prices rise to few where there are no windows.
///
/// Nodes stand in the order of a search into the depth, and a claim leads back to one that stands before. So a simplex that begins here,
/// where nothing is set off, has little to do. The ground's price is 0, in the middle of those of the parties where there are windows.
/// The only error is running out of memory.
pub fn risen(alloc: Global, net: &Unused, parts: &Parts) -> Result<Option<Vec<i32>>, AllocError> {
    if net.windows.iter().all(|&spend| spend == 0) {
        return prices_in_order(alloc, net, &parts.left);
    }
    let windows = vec![in alloc; 0u64; net.ground()]?;
    let shut = Unused {
        edges: net.edges,
        halves: net.halves,
        windows: &windows,
    };
    let parts = Parts::of(alloc, &shut)?;
    prices_in_order(alloc, &shut, &parts.left)
}

// The same by the order in which the nodes were left.
fn prices_in_order(
    alloc: Global,
    net: &Unused,
    left: &[u32],
) -> Result<Option<Vec<i32>>, AllocError> {
    let mut turns = vec![in alloc; NONE; left.len()]?;
    for (turn, &node) in left.iter().enumerate() {
        put(&mut turns, node as usize, short(turn));
    }
    if !few_lead_back(net, &turns) {
        return Ok(None);
    }
    let mut prices = vec![in alloc; 0i32; left.len()]?;
    for &node in left.iter().rev() {
        raise_behind(net, &turns, &mut prices, node as usize);
    }
    let most = highest(&prices);
    let open = !net.halves.around(net.ground()).is_empty();
    if !open && left.len() / NODES_FOR_PRICE < most.unsigned_abs() as usize {
        return Ok(None);
    }
    place_ground(&mut prices, if open { most / 2 } else { 0 });
    Ok(Some(prices))
}

// Whether few of all cents lead to nodes that were left later.
fn few_lead_back(net: &Unused, turns: &[u32]) -> bool {
    let (mut back, mut all) = (0u64, 0u64);
    for edge in net.edges.iter().take(net.claims()) {
        let cents = edge.capacity / 1_024;
        all = all.saturating_add(cents);
        if at(turns, edge.tail, 0) < at(turns, edge.head, 0) {
            back = back.saturating_add(cents);
        }
    }
    back < all / CENTS_BACK
}

// Raises the prices of the creditors of a node that were left before it, so far that its claims do not gain.
fn raise_behind(net: &Unused, turns: &[u32], prices: &mut [i32], node: usize) {
    let price = at(prices, node, 0);
    let turn = at(turns, node, 0);
    for half in net.halves.around(node) {
        let far = half.far() as usize;
        if half.code % 2 == 0 && at(turns, far, NONE) < turn {
            let least = price.saturating_add(half.reward());
            put(prices, far, least.max(at(prices, far, 0)));
        }
    }
}

fn highest(prices: &[i32]) -> i32 {
    let mut most = 0i32;
    for &price in prices {
        most = most.max(price);
    }
    most
}

// Lets the ground's price, which is 0, stand where another was. That of the ground is the last.
fn place_ground(prices: &mut [i32], middle: i32) {
    let parties = prices.len().saturating_sub(1);
    for price in prices.iter_mut() {
        *price = price.wrapping_sub(middle);
    }
    put(prices, parties, 0);
}
