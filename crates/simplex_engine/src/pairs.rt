//! What two firms owe each other, set off before any longer circle is sought.
use loose_places::{at, put};
use spanning_tree::{Edge, Half, Halves};
use std::alloc::{AllocError, Global};

// Stands where no claim is noted.
const NONE: u32 = u32::MAX;

// Sets off claims in pairs, each against one of the opposite direction between the same two parties, as far as the smaller one holds. How
// many such pairs there are.
pub(crate) fn set_off_pairs(
    alloc: Global,
    edges: &[Edge],
    halves: &Halves,
    parties: usize,
    flows: &mut [u64],
) -> Result<usize, AllocError> {
    let mut owed = vec![in alloc; NONE; parties]?;
    let mut pairs = 0usize;
    for party in 0..parties {
        for half in halves.around(party) {
            note(&mut owed, half);
        }
        for half in halves.around(party) {
            if set_off(edges, &owed, party, half, flows) {
                pairs = pairs.wrapping_add(1);
            }
        }
    }
    Ok(pairs)
}

// Notes at the creditor the claim of a half, where this stands at the debtor.
fn note(owed: &mut [u32], half: &Half) {
    if half.code % 2 == 0 {
        put(owed, half.far() as usize, half.code / 2);
    }
}

// Sets off what a party is owed over a half by one that stands before it, against the claim that was noted there. Whether the party owes
// that claim.
fn set_off(edges: &[Edge], owed: &[u32], party: usize, half: &Half, flows: &mut [u64]) -> bool {
    let debtor = half.far() as usize;
    let (one, other) = ((half.code / 2) as usize, at(owed, debtor, NONE) as usize);
    if half.code % 2 == 0 || party <= debtor || !goes_from(edges, other, party) {
        return false;
    }
    let amount = left_of(edges, flows, one).min(left_of(edges, flows, other));
    add(flows, one, amount);
    add(flows, other, amount);
    true
}

// Whether a party owes a claim.
fn goes_from(edges: &[Edge], claim: usize, party: usize) -> bool {
    match edges.get(claim) {
        Some(edge) => edge.tail == party,
        None => false,
    }
}

// How much of a claim is not set off.
fn left_of(edges: &[Edge], flows: &[u64], claim: usize) -> u64 {
    match edges.get(claim) {
        Some(edge) => edge.capacity.saturating_sub(at(flows, claim, 0)),
        None => 0,
    }
}

fn add(flows: &mut [u64], claim: usize, amount: u64) {
    let flow = at(flows, claim, 0);
    put(flows, claim, flow.wrapping_add(amount));
}
