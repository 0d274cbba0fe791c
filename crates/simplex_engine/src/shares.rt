//! A simplex whose arcs come by shares, those that hold most first.
use crate::ranking::largest_first;
use crate::simplex::Simplex;
use crate::start::{Start, cents, node_prices};
use loose_places::{at, narrow, put};
use spanning_tree::schedule::{CHARGE, SHARED_BLOCKS, SHARED_SQUARES, SHARES};
use spanning_tree::{Edge, Halves};
use std::alloc::{AllocError, Global};

// A simplex over arcs of its own: those of claims, and for each window one to the ground, for what the balance may rise by, and one from
// it, for what it may fall by. Pieces are the places of these, and stand in the order of the arcs. The first arcs are open: no other may
// enter. What is outside is how much excess there was, and how much was wanted, at the start.
//
// Where the largest arcs are at rest, a smaller one mostly holds less than any arc of the tree, so that it is filled at once, and the tree
// stays as it is. In any other order nearly each claim that a circle passes is filled and emptied many times.
//
// At first it costs nothing to leave excess outside, so that from where levels stand no arc is bad. The charge for it rises step by step,
// and at each step the shares come anew. If it were high from the beginning, excess would come in over any arcs, and nearly all of these
// would have to be turned back later.
pub(crate) struct Shares {
    edges: Vec<Edge>,
    pieces: Vec<u32>,
    halves: Halves,
    simplex: Simplex,
    open: usize,
    outside: u64,
}

// Written out, so that its lists are gone through in one proof, and not in that of each function that lets one go.
impl Drop for Shares {
    fn drop(self) {
        let Self {
            edges,
            pieces,
            halves,
            simplex,
            open,
            outside,
        } = self;
    }
}

// An arc that holds nothing.
const NO_EDGE: Edge = Edge {
    tail: 0,
    head: 0,
    capacity: 0,
    reward: 0,
};

impl Shares {
    // A simplex from a start. No arc is open.
    pub(crate) fn new(alloc: Global, start: &Start) -> Result<Shares, AllocError> {
        let amounts = amounts_of(alloc, start.edges, start.windows)?;
        let pieces = largest_first(alloc, &amounts)?;
        let parties = start.windows.len();
        let edges = edges_of(alloc, start.edges, parties, &amounts, &pieces)?;
        let halves = Halves::of(alloc, &edges, parties.saturating_add(1))?;
        let flows = flows_of(alloc, start.windows, start.flows, &pieces)?;
        let mut simplex = simplex_from(alloc, &edges, &halves, flows, start)?;
        simplex.open(0);
        Ok(Shares {
            edges,
            pieces,
            halves,
            simplex,
            open: 0,
            outside: all_outside(start.excess),
        })
    }

    // Opens the next share of the arcs, and fills of these what can be filled together. Where all are open, more is charged for what is
    // outside, and the first share comes again.
    fn go_on(&mut self, alloc: Global) -> Result<(), AllocError> {
        if self.edges.len() <= self.open {
            self.simplex.charge_more(alloc, CHARGE)?;
            self.open = 0;
        }
        let before = self.open;
        let share = (self.edges.len() / SHARES).saturating_add(1);
        self.open = before.saturating_add(share).min(self.edges.len());
        self.simplex.open(self.open);
        self.simplex.fill(alloc, &self.edges, before, self.open)
    }

    // Goes on until so much work is done for each arc, and for each `SHARED_SQUARES` of the square of the nodes. Whether all arcs are open,
    // none is bad any more, and nothing is outside.
    pub(crate) fn run(
        &mut self,
        alloc: Global,
        square: u64,
        work: u64,
    ) -> Result<bool, AllocError> {
        let all = (self.edges.len() as u64).saturating_add(square / SHARED_SQUARES);
        let most = all.saturating_mul(work);
        for _ in 0..u32::MAX {
            let work = most.saturating_sub(self.simplex.work());
            if work == 0 || !self.simplex.run(alloc, &self.edges, &self.halves, work)? {
                return Ok(false);
            }
            if self.edges.len() <= self.open && self.simplex.still_outside() == 0 {
                return Ok(true);
            }
            self.go_on(alloc)?;
        }
        Ok(false)
    }

    // Whether so many shares are open.
    pub(crate) fn are_open(&self, shares: usize) -> bool {
        (self.edges.len() / SHARES).saturating_mul(shares) < self.open
    }

    // Whether at most so many of a hundred cents are left of what was outside at the start.
    pub(crate) fn is_within(&self, most: u64) -> bool {
        self.simplex.still_outside() / most.max(1) <= self.outside / 100
    }

    // The flow of each arc of the net.
    pub(crate) fn flows(
        &self,
        alloc: Global,
        claims: usize,
        windows: &[u64],
    ) -> Result<Vec<u64>, AllocError> {
        let own = self.simplex.flows(alloc, &self.edges)?;
        let mut flows = vec![in alloc; 0u64; claims]?;
        for &flow in windows {
            flows.push(flow)?;
        }
        add_pieces(&mut flows, claims, &self.pieces, &own);
        Ok(flows)
    }

    // The price of each party.
    pub(crate) fn prices(&self, alloc: Global) -> Result<Vec<i64>, AllocError> {
        self.simplex.prices(alloc)
    }
}

// How many cents of excess and of want the nodes have.
fn all_outside(excess: &[i128]) -> u64 {
    let mut cents = 0u64;
    for &amount in excess {
        cents = cents.saturating_add(narrow(amount).unsigned_abs());
    }
    cents
}

// A simplex over these arcs, from the flow of each, and from the prices and the excess of a start.
fn simplex_from(
    alloc: Global,
    edges: &[Edge],
    halves: &Halves,
    flows: Vec<u64>,
    start: &Start,
) -> Result<Simplex, AllocError> {
    let prices = node_prices(alloc, start.prices)?;
    let excess = cents(alloc, start.excess)?;
    let mut simplex = Simplex::new(alloc, edges, halves, flows, &prices, excess)?;
    simplex.lengthen_runs(SHARED_BLOCKS);
    simplex.keep_worst();
    Ok(simplex)
}

// How much each piece holds: those of the claims, and then of each window by what the balance may rise and fall.
fn amounts_of(alloc: Global, edges: &[Edge], windows: &[u64]) -> Result<Vec<u64>, AllocError> {
    let claims = edges.len().saturating_sub(windows.len());
    let mut amounts = vec![in alloc; 0u64; edges.len().saturating_add(windows.len())]?;
    for (place, edge) in edges.iter().enumerate() {
        if place < claims {
            put(&mut amounts, place, edge.capacity);
        } else {
            let party = place.wrapping_sub(claims);
            let spend = at(windows, party, 0);
            let rise = place.wrapping_add(party);
            put(&mut amounts, rise, edge.capacity.saturating_sub(spend));
            put(&mut amounts, rise.wrapping_add(1), spend);
        }
    }
    Ok(amounts)
}

// The arcs of the pieces among so many parties, in the order of these.
fn edges_of(
    alloc: Global,
    edges: &[Edge],
    parties: usize,
    amounts: &[u64],
    pieces: &[u32],
) -> Result<Vec<Edge>, AllocError> {
    let claims = edges.len().saturating_sub(parties);
    let mut own = vec![in alloc; NO_EDGE; pieces.len()]?;
    for (number, &piece) in pieces.iter().enumerate() {
        let place = piece as usize;
        let edge = if place < claims {
            at(edges, place, NO_EDGE)
        } else {
            window_edge(place.wrapping_sub(claims), parties, at(amounts, place, 0))
        };
        put(&mut own, number, edge);
    }
    Ok(own)
}

// The flow of each piece, by those of the claims and of the windows' arcs.
fn flows_of(
    alloc: Global,
    windows: &[u64],
    flows: &[u64],
    pieces: &[u32],
) -> Result<Vec<u64>, AllocError> {
    let claims = flows.len().saturating_sub(windows.len());
    let mut own = vec![in alloc; 0u64; pieces.len()]?;
    for (number, &piece) in pieces.iter().enumerate() {
        let place = piece as usize;
        let flow = if place < claims {
            at(flows, place, 0)
        } else {
            window_flow(windows, flows, place.wrapping_sub(claims))
        };
        put(&mut own, number, flow);
    }
    Ok(own)
}

// The flow of a piece of a window: by how much the balance rises, or falls.
fn window_flow(windows: &[u64], flows: &[u64], place: usize) -> u64 {
    let party = place / 2;
    let claims = flows.len().wrapping_sub(windows.len());
    let flow = at(flows, claims.wrapping_add(party), 0);
    let still = at(windows, party, 0);
    if place % 2 == 0 {
        flow.saturating_sub(still)
    } else {
        still.saturating_sub(flow)
    }
}

// The arc of a piece of a window.
fn window_edge(place: usize, ground: usize, capacity: u64) -> Edge {
    let party = place / 2;
    let (tail, head) = if place % 2 == 0 {
        (party, ground)
    } else {
        (ground, party)
    };
    Edge {
        tail,
        head,
        capacity,
        reward: 0,
    }
}

// Adds the flows of the pieces to those where nothing is set off.
fn add_pieces(flows: &mut [u64], claims: usize, pieces: &[u32], own: &[u64]) {
    for (place, &piece) in pieces.iter().enumerate() {
        let flow = at(own, place, 0);
        let behind = (piece as usize).saturating_sub(claims);
        let arc = (piece as usize).min(claims.wrapping_add(behind / 2));
        let old = at(flows, arc, 0);
        let new = if behind % 2 == 0 {
            old.wrapping_add(flow)
        } else {
            old.wrapping_sub(flow)
        };
        put(flows, arc, new);
    }
}
