//! Series of claims taken as one arc each.
use crate::inner::{Inner, Window};
use crate::search::NONE;
use level_engine::Edge;
use level_engine::schedule::PARTIES_IN_SERIES;
use loose_places::{at, put, short};
use std::alloc::{AllocError, Global};

// Stands where a party has several claims on a side.
const SEVERAL: u32 = u32::MAX - 1;

const NO_EDGE: Edge = Edge {
    tail: 0,
    head: 0,
    capacity: 0,
    reward: 0,
};

/// A net whose series are one arc each. A series goes over parties with one claim that they owe, one that is owed to them, and no
/// window: the same is set off of all its claims. Its arc holds what the least of them does, and counts what they count together.
#[derive(Drop)]
pub struct Series {
    /// The windows of the parties that are left.
    pub windows: Vec<Window>,
    /// The arcs among them.
    pub claims: Vec<Edge>,
    nodes: Vec<u32>,
    firsts: Vec<u32>,
    circles: Vec<u32>,
    outs: Vec<u32>,
    ins: Vec<u32>,
}

impl Series {
    /// The net of the series of a net. None where too few of its parties are inside series. The only error is running out of
    /// memory, here and below.
    pub fn of(alloc: Global, net: &Inner) -> Result<Option<Series>, AllocError> {
        let parties = net.windows.len();
        let mut series = Series {
            windows: Vec::new(alloc),
            claims: Vec::new(alloc),
            nodes: Vec::new(alloc),
            firsts: Vec::new(alloc),
            circles: Vec::new(alloc),
            outs: vec![in alloc; NONE; parties]?,
            ins: vec![in alloc; NONE; parties]?,
        };
        note_all(&mut series.outs, &mut series.ins, &net.claims);
        let inside = keep_inside(&mut series.outs, &mut series.ins, &net.windows);
        if inside <= parties / PARTIES_IN_SERIES {
            return Ok(None);
        }
        let mut numbers = vec![in alloc; NONE; parties]?;
        series.add_all(net, &mut numbers)?;
        Ok(Some(series))
    }

    // Adds the parties that are not inside series, and the series.
    fn add_all(&mut self, net: &Inner, numbers: &mut [u32]) -> Result<(), AllocError> {
        self.add_parties(net, numbers)?;
        self.add_open(net, numbers)?;
        self.add_circles(net, numbers)
    }

    fn add_parties(&mut self, net: &Inner, numbers: &mut [u32]) -> Result<(), AllocError> {
        for (party, &window) in net.windows.iter().enumerate() {
            if at(&self.outs, party, NONE) == NONE {
                put(numbers, party, short(self.nodes.len()));
                self.nodes.push(short(party))?;
                self.windows.push(window)?;
            }
        }
        Ok(())
    }

    // Adds the series that begin at a party that is not inside one, and marks the parties on them.
    fn add_open(&mut self, net: &Inner, numbers: &mut [u32]) -> Result<(), AllocError> {
        for (place, claim) in net.claims.iter().enumerate() {
            if at(&self.outs, claim.tail, NONE) == NONE {
                let whole = whole_of(&self.outs, &net.claims, short(place), numbers);
                if whole.head == whole.tail {
                    self.circles.push(short(place))?;
                } else {
                    self.firsts.push(short(place))?;
                    self.claims.push(renumber_arc(whole, numbers))?;
                }
            }
        }
        Ok(())
    }

    // Adds the circles all of whose parties are inside them.
    fn add_circles(&mut self, net: &Inner, numbers: &mut [u32]) -> Result<(), AllocError> {
        for party in 0..net.windows.len() {
            let out = at(&self.outs, party, NONE);
            if at(numbers, party, 0) == NONE {
                let _whole = whole_of(&self.outs, &net.claims, out, numbers);
                put(numbers, party, SEVERAL);
                self.circles.push(out)?;
            }
        }
        Ok(())
    }

    /// The arcs: those of the claims, and then one from each party to the ground.
    pub fn edges(&self, alloc: Global) -> Result<Vec<Edge>, AllocError> {
        let mut edges = Vec::from_slice(alloc, &self.claims)?;
        for (party, window) in self.windows.iter().enumerate() {
            edges.push(Edge {
                tail: party,
                head: self.windows.len(),
                capacity: window.spend.saturating_add(window.room),
                reward: 0,
            })?;
        }
        Ok(edges)
    }

    /// The flow of each window's arc at which no balance changes.
    pub fn spends(&self, alloc: Global) -> Result<Vec<u64>, AllocError> {
        let mut spends = Vec::with_capacity(alloc, self.windows.len())?;
        for window in self.windows.iter() {
            spends.push(window.spend)?;
        }
        Ok(spends)
    }

    /// The flow of each arc of the net, the windows' behind those of claims, and the price of each party, by those of the net of series.
    pub fn spread(
        &self,
        alloc: Global,
        net: &Inner,
        flows: &[u64],
        prices: &[i64],
    ) -> Result<(Vec<u64>, Vec<i64>), AllocError> {
        let claims = net.claims.len();
        let arcs = claims.saturating_add(net.windows.len());
        let mut spread = Spread {
            flows: vec![in alloc; 0u64; arcs]?,
            prices: vec![in alloc; 0i64; net.windows.len()]?,
            marks: vec![in alloc; 0u32; net.windows.len()]?,
        };
        self.set_parties(&mut spread, claims, flows, prices);
        for (place, &first) in self.firsts.iter().enumerate() {
            self.set_series(&mut spread, net, first, at(flows, place, 0));
        }
        for &first in self.circles.iter() {
            self.set_series(&mut spread, net, first, u64::MAX);
        }
        Ok((spread.flows, spread.prices))
    }

    // Sets the prices and the windows' flows of the parties that are left.
    fn set_parties(&self, spread: &mut Spread, claims: usize, flows: &[u64], prices: &[i64]) {
        for (place, &party) in self.nodes.iter().enumerate() {
            put(&mut spread.prices, party as usize, at(prices, place, 0));
            let flow = at(flows, self.claims.len().wrapping_add(place), 0);
            put(&mut spread.flows, claims.wrapping_add(party as usize), flow);
        }
    }

    // Sets the flows of a series, at most what it holds, and its prices: all that it gains is at the first claim that holds the least.
    fn set_series(&self, spread: &mut Spread, net: &Inner, first: u32, flow: u64) {
        let whole = whole_of(&self.outs, &net.claims, first, &mut spread.marks);
        let mut here = first;
        for _ in 0..net.claims.len() {
            let claim = edge_at(&net.claims, here as usize);
            put(&mut spread.flows, here as usize, flow.min(whole.capacity));
            if claim.head == whole.head {
                break;
            }
            here = at(&self.outs, claim.head, NONE);
        }
        self.price_from(spread, net, first, whole);
        self.price_back(spread, net, here, whole);
    }

    // Sets the prices up to the first claim that holds the least.
    fn price_from(&self, spread: &mut Spread, net: &Inner, first: u32, whole: Edge) {
        let mut here = first;
        for _ in 0..net.claims.len() {
            let claim = edge_at(&net.claims, here as usize);
            if claim.capacity == whole.capacity {
                return;
            }
            let price = at(&spread.prices, claim.tail, 0).wrapping_add(i64::from(claim.reward));
            put(&mut spread.prices, claim.head, price);
            here = at(&self.outs, claim.head, NONE);
        }
    }

    // Sets the prices from the end back to the first claim that holds the least.
    fn price_back(&self, spread: &mut Spread, net: &Inner, last: u32, whole: Edge) {
        let mut least = last;
        let mut here = last;
        for _ in 0..net.claims.len() {
            let claim = edge_at(&net.claims, here as usize);
            if claim.capacity == whole.capacity {
                least = here;
            }
            if claim.tail == whole.tail {
                break;
            }
            here = at(&self.ins, claim.tail, NONE);
        }
        here = last;
        for _ in 0..net.claims.len() {
            if here == least {
                return;
            }
            let claim = edge_at(&net.claims, here as usize);
            let price = at(&spread.prices, claim.head, 0).wrapping_sub(i64::from(claim.reward));
            put(&mut spread.prices, claim.tail, price);
            here = at(&self.ins, claim.tail, NONE);
        }
    }
}

// The flows and prices of a net, and marks of its parties.
#[derive(Drop)]
struct Spread {
    flows: Vec<u64>,
    prices: Vec<i64>,
    marks: Vec<u32>,
}

// Notes the claim that each party owes and the one that it is owed, or that they are several.
fn note_all(outs: &mut [u32], ins: &mut [u32], claims: &[Edge]) {
    for (place, claim) in claims.iter().enumerate() {
        note(outs, claim.tail, place);
        note(ins, claim.head, place);
    }
}

fn note(notes: &mut [u32], party: usize, claim: usize) {
    let old = at(notes, party, NONE);
    let new = if old == NONE { short(claim) } else { SEVERAL };
    put(notes, party, new);
}

// Keeps the notes of the parties inside series alone. How many they are.
fn keep_inside(outs: &mut [u32], ins: &mut [u32], windows: &[Window]) -> usize {
    let mut inside = 0usize;
    for (party, window) in windows.iter().enumerate() {
        let open = window.spend != 0 || window.room != 0;
        if open || SEVERAL <= at(outs, party, NONE) || SEVERAL <= at(ins, party, NONE) {
            put(outs, party, NONE);
            put(ins, party, NONE);
        } else {
            inside = inside.wrapping_add(1);
        }
    }
    inside
}

// The arc of the series from a claim on. The parties inside it are marked.
fn whole_of(outs: &[u32], claims: &[Edge], first: u32, marks: &mut [u32]) -> Edge {
    let mut whole = edge_at(claims, first as usize);
    for _ in 0..claims.len() {
        let next = at(outs, whole.head, NONE);
        if next == NONE || whole.head == whole.tail {
            return whole;
        }
        put(marks, whole.head, SEVERAL);
        let claim = edge_at(claims, next as usize);
        whole = Edge {
            tail: whole.tail,
            head: claim.head,
            capacity: whole.capacity.min(claim.capacity),
            reward: whole.reward.saturating_add(claim.reward),
        };
    }
    whole
}

// The arc between the parties of these numbers.
fn renumber_arc(arc: Edge, numbers: &[u32]) -> Edge {
    Edge {
        tail: at(numbers, arc.tail, NONE) as usize,
        head: at(numbers, arc.head, NONE) as usize,
        capacity: arc.capacity,
        reward: arc.reward,
    }
}

// The arc at a place.
#[inline(always)]
fn edge_at(edges: &[Edge], place: usize) -> Edge {
    at(edges, place, NO_EDGE)
}
