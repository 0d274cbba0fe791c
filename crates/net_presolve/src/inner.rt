//! The claims inside parts as a net of their own.
use crate::laying::lay_parts;
use crate::parts::Parts;
use crate::search::NONE;
use crate::unused::Unused;
use level_engine::Edge;
use loose_places::{at, put, short};
use std::alloc::{AllocError, Global};

/// By how many cents a balance may fall and rise.
#[derive(Clone, Copy)]
pub struct Window {
    /// By how many it may fall.
    pub spend: u64,
    /// By how many it may rise.
    pub room: u64,
}

/// The claims inside parts, and the parties that they are between. Only those of the ground's part have windows.
#[derive(Drop)]
pub struct Inner {
    /// The windows of the parties.
    pub windows: Vec<Window>,
    /// The arcs of the claims.
    pub claims: Vec<Edge>,
    nodes: Vec<u32>,
    arcs: Vec<u32>,
}

impl Inner {
    /// The net inside the parts of a net. The only error is running out of memory, here and below.
    pub fn of(alloc: Global, net: &Unused, parts: &Parts) -> Result<Inner, AllocError> {
        let mut inner = Inner {
            windows: Vec::new(alloc),
            claims: Vec::new(alloc),
            nodes: Vec::new(alloc),
            arcs: Vec::new(alloc),
        };
        let mut numbers = vec![in alloc; NONE; net.ground()]?;
        inner.add_claims(net, parts, &mut numbers)?;
        inner.add_parties(net, parts, &mut numbers)?;
        renumber(&mut inner.claims, &numbers);
        Ok(inner)
    }

    // Adds the claims, and marks the parties that they are between.
    fn add_claims(
        &mut self,
        net: &Unused,
        parts: &Parts,
        numbers: &mut [u32],
    ) -> Result<(), AllocError> {
        for (arc, edge) in net.edges.iter().take(net.claims()).enumerate() {
            if 0 < edge.capacity && parts.hold(edge) {
                put(numbers, edge.tail, 0);
                put(numbers, edge.head, 0);
                self.claims.push(*edge)?;
                self.arcs.push(short(arc))?;
            }
        }
        Ok(())
    }

    // Adds the parties that are marked, and numbers them.
    fn add_parties(
        &mut self,
        net: &Unused,
        parts: &Parts,
        numbers: &mut [u32],
    ) -> Result<(), AllocError> {
        for party in 0..numbers.len() {
            if at(numbers, party, NONE) != NONE {
                put(numbers, party, short(self.nodes.len()));
                self.nodes.push(short(party))?;
                self.windows.push(window_in(net, parts, party))?;
            }
        }
        Ok(())
    }

    /// The flow of each arc of the whole net, by those of this one.
    pub fn flows(
        &self,
        alloc: Global,
        net: &Unused,
        parts: &Parts,
        inner: &[u64],
    ) -> Result<Vec<u64>, AllocError> {
        let mut flows = vec![in alloc; 0u64; net.claims()]?;
        for &flow in net.windows {
            flows.push(flow)?;
        }
        for (place, &arc) in self.arcs.iter().enumerate() {
            put(&mut flows, arc as usize, at(inner, place, 0));
        }
        for (place, &node) in self.nodes.iter().enumerate() {
            if parts.part(node as usize) == parts.part(net.ground()) {
                let arc = net.claims().wrapping_add(node as usize);
                let flow = at(inner, self.arcs.len().wrapping_add(place), 0);
                put(&mut flows, arc, flow);
            }
        }
        Ok(flows)
    }

    /// The price of each party of the whole net, by those of this one: the parts are laid behind one another, so that no half between
    /// two of them gains.
    pub fn prices(
        &self,
        alloc: Global,
        net: &Unused,
        parts: &Parts,
        inner: &[i64],
    ) -> Result<Vec<i64>, AllocError> {
        let mut own = vec![in alloc; 0i64; net.ground().saturating_add(1)]?;
        for (place, &node) in self.nodes.iter().enumerate() {
            put(&mut own, node as usize, at(inner, place, 0));
        }
        lay_parts(alloc, net, parts, &own)
    }
}

// The window that a party has in the inner net: none where its part is not the ground's.
fn window_in(net: &Unused, parts: &Parts, party: usize) -> Window {
    let arc = net.claims().wrapping_add(party);
    match net.edges.get(arc) {
        Some(edge) if parts.hold(edge) => {
            let spend = at(net.windows, party, 0);
            Window {
                spend,
                room: edge.capacity.saturating_sub(spend),
            }
        }
        _ => Window { spend: 0, room: 0 },
    }
}

// Lets the claims be between the parties of these numbers.
fn renumber(claims: &mut [Edge], numbers: &[u32]) {
    for claim in claims.iter_mut() {
        claim.tail = at(numbers, claim.tail, NONE) as usize;
        claim.head = at(numbers, claim.head, NONE) as usize;
    }
}
