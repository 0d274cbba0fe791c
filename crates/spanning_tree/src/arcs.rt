//! The arcs as the simplex sees them.
use crate::potentials::Potentials;
use level_engine::Edge;
use loose_places::{at, small};
use std::alloc::{AllocError, Global};

/// An arc.
#[derive(Clone, Copy)]
pub struct Arc {
    /// The node that it goes from.
    pub tail: u16,
    /// The node that it goes to.
    pub head: u16,
    /// What a cent on it counts.
    pub reward: u16,
    /// The bound that its flow is at: 1 where it is empty and -1 where it is full. It is 0 in the tree, and where the arc holds nothing.
    pub side: i8,
    /// Whether it waits as a candidate.
    pub listed: bool,
}

/// An arc that holds nothing.
pub const NO_ARC: Arc = Arc {
    tail: 0,
    head: 0,
    reward: 0,
    side: 0,
    listed: false,
};

impl Arc {
    /// What a cent more on the arc gains at these potentials.
    #[inline(always)]
    pub fn gain(&self, potentials: &Potentials) -> i32 {
        let tail = potentials.of(self.tail);
        let head = potentials.of(self.head);
        i32::from(self.reward).wrapping_sub(tail).wrapping_add(head)
    }

    /// What a cent gains that leaves the bound. The arc is bad where this is above 0.
    #[inline(always)]
    pub fn badness(&self, potentials: &Potentials) -> i32 {
        self.gain(potentials).wrapping_mul(i32::from(self.side))
    }
}

/// The arcs with these flows. The only error is running out of memory.
pub fn arcs_of(alloc: Global, edges: &[Edge], flows: &[u64]) -> Result<Vec<Arc>, AllocError> {
    let mut arcs = Vec::with_capacity(alloc, edges.len())?;
    for (place, edge) in edges.iter().enumerate() {
        arcs.push(Arc {
            tail: small(edge.tail),
            head: small(edge.head),
            reward: small(edge.reward as usize),
            side: side_of(edge.capacity, at(flows, place, 0)),
            listed: false,
        })?;
    }
    Ok(arcs)
}

// The bound that a flow is at.
fn side_of(capacity: u64, flow: u64) -> i8 {
    if capacity == 0 {
        0
    } else if flow == 0 {
        1
    } else if flow == capacity {
        -1
    } else {
        0
    }
}
