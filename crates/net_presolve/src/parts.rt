//! The parts of a net.
use crate::search::{NONE, Search};
use crate::unused::Unused;
use level_engine::Edge;
use level_engine::schedule::CLAIMS_APART;
use loose_places::at;
use std::alloc::{AllocError, Global};

/// The part of each node, and the nodes part by part: flow between two parts can only be moved to one that stands before. And the nodes as
/// the search left them, so that few claims lead to one that was left later.
///
/// So a claim between two parts lies on no circle of the net, and nothing of it can be set off.
#[derive(Drop)]
pub struct Parts {
    of: Vec<u32>,
    pub(crate) order: Vec<u32>,
    pub(crate) left: Vec<u32>,
    count: usize,
}

impl Parts {
    /// The parts of a net. The only error is running out of memory.
    #[inline(never)]
    pub fn of(alloc: Global, net: &Unused) -> Result<Parts, AllocError> {
        let mut search = Search::new(alloc, net.ground().saturating_add(1))?;
        search.run(net);
        Ok(Parts {
            of: search.of,
            order: search.order,
            left: search.left,
            count: search.parts as usize,
        })
    }

    /// Whether many of the claims are between two parts.
    pub fn are_apart(&self, net: &Unused) -> bool {
        let mut between = 0usize;
        for edge in net.edges.iter().take(net.claims()) {
            if !self.hold(edge) {
                between = between.wrapping_add(1);
            }
        }
        net.claims() / CLAIMS_APART < between
    }

    // How many there are.
    pub(crate) fn count(&self) -> usize {
        self.count
    }

    // The part of a node.
    pub(crate) fn part(&self, node: usize) -> u32 {
        at(&self.of, node, NONE)
    }

    // Whether an arc is inside a part.
    pub(crate) fn hold(&self, edge: &Edge) -> bool {
        self.part(edge.tail) == self.part(edge.head)
    }
}
