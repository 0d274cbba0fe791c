//! Nodes that are come to one after another.
use crate::paths::NOBODY;
use loose_places::{at, put};
use std::alloc::{AllocError, Global};

/// The nodes that were come to, in turn.
#[derive(Drop)]
pub struct Queue {
    nodes: Vec<u16>,
    count: usize,
}

impl Queue {
    /// An empty queue with room for so many nodes. The only error is running out of memory.
    pub fn new(alloc: Global, nodes: usize) -> Result<Queue, AllocError> {
        Ok(Queue {
            nodes: vec![in alloc; NOBODY; nodes]?,
            count: 0,
        })
    }

    /// How many were come to.
    pub fn len(&self) -> usize {
        self.count
    }

    /// The node at a place.
    pub fn node(&self, place: usize) -> u16 {
        at(&self.nodes, place, NOBODY)
    }

    /// Adds a node.
    pub fn add(&mut self, node: u16) {
        put(&mut self.nodes, self.count, node);
        self.count = self.count.wrapping_add(1);
    }
}
