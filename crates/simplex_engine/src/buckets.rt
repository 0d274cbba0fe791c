//! Nodes that wait, by their labels.
use loose_places::{at, put};
use std::alloc::{AllocError, Global};

// The first node that waits at each label, and the one after each, all from 1. A node waits at one label at a time.
#[derive(Drop)]
pub(crate) struct Buckets {
    first: Vec<u32>,
    after: Vec<u32>,
    top: usize,
}

impl Buckets {
    // Room for so many nodes and labels below a number.
    pub(crate) fn new(alloc: Global, nodes: usize, labels: usize) -> Result<Buckets, AllocError> {
        Ok(Buckets {
            first: vec![in alloc; 0u32; labels]?,
            after: vec![in alloc; 0u32; nodes]?,
            top: 0,
        })
    }

    // Lets a node wait as the first at its label. One that is too high does not wait.
    pub(crate) fn put(&mut self, node: u32, label: u32) {
        let place = label as usize;
        if self.first.len() <= place {
            return;
        }
        put(&mut self.after, node as usize, at(&self.first, place, 0));
        put(&mut self.first, place, node.wrapping_add(1));
        self.top = self.top.max(place);
    }

    // The first of the nodes that wait at the highest label.
    pub(crate) fn take(&mut self) -> Option<u32> {
        for _ in 0..self.first.len().saturating_add(1) {
            let first = at(&self.first, self.top, 0);
            if first != 0 {
                let node = first.wrapping_sub(1);
                let next = at(&self.after, node as usize, 0);
                put(&mut self.first, self.top, next);
                return Some(node);
            }
            if self.top == 0 {
                return None;
            }
            self.top = self.top.wrapping_sub(1);
        }
        None
    }
}
