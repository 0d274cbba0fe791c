//! The search for parts.
use crate::unused::Unused;
use loose_places::{at, put, short};
use std::alloc::{AllocError, Global};

// Stands where there is no node and no part.
pub(crate) const NONE: u32 = u32::MAX;

// For each node when it was met, from 1 on, the earliest of those that are reached from it and have no part yet, the next of its
// halves, and the node that it was met from; the nodes that have no part yet; for each node its part, the nodes part by part, and the
// nodes as they were left.
#[derive(Drop)]
pub(crate) struct Search {
    met: Vec<u32>,
    earliest: Vec<u32>,
    next: Vec<u32>,
    before: Vec<u32>,
    open: Vec<u32>,
    height: usize,
    here: u32,
    count: u32,
    pub(crate) of: Vec<u32>,
    pub(crate) order: Vec<u32>,
    ordered: usize,
    pub(crate) left: Vec<u32>,
    many_left: usize,
    pub(crate) parts: u32,
}

impl Search {
    pub(crate) fn new(alloc: Global, nodes: usize) -> Result<Search, AllocError> {
        Ok(Search {
            met: vec![in alloc; 0u32; nodes]?,
            earliest: vec![in alloc; 0u32; nodes]?,
            next: vec![in alloc; 0u32; nodes]?,
            before: vec![in alloc; NONE; nodes]?,
            open: vec![in alloc; 0u32; nodes]?,
            height: 0,
            here: NONE,
            count: 0,
            of: vec![in alloc; NONE; nodes]?,
            order: vec![in alloc; 0u32; nodes]?,
            ordered: 0,
            left: vec![in alloc; 0u32; nodes]?,
            many_left: 0,
            parts: 0,
        })
    }

    // Finds the part of each node.
    pub(crate) fn run(&mut self, net: &Unused) {
        for node in 0..self.met.len() {
            if at(&self.met, node, 1) == 0 {
                self.meet(net, short(node), NONE);
                self.go(net);
            }
        }
    }

    // Goes on until it has left the node that it began at.
    fn go(&mut self, net: &Unused) {
        for _ in 0..u32::MAX {
            if self.here == NONE {
                return;
            }
            self.step(net);
        }
    }

    // Goes over the next half of the node that leads to one that was not met yet, or back where there is none.
    fn step(&mut self, net: &Unused) {
        let node = self.here as usize;
        let mut earliest = u32::MAX;
        for place in at(&self.next, node, 0)..net.halves.first(node.wrapping_add(1)) {
            let half = net.halves.half(place);
            if !net.passes(half) {
                continue;
            }
            let far = half.far();
            let met = at(&self.met, far as usize, 0);
            if met == 0 {
                put(&mut self.next, node, place.wrapping_add(1));
                self.reach(node, earliest);
                self.meet(net, far, self.here);
                return;
            }
            if at(&self.of, far as usize, 0) == NONE {
                earliest = earliest.min(met);
            }
        }
        self.reach(node, earliest);
        self.leave();
    }

    // Goes to a node that was not met yet.
    fn meet(&mut self, net: &Unused, node: u32, before: u32) {
        let place = node as usize;
        self.count = self.count.wrapping_add(1);
        put(&mut self.met, place, self.count);
        put(&mut self.earliest, place, self.count);
        put(&mut self.next, place, net.halves.first(place));
        put(&mut self.before, place, before);
        put(&mut self.open, self.height, node);
        self.height = self.height.wrapping_add(1);
        self.here = node;
    }

    // From a node one is reached that was met then.
    fn reach(&mut self, node: usize, met: u32) {
        let earliest = at(&self.earliest, node, 0).min(met);
        put(&mut self.earliest, node, earliest);
    }

    // Goes back. Where no earlier node is reached, the nodes from this one on are a part.
    fn leave(&mut self) {
        let node = self.here;
        put(&mut self.left, self.many_left, node);
        self.many_left = self.many_left.wrapping_add(1);
        let earliest = at(&self.earliest, node as usize, 0);
        if earliest == at(&self.met, node as usize, 0) {
            self.close(node);
        }
        self.here = at(&self.before, node as usize, NONE);
        self.reach(self.here as usize, earliest);
    }

    // Makes a part of the nodes that have none, from one on.
    fn close(&mut self, first: u32) {
        for _ in 0..self.met.len() {
            self.height = self.height.wrapping_sub(1);
            let node = at(&self.open, self.height, first);
            put(&mut self.of, node as usize, self.parts);
            put(&mut self.order, self.ordered, node);
            self.ordered = self.ordered.wrapping_add(1);
            if node == first {
                break;
            }
        }
        self.parts = self.parts.wrapping_add(1);
    }
}
