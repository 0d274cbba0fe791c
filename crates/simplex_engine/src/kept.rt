//! The worst arcs of a block, kept for the pivots to come.
//!
//! They are the candidate list of Mulvey, "Pivot strategies for primal-simplex network codes", Journal of the ACM 25(2), 1978. Where a
//! pivot takes much longer than the pricing of an arc, it gives better arcs for the same pricing.
use loose_places::{at, put};
use spanning_tree::schedule::KEPT;
use spanning_tree::{Arc, NO_ARC, Potentials};
use std::alloc::{AllocError, Global};

// A bad arc: its place, and how bad it was.
#[derive(Clone, Copy)]
pub(crate) struct Bad {
    pub(crate) place: usize,
    pub(crate) badness: i32,
}

pub(crate) const NONE_BAD: Bad = Bad {
    place: 0,
    badness: 0,
};

// The arcs, how many they are, and, where there is no room for more, the place here of the least bad one and how bad that is.
#[derive(Drop)]
pub(crate) struct Kept {
    arcs: Vec<Bad>,
    count: usize,
    least: usize,
    floor: i32,
}

impl Kept {
    pub(crate) fn new(alloc: Global) -> Result<Kept, AllocError> {
        Ok(Kept {
            arcs: vec![in alloc; NONE_BAD; KEPT]?,
            count: 0,
            least: 0,
            floor: 0,
        })
    }

    pub(crate) fn len(&self) -> usize {
        self.count
    }

    // Keeps the worst of the arcs from one place to before another, in place of all that were kept.
    pub(crate) fn keep(&mut self, arcs: &[Arc], potentials: &Potentials, first: usize, end: usize) {
        self.count = 0;
        self.floor = 0;
        for place in first..end {
            let badness = at(arcs, place, NO_ARC).badness(potentials);
            if self.floor < badness {
                self.add(Bad { place, badness });
            }
        }
    }

    // Adds an arc, in place of the least bad one where there is no room for more.
    fn add(&mut self, arc: Bad) {
        if self.count < KEPT {
            put(&mut self.arcs, self.count, arc);
            self.count = self.count.wrapping_add(1);
        } else {
            put(&mut self.arcs, self.least, arc);
        }
        if self.count == KEPT {
            self.find_least();
        }
    }

    // Finds the least bad of the arcs.
    fn find_least(&mut self) {
        self.floor = i32::MAX;
        for (place, arc) in self.arcs.iter().enumerate() {
            if arc.badness < self.floor {
                self.floor = arc.badness;
                self.least = place;
            }
        }
    }

    // Takes out the arc that is worst now, and those that are bad no longer.
    pub(crate) fn take_worst(&mut self, arcs: &[Arc], potentials: &Potentials) -> Bad {
        let mut worst = NONE_BAD;
        let mut from = 0usize;
        let mut left = 0usize;
        for place in 0..self.count {
            let arc = at(&self.arcs, place, NONE_BAD).place;
            let badness = at(arcs, arc, NO_ARC).badness(potentials);
            if 0 < badness {
                let bad = Bad {
                    place: arc,
                    badness,
                };
                put(&mut self.arcs, left, bad);
                if worst.badness < badness {
                    worst = bad;
                    from = left;
                }
                left = left.wrapping_add(1);
            }
        }
        self.count = left.saturating_sub(1);
        let last = at(&self.arcs, self.count, NONE_BAD);
        put(&mut self.arcs, from, last);
        worst
    }
}
