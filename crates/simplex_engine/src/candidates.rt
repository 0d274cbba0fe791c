//! Which arc enters the tree.
use crate::kept::{Bad, Kept, NONE_BAD};
use loose_places::{at, put};
use spanning_tree::schedule::{AROUND, BLOCK, LOOKS, RUN};
use spanning_tree::{Arc, Halves, NO_ARC, Potentials, Tree};
use std::alloc::{AllocError, Global};

// Runs are looked at in an order that spreads over the net.
//
// Bad arcs that wait, those of a block that are kept, how long a run is, how many runs there are and are in a block, how far the round
// over all of them is, and how many arcs were priced in it and looked at besides.
#[derive(Drop)]
pub(crate) struct Candidates {
    list: Vec<u32>,
    kept: Kept,
    length: usize,
    run: usize,
    runs: usize,
    stride: usize,
    block: usize,
    idle: usize,
    priced: u64,
    looked: u64,
    looks: bool,
    keeps: bool,
    pub(crate) work: u64,
}

impl Candidates {
    pub(crate) fn new(alloc: Global, arcs: usize) -> Result<Candidates, AllocError> {
        let mut candidates = Candidates {
            list: Vec::with_capacity(alloc, arcs)?,
            kept: Kept::new(alloc)?,
            length: RUN,
            run: 0,
            runs: 0,
            stride: 1,
            block: (root_of(arcs) / BLOCK / RUN).max(1),
            idle: 0,
            priced: 0,
            looked: 0,
            looks: true,
            keeps: false,
            work: 0,
        };
        candidates.begin_round(arcs);
        Ok(candidates)
    }

    // Begins a round over all arcs, of which there are so many.
    fn begin_round(&mut self, arcs: usize) {
        self.run = 0;
        self.runs = (arcs / self.length.max(1)).saturating_add(1);
        self.stride = stride_over(self.runs);
    }

    // Lets arcs be sought among the first so many alone, and in a whole round before none is bad.
    pub(crate) fn open(&mut self, arcs: usize) {
        self.begin_round(arcs);
        self.idle = 0;
    }

    // Whether no arc was bad in a whole round.
    pub(crate) fn is_over(&self) -> bool {
        self.runs <= self.idle && self.list.is_empty() && self.kept.len() == 0
    }

    // A bad arc: of those that are kept, or of the next block, or of the last of the list where none is bad there, or of a block after
    // that, the worst. None where no arc is bad, or so much work is done.
    #[inline(never)]
    pub(crate) fn next(
        &mut self,
        arcs: &mut [Arc],
        potentials: &Potentials,
        most: u64,
    ) -> Option<usize> {
        for _ in 0..u32::MAX {
            if self.is_over() || most <= self.work {
                return None;
            }
            let worst = self.next_worst(arcs, potentials);
            if 0 < worst.badness {
                self.idle = 0;
                return Some(worst.place);
            }
        }
        None
    }

    // The worst of the arcs that are looked at next.
    fn next_worst(&mut self, arcs: &mut [Arc], potentials: &Potentials) -> Bad {
        if self.keeps {
            return self.worst_of_kept(arcs, potentials);
        }
        let worst = self.worst_of_block(arcs, potentials);
        if worst.badness == 0 {
            self.worst_of_list(arcs, potentials)
        } else {
            worst
        }
    }

    // The worst of those that are kept. Where none of them is bad, the worst of the next run are kept.
    fn worst_of_kept(&mut self, arcs: &[Arc], potentials: &Potentials) -> Bad {
        self.work = self.work.wrapping_add(self.kept.len() as u64);
        let worst = self.kept.take_worst(arcs, potentials);
        if worst.badness == 0 {
            let first = self.run.wrapping_mul(self.length);
            let end = first.saturating_add(self.length);
            self.kept.keep(arcs, potentials, first, end);
            self.go_on(1);
        }
        worst
    }

    // The worst arc of the next runs.
    fn worst_of_block(&mut self, arcs: &[Arc], potentials: &Potentials) -> Bad {
        let mut worst = NONE_BAD;
        let mut run = self.run;
        for _ in 0..self.block {
            let first = run.wrapping_mul(self.length);
            let end = first.saturating_add(self.length);
            worst = worst_of_run(arcs, potentials, first, end, worst);
            run = self.run_after(run);
        }
        self.go_on(self.block);
        worst
    }

    // The run that comes after another.
    fn run_after(&self, run: usize) -> usize {
        let next = run.wrapping_add(self.stride);
        if self.runs <= next {
            next.wrapping_sub(self.runs)
        } else {
            next
        }
    }

    // Goes on behind so many runs that were priced.
    fn go_on(&mut self, runs: usize) {
        for _ in 0..runs {
            self.run = self.run_after(self.run);
        }
        self.idle = self.idle.saturating_add(runs);
        let priced = runs.wrapping_mul(self.length) as u64;
        self.priced = self.priced.saturating_add(priced);
        self.work = self.work.saturating_add(priced);
    }

    // The worst of as many of the list, from its end. Those that are bad no longer leave it.
    fn worst_of_list(&mut self, arcs: &mut [Arc], potentials: &Potentials) -> Bad {
        let mut worst = NONE_BAD;
        let mut place = self.list.len();
        for _ in 0..self.block.wrapping_mul(self.length) {
            if place == 0 {
                return worst;
            }
            place = place.wrapping_sub(1);
            self.work = self.work.wrapping_add(1);
            let arc = at(&self.list, place, 0) as usize;
            let badness = at(arcs, arc, NO_ARC).badness(potentials);
            if worst.badness < badness {
                worst = Bad {
                    place: arc,
                    badness,
                };
            }
            if badness <= 0 {
                self.leave(arcs, place, arc);
            }
        }
        worst
    }

    // Takes the arc at a place off the list.
    fn leave(&mut self, arcs: &mut [Arc], place: usize, arc: usize) {
        let old = at(arcs, arc, NO_ARC);
        put(
            arcs,
            arc,
            Arc {
                listed: false,
                ..old
            },
        );
        let last = self.list.len().wrapping_sub(1);
        let moved = at(&self.list, last, 0);
        put(&mut self.list, place, moved);
        self.list.truncate(last);
    }

    // Lets bad arcs be found in blocks alone.
    pub(crate) fn stop_looking(&mut self) {
        self.looks = false;
    }

    // Lets each block be one run, as long as so many blocks were. There are so many arcs.
    pub(crate) fn lengthen_runs(&mut self, arcs: usize, blocks: usize) {
        self.length = self.block.wrapping_mul(self.length).wrapping_mul(blocks);
        self.block = 1;
        self.begin_round(arcs);
    }

    // Lets the worst arcs of a run be kept for the pivots to come. No arcs are listed besides.
    pub(crate) fn keep_worst(&mut self) {
        self.looks = false;
        self.keeps = true;
    }

    // At how many halves a look is taken at most: none where too many were looked at for what was priced.
    pub(crate) fn most_around(&self) -> u64 {
        if self.looks && self.looked / LOOKS <= self.priced {
            AROUND
        } else {
            0
        }
    }

    // Lists the bad arcs around some nodes, where no more than so many halves are there.
    pub(crate) fn look(
        &mut self,
        arcs: &mut [Arc],
        halves: &Halves,
        tree: &Tree,
        nodes: &[u16],
    ) -> Result<(), AllocError> {
        let mut around = 0u64;
        for &node in nodes {
            around = around.wrapping_add(halves.around(usize::from(tree.name(node))).len() as u64);
            if AROUND < around {
                return Ok(());
            }
        }
        self.looked = self.looked.saturating_add(around);
        self.work = self.work.saturating_add(around);
        for &node in nodes {
            self.look_at(arcs, halves, tree, node)?;
        }
        Ok(())
    }

    // Lists the bad arcs around a node.
    fn look_at(
        &mut self,
        arcs: &mut [Arc],
        halves: &Halves,
        tree: &Tree,
        node: u16,
    ) -> Result<(), AllocError> {
        for half in halves.around(usize::from(tree.name(node))) {
            let place = (half.code / 2) as usize;
            let arc = at(arcs, place, NO_ARC);
            if !arc.listed && 0 < arc.badness(&tree.potentials) {
                put(
                    arcs,
                    place,
                    Arc {
                        listed: true,
                        ..arc
                    },
                );
                self.list.push(half.code / 2)?;
            }
        }
        Ok(())
    }
}

// The worst of the arcs of a run and one found before.
#[inline(always)]
fn worst_of_run(
    arcs: &[Arc],
    potentials: &Potentials,
    first: usize,
    end: usize,
    before: Bad,
) -> Bad {
    let mut worst = before;
    for place in first..end {
        let badness = at(arcs, place, NO_ARC).badness(potentials);
        if worst.badness < badness {
            worst = Bad { place, badness };
        }
    }
    worst
}

// The least number whose square is no smaller. Arcs are fewer than 2^20.
fn root_of(number: usize) -> usize {
    for root in 0..1_024usize {
        if number <= root.wrapping_mul(root) {
            return root;
        }
    }
    1_024
}

// A step over so many runs, near their golden section, that comes to each.
fn stride_over(runs: usize) -> usize {
    let section = runs / 1_000 * 618 + runs % 1_000 * 618 / 1_000;
    for stride in section.max(1)..runs {
        if divisor(runs, stride) == 1 {
            return stride;
        }
    }
    1
}

// The greatest number that divides both.
fn divisor(one: usize, other: usize) -> usize {
    let (mut large, mut small) = (one, other);
    for _ in 0..128 {
        if small == 0 {
            return large;
        }
        (large, small) = (small, large % small);
    }
    1
}
