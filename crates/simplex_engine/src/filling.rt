//! Bad arcs that are filled together.
use loose_places::{at, put, short};
use spanning_tree::schedule::{FILLED_IN_VAIN, FILLED_LEAST, FILLED_PART};
use spanning_tree::{Arc, Edge, NO_ARC, Tree};
use std::alloc::{AllocError, Global};

// The bad arcs that are left, the nodes of the tree in order, what comes to each of them, and how much work was done.
//
// An arc that holds less than its circle lets through is filled, or emptied, and the tree stays as it is. Where many are such, one way
// over the tree does for all of them, in place of a way round for each. The potentials stay, so the others are still bad behind it.
#[derive(Drop)]
pub(crate) struct Filling {
    bad: Vec<u32>,
    order: Vec<u16>,
    amounts: Vec<i64>,
    pub(crate) work: u64,
}

impl Filling {
    // The bad arcs from one place to before another.
    pub(crate) fn new(
        alloc: Global,
        arcs: &[Arc],
        tree: &mut Tree,
        first: usize,
        end: usize,
    ) -> Result<Filling, AllocError> {
        let mut bad = Vec::new(alloc);
        for place in first..end {
            if 0 < at(arcs, place, NO_ARC).badness(&tree.potentials) {
                bad.push(short(place))?;
            }
        }
        let order = tree.in_order(alloc)?;
        let amounts = vec![in alloc; 0i64; order.len()]?;
        let work = end.saturating_sub(first).saturating_add(order.len()) as u64;
        Ok(Filling {
            bad,
            order,
            amounts,
            work,
        })
    }

    // Fills or empties them, those at the end first, as many at once as the tree lets through.
    #[inline(never)]
    pub(crate) fn run(&mut self, arcs: &mut [Arc], edges: &[Edge], tree: &mut Tree) {
        let mut many = self.bad.len();
        let mut in_vain = 0usize;
        for _ in 0..u32::MAX {
            if self.bad.is_empty() || FILLED_IN_VAIN <= in_vain {
                return;
            }
            many = many.min(self.bad.len());
            let from = self.bad.len().saturating_sub(many);
            if self.pass(arcs, edges, tree, from) {
                self.bad.truncate(from);
                many = many.saturating_mul(2);
                in_vain = 0;
            } else if FILLED_LEAST < many {
                many = (many / FILLED_PART).max(FILLED_LEAST);
            } else {
                self.bad.truncate(from);
                in_vain = in_vain.saturating_add(1);
            }
        }
    }

    // Fills or empties those from a place on, if the tree lets all of them through. Whether it did.
    fn pass(&mut self, arcs: &mut [Arc], edges: &[Edge], tree: &mut Tree, from: usize) -> bool {
        self.add_up(arcs, edges, from);
        if !tree.lets_through(&self.order, &mut self.amounts) {
            return false;
        }
        tree.move_all_up(&self.amounts);
        for place in from..self.bad.len() {
            let place = at(&self.bad, place, 0) as usize;
            let arc = at(arcs, place, NO_ARC);
            let side = arc.side.wrapping_neg();
            put(arcs, place, Arc { side, ..arc });
        }
        true
    }

    // Adds up what comes to each node over those from a place on.
    fn add_up(&mut self, arcs: &[Arc], edges: &[Edge], from: usize) {
        clear(&mut self.amounts);
        for place in from..self.bad.len() {
            let place = at(&self.bad, place, 0) as usize;
            let arc = at(arcs, place, NO_ARC);
            let (from, to) = if arc.side < 0 {
                (arc.head, arc.tail)
            } else {
                (arc.tail, arc.head)
            };
            let amount = cents_of(edges, place);
            add(&mut self.amounts, usize::from(to), amount);
            add(&mut self.amounts, usize::from(from), amount.wrapping_neg());
        }
        let arcs = self.bad.len().saturating_sub(from);
        let work = self.order.len().saturating_mul(2).saturating_add(arcs);
        self.work = self.work.saturating_add(work as u64);
    }
}

// How much the arc at a place holds.
fn cents_of(edges: &[Edge], place: usize) -> i64 {
    match edges.get(place) {
        Some(edge) => edge.capacity.min(i64::MAX as u64) as i64,
        None => 0,
    }
}

fn add(amounts: &mut [i64], place: usize, amount: i64) {
    let sum = at(amounts, place, 0).wrapping_add(amount);
    put(amounts, place, sum);
}

fn clear(amounts: &mut [i64]) {
    for amount in amounts.iter_mut() {
        *amount = 0;
    }
}
