//! The rest of the excess, moved back.
use crate::buckets::Buckets;
use loose_places::{at, put, short, small};
use spanning_tree::schedule::{DRAIN_LEFT, DRAIN_PART};
use spanning_tree::{Half, Halves, Queue};
use std::alloc::{AllocError, Global};

// The flow of each arc and the excess of each node, and the flows of the windows at which no balance changes.
//
// The method is push and relabel, over arcs that are only emptied: those of claims, and those of windows towards that flow. A label
// is how many arcs a node is from one that wants excess, or no more than that. The flows are sums of circles and of ways from want
// to excess, so there is always a way back.
pub(crate) struct Drain {
    flows: Vec<u64>,
    excess: Vec<i64>,
    windows: Vec<u64>,
    labels: Vec<u32>,
    jumps: Vec<u32>,
    next: Vec<u32>,
    buckets: Buckets,
    work: u64,
}

// Written out, so that its lists are gone through in one proof, and not in that of each function that lets one go.
impl Drop for Drain {
    fn drop(self) {
        let Self {
            flows,
            excess,
            windows,
            labels,
            jumps,
            next,
            buckets,
            work,
        } = self;
    }
}

impl Drain {
    pub(crate) fn new(
        alloc: Global,
        flows: &[u64],
        excess: Vec<i64>,
        windows: &[u64],
    ) -> Result<Drain, AllocError> {
        let nodes = excess.len();
        Ok(Drain {
            flows: Vec::from_slice(alloc, flows)?,
            excess,
            windows: Vec::from_slice(alloc, windows)?,
            labels: vec![in alloc; u32::MAX; nodes]?,
            jumps: vec![in alloc; 1u32; nodes]?,
            next: vec![in alloc; 0u32; nodes]?,
            buckets: Buckets::new(alloc, nodes, nodes.saturating_mul(4))?,
            work: 0,
        })
    }

    // Moves excess back until no node has any, or for so much work, or for a part of it where little is moved by that.
    #[inline(never)]
    pub(crate) fn run(
        &mut self,
        alloc: Global,
        halves: &Halves,
        most: u64,
    ) -> Result<(), AllocError> {
        self.label_all(alloc, halves)?;
        self.begin(halves);
        let enough = self.left() / 100 * DRAIN_LEFT;
        self.serve_nodes(halves, most / DRAIN_PART);
        if self.left() <= enough {
            self.serve_nodes(halves, most);
        }
        Ok(())
    }

    // Moves excess back until no node has any, or so much work is done.
    fn serve_nodes(&mut self, halves: &Halves, most: u64) {
        for _ in 0..u32::MAX {
            if most <= self.work {
                return;
            }
            let Some(node) = self.buckets.take() else {
                return;
            };
            self.serve(halves, node);
        }
    }

    // How many cents of excess are left.
    fn left(&self) -> u128 {
        let mut left = 0u128;
        for &amount in &self.excess {
            if 0 < amount {
                left = left.saturating_add(u128::from(amount.unsigned_abs()));
            }
        }
        left
    }

    // Whether no node has any excess.
    pub(crate) fn is_over(&self) -> bool {
        self.left() == 0
    }

    // The flow of each arc.
    pub(crate) fn flows(&self) -> &[u64] {
        &self.flows
    }

    // The excess of each node that is left.
    pub(crate) fn excess(&self) -> &[i64] {
        &self.excess
    }

    // Gives each node its label, by a search from those that want excess.
    fn label_all(&mut self, alloc: Global, halves: &Halves) -> Result<(), AllocError> {
        let mut order = Queue::new(alloc, self.labels.len())?;
        for (node, &excess) in self.excess.iter().enumerate() {
            if excess < 0 {
                put(&mut self.labels, node, 0);
                order.add(small(node));
            }
        }
        for place in 0..self.labels.len() {
            if order.len() <= place {
                break;
            }
            let node = order.node(place);
            self.label_around(&mut order, halves, node);
        }
        Ok(())
    }

    // Labels the nodes from which excess can be moved to a node.
    fn label_around(&mut self, order: &mut Queue, halves: &Halves, node: u16) {
        let node = usize::from(node);
        let label = at(&self.labels, node, 0).wrapping_add(1);
        for half in halves.around(node) {
            let far = half.far() as usize;
            if at(&self.labels, far, 0) == u32::MAX && 0 < self.room(half.code ^ 1) {
                put(&mut self.labels, far, label);
                order.add(small(far));
            }
        }
    }

    // Lets the nodes with an excess wait. One without a label has the number of nodes for it.
    fn begin(&mut self, halves: &Halves) {
        let far = short(self.labels.len());
        for node in 0..self.labels.len() {
            put(&mut self.next, node, halves.first(node));
            let label = at(&self.labels, node, 0).min(far);
            put(&mut self.labels, node, label);
            if 0 < at(&self.excess, node, 0) {
                self.buckets.put(short(node), label);
            }
        }
    }

    // How much excess can be moved back over a half.
    #[inline(always)]
    fn room(&self, code: u32) -> u64 {
        let arc = (code / 2) as usize;
        let flow = at(&self.flows, arc, 0);
        let claims = self.flows.len().wrapping_sub(self.windows.len());
        let ground = at(&self.windows, arc.wrapping_sub(claims), 0);
        if code % 2 == 0 {
            ground.saturating_sub(flow)
        } else {
            flow.saturating_sub(ground)
        }
    }

    // Moves the excess of a node to lower labels, and lets it wait at a higher one where some is left.
    fn serve(&mut self, halves: &Halves, node: u32) {
        let end = halves.first((node as usize).wrapping_add(1));
        for _ in 0..u32::MAX {
            let place = at(&self.next, node as usize, 0);
            if at(&self.excess, node as usize, 0) <= 0 {
                return;
            }
            if end <= place {
                self.relabel(halves, node);
                return;
            }
            self.move_over(halves.half(place), node);
            if 0 < at(&self.excess, node as usize, 0) {
                put(&mut self.next, node as usize, place.wrapping_add(1));
            }
            self.work = self.work.wrapping_add(1);
        }
    }

    // Moves what the node has over a half to a lower label.
    fn move_over(&mut self, half: Half, node: u32) {
        let (near, far) = (node as usize, half.far() as usize);
        if at(&self.labels, near, 0) <= at(&self.labels, far, 0) {
            return;
        }
        let own = at(&self.excess, near, 0);
        let amount = own.unsigned_abs().min(self.room(half.code));
        if amount == 0 {
            return;
        }
        let arc = (half.code / 2) as usize;
        let flow = at(&self.flows, arc, 0);
        let after = if half.code % 2 == 0 {
            flow.wrapping_add(amount)
        } else {
            flow.wrapping_sub(amount)
        };
        put(&mut self.flows, arc, after);
        let cents = amount.min(i64::MAX as u64) as i64;
        put(&mut self.excess, near, own.wrapping_sub(cents));
        let old = at(&self.excess, far, 0);
        let new = old.wrapping_add(cents);
        put(&mut self.excess, far, new);
        if old <= 0 && 0 < new {
            self.buckets.put(half.far(), at(&self.labels, far, 0));
        }
    }

    // Raises the label of a node above the least around it, by a jump that doubles, but not beyond the largest.
    fn relabel(&mut self, halves: &Halves, node: u32) {
        let (mut least, mut most) = (u32::MAX, 0u32);
        for half in halves.around(node as usize) {
            if 0 < self.room(half.code) {
                let label = at(&self.labels, half.far() as usize, 0);
                least = least.min(label);
                most = most.max(label);
            }
        }
        let place = node as usize;
        self.work = self.work.wrapping_add(halves.around(place).len() as u64);
        let jump = at(&self.jumps, place, 1);
        let jumped = at(&self.labels, place, 0).saturating_add(jump);
        let label = least
            .saturating_add(1)
            .max(jumped)
            .min(most.saturating_add(1));
        put(&mut self.labels, place, label);
        put(&mut self.jumps, place, jump.saturating_mul(2));
        put(&mut self.next, place, halves.first(place));
        if least < u32::MAX {
            self.buckets.put(node, label);
        }
    }
}
