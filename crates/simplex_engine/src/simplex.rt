//! A network simplex.
use crate::candidates::Candidates;
use crate::filling::Filling;
use loose_places::{at, put, short, small};
use spanning_tree::schedule::NUMBERED;
use spanning_tree::{
    Arc, Branch, Circle, Edge, Halves, MUCH, NO_ARC, NOBODY, Room, Start, Tree, arcs_of, own_code,
    plant,
};
use std::alloc::{AllocError, Global};

// The arcs, the tree, the bad arcs, and what is still to be brought into the tree: arcs that were neither full nor empty at the
// start, and then arcs to the root that hold anything. What a cent on an arc to the root costs. And how many arcs have entered, and how
// much work was done in the tree since its nodes were numbered.
pub(crate) struct Simplex {
    arcs: Vec<Arc>,
    tree: Tree,
    candidates: Candidates,
    changed: Vec<u16>,
    flows: Vec<u64>,
    prices: Vec<i32>,
    excess: Vec<i64>,
    charge: i32,
    begun: usize,
    pivots: u64,
    moved: u64,
}

// Written out, so that its lists are gone through in one proof, and not in that of each function that lets one go.
impl Drop for Simplex {
    fn drop(self) {
        let Self {
            arcs,
            tree,
            candidates,
            changed,
            flows,
            prices,
            excess,
            charge,
            begun,
            pivots,
            moved,
        } = self;
    }
}

// An arc that enters the tree: the nodes that more is moved from and to over it, its half at the first, how much more and how much
// less can be moved, and what a cent gains.
#[derive(Clone, Copy)]
struct Entering {
    from: u16,
    to: u16,
    code: u32,
    room: u64,
    held: u64,
    gain: i32,
}

impl Simplex {
    // A simplex that starts from these flows, the price of each node, and the excess of each. What stays outside costs nothing.
    pub(crate) fn new(
        alloc: Global,
        edges: &[Edge],
        halves: &Halves,
        flows: Vec<u64>,
        prices: &[i32],
        excess: Vec<i64>,
    ) -> Result<Simplex, AllocError> {
        let mut excess = excess;
        let own_prices = Vec::from_slice(alloc, prices)?;
        let candidates = Candidates::new(alloc, edges.len())?;
        let mut arcs = arcs_of(alloc, edges, &flows)?;
        let start = Start {
            halves,
            flows: &flows,
            prices,
        };
        let tree = plant(alloc, &mut arcs, &start, &mut excess)?;
        Ok(Simplex {
            arcs,
            tree,
            candidates,
            changed: Vec::new(alloc),
            flows,
            prices: own_prices,
            excess,
            charge: 0,
            begun: 0,
            pivots: 0,
            moved: 0,
        })
    }

    // Charges more than any path of arcs counts for each cent that stays outside.
    pub(crate) fn charge_fully(&mut self, alloc: Global) -> Result<(), AllocError> {
        let nodes = i32::from(small(self.excess.len()));
        self.charge_more(alloc, nodes.wrapping_mul(4).wrapping_add(8))
    }

    // Charges so many times more for each cent that stays outside what a cent on an arc counts at most. Seen from the root, the parts that
    // have excess fall by as much, and those that want it rise.
    pub(crate) fn charge_more(&mut self, alloc: Global, times: i32) -> Result<(), AllocError> {
        let more = times.wrapping_mul(most_reward(&self.arcs));
        self.charge = self.charge.wrapping_add(more);
        let root = self.tree.root();
        let mut rise = more;
        for &node in &self.tree.in_order(alloc)? {
            let own = self.tree.node(node);
            if own.parent == root {
                rise = if own.code % 2 == 1 {
                    more.wrapping_mul(2)
                } else {
                    0
                };
            }
            let before = self.tree.potential(node);
            self.tree.potentials.set(node, before.wrapping_add(rise));
        }
        Ok(())
    }

    // Lets the arcs around changed potentials not be looked at.
    pub(crate) fn stop_looking(&mut self) {
        self.candidates.stop_looking();
    }

    // Lets more arcs that stand together be priced at once, which takes fewer reads from afar: those of so many blocks.
    pub(crate) fn lengthen_runs(&mut self, blocks: usize) {
        self.candidates.lengthen_runs(self.arcs.len(), blocks);
    }

    // Lets the worst arcs of those that were priced together be kept for the pivots to come.
    pub(crate) fn keep_worst(&mut self) {
        self.candidates.keep_worst();
    }

    // Lets only the first so many arcs enter.
    pub(crate) fn open(&mut self, arcs: usize) {
        self.candidates.open(arcs);
    }

    // Fills or empties many bad arcs at once, of those from one place to before another, where the tree lets them through.
    pub(crate) fn fill(
        &mut self,
        alloc: Global,
        edges: &[Edge],
        first: usize,
        end: usize,
    ) -> Result<(), AllocError> {
        let mut filling = Filling::new(alloc, &self.arcs, &mut self.tree, first, end)?;
        filling.run(&mut self.arcs, edges, &mut self.tree);
        self.candidates.work = self.candidates.work.saturating_add(filling.work);
        Ok(())
    }

    // How many cents of the excess that the tree has taken are still on arcs to the root.
    pub(crate) fn still_outside(&self) -> u64 {
        let root = self.tree.root();
        let mut cents = 0u64;
        for node in 0..self.excess.len() {
            if self.tree.node(small(node)).parent == root {
                let room = self.tree.room(small(node));
                cents = cents.saturating_add(room.up.min(room.down));
            }
        }
        cents
    }

    // How much work was done.
    pub(crate) fn work(&self) -> u64 {
        self.candidates.work
    }

    // Goes on for so much work. Whether no arc is bad any more.
    pub(crate) fn run(
        &mut self,
        alloc: Global,
        edges: &[Edge],
        halves: &Halves,
        work: u64,
    ) -> Result<bool, AllocError> {
        let is_over = self.go_on(alloc, edges, halves, work);
        self.tree.settle();
        is_over
    }

    #[inline(never)]
    fn go_on(
        &mut self,
        alloc: Global,
        edges: &[Edge],
        halves: &Halves,
        work: u64,
    ) -> Result<bool, AllocError> {
        let most = self.candidates.work.saturating_add(work);
        for _ in 0..u32::MAX {
            if most <= self.candidates.work {
                return Ok(false);
            }
            let Some(entering) = self.next_entering(edges, most) else {
                return Ok(self.candidates.is_over());
            };
            self.pivot(halves, entering)?;
            if self.has_begun() && self.is_scattered() {
                self.renumber(alloc)?;
            }
        }
        Ok(false)
    }

    // Whether all that the tree left out at the start was brought in.
    fn has_begun(&self) -> bool {
        self.arcs.len().saturating_add(self.excess.len()) <= self.begun
    }

    // Whether the tree has changed so much since its nodes were numbered that those which are read in turn stand far apart.
    fn is_scattered(&self) -> bool {
        (self.arcs.len() as u64).saturating_mul(NUMBERED) <= self.moved
    }

    // Numbers the nodes of the tree anew.
    fn renumber(&mut self, alloc: Global) -> Result<(), AllocError> {
        self.moved = 0;
        let numbers = self.tree.renumber(alloc)?;
        for arc in self.arcs.iter_mut() {
            arc.tail = at(&numbers, usize::from(arc.tail), NOBODY);
            arc.head = at(&numbers, usize::from(arc.head), NOBODY);
        }
        Ok(())
    }

    // Whether the work was no more than so much for each arc that entered.
    pub(crate) fn is_light(&self, most: u64) -> bool {
        self.candidates.work <= self.pivots.saturating_mul(most)
    }

    // How many arcs have entered.
    pub(crate) fn pivots(&self) -> u64 {
        self.pivots
    }

    // The next arc that enters. None where the work is done.
    fn next_entering(&mut self, edges: &[Edge], most: u64) -> Option<Entering> {
        for _ in self.begun..self.arcs.len().saturating_add(self.excess.len()) {
            let place = self.begun;
            self.begun = place.wrapping_add(1);
            let left = self.left_out(edges, place);
            if left.is_some() {
                return left;
            }
        }
        let place = self
            .candidates
            .next(&mut self.arcs, &self.tree.potentials, most)?;
        let arc = at(&self.arcs, place, NO_ARC);
        let room = capacity_of(edges, place);
        Some(self.over(place, arc, arc.side < 0, room, 0))
    }

    // Of what the tree left out at the start the arc at a place, if it is one.
    fn left_out(&self, edges: &[Edge], place: usize) -> Option<Entering> {
        if self.arcs.len() <= place {
            return self.from_root(small(place.wrapping_sub(self.arcs.len())));
        }
        let arc = at(&self.arcs, place, NO_ARC);
        let flow = at(&self.flows, place, 0);
        let rest = capacity_of(edges, place).saturating_sub(flow);
        if arc.side != 0 || flow == 0 || rest == 0 || self.tree.has(place, arc) {
            return None;
        }
        if arc.gain(&self.tree.potentials) < 0 {
            Some(self.over(place, arc, true, flow, rest))
        } else {
            Some(self.over(place, arc, false, rest, flow))
        }
    }

    // An arc that enters: along it, or back.
    fn over(&self, place: usize, arc: Arc, back: bool, room: u64, held: u64) -> Entering {
        let code = short(place).wrapping_mul(2);
        let gain = arc.gain(&self.tree.potentials);
        if back {
            Entering {
                from: arc.head,
                to: arc.tail,
                code: code.wrapping_add(1),
                room,
                held,
                gain: gain.wrapping_neg(),
            }
        } else {
            Entering {
                from: arc.tail,
                to: arc.head,
                code,
                room,
                held,
                gain,
            }
        }
    }

    // The arc between a node and the root, to be emptied, where it holds anything.
    fn from_root(&self, node: u16) -> Option<Entering> {
        let excess = at(&self.excess, usize::from(node), 0);
        if excess == 0 {
            return None;
        }
        let root = self.tree.root();
        let price = at(&self.prices, usize::from(node), 0);
        let own = self.tree.potential(node);
        let over = self.tree.potential(root).wrapping_sub(own);
        let room = excess.unsigned_abs();
        let held = MUCH.saturating_sub(room);
        let code = own_code(self.arcs.len(), node, excess);
        if excess < 0 {
            Some(Entering {
                from: node,
                to: root,
                code,
                room,
                held,
                gain: self.charge.wrapping_sub(price).wrapping_add(over),
            })
        } else {
            Some(Entering {
                from: root,
                to: node,
                code: code ^ 1,
                room,
                held,
                gain: self.charge.wrapping_add(price).wrapping_sub(over),
            })
        }
    }

    // Moves what the circle of an arc holds, and lets another leave the tree for it, if it is not the first to hold no more.
    fn pivot(&mut self, halves: &Halves, entering: Entering) -> Result<(), AllocError> {
        self.pivots = self.pivots.wrapping_add(1);
        let circle = self.tree.circle(entering.from, entering.to, entering.room);
        self.note_work(circle.steps.wrapping_mul(4));
        if circle.out == NOBODY {
            self.tree.move_round(entering.from, entering.to, &circle);
            self.set_side(entering.code, entering.code % 2 == 1);
            return Ok(());
        }
        let code = self.tree.node(circle.out).code;
        self.set_side(code, circle.behind == (code % 2 == 0));
        let branch = branch_of(entering, &circle);
        self.set_in_tree(entering.code);
        let by = if circle.behind {
            entering.gain
        } else {
            entering.gain.wrapping_neg()
        };
        let nodes = self.tree.rehang(&circle, branch, by);
        self.note_work(nodes.wrapping_mul(2));
        self.look(halves, nodes)
    }

    // Notes work in the tree.
    fn note_work(&mut self, work: u64) {
        self.candidates.work = self.candidates.work.saturating_add(work);
        self.moved = self.moved.saturating_add(work);
    }

    // Looks at the arcs around the nodes whose potentials changed, of which there are so many, where they are few.
    fn look(&mut self, halves: &Halves, nodes: u64) -> Result<(), AllocError> {
        if self.candidates.most_around() < nodes {
            return Ok(());
        }
        self.tree.list_changed(&mut self.changed)?;
        self.candidates
            .look(&mut self.arcs, halves, &self.tree, &self.changed)
    }

    // Lets the arc of a half be empty or full. An arc to the root has no side.
    fn set_side(&mut self, code: u32, empty: bool) {
        let place = (code / 2) as usize;
        let arc = at(&self.arcs, place, NO_ARC);
        let side = if empty { 1 } else { -1 };
        put(&mut self.arcs, place, Arc { side, ..arc });
    }

    fn set_in_tree(&mut self, code: u32) {
        let place = (code / 2) as usize;
        let arc = at(&self.arcs, place, NO_ARC);
        put(&mut self.arcs, place, Arc { side: 0, ..arc });
    }

    // The flow of each arc.
    pub(crate) fn flows(&self, alloc: Global, edges: &[Edge]) -> Result<Vec<u64>, AllocError> {
        let mut flows = vec![in alloc; 0u64; edges.len()]?;
        for (place, edge) in edges.iter().enumerate() {
            if at(&self.arcs, place, NO_ARC).side < 0 {
                put(&mut flows, place, edge.capacity);
            }
        }
        for node in 0..self.excess.len() {
            let code = self.tree.node(small(node)).code;
            let room = self.tree.room(small(node));
            let flow = if code % 2 == 0 { room.down } else { room.up };
            put(&mut flows, (code / 2) as usize, flow);
        }
        Ok(flows)
    }

    // The price of each party.
    pub(crate) fn prices(&self, alloc: Global) -> Result<Vec<i64>, AllocError> {
        let mut prices = vec![in alloc; 0i64; self.excess.len()]?;
        for node in 0..self.excess.len() {
            let name = usize::from(self.tree.name(small(node)));
            let own = self.tree.potential(small(node));
            put(&mut prices, name, i64::from(own));
        }
        let parties = self.excess.len().wrapping_sub(1);
        let ground = at(&prices, parties, 0);
        prices.truncate(parties);
        for price in prices.iter_mut() {
            *price = ground.wrapping_sub(*price);
        }
        Ok(prices)
    }
}

// How the part that the leaving arc cuts off is hung by the entering one.
fn branch_of(entering: Entering, circle: &Circle) -> Branch {
    let rest = entering.room.wrapping_sub(circle.least);
    let held = entering.held.wrapping_add(circle.least);
    if circle.behind {
        Branch {
            inner: entering.from,
            outer: entering.to,
            code: entering.code,
            room: Room {
                up: rest,
                down: held,
            },
        }
    } else {
        Branch {
            inner: entering.to,
            outer: entering.from,
            code: entering.code ^ 1,
            room: Room {
                up: held,
                down: rest,
            },
        }
    }
}

// What a cent on an arc counts at most, and 1 at least.
fn most_reward(arcs: &[Arc]) -> i32 {
    let mut most = 1u16;
    for arc in arcs {
        most = most.max(arc.reward);
    }
    i32::from(most)
}

// How much the arc at a place holds.
fn capacity_of(edges: &[Edge], place: usize) -> u64 {
    match edges.get(place) {
        Some(edge) => edge.capacity,
        None => 0,
    }
}
