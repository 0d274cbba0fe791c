//! What lanes serve their lines with.
use shared_bureau::{Disk, Shared};
use std::alloc::Global;

/// The shared desk, and what its lines are served with: the solver of its rounds, the gate of each line and the pause in each round.
#[derive(Clone, Copy)]
pub struct Service<'a, D: Disk, R, S, G, P> {
    pub rt: &'a R,
    pub alloc: Global,
    pub shared: &'a Shared<D>,
    pub solver: &'a S,
    pub gate: &'a G,
    pub pause: &'a P,
}
