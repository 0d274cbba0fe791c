//! A net where nothing is set off.
use level_engine::schedule::CLAIMS_IN_SERIES;
use level_engine::{Edge, Half, Halves};
use loose_places::at;

/// A net where nothing is set off, and no balance changes.
#[derive(Clone, Copy)]
pub struct Unused<'a> {
    /// The arcs: those of claims, and then one from each party to the ground.
    pub edges: &'a [Edge],
    /// The halves of the arcs.
    pub halves: &'a Halves,
    /// The flows of the windows' arcs at which no balance changes.
    pub windows: &'a [u64],
}

impl Unused<'_> {
    /// Whether a party has few claims on average, as where series may be.
    pub fn is_sparse(&self) -> bool {
        self.claims() / CLAIMS_IN_SERIES <= self.ground()
    }

    // How many arcs of claims there are.
    pub(crate) fn claims(&self) -> usize {
        self.edges.len().saturating_sub(self.windows.len())
    }

    // The node after the parties.
    pub(crate) fn ground(&self) -> usize {
        self.windows.len()
    }

    // Whether flow can be moved over a half.
    #[inline(always)]
    pub(crate) fn passes(&self, half: Half) -> bool {
        let window = ((half.code / 2) as usize).wrapping_sub(self.claims());
        let flow = at(self.windows, window, 0);
        if half.code % 2 == 0 {
            flow == 0 || flow < self.halves.capacity(&half)
        } else {
            0 < flow
        }
    }
}
