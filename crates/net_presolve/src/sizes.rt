//! The sizes of claims.
use crate::unused::Unused;
use level_engine::schedule::{CLAIMS_BY_SHARES, CLAIMS_BY_SIZE, LARGE};

/// How many claims of a net are large and small.
#[derive(Clone, Copy)]
pub struct Sizes {
    /// How many claims hold as much as the largest.
    pub largest: usize,
    /// How many claims are not large.
    pub small: usize,
    /// How many claims there are.
    pub claims: usize,
}

impl Sizes {
    /// The sizes of the claims of a net.
    pub fn of(net: &Unused) -> Sizes {
        let mut most = 0u64;
        for edge in net.edges.iter().take(net.claims()) {
            most = most.max(edge.capacity);
        }
        Sizes {
            largest: count_from(net, most),
            small: net.claims().saturating_sub(count_from(net, most / LARGE)),
            claims: net.claims(),
        }
    }

    /// Whether more than half of the claims are alike, as large as any.
    pub fn are_mostly_alike(&self) -> bool {
        self.claims / 2 < self.largest
    }

    /// Whether the claims are of many sizes.
    pub fn are_many(&self) -> bool {
        0 < self.small && self.claims / CLAIMS_BY_SIZE <= self.small
    }

    /// Whether few claims are large.
    pub fn are_mostly_small(&self) -> bool {
        self.claims.saturating_sub(self.small) <= self.claims / CLAIMS_BY_SHARES
    }
}

// How many claims hold at least so much.
fn count_from(net: &Unused, least: u64) -> usize {
    let mut count = 0usize;
    for edge in net.edges.iter().take(net.claims()) {
        if least <= edge.capacity {
            count = count.saturating_add(1);
        }
    }
    count
}
