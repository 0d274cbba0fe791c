//! Where the claims of a cut are looked for first.
use crate::guesses::Guesses;
use setoff_model::CutClaim;

/// The places at which the creditor and the debtor of a claim are looked for among the sums of firms, or were found.
#[derive(Clone, Copy)]
pub(crate) struct Sides {
    pub(crate) creditor: usize,
    pub(crate) debtor: usize,
}

impl Sides {
    /// Both are looked for at the first place.
    pub(crate) fn new() -> Sides {
        Sides {
            creditor: 0,
            debtor: 0,
        }
    }
}

/// A walk over the table of claims, along the claims of a cut: where the next of them is looked for, and where the firms of those
/// before it were found.
///
/// No clause speaks of it: what does not stand where it is looked for first is found by an index.
#[derive(Drop)]
pub(crate) struct Walk {
    pub(crate) next: usize,
    creditors: Guesses,
    debtors: Guesses,
}

impl Walk {
    /// At the first claim. It takes no memory.
    pub(crate) fn new() -> Walk {
        Walk {
            next: 0,
            creditors: Guesses::new(),
            debtors: Guesses::new(),
        }
    }

    /// Where the firms of a claim are looked for first.
    pub(crate) fn sides_of(&self, claim: &CutClaim) -> Sides {
        Sides {
            creditor: self.creditors.of(claim.creditor),
            debtor: self.debtors.of(claim.debtor),
        }
    }

    /// Keeps where the firms of a claim were found.
    pub(crate) fn keep(&mut self, claim: &CutClaim, sides: Sides) {
        self.creditors.keep(claim.creditor, sides.creditor);
        self.debtors.keep(claim.debtor, sides.debtor);
    }
}
