//! The net of a cut.
ghost use Rattle.std.specs.Prelude.{◌≡◌, IfOk};
ghost use Rattle.setoff_model.specs.CutView.{WellFormed};
ghost use Rattle.netting_graph.specs.NetView.{IsNet};
ghost use Rattle.netting_graph.specs.Merging.{IsNetOf};

use crate::arc::Arc;
use crate::merge::merge;
use setoff_model::{Cut, Party};
use std::alloc::{AllocError, Global};
use std::marker::Model;

/// The parties of a cut, with one arc for each debtor and creditor of its claims.
///
/// There are at most 16,384 parties, each with at most 2 * 10^15 cents of spend and of room, and at most 262,144 arcs.
/// All arcs together have at most 262,144 times 999,999,999,999 cents, which is below 2^58.
#[derive(Drop)]
pub struct Net {
    parties: Vec<Party>,
    arcs: Vec<Arc>,
}

impl Model for Net {
    ghost use Rattle.netting_graph.specs.NetView.{NetView, IsNet};

    ghost Value = { NetView };

    ghost view = { λ n. record { parties = n.parties.items; arcs = n.arcs.items } };

    ghost invariant = { λ n. IsNet (record { parties = n.parties.items; arcs = n.arcs.items }) };
}

impl Net {
    /// Merges the claims of a well-formed cut: those of one debtor and one creditor are one arc, with their sum.
    ///
    /// The arcs stand in order of the first claim of each. The only error is running out of memory.
    pub fn of(alloc: Global, cut: &Cut) -> Result<Net, AllocError>
        requires { WellFormed cut.now }
        ensures net_of { IfOk result (IsNetOf cut.now) }
        ensures net { IfOk result IsNet }
    {
        let parties = Vec::from_slice(alloc, cut.parties())?;
        let arcs = merge(alloc, cut.claims())?;
        Ok(Net { parties, arcs })
    }

    /// The parties of the cut, in its order.
    pub fn parties(&self) -> &[Party]
        ensures parties { result.now ≡ self.now.parties }
        ensures net { IsNet self.now }
    {
        &self.parties
    }

    /// The arcs. No two have the same debtor and the same creditor, and the two differ.
    pub fn arcs(&self) -> &[Arc]
        ensures arcs { result.now ≡ self.now.arcs }
        ensures net { IsNet self.now }
    {
        &self.arcs
    }
}
