//! The arcs of claims.
ghost use Rattle.std.specs.Prelude.{◌≡◌, ◌+◌, ◌<◌, ◌≤◌, ◌^◌, List, All, IfOk, OnOk, length};
ghost use Rattle.setoff_model.specs.declared.limits.TheConstants.{MOST_AMOUNT, MOST_CLAIMS};
ghost use Rattle.setoff_model.specs.CutView.{obligations_of};
ghost use Rattle.setoff_model.specs.declared.cut.Party.{Party};
ghost use Rattle.netting_graph.specs.NetView.{obligations_of_arcs, pairs_of, IsAdded};
ghost use Rattle.netting_graph.specs.Merging.{IsMerged};

use crate::arc::Arc;
use crate::index::ArcIndex;
use setoff_model::CutClaim;
use std::alloc::{AllocError, Global};

// One arc for each debtor and creditor of the claims, in order of their first claim.
pub(crate) fn merge(alloc: Global, claims: &[CutClaim]) -> Result<Vec<Arc>, AllocError>
    requires few { length claims.now ≤ MOST_CLAIMS }
    requires small { All (λ c. c.amount ≤ MOST_AMOUNT) claims.now }
    ensures { IfOk result (λ arcs. (parties : List Party) → IsMerged (length claims.now) (obligations_of parties claims.now)
        (obligations_of_arcs parties arcs.items)) }
{
    let mut index = ArcIndex::new(alloc);
    let mut arcs = Vec::new(alloc);
    for claim in claims {
        add_claim(&mut index, &mut arcs, claim)?;
    }
    Ok(arcs)
}

// Adds the claim to the arc of its debtor and its creditor, or makes one.
fn add_claim(index: &mut ArcIndex, arcs: &mut Vec<Arc>, claim: &CutClaim) -> Result<(), AllocError>
    requires tied { index.old ≡ pairs_of arcs.old.items }
    requires room { All (λ a. a.amount + claim.now.amount < 2 ^ 64) arcs.old.items }
    ensures tied { OnOk result (index.new ≡ pairs_of arcs.new.items) }
    ensures added { OnOk result (IsAdded arcs.old.items claim.now.debtor claim.now.creditor claim.now.amount arcs.new.items) }
{
    match index.find(claim.debtor, claim.creditor) {
        Some(place) => {
            arcs[place].amount += claim.amount;
            Ok(())
        }
        None => {
            index.push(claim.debtor, claim.creditor)?;
            arcs.push(Arc {
                debtor: claim.debtor,
                creditor: claim.creditor,
                amount: claim.amount,
            })?;
            Ok(())
        }
    }
}
