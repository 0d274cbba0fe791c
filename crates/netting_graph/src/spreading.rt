//! How the flow of a net is spread over the claims of its cut.
ghost use Rattle.std.specs.Prelude.{◌≡◌, ◌<◌, ◌≤◌, ◌-◌, ℕ, IfOk, length, min, slice_index, slice_set};
ghost use Rattle.setoff_model.specs.Setoff.{IsLawful, IsGreatest, total_of};
ghost use Rattle.setoff_model.specs.CutView.{obligations};
ghost use Rattle.netting_graph.specs.Pairs.{IsPairAt};
ghost use Rattle.netting_graph.specs.NetView.{obligations_of_net, arc_amounts, pairs_of};
ghost use Rattle.netting_graph.specs.Merging.{IsNetOf, IsSpread};

use crate::index::ArcIndex;
use crate::net::Net;
use setoff_model::{Cut, CutClaim};
use std::alloc::{AllocError, Global};

/// One discharge for each claim of the cut, in cents: those of one debtor and one creditor sum to the flow of their arc,
/// and earlier claims are filled first.
///
/// The net is that of the cut. There is one flow for each arc, in cents, at most the arc's amount.
/// The only error is running out of memory.
pub fn spread(alloc: Global, cut: &Cut, net: &Net, flows: &[u64]) -> Result<Vec<u64>, AllocError>
    requires net { IsNetOf cut.now net.now }
    requires one_each { length flows.now ≡ length net.now.arcs }
    requires within { (a : ℕ) → a < length net.now.arcs → slice_index flows.now a ≤ slice_index (arc_amounts net.now.arcs) a }

    // The flows are spread, and the discharges are lawful and greatest where the flows are.
    ensures spread { IfOk result (λ d. IsSpread cut.now net.now flows.now d.items) }
    ensures total { IfOk result (λ d. total_of d.items ≡ total_of flows.now) }
    ensures lawful { IfOk result (λ d. IsLawful (obligations_of_net net.now) flows.now → IsLawful (obligations cut.now) d.items) }
    ensures greatest { IfOk result (λ d. IsGreatest (obligations_of_net net.now) flows.now → IsGreatest (obligations cut.now) d.items) }
{
    let index = ArcIndex::of(alloc, net.arcs())?;
    let mut left = Vec::from_slice(alloc, flows)?;
    fill_all(alloc, cut, net, &index, &mut left)
}

// One discharge for each claim in order, taken from what is left of the flows.
fn fill_all(
    alloc: Global,
    cut: &Cut,
    net: &Net,
    index: &ArcIndex,
    left: &mut [u64],
) -> Result<Vec<u64>, AllocError>
    requires net { IsNetOf cut.now net.now }
    requires index { index.now ≡ pairs_of net.now.arcs }
    requires one_each { length left.old ≡ length net.now.arcs }
    requires within { (a : ℕ) → a < length net.now.arcs → slice_index left.old a ≤ slice_index (arc_amounts net.now.arcs) a }

    // The flows that were left are spread over the claims.
    ensures { IfOk result (λ d. IsSpread cut.now net.now left.old d.items) }
{
    let claims = cut.claims();
    let mut discharges = Vec::new(alloc);
    for claim in claims {
        let discharge = fill(index, left, claim);
        discharges.push(discharge)?;
    }
    Ok(discharges)
}

// Takes what is left of the flow on the claim's arc, up to the claim's amount.
fn fill(index: &ArcIndex, left: &mut [u64], claim: &CutClaim) -> u64
    requires long { length left.old ≡ length index.now.debtors }
    requires known { (a : ℕ) × IsPairAt index.now claim.now.debtor claim.now.creditor a }
    ensures { (a : ℕ) × IsPairAt index.now claim.now.debtor claim.now.creditor a
        × (result ≡ min (slice_index left.old a) claim.now.amount) × (left.new ≡ slice_set left.old a (slice_index left.old a - result)) }
{
    match index.find(claim.debtor, claim.creditor) {
        Some(place) => {
            let discharge = left[place].min(claim.amount);
            left[place] -= discharge;
            discharge
        }
        None => unreachable!(),
    }
}
