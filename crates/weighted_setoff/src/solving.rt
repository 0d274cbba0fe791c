//! How a weighted set-off is found.
ghost use Rattle.std.specs.Prelude.{IfOk};
ghost use Rattle.setoff_model.specs.CutView.{WellFormed, obligations};
ghost use Rattle.setoff_model.specs.Weighted.{AreWeights, IsWeightedGreatest, ProvesWeighted};

use crate::start::state_of_cut;
use level_solver::{found_at_rest, settle, squeeze_to};
use setoff_model::limits::MOST_WEIGHT;
use setoff_model::{Cut, Outcome, weighted_duality};
use std::alloc::{AllocError, Global};

/// A lawful set-off of the cut whose weighted total is greatest, in cents, with prices that prove it.
///
/// The cut is well formed, and there is one weight for each claim, from 1 to 9. The prices of n parties are from -9n to 9n.
/// The only error is running out of memory.
pub fn solve_weighted(alloc: Global, cut: &Cut, weights: &[u32]) -> Result<Outcome, AllocError>
    requires cut { WellFormed cut.now }
    requires weights { AreWeights (obligations cut.now) weights.now }
    ensures proved { IfOk result (λ outcome. ProvesWeighted (obligations cut.now) weights.now outcome.discharges outcome.prices) }
    ensures greatest { IfOk result (λ outcome. IsWeightedGreatest (obligations cut.now) weights.now outcome.discharges) }
{
    weighted_duality();
    let mut state = state_of_cut(alloc, cut, weights)?;
    settle(alloc, &mut state)?;
    let (discharges, mut prices) = found_at_rest(state, cut.claims().len());
    squeeze_to(alloc, &mut prices, MOST_WEIGHT)?;
    Ok(Outcome::new(discharges, prices))
}
