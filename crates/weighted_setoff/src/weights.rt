//! Which weights the claims of a cut may have.
ghost use Rattle.std.specs.Prelude.{◌↔◌, ◌≤◌, IsTrue, All};
ghost use Rattle.setoff_model.specs.CutView.{obligations};
ghost use Rattle.setoff_model.specs.Weighted.{AreWeights};

use setoff_model::Cut;
use setoff_model::limits::MOST_WEIGHT;

/// Whether there is one weight from 1 to 9 for each claim of the cut.
pub fn are_weights(cut: &Cut, weights: &[u32]) -> bool
    ensures { IsTrue result ↔ AreWeights (obligations cut.now) weights.now }
{
    weights.len() == cut.claims().len() && are_in_range(weights)
}

fn are_in_range(weights: &[u32]) -> bool
    ensures { IsTrue result ↔ All (λ w. (1 ≤ w) × (w ≤ MOST_WEIGHT)) weights.now }
{
    weights
        .iter()
        .all(|weight| 1 <= *weight && *weight <= MOST_WEIGHT)
}
