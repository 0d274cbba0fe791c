//! Weights by the days that claims are overdue.
ghost use Rattle.std.specs.Prelude.{◌≡◌, IfOk, map};
ghost use Rattle.printed_text.specs.round_cut.specs.CutOfFacts.{claims_due};
ghost use Rattle.weighed_round.specs.Weighed.{weight_at};

use printed_text::{ClaimFact, Day, is_due};
use std::alloc::{AllocError, Global};

// How much a cent of a claim counts that is due on a day.
fn weight_at(today: Day, due: Day) -> u32
    ensures { result ≡ weight_at today due }
{
    let days = today.number().saturating_sub(due.number());
    1 + (days / 30).min(8)
}

/// The weights of the claims that are due by a day, in their order. The only error is running out of memory.
pub(crate) fn weights_of(
    alloc: Global,
    claims: &[ClaimFact],
    today: Day,
) -> Result<Vec<u32>, AllocError>
    ensures { IfOk result (λ weights. weights.items ≡ map (λ c. weight_at today c.due) (claims_due today claims.now)) }
{
    let mut weights = Vec::new(alloc);
    for claim in claims {
        if is_due(claim, today) {
            weights.push(weight_at(today, claim.due))?;
        }
    }
    Ok(weights)
}
