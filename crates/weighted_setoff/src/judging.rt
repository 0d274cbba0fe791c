//! The sums of a weighted set-off.
ghost use Rattle.std.specs.Prelude.{◌≡◌, ◌+◌, ◌*◌, ◌<◌, ◌≤◌, ◌^◌, ℕ, List, pos, ◌+ℤ◌, ◌-ℤ◌, length, slice_index, unsigned_abs, All};
ghost use Rattle.setoff_model.specs.declared.limits.TheConstants.{MOST_CLAIMS, MOST_AMOUNT, MOST_WEIGHT, MOST_PRICE};
ghost use Rattle.setoff_model.specs.Sums.{above_zero};
ghost use Rattle.setoff_model.specs.Setoff.{price_at};
ghost use Rattle.setoff_model.specs.CutView.{obligations_of};
ghost use Rattle.setoff_model.specs.declared.cut.Party.{Party};
ghost use Rattle.setoff_model.specs.Weighted.{weighted_total_of, weighted_claims_bound};

use setoff_model::CutClaim;

/// The sum of weight * discharge, in cents. There are at most 262,144 of each, weights are at most 9, and discharges at most
/// 999,999,999,999 cents. Takes no memory.
pub fn weighted_total(weights: &[u32], discharges: &[u64]) -> u64
    requires one_each { length weights.now ≡ length discharges.now }
    requires few { length discharges.now ≤ MOST_CLAIMS }
    requires weights { (c : ℕ) → c < length discharges.now → slice_index weights.now c ≤ MOST_WEIGHT }
    requires discharges { (c : ℕ) → c < length discharges.now → slice_index discharges.now c ≤ MOST_AMOUNT }

    // The total by the weights.
    ensures { result ≡ weighted_total_of weights.now discharges.now }
{
    let mut total: u64 = 0;
    for place in 0..discharges.len() {
        total += weights[place] as u64 * discharges[place];
    }
    total
}

// The part of the bound that the claims add.
pub(crate) fn bound_of_claims(claims: &[CutClaim], weights: &[u32], prices: &[i64]) -> u128
    requires one_each { length weights.now ≡ length claims.now }
    requires few { length claims.now ≤ MOST_CLAIMS }
    requires amounts { All (λ c. c.amount ≤ MOST_AMOUNT) claims.now }

    // Each debtor and creditor has a price, and weights and prices are small.
    requires creditors { All (λ c. c.creditor < length prices.now) claims.now }
    requires debtors { All (λ c. c.debtor < length prices.now) claims.now }
    requires weights { (c : ℕ) → c < length claims.now → slice_index weights.now c ≤ MOST_WEIGHT }
    requires prices { (f : ℕ) → f < length prices.now → unsigned_abs (price_at prices.now f) ≤ MOST_PRICE }

    // What the claims add, and how large it can be.
    ensures value { (parties : List Party) →
        result ≡ weighted_claims_bound (length claims.now) (obligations_of parties claims.now) weights.now prices.now }
    ensures limit { result < 2 ^ 77 }
{
    let mut bound = 0;
    for (place, claim) in claims.iter().enumerate() {
        let factor = factor_of(
            weights[place],
            prices[claim.debtor as usize],
            prices[claim.creditor as usize],
        );
        bound += claim.amount as u128 * factor as u128;
    }
    bound
}

// weight + the debtor's price - the creditor's, or 0 where that is negative.
fn factor_of(weight: u32, debtor: i64, creditor: i64) -> u64
    requires weight { weight ≤ MOST_WEIGHT }
    requires debtor { unsigned_abs debtor ≤ MOST_PRICE }
    requires creditor { unsigned_abs creditor ≤ MOST_PRICE }

    // The factor, and how large it can be.
    ensures value { result ≡ above_zero ((pos weight +ℤ debtor) -ℤ creditor) }
    ensures limit { result ≤ 294921 }
{
    let factor = weight as i64 + debtor - creditor;
    if factor > 0 { factor as u64 } else { 0 }
}
