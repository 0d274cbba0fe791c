//! Whether a cut may be made of claims and accounts.
ghost use Rattle.std.specs.Prelude.{◌≢◌, All, AllPairs, IsTrue};
ghost use Rattle.round_cut.specs.Windows.{KeepsLimits};
ghost use Rattle.round_cut.specs.CutOfFacts.{has_account as has, IsClaimOf, AreFacts};

use claim_history::{AccountFact, ClaimFact};
use setoff_model::limits::{FIRST_CEILING, MOST_AMOUNT, MOST_CLAIMS, MOST_FIRMS};
use setoff_model::{Key, Name};

pub(crate) fn are_facts(claims: &[ClaimFact], accounts: &[AccountFact]) -> bool
    ensures { IsTrue result → AreFacts claims.now accounts.now }
{
    claims.len() <= MOST_CLAIMS
        && accounts.len() <= MOST_FIRMS
        && keys_differ(claims)
        && firms_differ(accounts)
        && claims.iter().all(|claim| is_claim_of(accounts, claim))
        && accounts.iter().all(keeps_limits)
}

fn keys_differ(claims: &[ClaimFact]) -> bool
    ensures { IsTrue result → AllPairs (λ c d. c.key ≢ d.key) claims.now }
{
    for place in 0..claims.len() {
        if !is_new_key(&claims[..place], claims[place].key) {
            return false;
        }
    }
    true
}

fn is_new_key(claims: &[ClaimFact], key: Key) -> bool
    ensures { IsTrue result → All (λ c. c.key ≢ key) claims.now }
{
    claims.iter().all(|claim| claim.key != key)
}

fn firms_differ(accounts: &[AccountFact]) -> bool
    ensures { IsTrue result → AllPairs (λ a b. a.firm ≢ b.firm) accounts.now }
{
    for place in 0..accounts.len() {
        if !is_new_firm(&accounts[..place], accounts[place].firm) {
            return false;
        }
    }
    true
}

fn is_new_firm(accounts: &[AccountFact], firm: Name) -> bool
    ensures { IsTrue result → All (λ a. a.firm ≢ firm) accounts.now }
{
    accounts.iter().all(|account| account.firm != firm)
}

fn is_claim_of(accounts: &[AccountFact], claim: &ClaimFact) -> bool
    ensures { IsTrue result → IsClaimOf accounts.now claim.now }
{
    has_account(accounts, &claim.debtor)
        && has_account(accounts, &claim.key.creditor)
        && claim.debtor != claim.key.creditor
        && claim.left <= MOST_AMOUNT
        && claim.part <= claim.left
}

fn has_account(accounts: &[AccountFact], firm: &Name) -> bool
    ensures { IsTrue result → IsTrue (has accounts.now firm.now) }
{
    accounts.iter().any(|account| *firm == account.firm)
}

pub(crate) fn keeps_limits(account: &AccountFact) -> bool
    ensures { IsTrue result → KeepsLimits account.now }
{
    account.credit <= MOST_AMOUNT
        && account.ceiling <= FIRST_CEILING
        && -(account.credit as i64) <= account.balance
        && account.balance <= account.ceiling as i64
}
