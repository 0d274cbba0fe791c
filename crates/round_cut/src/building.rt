//! The cut of claims and accounts.
ghost use Rattle.std.specs.Prelude.{◌≡◌, ◌+◌, ◌<◌, ◌≤◌, ◌^◌, ◌++◌, ◌∷◌, [], All, IfOk, OnOk, map, vec_len};
ghost use Rattle.setoff_model.specs.CutView.{WellFormed};
ghost use Rattle.round_cut.specs.Windows.{KeepsLimits};
ghost use Rattle.round_cut.specs.CutOfFacts.{takes_part, claims_due, claims_in, cut_of_facts, parties_in, AreFacts};
ghost use Rattle.round_cut.specs.Growing.{with_parties_of, placed};

use crate::parties::{firms_of, place_of};
use claim_history::{AccountFact, ClaimFact, Day};
use name_index::NameIndex;
use setoff_model::{Cut, CutClaim, Kind, Party};
use std::alloc::{AllocError, Global};

/// Makes the cut of a round of this number and kind: the claims that have a part which is agreed to and open, and are due
/// on or before the horizon, in their order, each with that part, and the firms that they name with their windows.
///
/// The parties stand in order of first appearance, the debtor of a claim before its creditor. Each claim is looked at
/// once, and firms are found by an index, so the time grows with the claims and the accounts. The only error is running out of memory.
pub fn build_cut(
    alloc: Global,
    claims: &[ClaimFact],
    accounts: &[AccountFact],
    kind: Kind,
    horizon: Day,
    round: u32,
) -> Result<Cut, AllocError>
    requires { AreFacts claims.now accounts.now }
    ensures cut { IfOk result (λ cut. cut ≡ cut_of_facts round claims.now accounts.now kind horizon) }
    ensures formed { IfOk result WellFormed }
{
    let mut parties = Vec::new(alloc);
    let mut due = Vec::new(alloc);
    add_due(
        alloc,
        &mut parties,
        &mut due,
        claims,
        accounts,
        kind,
        horizon,
    )?;
    Ok(Cut::new(round, kind, parties, due))
}

/// Whether the claim takes part in a round of this horizon: its part is above 0, and it is due on or before that day.
/// Takes no memory.
pub fn is_due(claim: &ClaimFact, horizon: Day) -> bool
    ensures { result ≡ takes_part horizon claim.now }
{
    1 <= claim.part && claim.due.number() <= horizon.number()
}

// Adds the claims that take part, and their firms, to claims and parties of which there are none yet.
fn add_due(
    alloc: Global,
    parties: &mut Vec<Party>,
    due: &mut Vec<CutClaim>,
    claims: &[ClaimFact],
    accounts: &[AccountFact],
    kind: Kind,
    horizon: Day,
) -> Result<(), AllocError>
    requires facts { AreFacts claims.now accounts.now }
    requires no_parties { parties.old.items ≡ [] }
    requires no_claims { due.old.items ≡ [] }

    // The parties and the claims of the cut.
    ensures parties { OnOk result (parties.new.items ≡ parties_in accounts.now kind (claims_due horizon claims.now)) }
    ensures due { OnOk result (due.new.items ≡ claims_in (claims_due horizon claims.now)) }
{
    let firms = firms_of(alloc, accounts)?;
    let mut names = NameIndex::new(alloc);
    add_claims(
        parties, &mut names, due, accounts, &firms, kind, horizon, claims,
    )
}

// The same, with an index of the parties and one of the accounts.
fn add_claims(
    parties: &mut Vec<Party>,
    names: &mut NameIndex,
    due: &mut Vec<CutClaim>,
    accounts: &[AccountFact],
    firms: &NameIndex,
    kind: Kind,
    horizon: Day,
    claims: &[ClaimFact],
) -> Result<(), AllocError>
    // The facts may stand, and there are no parties and no claims yet.
    requires facts { AreFacts claims.now accounts.now }
    requires no_parties { parties.old.items ≡ [] }
    requires no_claims { due.old.items ≡ [] }

    // The indexes are those of the parties and of the accounts.
    requires names { names.old.names ≡ [] }
    requires firms { firms.now.names ≡ map (λ a. a.firm) accounts.now }

    // The parties and the claims of the cut.
    ensures parties { OnOk result (parties.new.items ≡ parties_in accounts.now kind (claims_due horizon claims.now)) }
    ensures due { OnOk result (due.new.items ≡ claims_in (claims_due horizon claims.now)) }
{
    for claim in claims {
        if is_due(claim, horizon) {
            add_claim(parties, names, due, accounts, firms, kind, claim)?;
        }
    }
    Ok(())
}

// Adds a claim that takes part, and its firms to the parties where they are not among them.
fn add_claim(
    parties: &mut Vec<Party>,
    names: &mut NameIndex,
    due: &mut Vec<CutClaim>,
    accounts: &[AccountFact],
    firms: &NameIndex,
    kind: Kind,
    claim: &ClaimFact,
) -> Result<(), AllocError>
    requires limits { All KeepsLimits accounts.now }
    requires few { vec_len parties.old + 1 < 2 ^ 32 }
    requires names { names.old.names ≡ map (λ p. p.firm) parties.old.items }
    requires firms { firms.now.names ≡ map (λ a. a.firm) accounts.now }

    // The claim is added, and its firms are among the parties.
    ensures names { OnOk result (names.new.names ≡ map (λ p. p.firm) parties.new.items) }
    ensures parties { OnOk result (parties.new.items ≡ with_parties_of accounts.now kind claim.now parties.old.items) }
    ensures due { OnOk result (due.new.items ≡ due.old.items ++ placed parties.new.items claim.now ∷ []) }
    ensures len { vec_len parties.new ≤ vec_len parties.old + 2 }
{
    let debtor = place_of(parties, names, accounts, firms, kind, &claim.debtor)?;
    let creditor = place_of(parties, names, accounts, firms, kind, &claim.key.creditor)?;
    due.push(CutClaim {
        key: claim.key,
        debtor,
        creditor,
        amount: claim.part,
    })?;
    Ok(())
}
