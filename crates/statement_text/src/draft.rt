//! A statement as far as it is read.
ghost use Rattle.std.specs.Prelude.{◌≡◌, ◌↔◌, ◌++◌, ◌∷◌, [], false, OnOk, ◌<◌, ◌≤◌, ◌^◌, true, IfErr, IfOk, IfSome, OnErr, IsNone};
ghost use Rattle.std.specs.Prelude.{IsTrue, unsigned_abs};
ghost use Rattle.std.specs.List.{list_any};
ghost use Rattle.setoff_model.specs.Same.{same_key, same_name};
ghost use Rattle.setoff_model.specs.declared.limits.TheConstants.{SUM_LIMIT, MOST_AMOUNT, MOST_WINDOW};
ghost use Rattle.setoff_model.specs.CutView.{IsWindowOf};

use crate::error::StatementCause;
use name_index::{KeyIndex, NameIndex};
use setoff_model::limits::{MOST_CLAIMS, MOST_FIRMS};
use setoff_model::{Cut, CutClaim, Key, Kind, Name, Outcome, Party};
use std::alloc::{AllocError, Global};
use std::marker::Model;

/// The parties and the claims of the lines so far, with an index of their firms and keys.
#[derive(Drop)]
pub(crate) struct Draft {
    round: u32,
    kind: Kind,
    firms: NameIndex,
    parties: Vec<Party>,
    prices: Vec<i64>,
    keys: KeyIndex,
    claims: Vec<CutClaim>,
    discharges: Vec<u64>,
}

impl Model for Draft {
    ghost use Rattle.statement_text.specs.Drafts.{Drafted, IsDraft};

    ghost Value = { Drafted };

    ghost view = { λ d. record {
      cut = record { round = d.round; kind = d.kind; parties = d.parties.items; claims = d.claims.items };
      outcome = record { discharges = d.discharges.items; prices = d.prices.items };
    } };

    ghost invariant = { λ d. IsDraft d.firms.names d.keys.keys
        (record { round = d.round; kind = d.kind; parties = d.parties.items; claims = d.claims.items })
        (record { discharges = d.discharges.items; prices = d.prices.items }) };
}

// Whether a party's window, of at most 2 * 10^15 cents either way, is one of the kind.
fn has_window_of(kind: Kind, party: &Party) -> bool
    requires spend { party.now.spend ≤ MOST_WINDOW }
    requires room { party.now.room ≤ MOST_WINDOW }
    ensures { IsTrue result ↔ IsWindowOf kind party.now }
{
    match kind {
        Kind::Plain => party.spend == 0 && party.room == 0,
        Kind::Funded => true,
    }
}

// Puts a party behind the others, and its price behind theirs.
fn put_party(
    firms: &mut NameIndex,
    parties: &mut Vec<Party>,
    prices: &mut Vec<i64>,
    party: Party,
    price: i64,
) -> Result<(), AllocError>
    requires { list_any (same_name party.firm) firms.old.names ≡ false }
    ensures firms { OnOk result (firms.new.names ≡ firms.old.names ++ party.firm ∷ []) }
    ensures parties { OnOk result (parties.new.items ≡ parties.old.items ++ party ∷ []) }
    ensures prices { OnOk result (prices.new.items ≡ prices.old.items ++ price ∷ []) }
{
    firms.push(party.firm)?;
    parties.push(party)?;
    prices.push(price)?;
    Ok(())
}

// Puts a claim behind the others, and its discharge behind theirs.
fn put_claim(
    keys: &mut KeyIndex,
    claims: &mut Vec<CutClaim>,
    discharges: &mut Vec<u64>,
    claim: CutClaim,
    discharge: u64,
) -> Result<(), AllocError>
    requires { list_any (same_key claim.key) keys.old.keys ≡ false }
    ensures keys { OnOk result (keys.new.keys ≡ keys.old.keys ++ claim.key ∷ []) }
    ensures claims { OnOk result (claims.new.items ≡ claims.old.items ++ claim ∷ []) }
    ensures discharges { OnOk result (discharges.new.items ≡ discharges.old.items ++ discharge ∷ []) }
{
    keys.push(claim.key)?;
    claims.push(claim)?;
    discharges.push(discharge)?;
    Ok(())
}

impl Draft {
    ghost use Rattle.setoff_model.specs.declared.cut.CutClaim.{CutClaim};
    ghost use Rattle.setoff_model.specs.Names.{is_name};
    ghost use Rattle.statement_text.specs.Causes.{HasPartyCause, HasClaimCause};
    ghost use Rattle.statement_text.specs.Statements.{CanBeStated};
    ghost use Rattle.statement_text.specs.Drafts.{begun, with_party, with_claim, MayBeParty, MayBeClaim, IsClaimOf};

    /// A round with no party and no claim.
    pub(crate) fn new(alloc: Global, round: u32, kind: Kind) -> Draft
        requires { 1 ≤ round }
        ensures begun { result ≡ begun round kind }
        ensures stated { CanBeStated result.cut result.outcome }
    {
        Draft {
            round,
            kind,
            firms: NameIndex::new(alloc),
            parties: Vec::new(alloc),
            prices: Vec::new(alloc),
            keys: KeyIndex::new(alloc),
            claims: Vec::new(alloc),
            discharges: Vec::new(alloc),
        }
    }

    /// Why a party may not stand next; None exactly where it may. Its spend and room are at most 2 * 10^15 cents.
    pub(crate) fn party_refusal(&self, party: &Party) -> Option<StatementCause>
        // Its window is within the limits.
        requires spend { party.now.spend ≤ MOST_WINDOW }
        requires room { party.now.room ≤ MOST_WINDOW }

        // None where it may stand next, else the first cause.
        ensures refused { IsNone result ↔ MayBeParty self.now party.now }
        ensures cause { IfSome result (HasPartyCause self.now party.now) }

        // The lines so far can be stated.
        ensures stated { CanBeStated self.now.cut self.now.outcome }
    {
        if !self.claims.is_empty() {
            Some(StatementCause::Shape)
        } else if self.parties.len() >= MOST_FIRMS {
            Some(StatementCause::Limit)
        } else if self.firms.place(&party.firm).is_some() {
            Some(StatementCause::Repeat)
        } else if !has_window_of(self.kind, party) {
            Some(StatementCause::Window)
        } else {
            None
        }
    }

    /// The draft with one more party, and its price.
    pub(crate) fn with_party(mut self, party: Party, price: i64) -> Result<Draft, AllocError>
        // The party may stand next, by its line.
        requires next { MayBeParty self party }
        requires named { is_name party.firm ≡ true }
        requires price { unsigned_abs price < 10 ^ 9 }

        // It does, and the lines can be stated.
        ensures more { IfOk result (λ d. d ≡ with_party self party price) }
        ensures stated { IfOk result (λ d. CanBeStated d.cut d.outcome) }
    {
        put_party(
            &mut self.firms,
            &mut self.parties,
            &mut self.prices,
            party,
            price,
        )?;
        Ok(self)
    }

    /// The claim of this key, debtor and amount, with its firms by their places, or why it may not stand next.
    pub(crate) fn place_claim(
        &self,
        key: &Key,
        debtor: &Name,
        amount: u64,
    ) -> Result<CutClaim, StatementCause>
        // The amount is one of a claim.
        requires some { 1 ≤ amount }
        requires amount { amount ≤ MOST_AMOUNT }

        // The claim that may stand next, or the first cause.
        ensures found { IfOk result (λ c. MayBeClaim self.now c × IsClaimOf self.now.cut.parties key.now debtor.now amount c) }
        ensures refused { OnErr result
            ((c : CutClaim) → MayBeClaim self.now c → IsClaimOf self.now.cut.parties key.now debtor.now amount c → ⊥) }
        ensures cause { IfErr result (HasClaimCause self.now key.now debtor.now) }

        // The lines so far can be stated.
        ensures stated { CanBeStated self.now.cut self.now.outcome }
    {
        if self.claims.len() >= MOST_CLAIMS {
            return Err(StatementCause::Limit);
        }
        if self.keys.place(key).is_some() {
            return Err(StatementCause::Repeat);
        }
        let Some(creditor) = self.firms.place(&key.creditor) else {
            return Err(StatementCause::NoParty);
        };
        let Some(debtor) = self.firms.place(debtor) else {
            return Err(StatementCause::NoParty);
        };
        if debtor == creditor {
            return Err(StatementCause::SameFirm);
        }
        Ok(CutClaim {
            key: *key,
            debtor: debtor as u32,
            creditor: creditor as u32,
            amount,
        })
    }

    /// The draft with one more claim, and its discharge.
    pub(crate) fn with_claim(mut self, claim: CutClaim, discharge: u64) -> Result<Draft, AllocError>
        // The claim may stand next, by its line.
        requires next { MayBeClaim self claim }
        requires named { is_name claim.key.invoice ≡ true }
        requires discharge { discharge < SUM_LIMIT }

        // It does, and the lines can be stated.
        ensures more { IfOk result (λ d. d ≡ with_claim self claim discharge) }
        ensures stated { IfOk result (λ d. CanBeStated d.cut d.outcome) }
    {
        put_claim(
            &mut self.keys,
            &mut self.claims,
            &mut self.discharges,
            claim,
            discharge,
        )?;
        Ok(self)
    }

    /// The cut and the outcome of the lines so far.
    pub(crate) fn finish(self) -> (Cut, Outcome)
        ensures cut { result.0 ≡ self.cut }
        ensures outcome { result.1 ≡ self.outcome }
        ensures stated { CanBeStated self.cut self.outcome }
    {
        let cut = Cut::new(self.round, self.kind, self.parties, self.claims);
        let outcome = Outcome::new(self.discharges, self.prices);
        (cut, outcome)
    }
}
