//! What an entry adds to the balance of a firm, and takes from it.
ghost use Rattle.std.specs.Prelude.{◌≡◌, ◌==◌, true, if◌then◌else◌};
ghost use Rattle.setoff_model.specs.CutView.{WellFormed, obligations};
ghost use Rattle.setoff_model.specs.Setoff.{IsLawful, inflow, outflow};
ghost use Rattle.printed_text.specs.claim_history.specs.Acts.{is_publication};
ghost use Rattle.printed_text.specs.claim_history.specs.Facts.{amount_or, discharged_by, discharged_to, gained_by, spent_by};
ghost use Rattle.printed_text.specs.claim_history.specs.States.{discharges_of};
ghost use Rattle.journal_summaries.specs.Account.{added, taken};
ghost use Rattle.journal_summaries.specs.Replay.{IsCutOf};

use crate::listing::place_of;
use claim_history::{Act, Entry};
use setoff_model::{Cut, Name};

/// What an entry adds to a balance, and what it takes from it, in cents.
#[derive(Clone, Copy)]
pub(crate) struct Flow {
    pub(crate) added: u64,
    pub(crate) taken: u64,
}

// What a FUND puts into the account of a firm, and what a DRAW takes out of it.
fn flow_of_act(firm: &Name, act: &Act) -> Flow
    ensures added { result.added ≡ amount_or 0 (gained_by firm.now act.now) }
    ensures taken { result.taken ≡ amount_or 0 (spent_by firm.now act.now) }
{
    match act {
        Act::Fund {
            firm: other,
            amount,
        } if *firm == *other => Flow {
            added: *amount,
            taken: 0,
        },
        Act::Draw {
            firm: other,
            amount,
        } if *firm == *other => Flow {
            added: 0,
            taken: *amount,
        },
        _ => Flow { added: 0, taken: 0 },
    }
}

// A discharge, where the claim's party stands at the place.
fn discharge_at(party: u32, place: usize, discharge: u64) -> u64
    ensures { result ≡ (if party == place then discharge else 0) }
{
    if party as usize == place {
        discharge
    } else {
        0
    }
}

// What is discharged towards the party at a place.
fn flow_towards(cut: &Cut, discharges: &[u64], place: usize) -> u64
    requires formed { WellFormed cut.now }
    requires lawful { IsLawful (obligations cut.now) discharges.now }
    ensures { result ≡ inflow (obligations cut.now) discharges.now place }
{
    let claims = cut.claims();
    let mut sum = 0;
    for i in 0..claims.len() {
        sum += discharge_at(claims[i].creditor, place, discharges[i]);
    }
    sum
}

// What is discharged by the party at a place.
fn flow_by(cut: &Cut, discharges: &[u64], place: usize) -> u64
    requires formed { WellFormed cut.now }
    requires lawful { IsLawful (obligations cut.now) discharges.now }
    ensures { result ≡ outflow (obligations cut.now) discharges.now place }
{
    let claims = cut.claims();
    let mut sum = 0;
    for i in 0..claims.len() {
        sum += discharge_at(claims[i].debtor, place, discharges[i]);
    }
    sum
}

// What a round discharges towards a firm and by it.
fn flow_of_round(firm: &Name, cut: &Cut, discharges: &[u64]) -> Flow
    requires formed { WellFormed cut.now }
    requires lawful { IsLawful (obligations cut.now) discharges.now }
    ensures added { result.added ≡ discharged_to firm.now (record { cut = cut.now; discharges = discharges.now }) }
    ensures taken { result.taken ≡ discharged_by firm.now (record { cut = cut.now; discharges = discharges.now }) }
{
    match place_of(cut.parties(), firm) {
        None => Flow { added: 0, taken: 0 },
        Some(place) => Flow {
            added: flow_towards(cut, discharges, place),
            taken: flow_by(cut, discharges, place),
        },
    }
}

// The discharges that a publication has.
fn discharges_in(act: &Act) -> &[u64]
    requires { is_publication act.now ≡ true }
    ensures { result.now ≡ discharges_of act.now }
{
    let Act::Publish { outcome, .. } = act else {
        unreachable!();
    };
    outcome.discharges()
}

/// What an accepted entry adds to the balance of a firm and takes from it. Where it publishes a round, the round's cut is given.
pub(crate) fn flow_of(firm: &Name, entry: &Entry, cut: &Option<Cut>) -> Flow
    requires { IsCutOf cut.now entry.now }
    ensures added { result.added ≡ added firm.now cut.now entry.now }
    ensures taken { result.taken ≡ taken firm.now cut.now entry.now }
{
    match cut {
        None => flow_of_act(firm, &entry.act),
        Some(cut) => flow_of_round(firm, cut, discharges_in(&entry.act)),
    }
}
