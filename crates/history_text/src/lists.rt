//! The claims of each party of a cut, in order, so that all pages of a round are printed in one walk over them.
ghost use Rattle.std.specs.Prelude.{◌≡◌, ◌+◌, ◌<◌, length, slice_index, IfOk, true};
ghost use Rattle.setoff_model.specs.CutView.{WellFormed, IsClaimAmong, obligations};
ghost use Rattle.history_text.specs.Lists.{IsListed, IsNext, names_at};

use setoff_model::{Cut, CutClaim};
use std::alloc::{AllocError, Global};

/// For each party the first claim that names it; for each claim the next that names its creditor, and the next that names its debtor.
/// Where there is none stands the number of claims. It takes 4 bytes a party and 8 a claim.
#[derive(Drop)]
pub(crate) struct ClaimLists {
    pub(crate) firsts: Vec<u32>,
    pub(crate) credits: Vec<u32>,
    pub(crate) debts: Vec<u32>,
}

// Lists that have no claim yet.
fn no_claims(alloc: Global, cut: &Cut) -> Result<ClaimLists, AllocError>
    requires { WellFormed cut.now }
    ensures { IfOk result (IsListed (obligations cut.now) (length cut.now.claims)) }
{
    let claims = cut.claims().len();
    let parties = cut.parties().len();
    Ok(ClaimLists {
        firsts: vec![in alloc; claims as u32; parties]?,
        credits: vec![in alloc; claims as u32; claims]?,
        debts: vec![in alloc; claims as u32; claims]?,
    })
}

// Puts the claim at a place in front of the later ones.
fn list_claim(lists: &mut ClaimLists, cut: &Cut, place: usize)
    requires cut { WellFormed cut.now }
    requires place { place < length cut.now.claims }
    requires listed { IsListed (obligations cut.now) (place + 1) lists.old }
    ensures { IsListed (obligations cut.now) place lists.new }
{
    let claim = cut.claims()[place];
    let creditor = claim.creditor as usize;
    let debtor = claim.debtor as usize;
    lists.credits[place] = lists.firsts[creditor];
    lists.debts[place] = lists.firsts[debtor];
    lists.firsts[creditor] = place as u32;
    lists.firsts[debtor] = place as u32;
}

/// Lists the claims of a well-formed cut, from the last on. The only error is that memory is missing.
pub(crate) fn claims_listed(alloc: Global, cut: &Cut) -> Result<ClaimLists, AllocError>
    requires { WellFormed cut.now }
    ensures { IfOk result (IsListed (obligations cut.now) 0) }
{
    let mut lists = no_claims(alloc, cut)?;
    let mut place = cut.claims().len();
    while place > 0 {
        place -= 1;
        list_claim(&mut lists, cut, place);
    }
    Ok(lists)
}

/// The first claim that names a party; the number of claims where there is none.
pub(crate) fn first_claim(lists: &ClaimLists, cut: &Cut, party: usize) -> usize
    requires listed { IsListed (obligations cut.now) 0 lists.now }
    requires party { party < length cut.now.parties }
    ensures { IsNext (obligations cut.now) party 0 result }
{
    let _ = cut;
    lists.firsts[party] as usize
}

/// The next claim that names a party, behind one that does; the number of claims where there is none.
pub(crate) fn next_claim(lists: &ClaimLists, cut: &Cut, party: usize, place: usize) -> usize
    requires listed { IsListed (obligations cut.now) 0 lists.now }
    requires place { place < length cut.now.claims }
    requires named { names_at (obligations cut.now) party place ≡ true }
    ensures { IsNext (obligations cut.now) party (place + 1) result }
{
    if cut.claims()[place].creditor as usize == party {
        lists.credits[place] as usize
    } else {
        lists.debts[place] as usize
    }
}
