//! The parties of a cut, found by their firms.
ghost use Rattle.std.specs.Prelude.{◌≡◌, ◌≢◌, ◌+◌, ◌<◌, ◌≤◌, ◌^◌, All, AllPairs, IfOk, OnOk, map, position, vec_len};
ghost use Rattle.std.specs.List.{position_or_len};
ghost use Rattle.setoff_model.specs.Same.{same_name};
ghost use Rattle.round_cut.specs.Windows.{KeepsLimits};
ghost use Rattle.round_cut.specs.CutOfFacts.{party_in, window_in};
ghost use Rattle.round_cut.specs.Growing.{is_party, with_party};

use crate::windows::window;
use claim_history::AccountFact;
use name_index::NameIndex;
use setoff_model::{Kind, Name, Party};
use std::alloc::{AllocError, Global};

/// An index of the firms of the accounts. The only error is that memory is missing.
pub fn firms_of(alloc: Global, accounts: &[AccountFact]) -> Result<NameIndex, AllocError>
    requires { AllPairs (λ a b. a.firm ≢ b.firm) accounts.now }
    ensures { IfOk result (λ firms. firms.names ≡ map (λ a. a.firm) accounts.now) }
{
    let mut firms = NameIndex::new(alloc);
    for account in accounts {
        firms.push(account.firm)?;
    }
    Ok(firms)
}

/// The place of a firm among the parties. A firm that is none of them is put at the end, with its window.
///
/// The names are those of the parties, and the firms those of the accounts. The only error is running out of memory.
pub fn place_of(
    parties: &mut Vec<Party>,
    names: &mut NameIndex,
    accounts: &[AccountFact],
    firms: &NameIndex,
    kind: Kind,
    firm: &Name,
) -> Result<u32, AllocError>
    requires limits { All KeepsLimits accounts.now }
    requires few { vec_len parties.old < 2 ^ 32 }
    requires names { names.old.names ≡ map (λ p. p.firm) parties.old.items }
    requires firms { firms.now.names ≡ map (λ a. a.firm) accounts.now }

    // The firm is among the parties, at this place.
    ensures names { OnOk result (names.new.names ≡ map (λ p. p.firm) parties.new.items) }
    ensures parties { OnOk result (parties.new.items ≡ with_party (party_in accounts.now kind firm.now) parties.old.items) }
    ensures place { IfOk result (λ place. place ≡ position_or_len (is_party firm.now) parties.new.items) }
    ensures len { vec_len parties.new ≤ vec_len parties.old + 1 }
{
    match find_party(parties, names, firm) {
        Some(place) => Ok(place as u32),
        None => {
            let place = parties.len() as u32;
            names.push(*firm)?;
            parties.push(party_of(accounts, firms, kind, firm))?;
            Ok(place)
        }
    }
}

// The names are those of the parties.
fn find_party(parties: &[Party], names: &NameIndex, firm: &Name) -> Option<usize>
    requires { names.now.names ≡ map (λ p. p.firm) parties.now }
    ensures { result ≡ position (is_party firm.now) parties.now }
{
    let _ = parties;
    names.place(firm)
}

// The firm with the window of its account.
fn party_of(accounts: &[AccountFact], firms: &NameIndex, kind: Kind, firm: &Name) -> Party
    requires limits { All KeepsLimits accounts.now }
    requires firms { firms.now.names ≡ map (λ a. a.firm) accounts.now }
    ensures { result ≡ party_in accounts.now kind firm.now }
{
    let (spend, room) = window_at(accounts, firms, kind, firm);
    Party {
        firm: *firm,
        spend,
        room,
    }
}

// The window of the firm's account; none where it has no account.
fn window_at(accounts: &[AccountFact], firms: &NameIndex, kind: Kind, firm: &Name) -> (u64, u64)
    requires limits { All KeepsLimits accounts.now }
    requires firms { firms.now.names ≡ map (λ a. a.firm) accounts.now }
    ensures spend { result.0 ≡ (window_in accounts.now kind firm.now).spend }
    ensures room { result.1 ≡ (window_in accounts.now kind firm.now).room }
{
    match find_account(accounts, firms, firm) {
        Some(place) => window(&accounts[place], kind),
        None => (0, 0),
    }
}

// The firms are those of the accounts.
fn find_account(accounts: &[AccountFact], firms: &NameIndex, firm: &Name) -> Option<usize>
    requires { firms.now.names ≡ map (λ a. a.firm) accounts.now }
    ensures { result ≡ position (λ a. same_name firm.now a.firm) accounts.now }
{
    let _ = accounts;
    firms.place(firm)
}
