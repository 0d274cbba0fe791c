//! The accounts of a book.
ghost use Rattle.std.specs.Prelude.{◌≡◌, ◌+◌, ◌*◌, ◌<◌, ◌≤◌, ◌++◌, ◌∷◌, [], ◌||◌, Bool, find, map};
ghost use Rattle.std.specs.Prelude.{length, position, vec_len, vec_capacity, true, false, OnOk, OnErr};
ghost use Rattle.std.specs.List.{list_any};
ghost use Rattle.setoff_model.specs.declared.limits.TheConstants.{SUM_LIMIT};
ghost use Rattle.setoff_model.specs.Setoff.{total_of};
ghost use Rattle.setoff_model.specs.CutView.{WellFormed};
ghost use Rattle.setoff_model.specs.Same.{same_name};
ghost use Rattle.claim_history.specs.Acts.{is_valid};
ghost use Rattle.fact_tables.specs.Settling.{settled_account};
ghost use Rattle.claim_history.specs.declared.fact.AccountFact.{AccountFact};
ghost use Rattle.fact_tables.specs.Marks.{accounts_in, no_marks, account_marks_with, mark_at};
ghost use Rattle.fact_tables.specs.Tables.{new_account, funded, drawn, limited, offered, accounts_after, accounts_with};
ghost use Rattle.fact_tables.specs.Tables.{RegistersNone, FirmsOnce, AreSmall, AreWithin, AreAccounts};

use crate::guesses::Guesses;
use claim_history::{AccountFact, Act, Entry, accepted};
use name_index::NameIndex;
use setoff_model::limits::FIRST_CEILING;
use setoff_model::{Cut, Name};
use std::alloc::{AllocError, Global};
use std::marker::Model;

/// The accounts of the registered firms in order of registration, and a mark for each. No firm is there twice, and each balance is
/// from -10^15 to 10^15 cents.
///
/// Beside them stands the room: how many firms may be registered without taking memory.
#[derive(Drop)]
pub struct AccountTable {
    facts: Vec<AccountFact>,
    marks: Vec<bool>,
    names: NameIndex,
}

impl Model for AccountTable {
    ghost use Rattle.std.specs.Prelude.{◌-◌, min, vec_len, vec_capacity};
    ghost use Rattle.fact_tables.specs.Tables.{AccountsView, AreAccountsOf};

    ghost Value = { AccountsView };

    ghost view = { λ t. record {
      facts = t.facts.items;
      marks = t.marks.items;
      room = min (min (vec_capacity t.facts - vec_len t.facts) (vec_capacity t.marks - vec_len t.marks)) t.names.room;
    } };

    ghost invariant = { λ t. AreAccountsOf t.names.names t.facts.items t.marks.items };
}

impl AccountTable {
    /// A table without accounts. It takes no memory.
    pub fn new(alloc: Global) -> AccountTable
        ensures facts { result.facts ≡ [] }
        ensures marks { result.marks ≡ [] }
        ensures room { result.room ≡ 0 }
    {
        AccountTable {
            facts: Vec::new(alloc),
            marks: Vec::new(alloc),
            names: NameIndex::new(alloc),
        }
    }

    /// Makes the room for so many accounts. It lowers no room that was made before.
    ///
    /// The only error is that memory is missing. It comes only where there was less room.
    pub fn reserve(&mut self, accounts: usize) -> Result<(), AllocError>
        // The accounts and marks are as they were.
        ensures facts { self.new.facts ≡ self.old.facts }
        ensures marks { self.new.marks ≡ self.old.marks }

        // There is the room, and no less than before. An error comes only where there was less.
        ensures room { OnOk result (accounts ≤ self.new.room) }
        ensures kept { self.old.room ≤ self.new.room }
        ensures needed { OnErr result (self.old.room < accounts) }
    {
        self.names.reserve(accounts)?;
        self.marks.reserve(accounts)?;
        self.facts.reserve(accounts)
    }

    /// The accounts in order of registration.
    pub fn facts(&self) -> &[AccountFact]
        ensures { result.now ≡ self.now.facts }
    {
        &self.facts
    }

    /// A firm's account; None where the firm has none.
    pub fn find(&self, firm: &Name) -> Option<AccountFact>
        ensures { result ≡ find (λ a. same_name firm.now a.firm) self.now.facts }
    {
        find_account(&self.facts, &self.names, firm)
    }

    /// Whether a firm's account has a mark; not where the firm has none.
    pub fn is_marked(&self, firm: &Name) -> bool
        ensures { result ≡ mark_at self.now.marks (position (λ a. same_name firm.now a.firm) self.now.facts) }
    {
        match self.place(firm) {
            None => false,
            Some(place) => self.marks[place],
        }
    }

    /// Marks the accounts of the parties of a cut, and takes off each other mark. It takes no memory.
    pub fn mark(&mut self, cut: &Cut)
        ensures facts { self.new.facts ≡ self.old.facts }
        ensures marks { self.new.marks ≡ accounts_in cut.now self.old.facts }
        ensures room { self.new.room ≡ self.old.room }
    {
        self.unmark();
        for party in cut.parties().iter() {
            self.mark_account(&party.firm);
        }
    }

    /// Takes off all marks. It takes no memory.
    pub fn unmark(&mut self)
        ensures facts { self.new.facts ≡ self.old.facts }
        ensures marks { self.new.marks ≡ no_marks self.old.facts }
        ensures room { self.new.room ≡ self.old.room }
    {
        self.marks.fill(false);
    }

    // The place of a firm's account; None where the firm has none.
    fn place(&self, firm: &Name) -> Option<usize>
        ensures { result ≡ position (λ a. same_name firm.now a.firm) self.now.facts }
    {
        self.names.place(firm)
    }

    // Marks a firm's account, where it has one. The marks were those of a test.
    fn mark_account(&mut self, firm: &Name)
        ensures facts { self.new.facts ≡ self.old.facts }
        ensures marks { (test : AccountFact → Bool) → self.old.marks ≡ map test self.old.facts
            → self.new.marks ≡ map (λ a. same_name firm.now a.firm || test a) self.old.facts }
        ensures room { self.new.room ≡ self.old.room }
    {
        if let Some(place) = self.place(firm) {
            self.marks[place] = true;
        }
    }

    /// Changes the accounts as an entry says, where it is accepted. There is room for one more, no firm is registered twice, and
    /// the balances stay small. It takes no memory.
    pub fn apply(&mut self, entry: &Entry)
        requires room { 0 < self.old.room }
        requires valid { is_valid entry.now.act ≡ true }
        requires accounts { AreAccounts (accounts_with entry.now self.old.facts) }

        // The accounts and marks with the entry, and the room that is left.
        ensures facts { self.new.facts ≡ accounts_with entry.now self.old.facts }
        ensures marks { self.new.marks ≡ account_marks_with entry.now self.old.marks }
        ensures room { self.old.room ≤ self.new.room + 1 }
    {
        change_accounts(&mut self.facts, &mut self.names, entry);
        mark_new(&mut self.marks, entry);
    }

    /// Puts into each account what the round of a cut discharged towards its firm, and takes out what it discharged by it. It takes
    /// no memory.
    ///
    /// There is one discharge for each claim of the cut, which is well formed, their total is below 10^18 cents, and the balances
    /// stay small. The account of a party is found by the index once, and then where it was found.
    pub fn discharge(&mut self, cut: &Cut, discharges: &[u64])
        requires one_each { length discharges.now ≡ length cut.now.claims }
        requires formed { WellFormed cut.now }
        requires total { total_of discharges.now < SUM_LIMIT }
        requires small { AreSmall (map (settled_account (record { cut = cut.now; discharges = discharges.now })) self.old.facts) }

        // The accounts are settled. All else is as it was.
        ensures facts { self.new.facts ≡ map (settled_account (record { cut = cut.now; discharges = discharges.now })) self.old.facts }
        ensures marks { self.new.marks ≡ self.old.marks }
        ensures room { self.new.room ≡ self.old.room }
    {
        discharge_accounts(&mut self.facts, &self.names, cut, discharges);
    }
}

// The place of a firm's account; None where the firm has none.
fn account_place(accounts: &[AccountFact], names: &NameIndex, firm: &Name) -> Option<usize>
    requires { names.now.names ≡ map (λ a. a.firm) accounts.now }
    ensures { result ≡ position (λ a. same_name firm.now a.firm) accounts.now }
{
    let _ = accounts;
    names.place(firm)
}

// The same, looked for at a place first.
fn account_near(
    accounts: &[AccountFact],
    names: &NameIndex,
    guess: usize,
    firm: &Name,
) -> Option<usize>
    requires { names.now.names ≡ map (λ a. a.firm) accounts.now }
    ensures { result ≡ position (λ a. same_name firm.now a.firm) accounts.now }
{
    let _ = accounts;
    names.place_near(guess, firm)
}

fn find_account(accounts: &[AccountFact], names: &NameIndex, firm: &Name) -> Option<AccountFact>
    requires { names.now.names ≡ map (λ a. a.firm) accounts.now }
    ensures { result ≡ find (λ a. same_name firm.now a.firm) accounts.now }
{
    match account_place(accounts, names, firm) {
        None => None,
        Some(place) => Some(accounts[place]),
    }
}

// Changes the accounts as `AccountTable::apply` does.
fn change_accounts(accounts: &mut Vec<AccountFact>, names: &mut NameIndex, entry: &Entry)
    // There is room for one account more, and the index has the firms of the accounts.
    requires room { vec_len accounts.old < vec_capacity accounts.old }
    requires names_room { 0 < names.old.room }
    requires names { names.old.names ≡ map (λ a. a.firm) accounts.old.items }

    // The accounts may stand before and after, and the act is valid.
    requires after { FirmsOnce (accounts_with entry.now accounts.old.items) }
    requires once { FirmsOnce accounts.old.items }
    requires small { AreSmall accounts.old.items }
    requires valid { is_valid entry.now.act ≡ true }

    // The accounts with the entry, and the index of their firms.
    ensures items { accounts.new.items ≡ accounts_with entry.now accounts.old.items }
    ensures names { names.new.names ≡ map (λ a. a.firm) accounts.new.items }

    // One place is taken at most.
    ensures names_room { names.old.room ≤ names.new.room + 1 }
    ensures len { vec_len accounts.new ≤ vec_len accounts.old + 1 }
    ensures capacity { vec_capacity accounts.old ≤ vec_capacity accounts.new }
{
    if !accepted(entry) {
        return;
    }
    match &entry.act {
        Act::Firm { firm } => add_account(accounts, names, firm),
        act => change_account(accounts, names, act),
    }
}

// Puts the mark of an account at the end that the entry adds, which has none.
fn mark_new(marks: &mut Vec<bool>, entry: &Entry)
    requires { vec_len marks.old < vec_capacity marks.old }
    ensures items { marks.new.items ≡ account_marks_with entry.now marks.old.items }
    ensures len { vec_len marks.new ≤ vec_len marks.old + 1 }
    ensures capacity { vec_capacity marks.old ≤ vec_capacity marks.new }
{
    if accepted(entry) && matches!(&entry.act, Act::Firm { .. }) {
        marks.push_reserved(false);
    }
}

// Changes the account that an act names, which registers no firm.
fn change_account(accounts: &mut [AccountFact], names: &NameIndex, act: &Act)
    // The accounts may stand, and the index has their firms.
    requires names { names.now.names ≡ map (λ a. a.firm) accounts.old }
    requires once { FirmsOnce accounts.old }
    requires small { AreSmall accounts.old }

    // The act is valid, and registers no firm.
    requires valid { is_valid act.now ≡ true }
    requires other { RegistersNone act.now }

    // The accounts after the act.
    ensures { accounts.new ≡ accounts_after act.now accounts.old }
{
    match act {
        Act::Fund { firm, amount } => {
            let _ = fund(accounts, names, 0, firm, *amount);
        }
        Act::Draw { firm, amount } => {
            let _ = draw(accounts, names, 0, firm, *amount);
        }
        Act::Limit {
            firm,
            credit,
            ceiling,
        } => set_limits(accounts, names, firm, *credit, *ceiling),
        Act::Offer { firm, amount } => set_offer(accounts, names, firm, *amount),
        Act::Firm { .. }
        | Act::File { .. }
        | Act::Confirm { .. }
        | Act::Dispute { .. }
        | Act::Withdraw { .. }
        | Act::Receive { .. }
        | Act::Position { .. }
        | Act::Close { .. }
        | Act::Abandon
        | Act::Publish { .. } => {}
    }
}

fn add_account(accounts: &mut Vec<AccountFact>, names: &mut NameIndex, firm: &Name)
    requires room { vec_len accounts.old < vec_capacity accounts.old }
    requires names_room { 0 < names.old.room }
    requires new { list_any (same_name firm.now) names.old.names ≡ false }

    // The index has one firm more.
    ensures names { names.new.names ≡ names.old.names ++ firm.now ∷ [] }
    ensures names_room { names.old.room ≤ names.new.room + 1 }

    // There is one account more, that of the firm.
    ensures items { accounts.new.items ≡ accounts.old.items ++ new_account firm.now ∷ [] }
    ensures len { vec_len accounts.new ≡ vec_len accounts.old + 1 }
    ensures capacity { vec_capacity accounts.old ≤ vec_capacity accounts.new }
{
    names.add(*firm);
    accounts.push_reserved(AccountFact {
        firm: *firm,
        balance: 0,
        credit: 0,
        ceiling: FIRST_CEILING,
        offer: 0,
    });
}

// Puts an amount into the account of a firm, which is looked for at a place first. Gives the place at which it stands.
fn fund(
    accounts: &mut [AccountFact],
    names: &NameIndex,
    guess: usize,
    firm: &Name,
    amount: u64,
) -> usize
    requires names { names.now.names ≡ map (λ a. a.firm) accounts.old }
    requires once { FirmsOnce accounts.old }
    requires near { AreWithin (3 * SUM_LIMIT) accounts.old }
    requires amount { amount < SUM_LIMIT }

    // The account of the firm, if it has one, has so much more.
    ensures { accounts.new ≡ map (funded firm.now amount) accounts.old }
{
    match account_near(accounts, names, guess, firm) {
        None => guess,
        Some(place) => {
            let account = &mut accounts[place];
            account.balance += amount as i64;
            place
        }
    }
}

// Takes an amount out of the account of a firm, as `fund` puts it in.
fn draw(
    accounts: &mut [AccountFact],
    names: &NameIndex,
    guess: usize,
    firm: &Name,
    amount: u64,
) -> usize
    requires names { names.now.names ≡ map (λ a. a.firm) accounts.old }
    requires once { FirmsOnce accounts.old }
    requires near { AreWithin (3 * SUM_LIMIT) accounts.old }
    requires amount { amount < SUM_LIMIT }

    // The account of the firm, if it has one, has so much less.
    ensures { accounts.new ≡ map (drawn firm.now amount) accounts.old }
{
    match account_near(accounts, names, guess, firm) {
        None => guess,
        Some(place) => {
            let account = &mut accounts[place];
            account.balance -= amount as i64;
            place
        }
    }
}

fn set_limits(
    accounts: &mut [AccountFact],
    names: &NameIndex,
    firm: &Name,
    credit: u64,
    ceiling: u64,
)
    requires names { names.now.names ≡ map (λ a. a.firm) accounts.old }
    requires once { FirmsOnce accounts.old }
    ensures { accounts.new ≡ map (limited firm.now credit ceiling) accounts.old }
{
    if let Some(place) = account_place(accounts, names, firm) {
        let account = &mut accounts[place];
        account.credit = credit;
        account.ceiling = ceiling;
    }
}

fn set_offer(accounts: &mut [AccountFact], names: &NameIndex, firm: &Name, amount: u64)
    requires names { names.now.names ≡ map (λ a. a.firm) accounts.old }
    requires once { FirmsOnce accounts.old }
    ensures { accounts.new ≡ map (offered firm.now amount) accounts.old }
{
    if let Some(place) = account_place(accounts, names, firm) {
        let account = &mut accounts[place];
        account.offer = amount;
    }
}

// Changes the accounts as `AccountTable::discharge` does, claim by claim.
fn discharge_accounts(
    accounts: &mut [AccountFact],
    names: &NameIndex,
    cut: &Cut,
    discharges: &[u64],
)
    // The accounts may stand, and the index has their firms.
    requires names { names.now.names ≡ map (λ a. a.firm) accounts.old }
    requires once { FirmsOnce accounts.old }
    requires small { AreSmall accounts.old }

    // The cut is well formed, with a discharge for each claim, and their total is small.
    requires one_each { length discharges.now ≡ length cut.now.claims }
    requires formed { WellFormed cut.now }
    requires total { total_of discharges.now < SUM_LIMIT }

    // Each account is settled.
    ensures { accounts.new ≡ map (settled_account (record { cut = cut.now; discharges = discharges.now })) accounts.old }
{
    let parties = cut.parties();
    let mut guesses = Guesses::new();
    for (i, claim) in cut.claims().iter().enumerate() {
        let creditor = parties[claim.creditor as usize];
        let debtor = parties[claim.debtor as usize];
        let guess = guesses.of(claim.creditor);
        let to = fund(accounts, names, guess, &creditor.firm, discharges[i]);
        guesses.keep(claim.creditor, to);
        let guess = guesses.of(claim.debtor);
        let by = draw(accounts, names, guess, &debtor.firm, discharges[i]);
        guesses.keep(claim.debtor, by);
    }
}
