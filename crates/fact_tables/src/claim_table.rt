//! The claims of a book.
ghost use Rattle.std.specs.Prelude.{Bool, ◌≡◌, ◌+◌, ◌<◌, ◌≤◌, ◌^◌, ◌++◌, ◌∷◌, [], false, ◌||◌, sum, sum_by};
ghost use Rattle.std.specs.Prelude.{filter, find, position, map, set, length, get_or, OnOk, OnErr};
ghost use Rattle.setoff_model.specs.CutView.{WellFormed};
ghost use Rattle.setoff_model.specs.Same.{same_name, same_key};
ghost use Rattle.fact_tables.specs.Settling.{settled_claim};
ghost use Rattle.fact_tables.specs.Tables.{new_claim, part_in, with_status, with_receipt, claims_with};
ghost use Rattle.fact_tables.specs.Sums.{MayStand};
ghost use Rattle.claim_history.specs.declared.fact.ClaimFact.{ClaimFact};
ghost use Rattle.fact_tables.specs.Marks.{claims_in, no_marks, claim_marks_with, mark_at};

use crate::firm_sums::FirmSums;
use crate::walk::{Sides, Walk};
use claim_history::{Act, ClaimFact, Day, Entry, Status, accepted};
use name_index::KeyIndex;
use setoff_model::{Cut, CutClaim, Key, Name};
use std::alloc::{AllocError, Global};
use std::marker::Model;

/// The claims in order of filing, with their status, open amount and part, and a mark for each. No key is there twice.
///
/// Beside them stands the room: how many claims may be filed without taking memory.
#[derive(Drop)]
pub struct ClaimTable {
    facts: Vec<ClaimFact>,
    marks: Vec<bool>,
    keys: KeyIndex,
    receivables: FirmSums,
    payables: FirmSums,
}

impl Model for ClaimTable {
    ghost use Rattle.std.specs.Prelude.{◌-◌, min, vec_len, vec_capacity};
    ghost use Rattle.fact_tables.specs.Tables.{ClaimsView};
    ghost use Rattle.fact_tables.specs.Sums.{IsClaimTable};

    ghost Value = { ClaimsView };

    ghost view = { λ t. record {
      facts = t.facts.items;
      marks = t.marks.items;
      room = min (min (min (vec_capacity t.facts - vec_len t.facts) (vec_capacity t.marks - vec_len t.marks)) t.keys.room)
          (min t.receivables.room t.payables.room);
    } };

    ghost invariant = { λ t. IsClaimTable t.keys.keys t.facts.items t.marks.items t.receivables t.payables };
}

impl ClaimTable {
    /// A table without claims. It takes no memory.
    pub fn new(alloc: Global) -> ClaimTable
        ensures facts { result.facts ≡ [] }
        ensures marks { result.marks ≡ [] }
        ensures room { result.room ≡ 0 }
    {
        ClaimTable {
            facts: Vec::new(alloc),
            marks: Vec::new(alloc),
            keys: KeyIndex::new(alloc),
            receivables: FirmSums::new(alloc),
            payables: FirmSums::new(alloc),
        }
    }

    /// Makes the room for so many claims. It lowers no room that was made before.
    ///
    /// The only error is that memory is missing. It comes only where there was less room.
    pub fn reserve(&mut self, claims: usize) -> Result<(), AllocError>
        // The claims and marks are as they were.
        ensures facts { self.new.facts ≡ self.old.facts }
        ensures marks { self.new.marks ≡ self.old.marks }

        // There is the room, and no less than before. An error comes only where there was less.
        ensures room { OnOk result (claims ≤ self.new.room) }
        ensures kept { self.old.room ≤ self.new.room }
        ensures needed { OnErr result (self.old.room < claims) }
    {
        self.keys.reserve(claims)?;
        self.receivables.reserve(claims)?;
        self.payables.reserve(claims)?;
        self.marks.reserve(claims)?;
        self.facts.reserve(claims)
    }

    /// The claims in order of filing.
    pub fn facts(&self) -> &[ClaimFact]
        ensures { result.now ≡ self.now.facts }
    {
        &self.facts
    }

    /// A claim; None where the key was never filed.
    pub fn find(&self, key: &Key) -> Option<ClaimFact>
        ensures { result ≡ find (λ c. same_key key.now c.key) self.now.facts }
    {
        match self.keys.place(key) {
            None => None,
            Some(place) => Some(self.facts[place]),
        }
    }

    /// What a firm is owed, in cents: the sum of the parts of its claims.
    pub fn owed_to(&self, firm: &Name) -> u64
        ensures { result ≡ sum (map (λ c. c.part) (filter (λ c. same_name firm.now c.key.creditor) self.now.facts)) }
    {
        self.receivables.sum(firm)
    }

    /// What a firm owes, in cents: the sum of the parts of the claims on it.
    pub fn owed_by(&self, firm: &Name) -> u64
        ensures { result ≡ sum (map (λ c. c.part) (filter (λ c. same_name firm.now c.debtor) self.now.facts)) }
    {
        self.payables.sum(firm)
    }

    /// Whether the claim of a key has a mark; not where the key was never filed.
    pub fn is_marked(&self, key: &Key) -> bool
        ensures { result ≡ mark_at self.now.marks (position (λ c. same_key key.now c.key) self.now.facts) }
    {
        match self.place(key) {
            None => false,
            Some(place) => self.marks[place],
        }
    }

    /// Marks the claims of a cut, and takes off each other mark. It takes no memory.
    ///
    /// The claims of the cut are found in one walk over the table, as by `discharge`.
    pub fn mark(&mut self, cut: &Cut)
        ensures facts { self.new.facts ≡ self.old.facts }
        ensures marks { self.new.marks ≡ claims_in cut.now self.old.facts }
        ensures room { self.new.room ≡ self.old.room }
    {
        self.unmark();
        let mut walk = Walk::new();
        for claim in cut.claims().iter() {
            self.mark_claim(&mut walk, &claim.key);
        }
    }

    /// Takes off all marks. It takes no memory.
    pub fn unmark(&mut self)
        ensures facts { self.new.facts ≡ self.old.facts }
        ensures marks { self.new.marks ≡ no_marks self.old.facts }
        ensures room { self.new.room ≡ self.old.room }
    {
        self.marks.fill(false);
    }

    /// Changes the claims as an entry says, where it is accepted. There is room for one more, no key is filed twice, and the parts
    /// together stay below 2^64 cents. It takes no memory.
    pub fn apply(&mut self, entry: &Entry)
        requires room { 0 < self.old.room }
        requires stand { MayStand (claims_with entry.now self.old.facts) }

        // The claims and marks with the entry, and the room that is left.
        ensures facts { self.new.facts ≡ claims_with entry.now self.old.facts }
        ensures marks { self.new.marks ≡ claim_marks_with entry.now self.old.marks }
        ensures room { self.old.room ≤ self.new.room + 1 }
    {
        if !accepted(entry) {
            return;
        }
        match &entry.act {
            Act::File {
                key,
                debtor,
                amount,
                due,
            } => self.add_claim(key, debtor, *amount, due),
            Act::Confirm { key, agreed, .. } => self.set_status(key, Status::Confirmed, *agreed),
            Act::Dispute { key, .. } => self.set_status(key, Status::Disputed, None),
            Act::Withdraw { key } => self.set_status(key, Status::Withdrawn, None),
            Act::Receive { key, amount } => self.receive(key, *amount),
            Act::Firm { .. }
            | Act::Fund { .. }
            | Act::Draw { .. }
            | Act::Limit { .. }
            | Act::Offer { .. }
            | Act::Position { .. }
            | Act::Close { .. }
            | Act::Abandon
            | Act::Publish { .. } => {}
        }
    }

    /// Takes off each claim what the round of a cut discharged of it. There is one discharge for each claim of the cut, which is
    /// well formed. It takes no memory.
    ///
    /// A cut has its claims in the order of the table. So each is looked for behind the one before it, and all of them are found in
    /// one walk over the table; a claim that does not stand there is found by the index.
    pub fn discharge(&mut self, cut: &Cut, discharges: &[u64])
        requires one_each { length discharges.now ≡ length cut.now.claims }
        requires formed { WellFormed cut.now }

        // The claims are settled. All else is as it was.
        ensures facts { self.new.facts ≡ map (settled_claim (record { cut = cut.now; discharges = discharges.now })) self.old.facts }
        ensures marks { self.new.marks ≡ self.old.marks }
        ensures room { self.new.room ≡ self.old.room }
    {
        let mut walk = Walk::new();
        for (i, claim) in cut.claims().iter().enumerate() {
            self.settle(&mut walk, claim, discharges[i]);
        }
    }

    // Takes an amount off a claim of a cut.
    fn settle(&mut self, walk: &mut Walk, claim: &CutClaim, amount: u64)
        ensures facts { self.new.facts ≡ map (with_receipt claim.now.key amount) self.old.facts }
        ensures marks { self.new.marks ≡ self.old.marks }
        ensures room { self.new.room ≡ self.old.room }
    {
        let found = self.next_place(walk, &claim.key);
        let sides = self.receive_at(found, walk.sides_of(claim), &claim.key, amount);
        walk.keep(claim, sides);
    }

    // Marks the claim of a key, which is looked for on the walk first. The marks were those of a test.
    fn mark_claim(&mut self, walk: &mut Walk, key: &Key)
        ensures facts { self.new.facts ≡ self.old.facts }
        ensures marks { (test : ClaimFact → Bool) → self.old.marks ≡ map test self.old.facts
            → self.new.marks ≡ map (λ c. same_key key.now c.key || test c) self.old.facts }
        ensures room { self.new.room ≡ self.old.room }
    {
        if let Some(place) = self.next_place(walk, key) {
            self.marks[place] = true;
        }
    }

    // The place of a claim, which is looked for on the walk first.
    fn next_place(&self, walk: &mut Walk, key: &Key) -> Option<usize>
        ensures { result ≡ position (λ c. same_key key.now c.key) self.now.facts }
    {
        match self.keys.place_from(walk.next, key) {
            None => {
                walk.next = self.facts.len();
                self.place(key)
            }
            Some(place) => {
                walk.next = place + 1;
                Some(place)
            }
        }
    }

    fn add_claim(&mut self, key: &Key, debtor: &Name, amount: u64, due: &Day)
        requires room { 0 < self.old.room }
        requires stand { MayStand (self.old.facts ++ new_claim key.now debtor.now amount due.now ∷ []) }

        // The claim stands at the end, without a mark.
        ensures facts { self.new.facts ≡ self.old.facts ++ new_claim key.now debtor.now amount due.now ∷ [] }
        ensures marks { self.new.marks ≡ self.old.marks ++ false ∷ [] }
        ensures room { self.old.room ≤ self.new.room + 1 }
    {
        self.keys.add(*key);
        self.receivables.begin(&key.creditor);
        self.payables.begin(debtor);
        self.marks.push_reserved(false);
        self.facts.push_reserved(ClaimFact {
            key: *key,
            debtor: *debtor,
            status: Status::Filed,
            amount,
            left: amount,
            part: 0,
            due: *due,
        });
    }

    // The place of a claim; None where the key was never filed.
    fn place(&self, key: &Key) -> Option<usize>
        ensures { result ≡ position (λ c. same_key key.now c.key) self.now.facts }
    {
        self.keys.place(key)
    }

    // Gives a claim a status, and the part that is open of what is agreed to.
    fn set_status(&mut self, key: &Key, status: Status, agreed: Option<u64>)
        requires { MayStand (map (with_status key.now status agreed) self.old.facts) }
        ensures facts { self.new.facts ≡ map (with_status key.now status agreed) self.old.facts }
        ensures marks { self.new.marks ≡ self.old.marks }
        ensures room { self.new.room ≡ self.old.room }
    {
        if let Some(place) = self.keys.place(key) {
            let claim = self.facts[place];
            let part = part_of(&claim, status, agreed);
            let restated = ClaimFact {
                status,
                part,
                ..claim
            };
            let _ = self.put(place, Sides::new(), restated);
        }
    }

    fn receive(&mut self, key: &Key, amount: u64)
        ensures facts { self.new.facts ≡ map (with_receipt key.now amount) self.old.facts }
        ensures marks { self.new.marks ≡ self.old.marks }
        ensures room { self.new.room ≡ self.old.room }
    {
        let found = self.place(key);
        let _ = self.receive_at(found, Sides::new(), key, amount);
    }

    // Takes an amount off the claim that was found, if any was: off what is open, and off the part that is agreed to.
    fn receive_at(&mut self, found: Option<usize>, sides: Sides, key: &Key, amount: u64) -> Sides
        requires { found ≡ position (λ c. same_key key.now c.key) self.old.facts }
        ensures facts { self.new.facts ≡ map (with_receipt key.now amount) self.old.facts }
        ensures marks { self.new.marks ≡ self.old.marks }
        ensures room { self.new.room ≡ self.old.room }
    {
        let _ = key;
        match found {
            None => sides,
            Some(place) => {
                let claim = self.facts[place];
                let left = claim.left.saturating_sub(amount);
                let part = claim.part.saturating_sub(amount);
                self.put(
                    place,
                    sides,
                    ClaimFact {
                        left,
                        part,
                        ..claim
                    },
                )
            }
        }
    }

    // Puts a claim of the same key and debtor at a place, where the parts together still fit. Gives where its two firms have their
    // sums, which are looked for at some sides first.
    fn put(&mut self, place: usize, sides: Sides, claim: ClaimFact) -> Sides
        requires within { place < length self.old.facts }
        requires key { claim.key ≡ (get_or self.old.facts place claim).key }
        requires debtor { claim.debtor ≡ (get_or self.old.facts place claim).debtor }
        requires small { sum_by (λ c. c.part) (set self.old.facts place claim) < 2 ^ 64 }

        // The claim stands at its place. All else is as it was.
        ensures facts { self.new.facts ≡ set self.old.facts place claim }
        ensures marks { self.new.marks ≡ self.old.marks }
        ensures room { self.new.room ≡ self.old.room }
    {
        let less = self.facts[place].part;
        let more = claim.part;
        let creditor = self
            .receivables
            .change(sides.creditor, &claim.key.creditor, less, more);
        let debtor = self
            .payables
            .change(sides.debtor, &claim.debtor, less, more);
        self.facts[place] = claim;
        Sides { creditor, debtor }
    }
}

// The part of a claim that is open in a status, of an amount that is agreed to, or of all where none is named.
fn part_of(claim: &ClaimFact, status: Status, agreed: Option<u64>) -> u64
    ensures { result ≡ part_in status agreed claim.now }
{
    match status {
        Status::Confirmed => {
            let paid = claim.amount.saturating_sub(claim.left);
            agreed.unwrap_or(claim.amount).saturating_sub(paid)
        }
        Status::Filed | Status::Disputed | Status::Withdrawn => 0,
    }
}
