//! In which order the parties are roots.
use crate::sides::{NONE, Side};
use loose_places::{at, put, short};
use std::alloc::{AllocError, Global};

// Parties with more claims count as if they had so many.
const MOST_COUNTED: u32 = 1_023;

// The parties that owe something, those with the fewest claims first, as it was when they were last listed.
//
// They are listed anew each time a sixteenth of all parties was taken. For each number of claims there is the first party that
// has so many, and for each party the next.
#[derive(Drop)]
pub(crate) struct Order {
    firsts: Vec<u32>,
    later: Vec<u32>,
    least: u32,
    taken: usize,
}

impl Order {
    pub(crate) fn new(alloc: Global, parties: usize) -> Result<Order, AllocError> {
        Ok(Order {
            firsts: vec![in alloc; NONE; MOST_COUNTED as usize + 1]?,
            later: vec![in alloc; NONE; parties]?,
            least: MOST_COUNTED,
            taken: parties,
        })
    }

    // Takes the next party that owes something; none where there is none.
    pub(crate) fn take(&mut self, owed: &Side, due: &Side) -> u32 {
        if self.taken > self.later.len() / 16 {
            self.list(owed, due);
        }
        let party = self.take_listed(owed);
        if party != NONE {
            return party;
        }
        self.list(owed, due);
        self.take_listed(owed)
    }

    // Lists all parties that owe something.
    fn list(&mut self, owed: &Side, due: &Side) {
        self.least = 0;
        self.taken = 0;
        for claims in 0..self.firsts.len() {
            put(&mut self.firsts, claims, NONE);
        }
        for party in 0..self.later.len() {
            let party = short(party);
            if owed.count(party) > 0 {
                let claims = owed
                    .count(party)
                    .wrapping_add(due.count(party))
                    .min(MOST_COUNTED);
                put(
                    &mut self.later,
                    party as usize,
                    at(&self.firsts, claims as usize, NONE),
                );
                put(&mut self.firsts, claims as usize, party);
            }
        }
    }

    // Takes the next party of the list that still owes something.
    fn take_listed(&mut self, owed: &Side) -> u32 {
        for _ in 0..self.later.len().saturating_add(self.firsts.len()) {
            let party = at(&self.firsts, self.least as usize, NONE);
            if party != NONE {
                put(
                    &mut self.firsts,
                    self.least as usize,
                    at(&self.later, party as usize, NONE),
                );
                if owed.count(party) > 0 {
                    self.taken = self.taken.wrapping_add(1);
                    return party;
                }
            } else if self.least < MOST_COUNTED {
                self.least = self.least.wrapping_add(1);
            } else {
                return NONE;
            }
        }
        NONE
    }
}
