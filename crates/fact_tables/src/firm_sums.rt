//! Sums of amounts, by firm.
ghost use Rattle.std.specs.Prelude.{ℕ, List, ◌≡◌, ◌+◌, ◌-◌, ◌<◌, ◌≤◌, ◌^◌, [], true, OnOk, OnErr, if◌then◌else◌};
ghost use Rattle.setoff_model.specs.Same.{same_name};
ghost use Rattle.fact_tables.specs.Sums.{sum_of, has_sum};

use name_index::NameIndex;
use setoff_model::Name;
use std::alloc::{AllocError, Global};
use std::marker::Model;

/// A sum for each firm that has one, in cents, and the room for more.
#[derive(Drop)]
pub(crate) struct FirmSums {
    firms: NameIndex,
    sums: Vec<u64>,
}

impl Model for FirmSums {
    ghost use Rattle.std.specs.Prelude.{◌≡◌, ◌-◌, min, length, vec_len, vec_capacity};
    ghost use Rattle.fact_tables.specs.Sums.{SumsView};

    ghost Value = { SumsView };

    ghost view = { λ s. record {
      firms = s.firms.names;
      sums = s.sums.items;
      room = min (vec_capacity s.sums - vec_len s.sums) s.firms.room;
    } };

    ghost invariant = { λ s. length s.sums.items ≡ length s.firms.names };
}

impl FirmSums {
    /// No firm has a sum. It takes no memory.
    pub(crate) fn new(alloc: Global) -> FirmSums
        ensures firms { result.firms ≡ [] }
        ensures sums { result.sums ≡ [] }
        ensures room { result.room ≡ 0 }
    {
        FirmSums {
            firms: NameIndex::new(alloc),
            sums: Vec::new(alloc),
        }
    }

    /// Makes the room for so many firms. It lowers no room that was made before.
    ///
    /// The only error is that memory is missing. It comes only where there was less room.
    pub(crate) fn reserve(&mut self, firms: usize) -> Result<(), AllocError>
        // The firms and sums are as they were.
        ensures firms { self.new.firms ≡ self.old.firms }
        ensures sums { self.new.sums ≡ self.old.sums }

        // There is the room, and no less than before. An error comes only where there was less.
        ensures room { OnOk result (firms ≤ self.new.room) }
        ensures kept { self.old.room ≤ self.new.room }
        ensures needed { OnErr result (self.old.room < firms) }
    {
        self.firms.reserve(firms)?;
        self.sums.reserve(firms)
    }

    /// The sum of a firm; 0 where it has none.
    pub(crate) fn sum(&self, firm: &Name) -> u64
        ensures { result ≡ sum_of self.now firm.now }
    {
        match self.firms.place(firm) {
            None => 0,
            Some(place) => self.sums[place],
        }
    }

    /// Begins the sum of a firm with 0, where it has none. There is room for it, so this takes no memory.
    pub(crate) fn begin(&mut self, firm: &Name)
        requires { 0 < self.old.room }

        // The firm has a sum, and each sum is as it was. One place is taken at most.
        ensures begun { has_sum self.new firm.now ≡ true }
        ensures known { (other : List ℕ) → has_sum self.old other ≡ true → has_sum self.new other ≡ true }
        ensures sums { (other : List ℕ) → sum_of self.new other ≡ sum_of self.old other }
        ensures room { self.old.room ≤ self.new.room + 1 }
    {
        if self.firms.place(firm).is_none() {
            self.firms.add(*firm);
            self.sums.push_reserved(0);
        }
    }

    /// Takes one amount off the sum of a firm, and adds another. The firm has a sum, which the first is not above, and what comes
    /// out fits. The firm is looked for at a place first; the place at which it stands is given.
    pub(crate) fn change(&mut self, guess: usize, firm: &Name, less: u64, more: u64) -> usize
        requires known { has_sum self.old firm.now ≡ true }
        requires enough { less ≤ sum_of self.old firm.now }
        requires fits { sum_of self.old firm.now - less + more < 2 ^ 64 }

        // The sum of this firm has changed. All else is as it was.
        ensures known { (other : List ℕ) → has_sum self.new other ≡ has_sum self.old other }
        ensures sums { (other : List ℕ) → sum_of self.new other
            ≡ (if same_name firm.now other then sum_of self.old other - less + more else sum_of self.old other) }
        ensures room { self.new.room ≡ self.old.room }
    {
        match self.firms.place_near(guess, firm) {
            None => guess,
            Some(place) => {
                let sum = self.sums[place];
                self.sums[place] = sum - less + more;
                place
            }
        }
    }
}
