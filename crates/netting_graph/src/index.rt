//! Where the arc of a debtor and a creditor stands.
ghost use Rattle.std.specs.Prelude.{◌≡◌, ◌≢◌, ◌++◌, [], ◌∷◌, ℕ, AllPairs, MatchOption, IfOk, OnOk};
ghost use Rattle.netting_graph.specs.Pairs.{Pairs, IsPairAt};
ghost use Rattle.netting_graph.specs.NetView.{pairs_of};

use crate::arc::Arc;
use indexmap::IndexSet;
use std::alloc::{AllocError, Global};
use std::marker::Model;

// The debtor and the creditor of an arc, as places of parties.
#[derive(Clone, Copy, PartialEq, Eq, Hash)]
struct Pair {
    debtor: u32,
    creditor: u32,
}

// The pairs of the arcs in order, with a hash table that finds the place of a pair.
#[derive(Drop)]
pub(crate) struct ArcIndex {
    pairs: IndexSet<Pair>,
}

// Contracts see the two columns of the pairs.
impl Model for ArcIndex {
    ghost use Rattle.std.specs.Prelude.{map};
    ghost use Rattle.netting_graph.specs.Pairs.{Pairs};

    ghost Value = { Pairs };

    ghost view = { λ i. record { debtors = map (λ p. p.debtor) i.pairs.keys; creditors = map (λ p. p.creditor) i.pairs.keys } };
}

impl ArcIndex {
    // The index of no arcs.
    pub(crate) fn new(alloc: Global) -> ArcIndex
        ensures { result ≡ record { debtors = []; creditors = [] } }
    {
        ArcIndex {
            pairs: IndexSet::new(alloc),
        }
    }

    // The index of these arcs.
    pub(crate) fn of(alloc: Global, arcs: &[Arc]) -> Result<ArcIndex, AllocError>
        requires { AllPairs (λ a b. a.debtor ≡ b.debtor → a.creditor ≢ b.creditor) arcs.now }
        ensures { IfOk result (λ index. index ≡ pairs_of arcs.now) }
    {
        let mut index = ArcIndex::new(alloc);
        for arc in arcs {
            index.push(arc.debtor, arc.creditor)?;
        }
        Ok(index)
    }

    // The place of the arc of this debtor and this creditor.
    pub(crate) fn find(&self, debtor: u32, creditor: u32) -> Option<usize>
        ensures { MatchOption result ((a : ℕ) → IsPairAt self.now debtor creditor a → ⊥) (IsPairAt self.now debtor creditor) }
    {
        let pair = Pair { debtor, creditor };
        self.pairs.get_index_of(&pair)
    }

    // Puts a new pair last.
    pub(crate) fn push(&mut self, debtor: u32, creditor: u32) -> Result<(), AllocError>
        requires { (a : ℕ) → IsPairAt self.old debtor creditor a → ⊥ }
        ensures { OnOk result (self.new ≡ record {
          debtors = self.old.debtors ++ debtor ∷ [];
          creditors = self.old.creditors ++ creditor ∷ [];
        }) }
    {
        self.pairs.insert(Pair { debtor, creditor })?;
        Ok(())
    }
}
