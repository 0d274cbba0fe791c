//! A witness for proofs alone.
ghost use Rattle.std.specs.Prelude.{◌≡◌, [], map};

use crate::proof_list::ProofList;
use crate::witness::Witness;
use bureau_edge::Sink;
use std::snapshot::Snapshot;

// A sink and a disk as they were at one moment.
#[derive(Drop)]
struct Pair<K, D> {
    sink: Snapshot<K>,
    disk: Snapshot<D>,
}

/// A witness that takes no memory and does nothing. What it was shown is known to proofs.
#[derive(Drop)]
pub struct SilentWitness<K, D> {
    pairs: ProofList<Pair<K, D>>,
}

impl<K, D> SilentWitness<K, D> {
    /// A witness that was shown nothing.
    pub fn new() -> SilentWitness<K, D>
        ensures { result.pairs.items ≡ [] }
    {
        SilentWitness {
            pairs: ProofList::none(),
        }
    }
}

impl<K: Sink, D> Witness<K, D> for SilentWitness<K, D> {
    ghost shown = { λ w. map (λ p. record { held = K.held p.sink.value; disk = p.disk.value }) w.pairs.items };

    fn show(&mut self, sink: &K, disk: &D) {
        let pair = Pair {
            sink: Snapshot::of(sink),
            disk: Snapshot::of(disk),
        };
        self.pairs = self.pairs.and(&pair);
    }
}
