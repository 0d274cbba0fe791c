//! Who is shown a sink and a disk.
ghost use Rattle.std.specs.Prelude.{◌≡◌, List, [], ◌∷◌, ◌++◌};
ghost use Rattle.disk_witness.specs.Shown.{Shown};

use bureau_edge::Sink;

/// Is shown a sink and a disk, and keeps what they were.
pub trait Witness<K: Sink, D> {
    /// What it was shown, in this order.
    ghost shown: { Self → List (Shown D) };

    /// It is shown both as they are now.
    fn show(&mut self, sink: &K, disk: &D)
        ensures { shown self.new ≡ shown self.old ++ (record { held = K.held sink.now; disk = disk.now }) ∷ [] };
}
