//! A source of bytes.
ghost use Rattle.std.specs.Prelude.{ℕ, ◌<◌, List, length};
ghost use Rattle.std.specs.declared.option.Option.{Option};
ghost use Rattle.std.specs.Io.{ReadsAtMost};
ghost use Rattle.std.specs.Io.KnownBytes.{ReadConsumes};
ghost use Rattle.fault_count.specs.Counts.{IsCounted};

use crate::failed::Failed;

/// A source of bytes, which counts its faults.
pub trait Source {
    /// The bytes that are left, where it tells them.
    ghost left: { Self → Option (List ℕ) };

    /// How many faults it has had. The count never falls, and stops at the last `u64`.
    ghost faults: { Self → ℕ };

    /// Moves some of the bytes that are left into the front of a buffer, and answers how many:
    /// 0 only at the end. Where it fails it moves none, and has counted a fault.
    fn read(&mut self, into: &mut [u8]) -> Result<usize, Failed>
        requires { 0 < length into.old }
        ensures bound { ReadsAtMost result into.new }
        ensures bytes { ReadConsumes (left self.old) (left self.new) result into.new }
        ensures cause { IsCounted (faults self.old) (faults self.new) result };
}
