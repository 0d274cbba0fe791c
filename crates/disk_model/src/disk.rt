//! What is asked of a disk.
ghost use Rattle.std.specs.Prelude.{◌≡◌, ◌+◌, ◌^◌, ◌<◌, ◌≤◌, length, take, drop, IsTrue, IfOk, OnOk};
ghost use Rattle.disk_model.specs.Calls.{Seen, IsPresent, Holds, Torn, After, Only, Passes};
ghost use Rattle.fault_count.specs.Counts.{IsCounted};

use crate::disk_failed::DiskFailed;

/// A file on a disk, with a clock. The images of a moment are the bytes that a crash at that moment may have left.
pub trait Disk {
    /// What contracts see of the disk: whether it tells its bytes, and promises anything of them; what a read gives,
    /// where it does; the present moment, a number that does not fall; what a crash at a moment may have left; and how
    /// often the disk has failed, a count that stops at the last `u64`.
    ghost seen: { Self → Seen };

    /// The number of bytes. No byte changes, and a crash during the call leaves what one before it may have left.
    fn len(&mut self) -> Result<u64, DiskFailed>
        // The number of the bytes, which stay as they were.
        ensures len { IfOk result (λ n. IsTrue (seen self.old).tells → n ≡ length (seen self.old).reads) }
        ensures tells { (seen self.new).tells ≡ (seen self.old).tells }
        ensures reads { (seen self.new).reads ≡ (seen self.old).reads }

        // What a crash leaves meanwhile, and the cause of an error.
        ensures crash { Passes (seen self.old) (seen self.new) (IsPresent (seen self.old)) }
        ensures cause { IsCounted (seen self.old).count (seen self.new).count result };

    /// Fills `into` with the bytes from `at` on. No byte of the disk changes, and a crash during the call leaves
    /// what one before it may have left.
    fn read_at(&mut self, at: u64, into: &mut [u8]) -> Result<(), DiskFailed>
        requires { IsTrue (seen self.old).tells → at + length into.old ≤ length (seen self.old).reads }

        // The bytes from there on, which stay as they were.
        ensures read { OnOk result (IsTrue (seen self.old).tells → into.new ≡ take (length into.old) (drop at (seen self.old).reads)) }
        ensures tells { (seen self.new).tells ≡ (seen self.old).tells }
        ensures reads { (seen self.new).reads ≡ (seen self.old).reads }

        // What a crash leaves meanwhile, and the cause of an error.
        ensures crash { Passes (seen self.old) (seen self.new) (IsPresent (seen self.old)) }
        ensures cause { IsCounted (seen self.old).count (seen self.new).count result };

    /// Writes a piece at an offset, over what is there and past the end. Until a sync has succeeded, a crash may
    /// leave any bytes in its range and past the old end, and any length from the old one to the new one. A write
    /// that failed counts as a write, and the disk may then read so, too.
    fn write_at(&mut self, at: u64, piece: &[u8]) -> Result<(), DiskFailed>
        requires place { IsTrue (seen self.old).tells → at ≤ length (seen self.old).reads }
        requires end { at + length piece.now < 2 ^ 62 }

        // What a read gives then, also after an error.
        ensures written { OnOk result (IsTrue (seen self.old).tells → Holds (seen self.old).reads at piece.now (seen self.new).reads) }
        ensures torn { IsTrue (seen self.old).tells → Torn at (length piece.now) (seen self.old).reads (seen self.new).reads }
        ensures passes { OnOk result (IsTrue (seen self.old).tells → (seen self.old).moment < (seen self.new).moment) }
        ensures tells { (seen self.new).tells ≡ (seen self.old).tells }

        // What a crash leaves meanwhile, and the cause of an error.
        ensures crash { Passes (seen self.old) (seen self.new) (After (Torn at (length piece.now)) (IsPresent (seen self.old))) }
        ensures cause { IsCounted (seen self.old).count (seen self.new).count result };

    /// Brings all writes to the medium. After it, a crash leaves what a read gives and nothing else. No byte
    /// changes, and a crash during the call leaves what one before it may have left.
    fn sync(&mut self) -> Result<(), DiskFailed>
        // What a crash leaves after it. The bytes stay as they were.
        ensures durable { OnOk result (IsTrue (seen self.old).tells → Only (seen self.old).reads (IsPresent (seen self.new))) }
        ensures passes { OnOk result (IsTrue (seen self.old).tells → (seen self.old).moment < (seen self.new).moment) }
        ensures tells { (seen self.new).tells ≡ (seen self.old).tells }
        ensures reads { (seen self.new).reads ≡ (seen self.old).reads }

        // What a crash leaves meanwhile, and the cause of an error.
        ensures crash { Passes (seen self.old) (seen self.new) (IsPresent (seen self.old)) }
        ensures cause { IsCounted (seen self.old).count (seen self.new).count result };

    /// How often the disk has failed. The count stops at the last `u64`.
    fn faults(&self) -> u64
        ensures { result ≡ (seen self.now).count };

    /// What a read gives is an image of the present moment.
    ghost reads_now: { (disk : Self) → IsTrue (seen disk).tells → IsPresent (seen disk) (seen disk).reads };
}
