//! A disk in memory that keeps what each call did, so that a crash at each past moment can be shown.
ghost use Rattle.std.specs.Prelude.{◌≡◌, ◌+◌, ◌^◌, ◌≤◌, ◌<◌, ℕ, List, [], ◌∷◌, ◌++◌, length, take};
ghost use Rattle.std.specs.Prelude.{drop, true, Option, None, Some, IfOk, IsErr, OnOk, OnErr};
ghost use Rattle.disk_model.specs.Calls.{Holds, Torn, After, Only, Passes, IsPresent};
ghost use Rattle.fault_count.specs.Counts.{IsCounted, HasRisen};
ghost use Rattle.disk_model.specs.Steps.{reads_after, all_within};
ghost use Rattle.disk_model.specs.Memory.{first_of, end_step, is_named, after_quiet, after_refused, after_write, HasFailed, new_state};
ghost use Rattle.disk_model.specs.declared.step.Step.TheVariants.{Waited, Synced};

use crate::disk::Disk;
use crate::disk_failed::DiskFailed;
use crate::overlay::overlay_with;
use crate::replay::replay_steps;
use crate::step::Step;
use fault_count::next_count;
use std::alloc::{AllocError, Global};

/// A file in memory, with faults at chosen calls. It tells its bytes, and keeps what each call did.
pub struct MemoryDisk {
    alloc: Global,
    first: Option<Vec<u8>>,
    bytes: Vec<u8>,
    steps: Vec<Step>,
    fails: Vec<u64>,
    calls: u64,
    faults: u64,
    refused: u64,
    ghost read: { bytes.items ≡ reads_after (first_of first bytes.items) steps.items },
    ghost within: { all_within (first_of first bytes.items) steps.items ≡ true },
}

// Written out, so that it is proved once, and not in each crate that lets a disk go.
impl Drop for MemoryDisk {
    fn drop(self) {
        let Self {
            alloc,
            first,
            bytes,
            steps,
            fails,
            calls,
            faults,
            refused,
        } = self;
    }
}

impl MemoryDisk {
    ghost use Rattle.disk_model.specs.MemoryState.{memory_state, seen_of};

    /// A disk that holds these bytes, all of them synced. Its calls with the numbers in `fails` fail: `len`,
    /// `read_at`, `write_at` and `sync` are counted together, from 1. It takes no memory.
    pub fn new(alloc: Global, bytes: Vec<u8>, fails: Vec<u64>) -> MemoryDisk
        ensures { memory_state result ≡ new_state bytes.items fails.items 0 }
    {
        MemoryDisk::with_faults(alloc, bytes, fails, 0)
    }

    /// As `new`, with a count of faults that begins at `faults`. A fault at the last `u64` leaves it there.
    pub fn with_faults(alloc: Global, bytes: Vec<u8>, fails: Vec<u64>, faults: u64) -> MemoryDisk
        ensures { memory_state result ≡ new_state bytes.items fails.items faults }
    {
        MemoryDisk {
            alloc,
            first: None,
            bytes,
            steps: Vec::new(alloc),
            fails,
            calls: 0,
            faults,
            refused: 0,
        }
    }

    /// What a read gives.
    pub fn bytes(&self) -> &[u8]
        ensures { result.now ≡ (memory_state self.now).bytes }
    {
        &self.bytes
    }

    /// The present moment: twice the number of the calls that were kept. All are kept but those for which a growth
    /// was refused. The first moment of such a call lies within it, and the second one at its end.
    pub fn moment(&self) -> u64
        ensures { result ≡ (seen_of self.now).moment }
    {
        self.steps.len() as u64
    }

    /// How many calls failed because memory ran out. The count stops at the last `u64`.
    pub fn refused(&self) -> u64
        ensures { result ≡ (memory_state self.now).refused }
    {
        self.refused
    }

    /// One of the images of a moment that has been. Its candidates are the writes that had begun by then, after
    /// the last sync that had succeeded by then, without those that failed. The one of place i, from 0, stands in
    /// the image exactly where i is below 64 and bit i of `pick` is 1. The image is as long as with all
    /// candidates, and bytes past the old end that no standing one gave are 0. The error is running out of memory.
    pub fn image(&self, alloc: Global, moment: u64, pick: u64) -> Result<Vec<u8>, AllocError>
        requires { moment ≤ (seen_of self.now).moment }
        ensures { IfOk result (λ image. (seen_of self.now).image moment image.items) }
    {
        let start = first_bytes(&self.first, &self.bytes);
        replay_steps(alloc, start, &self.steps[..moment as usize], pick)
    }

    // A call that changes no byte. It ends with a sync or with nothing.
    fn begin(&mut self, syncs: bool) -> Result<(), DiskFailed>
        ensures ok { OnOk result (memory_state self.new ≡ after_quiet (end_step syncs) (memory_state self.old)) }
        ensures named { is_named (memory_state self.old) ≡ true → IsErr result }
        ensures err { OnErr result (HasFailed (memory_state self.old) (memory_state self.new)) }
        ensures cause { IsCounted self.old.faults self.new.faults result }
    {
        if self.is_named() {
            return Err(self.fail_named());
        }
        match note(&mut self.steps, Step::Waited, end_of(syncs)) {
            Ok(()) => {
                self.calls = next_count(self.calls);
                Ok(())
            }
            Err(_) => Err(self.refuse()),
        }
    }

    // Whether the next call is one of those that fail.
    fn is_named(&self) -> bool
        ensures { result ≡ is_named (memory_state self.now) }
    {
        self.fails.contains(&next_count(self.calls))
    }

    // A call that was named: it does nothing.
    fn fail_named(&mut self) -> DiskFailed
        requires { is_named (memory_state self.old) ≡ true }
        ensures failed { HasFailed (memory_state self.old) (memory_state self.new) }
        ensures later { self.old.faults ≤ self.new.faults }
        ensures rose { HasRisen self.old.faults self.new.faults }
    {
        match note(&mut self.steps, Step::Waited, Step::Waited) {
            Ok(()) => {
                self.calls = next_count(self.calls);
                self.faults = next_count(self.faults);
                DiskFailed
            }
            Err(_) => self.refuse(),
        }
    }

    // A call for which memory was refused. It is not kept.
    fn refuse(&mut self) -> DiskFailed
        ensures failed { memory_state self.new ≡ after_refused (memory_state self.old) }
        ensures later { self.old.faults ≤ self.new.faults }
        ensures rose { HasRisen self.old.faults self.new.faults }
    {
        self.calls = next_count(self.calls);
        self.faults = next_count(self.faults);
        self.refused = next_count(self.refused);
        DiskFailed
    }

    // Makes all room before anything changes.
    fn overwrite(&mut self, at: usize, piece: &[u8]) -> Result<(), AllocError>
        requires { at ≤ length self.old.bytes.items }
        ensures ok { OnOk result ((kept : _) × (kept.items ≡ piece.now)
            × (memory_state self.new ≡ after_write at kept (memory_state self.old))) }
        ensures err { OnErr result (memory_state self.new ≡ memory_state self.old) }
    {
        self.keep_first()?;
        let kept = piece.to_vec(self.alloc)?;
        self.steps.reserve(2)?;
        overlay_with(&mut self.bytes, at, piece)?;
        let at = at as u64;
        self.steps.push_reserved(Step::Wrote { at, piece: kept });
        self.steps.push_reserved(Step::Waited);
        self.calls = next_count(self.calls);
        Ok(())
    }

    // Keeps the bytes of the start, where nothing has been written yet.
    fn keep_first(&mut self) -> Result<(), AllocError>
        ensures state { memory_state self.new ≡ memory_state self.old }
        ensures kept { OnOk result ((bytes : List ℕ) → first_of self.new.first bytes ≡ (memory_state self.old).first) }
    {
        if self.first.is_none() {
            self.first = Some(self.bytes.to_vec(self.alloc)?);
        }
        Ok(())
    }
}

// The bytes of the start.
fn first_bytes<'a>(first: &'a Option<Vec<u8>>, bytes: &'a [u8]) -> &'a [u8]
    ensures { result.now ≡ first_of first.now bytes.now }
{
    match first {
        Some(first) => first.as_slice(),
        None => bytes,
    }
}

fn end_of(syncs: bool) -> Step
    ensures { result ≡ end_step syncs }
{
    if syncs { Step::Synced } else { Step::Waited }
}

// Keeps the two moments of a call.
fn note(steps: &mut Vec<Step>, within: Step, end: Step) -> Result<(), AllocError>
    ensures ok { OnOk result (steps.new.items ≡ steps.old.items ++ within ∷ end ∷ []) }
    ensures err { OnErr result (steps.new.items ≡ steps.old.items) }
{
    steps.reserve(2)?;
    steps.push_reserved(within);
    steps.push_reserved(end);
    Ok(())
}

impl Disk for MemoryDisk {
    ghost use Rattle.disk_model.specs.ReadsNow.{memory_reads_now};
    ghost use Rattle.disk_model.specs.MemoryState.{memory_state, seen_of};

    ghost seen = { seen_of };

    ghost reads_now = { λ m told. memory_reads_now (first_of m.first m.bytes.items) m.bytes.items m.steps.items m.read m.within };

    /// The number of bytes. It fails exactly where it was named, and where a growth was refused.
    fn len(&mut self) -> Result<u64, DiskFailed>
        ensures len { IfOk result (λ n. n ≡ length self.old.bytes.items) }
        ensures reads { self.new.bytes.items ≡ self.old.bytes.items }
        ensures crash { Passes (seen_of self.old) (seen_of self.new) (IsPresent (seen_of self.old)) }
        ensures cause { IsCounted self.old.faults self.new.faults result }

        // The state after it, and where it fails.
        ensures ok { OnOk result (memory_state self.new ≡ after_quiet Waited (memory_state self.old)) }
        ensures named { is_named (memory_state self.old) ≡ true → IsErr result }
        ensures err { OnErr result (HasFailed (memory_state self.old) (memory_state self.new)) }
    {
        self.begin(false)?;
        Ok(self.bytes.len() as u64)
    }

    /// Fills `into` with the bytes from `at` on. It fails as `len` does.
    fn read_at(&mut self, at: u64, into: &mut [u8]) -> Result<(), DiskFailed>
        requires { at + length into.old ≤ length self.old.bytes.items }

        // The bytes from there on, what a crash leaves meanwhile, and the cause of an error.
        ensures read { OnOk result (into.new ≡ take (length into.old) (drop at self.old.bytes.items)) }
        ensures reads { self.new.bytes.items ≡ self.old.bytes.items }
        ensures crash { Passes (seen_of self.old) (seen_of self.new) (IsPresent (seen_of self.old)) }
        ensures cause { IsCounted self.old.faults self.new.faults result }

        // The state after it, and where it fails.
        ensures ok { OnOk result (memory_state self.new ≡ after_quiet Waited (memory_state self.old)) }
        ensures named { is_named (memory_state self.old) ≡ true → IsErr result }
        ensures err { OnErr result (HasFailed (memory_state self.old) (memory_state self.new)) }
    {
        self.begin(false)?;
        let at = at as usize;
        into.copy_from_slice(&self.bytes[at..at + into.len()]);
        Ok(())
    }

    /// Writes a piece. It fails as `len` does, and leaves the bytes as they were then.
    fn write_at(&mut self, at: u64, piece: &[u8]) -> Result<(), DiskFailed>
        requires place { at ≤ length self.old.bytes.items }
        requires end { at + length piece.now < 2 ^ 62 }

        // What a read gives then, also after an error.
        ensures written { OnOk result (Holds self.old.bytes.items at piece.now self.new.bytes.items) }
        ensures torn { Torn at (length piece.now) self.old.bytes.items self.new.bytes.items }
        ensures passes { OnOk result ((seen_of self.old).moment < (seen_of self.new).moment) }

        // What a crash leaves meanwhile, and the cause of an error.
        ensures crash { Passes (seen_of self.old) (seen_of self.new) (After (Torn at (length piece.now)) (IsPresent (seen_of self.old))) }
        ensures cause { IsCounted self.old.faults self.new.faults result }

        // The state after it, and where it fails.
        ensures ok { OnOk result ((kept : _) × (kept.items ≡ piece.now)
            × (memory_state self.new ≡ after_write at kept (memory_state self.old))) }
        ensures named { is_named (memory_state self.old) ≡ true → IsErr result }
        ensures err { OnErr result (HasFailed (memory_state self.old) (memory_state self.new)) }
    {
        if self.is_named() {
            return Err(self.fail_named());
        }
        match self.overwrite(at as usize, piece) {
            Ok(()) => Ok(()),
            Err(_) => Err(self.refuse()),
        }
    }

    /// After it, a crash leaves what a read gives. It fails as `len` does.
    fn sync(&mut self) -> Result<(), DiskFailed>
        // What a crash leaves after it. The bytes stay as they were.
        ensures durable { OnOk result (Only self.old.bytes.items (IsPresent (seen_of self.new))) }
        ensures passes { OnOk result ((seen_of self.old).moment < (seen_of self.new).moment) }
        ensures reads { self.new.bytes.items ≡ self.old.bytes.items }

        // What a crash leaves meanwhile, and the cause of an error.
        ensures crash { Passes (seen_of self.old) (seen_of self.new) (IsPresent (seen_of self.old)) }
        ensures cause { IsCounted self.old.faults self.new.faults result }

        // The state after it, and where it fails.
        ensures ok { OnOk result (memory_state self.new ≡ after_quiet Synced (memory_state self.old)) }
        ensures named { is_named (memory_state self.old) ≡ true → IsErr result }
        ensures err { OnErr result (HasFailed (memory_state self.old) (memory_state self.new)) }
    {
        self.begin(true)?;
        Ok(())
    }

    fn faults(&self) -> u64 {
        self.faults
    }
}
