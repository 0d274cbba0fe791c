//! What the tests of loads are made of.
ghost use Rattle.std.specs.Prelude.{IfSome};
ghost use Rattle.group_runs.specs.Runs.{IsAllKept};

use disk_model::MemoryDisk;
use group_runs::Loader;
use journal_texts::Desk;
use round_journal::read_records;
use std::alloc::Global;
use std::process::Abort;

/// A disk in memory with these bytes, of whose calls these fail.
pub(crate) fn disk_of(rt: &(impl Abort + AllocGlobal), bytes: &[u8], fails: &[u64]) -> MemoryDisk {
    let bytes = Vec::from_slice(rt.alloc(), bytes).expect(rt, "memory");
    let fails = Vec::from_slice(rt.alloc(), fails).expect(rt, "memory");
    MemoryDisk::new(rt.alloc(), bytes, fails)
}

// A load on the journal of a disk, or None where no desk was opened.
fn load_on(alloc: Global, disk: MemoryDisk) -> Option<Loader<MemoryDisk>>
    ensures { IfSome result (λ l. IsAllKept l) }
{
    let Ok(desk) = Desk::open(alloc, disk) else {
        return None;
    };
    let _books = desk.books();
    let (journal, books) = desk.into_parts();
    Some(Loader::new(alloc, journal, books))
}

/// A load on a disk without bytes, of whose calls these fail. The opening makes four calls, each of two moments.
pub(crate) fn begin(rt: &(impl Abort + AllocGlobal), fails: &[u64]) -> Loader<MemoryDisk>
    ensures { IsAllKept result }
{
    load_on(rt.alloc(), disk_of(rt, b"", fails)).expect(rt, "no fault")
}

/// How many records these bytes hold.
pub(crate) fn held(rt: &(impl Abort + AllocGlobal), bytes: &[u8]) -> usize {
    let mut disk = disk_of(rt, bytes, &[]);
    let records = read_records(rt.alloc(), &mut disk).ok();
    records.expect(rt, "sound").len()
}
