//! What the tests of several crates are made of.

use claim_history::{Act, Call, Day, main_pool_name};
use disk_model::{FileDisk, MemoryDisk};
use setoff_model::Name;
use std::fs::File;
use std::process::Abort;
use std::rt::Files;

/// The body of caller 1 and FIRM A.
pub(crate) const FIRM_A: [u8; 7] = [0, 0, 0, 1, 1, 1, b'A'];

/// The same in the pool EAST.
pub(crate) const EAST_A: [u8; 13] = [0, 0, 0, 1, 15, 4, b'E', b'A', b'S', b'T', 1, 1, b'A'];

/// The body of caller 0 and ABANDON.
pub(crate) const ABANDON: [u8; 5] = [0, 0, 0, 0, 13];

/// A disk in memory with these bytes, of whose calls these fail.
pub(crate) fn disk_of(rt: &(impl Abort + AllocGlobal), bytes: &[u8], fails: &[u64]) -> MemoryDisk {
    let bytes = Vec::from_slice(rt.alloc(), bytes).expect(rt, "memory");
    let fails = Vec::from_slice(rt.alloc(), fails).expect(rt, "memory");
    MemoryDisk::new(rt.alloc(), bytes, fails)
}

/// The file of this path.
pub(crate) fn file<'a, R: Abort + AllocGlobal + Files<File = File>>(
    rt: &'a R,
    path: &str,
) -> FileDisk<'a, R> {
    let path = String::from_str(rt.alloc(), path).expect(rt, "memory");
    FileDisk::new(rt, path)
}

pub(crate) fn name(rt: &impl Abort, text: &[u8]) -> Name {
    Name::of(text).expect(rt, "a name")
}

pub(crate) fn day(rt: &impl Abort, number: u32) -> Day {
    Day::of_number(number).expect(rt, "a day")
}

/// What a caller asks in the pool MAIN.
pub(crate) fn in_main(caller: u32, act: Act) -> Call {
    Call {
        caller,
        pool: main_pool_name(),
        act,
    }
}

/// What a caller asks in the pool EAST.
pub(crate) fn in_east(rt: &impl Abort, caller: u32, act: Act) -> Call {
    Call {
        caller,
        pool: name(rt, b"EAST"),
        act,
    }
}
