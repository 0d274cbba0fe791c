//! Tests of the loader.

use crate::tests::made::{begin, held};
use act_bodies::can_be_kept;
use claim_history::{Act, Call, Reply, Why};
use disk_model::MemoryDisk;
use group_runs::Loader;
use round_journal::Device;
use setoff_model::Name;
use std::process::Abort;

// Caller 1 registers a firm in a pool.
fn register(rt: &impl Abort, loader: &mut Loader<MemoryDisk>, pool: &[u8], firm: &[u8]) -> Reply {
    let firm = Name::of(firm).expect(rt, "a name");
    let pool = Name::of(pool).expect(rt, "a name");
    let call = Call {
        caller: 1,
        pool,
        act: Act::Firm { firm },
    };
    assert!(rt; can_be_kept(&call));
    match loader.take(call) {
        Ok(reply) => reply,
        Err(_) => panic!(rt; "memory"),
    }
}

// Three records: two firms in MAIN, one of which is asked for twice, and one in EAST.
fn take_three(rt: &impl Abort, loader: &mut Loader<MemoryDisk>) {
    let exists = Reply::Refused(Why::FirmExists);
    assert!(rt; register(rt, loader, b"MAIN", b"A") == Reply::Done);
    assert!(rt; register(rt, loader, b"MAIN", b"A") == exists);
    assert!(rt; register(rt, loader, b"EAST", b"A") == Reply::Done);
    assert!(rt; register(rt, loader, b"MAIN", b"B") == Reply::Done);
}

// Two records more.
fn take_two(rt: &impl Abort, loader: &mut Loader<MemoryDisk>) {
    assert!(rt; register(rt, loader, b"MAIN", b"C") == Reply::Done);
    assert!(rt; register(rt, loader, b"MAIN", b"D") == Reply::Done);
}

fn keep(rt: &impl Abort, loader: Loader<MemoryDisk>) -> Loader<MemoryDisk> {
    match loader.keep() {
        Ok(loader) => loader,
        Err(_) => panic!(rt; "no fault"),
    }
}

// An image of a moment holds none of five records, or three, or all.
fn is_whole(rt: &(impl Abort + AllocGlobal), disk: &MemoryDisk, moment: u64, pick: u64) {
    assert!(rt; moment <= disk.moment());
    let image = disk.image(rt.alloc(), moment, pick).expect(rt, "memory");
    let count = held(rt, &image);
    assert!(rt; count == 0 || count == 3 || count == 5);
    assert!(rt; moment < 16 || count != 0);
}

// So it is of each image since the opening.
fn are_whole(rt: &(impl Abort + AllocGlobal), disk: &MemoryDisk) {
    for moment in 8..=disk.moment() {
        for pick in 0..4 {
            is_whole(rt, disk, moment, pick);
        }
    }
}

// Each image ends with a group, and four calls of the disk keep one, of which none is made for refused calls alone.
#[test]
fn a_load_is_kept_group_by_group(rt: HostRuntime) {
    let mut loader = begin(&rt, &[]);
    take_three(&rt, &mut loader);
    let mut loader = keep(&rt, loader);
    let again = register(&rt, &mut loader, b"MAIN", b"B");
    assert!(rt; again == Reply::Refused(Why::FirmExists));
    let mut loader = keep(&rt, loader);
    take_two(&rt, &mut loader);
    let loader = keep(&rt, loader);
    assert!(rt; loader.books().len() == 7);
    let disk = loader.close();
    assert!(rt; disk.moment() == 8 + 2 * 8);
    assert!(rt; held(&rt, disk.bytes()) == 5);
    are_whole(&rt, &disk);
    drop(disk);
}

// The second group fails at one of its calls, which ends the load.
#[test]
fn a_failed_group_is_there_whole_or_not_at_all(rt: HostRuntime) {
    for fails in 9..=12 {
        let mut loader = begin(&rt, &[fails]);
        take_three(&rt, &mut loader);
        let mut loader = keep(&rt, loader);
        take_two(&rt, &mut loader);
        let Err(stopped) = loader.keep() else {
            panic!(rt; "a fault");
        };
        assert!(rt;
            stopped.device
                == Device {
                    before: 0,
                    after: 1
                }
        );
        are_whole(&rt, &stopped.disk);
    }
}
