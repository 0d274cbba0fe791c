//! Tests of groups of records.

use crate::made::{ABANDON, EAST_A, FIRM_A, disk_of};
use disk_model::{Disk, MemoryDisk};
use round_journal::{Device, Group, Journal, Record, read_records};
use std::process::Abort;

// An open journal on a disk without bytes, of whose calls these fail.
fn open(rt: &(impl Abort + AllocGlobal), fails: &[u64]) -> Journal<MemoryDisk> {
    let opened = Journal::open(rt.alloc(), disk_of(rt, b"", fails)).ok();
    let (journal, _): (Journal<MemoryDisk>, Vec<Record>) = opened.expect(rt, "no fault");
    journal
}

// Appends a record to a journal of less than 1,000 bytes.
fn append(rt: &impl Abort, journal: &mut Journal<MemoryDisk>, body: &[u8]) {
    assert!(rt; journal.gate() < 1000);
    assert!(rt; body.len() < 1000);
    let kept = journal.append(body);
    assert!(rt; kept.is_ok());
}

fn push(rt: &impl Abort, group: &mut Group, body: &[u8]) {
    assert!(rt; body.len() < 1000);
    let pushed = group.push(body);
    assert!(rt; pushed.is_ok());
}

// The three bodies as a group.
fn three(rt: &(impl Abort + AllocGlobal)) -> Group {
    let mut group = Group::new(rt.alloc());
    push(rt, &mut group, &FIRM_A);
    push(rt, &mut group, &EAST_A);
    push(rt, &mut group, &ABANDON);
    group
}

// Appends a group of less than 1,000 bytes to a journal of as many.
fn append_group(
    rt: &impl Abort,
    journal: &mut Journal<MemoryDisk>,
    group: &Group,
) -> Result<(), Device> {
    assert!(rt; journal.gate() < 1000);
    assert!(rt; group.len() > 0);
    assert!(rt; group.len() < 1000);
    journal.append_group(group)
}

// How many records these bytes hold.
fn held(rt: &(impl Abort + AllocGlobal), bytes: &[u8]) -> usize {
    let mut disk = disk_of(rt, bytes, &[]);
    let records = read_records(rt.alloc(), &mut disk).ok();
    records.expect(rt, "sound").len()
}

// The bytes are those that three appends leave, with two syncs in place of six. An opening has eight moments, a call two more.
#[test]
fn a_group_has_the_bytes_of_its_appends(rt: HostRuntime) {
    let mut one = open(&rt, &[]);
    append(&rt, &mut one, &FIRM_A);
    append(&rt, &mut one, &EAST_A);
    append(&rt, &mut one, &ABANDON);
    let mut all = open(&rt, &[]);
    let kept = append_group(&rt, &mut all, &three(&rt));
    assert!(rt; kept.is_ok());
    assert!(rt; one.gate() == all.gate());
    let one = one.close();
    let all = all.close();
    assert!(rt; one.bytes() == all.bytes());
    assert!(rt; one.moment() == 8 + 24);
    assert!(rt; all.moment() == 8 + 8);
    assert!(rt; held(&rt, all.bytes()) == 3);
    drop(one);
    drop(all);
}

// A group that was emptied takes records anew, and is as long as they are.
#[test]
fn an_emptied_group_begins_again(rt: HostRuntime) {
    let mut group = three(&rt);
    assert!(rt; group.len() == 12 + 18 + 10);
    group.clear();
    assert!(rt; group.len() == 0);
    push(&rt, &mut group, &ABANDON);
    assert!(rt; group.len() == 10);
    let mut journal = open(&rt, &[]);
    let kept = append_group(&rt, &mut journal, &group);
    assert!(rt; kept.is_ok());
    let disk = journal.close();
    assert!(rt; disk.bytes() == b"BUREAUJ2\x01\0\0\0\x05\0\0\0\0\x0d\0".as_slice());
    drop(disk);
}

// An image of a moment has all records of the group or none.
fn is_whole(rt: &(impl Abort + AllocGlobal), disk: &MemoryDisk, moment: u64, pick: u64) {
    assert!(rt; moment <= disk.moment());
    let image = disk.image(rt.alloc(), moment, pick).expect(rt, "memory");
    let count = held(rt, &image);
    assert!(rt; count == 0 || count == 3);
}

// So it is of each image since the opening.
fn all_or_none(rt: &(impl Abort + AllocGlobal), disk: &MemoryDisk) {
    for moment in 8..=disk.moment() {
        for pick in 0..4 {
            is_whole(rt, disk, moment, pick);
        }
    }
}

// Whichever call of the disk fails, or none.
#[test]
fn a_crash_leaves_all_or_none(rt: HostRuntime) {
    for fails in 5..=9 {
        let mut journal = open(&rt, &[fails]);
        let kept = append_group(&rt, &mut journal, &three(&rt));
        assert!(rt; kept.is_ok() == (fails == 9));
        let disk = journal.close();
        all_or_none(&rt, &disk);
        drop(disk);
    }
}

// After a group that failed an append settles the gate, and its record stands alone.
#[test]
fn a_failed_group_is_settled(rt: HostRuntime) {
    for (fails, moment) in [(5, 18), (6, 20), (7, 26), (8, 28)] {
        let mut journal = open(&rt, &[fails]);
        let failed = append_group(&rt, &mut journal, &three(&rt));
        assert!(rt;
            failed
                == Err(Device {
                    before: 0,
                    after: 1
                })
        );
        append(&rt, &mut journal, &ABANDON);
        assert!(rt; journal.gate() == 18);
        let disk = journal.close();
        assert!(rt; disk.moment() == moment);
        assert!(rt; held(&rt, disk.bytes()) == 1);
        drop(disk);
    }
}
