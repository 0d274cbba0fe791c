//! Tests of journals.

use crate::made::{ABANDON, EAST_A, FIRM_A, disk_of, file};
use claim_history::{Act, is_main};
use disk_model::{Disk, FileDisk, MemoryDisk};
use round_journal::{Device, Journal, JournalCause, Record, RecordWhy, read_records};
use std::alloc::Global;
use std::fs::{self, File};
use std::process::Abort;
use std::rt::Files;

// A journal with one record, of FIRM A.
const ONE: [u8; 21] = [
    b'B', b'U', b'R', b'E', b'A', b'U', b'J', b'2', 1, 0, 0, 0, 7, 0, 0, 0, 1, 1, 1, b'A', 0,
];

// A journal with one record, of FIRM A in the pool EAST.
const ONE_IN_EAST: [u8; 27] = [
    b'B', b'U', b'R', b'E', b'A', b'U', b'J', b'2', 1, 0, 0, 0, 13, 0, 0, 0, 1, 15, 4, b'E', b'A',
    b'S', b'T', 1, 1, b'A', 0,
];

// Appends to a journal of less than 1,000 bytes.
fn append<D: Disk>(rt: &impl Abort, journal: &mut Journal<D>, body: &[u8]) -> Result<(), Device> {
    assert!(rt; journal.gate() < 1000);
    assert!(rt; body.len() < 1000);
    journal.append(body)
}

// A record of caller 1 and FIRM A at this place.
fn is_firm_at(rt: &impl Abort, record: &Record, offset: u64) {
    let Act::Firm { firm } = &record.act else {
        panic!(rt; "a firm");
    };
    assert!(rt; record.offset == offset);
    assert!(rt; record.caller == 1);
    assert!(rt; firm.bytes() == b"A".as_slice());
}

// The records are one, of caller 1 and FIRM A at 8, in the pool MAIN.
fn is_firm_a(rt: &impl Abort, records: &[Record]) {
    let [record] = records else {
        panic!(rt; "one record");
    };
    is_firm_at(rt, record, 8);
    assert!(rt; is_main(&record.pool));
}

// Behind it stands another at 20, in the pool EAST.
fn are_firms_of_two_pools(rt: &impl Abort, records: &[Record]) {
    let [first, second] = records else {
        panic!(rt; "two records");
    };
    is_firm_at(rt, first, 8);
    is_firm_at(rt, second, 20);
    assert!(rt; is_main(&first.pool));
    assert!(rt; second.pool.bytes() == b"EAST".as_slice());
}

// How many records are there, or why they are not read.
type Found = Result<usize, JournalCause>;

fn read(alloc: Global, disk: &mut MemoryDisk) -> Found {
    Ok(read_records(alloc, disk)?.len())
}

// What is found at an opening, and the number of bytes after it.
fn opening(alloc: Global, disk: MemoryDisk) -> (Found, usize) {
    match Journal::open(alloc, disk) {
        Ok((journal, records)) => (Ok(records.len()), journal.close().bytes().len()),
        Err(refused) => (Err(refused.cause), refused.disk.bytes().len()),
    }
}

// This is what is read, and what is found at an opening, and no byte more is there after it, or less.
fn is_found(rt: &(impl Abort + AllocGlobal), bytes: &[u8], due: Found, length: usize) {
    let mut disk = disk_of(rt, bytes, &[]);
    let before = read(rt.alloc(), &mut disk);
    assert!(rt; before == due);
    let (found, after) = opening(rt.alloc(), disk);
    assert!(rt; found == due);
    assert!(rt; after == length);
}

// An open journal on this disk, and its records.
fn open(rt: &(impl Abort + AllocGlobal), disk: MemoryDisk) -> (Journal<MemoryDisk>, Vec<Record>) {
    let opened = Journal::open(rt.alloc(), disk).ok();
    opened.expect(rt, "no fault")
}

// The records of this disk.
fn records_of(rt: &(impl Abort + AllocGlobal), disk: &mut MemoryDisk) -> Vec<Record> {
    let records = read_records(rt.alloc(), disk).ok();
    records.expect(rt, "no fault")
}

#[test]
fn an_empty_disk_becomes_a_journal(rt: HostRuntime) {
    let mut disk = disk_of(&rt, b"", &[]);
    assert!(rt; records_of(&rt, &mut disk).is_empty());
    assert!(rt; disk.bytes().is_empty());
    assert!(rt; disk.moment() == 2);
    let (journal, records) = open(&rt, disk);
    assert!(rt; records.is_empty());
    assert!(rt; journal.gate() == 8);
    let disk = journal.close();
    assert!(rt; disk.bytes() == b"BUREAUJ2\0".as_slice());
    assert!(rt; disk.moment() == 10);
    drop(disk);
}

// The journal with one record under this header.
fn under(header: &[u8; 8]) -> [u8; 21] {
    let mut bytes = ONE;
    bytes[..8].copy_from_slice(header);
    bytes
}

// A journal that was made before there were pools is read, takes records of other pools, and keeps its header.
#[test]
fn a_journal_keeps_its_header(rt: HostRuntime) {
    for header in [b"BUREAUJ1", b"BUREAUJ2"] {
        let (mut journal, records) = open(&rt, disk_of(&rt, &under(header), &[]));
        is_firm_a(&rt, &records);
        let kept = append(&rt, &mut journal, &EAST_A);
        assert!(rt; kept.is_ok());
        let mut disk = journal.close();
        assert!(rt; disk.bytes().len() == 39);
        assert!(rt; disk.bytes().starts_with(header));
        are_firms_of_two_pools(&rt, &records_of(&rt, &mut disk));
        drop(disk);
    }
}

// Nine bytes that are a header and a closed gate are a journal, which stays.
#[test]
fn an_old_journal_without_records_stays(rt: HostRuntime) {
    let (journal, records) = open(&rt, disk_of(&rt, b"BUREAUJ1\0", &[]));
    assert!(rt; records.is_empty());
    let disk = journal.close();
    assert!(rt; disk.bytes() == b"BUREAUJ1\0".as_slice());
    drop(disk);
}

#[test]
fn a_record_is_read_whole_or_not_at_all(rt: HostRuntime) {
    for n in 0..=9 {
        is_found(&rt, &ONE[..n], Ok(0), 9);
    }
    let short = JournalCause::BadRecord {
        offset: 8,
        why: RecordWhy::Short,
    };
    for n in 10..21 {
        is_found(&rt, &ONE[..n], Err(short), n);
    }
    let mut disk = disk_of(&rt, &ONE, &[]);
    is_firm_a(&rt, &records_of(&rt, &mut disk));
    let (journal, records) = open(&rt, disk);
    is_firm_a(&rt, &records);
    assert!(rt; journal.gate() == 20);
    assert!(rt; journal.close().moment() == 10);
}

// The journal with one record, with a piece over its bytes from a place on.
fn damaged(rt: &impl Abort, at: usize, piece: &[u8]) -> [u8; 21] {
    let mut bytes = ONE;
    assert!(rt; at < 21);
    assert!(rt; piece.len() <= 21 - at);
    bytes[at..at + piece.len()].copy_from_slice(piece);
    bytes
}

#[test]
fn damage_is_found(rt: HostRuntime) {
    let short = JournalCause::BadRecord {
        offset: 8,
        why: RecordWhy::Short,
    };
    let body = JournalCause::BadRecord {
        offset: 8,
        why: RecordWhy::Body,
    };
    let last = JournalCause::BadRecord {
        offset: 20,
        why: RecordWhy::Short,
    };
    let table: [(usize, &[u8], Found); 13] = [
        (0, b"b", Err(JournalCause::BadHeader)),
        (7, b"0", Err(JournalCause::BadHeader)),
        (7, b"3", Err(JournalCause::BadHeader)),
        (7, b"1", Ok(1)),
        (8, &[0], Ok(0)),
        (8, &[2], Ok(0)),
        (9, &[255, 255, 255, 255], Err(short)),
        (12, &[8], Err(short)),
        (12, &[6], Err(body)),
        (17, &[0], Err(body)),
        (17, &[0x63], Err(body)),
        (20, &[2], Ok(1)),
        (20, &[1], Err(last)),
    ];
    for (at, piece, answer) in table {
        is_found(&rt, &damaged(&rt, at, piece), answer, 21);
    }
}

// The journal with one record in the pool EAST, with a piece over its bytes from a place on.
fn damaged_in_east(rt: &impl Abort, at: usize, piece: &[u8]) -> [u8; 27] {
    let mut bytes = ONE_IN_EAST;
    assert!(rt; at < 27);
    assert!(rt; piece.len() <= 27 - at);
    bytes[at..at + piece.len()].copy_from_slice(piece);
    bytes
}

// The record names its pool: not MAIN, not twice, by a name in form, and for caller 0 with an abandonment alone.
#[test]
fn damage_of_a_pool_is_found(rt: HostRuntime) {
    let body = JournalCause::BadRecord {
        offset: 8,
        why: RecordWhy::Body,
    };
    let table: [(usize, &[u8], Found); 10] = [
        (7, b"1", Ok(1)),
        (19, b"WEST", Ok(1)),
        (19, b"MAIN", Err(body)),
        (23, &[15], Err(body)),
        (16, &[0], Err(body)),
        (18, &[3], Err(body)),
        (18, &[0], Err(body)),
        (18, &[255], Err(body)),
        (19, b"e", Err(body)),
        (26, &[2], Ok(1)),
    ];
    for (at, piece, answer) in table {
        is_found(&rt, &damaged_in_east(&rt, at, piece), answer, 27);
    }
}

// A first append fails, and a second one puts its record in the place.
fn goes_on(rt: &impl Abort, journal: &mut Journal<MemoryDisk>) {
    let failed = append(rt, journal, &FIRM_A);
    let kept = append(rt, journal, &ABANDON);
    let device = Device {
        before: 0,
        after: 1,
    };
    assert!(rt; failed == Err(device));
    assert!(rt; kept.is_ok());
    assert!(rt; journal.gate() == 18);
}

// Call 8 is the last sync of the first append, and the calls before it are those of an opening and an append. An append
// that failed before it wrote its gate is not settled: so many moments are there at the end.
#[test]
fn a_failed_append_is_settled(rt: HostRuntime) {
    for (fails, moment) in [(5, 18), (6, 20), (7, 26), (8, 28)] {
        let (mut journal, _) = open(&rt, disk_of(&rt, b"", &[fails]));
        goes_on(&rt, &mut journal);
        let disk = journal.close();
        assert!(rt; disk.moment() == moment);
        let kept = disk.bytes().get(8..19);
        assert!(rt; kept == Some([1, 0, 0, 0, 5, 0, 0, 0, 0, 13, 0].as_slice()));
        drop(disk);
    }
}

// After an append whose last sync failed a crash leaves the record or leaves it out, and an opening tells which.
#[test]
fn a_crash_leaves_the_last_record_or_not(rt: HostRuntime) {
    let (mut journal, _) = open(&rt, disk_of(&rt, b"", &[8]));
    let failed = append(&rt, &mut journal, &FIRM_A);
    assert!(rt; failed.is_err());
    let disk = journal.close();
    assert!(rt; disk.moment() == 16);
    for (pick, count) in [(0, 0), (1, 1)] {
        let image = disk.image(rt.alloc(), 16, pick).expect(&rt, "memory");
        is_found(&rt, &image, Ok(count), 21);
    }
    drop(disk);
}

#[test]
fn a_failed_opening_hands_the_disk_back(rt: HostRuntime) {
    let device = JournalCause::Device {
        before: 0,
        after: 1,
    };
    for fails in 1..=4 {
        let opened = Journal::open(rt.alloc(), disk_of(&rt, b"", &[fails]));
        let refused = opened.err().expect(&rt, "a fault");
        assert!(rt; refused.cause == device);
        assert!(rt; refused.disk.moment() == 2 * fails);
    }
}

// Writes another last byte over the gate of a journal with one record, by call 1 of the disk. No sync brings it to the medium.
fn write_last(rt: &impl Abort, disk: &mut MemoryDisk) {
    assert!(rt; disk.bytes().len() == 21);
    let written = disk.write_at(20, &[2]);
    assert!(rt; written.is_ok());
}

// Of an opening call 2 of the disk is the sync, and call 3 fails. So what was written before is on the medium, whatever was read.
#[test]
fn an_opening_syncs_before_it_reads(rt: HostRuntime) {
    let mut disk = disk_of(&rt, &ONE, &[3]);
    write_last(&rt, &mut disk);
    let opened = Journal::open(rt.alloc(), disk);
    let refused = opened.err().expect(&rt, "a fault");
    let disk = refused.disk;
    assert!(rt; disk.moment() == 6);
    for pick in 0..2 {
        let image = disk.image(rt.alloc(), 6, pick).expect(&rt, "memory");
        assert!(rt; image.last() == Some(&2));
    }
    drop(disk);
}

// An opening of the file is a fault, since another has it open.
fn is_refused<R: Abort + AllocGlobal + Files<File = File>>(rt: &R, path: &str) {
    let opened = Journal::open(rt.alloc(), file(rt, path));
    let refused = opened.err().expect(rt, "a fault");
    let device = JournalCause::Device {
        before: 0,
        after: 1,
    };
    assert!(rt; refused.cause == device);
}

// Appends to a journal on a file.
fn add(rt: &impl Abort, journal: &mut Journal<FileDisk<'_, HostRuntime>>, body: &[u8]) {
    let kept = append(rt, journal, body);
    assert!(rt; kept.is_ok());
}

// How many records the file has.
fn count<R: Abort + AllocGlobal + Files<File = File>>(rt: &R, path: &str) -> usize {
    let mut disk = file(rt, path);
    let records = read_records(rt.alloc(), &mut disk).ok();
    records.expect(rt, "no fault").len()
}

// While a journal is open on a file, each other opening of it is a fault, and no record of the first is lost.
#[test]
fn a_file_has_one_open_journal(rt: HostRuntime) {
    let path = "round_journal_twice";
    let _ = fs::remove_file(&rt, path);
    let opened = Journal::open(rt.alloc(), file(&rt, path)).ok();
    let (mut journal, records) = opened.expect(&rt, "a journal");
    assert!(rt; records.is_empty());
    is_refused(&rt, path);
    add(&rt, &mut journal, &FIRM_A);
    is_refused(&rt, path);
    add(&rt, &mut journal, &ABANDON);
    drop(journal.close());
    assert!(rt; count(&rt, path) == 2);
    fs::remove_file(&rt, path).ok().expect(&rt, "a removal");
}
