//! Tests of disks.

use crate::made::{disk_of, file};
use disk_model::{Disk, FileDisk, MemoryDisk, runs_compose, torn_writes};
use std::fs;
use std::process::Abort;

// Whether a piece is written into a disk in memory, both of less than 100 bytes.
fn wrote(rt: &impl Abort, disk: &mut MemoryDisk, at: u64, piece: &[u8]) -> bool {
    assert!(rt; at < 100);
    assert!(rt; at as usize <= disk.bytes().len());
    assert!(rt; piece.len() < 100);
    disk.write_at(at, piece).is_ok()
}

// Writes a piece behind the last byte of any disk, both of less than 100 bytes.
fn append<D: Disk>(rt: &impl Abort, disk: &mut D, piece: &[u8]) {
    let end = disk.len().ok().expect(rt, "a length");
    assert!(rt; end < 100);
    assert!(rt; piece.len() < 100);
    let written = disk.write_at(end, piece);
    assert!(rt; written.is_ok());
}

// The last bytes of any disk.
fn last<D: Disk, const N: usize>(rt: &impl Abort, disk: &mut D) -> [u8; N] {
    let mut bytes = [0; N];
    let end = disk.len().ok().expect(rt, "a length");
    assert!(rt; N as u64 <= end);
    let read = disk.read_at(end - N as u64, &mut bytes);
    assert!(rt; read.is_ok());
    bytes
}

// This image of a disk, of a moment that has been, has these bytes.
fn is_image(
    rt: &(impl Abort + AllocGlobal),
    disk: &MemoryDisk,
    moment: u64,
    pick: u64,
    due: &[u8],
) {
    assert!(rt; moment <= disk.moment());
    let image = disk.image(rt.alloc(), moment, pick).expect(rt, "memory");
    assert!(rt; image.as_slice() == due, "at {moment}");
}

// Of a disk of four bytes, after three writes, among them one that goes on behind another and one that fails, a sync, and one
// write more: moments from and to, and their images for the picks from 0, which go round. The calls are 1 to 6, and their moments
// 1 and 2 to 11 and 12.
const TORN: [(u64, u64, &[u8]); 6] = [
    (0, 0, b"abcd"),
    (1, 2, b"abcd aXXd"),
    (3, 6, b"abcd\0\0 aXXd\0\0 abcdyy aXXdyy"),
    (
        7,
        9,
        b"abcd\0\0\0 aXXd\0\0\0 abcdyy\0 aXXdyy\0 abcd\0\0z aXXd\0\0z abcdyyz aXXdyyz",
    ),
    (10, 10, b"aXXdyyz"),
    (11, 12, b"aXXdyyz QXXdyyz"),
];

// The images of a moment are these for the picks 0 to 7.
fn has_images(rt: &(impl Abort + AllocGlobal), disk: &MemoryDisk, moment: u64, images: &[u8]) {
    for (pick, due) in (0..8).zip(images.split(|byte| *byte == b' ').cycle()) {
        is_image(rt, disk, moment, pick, due);
    }
}

#[test]
fn each_write_is_torn_at_each_moment(rt: HostRuntime) {
    let mut disk = disk_of(&rt, b"abcd", &[3]);
    let writes: [(u64, &[u8], bool); 4] = [
        (1, b"XX", true),
        (4, b"yy", true),
        (0, b"failed", false),
        (6, b"z", true),
    ];
    for (at, piece, stands) in writes {
        assert!(rt; wrote(&rt, &mut disk, at, piece) == stands);
    }
    let synced = disk.sync();
    assert!(rt; synced.is_ok());
    assert!(rt; wrote(&rt, &mut disk, 0, b"Q"));
    assert!(rt; disk.moment() == 12);
    for (first, last, images) in TORN {
        for moment in first..=last {
            has_images(&rt, &disk, moment, images);
        }
    }
    drop(disk);
}

// A call of a disk.
#[derive(Clone, Copy)]
enum Call {
    Len,
    // Two bytes from place 1.
    Read,
    // `XYZ` at place 2.
    Write,
    Sync,
}

// Makes a call, and says whether it succeeded.
fn made(rt: &impl Abort, disk: &mut MemoryDisk, call: Call, into: &mut [u8; 2]) -> bool {
    let len = disk.bytes().len();
    assert!(rt; len >= 3);
    match call {
        Call::Len => disk.len() == Ok(len as u64),
        Call::Read => disk.read_at(1, into).is_ok(),
        Call::Write => wrote(rt, disk, 2, b"XYZ"),
        Call::Sync => disk.sync().is_ok(),
    }
}

// Makes calls, each of which fails or succeeds, with what was read so far and what is on the disk behind it.
fn calls_go(rt: &impl Abort, disk: &mut MemoryDisk, calls: &[(Call, bool, &[u8], &[u8])]) {
    let mut into = *b"..";
    for (call, succeeds, read, held) in calls {
        let done = made(rt, disk, *call, &mut into);
        assert!(rt; done == *succeeds);
        assert!(rt; into.as_slice() == *read);
        assert!(rt; disk.bytes() == *held);
    }
}

#[test]
fn the_named_calls_fail_and_no_others(rt: HostRuntime) {
    let mut disk = disk_of(&rt, b"abcd", &[1, 3, 5, 7]);
    // Each call fails and is made again.
    let calls: [(Call, bool, &[u8], &[u8]); 8] = [
        (Call::Len, false, b"..", b"abcd"),
        (Call::Len, true, b"..", b"abcd"),
        (Call::Read, false, b"..", b"abcd"),
        (Call::Read, true, b"bc", b"abcd"),
        (Call::Write, false, b"bc", b"abcd"),
        (Call::Write, true, b"bc", b"abXYZ"),
        (Call::Sync, false, b"bc", b"abXYZ"),
        (Call::Sync, true, b"bc", b"abXYZ"),
    ];
    calls_go(&rt, &mut disk, &calls);
    assert!(rt; disk.moment() == 16);
    assert!(rt; disk.faults() == 4);
    assert!(rt; disk.refused() == 0);
    is_image(&rt, &disk, 14, 0, b"abcd\0");
    is_image(&rt, &disk, 16, 0, b"abXYZ");
    drop(disk);
}

#[test]
fn the_count_of_faults_stops_at_its_last_value(rt: HostRuntime) {
    let fails = Vec::from_slice(rt.alloc(), &[1, 2]).expect(&rt, "memory");
    let mut disk = MemoryDisk::with_faults(rt.alloc(), Vec::new(rt.alloc()), fails, u64::MAX - 1);
    for succeeds in [false, false, true] {
        let synced = disk.sync();
        assert!(rt; synced.is_ok() == succeeds);
        assert!(rt; disk.faults() == u64::MAX);
    }
    drop(disk);
    runs_compose::<MemoryDisk>();
    torn_writes();
}

// How many bytes of an image are an x. It has 66 bytes, of which these are the last.
fn count_of_x(rt: &impl Abort, image: &[u8], end: &[u8]) -> usize {
    assert!(rt; image.len() == 66);
    assert!(rt; image.ends_with(end));
    image.iter().filter(|byte| **byte == b'x').count()
}

#[test]
fn a_place_above_63_never_stands(rt: HostRuntime) {
    let mut disk = disk_of(&rt, b"", &[]);
    for _ in 0..66 {
        append(&rt, &mut disk, b"x");
    }
    // A pick, how many of the 66 writes stand in its image, and the last bytes.
    let picks: [(u64, usize, &[u8]); 2] = [(u64::MAX, 64, b"x\0\0"), (1 << 63, 1, b"\0x\0\0")];
    for (pick, count, end) in picks {
        let image = disk
            .image(rt.alloc(), disk.moment(), pick)
            .expect(&rt, "memory");
        assert!(rt; count_of_x(&rt, &image, end) == count);
    }
    drop(disk);
}

// Whether all writes are brought to the file.
fn syncs(disk: &mut FileDisk<'_, HostRuntime>) -> bool {
    disk.sync().is_ok()
}

// Whether four bytes are read from a place on.
fn reads(disk: &mut FileDisk<'_, HostRuntime>, at: u64) -> bool {
    disk.read_at(at, &mut [0; 4]).is_ok()
}

// Whether a piece is written, of less than 100 bytes, at a place below 100.
fn writes(rt: &impl Abort, disk: &mut FileDisk<'_, HostRuntime>, at: u64, piece: &[u8]) -> bool {
    assert!(rt; at < 100);
    assert!(rt; piece.len() < 100);
    disk.write_at(at, piece).is_ok()
}

// The number of bytes, where it is told.
fn length(disk: &mut FileDisk<'_, HostRuntime>) -> Option<u64> {
    disk.len().ok()
}

// A file is neither synced nor written. Its folder is missing.
fn is_homeless(rt: &impl Abort, disk: &mut FileDisk<'_, HostRuntime>) {
    assert!(rt; !syncs(disk));
    assert!(rt; !writes(rt, disk, 0, b"a"));
    assert!(rt; disk.faults() == 2);
}

// A folder is no file, and each call of it fails.
fn is_no_file(rt: &impl Abort, disk: &mut FileDisk<'_, HostRuntime>) {
    assert!(rt; length(disk).is_none());
    assert!(rt; !reads(disk, 0));
    assert!(rt; !syncs(disk));
    assert!(rt; !writes(rt, disk, 0, b"a"));
    assert!(rt; disk.faults() == 4);
}

// A sync of a missing file succeeds, and it has no bytes.
fn is_missing(rt: &impl Abort, disk: &mut FileDisk<'_, HostRuntime>) {
    assert!(rt; syncs(disk));
    assert!(rt; length(disk) == Some(0));
}

// Writes seven bytes to a new file, two of them over others, with a sync before and after these.
fn write_whole(rt: &impl Abort, disk: &mut FileDisk<'_, HostRuntime>) {
    append(rt, disk, b"abcd");
    assert!(rt; syncs(disk));
    assert!(rt; last::<_, 3>(rt, disk) == *b"bcd");
    append(rt, disk, b"efg");
    assert!(rt; writes(rt, disk, 2, b"XY"));
    assert!(rt; syncs(disk));
    assert!(rt; length(disk) == Some(7));
    assert!(rt; disk.faults() == 0);
}

// These bytes are read by another, and none past the end.
fn is_read(rt: &impl Abort, disk: &mut FileDisk<'_, HostRuntime>) {
    assert!(rt; last::<_, 7>(rt, disk) == *b"abXYefg");
    assert!(rt; reads(disk, 3));
    assert!(rt; !reads(disk, 4));
    assert!(rt; !reads(disk, u64::MAX));
    assert!(rt; disk.faults() == 2);
}

#[test]
fn a_file_is_written_synced_and_opened_again(rt: HostRuntime) {
    let name = "disk_model_test";
    let _ = fs::remove_dir_all(&rt, name);
    let path = "disk_model_test/file";
    let mut homeless = file(&rt, path);
    is_homeless(&rt, &mut homeless);
    drop(homeless);
    fs::create_dir(&rt, name).ok().expect(&rt, "a folder");
    let mut folder = file(&rt, name);
    is_no_file(&rt, &mut folder);
    drop(folder);
    let mut missing = file(&rt, path);
    is_missing(&rt, &mut missing);
    drop(missing);
    let exists = fs::exists(&rt, path).ok();
    assert!(rt; exists == Some(false));
    let mut written = file(&rt, path);
    write_whole(&rt, &mut written);
    drop(written);
    let mut read = file(&rt, path);
    is_read(&rt, &mut read);
    drop(read);
    fs::remove_dir_all(&rt, name).ok().expect(&rt, "a removal");
}

// One that writes has the file alone before others that write, also before one that found it missing. Another reads what it has
// written so far.
fn writes_alone(
    rt: &impl Abort,
    writer: &mut FileDisk<'_, HostRuntime>,
    other: &mut FileDisk<'_, HostRuntime>,
    early: &mut FileDisk<'_, HostRuntime>,
) {
    append(rt, writer, b"ab");
    assert!(rt; last::<_, 2>(rt, other) == *b"ab");
    assert!(rt; !syncs(other));
    assert!(rt; !writes(rt, other, 0, b"xy"));
    assert!(rt; length(other) == Some(2));
    assert!(rt; other.faults() == 2);
    assert!(rt; length(early) == Some(0));
    assert!(rt; !writes(rt, early, 0, b"xy"));
    assert!(rt; length(writer) == Some(2));
    assert!(rt; writer.faults() == 0);
}

// One that only reads holds what it read at first, whatever another writes, until it writes itself.
fn reads_once(
    rt: &impl Abort,
    reader: &mut FileDisk<'_, HostRuntime>,
    writer: &mut FileDisk<'_, HostRuntime>,
) {
    assert!(rt; length(reader) == Some(2));
    append(rt, writer, b"c");
    assert!(rt; writes(rt, writer, 0, b"x"));
    assert!(rt; last::<_, 3>(rt, writer) == *b"xbc");
    assert!(rt; last::<_, 2>(rt, reader) == *b"ab");
    assert!(rt; !syncs(reader));
    assert!(rt; last::<_, 3>(rt, reader) == *b"xbc");
    assert!(rt; reader.faults() == 1);
}

// Two that write a file exclude one another, and those that read it exclude nobody. The file is missing at first.
#[test]
fn a_file_is_locked_by_one_that_writes(rt: HostRuntime) {
    let path = "disk_model_locked";
    let _ = fs::remove_file(&rt, path);
    let mut early = file(&rt, path);
    assert!(rt; length(&mut early) == Some(0));
    let mut writer = file(&rt, path);
    let mut other = file(&rt, path);
    writes_alone(&rt, &mut writer, &mut other, &mut early);
    drop(other);
    drop(early);
    let mut reader = file(&rt, path);
    reads_once(&rt, &mut reader, &mut writer);
    drop(writer);
    append(&rt, &mut reader, b"d");
    assert!(rt; last::<_, 4>(&rt, &mut reader) == *b"xbcd");
    drop(reader);
    fs::remove_file(&rt, path).ok().expect(&rt, "a removal");
}
