//! Tests of the top call: words, inputs, and a call of a device that fails.

use crate::tests::made::{disk_of, held};
use crate::{Ended, load, without_words};
use bureau_edge::{BytesSink, BytesSource};
use disk_model::MemoryDisk;
use std::process::Abort;

type Loaded = Ended<BytesSource, BytesSink, MemoryDisk>;

// The numbers of the calls of a device that fail: this one, or none where it is 0.
fn failing(rt: &(impl Abort + AllocGlobal), call: u64) -> Vec<u64> {
    Vec::from_slice(rt.alloc(), &[call]).expect(rt, "memory")
}

// Loads an input on a disk with these bytes. Of the calls of the source, the sink and the disk these fail.
fn load_on(
    rt: &(impl Abort + AllocGlobal),
    input: &[u8],
    bytes: &[u8],
    fails: (u64, u64, u64),
) -> Loaded {
    let (on_source, on_sink, on_disk) = fails;
    let input = Vec::from_slice(rt.alloc(), input).expect(rt, "memory");
    let source = BytesSource::new(input, failing(rt, on_source));
    let sink = BytesSink::new(rt.alloc(), failing(rt, on_sink));
    let disk = disk_of(rt, bytes, &[on_disk]);
    load(rt.alloc(), Vec::new(rt.alloc()), source, sink, disk)
}

// The status, the printed text, and the calls of the disk, each of which has two moments.
fn expect(rt: &(impl Abort + AllocGlobal), ended: &Loaded, status: u8, text: &[u8], calls: u64) {
    assert!(rt; ended.status == status);
    assert!(rt; ended.sink.bytes() == text);
    assert!(rt; ended.disk.moment() / 2 == calls);
}

#[test]
fn any_word_is_refused(rt: HostRuntime) {
    for text in ["", "load", "run"] {
        let mut words = Vec::new(rt.alloc());
        let word = String::from_str(rt.alloc(), text).expect(&rt, "memory");
        words.push(word).expect(&rt, "memory");
        let input = Vec::from_slice(rt.alloc(), b"1 FIRM A\n").expect(&rt, "memory");
        let source = BytesSource::new(input, Vec::new(rt.alloc()));
        let sink = BytesSink::new(rt.alloc(), Vec::new(rt.alloc()));
        let ended = load(rt.alloc(), words, source, sink, disk_of(&rt, b"", &[]));
        expect(&rt, &ended, 2, b"fault words\n", 0);
    }
}

#[test]
fn no_memory_for_words_is_told(rt: HostRuntime) {
    let source = BytesSource::new(Vec::new(rt.alloc()), Vec::new(rt.alloc()));
    let sink = BytesSink::new(rt.alloc(), Vec::new(rt.alloc()));
    let ended = without_words(source, sink);
    assert!(rt; ended.status == 9);
    assert!(rt; ended.sink.bytes() == b"fault memory\n".as_slice());
}

// Inputs on a disk, with the status, the text, and the calls of the disk: four for the opening of an empty one, and four for each group
// with an accepted line. One that is no journal is synced, asked for its length and read.
#[test]
fn each_status_has_its_cause(rt: HostRuntime) {
    let table: [(&[u8], &[u8], u8, &[u8], u64); 6] = [
        (b"", b"", 0, b"", 4),
        (
            b"1 FIRM A\nFENCE\n1 FIRM A\nFENCE\n2 FIRM B\n",
            b"",
            0,
            b"1 FIRM A = ok\n1 FIRM A = refused 1 firm-exists\n2 FIRM B = ok\n",
            12,
        ),
        (
            b"1 FIRM A\n1 CLOSE PLAIN 2025-01-31\n",
            b"",
            6,
            b"fault line 2 verb\n",
            0,
        ),
        (b"1 FIRM A\n17 FIRM A\n", b"", 6, b"fault line 2 lane\n", 0),
        (
            b"1 FIRM A\n",
            b"no journal",
            8,
            b"fault journal 0 header\n",
            3,
        ),
        (
            b"1 CLOSE PLAIN 2025-01-31\n",
            b"no journal",
            6,
            b"fault line 1 verb\n",
            0,
        ),
    ];
    for (input, bytes, status, text, calls) in table {
        let ended = load_on(&rt, input, bytes, (0, 0, 0));
        expect(&rt, &ended, status, text, calls);
    }
}

// Two groups, each of which is printed by one call of the sink. Behind the calls of the source, the sink and the disk that fail stand
// the status, the text, and the records that are read then.
#[test]
fn a_device_that_fails_is_told(rt: HostRuntime) {
    let input = b"1 FIRM A\n2 FIRM B\nFENCE\n1 FIRM C\n";
    let first = b"1 FIRM A = ok\n2 FIRM B = ok\n";
    let told = b"1 FIRM A = ok\n2 FIRM B = ok\nfault device 0 1\n";
    let table: [((u64, u64, u64), u8, &[u8], usize); 7] = [
        ((1, 0, 0), 3, b"fault read\n", 0),
        ((0, 1, 0), 4, b"", 2),
        ((0, 2, 0), 4, first, 3),
        ((0, 0, 1), 5, b"fault device 0 1\n", 0),
        ((0, 0, 5), 5, b"fault device 0 1\n", 0),
        ((0, 0, 11), 5, told, 2),
        ((1, 1, 0), 4, b"", 0),
    ];
    for (fails, status, text, count) in table {
        let ended = load_on(&rt, input, b"", fails);
        assert!(rt; ended.status == status);
        assert!(rt; ended.sink.bytes() == text);
        assert!(rt; held(&rt, ended.disk.bytes()) == count);
    }
}
