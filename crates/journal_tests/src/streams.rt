//! Tests of streams.

use bureau_edge::{
    BytesSink, BytesSource, Failed, ReadEnd, Sink, Source, StandardIn, StandardOut, SureSource,
    read_whole, write_all,
};
use fault_count::next_count;
use std::io::{self, ErrorKind, Read, Write};
use std::process::Abort;

// A source of the letters a to e, whose second call fails.
fn failing_source(rt: &(impl Abort + AllocGlobal)) -> BytesSource {
    let bytes = Vec::from_slice(rt.alloc(), b"abcde").expect(rt, "memory");
    let fails = Vec::from_slice(rt.alloc(), &[2]).expect(rt, "memory");
    BytesSource::new(bytes, fails)
}

#[test]
fn a_source_is_read_in_pieces_and_fails_at_the_named_call(rt: HostRuntime) {
    let mut source = failing_source(&rt);
    let mut into = [0; 3];
    // What each read answers, and what is in the buffer behind it.
    let reads: [(Result<usize, Failed>, &[u8]); 4] = [
        (Ok(3), b"abc"),
        (Err(Failed), b"abc"),
        (Ok(2), b"dec"),
        (Ok(0), b"dec"),
    ];
    for (due, held) in reads {
        let read = source.read(&mut into);
        assert!(rt; read == due);
        assert!(rt; into.as_slice() == held);
    }
}

#[test]
fn a_sink_fails_at_the_named_call(rt: HostRuntime) {
    let fails = Vec::from_slice(rt.alloc(), &[2]).expect(&rt, "memory");
    let mut sink = BytesSink::new(rt.alloc(), fails);
    let one = write_all(&mut sink, b"one ");
    let two = sink.write(b"two ");
    let three = sink.write(b"three");
    assert!(rt; one == Ok(()));
    assert!(rt; two == Err(Failed));
    assert!(rt; three == Ok(5));
    assert!(rt; sink.bytes() == b"one three".as_slice());
    assert!(rt; sink.refused() == 0);
}

// Why the letters a to e are not read whole within a limit; None where they are.
fn end_within(rt: &(impl Abort + AllocGlobal), limit: u64) -> Option<ReadEnd> {
    let bytes = Vec::from_slice(rt.alloc(), b"abcde").expect(rt, "memory");
    let mut source = SureSource::new(bytes);
    match read_whole(rt.alloc(), &mut source, limit) {
        Ok(bytes) => {
            assert!(rt; bytes.as_slice() == b"abcde".as_slice());
            None
        }
        Err(end) => Some(end),
    }
}

#[test]
fn a_source_is_read_whole_up_to_the_limit(rt: HostRuntime) {
    for (limit, end) in [(4, Some(ReadEnd::TooLong)), (5, None), (u64::MAX, None)] {
        assert!(rt; end_within(&rt, limit) == end, "at {limit}");
    }
}

#[test]
fn a_failing_source_is_not_read_whole(rt: HostRuntime) {
    let mut source = failing_source(&rt);
    let end = read_whole(rt.alloc(), &mut source, 5).err();
    assert!(rt; end == Some(ReadEnd::Failed));
}

#[test]
fn the_standard_streams_answer(rt: HostRuntime) {
    let mut into = [0; 8];
    match StandardIn::new(&rt).read(&mut into) {
        Ok(count) => assert!(rt; count <= 8),
        Err(Failed) => {}
    }
    let written = write_all(&mut StandardOut::new(&rt), b"written\n");
    assert!(rt; written == Ok(()));
}

#[test]
fn a_count_goes_on_to_the_last_number(rt: HostRuntime) {
    assert!(rt; next_count(0) == 1);
    assert!(rt; next_count(u64::MAX) == u64::MAX);
}

// A device, each of whose calls a signal interrupts so often before it gets through.
#[derive(Drop)]
struct Interrupted {
    calls: u32,
    flushes: u32,
}

// Whether an interruption is left, which is taken.
fn gets_through(times: &mut u32) -> io::Result<()> {
    if *times == 0 {
        return Ok(());
    }
    *times -= 1;
    Err(io::Error::from(ErrorKind::Interrupted))
}

impl Read for Interrupted {
    fn read(&mut self, _buf: &mut [u8]) -> io::Result<usize> {
        gets_through(&mut self.calls)?;
        Ok(0)
    }
}

impl Write for Interrupted {
    fn write(&mut self, buf: &[u8]) -> io::Result<usize> {
        gets_through(&mut self.calls)?;
        Ok(buf.len())
    }

    fn flush(&mut self) -> io::Result<()> {
        gets_through(&mut self.flushes)
    }
}

// How a read from a device ends, each of whose calls is interrupted so often.
fn read_through(calls: u32, flushes: u32) -> Result<usize, Failed> {
    let mut source = StandardIn::over(Interrupted { calls, flushes });
    source.read(&mut [0])
}

// How a piece is written to it.
fn written_through(calls: u32, flushes: u32) -> Result<(), Failed> {
    let mut sink = StandardOut::over(Interrupted { calls, flushes });
    write_all(&mut sink, b"piece")
}

#[test]
fn an_interrupted_call_is_made_again(rt: HostRuntime) {
    for (calls, flushes, read, written) in [
        (0, 0, Ok(0), Ok(())),
        (63, 63, Ok(0), Ok(())),
        (64, 0, Err(Failed), Err(Failed)),
        (0, 64, Ok(0), Err(Failed)),
    ] {
        assert!(rt; read_through(calls, flushes) == read, "a read, at {calls}");
        let end = written_through(calls, flushes);
        assert!(rt; end == written, "a write, at {calls} and {flushes}");
    }
}

// A device that takes bytes, and tells how many were not flushed and how often it was flushed.
#[derive(Drop)]
struct Counting {
    unflushed: usize,
    flushes: u32,
}

impl Write for Counting {
    fn write(&mut self, buf: &[u8]) -> io::Result<usize> {
        self.unflushed = self.unflushed.saturating_add(buf.len());
        Ok(buf.len())
    }

    fn flush(&mut self) -> io::Result<()> {
        self.unflushed = 0;
        self.flushes = self.flushes.saturating_add(1);
        Ok(())
    }
}

#[test]
fn the_standard_output_is_flushed_in_each_call(rt: HostRuntime) {
    let mut device = Counting {
        unflushed: 0,
        flushes: 0,
    };
    for calls in 1..4 {
        let written = write_all(&mut StandardOut::over(&mut device), b"line\n");
        assert!(rt; written == Ok(()));
        assert!(rt; device.unflushed == 0, "after {calls}");
        assert!(rt; device.flushes == calls);
    }
}
