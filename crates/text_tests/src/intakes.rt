//! Inputs that are still coming.
use bureau_edge::BytesSource;
use input_front::{Intake, Line, More, read_alone};
use request_text::{LineCause, Request};
use std::alloc::Global;
use std::process::Abort;

// A source of these bytes, whose call with this number fails.
fn source(rt: &impl Abort, alloc: Global, bytes: &[u8], fails: u64) -> BytesSource {
    let bytes = Vec::from_slice(alloc, bytes).expect(rt, "memory");
    let fails = Vec::from_slice(alloc, &[fails]).expect(rt, "memory");
    BytesSource::new(bytes, fails)
}

fn is_on(request: &Request, line: u64, lane: u32) -> bool {
    request.line == line && request.lane == lane
}

#[test]
fn lines_are_read_as_they_come(rt: HostRuntime) {
    let mut source = source(&rt, rt.alloc(), b"1 FIRM A\r\nFENCE\n2 FIRM B", 0);
    let mut intake = Intake::new(rt.alloc(), 100).expect(&rt, "memory");
    intake.begin();
    let None = intake.next(rt.alloc()) else {
        panic!(rt; "a line before the first piece");
    };
    assert!(rt; intake.more(&mut source) == More::Some);
    let Some(Line::Asks(first)) = intake.next(rt.alloc()) else {
        panic!(rt; "no request");
    };
    assert!(rt; is_on(&first, 1, 1));
    let Some(Line::Fence) = intake.next(rt.alloc()) else {
        panic!(rt; "no fence");
    };
    intake.begin();
    let None = intake.next(rt.alloc()) else {
        panic!(rt; "a line that may go on");
    };
    let Some(Line::Asks(last)) = intake.last(rt.alloc()) else {
        panic!(rt; "no last line");
    };
    assert!(rt; is_on(&last, 3, 2));
    assert!(rt; intake.more(&mut source) == More::End);
}

#[test]
fn a_bad_line_stays(rt: HostRuntime) {
    let mut source = source(&rt, rt.alloc(), b"1 FIRM A\n1 NO\n2 FIRM C\n", 1);
    let mut intake = Intake::new(rt.alloc(), 100).expect(&rt, "memory");
    intake.begin();
    assert!(rt; intake.more(&mut source) == More::Failed);
    assert!(rt; intake.more(&mut source) == More::Some);
    let Some(Line::Asks(_)) = intake.next(rt.alloc()) else {
        panic!(rt; "no request");
    };
    let Some(Line::Bad { line, cause }) = intake.next(rt.alloc()) else {
        panic!(rt; "no bad line");
    };
    assert!(rt; line == 2 && cause == LineCause::Verb);
}

#[test]
fn one_byte_above_the_limit_is_taken(rt: HostRuntime) {
    let mut source = source(&rt, rt.alloc(), b"1 FIRM A", 0);
    let mut intake = Intake::new(rt.alloc(), 3).expect(&rt, "memory");
    assert!(rt; intake.more(&mut source) == More::Some);
    assert!(rt; intake.more(&mut source) == More::TooLong);
}

#[test]
fn lines_are_read_alone(rt: HostRuntime) {
    match read_alone(rt.alloc(), 7, b"3 FIRM A\r\n") {
        Line::Asks(request) => assert!(rt; is_on(&request, 7, 3)),
        _ => assert!(rt; false),
    }
    match read_alone(rt.alloc(), 9, b"3 FIRM") {
        Line::Bad { line, cause } => assert!(rt; line == 9 && cause == LineCause::Fields),
        _ => assert!(rt; false),
    }
    let fence = matches!(read_alone(rt.alloc(), 1, b"FENCE\n"), Line::Fence);
    assert!(rt; fence);
}
