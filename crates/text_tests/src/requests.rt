//! Requests as text.
use claim_history::Act;
use request_text::{Batch, LineCause, Request, RequestError, read_requests, write_request};
use std::alloc::Global;
use std::process::Abort;

fn read(rt: &impl Abort, alloc: Global, input: &[u8]) -> Vec<Batch> {
    read_requests(alloc, input).expect(rt, "requests")
}

// The only request of a batch.
fn only_one<'a>(rt: &impl Abort, batch: Option<&'a Batch>) -> &'a Request {
    let requests = batch.expect(rt, "a batch").requests();
    assert!(rt; requests.len() == 1);
    &requests[0]
}

#[test]
fn requests_are_read(rt: HostRuntime) {
    let input = b"1 FIRM A\r\n16 FILE B I-1 A 10.00 2025-01-31\n10 CONFIRM B I-1 A";
    let batches = read(&rt, rt.alloc(), input);
    assert!(rt; batches.len() == 1);
    let requests = batches[0].requests();
    assert!(rt; requests.len() == 3);
    let request = &requests[1];
    assert!(rt; request.line == 2 && request.lane == 16);
    match &request.act {
        Act::File { amount, due, .. } => assert!(rt; *amount == 1000 && due.number() == 20_119),
        _ => assert!(rt; false),
    }
}

#[test]
fn lines_name_pools(rt: HostRuntime) {
    let batches = read(
        &rt,
        rt.alloc(),
        b"1 FIRM A\n1 @EAST FIRM A\n2 @EAST POSITION A\n2 @MAIN-2 ABANDON",
    );
    let pools: [&[u8]; 4] = [b"MAIN", b"EAST", b"EAST", b"MAIN-2"];
    assert!(rt; batches.len() == 1);
    let requests = batches[0].requests();
    assert!(rt; requests.len() == 4);
    for (place, pool) in pools.iter().enumerate() {
        assert!(rt; requests[place].pool.bytes() == *pool);
    }
}

// The amount that the only line of an input agrees to.
fn agreed_to(rt: &impl Abort, alloc: Global, line: &[u8]) -> Option<u64> {
    let batches = read(rt, alloc, line);
    match &only_one(rt, batches.first()).act {
        Act::Confirm { agreed, .. } => *agreed,
        _ => {
            assert!(rt; false);
            None
        }
    }
}

// Lines, and the amount that each agrees to, in cents.
const AGREED: &[(&[u8], Option<u64>)] = &[
    (b"1 CONFIRM B I-1 A", None),
    (b"1 CONFIRM B I-1 A 0.01", Some(1)),
    (b"1 CONFIRM B I-1 A 6.00\r\n", Some(600)),
    (b"1 CONFIRM B I-1 A 9999999999.99", Some(999_999_999_999)),
    (b"16 @EAST CONFIRM B I-1 A 6.00", Some(600)),
    (b"16 @EAST CONFIRM B I-1 A", None),
];

#[test]
fn parts_are_agreed_to(rt: HostRuntime) {
    for (line, agreed) in AGREED {
        assert!(rt; agreed_to(&rt, rt.alloc(), line) == *agreed);
    }
}

// Inputs, how many batches each has, and how many requests the first and the last of them.
const FENCED: &[(&[u8], usize, usize, usize)] = &[
    (b"", 1, 0, 0),
    (b"1 FIRM A\nFENCE\n2 FIRM A", 2, 1, 1),
    (b"1 FIRM A\r\n2 FIRM B\r\nFENCE\r\n", 2, 2, 0),
    (b"FENCE\n1 FIRM A\n3 FIRM B", 2, 0, 2),
    (b"FENCE", 2, 0, 0),
    (b"FENCE\nFENCE\n1 FIRM A\nFENCE\n", 4, 0, 0),
];

#[test]
fn fences_end_batches(rt: HostRuntime) {
    for (input, count, first, last) in FENCED {
        let batches = read(&rt, rt.alloc(), input);
        assert!(rt; batches.len() == *count);
        let begun = batches.first().expect(&rt, "a batch");
        let end = batches.last().expect(&rt, "a batch");
        assert!(rt; begun.requests().len() == *first && end.requests().len() == *last);
    }
}

#[test]
fn lines_are_counted_over_fences(rt: HostRuntime) {
    let batches = read(&rt, rt.alloc(), b"1 FIRM A\nFENCE\n2 FIRM A");
    let request = only_one(&rt, batches.get(1));
    assert!(rt; batches.len() == 2 && request.line == 3 && request.lane == 2);
}

// Lines that are faulty, by their causes.
const BAD_LINES: &[(LineCause, &[&[u8]])] = &[
    (
        LineCause::Lane,
        &[
            b"\n",
            b"\r",
            b"0 FIRM A",
            b"17 FIRM A",
            b"01 FIRM A",
            b"18446744073709551617 FIRM A",
            b"FIRM A",
            b"@EAST 1 FIRM A",
            b"fence",
            b"FENCE ",
            b"FENCE\r",
            b" 1 FIRM A",
        ],
    ),
    (
        LineCause::Pool,
        &[
            b"1 @MAIN FIRM A",
            b"1 @ FIRM A",
            b"1 @MAIN",
            b"1 @east FIRM A",
            b"1 @1A FIRM A",
            b"1 @ABCDEFGHIJKLMNOPQ FIRM A",
            b"1 @@EAST FIRM A",
        ],
    ),
    (
        LineCause::Verb,
        &[
            b"1 FENCE",
            b"1",
            b"1  FIRM A",
            b"1 firm A",
            b"1 PUBLISH 1",
            b"1 @EAST",
            b"1 @EAST ",
            b"1 @EAST @WEST FIRM A",
            b"1 @EAST 1 FIRM A",
            b"1 EAST FIRM A",
        ],
    ),
    (
        LineCause::Fields,
        &[
            b"1 CLOSE PLAIN",
            b"1 ABANDON 1",
            b"1 ABANDON ",
            b"1 DISPUTE B I-1",
            b"1 WITHDRAW B I-1 A",
            b"1 OFFER A",
            b"1 FIRM",
            b"1 FIRM A ",
            b"1 @EAST FIRM",
            b"1 @EAST FIRM A @EAST",
            b"1 CONFIRM B I-1",
            b"1 CONFIRM B I-1 A 6.00 6.00",
            b"1 CONFIRM B I-1 A 6.00 ",
            b"1 @EAST CONFIRM B I-1 A 0.00 6.00",
            b"1 DISPUTE B I-1 A 6.00",
        ],
    ),
    (
        LineCause::Field(1),
        &[
            b"1 CLOSE plain 2025-12-31",
            b"1 FUND a 0.00",
            b"1 POSITION A_",
            b"1 FIRM A\r",
            b"1 FIRM 1A",
            b"1 @EAST FIRM @EAST",
            b"1 FIRM ABCDEFGHIJKLMNOPQ",
        ],
    ),
    (
        LineCause::Field(2),
        &[
            b"1 CLOSE FUNDED 2025-12-32",
            b"1 FUND A 0.00",
            b"1 DRAW A -1.00",
            b"1 LIMIT A 1.0 1.0",
            b"1 CONFIRM B i-1 A",
        ],
    ),
    (
        LineCause::Field(3),
        &[
            b"1 RECEIVE B I-1 0.00",
            b"1 LIMIT A 0.00 10000000000.00",
            b"1 FILE B I-1 a 10.00 2025-01-31",
            b"1 CONFIRM B I-1 6.00",
            b"1 CONFIRM B I-1 6.00 A",
        ],
    ),
    (
        LineCause::Field(4),
        &[
            b"1 FILE B I-1 A 0.00 2025-01-31",
            b"1 FILE B I-1 A 01.00 2025-01-31",
            b"1 FILE B I-1 A 10000000000.00 2025-02-30",
            b"1 CONFIRM B I-1 A 0.00",
            b"1 CONFIRM B I-1 A 10000000000.00",
            b"1 CONFIRM B I-1 A 10.1",
            b"1 CONFIRM B I-1 A ",
            b"1 @EAST CONFIRM B I-1 A 0.00",
        ],
    ),
];

// The first bad line of an input, and its cause.
fn bad_line(alloc: Global, input: &[u8]) -> Option<(u64, LineCause)> {
    match read_requests(alloc, input) {
        Err(RequestError::BadLine { line, cause }) => Some((line, cause)),
        _ => None,
    }
}

#[test]
fn bad_lines_have_causes(rt: HostRuntime) {
    for (cause, lines) in BAD_LINES {
        for line in *lines {
            assert!(rt; bad_line(rt.alloc(), line) == Some((1, *cause)));
        }
    }
}

// Inputs, with the number and the cause of the first bad line of each.
const FIRST_BAD_LINES: &[(&[u8], u64, LineCause)] = &[
    (b"1 FIRM A\n\n1 FIRM B\n", 2, LineCause::Lane),
    (b"FENCE\nFENCE\n16 FIRM a\n", 3, LineCause::Field(1)),
    (
        b"1 FIRM A\n1 FILE B I-1 A 10.00 2025-02-30\n0 FIRM A",
        2,
        LineCause::Field(5),
    ),
];

#[test]
fn the_first_bad_line_is_named(rt: HostRuntime) {
    for (input, line, cause) in FIRST_BAD_LINES {
        assert!(rt; bad_line(rt.alloc(), input) == Some((*line, *cause)));
    }
}

// A request is written as this line.
fn is_written(rt: &impl Abort, alloc: Global, request: &Request, line: &[u8]) {
    let mut written = Vec::with_capacity(alloc, 200).expect(rt, "memory");
    assert!(rt; 1 <= request.lane && request.lane <= 16);
    assert!(rt; request.act.valid() && !request.act.publishes());
    write_request(&mut written, request.lane, &request.pool, &request.act);
    assert!(rt; written.as_slice() == line);
}

// One line for each verb, at its limits.
const LINES: &[&[u8]] = &[
    b"1 FIRM A\n",
    b"16 FILE B I-1 A 9999999999.99 9999-12-31\n",
    b"1 CONFIRM B I-1 A\n",
    b"1 CONFIRM B I-1 A 0.01\n",
    b"16 @EAST CONFIRM B I-1 A 9999999999.99\n",
    b"10 DISPUTE B I-1 A\n",
    b"1 WITHDRAW B I-1\n",
    b"1 RECEIVE B I-1 0.01\n",
    b"1 FUND A 1.00\n",
    b"1 DRAW A 1.00\n",
    b"1 LIMIT A 0.00 9999999999.99\n",
    b"1 LIMIT A 9999999999.99 0.00\n",
    b"1 OFFER A 0.00\n",
    b"1 POSITION A\n",
    b"1 CLOSE PLAIN 2025-12-31\n",
    b"1 CLOSE FUNDED 1970-01-01\n",
    b"1 ABANDON\n",
    b"1 @EAST FIRM A\n",
    b"1 @A ABANDON\n",
    b"16 @ABCDEFGHIJKLMNOP FILE B I-1 A 9999999999.99 9999-12-31\n",
];

#[test]
fn requests_are_written_as_they_were_read(rt: HostRuntime) {
    for line in LINES {
        let batches = read(&rt, rt.alloc(), line);
        is_written(&rt, rt.alloc(), only_one(&rt, batches.first()), line);
    }
}
