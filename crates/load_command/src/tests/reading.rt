//! Tests of the requests that a load reads.

use load_reading::{LineCause, RequestError, read_load};
use std::process::Abort;

// The first malformed line is this, for this cause.
fn expect_bad(rt: &(impl Abort + AllocGlobal), input: &[u8], line: u64, cause: LineCause) {
    let Err(error) = read_load(rt.alloc(), input) else {
        panic!(rt; "malformed");
    };
    assert!(rt; error == RequestError::BadLine { line, cause });
}

// A line that asks for a CLOSE is malformed from its verb on, in any pool, and whatever stands behind the verb. Where the lane or the
// pool is malformed, that is told; and the first malformed line comes before all others.
#[test]
fn a_close_is_no_verb_of_a_load(rt: HostRuntime) {
    let table: [(&[u8], u64, LineCause); 10] = [
        (b"1 CLOSE PLAIN 2025-01-31\n", 1, LineCause::Verb),
        (
            b"1 FIRM A\nFENCE\n2 @EAST CLOSE FUNDED 2025-01-31\n",
            3,
            LineCause::Verb,
        ),
        (b"1 CLOSE", 1, LineCause::Verb),
        (b"1 @EAST CLOSE PLAIN 2025-02-30\n", 1, LineCause::Verb),
        (b"17 CLOSE PLAIN 2025-01-31\n", 1, LineCause::Lane),
        (b"1 @MAIN CLOSE PLAIN 2025-01-31\n", 1, LineCause::Pool),
        (b"1 FIRM\n1 CLOSE PLAIN 2025-01-31\n", 1, LineCause::Fields),
        (b"1 CLOSE PLAIN 2025-01-31\n1 FIRM\n", 1, LineCause::Verb),
        (
            b"1 FIRM A\n1 FRIM B\n1 CLOSE PLAIN 2025-01-31\n",
            2,
            LineCause::Verb,
        ),
        (b"1 FIRM A\n1 OFFER A 1\n", 2, LineCause::Field(2)),
    ];
    for (input, line, cause) in table {
        expect_bad(&rt, input, line, cause);
    }
}

// CLOSE is a name as any other, and a fence is no request.
#[test]
fn other_requests_are_read(rt: HostRuntime) {
    let input = b"1 FIRM CLOSE\nFENCE\n2 @CLOSE FIRM CLOSE\n1 ABANDON\n";
    let batches = read_load(rt.alloc(), input).ok().expect(&rt, "requests");
    assert!(rt; batches.len() == 2);
    assert!(rt; batches[0].requests().len() == 1);
    assert!(rt; batches[1].requests().len() == 2);
}
