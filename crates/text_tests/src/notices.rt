//! Notices, positions and invoices as CSV.
use claim_history::{Act, Day, Entry, Reply};
use firm_notices::{Book, ImportError, RowCause, import, notices, positions};
use request_text::read_requests;
use std::alloc::Global;
use std::process::Abort;

// Asks the book for an act that opens no round, and puts its entry at the end.
fn ask(rt: &impl Abort, book: &mut Book, caller: u32, act: Act) {
    assert!(rt; act.valid());
    assert!(rt; !act.publishes());
    assert!(rt; book.history().len() < 1_000_000);
    book.reserve(&act).expect(rt, "memory");
    let reply = book.answer(caller, &act);
    assert!(rt; !matches!(reply, Reply::Opened { .. }));
    book.apply(Entry { caller, act, reply });
}

// Asks the book for these requests one after another.
fn ask_all(rt: &impl Abort, alloc: Global, book: &mut Book, requests: &[u8]) {
    let batches = read_requests(alloc, requests).expect(rt, "requests");
    for batch in &batches {
        for request in batch.requests() {
            let act = request.act.clone().expect(rt, "memory");
            ask(rt, book, request.lane, act);
        }
    }
}

// A book has these notices on the day, and these positions.
fn tells(
    rt: &impl Abort,
    alloc: Global,
    book: &Book,
    today: &[u8],
    noticed: &[u8],
    positioned: &[u8],
) {
    let today = Day::read(today).expect(rt, "a day");
    let text = notices(alloc, book, today).expect(rt, "memory");
    assert!(rt; text.as_slice() == noticed);
    let text = positions(alloc, book).expect(rt, "memory");
    assert!(rt; text.as_slice() == positioned);
}

// A book in which this was asked has these notices on the day, and these positions.
fn are_told(
    rt: &impl Abort,
    alloc: Global,
    requests: &[u8],
    today: &[u8],
    noticed: &[u8],
    positioned: &[u8],
) {
    let mut book = Book::new(alloc);
    ask_all(rt, alloc, &mut book, requests);
    tells(rt, alloc, &book, today, noticed, positioned);
}

#[test]
fn nothing_is_told_of_nobody(rt: HostRuntime) {
    let noticed = b"debtor,creditor,invoice,status,amount,open,part,due,overdue\n";
    let positioned = b"firm,balance,credit,ceiling,offer,receivable,payable\n";
    are_told(&rt, rt.alloc(), b"", b"2026-01-10", noticed, positioned);
}

// Three firms, of which each owes the next, after 7.00 of each claim.
#[test]
fn triangle_is_told(rt: HostRuntime) {
    let requests = b"1 FIRM A\n1 FIRM B\n1 FIRM C\n\
        1 FILE B I-1 A 10.00 2025-01-31\n\
        1 FILE C I-2 B 7.00 2025-01-31\n\
        1 FILE A I-3 C 12.00 2025-01-31\n\
        1 CONFIRM B I-1 A\n1 CONFIRM C I-2 B\n1 CONFIRM A I-3 C\n\
        1 RECEIVE B I-1 7.00\n1 RECEIVE C I-2 7.00\n1 RECEIVE A I-3 7.00\n";
    let noticed = b"debtor,creditor,invoice,status,amount,open,part,due,overdue\n\
        A,B,I-1,confirmed,10.00,3.00,3.00,2025-01-31,344\n\
        C,A,I-3,confirmed,12.00,5.00,5.00,2025-01-31,344\n";
    let positioned = b"firm,balance,credit,ceiling,offer,receivable,payable\n\
        A,0.00,0.00,10000000000000.00,0.00,5.00,3.00\n\
        B,0.00,0.00,10000000000000.00,0.00,3.00,0.00\n\
        C,0.00,0.00,10000000000000.00,0.00,0.00,5.00\n";
    are_told(
        &rt,
        rt.alloc(),
        requests,
        b"2026-01-10",
        noticed,
        positioned,
    );
}

// Claims of each status, of which one is due on the day and some after it, one with a part, and an account below zero.
#[test]
fn statuses_and_accounts_are_told(rt: HostRuntime) {
    let requests = b"1 FIRM B\n1 FIRM A-1\n\
        1 FILE B I-1 A-1 1.00 2025-12-30\n\
        1 FILE B I-2 A-1 2.00 2025-12-31\n\
        1 FILE B I-3 A-1 3.00 2026-01-01\n\
        1 FILE B I-4 A-1 4.00 2025-01-01\n\
        1 FILE B I-5 A-1 5.00 2026-01-01\n\
        1 CONFIRM B I-2 A-1\n1 DISPUTE B I-3 A-1\n1 WITHDRAW B I-4\n\
        1 CONFIRM B I-5 A-1 3.00\n1 RECEIVE B I-5 1.00\n\
        1 LIMIT A-1 50.00 100.00\n1 DRAW A-1 49.99\n1 OFFER A-1 0.07\n";
    let noticed = b"debtor,creditor,invoice,status,amount,open,part,due,overdue\n\
        A-1,B,I-1,filed,1.00,1.00,0.00,2025-12-30,1\n\
        A-1,B,I-2,confirmed,2.00,2.00,2.00,2025-12-31,0\n\
        A-1,B,I-3,disputed,3.00,3.00,0.00,2026-01-01,0\n\
        A-1,B,I-5,confirmed,5.00,4.00,2.00,2026-01-01,0\n";
    let positioned = b"firm,balance,credit,ceiling,offer,receivable,payable\n\
        B,0.00,0.00,10000000000000.00,0.00,4.00,0.00\n\
        A-1,-49.99,50.00,100.00,0.07,0.00,4.00\n";
    are_told(
        &rt,
        rt.alloc(),
        requests,
        b"2025-12-31",
        noticed,
        positioned,
    );
}

// Invoices, and the requests that they are.
const INVOICES: &[(&[u8], &[u8])] = &[
    (
        b"creditor,invoice,debtor,amount,due\r\nB,I-1,A,10.00,2025-01-31\r\n\"C\",\"I-2\",B,7.00,2025-01-31",
        b"2 FILE B I-1 A 10.00 2025-01-31\n2 FILE C I-2 B 7.00 2025-01-31\n",
    ),
    (
        b"\xef\xbb\xbf\"creditor\",invoice,debtor,amount,due\n\nB,I-1,A,\"0.01\",\"1970-01-01\"\n\n",
        b"2 FILE B I-1 A 0.01 1970-01-01\n",
    ),
    (b"creditor,invoice,debtor,amount,due", b""),
];

#[test]
fn invoices_are_filed(rt: HostRuntime) {
    for (input, lines) in INVOICES {
        let text = import(rt.alloc(), input, 2).expect(&rt, "invoices");
        assert!(rt; text.as_slice() == *lines);
    }
}

// The first bad row of an input, and its cause.
fn bad_row(alloc: Global, input: &[u8]) -> Option<(u64, RowCause)> {
    match import(alloc, input, 1) {
        Err(ImportError::BadRow { row, cause }) => Some((row, cause)),
        _ => None,
    }
}

// Inputs, with the number and the cause of the first bad row of each.
const BAD_ROWS: &[(&[u8], u64, RowCause)] = &[
    (b"", 1, RowCause::Header),
    (b"\n\r\n", 1, RowCause::Header),
    (b"creditor,invoice,debtor,amount\n", 1, RowCause::Header),
    (
        b"creditor,invoice,debtor,amount,due,\n",
        1,
        RowCause::Header,
    ),
    (b"creditor,invoice,debtor,due,amount\n", 1, RowCause::Header),
    (
        b"\xef\xbb\xbf\xef\xbb\xbfcreditor,invoice,debtor,amount,due\n",
        1,
        RowCause::Header,
    ),
    (
        b"creditor,invoice,debtor,amount,due\nB,I-1,A,10.00,2025-01-31\n\"C\",\"I-2\",B,7.00,2025-01-31\nC,I-3,B,7.0,2025-01-31\n",
        4,
        RowCause::Field(4),
    ),
    (
        b"creditor,invoice,debtor,amount,due\n\nB,I-1,A,10.00\n",
        2,
        RowCause::Fields,
    ),
    (
        b"creditor,invoice,debtor,amount,due\nB,I-1,A,10.00,2025-01-31,\n",
        2,
        RowCause::Fields,
    ),
    (
        b"creditor,invoice,debtor,amount,due\n\"B,C\",i,A,0.00,2025-01-31\n",
        2,
        RowCause::Field(1),
    ),
    (
        b"creditor,invoice,debtor,amount,due\nB,\"I\"\"1\",a,0.00,2025-01-31\n",
        2,
        RowCause::Field(2),
    ),
    (
        b"creditor,invoice,debtor,amount,due\nB,I-1, A,0.00,2025-01-31\n",
        2,
        RowCause::Field(3),
    ),
    (
        b"creditor,invoice,debtor,amount,due\nB,I-1,A,0.01,2025-02-29\n",
        2,
        RowCause::Field(5),
    ),
];

#[test]
fn bad_rows_have_causes(rt: HostRuntime) {
    for (input, row, cause) in BAD_ROWS {
        assert!(rt; bad_row(rt.alloc(), input) == Some((*row, *cause)));
    }
}
