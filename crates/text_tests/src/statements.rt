//! Statements as text.
use setoff_model::limits::LINE_BYTES;
use setoff_model::{Cut, CutClaim, Kind, Name, Party};
use statement_text::StatementCause::{
    After, Limit, NoEnd, NoParty, Repeat, Round, SameFirm, Shape, Window,
};
use statement_text::{
    StatementCause, StatementError, each_statement_has_one_reading, read_statement, write_claim,
    write_end, write_head, write_party,
};
use std::alloc::Global;
use std::process::Abort;

const TRIANGLE: &[u8] = b"ROUND 1 PLAIN
PARTY A 0.00 0.00 1
PARTY B 0.00 0.00 2
PARTY C 0.00 0.00 0
CLAIM B I-1 A 10.00 7.00
CLAIM C I-2 B 7.00 7.00
CLAIM A I-3 C 12.00 7.00
END
";

// A claim of the triangle: who owes, to whom, how much.
fn owes(rt: &impl Abort, claim: &CutClaim, debtor: u32, creditor: u32, amount: u64) {
    assert!(rt; claim.debtor == debtor && claim.creditor == creditor && claim.amount == amount);
}

fn are_of_the_triangle(rt: &impl Abort, claims: &[CutClaim]) {
    assert!(rt; claims.len() == 3);
    owes(rt, &claims[0], 0, 1, 1000);
    owes(rt, &claims[1], 1, 2, 700);
    owes(rt, &claims[2], 2, 0, 1200);
    assert!(rt; claims[0].key.invoice.bytes() == b"I-1".as_slice());
}

#[test]
fn triangle_is_read(rt: HostRuntime) {
    let (cut, outcome) = read_statement(rt.alloc(), TRIANGLE).expect(&rt, "a statement");
    assert!(rt; cut.round() == 1 && cut.kind() == Kind::Plain && cut.parties().len() == 3);
    are_of_the_triangle(&rt, cut.claims());
    assert!(rt; outcome.discharges() == [700, 700, 700].as_slice());
    assert!(rt; outcome.prices() == [1, 2, 0].as_slice());
}

fn put_head(rt: &impl Abort, text: &mut Vec<u8>) {
    text.reserve(LINE_BYTES).expect(rt, "memory");
    write_head(text, 1, Kind::Plain);
}

fn put_party(rt: &impl Abort, text: &mut Vec<u8>, firm: &[u8], price: u8) {
    let party = Party {
        firm: Name::of(firm).expect(rt, "a name"),
        spend: 0,
        room: 0,
    };
    text.reserve(LINE_BYTES).expect(rt, "memory");
    write_party(text, &party, i64::from(price));
}

fn put_claim(rt: &impl Abort, text: &mut Vec<u8>, cut: &Cut, place: u32) {
    assert!(rt; cut.well_formed());
    assert!(rt; (place as usize) < cut.claims().len());
    text.reserve(LINE_BYTES).expect(rt, "memory");
    write_claim(text, cut, place, 700);
}

fn put_end(rt: &impl Abort, text: &mut Vec<u8>) {
    text.reserve(LINE_BYTES).expect(rt, "memory");
    write_end(text);
}

// The text of the triangle's statement.
fn written(rt: &impl Abort, alloc: Global, cut: &Cut) -> Vec<u8> {
    let mut text = Vec::new(alloc);
    put_head(rt, &mut text);
    put_party(rt, &mut text, b"A", 1);
    put_party(rt, &mut text, b"B", 2);
    put_party(rt, &mut text, b"C", 0);
    for place in 0..3 {
        put_claim(rt, &mut text, cut, place);
    }
    put_end(rt, &mut text);
    text
}

#[test]
fn triangle_is_written(rt: HostRuntime) {
    each_statement_has_one_reading();
    let (cut, _) = read_statement(rt.alloc(), TRIANGLE).expect(&rt, "a statement");
    assert!(rt; written(&rt, rt.alloc(), &cut).as_slice() == TRIANGLE);
}

fn bad_line(alloc: Global, text: &[u8]) -> Option<(u64, StatementCause)> {
    match read_statement(alloc, text) {
        Err(StatementError::BadLine { line, cause }) => Some((line, cause)),
        _ => None,
    }
}

// Whether a text is read, or has a bad line. None where memory is missing.
fn is_read(alloc: Global, text: &[u8]) -> Option<bool> {
    match read_statement(alloc, text) {
        Ok(_) => Some(true),
        Err(StatementError::BadLine { .. }) => Some(false),
        Err(StatementError::Memory) => None,
    }
}

// Of the texts that the triangle's begins with, only the whole one and the one without its last line feed are read.
#[test]
fn a_text_cut_short(rt: HostRuntime) {
    for end in 0..TRIANGLE.len() {
        let text = &TRIANGLE[..end];
        let missing = TRIANGLE.len() - end;
        assert!(rt; is_read(rt.alloc(), text) == Some(missing == 1), "at {end}");
        if missing == b"END\n".len() {
            assert!(rt; bad_line(rt.alloc(), text) == Some((8, NoEnd)));
        }
    }
}

const OTHER_ENDS: &[&[u8]] = &[
    b"ROUND 1 PLAIN\r\nEND\r\n",
    b"ROUND 4294967295 FUNDED\nEND",
    b"ROUND 1 FUNDED\nPARTY A 20000000000000.00 0.00 -999999999\nEND\n",
];

#[test]
fn other_line_ends(rt: HostRuntime) {
    for text in OTHER_ENDS {
        assert!(rt; is_read(rt.alloc(), text) == Some(true));
    }
}

// Texts, with the number and the cause of the first bad line of each.
const BAD_LINES: &[(&[u8], u64, StatementCause)] = &[
    (b"", 1, Round),
    (b"END\n", 1, Round),
    (b"ROUND 0 PLAIN\nEND\n", 1, Round),
    (b"ROUND 4294967296 PLAIN\nEND\n", 1, Round),
    (b"ROUND 1 PLAIN\nEND\n\n", 3, After),
    (b"ROUND 1 PLAIN\nROUND 1 PLAIN\nEND\n", 2, Shape),
    (b"ROUND 1 PLAIN\nPARTY A 0.00 0.00 -0\nEND\n", 2, Shape),
    (
        b"ROUND 1 FUNDED\nPARTY A 20000000000000.01 0.00 0\nEND\n",
        2,
        Shape,
    ),
    (
        b"ROUND 1 PLAIN\nPARTY A 0.00 0.00 0\nPARTY B 0.00 0.00 0\nCLAIM A I B 0.01 0.00\nPARTY C 0.00 0.00 0\nEND\n",
        5,
        Shape,
    ),
    (
        b"ROUND 1 PLAIN\nPARTY A 0.00 0.00 0\nPARTY B 0.00 0.00 0\nCLAIM A I B 0.00 0.00\nEND\n",
        4,
        Shape,
    ),
    (
        b"ROUND 1 PLAIN\nPARTY A 0.00 0.00 0\nPARTY A 0.01 0.00 0\nEND\n",
        3,
        Repeat,
    ),
    (
        b"ROUND 1 PLAIN\nPARTY A 0.00 0.00 0\nPARTY B 0.00 0.00 0\nCLAIM A I B 0.01 0.00\nCLAIM A I C 0.01 0.00\nEND\n",
        5,
        Repeat,
    ),
    (
        b"ROUND 1 PLAIN\nPARTY A 0.00 0.00 0\nCLAIM A I B 0.01 0.00\nEND\n",
        3,
        NoParty,
    ),
    (
        b"ROUND 1 PLAIN\nPARTY A 0.00 0.00 0\nCLAIM B I B 0.01 0.00\nEND\n",
        3,
        NoParty,
    ),
    (
        b"ROUND 1 PLAIN\nPARTY A 0.00 0.00 0\nCLAIM A I A 0.01 0.00\nEND\n",
        3,
        SameFirm,
    ),
    (b"ROUND 1 PLAIN\nPARTY A 0.00 0.01 0\nEND\n", 2, Window),
    (b"ROUND 1 PLAIN\nPARTY A 0.01 0.00 0\nEND\n", 2, Window),
    (b"ROUND 1 PLAIN\n", 2, NoEnd),
    (b"ROUND 1 PLAIN\nPARTY A 0.00 0.00 0", 3, NoEnd),
];

#[test]
fn bad_lines(rt: HostRuntime) {
    for (text, line, cause) in BAD_LINES {
        assert!(rt;
            bad_line(rt.alloc(), text) == Some((*line, *cause)),
            "at {line}"
        );
    }
}

fn put(rt: &impl Abort, text: &mut Vec<u8>, line: &[u8]) {
    text.extend_from_slice(line).expect(rt, "memory");
}

// A statement of so many parties and claims, with one more line before its end.
fn many_lines(rt: &impl Abort, alloc: Global, parties: u32, claims: u32, more: &[u8]) -> Vec<u8> {
    let mut text = Vec::new(alloc);
    put(rt, &mut text, b"ROUND 1 PLAIN\n");
    for k in 0..parties {
        let line = format!(in alloc; "PARTY F-{k} 0.00 0.00 0\n").expect(rt, "memory");
        put(rt, &mut text, line.as_bytes());
    }
    for k in 0..claims {
        let line = format!(in alloc; "CLAIM F-1 I-{k} F-0 1.00 0.50\n").expect(rt, "memory");
        put(rt, &mut text, line.as_bytes());
    }
    put(rt, &mut text, more);
    put(rt, &mut text, b"END\n");
    text
}

// So many parties and claims, one line too many, and its number. The limit comes before all that the line repeats or does not name.
const TOO_MANY: &[(u32, u32, &[u8], u64)] = &[
    (16_384, 0, b"PARTY G 0.00 0.00 0\n", 16_386),
    (16_384, 0, b"PARTY F-0 0.00 0.01 0\n", 16_386),
    (2, 262_144, b"CLAIM F-1 J F-0 1.00 0.50\n", 262_148),
    (2, 262_144, b"CLAIM F-1 I-0 F-0 1.00 0.50\n", 262_148),
    (2, 262_144, b"CLAIM F-1 J G 1.00 0.50\n", 262_148),
];

#[test]
fn limits(rt: HostRuntime) {
    let most = many_lines(&rt, rt.alloc(), 16_384, 262_144, b"");
    assert!(rt; is_read(rt.alloc(), &most) == Some(true));
    for (parties, claims, more, line) in TOO_MANY {
        let text = many_lines(&rt, rt.alloc(), *parties, *claims, more);
        assert!(rt; bad_line(rt.alloc(), &text) == Some((*line, Limit)));
    }
}
