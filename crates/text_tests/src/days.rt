//! Tests of days: their texts and numbers.
use claim_history::Day;
use std::alloc::Global;
use std::process::Abort;

// A day is written so.
fn has_text(rt: &impl Abort, alloc: Global, day: Day, text: &[u8]) {
    let mut buffer = Vec::with_capacity(alloc, 10).expect(rt, "memory");
    day.write(&mut buffer);
    assert!(rt; buffer.as_slice() == text);
}

const DAYS: &[(&[u8], u32)] = &[
    (b"1970-01-01", 0),
    (b"2024-02-29", 19_782),
    (b"2025-01-01", 20_089),
    (b"2025-01-31", 20_119),
    (b"2025-12-31", 20_453),
    (b"9999-12-31", 2_932_896),
];

#[test]
fn days_have_their_numbers(rt: HostRuntime) {
    for (text, number) in DAYS {
        let day = Day::read(text).expect(&rt, "a day");
        assert!(rt;
            day.number() == *number && Day::of_number(*number) == Some(day),
            "{number}"
        );
        has_text(&rt, rt.alloc(), day, text);
    }
}

const NO_DAYS: &[&[u8]] = &[
    b"1969-12-31",
    b"2025-02-29",
    b"2025-1-01",
    b"2025-13-01",
    b"2025-01-32",
    b"10000-01-01",
    b"2025-01-31 ",
    b"2O25-01-01",
    b"0000-00-00",
];

#[test]
fn other_texts_and_numbers_are_no_days(rt: HostRuntime) {
    for text in NO_DAYS {
        assert!(rt; Day::read(text).is_none());
    }
    assert!(rt; Day::of_number(2_932_897).is_none());
}
