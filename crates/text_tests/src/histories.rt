//! Acts, their texts and their ranges, and the laws of histories.
use claim_history::{
    Act, Day, Entry, Reply, Why, accepted, each_pool_has_its_history, full_register_refuses_claims,
    is_main, limits_hold, main_pool_name, open_cut_is_frozen, owned_round_stays_open, pool_bytes,
    publication_keeps_net_positions, publications_are_greatest, published_cuts_are_in_order,
    room_for_endings_is_kept, rounds_left_open_are_ended, state_is_of_the_history, use_is_counted,
    write_act,
};
use setoff_model::{Key, Kind, Name, Outcome};
use std::alloc::Global;
use std::process::Abort;

// What the acts below are made of: B's claim I-1 against A, due on 31 January 2025.
#[derive(Clone, Copy)]
struct Parts {
    a: Name,
    b: Name,
    key: Key,
    due: Day,
}

fn name(rt: &impl Abort, text: &[u8]) -> Name {
    Name::of(text).expect(rt, "a name")
}

fn make_parts(rt: &impl Abort) -> Parts {
    let b = name(rt, b"B");
    let invoice = name(rt, b"I-1");
    Parts {
        a: name(rt, b"A"),
        b,
        key: Key {
            creditor: b,
            invoice,
        },
        due: Day::of_number(20_119).expect(rt, "a day"),
    }
}

fn file(parts: &Parts, amount: u64) -> Act {
    Act::File {
        key: parts.key,
        debtor: parts.a,
        amount,
        due: parts.due,
    }
}

fn confirm(parts: &Parts, agreed: Option<u64>) -> Act {
    Act::Confirm {
        key: parts.key,
        debtor: parts.a,
        agreed,
    }
}

fn dispute(parts: &Parts) -> Act {
    Act::Dispute {
        key: parts.key,
        debtor: parts.a,
    }
}

fn receive(parts: &Parts, amount: u64) -> Act {
    Act::Receive {
        key: parts.key,
        amount,
    }
}

fn fund(firm: Name, amount: u64) -> Act {
    Act::Fund { firm, amount }
}

fn draw(firm: Name, amount: u64) -> Act {
    Act::Draw { firm, amount }
}

fn limit(firm: Name, credit: u64, ceiling: u64) -> Act {
    Act::Limit {
        firm,
        credit,
        ceiling,
    }
}

fn close(kind: Kind, horizon: Day) -> Act {
    Act::Close { kind, horizon }
}

fn publication(rt: &impl Abort, alloc: Global, discharge: u64, price: i64) -> Act {
    let discharges = vec![in alloc; discharge].expect(rt, "memory");
    let prices = vec![in alloc; price].expect(rt, "memory");
    Act::Publish {
        round: 12,
        outcome: Outcome::new(discharges, prices),
    }
}

// A valid act is written so.
fn has_text(rt: &impl Abort, alloc: Global, act: &Act, text: &[u8]) {
    let mut buffer = Vec::with_capacity(alloc, 160).expect(rt, "memory");
    assert!(rt; act.valid());
    write_act(&mut buffer, act);
    assert!(rt; buffer.as_slice() == text);
}

// Acts of all kinds, in the order of the texts below.
fn acts(rt: &impl Abort, alloc: Global, parts: &Parts) -> Vec<Act> {
    let (key, firm) = (parts.key, parts.a);
    let acts = vec![in alloc;
        Act::Firm { firm },
        file(parts, 1_000),
        confirm(parts, None),
        confirm(parts, Some(600)),
        dispute(parts),
        Act::Withdraw { key },
        receive(parts, 400),
        fund(firm, 15_001),
        draw(firm, 1),
        limit(firm, 0, 9_999),
        Act::Offer { firm, amount: 50 },
        Act::Position { firm },
        close(Kind::Plain, parts.due),
        close(Kind::Funded, parts.due),
        Act::Abandon,
        publication(rt, alloc, 700, 1),
    ];
    acts.expect(rt, "memory")
}

const TEXTS: [&[u8]; 16] = [
    b"FIRM A",
    b"FILE B I-1 A 10.00 2025-01-31",
    b"CONFIRM B I-1 A",
    b"CONFIRM B I-1 A 6.00",
    b"DISPUTE B I-1 A",
    b"WITHDRAW B I-1",
    b"RECEIVE B I-1 4.00",
    b"FUND A 150.01",
    b"DRAW A 0.01",
    b"LIMIT A 0.00 99.99",
    b"OFFER A 0.50",
    b"POSITION A",
    b"CLOSE PLAIN 2025-01-31",
    b"CLOSE FUNDED 2025-01-31",
    b"ABANDON",
    b"PUBLISH 12",
];

#[test]
fn texts(rt: HostRuntime) {
    let acts = acts(&rt, rt.alloc(), &make_parts(&rt));
    assert!(rt; acts.len() == TEXTS.len());
    for (place, text) in TEXTS.iter().enumerate() {
        has_text(&rt, rt.alloc(), &acts[place], text);
    }
}

fn are_valid(rt: &impl Abort, acts: &[Act], valid: bool) {
    for (place, act) in acts.iter().enumerate() {
        assert!(rt; act.valid() == valid, "act {place}");
    }
}

fn acts_in_range(rt: &impl Abort, alloc: Global, parts: &Parts) -> Vec<Act> {
    let acts = vec![in alloc;
        file(parts, 1),
        file(parts, 999_999_999_999),
        confirm(parts, Some(1)),
        confirm(parts, Some(999_999_999_999)),
        limit(parts.a, 0, 0),
        limit(parts.a, 999_999_999_999, 0),
        Act::Abandon,
        publication(rt, alloc, 999_999_999_999, -1),
    ];
    acts.expect(rt, "memory")
}

fn acts_out_of_range(rt: &impl Abort, alloc: Global, parts: &Parts) -> Vec<Act> {
    let acts = vec![in alloc;
        file(parts, 0),
        file(parts, 1_000_000_000_000),
        confirm(parts, Some(0)),
        confirm(parts, Some(1_000_000_000_000)),
        fund(parts.a, 0),
        limit(parts.a, 0, 1_000_000_000_000),
        publication(rt, alloc, 1_000_000_000_000, 1),
        publication(rt, alloc, 0, 2),
    ];
    acts.expect(rt, "memory")
}

#[test]
fn ranges(rt: HostRuntime) {
    let parts = make_parts(&rt);
    are_valid(&rt, &acts_in_range(&rt, rt.alloc(), &parts), true);
    are_valid(&rt, &acts_out_of_range(&rt, rt.alloc(), &parts), false);
    assert!(rt; publication(&rt, rt.alloc(), 999_999_999_999, -1).publishes());
    assert!(rt; !Act::Abandon.publishes());
}

const FAILED: Why = Why::Device {
    before: 0,
    after: 1,
};

// Replies, and whether an entry with each is accepted.
const REPLIES: &[(Reply, bool)] = &[
    (Reply::Abandoned { round: 1 }, true),
    (Reply::Published { total: 0 }, true),
    (Reply::Refused(Why::NoRound), false),
    (Reply::Refused(FAILED), false),
];

#[test]
fn acceptance(rt: HostRuntime) {
    for (reply, is_accepted) in REPLIES {
        let entry = Entry {
            caller: 1,
            act: Act::Abandon,
            reply: *reply,
        };
        assert!(rt; accepted(&entry) == *is_accepted);
    }
}

#[test]
fn laws() {
    state_is_of_the_history();
    each_pool_has_its_history();
    limits_hold();
    open_cut_is_frozen();
    owned_round_stays_open();
    rounds_left_open_are_ended();
    publication_keeps_net_positions();
    publications_are_greatest();
    published_cuts_are_in_order();
    room_for_endings_is_kept();
    use_is_counted();
    full_register_refuses_claims();
}

// Names, whether each is that of MAIN, and the bytes that name its pool in a record.
const POOLS: &[(&[u8], bool, u64)] = &[
    (b"MAIN", true, 0),
    (b"MAIN-2", false, 8),
    (b"EAST", false, 6),
    (b"ABCDEFGHIJKLMNOP", false, 18),
];

#[test]
fn main_is_named_by_no_bytes(rt: HostRuntime) {
    for (text, main, bytes) in POOLS {
        let pool = name(&rt, text);
        assert!(rt; is_main(&pool) == *main && pool_bytes(&pool) == *bytes);
    }
    assert!(rt; main_pool_name().bytes() == b"MAIN".as_slice());
}
