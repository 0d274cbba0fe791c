//! Tests of the bodies of acts.

use crate::made::{day, in_east, in_main, name};
use act_bodies::{
    bodies_have_their_lengths, body_length, can_be_kept, each_body_is_of_one_call, encode,
    read_body,
};
use claim_history::{Act, Call};
use setoff_model::{Key, Kind, Outcome};
use std::process::Abort;

const FIRM: [u8; 7] = [0, 0, 0, 1, 1, 1, 0x41];

const FILE: [u8; 25] = [
    0, 0, 0, 1, 2, 1, 0x42, 3, 0x49, 0x2d, 0x31, 1, 0x41, 0, 0, 0, 0, 0, 0, 3, 0xe8, 0, 0, 0x4e,
    0x97,
];

const CONFIRM: [u8; 13] = [0, 0, 0, 1, 3, 1, 0x42, 3, 0x49, 0x2d, 0x31, 1, 0x41];

// `1 CONFIRM B I-1 A 6.00`.
const AGREE: [u8; 21] = [
    0, 0, 0, 1, 16, 1, 0x42, 3, 0x49, 0x2d, 0x31, 1, 0x41, 0, 0, 0, 0, 0, 0, 2, 0x58,
];

const CLOSE: [u8; 10] = [0, 0, 0, 1, 12, 0, 0, 0, 0x4f, 0xe5];

const PUBLISH: [u8; 53] = [
    0, 0, 0, 1, 14, 0, 0, 0, 1, 0, 0, 0, 3, 0, 0, 0, 0, 0, 0, 2, 0xbc, 0, 0, 0, 0, 0, 0, 2, 0xbc,
    0, 0, 0, 0, 0, 0, 2, 0xbc, 0, 0, 0, 3, 0, 0, 0, 4, 0, 0, 0, 5, 0, 0, 0, 3,
];

const ABANDON: [u8; 5] = [0, 0, 0, 0, 13];

// `1 @EAST FIRM A` and `0 @EAST ABANDON`.
const FIRM_IN_EAST: [u8; 13] = [0, 0, 0, 1, 15, 4, 0x45, 0x41, 0x53, 0x54, 1, 1, 0x41];

const ABANDON_IN_EAST: [u8; 11] = [0, 0, 0, 0, 15, 4, 0x45, 0x41, 0x53, 0x54, 13];

// `1 @EAST CONFIRM B I-1 A 6.00`.
const AGREE_IN_EAST: [u8; 27] = [
    0, 0, 0, 1, 15, 4, 0x45, 0x41, 0x53, 0x54, 16, 1, 0x42, 3, 0x49, 0x2d, 0x31, 1, 0x41, 0, 0, 0,
    0, 0, 0, 2, 0x58,
];

// What names B's claim I-1.
fn key(rt: &impl Abort) -> Key {
    Key {
        creditor: name(rt, b"B"),
        invoice: name(rt, b"I-1"),
    }
}

// B's claim I-1 against A, of 10.00, due on 31 January 2025.
fn file(rt: &impl Abort) -> Act {
    Act::File {
        key: key(rt),
        debtor: name(rt, b"A"),
        amount: 1000,
        due: day(rt, 20_119),
    }
}

// Its confirmation by A.
fn confirm(rt: &impl Abort, agreed: Option<u64>) -> Act {
    Act::Confirm {
        key: key(rt),
        debtor: name(rt, b"A"),
        agreed,
    }
}

fn close(rt: &impl Abort) -> Act {
    Act::Close {
        kind: Kind::Plain,
        horizon: day(rt, 20_453),
    }
}

// Three discharges of 7.00, by the prices 1, 2 and 0.
fn publish(rt: &(impl Abort + AllocGlobal)) -> Act {
    let discharges = vec![in rt.alloc(); 700, 700, 700].expect(rt, "memory");
    let prices = vec![in rt.alloc(); 1, 2, 0].expect(rt, "memory");
    Act::Publish {
        round: 1,
        outcome: Outcome::new(discharges, prices),
    }
}

// The body of a call, which can be kept, is this one.
fn is_written(rt: &(impl Abort + AllocGlobal), call: &Call, bytes: &[u8]) {
    assert!(rt; can_be_kept(call));
    assert!(rt; call.act.valid());
    let length = body_length(&call.pool, &call.act) as usize;
    let mut buffer = Vec::with_capacity(rt.alloc(), length).expect(rt, "memory");
    encode(&mut buffer, call.caller, &call.pool, &call.act);
    assert!(rt; buffer.as_slice() == bytes);
}

#[test]
fn bodies_are_written(rt: HostRuntime) {
    each_body_is_of_one_call();
    bodies_have_their_lengths();
    let firm = name(&rt, b"A");
    is_written(&rt, &in_main(1, Act::Firm { firm }), &FIRM);
    is_written(&rt, &in_main(1, file(&rt)), &FILE);
    is_written(&rt, &in_main(1, confirm(&rt, None)), &CONFIRM);
    is_written(&rt, &in_main(1, confirm(&rt, Some(600))), &AGREE);
    is_written(&rt, &in_main(1, close(&rt)), &CLOSE);
    is_written(&rt, &in_main(1, publish(&rt)), &PUBLISH);
    is_written(&rt, &in_main(0, Act::Abandon), &ABANDON);
}

#[test]
fn another_pool_than_main_is_named(rt: HostRuntime) {
    let firm = name(&rt, b"A");
    is_written(&rt, &in_east(&rt, 1, Act::Firm { firm }), &FIRM_IN_EAST);
    is_written(&rt, &in_east(&rt, 0, Act::Abandon), &ABANDON_IN_EAST);
    is_written(
        &rt,
        &in_east(&rt, 1, confirm(&rt, Some(600))),
        &AGREE_IN_EAST,
    );
    let opened = in_east(&rt, 0, Act::Firm { firm });
    assert!(rt; !can_be_kept(&opened));
    drop(opened);
}

// A body is that of a call, and is written again from it.
fn is_read_back(rt: &(impl Abort + AllocGlobal), bytes: &[u8]) {
    let read = read_body(rt.alloc(), bytes).expect(rt, "memory");
    let call = read.expect(rt, "a call");
    is_written(rt, &call, bytes);
    drop(call);
}

#[test]
fn bodies_are_read_back(rt: HostRuntime) {
    let bodies: [&[u8]; 24] = [
        &FIRM,
        &FILE,
        &CONFIRM,
        &AGREE,
        &CLOSE,
        &PUBLISH,
        &ABANDON,
        // caller 4294967295 disputes, withdraws, and receives 9999999999.99
        b"\xff\xff\xff\xff\x04\x01B\x03I-1\x01A",
        b"\xff\xff\xff\xff\x05\x01B\x03I-1",
        b"\xff\xff\xff\xff\x06\x01B\x03I-1\0\0\0\xe8\xd4\xa5\x0f\xff",
        // a fund and a draw of 0.01, limits of 0.00 and 0.01, an offer of 0.00
        b"\0\0\0\x01\x07\x01A\0\0\0\0\0\0\0\x01",
        b"\0\0\0\x01\x08\x01A\0\0\0\0\0\0\0\x01",
        b"\0\0\0\x01\x09\x01A\0\0\0\0\0\0\0\0\0\0\0\0\0\0\0\x01",
        b"\0\0\0\x01\x0a\x01A\0\0\0\0\0\0\0\0",
        b"\0\0\0\x01\x0b\x10ABCDEFGHIJKLMNOP",
        // a confirmation of 9999999999.99
        b"\0\0\0\x01\x10\x01B\x03I-1\x01A\0\0\0\xe8\xd4\xa5\x0f\xff",
        // a FUNDED round up to 9999-12-31
        b"\0\0\0\x01\x0c\x01\0\x2c\xc0\xa0",
        // no claims and no parties; one party with the price -1
        b"\0\0\0\x01\x0e\0\0\0\x01\0\0\0\0\0\0\0\0",
        b"\0\0\0\x01\x0e\0\0\0\x01\0\0\0\0\0\0\0\x01\0\0\0\0",
        // in the pool EAST, and a publication in one with a name of 16 bytes
        &FIRM_IN_EAST,
        &ABANDON_IN_EAST,
        &AGREE_IN_EAST,
        b"\0\0\0\x01\x0f\x01E\x0c\0\0\0\x4f\xe5",
        b"\0\0\0\x01\x0f\x10ABCDEFGHIJKLMNOP\x0e\0\0\0\x01\0\0\0\0\0\0\0\0",
    ];
    for bytes in bodies {
        is_read_back(&rt, bytes);
    }
}

#[test]
fn other_bytes_are_no_bodies(rt: HostRuntime) {
    let refused: [&[u8]; 34] = [
        b"",
        b"\0\0\0\x01",
        b"\0\0\0\x01\0",
        b"\0\0\0\x01\x63",
        &FIRM[..6],
        &FILE[..24],
        &PUBLISH[..52],
        b"\0\0\0\0\x0d\0",
        b"\0\0\0\x01\x01\x01AA",
        // caller 0 registers a firm
        b"\0\0\0\0\x01\x01A",
        // malformed names
        b"\0\0\0\x01\x01\0",
        b"\0\0\0\x01\x01\x01a",
        b"\0\0\0\x01\x01\x11ABCDEFGHIJKLMNOPQ",
        // funds of 0.00 and of 10000000000.00
        b"\0\0\0\x01\x07\x01A\0\0\0\0\0\0\0\0",
        b"\0\0\0\x01\x07\x01A\0\0\0\xe8\xd4\xa5\x10\0",
        // a confirmation of 0.00, of 10000000000.00, and of a part of an amount; one without and one with an amount by the
        // tag of the other
        b"\0\0\0\x01\x10\x01B\x03I-1\x01A\0\0\0\0\0\0\0\0",
        b"\0\0\0\x01\x10\x01B\x03I-1\x01A\0\0\0\xe8\xd4\xa5\x10\0",
        &AGREE[..20],
        b"\0\0\0\x01\x10\x01B\x03I-1\x01A",
        b"\0\0\0\x01\x03\x01B\x03I-1\x01A\0\0\0\0\0\0\x02\x58",
        // a kind that is none, and the day after 9999-12-31
        b"\0\0\0\x01\x0c\x02\0\0\x4f\xe5",
        b"\0\0\0\x01\x0c\0\0\x2c\xc0\xa1",
        // round 0
        b"\0\0\0\x01\x0e\0\0\0\0\0\0\0\0\0\0\0\0",
        // a discharge of 10000000000.00
        b"\0\0\0\x01\x0e\0\0\0\x01\0\0\0\x01\0\0\0\xe8\xd4\xa5\x10\0\0\0\0\0",
        // one party with the price 2
        b"\0\0\0\x01\x0e\0\0\0\x01\0\0\0\0\0\0\0\x01\0\0\0\x03",
        // more discharges than there are bytes
        b"\0\0\0\x01\x0e\0\0\0\x01\xff\xff\xff\xff\0\0\0\0",
        // the pool MAIN, two pools, and a firm of caller 0 in a pool
        b"\0\0\0\x01\x0f\x04MAIN\x01\x01A",
        b"\0\0\0\x01\x0f\x04EAST\x0f\x04WEST\x01\x01A",
        b"\0\0\0\0\x0f\x04EAST\x01\x01A",
        // a pool without an act, a part of a name, no name, and malformed names
        b"\0\0\0\x01\x0f\x04EAST",
        b"\0\0\0\x01\x0f\x04EAS",
        b"\0\0\0\x01\x0f\0\x01\x01A",
        b"\0\0\0\x01\x0f\x04east\x01\x01A",
        b"\0\0\0\x01\x0f\x11ABCDEFGHIJKLMNOPQ\x01\x01A",
    ];
    for (place, bytes) in refused.into_iter().enumerate() {
        let read = read_body(rt.alloc(), bytes).expect(&rt, "memory");
        assert!(rt; read.is_none(), "a call at {place}");
    }
}
