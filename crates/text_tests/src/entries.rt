//! The lines of entries.
ghost use Rattle.std.specs.Prelude.{IsTrue};
ghost use Rattle.claim_history.specs.Laws.{IsReplyInRange};

use claim_history::{Act, Entry, PoolEntry, Position, Reply, Why, main_pool_name};
use entry_text::write_pool_entry;
use setoff_model::Name;
use std::alloc::Global;
use std::process::Abort;

// Whether the sums of a reply are such that a line has room for them.
fn in_range(reply: &Reply) -> bool
    ensures { IsTrue result → IsReplyInRange reply.now }
{
    let most = 1_000_000_000_000_000_000;
    match reply {
        Reply::Position(position) => {
            position.balance.unsigned_abs() < most
                && position.receivable < most
                && position.payable < most
        }
        Reply::Published { total } => *total < most,
        _ => true,
    }
}

// The line of this caller's entry of a pool.
fn line_in(
    rt: &impl Abort,
    alloc: Global,
    caller: u32,
    pool: Name,
    act: Act,
    reply: Reply,
) -> Vec<u8> {
    let entry = Entry { caller, act, reply };
    let mut buffer = Vec::with_capacity(alloc, 200).expect(rt, "memory");
    assert!(rt; entry.act.valid());
    assert!(rt; in_range(&entry.reply));
    write_pool_entry(&mut buffer, &PoolEntry { pool, entry });
    buffer
}

// The line of this caller's entry of the pool MAIN.
fn line_of(rt: &impl Abort, alloc: Global, caller: u32, act: Act, reply: Reply) -> Vec<u8> {
    line_in(rt, alloc, caller, main_pool_name(), act, reply)
}

#[test]
fn entries_name_their_pools(rt: HostRuntime) {
    let firm = Name::of(b"A").expect(&rt, "a name");
    let east = Name::of(b"EAST").expect(&rt, "a name");
    let none = Position {
        balance: 0,
        receivable: 0,
        payable: 0,
    };
    let line = line_of(&rt, rt.alloc(), 1, Act::Firm { firm }, Reply::Done);
    assert!(rt; line.as_slice() == b"1 FIRM A = ok\n".as_slice());
    let line = line_in(&rt, rt.alloc(), 1, east, Act::Firm { firm }, Reply::Done);
    assert!(rt; line.as_slice() == b"1 @EAST FIRM A = ok\n".as_slice());
    let told = Reply::Position(none);
    let line = line_in(&rt, rt.alloc(), 1, east, Act::Position { firm }, told);
    assert!(rt;
        line.as_slice()
            == b"1 @EAST POSITION A = balance 0.00 receivable 0.00 payable 0.00\n".as_slice()
    );
}

#[test]
fn entries_of_a_firm_are_written(rt: HostRuntime) {
    let firm = Name::of(b"A").expect(&rt, "a name");
    let refused = Reply::Refused(Why::FirmExists);
    let line = line_of(&rt, rt.alloc(), 12, Act::Firm { firm }, refused);
    assert!(rt; line.as_slice() == b"12 FIRM A = refused 1 firm-exists\n".as_slice());
    let told = Reply::Position(Position {
        balance: -5_001,
        receivable: 262_144_000_000_000_000,
        payable: 7,
    });
    let line = line_of(&rt, rt.alloc(), 1, Act::Position { firm }, told);
    assert!(rt;
        line.as_slice()
            == b"1 POSITION A = balance -50.01 receivable 2621440000000000.00 payable 0.07\n".as_slice()
    );
}

const MOST_ROUND: u32 = 4_294_967_295;

// Replies to an Abandon of the bureau, and the lines of these.
const REPLIES: &[(Reply, &[u8])] = &[
    (
        Reply::Opened { round: MOST_ROUND },
        b"0 ABANDON = opened 4294967295\n",
    ),
    (Reply::Continued { round: 1 }, b"0 ABANDON = continued 1\n"),
    (
        Reply::Published {
            total: 999_999_999_999_999_999,
        },
        b"0 ABANDON = published 9999999999999999.99\n",
    ),
    (Reply::Abandoned { round: 7 }, b"0 ABANDON = abandoned 7\n"),
    (
        Reply::Refused(Why::Frozen { round: 1 }),
        b"0 ABANDON = refused 10 frozen 1\n",
    ),
    (
        Reply::Refused(Why::RoundOpen { round: MOST_ROUND }),
        b"0 ABANDON = refused 15 round-open 4294967295\n",
    ),
    (
        Reply::Refused(Why::NoRound),
        b"0 ABANDON = refused 16 no-round\n",
    ),
    (
        Reply::Refused(Why::NotOwner { round: 2 }),
        b"0 ABANDON = refused 17 not-owner 2\n",
    ),
    (
        Reply::Refused(Why::Device {
            before: 0,
            after: 18_446_744_073_709_551_615,
        }),
        b"0 ABANDON = refused 18 device 0 18446744073709551615\n",
    ),
    (
        Reply::Refused(Why::NotProved),
        b"0 ABANDON = refused 19 not-proved\n",
    ),
    (
        Reply::Refused(Why::OverAmount),
        b"0 ABANDON = refused 20 over-amount\n",
    ),
];

#[test]
fn replies_of_rounds_are_written(rt: HostRuntime) {
    for (reply, text) in REPLIES {
        let line = line_of(&rt, rt.alloc(), 0, Act::Abandon, *reply);
        assert!(rt; line.as_slice() == *text);
    }
}
