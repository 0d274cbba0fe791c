//! Tests of desks.

use crate::made::{day, disk_of, name};
use bureau_desk::{
    ActError, CutReply, Desk, DeskCause, PublishReply, Room, a_frozen_cut_may_be_published,
};
use claim_history::{Act, Reply, Why, main_pool_name};
use disk_model::MemoryDisk;
use round_journal::RecordWhy;
use setoff_checker::Checker;
use setoff_model::{Cut, Key, Kind, Name, Outcome};
use std::process::Abort;

// A desk on a disk with these bytes, of whose calls one fails.
fn desk_on(rt: &(impl Abort + AllocGlobal), bytes: &[u8], fails: u64) -> Desk<MemoryDisk> {
    let desk = Desk::open(rt.alloc(), disk_of(rt, bytes, &[fails])).ok();
    desk.expect(rt, "a desk")
}

// The reply to an act of caller 1 in the pool MAIN that is no Close and no publication.
fn ask(rt: &impl Abort, desk: &mut Desk<MemoryDisk>, act: Act) -> Reply {
    assert!(rt; act.valid());
    assert!(rt; !act.publishes());
    assert!(rt; !matches!(act, Act::Close { .. }));
    let reply = desk.act(1, main_pool_name(), act).ok();
    reply.expect(rt, "a reply")
}

// Caller 1 asks these acts, and each is done.
fn are_done(rt: &impl Abort, desk: &mut Desk<MemoryDisk>, acts: Vec<Act>) {
    for act in acts {
        let reply = ask(rt, desk, act);
        assert!(rt; reply == Reply::Done);
    }
}

fn key_of(creditor: Name, invoice: Name) -> Key {
    Key { creditor, invoice }
}

// Two firms, a claim of B against A of 10.00, and its confirmation up to 6.00: 89 bytes of a journal.
fn four_acts(rt: &(impl Abort + AllocGlobal)) -> Vec<Act> {
    let (a, b, invoice) = (name(rt, b"A"), name(rt, b"B"), name(rt, b"I-1"));
    let due = day(rt, 20_119);
    let acts = vec![in rt.alloc();
        Act::Firm { firm: a },
        Act::Firm { firm: b },
        Act::File {
            key: key_of(b, invoice),
            debtor: a,
            amount: 1_000,
            due
        },
        Act::Confirm {
            key: key_of(b, invoice),
            debtor: a,
            agreed: Some(600)
        },
    ];
    acts.expect(rt, "memory")
}

// The disk after the four acts on an empty one, each of which was done.
fn four_kept(rt: &(impl Abort + AllocGlobal)) -> MemoryDisk {
    let mut desk = desk_on(rt, b"", 0);
    are_done(rt, &mut desk, four_acts(rt));
    desk.close()
}

// Closes a desk, and says how many bytes it leaves.
fn closed(desk: Desk<MemoryDisk>) -> usize {
    let disk = desk.close();
    let length = disk.bytes().len();
    drop(disk);
    length
}

// Closes a desk, which leaves so many bytes, and opens another on these.
fn reopened(
    rt: &(impl Abort + AllocGlobal),
    desk: Desk<MemoryDisk>,
    length: usize,
) -> Desk<MemoryDisk> {
    let disk = desk.close();
    assert!(rt; disk.bytes().len() == length);
    let desk = desk_on(rt, disk.bytes(), 0);
    drop(disk);
    desk
}

// How many acts a desk was opened with, and how many entries it has.
fn counts(desk: &Desk<MemoryDisk>) -> (u64, u64) {
    (desk.opened_with(), desk.books().len())
}

// How many entries the books have that are read from a disk.
fn viewed(rt: &(impl Abort + AllocGlobal), disk: &mut MemoryDisk) -> u64 {
    let books = Desk::view(rt.alloc(), disk).ok();
    let books = books.expect(rt, "a journal");
    let entries = books.len();
    drop(books);
    entries
}

#[test]
fn acts_are_on_the_disk(rt: HostRuntime) {
    let mut disk = four_kept(&rt);
    assert!(rt; disk.bytes() == AGREED);
    let desk = desk_on(&rt, disk.bytes(), 0);
    assert!(rt; counts(&desk) == (4, 4));
    assert!(rt; desk.rounds().is_empty());
    assert!(rt; desk.faults() == 0);
    assert!(rt; closed(desk) == 89);
    assert!(rt; viewed(&rt, &mut disk) == 4);
    assert!(rt; disk.bytes() == AGREED);
    drop(disk);
}

// The first act fails by the disk, the same act is then done, and then refused.
fn is_settled(rt: &impl Abort, desk: &mut Desk<MemoryDisk>) {
    let firm = name(rt, b"A");
    let device = Why::Device {
        before: 0,
        after: 1,
    };
    for due in [
        Reply::Refused(device),
        Reply::Done,
        Reply::Refused(Why::FirmExists),
    ] {
        let reply = ask(rt, desk, Act::Firm { firm });
        assert!(rt; reply == due);
    }
    assert!(rt; desk.faults() == 1);
    assert!(rt; counts(desk) == (0, 3));
}

// The opening of an empty disk makes four calls, and the first append four more.
#[test]
fn a_failed_sync_is_told_and_settled(rt: HostRuntime) {
    for fails in 5..=8 {
        let mut desk = desk_on(&rt, b"", fails);
        is_settled(&rt, &mut desk);
        assert!(rt; closed(desk) == 21);
    }
}

// Whether a reply is the cut of round 1 without claims.
fn is_empty_round(reply: &Result<CutReply, ActError>) -> bool {
    match reply {
        Ok(CutReply::Frozen(cut)) => cut.round() == 1 && cut.claims().is_empty(),
        _ => false,
    }
}

// A Close by caller 1 opens or continues round 1 of a pool, which has no claims.
fn is_frozen_in(rt: &impl Abort, desk: &mut Desk<MemoryDisk>, pool: Name) {
    let reply = desk.cut(1, pool, Kind::Plain, day(rt, 20_453));
    let frozen = is_empty_round(&reply);
    drop(reply);
    assert!(rt; frozen);
}

fn is_frozen(rt: &impl Abort, desk: &mut Desk<MemoryDisk>) {
    is_frozen_in(rt, desk, main_pool_name());
}

// A pool has so many entries and no open round.
fn is_at_rest(desk: &Desk<MemoryDisk>, pool: &Name, entries: usize) -> bool {
    let book = desk.books().book(pool);
    book.history().len() == entries && book.open_round().is_none()
}

// The acts that a desk was opened with stand with an abandonment for each of its rounds, and no round is open.
#[test]
fn an_open_round_is_abandoned_at_opening(rt: HostRuntime) {
    let mut desk = desk_on(&rt, b"", 0);
    is_frozen(&rt, &mut desk);
    let desk = reopened(&rt, desk, 24);
    assert!(rt; counts(&desk) == (1, 2));
    assert!(rt; is_at_rest(&desk, &main_pool_name(), 2));
    assert!(rt; closed(desk) == 34);
}

// A round of a pool with a name of four bytes has a Close of 21 bytes and an abandonment of 16.
#[test]
fn the_open_round_of_each_pool_is_abandoned(rt: HostRuntime) {
    let east = name(&rt, b"EAST");
    let mut desk = desk_on(&rt, b"", 0);
    is_frozen(&rt, &mut desk);
    is_frozen_in(&rt, &mut desk, east);
    let desk = reopened(&rt, desk, 45);
    assert!(rt; counts(&desk) == (2, 4));
    assert!(rt; is_at_rest(&desk, &main_pool_name(), 2));
    assert!(rt; is_at_rest(&desk, &east, 2));
    assert!(rt; closed(desk) == 71);
}

// A journal that was made before there were pools goes on, and keeps its header.
#[test]
fn a_desk_keeps_an_old_journal(rt: HostRuntime) {
    let mut desk = desk_on(&rt, OPEN_ROUND, 0);
    assert!(rt; counts(&desk) == (1, 2));
    is_frozen_in(&rt, &mut desk, name(&rt, b"EAST"));
    let disk = desk.close();
    assert!(rt; disk.bytes().len() == 55);
    assert!(rt; disk.bytes().starts_with(b"BUREAUJ1"));
    let desk = desk_on(&rt, disk.bytes(), 0);
    drop(disk);
    assert!(rt; counts(&desk) == (3, 4));
    assert!(rt; closed(desk) == 71);
}

// Asks the position of a firm that is not known so many times, and is refused as such. This takes no bytes of the journal, and an
// entry each time.
fn are_unknown(rt: &impl Abort, desk: &mut Desk<MemoryDisk>, times: u64) {
    let firm = name(rt, b"A");
    for _ in 0..times {
        let reply = ask(rt, desk, Act::Position { firm });
        assert!(rt; reply == Reply::Refused(Why::UnknownFirm));
    }
}

// A Close by caller 1 has no entry, since there is room for one entry less than it needs.
fn is_full(rt: &impl Abort, desk: &mut Desk<MemoryDisk>) {
    let end = desk
        .cut(1, main_pool_name(), Kind::Plain, day(rt, 20_453))
        .err();
    let full = ActError::Full {
        what: Room::Entries,
        needed: 1_048_577,
        limit: 1_048_576,
    };
    assert!(rt; end == Some(full));
}

// A Close that continues a round needs its own entry and two for the ends of the round. It is continued while there are these, and
// is full with one entry more before it. The journal has the two that were accepted: 15 bytes each, behind 9.
#[test]
fn a_close_that_continues_a_round_gets_full(rt: HostRuntime) {
    let mut desk = desk_on(&rt, b"", 0);
    is_frozen(&rt, &mut desk);
    are_unknown(&rt, &mut desk, 1_048_572);
    is_frozen(&rt, &mut desk);
    is_full(&rt, &mut desk);
    assert!(rt; counts(&desk) == (0, 1_048_574));
    assert!(rt; closed(desk) == 39);
}

// A journal on which a desk opens with four acts and which it leaves as it is; what is left of the one claim, and the part of it.
fn is_claim(rt: &(impl Abort + AllocGlobal), bytes: &[u8], due: (u64, u64)) {
    let desk = desk_on(rt, bytes, 0);
    assert!(rt; counts(&desk) == (4, 4));
    assert!(rt; claim_of(&desk) == Some(due));
    let disk = desk.close();
    assert!(rt; disk.bytes() == bytes);
    drop(disk);
}

// What is left of the first claim of the pool MAIN, and the part of it.
fn claim_of(desk: &Desk<MemoryDisk>) -> Option<(u64, u64)> {
    let claim = desk.books().book(&main_pool_name()).claims().first()?;
    Some((claim.left, claim.part))
}

// A confirmation without an amount is of the whole claim.
#[test]
fn a_part_is_confirmed_or_the_whole(rt: HostRuntime) {
    is_claim(&rt, AGREED, (1000, 600));
    is_claim(&rt, CONFIRMED, (1000, 1000));
}

// Whatever the moment of a crash, and whichever writes it leaves, a desk opens on it.
#[test]
fn every_crash_opens(rt: HostRuntime) {
    let disk = four_kept(&rt);
    for moment in 0..=disk.moment() {
        for pick in 0..4 {
            let image = disk.image(rt.alloc(), moment, pick).expect(&rt, "memory");
            let desk = desk_on(&rt, &image, 0);
            assert!(rt; desk.opened_with() <= 4);
            assert!(rt; closed(desk) <= 89);
        }
    }
    drop(disk);
}

// The amounts of the claims of a cut.
fn amounts(rt: &(impl Abort + AllocGlobal), cut: &Cut) -> Vec<u64> {
    let mut amounts = Vec::new(rt.alloc());
    for claim in cut.claims() {
        amounts.push(claim.amount).expect(rt, "memory");
    }
    amounts
}

// Closes a round of caller 1 in a pool and publishes the outcome that discharges all claims, with prices of 0, where it is
// greatest.
fn publish_all(
    rt: &(impl Abort + AllocGlobal),
    desk: &mut Desk<MemoryDisk>,
    pool: Name,
) -> PublishReply {
    let cut = match desk.cut(1, pool, Kind::Plain, day(rt, 20_453)) {
        Ok(CutReply::Frozen(cut)) => cut,
        _ => panic!(rt; "a round"),
    };
    assert!(rt; cut.well_formed());
    let discharges = amounts(rt, &cut);
    let prices = vec![in rt.alloc(); 0; cut.parties().len()].expect(rt, "memory");
    let checker = Checker::for_cut(rt.alloc(), &cut).expect(rt, "memory");
    a_frozen_cut_may_be_published();
    let _books = desk.books();
    match checker.certify(cut, Outcome::new(discharges, prices)) {
        Ok(checked) => desk.publish(1, pool, checked),
        Err(_) => panic!(rt; "a greatest outcome"),
    }
}

// Of a round without claims the outcome is greatest: 15 bytes of a Close and 22 of a publication, behind 9.
#[test]
fn a_round_is_published(rt: HostRuntime) {
    let mut desk = desk_on(&rt, b"", 0);
    let reply = publish_all(&rt, &mut desk, main_pool_name());
    assert!(rt; reply == PublishReply::Published { total: 0 });
    assert!(rt; desk.rounds().len() == 1);
    assert!(rt; counts(&desk) == (0, 2));
    desk.clear_rounds();
    assert!(rt; desk.rounds().is_empty());
    let desk = reopened(&rt, desk, 46);
    assert!(rt; counts(&desk) == (2, 2));
    assert!(rt; closed(desk) == 46);
}

// A round of a pool is published while one of another pool is open. Two Closes of 15 bytes and a publication of 22 in the pool
// MAIN, and one of 21 and one of 28 in EAST, stand behind 9.
#[test]
fn a_round_is_published_beside_another(rt: HostRuntime) {
    let east = name(&rt, b"EAST");
    let mut desk = desk_on(&rt, b"", 0);
    is_frozen_in(&rt, &mut desk, main_pool_name());
    let reply = publish_all(&rt, &mut desk, east);
    assert!(rt; reply == PublishReply::Published { total: 0 });
    assert!(rt; is_at_rest(&desk, &east, 2));
    assert!(rt; !is_at_rest(&desk, &main_pool_name(), 1));
    let reply = publish_all(&rt, &mut desk, main_pool_name());
    assert!(rt; reply == PublishReply::Published { total: 0 });
    assert!(rt; desk.rounds().len() == 2);
    assert!(rt; is_at_rest(&desk, &main_pool_name(), 3));
    assert!(rt; closed(desk) == 110);
}

// A claim of one cent, and its confirmation.
fn one_cent(
    rt: &(impl Abort + AllocGlobal),
    creditor: Name,
    invoice: Name,
    debtor: Name,
) -> Vec<Act> {
    let due = day(rt, 20_119);
    let acts = vec![in rt.alloc();
        Act::File {
            key: key_of(creditor, invoice),
            debtor,
            amount: 1,
            due
        },
        Act::Confirm {
            key: key_of(creditor, invoice),
            debtor,
            agreed: None
        },
    ];
    acts.expect(rt, "memory")
}

// Two firms, and so many claims of each of them against the other.
fn owe_each_other(rt: &(impl Abort + AllocGlobal), desk: &mut Desk<MemoryDisk>, claims: u32) {
    let (a, b) = (name(rt, b"A"), name(rt, b"B"));
    let firms = vec![in rt.alloc(); Act::Firm { firm: a }, Act::Firm { firm: b }];
    are_done(rt, desk, firms.expect(rt, "memory"));
    for number in 0..claims {
        let text = format!(in rt.alloc(); "I-{number}").expect(rt, "memory");
        let invoice = name(rt, text.as_bytes());
        are_done(rt, desk, one_cent(rt, a, invoice, b));
        are_done(rt, desk, one_cent(rt, b, invoice, a));
    }
}

// No claim of the pool MAIN has an open amount.
fn are_settled(desk: &Desk<MemoryDisk>) -> bool {
    let book = desk.books().book(&main_pool_name());
    book.claims().iter().all(|claim| claim.left == 0)
}

// A round of 20,000 claims is published, and read again. Of each claim the journal has two records of 48 bytes, and two more for
// each further digit of its number; of the publication it has 22 bytes, 8 for each discharge and 4 for each price.
#[test]
fn a_round_of_many_claims_is_read_again(rt: HostRuntime) {
    let mut desk = desk_on(&rt, b"", 0);
    owe_each_other(&rt, &mut desk, 10_000);
    assert!(rt; !are_settled(&desk));
    let reply = publish_all(&rt, &mut desk, main_pool_name());
    assert!(rt; reply == PublishReply::Published { total: 20_000 });
    let desk = reopened(&rt, desk, 1_235_638);
    assert!(rt; counts(&desk) == (40_004, 40_004));
    assert!(rt; are_settled(&desk));
    assert!(rt; closed(desk) == 1_235_638);
}

// Two firms, a claim of B against A of 10.00, and its confirmation up to 6.00.
const AGREED: &[u8] =
    b"BUREAUJ2\x01\x00\x00\x00\x07\x00\x00\x00\x01\x01\x01A\x01\x00\x00\x00\x07\x00\x00\x00\x01\x01\x01B\x01\x00\x00\x00\x19\x00\x00\x00\x01\x02\x01B\x03I-1\x01A\x00\x00\x00\x00\x00\x00\x03\xe8\x00\x00\x4e\x97\x01\x00\x00\x00\x15\x00\x00\x00\x01\x10\x01B\x03I-1\x01A\x00\x00\x00\x00\x00\x00\x02\x58\x00";

// The same in a journal that was made before there were pools, where all of the claim is confirmed.
const CONFIRMED: &[u8] =
    b"BUREAUJ1\x01\x00\x00\x00\x07\x00\x00\x00\x01\x01\x01A\x01\x00\x00\x00\x07\x00\x00\x00\x01\x01\x01B\x01\x00\x00\x00\x19\x00\x00\x00\x01\x02\x01B\x03I-1\x01A\x00\x00\x00\x00\x00\x00\x03\xe8\x00\x00\x4e\x97\x01\x00\x00\x00\x0d\x00\x00\x00\x01\x03\x01B\x03I-1\x01A\x00";

// The header, and the record of FIRM A by caller 1.
const ONE_FIRM: &[u8] = b"BUREAUJ2\x01\x00\x00\x00\x07\x00\x00\x00\x01\x01\x01A\x00";

// The same with a tag that no act has.
const NO_ACT: &[u8] = b"BUREAUJ2\x01\x00\x00\x00\x07\x00\x00\x00\x01\x63\x01A\x00";

// The record twice, of which the second is refused.
const FIRM_TWICE: &[u8] =
    b"BUREAUJ2\x01\x00\x00\x00\x07\x00\x00\x00\x01\x01\x01A\x01\x00\x00\x00\x07\x00\x00\x00\x01\x01\x01A\x00";

// A Close, whose round the opening abandons, in a journal that was made before there were pools.
const OPEN_ROUND: &[u8] =
    b"BUREAUJ1\x01\x00\x00\x00\x0a\x00\x00\x00\x01\x0c\x00\x00\x00\x4f\xe5\x00";

// Why no desk is opened on a disk with these bytes, of whose calls one fails; None where one is.
fn refused_for(rt: &(impl Abort + AllocGlobal), bytes: &[u8], fails: u64) -> Option<DeskCause> {
    let refused = Desk::open(rt.alloc(), disk_of(rt, bytes, &[fails])).err();
    Some(refused?.cause)
}

// An opening makes three calls of a disk with a journal, and an abandonment four more.
#[test]
fn an_opening_is_refused(rt: HostRuntime) {
    let short = RecordWhy::Short;
    let body = RecordWhy::Body;
    let reply = Reply::Refused(Why::FirmExists);
    let device = DeskCause::Device {
        before: 0,
        after: 1,
    };
    let cases: [(&[u8], u64, Option<DeskCause>); 10] = [
        (b"0123456789", 0, Some(DeskCause::BadHeader)),
        (
            &ONE_FIRM[..20],
            0,
            Some(DeskCause::BadRecord {
                offset: 8,
                why: short,
            }),
        ),
        (
            NO_ACT,
            0,
            Some(DeskCause::BadRecord {
                offset: 8,
                why: body,
            }),
        ),
        (FIRM_TWICE, 0, Some(DeskCause::BadAct { offset: 20, reply })),
        (ONE_FIRM, 1, Some(device)),
        (ONE_FIRM, 3, Some(device)),
        (ONE_FIRM, 4, None),
        (OPEN_ROUND, 4, Some(device)),
        (OPEN_ROUND, 7, Some(device)),
        (OPEN_ROUND, 8, None),
    ];
    for (bytes, fails, cause) in cases {
        assert!(rt; refused_for(&rt, bytes, fails) == cause);
    }
}

// After each number of acts of the run below: where its journal's last gate stands, and how many rounds are open.
const STAGES: [(usize, u64); 13] = [
    (8, 0),
    (20, 0),
    (32, 0),
    (62, 0),
    (80, 0),
    (110, 0),
    (128, 0),
    (143, 1),
    (164, 2),
    (185, 2),
    (213, 1),
    (228, 1),
    (274, 0),
];

// A Close by caller 1 opens or continues a round of the pool MAIN.
fn closes(rt: &impl Abort, desk: &mut Desk<MemoryDisk>) {
    let reply = desk.cut(1, main_pool_name(), Kind::Plain, day(rt, 20_453));
    let frozen = matches!(&reply, Ok(CutReply::Frozen(_)));
    drop(reply);
    assert!(rt; frozen);
}

// A round of two claims is opened in the pool MAIN and one without claims in EAST, and both are published, each behind a Close
// that continues it.
fn two_rounds(rt: &(impl Abort + AllocGlobal)) -> MemoryDisk {
    let east = name(rt, b"EAST");
    let mut desk = desk_on(rt, b"", 0);
    owe_each_other(rt, &mut desk, 1);
    closes(rt, &mut desk);
    is_frozen_in(rt, &mut desk, east);
    let reply = publish_all(rt, &mut desk, east);
    assert!(rt; reply == PublishReply::Published { total: 0 });
    let reply = publish_all(rt, &mut desk, main_pool_name());
    assert!(rt; reply == PublishReply::Published { total: 2 });
    desk.close()
}

// An image of a moment holds some first acts of a journal, with all that were answered by then: the opening has four calls, and
// each act four. The rounds that they leave open are abandoned.
fn is_stage(rt: &(impl Abort + AllocGlobal), journal: &[u8], moment: u64, image: &[u8]) {
    let desk = desk_on(rt, image, 0);
    let (acts, entries) = counts(&desk);
    drop(desk.close());
    let (gate, open) = *STAGES.get(acts as usize).expect(rt, "a stage");
    let kept = journal.get(..gate).expect(rt, "the records");
    assert!(rt; entries.checked_sub(acts) == Some(open));
    assert!(rt; acts >= (moment / 8).saturating_sub(1));
    assert!(rt; acts == 0 || image.starts_with(kept));
}

// A crash at any moment of a run with two open rounds, before and after they are published.
#[test]
fn every_crash_of_two_rounds_opens(rt: HostRuntime) {
    let disk = two_rounds(&rt);
    assert!(rt; disk.bytes().len() == 275);
    for moment in 0..=disk.moment() {
        for pick in 0..4 {
            let image = disk.image(rt.alloc(), moment, pick).expect(&rt, "memory");
            is_stage(&rt, disk.bytes(), moment, &image);
        }
    }
    drop(disk);
}
