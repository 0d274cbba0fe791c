//! Tests of what is found in a journal where one of its bytes is changed.

use crate::made::disk_of;
use bureau_desk::{Desk, DeskCause};
use claim_history::{Reply, Why};
use disk_model::MemoryDisk;
use round_journal::RecordWhy;
use std::alloc::Global;
use std::process::Abort;

// The places of the claim's record and of its confirmation's.
const FILED: u64 = 44;

const CONFIRMED: u64 = 80;

// The parts of a journal: the place of each, its bytes, and what is found where the lowest bit of each byte is changed, and
// where the highest is. The records are two firms, a claim of B against A of 10.00, and its confirmation up to 6.00, all in
// the pool EAST.
//
// The letters follow from the grammar of a journal, byte by byte, and from what is asked of the acts:
// - H: there is no header.
// - A digit: so many records stand. The gate of the next one is closed, or the changed one is another act, which is accepted.
// - S and B: the part's record is short, or has no body. It names more bytes than there are, or a field leaves its form or range.
// - U: a firm of the claim is not known, since it is another firm, or one of another pool.
// - C: the confirmed claim is not known, likewise.
// - O: more is confirmed than was filed.
const PARTS: [(u64, &[u8], &[u8], &[u8]); 6] = [
    (0, b"BUREAUJ2", b"HHHHHHHH", b"HHHHHHHH"),
    (
        8,
        b"\x01\0\0\0\x0d\0\0\0\x01\x0f\x04EAST\x01\x01A",
        b"0SSSB444BBBUBUUBBB",
        b"0SSSS4444BBBBBBBBB",
    ),
    (
        26,
        b"\x01\0\0\0\x0d\0\0\0\x01\x0f\x04EAST\x01\x01B",
        b"1SSSB444BBBUBUUBBU",
        b"1SSSS4444BBBBBBBBB",
    ),
    (
        FILED,
        b"\x01\0\0\0\x1f\0\0\0\x01\x0f\x04EAST\x02\x01B\x03I-1\x01A\0\0\0\0\0\0\x03\xe8\0\0\x4e\x97",
        b"2SSSB444BBBUBUUBBUBCBCBBBBB44444B444",
        b"2SSSS4444BBBBBBBBBBBBBBBBBB44444BB44",
    ),
    (
        CONFIRMED,
        b"\x01\0\0\0\x1b\0\0\0\x01\x0f\x04EAST\x10\x01B\x03I-1\x01A\0\0\0\0\0\0\x02\x58",
        b"3SSSB444BBBCBCCBBCBCBCBBBBBOOO44",
        b"3SSSS4444BBBBBBBBBBBBBBBBBBOOOO4",
    ),
    (112, b"\0", b"S", b"4"),
];

// How many records stand, or why no book is made of them.
type Found = Result<u64, DeskCause>;

// What a letter of a part at this place tells.
fn due(letter: u8, offset: u64) -> Found {
    match letter {
        b'H' => Err(DeskCause::BadHeader),
        b'S' => Err(DeskCause::BadRecord {
            offset,
            why: RecordWhy::Short,
        }),
        b'B' => Err(DeskCause::BadRecord {
            offset,
            why: RecordWhy::Body,
        }),
        b'U' => refused_at(FILED, Why::UnknownFirm),
        b'C' => refused_at(CONFIRMED, Why::UnknownClaim),
        b'O' => refused_at(CONFIRMED, Why::OverAmount),
        _ => Ok(u64::from(letter.saturating_sub(b'0'))),
    }
}

fn refused_at(offset: u64, why: Why) -> Found {
    Err(DeskCause::BadAct {
        offset,
        reply: Reply::Refused(why),
    })
}

fn whole(rt: &(impl Abort + AllocGlobal)) -> Vec<u8> {
    let mut whole = Vec::new(rt.alloc());
    for (_, bytes, _, _) in PARTS {
        whole.extend_from_slice(bytes).expect(rt, "memory");
    }
    whole
}

// What a view finds.
fn view(alloc: Global, disk: &mut MemoryDisk) -> Found {
    let books = Desk::view(alloc, disk)?;
    let entries = books.len();
    drop(books);
    Ok(entries)
}

// What an opening finds, and the disk behind it.
fn open(alloc: Global, disk: MemoryDisk) -> (Found, MemoryDisk) {
    match Desk::open(alloc, disk) {
        Ok(desk) => (Ok(desk.opened_with()), desk.close()),
        Err(refused) => (Err(refused.cause), refused.disk),
    }
}

// A view and an opening find this, and change no byte.
fn is_found(rt: &(impl Abort + AllocGlobal), bytes: &[u8], due: Found, at: usize) {
    let mut disk = disk_of(rt, bytes, &[]);
    let viewed = view(rt.alloc(), &mut disk);
    assert!(rt; viewed == due, "a view, at {at}");
    let (opened, disk) = open(rt.alloc(), disk);
    assert!(rt; opened == due, "an opening, at {at}");
    assert!(rt; disk.bytes() == bytes);
    drop(disk);
}

// The letters tell what is found where these bits are changed in each byte of a part, in a copy of the whole.
fn are_found(
    rt: &(impl Abort + AllocGlobal),
    bytes: &mut [u8],
    bits: u8,
    offset: u64,
    letters: &[u8],
) {
    for (place, letter) in letters.iter().enumerate() {
        let at = place.wrapping_add(offset as usize);
        assert!(rt; at < bytes.len());
        bytes[at] ^= bits;
        is_found(rt, bytes, due(*letter, offset), at);
        bytes[at] ^= bits;
    }
}

// Each byte of a journal, with records of a pool and a confirmation up to an amount, is changed in turn.
#[test]
fn damage_of_each_byte_is_found(rt: HostRuntime) {
    let mut bytes = whole(&rt);
    assert!(rt; bytes.len() == 113);
    for (offset, part, lowest, highest) in PARTS {
        assert!(rt; part.len() == lowest.len() && part.len() == highest.len());
        are_found(&rt, &mut bytes, 0x01, offset, lowest);
        are_found(&rt, &mut bytes, 0x80, offset, highest);
    }
}
