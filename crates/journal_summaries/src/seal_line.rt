//! The digest of the acts of a journal.
ghost use Rattle.std.specs.Prelude.{◌≡◌, ◌+◌, ◌<◌, ◌≤◌, ◌^◌, ◌++◌, [], ℕ, List, IfOk, OnOk, length};
ghost use Rattle.std.specs.Prelude.{codes, decimal, drop, take, true, vec_len, vec_capacity};
ghost use Rattle.sha2.specs.Hashers.{Holds256};
ghost use Rattle.act_bodies.specs.Bodies.{body_of, called};
ghost use Rattle.printed_text.specs.claim_history.specs.Acts.{is_valid};
ghost use Rattle.printed_text.specs.claim_history.specs.Pools.{member_of};
ghost use Rattle.journal_summaries.specs.Seal.{has_acts, no_act_text, record_of, records_of, seal_line, seal_status, seal_text};

use act_bodies::{body_length, encode as encode_body};
use claim_history::{Act, Entry};
use hex::encode;
use printed_text::{Books, ExitStatus};
use setoff_model::limits::LINE_BYTES;
use setoff_model::{Name, put, write_number, write_whole};
use sha2::{Digest, Sha256};
use std::alloc::{AllocError, Global};

// Puts the body of an act by caller 1 into a buffer. The first four bytes are the caller's, and no others tell it.
fn put_body(body: &mut Vec<u8>, pool: &Name, act: &Act) -> Result<u64, AllocError>
    requires { is_valid act.now ≡ true }

    // With memory, the body is in the buffer, and this is its length.
    ensures body { OnOk result (body.new.items ≡ body_of (called 1 pool.now act.now)) }
    ensures length { IfOk result (λ n. n ≡ length (body_of (called 1 pool.now act.now))) }
    ensures least { IfOk result (λ n. 5 ≤ n) }
    ensures few { IfOk result (λ n. n < 2 ^ 32) }
{
    let _name = pool.bytes();
    let length = body_length(pool, act);
    body.clear();
    body.reserve(length as usize)?;
    encode_body(body, 1, pool, act);
    Ok(length)
}

// What a body tells behind the number of its caller.
fn behind_caller(body: &[u8]) -> &[u8]
    requires { 4 ≤ length body.now }
    ensures { result.now ≡ drop 4 body.now }
{
    &body[4..]
}

fn feed(hasher: &mut Sha256, bytes: &[u8])
    ensures { (m : List ℕ) → Holds256 hasher.old m → Holds256 hasher.new (m ++ bytes.now) }
{
    hasher.update(bytes);
}

// Feeds the record of a caller's act to the hasher, and gives its length.
fn feed_record(
    hasher: &mut Sha256,
    body: &mut Vec<u8>,
    pool: &Name,
    entry: &Entry,
) -> Result<u64, AllocError>
    requires { is_valid entry.now.act ≡ true }
    ensures fed { OnOk result ((m : List ℕ) → Holds256 hasher.old m → Holds256 hasher.new (m ++ record_of (member_of pool.now entry.now))) }
    ensures length { IfOk result (λ n. n ≡ length (record_of (member_of pool.now entry.now))) }
    ensures few { IfOk result (λ n. n < 2 ^ 33) }
{
    let length = put_body(body, pool, &entry.act)?;
    feed(hasher, b"\x01");
    feed(hasher, &(length as u32).to_be_bytes());
    feed(hasher, &entry.caller.to_be_bytes());
    feed(hasher, behind_caller(body));
    Ok(length + 5)
}

// Feeds the records of the first so many acts, and gives how many bytes they are.
fn feed_first(
    alloc: Global,
    hasher: &mut Sha256,
    books: &Books,
    acts: u64,
) -> Result<u128, AllocError>
    requires { acts ≤ length books.now.members }
    ensures fed { OnOk result (Holds256 hasher.old [] → Holds256 hasher.new (records_of (take acts books.now.members))) }
    ensures bytes { IfOk result (λ n. n ≡ length (records_of (take acts books.now.members))) }
    ensures few { IfOk result (λ n. n < 2 ^ 96) }
{
    let _len = books.len();
    let mut body = Vec::new(alloc);
    let mut bytes = 0;
    for place in 0..acts {
        let (pool, entry) = books.member(place);
        bytes += u128::from(feed_record(hasher, &mut body, &pool, entry)?);
    }
    Ok(bytes)
}

// The bytes that the line takes before its digest.
const HEAD: usize = 200;

// Writes how many acts these are, and how many bytes.
fn write_head(text: &mut Vec<u8>, acts: u64, bytes: u128)
    requires few { bytes < 2 ^ 96 }
    requires spare { vec_len text.old + 200 ≤ vec_capacity text.old }
    ensures { text.new.items ≡ text.old.items ++ (codes "acts " ++ decimal acts ++ codes " bytes " ++ decimal bytes ++ codes " sha256 ") }
{
    put(text, b"acts ");
    write_whole(text, acts);
    put(text, b" bytes ");
    write_number(text, bytes as i128);
    put(text, b" sha256 ");
}

// The line of the first so many acts.
fn line_of(alloc: Global, books: &Books, acts: u64) -> Result<Vec<u8>, AllocError>
    requires { acts ≤ length books.now.members }
    ensures { IfOk result (λ text. text.items ≡ seal_line (take acts books.now.members)) }
{
    let mut hasher = Sha256::new();
    let bytes = feed_first(alloc, &mut hasher, books, acts)?;
    let digest = hasher.finalize();
    let digits = encode(alloc, digest.as_slice())?;
    let mut text = Vec::with_capacity(alloc, HEAD)?;
    write_head(&mut text, acts, bytes);
    text.extend_from_slice(digits.as_bytes())?;
    text.extend_from_slice(b"\n")?;
    Ok(text)
}

// The line that there are fewer acts.
fn no_act(alloc: Global, acts: u32) -> Result<Vec<u8>, AllocError>
    ensures { IfOk result (λ text. text.items ≡ no_act_text acts) }
{
    let mut text = Vec::with_capacity(alloc, LINE_BYTES)?;
    put(&mut text, b"no act ");
    write_whole(&mut text, u64::from(acts));
    put(&mut text, b"\n");
    Ok(text)
}

// Whether there are so many acts.
fn has_acts(books: &Books, acts: Option<u32>) -> bool
    ensures { result ≡ has_acts acts books.now.members }
{
    match acts {
        None => true,
        Some(acts) => u64::from(acts) <= books.len(),
    }
}

/// The line that seals the first so many acts of a journal, or all: `acts N bytes K sha256 H`, with how many bytes their records take
/// behind the journal's header, each gate open, and the SHA-256 of these bytes. Or the line that there are fewer acts. The only error
/// is that memory is missing.
pub fn seal(alloc: Global, books: &Books, acts: Option<u32>) -> Result<Vec<u8>, AllocError>
    ensures { IfOk result (λ text. text.items ≡ seal_text acts books.now.members) }
{
    match acts {
        None => line_of(alloc, books, books.len()),
        Some(acts) if u64::from(acts) <= books.len() => line_of(alloc, books, u64::from(acts)),
        Some(acts) => no_act(alloc, acts),
    }
}

/// The status of that: `No` where there are fewer acts, else `Done`. It takes no memory.
pub fn seal_status(books: &Books, acts: Option<u32>) -> ExitStatus
    ensures { result ≡ seal_status acts books.now.members }
{
    if has_acts(books, acts) {
        ExitStatus::Done
    } else {
        ExitStatus::No
    }
}
