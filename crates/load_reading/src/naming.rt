//! Lines whose verb is CLOSE.
ghost use Rattle.std.specs.Prelude.{◌↔◌, ◌≡◌, ℕ, List, IsTrue, map, IfOk, IfSome, IfNone, All};
ghost use Rattle.std.specs.Str.Lines.{lines};
ghost use Rattle.request_text.specs.declared.verb.Verb.TheVariants as verbs;
ghost use Rattle.request_text.specs.Causes.{verb_text};
ghost use Rattle.request_text.specs.Pools.{pool_field};
ghost use Rattle.load_reading.specs.Reading.{BeginsWithClose, ClosesIn, ClosesOther, IsFirstNaming, NamesClose, NamesNone};

use std::alloc::{AllocError, Global};
use text_lines::{fields_of, next_line};

fn is_close_verb(field: &[u8]) -> bool
    ensures { IsTrue result ↔ (field.now ≡ verb_text verbs.Close) }
{
    field == b"CLOSE".as_slice()
}

// Whether a field begins as one that names a pool.
fn has_sign(field: &[u8]) -> bool
    ensures { IsTrue result ↔ ((name : List ℕ) × (field.now ≡ pool_field name)) }
{
    matches!(field, [b'@', ..])
}

// Whether the first of these fields is CLOSE.
fn begins_with_close(fields: &[&[u8]]) -> bool
    ensures { IsTrue result ↔ BeginsWithClose (map (λ f. f.now) fields.now) }
{
    let [verb, ..] = fields else {
        return false;
    };
    is_close_verb(verb)
}

// Whether CLOSE stands behind a pool that the first of these fields names.
fn closes_other(fields: &[&[u8]]) -> bool
    ensures { IsTrue result ↔ ClosesOther (map (λ f. f.now) fields.now) }
{
    let [pool, others @ ..] = fields else {
        return false;
    };
    if !has_sign(pool) {
        return false;
    }
    begins_with_close(others)
}

// Whether CLOSE stands first, or behind a pool.
fn closes_after(after: &[&[u8]]) -> bool
    ensures { IsTrue result ↔ ClosesIn (map (λ f. f.now) after.now) }
{
    if begins_with_close(after) {
        return true;
    }
    closes_other(after)
}

// Whether CLOSE stands in the place of the verb, whatever the lane and the pool before it are.
fn names_close(fields: &[&[u8]]) -> bool
    ensures { IsTrue result ↔ NamesClose (map (λ f. f.now) fields.now) }
{
    let [_lane, after @ ..] = fields else {
        return false;
    };
    closes_after(after)
}

/// The number of the first line of an input, from 1, in which CLOSE stands in the place of the verb. The only error is that memory is
/// missing.
pub(crate) fn first_naming(alloc: Global, input: &[u8]) -> Result<Option<u64>, AllocError>
    ensures found { IfOk result (λ found. IfSome found (IsFirstNaming input.now)) }
    ensures none { IfOk result (λ found. IfNone found (All NamesNone (lines input.now))) }
{
    let mut rest = input;
    let mut number: u64 = 1;
    while let Some((line, after)) = next_line(rest) {
        let fields = fields_of(alloc, line)?;
        if names_close(fields.as_slice()) {
            return Ok(Some(number));
        }
        rest = after;
        number = number.saturating_add(1);
    }
    Ok(None)
}
