//! The line of a trial.
ghost use Rattle.std.specs.Prelude.{◌≡◌, ◌+◌, ◌≤◌, ◌++◌, decimal, length, IfOk, vec_len, vec_capacity};
ghost use Rattle.setoff_model.specs.Writing.{Writes};
ghost use Rattle.trial_round.specs.Trial.{trial_line};

use crate::round::Sums;
use setoff_model::limits::LINE_BYTES;
use setoff_model::{put, write_cents, write_whole};
use std::alloc::{AllocError, Global};

// Writes words and a number.
fn write_count(buffer: &mut Vec<u8>, words: &[u8], number: u32)
    requires short { length words.now ≤ 20 }
    requires spare { vec_len buffer.old + 80 ≤ vec_capacity buffer.old }

    // What stands in the buffer then, and its room.
    ensures { Writes buffer.old buffer.new (words.now ++ decimal number) 40 }
{
    put(buffer, words);
    write_whole(buffer, u64::from(number));
}

/// The line that tells of a trial, with its end. The only error is running out of memory.
pub fn trial_line(
    alloc: Global,
    firms: u32,
    claims: u32,
    seed: u32,
    sums: Sums,
) -> Result<Vec<u8>, AllocError>
    ensures { IfOk result (λ text. text.items ≡ trial_line firms claims seed sums.claims sums.parties sums.total) }
{
    let mut text = Vec::with_capacity(alloc, 2 * LINE_BYTES)?;
    write_count(&mut text, b"trial firms ", firms);
    write_count(&mut text, b" claims ", claims);
    write_count(&mut text, b" seed ", seed);
    write_count(&mut text, b" cut ", sums.claims);
    write_count(&mut text, b" parties ", sums.parties);
    put(&mut text, b" total ");
    write_cents(&mut text, u128::from(sums.total));
    put(&mut text, b" yes\n");
    Ok(text)
}
