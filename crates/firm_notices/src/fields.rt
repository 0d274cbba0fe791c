//! The texts of fields.
ghost use Rattle.std.specs.Prelude.{◌≡◌, ◌-◌, IfOk, decimal};
ghost use Rattle.setoff_model.specs.Texts.{cents_text, signed_cents_text};
ghost use Rattle.claim_book.specs.claim_history.specs.Days.{day_text};
ghost use Rattle.firm_notices.specs.Notices.{status_text};

use claim_book::{Day, Status};
use setoff_model::{write_cents, write_signed, write_whole};
use std::alloc::{AllocError, Global};

// The bytes that a number of any kind may take.
const ROOM: usize = 60;

pub(crate) fn cents_field(alloc: Global, cents: u64) -> Result<Vec<u8>, AllocError>
    ensures { IfOk result (λ text. text.items ≡ cents_text cents) }
{
    let mut text = Vec::with_capacity(alloc, ROOM)?;
    write_cents(&mut text, u128::from(cents));
    Ok(text)
}

pub(crate) fn signed_field(alloc: Global, cents: i64) -> Result<Vec<u8>, AllocError>
    ensures { IfOk result (λ text. text.items ≡ signed_cents_text cents) }
{
    let mut text = Vec::with_capacity(alloc, ROOM)?;
    write_signed(&mut text, cents);
    Ok(text)
}

pub(crate) fn day_field(alloc: Global, day: Day) -> Result<Vec<u8>, AllocError>
    ensures { IfOk result (λ text. text.items ≡ day_text day) }
{
    let mut text = Vec::with_capacity(alloc, ROOM)?;
    day.write(&mut text);
    Ok(text)
}

// How many days lie between a day and a later one, 0 where it is not later.
pub(crate) fn overdue_field(alloc: Global, due: Day, today: Day) -> Result<Vec<u8>, AllocError>
    ensures { IfOk result (λ text. text.items ≡ decimal (today - due)) }
{
    let days = today.number().saturating_sub(due.number());
    let mut text = Vec::with_capacity(alloc, ROOM)?;
    write_whole(&mut text, u64::from(days));
    Ok(text)
}

pub(crate) fn status_field(status: Status) -> &'static [u8]
    ensures { result.now ≡ status_text status }
{
    match status {
        Status::Filed => b"filed",
        Status::Confirmed => b"confirmed",
        Status::Disputed => b"disputed",
        Status::Withdrawn => b"withdrawn",
    }
}
