//! One image of a past moment, by replaying what was kept.
ghost use Rattle.std.specs.Prelude.{◌≡◌, ◌+◌, ◌≤◌, length, true, max, IfOk};
ghost use Rattle.disk_model.specs.Calls.{Torn};
ghost use Rattle.disk_model.specs.Steps.{reads_then, begins_within, all_within, images_from, Stepped};

use crate::overlay::overlay_with;
use crate::step::Step;
use std::alloc::{AllocError, Global};

/// The image in which those writes since the last sync stand whose bits are picked. The other writes widen it by
/// zeros.
pub(crate) fn replay_steps(
    alloc: Global,
    start: &[u8],
    steps: &[Step],
    pick: u64,
) -> Result<Vec<u8>, AllocError>
    requires { all_within start.now steps.now ≡ true }
    ensures { IfOk result (λ image. images_from start.now steps.now image.items) }
{
    let mut reads = start.to_vec(alloc)?;
    let mut image = start.to_vec(alloc)?;
    let mut place = 0u64;
    for step in steps {
        image = next_image(alloc, &reads, image, step, is_picked(pick, place))?;
        reads = next_reads(reads, step)?;
        place = next_place(place, step);
    }
    Ok(image)
}

// Whether the bit of this place is 1 in a pick. From place 64 on none is.
fn is_picked(pick: u64, place: u64) -> bool {
    place < 64 && (pick >> place) & 1 == 1
}

// The place of the next candidate.
fn next_place(place: u64, step: &Step) -> u64 {
    match step {
        Step::Waited => place,
        Step::Wrote { at: _, piece: _ } => place.saturating_add(1),
        Step::Synced => 0,
    }
}

// The image after a step, where `stands` says whether its write does.
fn next_image(
    alloc: Global,
    reads: &[u8],
    mut image: Vec<u8>,
    step: &Step,
    stands: bool,
) -> Result<Vec<u8>, AllocError>
    requires within { begins_within reads.now step.now ≡ true }
    requires long { length image.items ≡ length reads.now }
    ensures stepped { IfOk result (λ next. Stepped reads.now step.now image.items next.items) }
    ensures long { IfOk result (λ next. length next.items ≡ length (reads_then reads.now step.now)) }
{
    match step {
        Step::Waited => Ok(image),
        Step::Synced => Ok(reads.to_vec(alloc)?),
        Step::Wrote { at, piece } => {
            if stands {
                overlay_with(&mut image, *at as usize, piece)?;
                Ok(image)
            } else {
                widen_image(image, *at as usize, piece.len())
            }
        }
    }
}

// The bytes, and zeros up to the end of a write that does not stand.
fn widen_image(mut image: Vec<u8>, at: usize, count: usize) -> Result<Vec<u8>, AllocError>
    requires { at ≤ length image.items }
    ensures torn { IfOk result (λ next. Torn at count image.items next.items) }
    ensures long { IfOk result (λ next. length next.items ≡ max (length image.items) (at + count)) }
{
    if count > image.len() - at {
        let end = at.checked_add(count).ok_or(AllocError)?;
        image.resize(end, 0)?;
    }
    Ok(image)
}

// What a read gives after a step.
fn next_reads(mut reads: Vec<u8>, step: &Step) -> Result<Vec<u8>, AllocError>
    requires { begins_within reads.items step.now ≡ true }
    ensures { IfOk result (λ next. next.items ≡ reads_then reads.items step.now) }
{
    match step {
        Step::Waited => Ok(reads),
        Step::Synced => Ok(reads),
        Step::Wrote { at, piece } => {
            overlay_with(&mut reads, *at as usize, piece)?;
            Ok(reads)
        }
    }
}
