//! A trial: a large round that is drawn from a number.
//!
//! Firms are registered, and claims among them are drawn, filed and confirmed; then a plain round is closed, all in the pool MAIN.
//! The drawn lines are served as any input is: as one batch, by a lane on a desk, whose disk is in memory. What was published is
//! judged by the checker, and one line tells of the round's cut and its total.
//!
//! The draws are a linear congruential generator of 32 bits, x * 1664525 + 1013904223, of which a draw takes the first 16.
#![tactic(auto)]

ghost use Rattle.std.specs.Prelude.{IfOk};
ghost use Rattle.trial_round.specs.Trial.{IsTrialSize, IsTrialText};

mod days;
mod draws;
mod input;
mod line;
mod round;

use line::trial_line;
use round::serve_trial;
use std::alloc::{AllocError, Global};
use std::sync::Wait;
use std::thread::Threads;

/// Draws a round of 2 to 16,384 firms and 1 to 262,144 claims from a seed, serves it, and gives the line that tells of it, with its
/// end: `trial firms FIRMS claims CLAIMS seed SEED cut C parties N total T yes`. C and N are the claims and the parties of the
/// round's cut, and T is the greatest total that a lawful set-off of the cut has. The only error is running out of memory.
pub fn trial<R: Threads + Wait + Sync>(
    rt: &R,
    alloc: Global,
    firms: u32,
    claims: u32,
    seed: u32,
) -> Result<Vec<u8>, AllocError>
    requires { IsTrialSize firms claims }
    ensures { IfOk result (λ text. IsTrialText firms claims seed text.items) }
{
    let sums = serve_trial(rt, alloc, firms, claims, seed)?;
    trial_line(alloc, firms, claims, seed, sums)
}
