//! Reading and writing at places that nothing is proved of.
//!
//! Advice that is tested by who takes it is found with lists of numbers that name places in other lists. A place that there is
//! not reads as another number, and a write to it is dropped.
#![tactic(auto)]

mod numbers;
mod places;

pub use numbers::{narrow, near, short, small};
pub use places::{at, count_at, fill, put};
