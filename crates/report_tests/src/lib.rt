//! Tests of what is told of an input or a disk that stays as it is, and of trials.
//!
//! They stand apart, since a crate with tests is proved twice, and here there is nothing else to prove.
#![tactic(auto)]

#[cfg(test)]
mod reports;
#[cfg(test)]
mod trials;
