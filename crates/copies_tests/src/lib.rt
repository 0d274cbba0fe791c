//! Tests of boards and their readers, in threads.
//!
//! They stand apart from the crate that they test, since a crate with tests is proved twice.
#![tactic(auto)]

#[cfg(test)]
mod acts;
#[cfg(test)]
mod boards;
#[cfg(test)]
mod threads;
