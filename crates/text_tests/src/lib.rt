//! Tests of the crates that read and write texts, and of the acts and laws of a history.
//!
//! They call what is public alone. They stand apart so that each of those crates is proved once, and not a second time with
//! its tests. A file is named for what its tests are of.
#![tactic(auto)]

#[cfg(test)]
mod commands;
#[cfg(test)]
mod days;
#[cfg(test)]
mod entries;
#[cfg(test)]
mod histories;
#[cfg(test)]
mod intakes;
#[cfg(test)]
mod lines;
#[cfg(test)]
mod notices;
#[cfg(test)]
mod requests;
#[cfg(test)]
mod statements;
