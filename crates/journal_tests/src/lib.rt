//! Tests of the crates of a desk and its journal: streams and disks, bodies and journals, replays and desks.
//!
//! Each file tests the public calls of one crate. They stand apart, since a crate with tests is proved a second time with them.
#![tactic(auto)]

#[cfg(test)]
mod bodies;
#[cfg(test)]
mod damages;
#[cfg(test)]
mod desks;
#[cfg(test)]
mod disks;
#[cfg(test)]
mod groups;
#[cfg(test)]
mod journals;
#[cfg(test)]
mod made;
#[cfg(test)]
mod replays;
#[cfg(test)]
mod streams;
