//! Tests of the crates that keep the book and make the cut of a round.
//!
//! They call what is public alone. They stand apart so that each of those crates is proved once, and not a second time with its
//! tests. A file is named for what its tests are of.
#![tactic(auto)]

#[cfg(test)]
mod acts;
#[cfg(test)]
mod books;
#[cfg(test)]
mod cuts;
#[cfg(test)]
mod facts;
#[cfg(test)]
mod limits;
#[cfg(test)]
mod parts;
#[cfg(test)]
mod pools;
#[cfg(test)]
mod rounds;
