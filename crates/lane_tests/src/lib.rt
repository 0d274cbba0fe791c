//! Tests of the turn lock, of a shared desk and of the lanes of a batch, in threads.
//!
//! They stand apart from the crates that they test, since a crate with tests is proved twice.
#![tactic(auto)]

#[cfg(test)]
mod acts;
#[cfg(test)]
mod funded;
#[cfg(test)]
mod lanes;
#[cfg(test)]
mod live;
#[cfg(test)]
mod many;
#[cfg(test)]
mod pools;
#[cfg(test)]
mod rounds;
#[cfg(test)]
mod sixteen;
#[cfg(test)]
mod steps;
#[cfg(test)]
mod thousand;
#[cfg(test)]
mod turns;
