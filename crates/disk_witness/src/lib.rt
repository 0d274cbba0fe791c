//! A witness of the order in which a sink and a disk are used.
//!
//! A `Witness` is shown a sink and a disk at the same moment, and keeps what the sink had taken then, and the disk as it was. Code that
//! is generic over a witness cannot make up what it was shown, nor show a sink or a disk that it was not given. So where a clause says
//! that the sink had taken a text when it was shown the disk, what was written behind that text was written later.
//!
//! `SilentWitness` keeps this for proofs alone: it takes no memory and does nothing at run time. What it keeps stands in a `ProofList`.
#![tactic(auto)]

mod proof_list;
mod silent;
mod witness;

pub use silent::SilentWitness;
pub use witness::Witness;
