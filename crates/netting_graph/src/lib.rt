//! The net of a cut: its claims, those of one debtor and one creditor merged to one arc.
//!
//! A `Net` has the parties of a cut and its arcs, each with the sum of the claims of one debtor on one creditor. A set-off of
//! the net is spread over the claims of each arc, the oldest first. Merging loses no set-off: the law says that what is
//! lawful on the net is lawful on the cut once it is spread, and what proves the one proves the other.
#![tactic(auto)]

mod arc;
mod index;
mod laws;
mod merge;
mod net;
mod spreading;

pub use arc::Arc;
pub use laws::merging_keeps_setoffs;
pub use net::Net;
pub use spreading::spread;
