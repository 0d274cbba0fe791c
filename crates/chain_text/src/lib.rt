//! The lines of the chains that explain a round.
//!
//! Each chain is one line: whether it is closed, what it discharges of each of its claims, and the claims by creditor and
//! invoice. A line may have a claim for each firm, so it goes to the sink claim by claim, through a buffer of `OUTPUT_BYTES`.
#![tactic(auto)]

mod line;
mod printing;

pub use chain_explain::{Explainer, chains_explain};
pub use printing::print_chains;
