//! Reads the requests of a load.
//!
//! A load reads what a run does, but for one verb: CLOSE is none of its verbs. So a line that asks for it is malformed, of the cause
//! `Verb`, and an input that has one is refused whole. A round is closed by a run.
#![tactic(auto)]

mod naming;
mod reading;

pub use reading::read_load;
pub use request_text::{Batch, LineCause, Request, RequestError};
