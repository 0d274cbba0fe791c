//! Certificates: outcomes that carry the proof that they are greatest.
//!
//! What a solver finds of a net is spread over the claims of its cut, oldest first, and its prices are squeezed. Then the
//! prices prove the discharges, so the checker certifies every such outcome. A round is solved by one call, `certified`,
//! which is generic in the solver.
#![tactic(auto)]

mod certificate;
mod certifying;

pub use certificate::outcome_of;
pub use certifying::certified;
pub use flow_solver::Solver;
