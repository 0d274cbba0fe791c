//! What the shape of a net tells before an engine is asked: which of its parts are solved apart, which claims are one series,
//! whether they are of many sizes, how solutions are put together, and at which prices a simplex may start.
//!
//! Nothing is proved of it but that it comes, and nothing has to be: it ends in a whole solution, which `adopt` of `residual_state` tests.
//!
//! Its words: a net is unused where nothing is set off and no balance changes; a part is a strongly connected component of the graph
//! of all halves that flow can be moved over then. The parts are found by one search into the depth, as in Tarjan, "Depth-first search
//! and linear graph algorithms", SIAM Journal on Computing 1, 1972.
#![tactic(auto)]

mod inner;
mod laying;
mod parts;
mod rising;
mod search;
mod series;
mod sizes;
mod unused;

pub use inner::{Inner, Window};
pub use parts::Parts;
pub use rising::risen;
pub use series::Series;
pub use sizes::Sizes;
pub use unused::Unused;
