//! An input that is still coming: the bytes that were taken of it, and the batches of its lines.
//!
//! Its front are the batches of the lines before the first that is not in the grammar of `request_text`. What stands behind
//! the last line feed is a line only once the input has ended.
//!
//! - `Intake` takes bytes of a source, piece by piece, and reads one line after another. What was read are the batches of
//!   the front, and where no line is left, or a bad one stands, the front is whole.
//! - A line is read alone as it is read in its text, by `read_alone`.
#![tactic(auto)]

ghost use Rattle.input_front.specs.Front.{FrontLaw};

mod alone;
mod intake;
mod line;

pub use alone::read_alone;
pub use bureau_edge::Source;
pub use intake::{Intake, More, PIECE};
pub use line::Line;

/// An input has one front, which has each batch that is read of it in its place. A law, which does nothing when it is called.
pub fn fronts_are_one()
    ensures law { FrontLaw }
{}
