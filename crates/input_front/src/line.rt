//! What a line of an input says.

use request_text::{LineCause, Request};

/// What a line of an input says.
#[derive(Drop)]
pub enum Line {
    /// It asks this.
    Asks(Request),
    /// It ends a batch.
    Fence,
    /// It is not in the grammar, for this cause.
    Bad { line: u64, cause: LineCause },
    /// There was no memory to read it.
    Memory,
}
