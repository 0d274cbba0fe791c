//! What came of a line.

use limited_book::Room;

/// What came of a line.
#[derive(Clone, Copy, PartialEq, Eq)]
pub enum LineEnd {
    /// Its act has its entry in its pool; where it is a Close that is accepted, its round has the entry of its publication, too.
    Replied,
    /// Its act needs more than there is room for. It has no entry.
    Full {
        /// What it needs too much of.
        what: Room,
        /// How much there would have to be.
        needed: u64,
        /// How much there may be.
        limit: u64,
    },
    /// There was no memory for it. It has no entry; or it is a Close that is accepted, whose round it left open.
    Memory,
}
