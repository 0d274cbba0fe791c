//! What a disk in memory keeps of its calls.

/// What came about at one moment of a call. Each call that is kept has two.
#[derive(Drop)]
pub enum Step {
    /// Nothing that a crash could show.
    Waited,
    /// A write of this piece began, at this offset.
    Wrote { at: u64, piece: Vec<u8> },
    /// A sync succeeded.
    Synced,
}
