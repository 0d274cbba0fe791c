//! The size of a group.

/// The most lines of a group.
pub const GROUP_LINES: usize = 4096;
