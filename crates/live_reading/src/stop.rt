//! Why a batch of an input that is still read ends.

use served_lines::LineCause;

/// Why a batch ends.
#[derive(Clone, Copy, PartialEq, Eq)]
pub enum Stop {
    /// A line FENCE with its line feed ended it.
    Fence,
    /// The input ended.
    End,
    /// The first line that is not in the grammar.
    BadLine { line: u64, cause: LineCause },
    /// The source failed, and counted it.
    Failed,
    /// More bytes were taken than the limit.
    TooLong,
    /// There was no memory.
    Memory,
}
