//! A line with what came of it.

use crate::line_end::LineEnd;

/// The number of a line of the input, from 1, and what came of the line.
#[derive(Clone, Copy, PartialEq, Eq)]
pub struct Answer {
    pub line: u64,
    pub end: LineEnd,
}
