//! The answer of a disk that failed.

/// The disk failed in this call. Its count of faults says so, too.
#[derive(Clone, Copy, PartialEq, Eq)]
pub struct DiskFailed;
