//! The one error of a source or a sink.

/// The answer of a source or a sink whose device failed. The device counted the fault.
#[derive(Clone, Copy, PartialEq, Eq)]
pub struct Failed;
