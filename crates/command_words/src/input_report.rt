//! Reports on an input.

/// What tells of the source's input alone: it is read whole, and the disk is not called.
#[derive(Clone, Copy, PartialEq, Eq)]
pub enum InputReport {
    /// `check`: judges a statement.
    Check,
    /// `explain`: cuts the round of a statement into chains.
    Explain,
    /// `import LANE`: turns invoices into FILE requests.
    Import {
        /// The lane of the requests, 1 to 16.
        lane: u32,
    },
}
