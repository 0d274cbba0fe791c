//! The forms in which a round is told.

/// How a published round is told.
#[derive(Clone, Copy)]
pub enum RoundForm {
    /// By its statement.
    Statement,
    /// By a page for each of its parties.
    Pages,
}
