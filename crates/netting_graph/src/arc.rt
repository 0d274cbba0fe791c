//! The arcs of a net.

/// What one party of a cut owes another by all its claims together.
#[derive(Clone, Copy, PartialEq, Eq)]
pub struct Arc {
    /// The place of the firm that owes, in the parties of the net, from 0.
    pub debtor: u32,
    /// The place of the firm that is owed, in the parties of the net, from 0.
    pub creditor: u32,
    /// The sum of the claims' amounts, in cents.
    pub amount: u64,
}
