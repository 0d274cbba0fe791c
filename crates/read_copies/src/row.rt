//! What a board shows of a firm.
use claim_history::{AccountFact, Position};

/// The account and the position of a registered firm, in cents.
#[derive(Clone, Copy, PartialEq, Eq)]
pub struct Row {
    /// Balance, limits and offer.
    pub account: AccountFact,
    /// Its position: the balance, and the parts of claims that are owed to it and by it.
    pub position: Position,
}
