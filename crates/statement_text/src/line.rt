//! The lines of a statement.

use setoff_model::{Key, Kind, Name, Party};

/// What a line of a statement says. Amounts are cents.
#[derive(Drop)]
pub enum Line {
    /// `ROUND r KIND`: a statement's first line.
    Head {
        round: u32,
        kind: Kind,
    },
    /// `PARTY firm spend room price`.
    Party {
        party: Party,
        price: i64,
    },
    /// `CLAIM creditor invoice debtor amount discharged`.
    Claim {
        key: Key,
        debtor: Name,
        amount: u64,
        discharge: u64,
    },
    /// `END`: a statement's last line.
    End,
}
