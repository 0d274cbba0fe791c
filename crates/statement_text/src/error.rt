//! Why a statement is refused.
ghost use Rattle.std.specs.Prelude.{◌≡◌};

use std::alloc::{AllocError, AllocFailed};
use std::error::Error;
use std::fmt;

/// What is wrong with a line: the first of these that applies.
#[derive(Clone, Copy, Debug, PartialEq, Eq)]
pub enum StatementCause {
    /// The first line is no `ROUND` line, or there is no line.
    Round,
    /// The line stands after `END`.
    After,
    /// The line is not one that may stand here with fields in their grammar and range.
    Shape,
    /// The line is `PARTY` line 16,385 or `CLAIM` line 262,145.
    Limit,
    /// A `PARTY` line's firm, or a `CLAIM` line's creditor and invoice, stood before.
    Repeat,
    /// A `CLAIM` line's creditor or debtor has no `PARTY` line.
    NoParty,
    /// A `CLAIM` line's debtor is its creditor.
    SameFirm,
    /// A `PARTY` line of a plain round has a spend or a room that is not 0.00.
    Window,
    /// The input ends without `END`.
    NoEnd,
}

impl fmt::Display for StatementCause {
    fn fmt<W: fmt::Write>(&self, f: &mut fmt::Formatter<W>) -> fmt::Result {
        f.write_str(match self {
            StatementCause::Round => "round",
            StatementCause::After => "after",
            StatementCause::Shape => "shape",
            StatementCause::Limit => "limit",
            StatementCause::Repeat => "repeat",
            StatementCause::NoParty => "party",
            StatementCause::SameFirm => "same-firm",
            StatementCause::Window => "window",
            StatementCause::NoEnd => "end",
        })
    }
}

impl Error for StatementCause {}

/// Why a statement was not read.
#[derive(Clone, Copy, Debug, PartialEq, Eq, thiserror::Error)]
pub enum StatementError {
    /// There was no memory.
    #[error("memory")]
    Memory,
    /// The first line, counted from 1, that is not in the grammar; one past the last where the input ends too early.
    #[error("line {line}: {cause}")]
    BadLine { line: u64, cause: StatementCause },
}

impl From<AllocError> for StatementError {
    ghost use Rattle.std.specs.Prelude.{◌≡◌};
    ghost use Rattle.statement_text.specs.declared.error.StatementError.TheVariants.{Memory};

    ghost from_gives = { λ _ e. e ≡ Memory };

    fn from(_e: AllocError) -> StatementError {
        StatementError::Memory
    }
}

impl<T: Drop> From<AllocFailed<T>> for StatementError {
    ghost use Rattle.std.specs.Prelude.{◌≡◌};
    ghost use Rattle.statement_text.specs.declared.error.StatementError.TheVariants.{Memory};

    ghost from_gives = { λ _ e. e ≡ Memory };

    fn from(_e: AllocFailed<T>) -> StatementError {
        StatementError::Memory
    }
}
