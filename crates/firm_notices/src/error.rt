//! Why invoices are refused.
ghost use Rattle.std.specs.Prelude.{◌≡◌};

use std::alloc::AllocError;
use thiserror::Error;

/// What is wrong with a row: the first of these that applies.
#[derive(Clone, Copy, Debug, PartialEq, Eq, Error)]
pub enum RowCause {
    /// The first row is not that of the names, or there is no row.
    #[error("header")]
    Header,
    /// The row has not five fields.
    #[error("fields")]
    Fields,
    /// This field, counted from 1, is the first that is not in its grammar or range.
    #[error("field {0}")]
    Field(u32),
}

/// Why invoices were not read.
#[derive(Clone, Copy, Debug, PartialEq, Eq, Error)]
pub enum ImportError {
    /// There was no memory.
    #[error("memory")]
    Memory,
    /// The first row, counted from 1 with that of the names, that is not in the grammar.
    #[error("row {row}: {cause}")]
    BadRow { row: u64, cause: RowCause },
}

impl From<AllocError> for ImportError {
    ghost use Rattle.std.specs.Prelude.{◌≡◌};
    ghost use Rattle.firm_notices.specs.declared.error.ImportError.TheVariants.{Memory};

    ghost from_gives = { λ _ e. e ≡ Memory };

    fn from(_e: AllocError) -> ImportError {
        ImportError::Memory
    }
}
