//! Why a request text is refused.
ghost use Rattle.std.specs.Prelude.{◌≡◌};

use std::alloc::{AllocError, AllocFailed};
use thiserror::Error;

/// What is wrong with a line: the first of these that applies.
#[derive(Clone, Copy, Debug, PartialEq, Eq, Error)]
pub enum LineCause {
    /// The first field is no lane.
    #[error("lane")]
    Lane,
    /// The second field begins with `@`, and what is behind it is no name of a pool, or is MAIN.
    #[error("pool")]
    Pool,
    /// There is no second field, or it is no verb. Where it is a pool, the same of the third.
    #[error("verb")]
    Verb,
    /// The number of fields after the verb is not the verb's, or neither of a CONFIRM's two.
    #[error("fields")]
    Fields,
    /// This field after the verb, counted from 1, is the first that is not in its grammar or range.
    #[error("field {0}")]
    Field(u32),
}

/// Why requests were not read.
#[derive(Clone, Copy, Debug, PartialEq, Eq, Error)]
pub enum RequestError {
    /// There was no memory.
    #[error("memory")]
    Memory,
    /// The first line, counted from 1, that is not in the grammar.
    #[error("line {line}: {cause}")]
    BadLine { line: u64, cause: LineCause },
}

impl From<AllocError> for RequestError {
    ghost use Rattle.std.specs.Prelude.{◌≡◌};
    ghost use Rattle.request_text.specs.declared.error.RequestError.TheVariants.{Memory};

    ghost from_gives = { λ _ e. e ≡ Memory };

    fn from(_e: AllocError) -> RequestError {
        RequestError::Memory
    }
}

impl<T: Drop> From<AllocFailed<T>> for RequestError {
    ghost use Rattle.std.specs.Prelude.{◌≡◌};
    ghost use Rattle.request_text.specs.declared.error.RequestError.TheVariants.{Memory};

    ghost from_gives = { λ _ e. e ≡ Memory };

    fn from(_e: AllocFailed<T>) -> RequestError {
        RequestError::Memory
    }
}
