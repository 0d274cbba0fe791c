//! Reading the requests of a load.
ghost use Rattle.std.specs.Prelude.{◌≡◌, ◌<◌, ◌⊎◌, true, false, All, IfOk, IfErr, IfSome, IfNone};
ghost use Rattle.std.specs.Str.Lines.{lines};
ghost use Rattle.request_text.specs.declared.error.LineCause.TheVariants as causes;
ghost use Rattle.request_text.specs.declared.error.RequestError.TheVariants as errors;
ghost use Rattle.request_text.specs.Grammar.{IsFirstBadLine, OnBadLine};
ghost use Rattle.load_reading.specs.Reading.{IsFirstBadLoadLine, IsFirstNaming, IsLoadText, IsNoLoadText, NamesNone, is_behind_verb};

use crate::naming::first_naming;
use request_text::{Batch, LineCause, RequestError, read_requests};
use std::alloc::Global;

// Whether the cause lies behind the verb.
fn is_behind_verb(cause: LineCause) -> bool
    ensures { result ≡ is_behind_verb cause }
{
    matches!(cause, LineCause::Fields | LineCause::Field(_))
}

// Whether the line with this number and the verb CLOSE is malformed before another one, which is malformed as a request for this cause.
fn is_before(number: u64, line: u64, cause: LineCause) -> bool
    ensures yes { result ≡ true → (number < line) ⊎ ((number ≡ line) × (is_behind_verb cause ≡ true)) }
    ensures no { result ≡ false → (line < number) ⊎ ((number ≡ line) × (is_behind_verb cause ≡ false)) }
{
    if number == line {
        return is_behind_verb(cause);
    }
    number < line
}

fn bad_verb(line: u64) -> RequestError
    ensures { result ≡ errors.BadLine line causes.Verb }
{
    RequestError::BadLine {
        line,
        cause: LineCause::Verb,
    }
}

// The first malformed line of an input, where the first one as of requests is this, and this is the first with the verb CLOSE.
fn first_bad(_input: &[u8], line: u64, cause: LineCause, close: Option<u64>) -> RequestError
    requires first { IsFirstBadLine _input.now line cause }
    requires named { IfSome close (IsFirstNaming _input.now) }
    requires unnamed { IfNone close (All NamesNone (lines _input.now)) }
    ensures { OnBadLine (IsFirstBadLoadLine _input.now) result }
{
    let Some(number) = close else {
        return RequestError::BadLine { line, cause };
    };
    if is_before(number, line, cause) {
        return bad_verb(number);
    }
    RequestError::BadLine { line, cause }
}

/// The batches of requests that the input of a load spells: as `read_requests` reads them, and none is a CLOSE.
///
/// `BadLine` comes exactly where some line is not in this grammar, with the first such line and the first cause that applies to it,
/// which is `Verb` of a line that asks for a CLOSE. The other error is running out of memory.
pub fn read_load(alloc: Global, input: &[u8]) -> Result<Vec<Batch>, RequestError>
    ensures found { IfOk result (λ batches. IsLoadText input.now batches.items) }
    ensures bad { IfErr result (OnBadLine (λ number cause. IsFirstBadLoadLine input.now number cause × IsNoLoadText input.now)) }
{
    let Ok(close) = first_naming(alloc, input) else {
        return Err(RequestError::Memory);
    };
    match read_requests(alloc, input) {
        Ok(batches) => match close {
            None => Ok(batches),
            Some(line) => Err(bad_verb(line)),
        },
        Err(RequestError::Memory) => Err(RequestError::Memory),
        Err(RequestError::BadLine { line, cause }) => { Err(first_bad(input, line, cause, close)) },
    }
}
