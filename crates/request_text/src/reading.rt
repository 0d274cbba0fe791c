//! Reading requests.
ghost use Rattle.std.specs.Prelude.{◌≡◌, ◌↔◌, IfOk, IfErr, IsTrue};
ghost use Rattle.text_lines.specs.Fields.{fields};
ghost use Rattle.request_text.specs.Lanes.{fence};
ghost use Rattle.request_text.specs.Causes.{HasCause};
ghost use Rattle.request_text.specs.Grammar.{IsFirstBadLine, IsLine, IsNoRequestText, IsRequestText, OnBadLine};

use crate::error::RequestError;
use crate::fields::read_line;
use crate::request::{Batch, Request};
use std::alloc::Global;
use text_lines::next_line;

// A line that ends a batch.
fn is_fence(line: &[u8]) -> bool
    ensures { IsTrue result ↔ (line.now ≡ fence) }
{
    line == b"FENCE".as_slice()
}

// The request of the line with a number.
fn request_of(alloc: Global, number: u64, line: &[u8]) -> Result<Request, RequestError>
    ensures numbered { IfOk result (λ request. request.line ≡ number) }
    ensures found { IfOk result (λ request. IsLine line.now request.lane request.pool request.act) }
    ensures bad { IfErr result (OnBadLine (λ n cause. (n ≡ number) × HasCause (fields line.now) cause)) }
{
    match read_line(alloc, line)? {
        Ok((lane, pool, act)) => Ok(Request {
            line: number,
            lane,
            pool,
            act,
        }),
        Err(cause) => Err(RequestError::BadLine {
            line: number,
            cause,
        }),
    }
}

/// The batches of requests that the input spells: lines `lane VERB fields`, with `@POOL` behind the lane where the pool
/// is not MAIN, and lines `FENCE`, each of which ends a batch. An input with k fences has k + 1 batches, which may be empty. The
/// lines are numbered from 1, fences too.
///
/// `BadLine` comes exactly where some line is not in the grammar, with the first such line and the first cause that
/// applies to it. The other error is running out of memory.
pub fn read_requests(alloc: Global, input: &[u8]) -> Result<Vec<Batch>, RequestError>
    ensures found { IfOk result (λ batches. IsRequestText input.now batches.items) }
    ensures bad { IfErr result (OnBadLine (λ number cause. IsFirstBadLine input.now number cause × IsNoRequestText input.now)) }
{
    let mut batches = Vec::new(alloc);
    let mut requests = Vec::new(alloc);
    let mut rest = input;
    let mut number: u64 = 1;
    while let Some((line, after)) = next_line(rest) {
        if is_fence(line) {
            batches.push(Batch::new(requests))?;
            requests = Vec::new(alloc);
        } else {
            match request_of(alloc, number, line) {
                Ok(request) => requests.push(request)?,
                Err(e) => return Err(e),
            }
        }
        rest = after;
        number = number.saturating_add(1);
    }
    batches.push(Batch::new(requests))?;
    Ok(batches)
}
