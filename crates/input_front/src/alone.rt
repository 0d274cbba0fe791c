//! One line of an input, read alone.
ghost use Rattle.std.specs.Prelude.{◌≡◌, ℕ, true, List, [], ◌∷◌};
ghost use Rattle.std.specs.Str.Lines.{lines};
ghost use Rattle.request_text.specs.claim_history.specs.Acts.{is_request};
ghost use Rattle.input_front.specs.Front.{Says};
ghost use Rattle.input_front.specs.declared.line.Line.TheVariants as line;

use crate::line::Line;
use request_text::{Request, RequestError, read_requests};
use std::alloc::Global;

/// What the line of this number says. The line is given alone, with its line feed where it has one.
pub fn read_alone(alloc: Global, number: u64, text: &[u8]) -> Line
    ensures { (line : List ℕ) → lines text.now ≡ line ∷ [] → Says number line result }
{
    let mut batches = match read_requests(alloc, text) {
        Ok(batches) => batches,
        Err(RequestError::BadLine { line: _, cause }) => {
            return Line::Bad {
                line: number,
                cause,
            };
        }
        Err(RequestError::Memory) => return Line::Memory,
    };
    let Some(batch) = batches.pop() else {
        return Line::Fence;
    };
    match batch.requests() {
        [] => Line::Fence,
        [request, ..] => number_request(number, request),
    }
}

// The same request, of the line of this number.
fn number_request(number: u64, request: &Request) -> Line
    requires valid { is_request request.now.act ≡ true }
    ensures { result ≡ line.Asks (record request.now { line = number }) }
{
    let Ok(act) = request.act.clone() else {
        unreachable!()
    };
    Line::Asks(Request {
        line: number,
        lane: request.lane,
        pool: request.pool,
        act,
    })
}
