//! The lines that a load does not serve.
ghost use Rattle.std.specs.Prelude.{◌≡◌, None, flat_map};
ghost use Rattle.claim_history.specs.Acts.{is_close};
ghost use Rattle.group_runs.specs.Lines.{first_close_of};
ghost use Rattle.group_runs.specs.Runs.{CanAllBeLoaded};

use claim_history::Act;
use request_text::{Batch, Request};

fn is_close(act: &Act) -> bool
    ensures { result ≡ is_close act.now }
{
    matches!(act, Act::Close { .. })
}

// The number of the first of these lines that is a Close.
fn first_of(requests: &[Request]) -> Option<u64>
    ensures { result ≡ first_close_of requests.now }
{
    for request in requests {
        if is_close(&request.act) {
            return Some(request.line);
        }
    }
    None
}

/// The number of the first line of batches that is a Close, which a load does not serve. Where there is none all can be loaded.
pub fn first_close(batches: &[Batch]) -> Option<u64>
    ensures first { result ≡ first_close_of (flat_map (λ batch. batch) batches.now) }
    ensures none { result ≡ None → CanAllBeLoaded batches.now }
{
    for batch in batches {
        let found = first_of(batch.requests());
        if found.is_some() {
            return found;
        }
    }
    None
}
