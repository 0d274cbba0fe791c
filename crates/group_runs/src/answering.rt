//! The lines of a group, answered in order.
ghost use Rattle.std.specs.Prelude.{◌≡◌, ◌≤◌, [], All, length, vec_capacity};
ghost use Rattle.group_runs.specs.Lines.{CanBeLoaded};
ghost use Rattle.group_runs.specs.Runs.{HasAnswered, HasTakenLine, end_of_error};

use claim_history::Call;
use disk_model::Disk;
use group_loader::{LoadError, Loader};
use printed_text::{Answer, Full, LineEnd};
use request_text::Request;

fn end_of_error(error: LoadError) -> LineEnd
    ensures { result ≡ end_of_error error }
{
    match error {
        LoadError::Memory => LineEnd::Memory,
        LoadError::Full(
            Full {
                what,
                needed,
                limit,
            },
        ) => LineEnd::Full {
            what,
            needed,
            limit,
        },
    }
}

// Answers one line, whose lane is the caller.
fn answer_line<D: Disk>(loader: &mut Loader<D>, request: &Request) -> LineEnd
    requires can { CanBeLoaded request.now }
    ensures taken { HasTakenLine loader.old loader.new request.now result }
{
    let Ok(act) = request.act.clone() else {
        return LineEnd::Memory;
    };
    let call = Call {
        caller: request.lane,
        pool: request.pool,
        act,
    };
    match loader.take(call) {
        Ok(_) => LineEnd::Replied,
        Err(error) => end_of_error(error),
    }
}

/// Answers the lines of a group in order, and puts what came of each into a list, which has room for them.
pub(crate) fn answer_lines<D: Disk>(
    loader: &mut Loader<D>,
    requests: &[Request],
    answers: &mut Vec<Answer>,
)
    requires can { All CanBeLoaded requests.now }

    // The list.
    requires empty { answers.old.items ≡ [] }
    requires spare { length requests.now ≤ vec_capacity answers.old }

    ensures answered { HasAnswered loader.old loader.new requests.now answers.new.items }
    ensures room { vec_capacity answers.old ≤ vec_capacity answers.new }
{
    for request in requests {
        let end = answer_line(loader, request);
        answers.push_reserved(Answer {
            line: request.line,
            end,
        });
    }
}
