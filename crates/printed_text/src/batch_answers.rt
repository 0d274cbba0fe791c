//! What came of the lines of a batch.
ghost use Rattle.std.specs.Prelude.{◌≡◌, ◌+◌, ◌<◌, Some, length, slice_get};
ghost use Rattle.printed_text.specs.Printing.{answers_in, without_memory};

use served_lines::{Answer, LineEnd, Request};

/// What came of the lines of a batch.
#[derive(Clone, Copy)]
pub enum BatchAnswers<'a> {
    /// What came of each line.
    Each(&'a [Answer]),
    /// There was no memory for any of these requests.
    Unasked(&'a [Request]),
    /// There was no memory for any line from the number `first` to before `behind`.
    UnaskedLines { first: u64, behind: u64 },
}

impl<'a> BatchAnswers<'a> {
    /// How many lines there are.
    pub(crate) fn len(self) -> usize
        ensures { result ≡ length (answers_in self.entry) }
    {
        match self {
            BatchAnswers::Each(answers) => answers.len(),
            BatchAnswers::Unasked(requests) => requests.len(),
            BatchAnswers::UnaskedLines { first, behind } => behind.saturating_sub(first) as usize,
        }
    }

    /// What came of the line at a place.
    pub(crate) fn at(self, place: usize) -> Answer
        requires { place < length (answers_in self) }
        ensures { slice_get (answers_in self.entry) place ≡ Some result }
    {
        match self {
            BatchAnswers::Each(answers) => answers[place],
            BatchAnswers::Unasked(requests) => without_memory(requests[place].line),
            BatchAnswers::UnaskedLines { first, behind } => {
                without_memory(line_at(first, behind, place))
            }
        }
    }
}

// The number of the line at a place of those from one to before another.
fn line_at(first: u64, _behind: u64, place: usize) -> u64
    requires { first + place < _behind }
    ensures { result ≡ first + place }
{
    first + place as u64
}

// There was no memory for a line.
fn without_memory(line: u64) -> Answer
    ensures { result ≡ without_memory line }
{
    Answer {
        line,
        end: LineEnd::Memory,
    }
}
