//! Lines that were not replied to, and members of a history that tell of a device.
ghost use Rattle.std.specs.Prelude.{◌≡◌, ◌≤◌, drop, length};
ghost use Rattle.std.specs.List.{list_any};
ghost use Rattle.limited_book.specs.claim_history.specs.Needs.{is_of_device};
ghost use Rattle.served_lines.specs.Ends.{is_memory_end, is_full_end, has_line_end};

use crate::answer::Answer;
use crate::line_end::LineEnd;
use limited_book::{Books, tells_of_device};

fn is_memory_end(end: LineEnd) -> bool
    ensures { result ≡ is_memory_end end }
{
    match end {
        LineEnd::Memory => true,
        _ => false,
    }
}

fn is_full_end(end: LineEnd) -> bool
    ensures { result ≡ is_full_end end }
{
    match end {
        LineEnd::Full { .. } => true,
        _ => false,
    }
}

/// Whether there was no memory for some line.
pub fn some_memory(answers: &[Answer]) -> bool
    ensures { result ≡ has_line_end is_memory_end answers.now }
{
    answers.iter().any(|answer| is_memory_end(answer.end))
}

/// Whether some line was full.
pub fn some_full(answers: &[Answer]) -> bool
    ensures { result ≡ has_line_end is_full_end answers.now }
{
    answers.iter().any(|answer| is_full_end(answer.end))
}

/// Whether some member of the history from a place on tells of a device.
pub fn some_device(books: &Books, from: u64) -> bool
    requires { from ≤ length books.now.members }
    ensures { result ≡ list_any (λ m. is_of_device m.entry.reply) (drop from books.now.members) }
{
    for place in from..books.len() {
        let (_, entry) = books.member(place);
        if tells_of_device(&entry.reply) {
            return true;
        }
    }
    false
}
