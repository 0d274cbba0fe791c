//! What of a load its status tells.
ghost use Rattle.std.specs.Prelude.{◌≡◌, ◌||◌, []};
ghost use Rattle.printed_text.specs.served_lines.specs.Ends.{has_line_end, is_full_end, is_memory_end};
ghost use Rattle.group_runs.specs.Runs.{IsTally, load_status};

use printed_text::{Answer, ExitStatus, some_full, some_memory};

/// What came of the lines of some groups, as far as the status tells it.
#[derive(Clone, Copy)]
pub(crate) struct Tally {
    /// There was no memory for a line.
    pub(crate) memory: bool,
    /// A line was full.
    pub(crate) full: bool,
}

impl Tally {
    /// The tally of no group.
    pub(crate) fn new() -> Tally
        ensures { IsTally result [] }
    {
        Tally {
            memory: false,
            full: false,
        }
    }

    /// Counts a group in.
    pub(crate) fn add(&mut self, answers: &[Answer])
        ensures memory { self.new.memory ≡ (self.old.memory || has_line_end is_memory_end answers.now) }
        ensures full { self.new.full ≡ (self.old.full || has_line_end is_full_end answers.now) }
    {
        self.memory = self.memory || some_memory(answers);
        self.full = self.full || some_full(answers);
    }

    /// The status: `Memory` where there was none for a line, else `Limit` where a line was full, else `Done`.
    pub(crate) fn status(self) -> ExitStatus
        ensures { result ≡ load_status self.memory self.full }
    {
        if self.memory {
            ExitStatus::Memory
        } else if self.full {
            ExitStatus::Limit
        } else {
            ExitStatus::Done
        }
    }
}
