//! Lines that are read where there is no memory to serve them.
ghost use Rattle.std.specs.Prelude.{◌≡◌, false};
ghost use Rattle.live_reading.specs.Reading.{HasPassed};

use crate::stop::Stop;
use input_front::{Intake, Line};
use std::alloc::Global;

/// Reads the whole lines of a batch that were taken before it, and answers why it ended.
pub fn pass_over(alloc: Global, intake: &mut Intake) -> Stop
    requires { intake.old.fenced ≡ false }
    ensures { HasPassed intake.old intake.new result }
{
    loop {
        match intake.next(alloc) {
            Some(Line::Asks(_)) => intake.batches(),
            Some(Line::Fence) => return Stop::Fence,
            Some(Line::Bad { line, cause }) => return Stop::BadLine { line, cause },
            Some(Line::Memory) => return Stop::Memory,
            None => return Stop::Memory,
        }
    }
}
