//! The statuses of a process.
ghost use Rattle.std.specs.Prelude.{◌≡◌};
ghost use Rattle.printed_text.specs.Statuses.{number_of};

/// What a call of the program ends with. The numbers, which the system is told, are 0 to 9 in this order.
#[derive(Clone, Copy)]
pub enum ExitStatus {
    /// What was asked for was done.
    Done,
    /// A set-off is not proved, no round of the number was published, or an act of a journal is refused or full.
    No,
    /// The words ask for nothing.
    Words,
    /// The source failed.
    Source,
    /// The sink failed.
    Sink,
    /// The disk failed.
    Disk,
    /// The input is not in form.
    Form,
    /// The input is too long, or a line was full.
    Limit,
    /// The journal is not sound.
    Unsound,
    /// There was no memory.
    Memory,
}

impl ExitStatus {
    /// The number that the system is told.
    pub fn number(self) -> u8
        ensures { result ≡ number_of self }
    {
        self as u8
    }
}
