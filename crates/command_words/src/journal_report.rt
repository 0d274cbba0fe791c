//! Reports on a journal.
ghost use Rattle.std.specs.Prelude.{◌≡◌};
ghost use Rattle.command_words.specs.Words.{named_or_main as named, pool_of};

use request_text::{Day, main_pool_name};
use setoff_model::{Kind, Name};

/// What tells of the disk's journal: it is read and not written, and the source is not called.
#[derive(Clone, Copy, PartialEq, Eq)]
pub enum JournalReport {
    /// `audit`: replays it, and tells whether it is sound.
    Audit,
    /// `positions` or `positions POOL`: prints the position of every firm of a pool.
    Positions {
        /// The pool, where the words name another than MAIN.
        pool: Option<Name>,
    },
    /// `notices DATE` or `notices DATE POOL`: prints the open claims of a pool, with the days that they are overdue.
    Notices {
        /// The day on which that is counted.
        today: Day,
        /// The pool, where the words name another than MAIN.
        pool: Option<Name>,
    },
    /// `weigh KIND DATE`: prints a set-off in which claims that are longer overdue count more.
    Weigh {
        /// Whether accounts are drawn on.
        kind: Kind,
        /// The last day on which a claim of the cut is due, and the day on which it is counted how long claims are overdue.
        today: Day,
    },
    /// `history` or `history POOL`: prints the entries that it holds, each publication with its statement.
    History {
        /// The pool, where the words name one. Else the entries of all pools are printed.
        pool: Option<Name>,
    },
    /// `statement ROUND` or `statement ROUND POOL`: prints the statement of a round of a pool.
    Statement {
        /// The number of the round, from 1 on.
        round: u32,
        /// The pool, where the words name another than MAIN.
        pool: Option<Name>,
    },
    /// `pools`: prints a row for each pool.
    Pools,
    /// `since ACTS` or `since ACTS POOL`: prints what a history prints of the entries behind the first acts.
    Since {
        /// How many acts of the journal, of all pools, come before, at most 1,048,576.
        acts: u32,
        /// The pool, where the words name one. Else the entries of all pools are printed.
        pool: Option<Name>,
    },
    /// `seal` or `seal ACTS`: prints a digest of the records of the journal.
    Seal {
        /// How many acts are sealed, at most 1,048,576, where the words name a number. Else all are.
        acts: Option<u32>,
    },
    /// `account FIRM` or `account FIRM POOL`: prints the register of a firm.
    Account {
        /// The firm.
        firm: Name,
        /// The pool, where the words name one, else MAIN.
        pool: Option<Name>,
    },
    /// `parts ROUND` or `parts ROUND POOL`: prints a page of a round for each of its parties.
    Parts {
        /// The number of the round, from 1 on.
        round: u32,
        /// The pool, where the words name one, else MAIN.
        pool: Option<Name>,
    },
    /// `forecast KIND DATE` or `forecast KIND DATE POOL`: prints the statement of the round that a Close would publish now.
    Forecast {
        /// Whether accounts are drawn on.
        kind: Kind,
        /// The last day on which a claim of the cut is due.
        horizon: Day,
        /// The pool, where the words name one, else MAIN.
        pool: Option<Name>,
    },
}

impl JournalReport {
    /// The pool of which a report speaks: the one that its words name, else MAIN. An audit, a seal and the table of pools are of all
    /// pools, and so are a history and what came since, where no pool is named.
    pub fn pool(&self) -> Name
        ensures { result ≡ pool_of self.now }
    {
        match self {
            JournalReport::Audit => main_pool_name(),
            JournalReport::Positions { pool } => named_or_main(pool),
            JournalReport::Notices { pool, .. } => named_or_main(pool),
            JournalReport::Weigh { .. } => main_pool_name(),
            JournalReport::History { pool } => named_or_main(pool),
            JournalReport::Statement { pool, .. } => named_or_main(pool),
            JournalReport::Pools => main_pool_name(),
            JournalReport::Since { pool, .. } => named_or_main(pool),
            JournalReport::Seal { .. } => main_pool_name(),
            JournalReport::Account { pool, .. } => named_or_main(pool),
            JournalReport::Parts { pool, .. } => named_or_main(pool),
            JournalReport::Forecast { pool, .. } => named_or_main(pool),
        }
    }
}

// The pool that is named, else MAIN.
fn named_or_main(pool: &Option<Name>) -> Name
    ensures { result ≡ named pool.now }
{
    match pool {
        Some(pool) => *pool,
        None => main_pool_name(),
    }
}
