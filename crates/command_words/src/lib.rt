//! The words of the program's command line.
//!
//! A command is a first word and the values that it takes: `run`, `live`, `check`, `explain`, `audit`, `positions`,
//! `notices DATE`, `weigh KIND DATE`, `history`, `statement ROUND`, `pools`, `since ACTS`, `seal`, `seal ACTS`, `account FIRM`,
//! `parts ROUND`, `forecast KIND DATE`, `import LANE` or `trial FIRMS CLAIMS SEED`; behind those of a pool its name may stand:
//! `positions POOL`. The words are exactly such a list, or are refused.
//!
//! - A word that begins with `-` is refused before the parse.
//! - `clap` decides which command the first word names, and how many values there are. It has no `help` here, and no
//!   flags.
//! - What a value may be is decided by the readers of the product: a day, a kind, a name, or decimal digits without a superfluous
//!   leading zero, in the range of the value.
#![tactic(auto)]

ghost use Rattle.command_words.specs.Words.{OneCommandLaw};

mod command;
mod error;
mod input_report;
mod journal_report;
mod program;
mod reading;
mod usage;

pub use command::Command;
pub use error::WordsError;
pub use input_report::InputReport;
pub use journal_report::JournalReport;
pub use reading::command_of;
use request_text::days_are_civil_dates;
pub use usage::USAGE;

/// Two commands with the same words are one. A law, which does nothing when it is called.
pub fn words_are_of_one_command()
    ensures law { OneCommandLaw }
{
    days_are_civil_dates();
}
