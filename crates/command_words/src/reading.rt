//! The words, as a command.
ghost use Rattle.std.specs.Prelude.{◌≡◌, ◌≤◌, ℕ, List, Option, codes, [], map, string_bytes};
ghost use Rattle.std.specs.Prelude.{decimal, IfOk, IfErr, IfSome, IfNone, Some, true};
ghost use Rattle.std.specs.List.{list_any};
ghost use Rattle.setoff_model.specs.declared.limits.TheConstants.{LAST_DAY, MOST_ENTRIES};
ghost use Rattle.setoff_model.specs.Texts.{kind_text};
ghost use Rattle.setoff_model.specs.declared.kind.Kind.{Kind as KindOf};
ghost use Rattle.request_text.specs.claim_history.specs.Days.{day_text};
ghost use Rattle.clap.specs.Words.{first_value, found_of, subcommand_of, subcommand_rows_of, fault_of};
ghost use Rattle.clap.specs.Values.{kind_of};
ghost use Rattle.clap.specs.declared.error.kind.ErrorKind.TheVariants.{OutOfMemory};
ghost use Rattle.command_words.specs.declared.command.Command.{Command as CommandOf};
ghost use Rattle.command_words.specs.Program.{program};
ghost use Rattle.setoff_model.specs.Names.{is_name};
ghost use Rattle.command_words.specs.Words.{AreActs, AreWordsOf, AreNoWords, IsCommand, IsPool, NamesOther, acts_text};
ghost use Rattle.request_text.specs.claim_history.specs.Pools.{is_main as names_main};
ghost use Rattle.command_words.specs.Reading.{IsFoundIn, IsGiven, is_option};

use crate::command::Command;
use crate::error::WordsError;
use crate::input_report::InputReport;
use crate::journal_report::JournalReport;
use crate::program::program;
use clap::error::ErrorKind;
use clap::{ArgMatches, Error};
use request_text::{Day, main_pool_name};
use setoff_model::limits::{MOST_CLAIMS, MOST_ENTRIES, MOST_FIRMS, MOST_LANES};
use setoff_model::{Kind, Name, read_kind, read_number};
use std::alloc::Global;

fn is_option(word: &str) -> bool
    ensures { result ≡ is_option word.now }
{
    matches!(word.as_bytes(), [b'-', ..])
}

// Whether some word begins with a hyphen.
fn has_option(words: &[String]) -> bool
    ensures { result ≡ list_any (λ w. is_option (string_bytes w)) words.now }
{
    words.iter().any(|word| is_option(word.as_str()))
}

// The day that is the value of this name.
fn day_at(values: &ArgMatches, id: &str) -> Option<Day>
    ensures found { IfSome result (λ d. (d ≤ LAST_DAY) × (first_value (found_of values.now) id.now ≡ Some (day_text d))) }
    ensures none { IfNone result ((d : ℕ) → d ≤ LAST_DAY → first_value (found_of values.now) id.now ≡ Some (day_text d) → ⊥) }
{
    Day::read(values.get_str(id)?.as_bytes())
}

// The number from `least` to `most` that a text is.
fn read_number_in(text: &[u8], least: u32, most: u32) -> Option<u32>
    ensures found { IfSome result (λ n. (least ≤ n) × (n ≤ most) × (text.now ≡ decimal n)) }
    ensures none { IfNone result ((n : ℕ) → least ≤ n → n ≤ most → text.now ≡ decimal n → ⊥) }
{
    match read_number(text) {
        Some(number) if u64::from(least) <= number && number <= u64::from(most) => {
            Some(number as u32)
        }
        _ => None,
    }
}

// The number from `least` to `most` that is the value of this name.
fn number_at(values: &ArgMatches, id: &str, least: u32, most: u32) -> Option<u32>
    ensures found { IfSome result (λ n. (least ≤ n) × (n ≤ most) × (first_value (found_of values.now) id.now ≡ Some (decimal n))) }
    ensures none { IfNone result ((n : ℕ) → least ≤ n → n ≤ most → first_value (found_of values.now) id.now ≡ Some (decimal n) → ⊥) }
{
    read_number_in(values.get_str(id)?.as_bytes(), least, most)
}

// The kind that is the value of this name.
fn kind_at(values: &ArgMatches, id: &str) -> Option<Kind>
    ensures found { IfSome result (λ k. first_value (found_of values.now) id.now ≡ Some (kind_text k)) }
    ensures none { IfNone result ((k : KindOf) → first_value (found_of values.now) id.now ≡ Some (kind_text k) → ⊥) }
{
    read_kind(values.get_str(id)?.as_bytes())
}

// The command `import` with its value.
fn import_at(values: &ArgMatches) -> Option<Command>
    ensures found { IfSome result (λ c. IsCommand c × IsGiven c (codes "import") (first_value (found_of values.now))) }
    ensures none { IfNone result ((c : CommandOf) → IsCommand c → IsGiven c (codes "import") (first_value (found_of values.now)) → ⊥) }
{
    let lane = number_at(values, "LANE", 1, MOST_LANES as u32)?;
    Some(Command::OnInput(InputReport::Import { lane }))
}

// The pool that is the value of this name, if there is one.
fn pool_at(values: &ArgMatches, id: &str) -> Option<Option<Name>>
    ensures found { IfSome result (λ pool. IsPool pool × (first_value (found_of values.now) id.now ≡ pool)) }
    ensures none { IfNone result ((pool : Option (List ℕ)) → IsPool pool → first_value (found_of values.now) id.now ≡ pool → ⊥) }
{
    let Some(text) = values.get_str(id) else {
        return Some(None);
    };
    let pool = Name::of(text.as_bytes())?;
    Some(Some(pool))
}

// Whether a pool is MAIN.
fn is_main(pool: &Name) -> bool
    ensures { result ≡ names_main pool.now }
{
    pool.bytes() == main_pool_name().bytes()
}

// The pool other than MAIN that is the value of this name, if there is one.
#[tactic(auto, using(crate::proofs::Commands::other_named))]
fn other_pool_at(values: &ArgMatches, id: &str) -> Option<Option<Name>>
    ensures found { IfSome result (λ pool. NamesOther pool × (first_value (found_of values.now) id.now ≡ pool)) }
    ensures none { IfNone result ((pool : Option (List ℕ)) → NamesOther pool → first_value (found_of values.now) id.now ≡ pool → ⊥) }
{
    match pool_at(values, id)? {
        Some(pool) if is_main(&pool) => None,
        pool => Some(pool),
    }
}

// The command `positions` with its value.
fn positions_at(values: &ArgMatches) -> Option<Command>
    ensures found { IfSome result (λ c. IsCommand c × IsGiven c (codes "positions") (first_value (found_of values.now))) }
    ensures none { IfNone result ((c : CommandOf) → IsCommand c → IsGiven c (codes "positions") (first_value (found_of values.now)) → ⊥) }
{
    let pool = other_pool_at(values, "POOL")?;
    Some(Command::OnJournal(JournalReport::Positions { pool }))
}

// The command `notices` with its values.
fn notices_at(values: &ArgMatches) -> Option<Command>
    ensures found { IfSome result (λ c. IsCommand c × IsGiven c (codes "notices") (first_value (found_of values.now))) }
    ensures none { IfNone result ((c : CommandOf) → IsCommand c → IsGiven c (codes "notices") (first_value (found_of values.now)) → ⊥) }
{
    let today = day_at(values, "DATE")?;
    let pool = other_pool_at(values, "POOL")?;
    Some(Command::OnJournal(JournalReport::Notices { today, pool }))
}

// The command `weigh` with its values.
fn weigh_at(values: &ArgMatches) -> Option<Command>
    ensures found { IfSome result (λ c. IsCommand c × IsGiven c (codes "weigh") (first_value (found_of values.now))) }
    ensures none { IfNone result ((c : CommandOf) → IsCommand c → IsGiven c (codes "weigh") (first_value (found_of values.now)) → ⊥) }
{
    let kind = kind_at(values, "KIND")?;
    let today = day_at(values, "DATE")?;
    Some(Command::OnJournal(JournalReport::Weigh { kind, today }))
}

// The command `history` with its value.
fn history_at(values: &ArgMatches) -> Option<Command>
    ensures found { IfSome result (λ c. IsCommand c × IsGiven c (codes "history") (first_value (found_of values.now))) }
    ensures none { IfNone result ((c : CommandOf) → IsCommand c → IsGiven c (codes "history") (first_value (found_of values.now)) → ⊥) }
{
    let pool = pool_at(values, "POOL")?;
    Some(Command::OnJournal(JournalReport::History { pool }))
}

// The command `statement` with its values.
fn statement_at(values: &ArgMatches) -> Option<Command>
    ensures found { IfSome result (λ c. IsCommand c × IsGiven c (codes "statement") (first_value (found_of values.now))) }
    ensures none { IfNone result ((c : CommandOf) → IsCommand c → IsGiven c (codes "statement") (first_value (found_of values.now)) → ⊥) }
{
    let round = number_at(values, "ROUND", 1, u32::MAX)?;
    let pool = other_pool_at(values, "POOL")?;
    Some(Command::OnJournal(JournalReport::Statement { round, pool }))
}

// The number of acts that is the value of this name.
fn acts_at(values: &ArgMatches, id: &str) -> Option<u32>
    ensures found { IfSome result (λ n. (n ≤ MOST_ENTRIES) × (first_value (found_of values.now) id.now ≡ Some (decimal n))) }
    ensures none { IfNone result ((n : ℕ) → n ≤ MOST_ENTRIES → first_value (found_of values.now) id.now ≡ Some (decimal n) → ⊥) }
{
    number_at(values, id, 0, MOST_ENTRIES as u32)
}

// The number of acts that is the value of this name, if there is one.
fn some_acts_at(values: &ArgMatches, id: &str) -> Option<Option<u32>>
    ensures found { IfSome result (λ acts. AreActs acts × (first_value (found_of values.now) id.now ≡ acts_text acts)) }
    ensures none { IfNone result ((acts : Option ℕ) → AreActs acts → first_value (found_of values.now) id.now ≡ acts_text acts → ⊥) }
{
    if values.get_str(id).is_none() {
        return Some(None);
    }
    let acts = acts_at(values, id)?;
    Some(Some(acts))
}

// The firm that is the value of this name.
fn firm_at(values: &ArgMatches, id: &str) -> Option<Name>
    ensures found { IfSome result (λ firm. (is_name firm ≡ true) × (first_value (found_of values.now) id.now ≡ Some firm)) }
    ensures none { IfNone result ((firm : List ℕ) → is_name firm ≡ true → first_value (found_of values.now) id.now ≡ Some firm → ⊥) }
{
    Name::of(values.get_str(id)?.as_bytes())
}

// The command `since` with its values.
fn since_at(values: &ArgMatches) -> Option<Command>
    ensures found { IfSome result (λ c. IsCommand c × IsGiven c (codes "since") (first_value (found_of values.now))) }
    ensures none { IfNone result ((c : CommandOf) → IsCommand c → IsGiven c (codes "since") (first_value (found_of values.now)) → ⊥) }
{
    let acts = acts_at(values, "ACTS")?;
    let pool = pool_at(values, "POOL")?;
    Some(Command::OnJournal(JournalReport::Since { acts, pool }))
}

// The command `seal` with its value.
fn seal_at(values: &ArgMatches) -> Option<Command>
    ensures found { IfSome result (λ c. IsCommand c × IsGiven c (codes "seal") (first_value (found_of values.now))) }
    ensures none { IfNone result ((c : CommandOf) → IsCommand c → IsGiven c (codes "seal") (first_value (found_of values.now)) → ⊥) }
{
    let acts = some_acts_at(values, "ACTS")?;
    Some(Command::OnJournal(JournalReport::Seal { acts }))
}

// The command `account` with its values.
fn account_at(values: &ArgMatches) -> Option<Command>
    ensures found { IfSome result (λ c. IsCommand c × IsGiven c (codes "account") (first_value (found_of values.now))) }
    ensures none { IfNone result ((c : CommandOf) → IsCommand c → IsGiven c (codes "account") (first_value (found_of values.now)) → ⊥) }
{
    let firm = firm_at(values, "FIRM")?;
    let pool = pool_at(values, "POOL")?;
    Some(Command::OnJournal(JournalReport::Account { firm, pool }))
}

// The command `parts` with its values.
fn parts_at(values: &ArgMatches) -> Option<Command>
    ensures found { IfSome result (λ c. IsCommand c × IsGiven c (codes "parts") (first_value (found_of values.now))) }
    ensures none { IfNone result ((c : CommandOf) → IsCommand c → IsGiven c (codes "parts") (first_value (found_of values.now)) → ⊥) }
{
    let round = number_at(values, "ROUND", 1, u32::MAX)?;
    let pool = pool_at(values, "POOL")?;
    Some(Command::OnJournal(JournalReport::Parts { round, pool }))
}

// The command `forecast` with its values.
fn forecast_at(values: &ArgMatches) -> Option<Command>
    ensures found { IfSome result (λ c. IsCommand c × IsGiven c (codes "forecast") (first_value (found_of values.now))) }
    ensures none { IfNone result ((c : CommandOf) → IsCommand c → IsGiven c (codes "forecast") (first_value (found_of values.now)) → ⊥) }
{
    let kind = kind_at(values, "KIND")?;
    let horizon = day_at(values, "DATE")?;
    let pool = pool_at(values, "POOL")?;
    Some(Command::OnJournal(JournalReport::Forecast {
        kind,
        horizon,
        pool,
    }))
}

// The command `trial` with its values.
fn trial_at(values: &ArgMatches) -> Option<Command>
    ensures found { IfSome result (λ c. IsCommand c × IsGiven c (codes "trial") (first_value (found_of values.now))) }
    ensures none { IfNone result ((c : CommandOf) → IsCommand c → IsGiven c (codes "trial") (first_value (found_of values.now)) → ⊥) }
{
    Some(Command::Trial {
        firms: number_at(values, "FIRMS", 2, MOST_FIRMS as u32)?,
        claims: number_at(values, "CLAIMS", 1, MOST_CLAIMS as u32)?,
        seed: number_at(values, "SEED", 0, u32::MAX)?,
    })
}

// The command of a first word and of values.
fn command_by_name(name: &str, values: &ArgMatches) -> Option<Command>
    ensures found { IfSome result (λ c. IsCommand c × IsGiven c name.now (first_value (found_of values.now))) }
    ensures none { IfNone result ((c : CommandOf) → IsCommand c → IsGiven c name.now (first_value (found_of values.now)) → ⊥) }
{
    match name {
        "run" => Some(Command::Run),
        "live" => Some(Command::Live),
        "check" => Some(Command::OnInput(InputReport::Check)),
        "explain" => Some(Command::OnInput(InputReport::Explain)),
        "import" => import_at(values),
        "audit" => Some(Command::OnJournal(JournalReport::Audit)),
        "positions" => positions_at(values),
        "notices" => notices_at(values),
        "weigh" => weigh_at(values),
        "history" => history_at(values),
        "statement" => statement_at(values),
        "pools" => Some(Command::OnJournal(JournalReport::Pools)),
        "since" => since_at(values),
        "seal" => seal_at(values),
        "account" => account_at(values),
        "parts" => parts_at(values),
        "forecast" => forecast_at(values),
        "trial" => trial_at(values),
        _ => None,
    }
}

// What is told of an error of the parse.
fn cause_of(error: &Error) -> WordsError
    ensures { result ≡ WordsError.Unknown → kind_of error.now ≡ OutOfMemory → ⊥ }
{
    match error.kind() {
        ErrorKind::OutOfMemory => WordsError::Memory,
        _ => WordsError::Unknown,
    }
}

// What `clap` makes of the words.
fn parse_words<'a>(alloc: Global, words: &'a [String]) -> Result<ArgMatches<'a>, WordsError>
    ensures taken { IfOk result (λ _. fault_of program (map (λ w. string_bytes w) words.entry.now) ≡ []) }
    ensures found { IfOk result (λ m. subcommand_rows_of m ≡ subcommand_of program (map (λ w. string_bytes w) words.entry.now)) }
    ensures unknown { IfErr result (λ e. e ≡ WordsError.Unknown → AreNoWords (map (λ w. string_bytes w) words.entry.now)) }
{
    match program(alloc)?.try_get_matches_from(words) {
        Ok(matches) => Ok(matches),
        Err(error) => Err(cause_of(&error)),
    }
}

// The command that `clap` found.
fn find_command(matches: &ArgMatches) -> Option<Command>
    ensures found { IfSome result (λ c. IsCommand c × IsFoundIn c (subcommand_rows_of matches.now)) }
    ensures none { IfNone result ((c : CommandOf) → IsCommand c → IsFoundIn c (subcommand_rows_of matches.now) → ⊥) }
{
    let (name, values) = matches.subcommand()?;
    command_by_name(name, values)
}

/// The command that the words are.
///
/// `Unknown` comes exactly where they are no command's, `Memory` only where there is no memory.
pub fn command_of(alloc: Global, words: &[String]) -> Result<Command, WordsError>
    ensures found { IfOk result (λ c. AreWordsOf c (map (λ w. string_bytes w) words.now)) }
    ensures unknown { IfErr result (λ e. e ≡ WordsError.Unknown → AreNoWords (map (λ w. string_bytes w) words.now)) }
{
    if has_option(words) {
        return Err(WordsError::Unknown);
    }
    let matches = parse_words(alloc, words)?;
    match find_command(&matches) {
        Some(command) => Ok(command),
        None => Err(WordsError::Unknown),
    }
}
