//! The words of commands.
use claim_history::Day;
use command_words::{Command, InputReport, JournalReport, USAGE, WordsError, command_of};
use setoff_model::{Kind, Name};
use std::alloc::Global;
use std::process::Abort;

fn words_of(rt: &impl Abort, alloc: Global, texts: &[&str]) -> Vec<String> {
    let mut words = Vec::new(alloc);
    for text in texts {
        let word = String::from_str(alloc, text).expect(rt, "memory");
        words.push(word).expect(rt, "memory");
    }
    words
}

// What is told of these words.
fn told(rt: &impl Abort, alloc: Global, texts: &[&str]) -> Result<Command, WordsError> {
    command_of(alloc, words_of(rt, alloc, texts).as_slice())
}

#[test]
fn each_list_of_words_is_its_command(rt: HostRuntime) {
    let today = Day::read(b"2025-03-31").expect(&rt, "a day");
    let east = Name::of(b"EAST").expect(&rt, "a name");
    let main = Name::of(b"MAIN").expect(&rt, "a name");
    let lists: [(&[&str], Command); 35] = [
        (&["run"], Command::Run),
        (&["live"], Command::Live),
        (&["check"], Command::OnInput(InputReport::Check)),
        (&["explain"], Command::OnInput(InputReport::Explain)),
        (&["audit"], Command::OnJournal(JournalReport::Audit)),
        (
            &["positions"],
            Command::OnJournal(JournalReport::Positions { pool: None }),
        ),
        (
            &["positions", "EAST"],
            Command::OnJournal(JournalReport::Positions { pool: Some(east) }),
        ),
        (
            &["notices", "2025-03-31"],
            Command::OnJournal(JournalReport::Notices { today, pool: None }),
        ),
        (
            &["notices", "2025-03-31", "EAST"],
            Command::OnJournal(JournalReport::Notices {
                today,
                pool: Some(east),
            }),
        ),
        (
            &["weigh", "PLAIN", "2025-03-31"],
            Command::OnJournal(JournalReport::Weigh {
                kind: Kind::Plain,
                today,
            }),
        ),
        (
            &["weigh", "FUNDED", "2025-03-31"],
            Command::OnJournal(JournalReport::Weigh {
                kind: Kind::Funded,
                today,
            }),
        ),
        (
            &["history"],
            Command::OnJournal(JournalReport::History { pool: None }),
        ),
        (
            &["history", "EAST"],
            Command::OnJournal(JournalReport::History { pool: Some(east) }),
        ),
        (
            &["history", "MAIN"],
            Command::OnJournal(JournalReport::History { pool: Some(main) }),
        ),
        (
            &["statement", "1"],
            Command::OnJournal(JournalReport::Statement {
                round: 1,
                pool: None,
            }),
        ),
        (
            &["statement", "4294967295", "EAST"],
            Command::OnJournal(JournalReport::Statement {
                round: 4_294_967_295,
                pool: Some(east),
            }),
        ),
        (&["pools"], Command::OnJournal(JournalReport::Pools)),
        (
            &["since", "0"],
            Command::OnJournal(JournalReport::Since {
                acts: 0,
                pool: None,
            }),
        ),
        (
            &["since", "1048576", "MAIN"],
            Command::OnJournal(JournalReport::Since {
                acts: 1_048_576,
                pool: Some(main),
            }),
        ),
        (
            &["seal"],
            Command::OnJournal(JournalReport::Seal { acts: None }),
        ),
        (
            &["seal", "0"],
            Command::OnJournal(JournalReport::Seal { acts: Some(0) }),
        ),
        (
            &["seal", "1048576"],
            Command::OnJournal(JournalReport::Seal {
                acts: Some(1_048_576),
            }),
        ),
        (
            &["account", "EAST"],
            Command::OnJournal(JournalReport::Account {
                firm: east,
                pool: None,
            }),
        ),
        (
            &["account", "EAST", "MAIN"],
            Command::OnJournal(JournalReport::Account {
                firm: east,
                pool: Some(main),
            }),
        ),
        (
            &["parts", "4294967295"],
            Command::OnJournal(JournalReport::Parts {
                round: 4_294_967_295,
                pool: None,
            }),
        ),
        (
            &["parts", "1", "EAST"],
            Command::OnJournal(JournalReport::Parts {
                round: 1,
                pool: Some(east),
            }),
        ),
        (
            &["forecast", "PLAIN", "2025-03-31"],
            Command::OnJournal(JournalReport::Forecast {
                kind: Kind::Plain,
                horizon: today,
                pool: None,
            }),
        ),
        (
            &["forecast", "FUNDED", "2025-03-31", "EAST"],
            Command::OnJournal(JournalReport::Forecast {
                kind: Kind::Funded,
                horizon: today,
                pool: Some(east),
            }),
        ),
        (
            &["import", "1"],
            Command::OnInput(InputReport::Import { lane: 1 }),
        ),
        (
            &["import", "16"],
            Command::OnInput(InputReport::Import { lane: 16 }),
        ),
        (
            &["trial", "2", "1", "0"],
            Command::Trial {
                firms: 2,
                claims: 1,
                seed: 0,
            },
        ),
        (
            &["trial", "60", "400", "7"],
            Command::Trial {
                firms: 60,
                claims: 400,
                seed: 7,
            },
        ),
        (
            &["trial", "16384", "1", "0"],
            Command::Trial {
                firms: 16_384,
                claims: 1,
                seed: 0,
            },
        ),
        (
            &["trial", "2", "262144", "0"],
            Command::Trial {
                firms: 2,
                claims: 262_144,
                seed: 0,
            },
        ),
        (
            &["trial", "2", "1", "4294967295"],
            Command::Trial {
                firms: 2,
                claims: 1,
                seed: 4_294_967_295,
            },
        ),
    ];
    for (words, command) in lists {
        assert!(rt; told(&rt, rt.alloc(), words) == Ok(command));
    }
}

// Words that are no command.
const NO_COMMANDS: &[&[&str]] = &[
    &[],
    &[""],
    &["runs"],
    &["ru"],
    &["RUN"],
    &["run "],
    &["bureau", "run"],
    &["run", "check"],
    &["live", "1"],
    &["run", ""],
    &["help"],
    &["help", "run"],
    &["-h"],
    &["--help"],
    &["run", "--help"],
    &["-V"],
    &["-"],
    &["--"],
    &["--", "run"],
    &["run", "--"],
    &["notices"],
    &["notices", ""],
    &["notices", "2025-02-29"],
    &["notices", "2025-3-31"],
    &["notices", "--", "2025-03-31"],
    &["notices", "2025-03-31", "2025-03-31"],
    &["notices", "EAST"],
    &["notices", "EAST", "2025-03-31"],
    &["notices", "2025-03-31", "east"],
    &["notices", "2025-03-31", "MAIN"],
    &["notices", "2025-03-31", "EAST", "EAST"],
    &["positions", ""],
    &["positions", "@EAST"],
    &["positions", "MAIN"],
    &["positions", "EAST", "EAST"],
    &["audit", "EAST"],
    &["explain", "1"],
    &["weigh"],
    &["weigh", "PLAIN"],
    &["weigh", "plain", "2025-03-31"],
    &["weigh", "2025-03-31", "PLAIN"],
    &["weigh", "PLAIN", "2025-02-29"],
    &["weigh", "PLAIN", "2025-03-31", "MAIN"],
    &["history", "east"],
    &["history", "EAST", "1"],
    &["statement"],
    &["statement", "EAST"],
    &["statement", "0"],
    &["statement", "01"],
    &["statement", "+1"],
    &["statement", "4294967296"],
    &["statement", "1", "MAIN"],
    &["statement", "1", "EAST", "EAST"],
    &["pools", "EAST"],
    &["since"],
    &["since", "1048577"],
    &["since", "01"],
    &["since", "EAST"],
    &["since", "1", "east"],
    &["since", "1", "EAST", "EAST"],
    &["seal", "1048577"],
    &["seal", "EAST"],
    &["seal", "1", "1"],
    &["account"],
    &["account", "a"],
    &["account", "A", "east"],
    &["account", "A", "EAST", "EAST"],
    &["parts"],
    &["parts", "0"],
    &["parts", "1", "EAST", "EAST"],
    &["forecast"],
    &["forecast", "PLAIN"],
    &["forecast", "plain", "2025-03-31"],
    &["forecast", "2025-03-31", "PLAIN"],
    &["forecast", "PLAIN", "2025-02-29"],
    &["forecast", "PLAIN", "2025-03-31", "east"],
    &["forecast", "PLAIN", "2025-03-31", "EAST", "EAST"],
    &["import"],
    &["import", "0"],
    &["import", "17"],
    &["import", "007"],
    &["import", "+4"],
    &["import", "-1"],
    &["import", "4", "4"],
    &["import", "LANE"],
    &["trial"],
    &["trial", "60", "400"],
    &["trial", "60", "400", "7", "7"],
    &["trial", "1", "400", "7"],
    &["trial", "16385", "400", "7"],
    &["trial", "60", "0", "7"],
    &["trial", "60", "262145", "7"],
    &["trial", "60", "400", "4294967296"],
    &["trial", "60", "400", "07"],
    &["trial", "60", "400", "18446744073709551623"],
];

#[test]
fn other_words_are_refused(rt: HostRuntime) {
    for words in NO_COMMANDS {
        assert!(rt; told(&rt, rt.alloc(), words) == Err(WordsError::Unknown));
    }
}

// How the lines of the commands begin.
const FORMS: &[&str] = &[
    "run ",
    "live ",
    "check ",
    "explain ",
    "audit ",
    "positions [POOL] ",
    "notices DATE [POOL] ",
    "account FIRM [POOL] ",
    "pools ",
    "weigh KIND DATE ",
    "forecast KIND DATE [POOL] ",
    "history [POOL] ",
    "since ACTS [POOL] ",
    "statement ROUND [POOL] ",
    "parts ROUND [POOL] ",
    "seal [ACTS] ",
    "import LANE ",
    "trial FIRMS CLAIMS SEED ",
    "KIND is PLAIN or FUNDED, DATE is YYYY-MM-DD, ",
    "version 0.5.0",
];

#[test]
fn each_command_is_told_on_a_line(rt: HostRuntime) {
    let mut lines = USAGE.lines();
    for form in FORMS {
        let line = lines.next().expect(&rt, "a line");
        assert!(rt; line.starts_with(form), "{form}");
    }
    assert!(rt; lines.next().is_none());
}
