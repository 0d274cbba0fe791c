//! What is told to who gave no command.

/// The commands, each on a line with what it does, then the forms of their values and the version, for the error stream where the
/// words are none of them. The script `bureau` reads this file for `--help` and `--version`.
pub const USAGE: &str = "\
run                        serves the requests of the input, and keeps them in the journal
live                       serves them while the input is read, each batch when its FENCE has come
check                      judges the statement of the input
explain                    cuts the round of the statement into chains of claims
audit                      replays the journal, and tells whether it is sound
positions [POOL]           prints the position of every firm of a pool as CSV, of MAIN where none is named
notices DATE [POOL]        prints the open claims of a pool as CSV, with the days that they are overdue on DATE
account FIRM [POOL]        prints the register of a firm as CSV, each entry with the position after it
pools                      prints the pools as CSV, with what each holds
weigh KIND DATE            prints a set-off in which claims that are longer overdue on DATE count more
forecast KIND DATE [POOL]  prints the statement that a CLOSE with the horizon DATE would publish now
history [POOL]             prints the entries that the journal holds, each publication with its statement
since ACTS [POOL]          prints those behind the first ACTS acts of the journal
statement ROUND [POOL]     prints the statement of a published round of a pool, as the run printed it
parts ROUND [POOL]         prints a page of that round for each of its parties
seal [ACTS]                prints the SHA-256 of the records of the journal, or of the first ACTS of them
import LANE                turns the invoices of the input into FILE requests
trial FIRMS CLAIMS SEED    makes a large input from a number, and serves it
KIND is PLAIN or FUNDED, DATE is YYYY-MM-DD, LANE is a number from 1 to 16, POOL and FIRM are names
version 0.5.0
";
