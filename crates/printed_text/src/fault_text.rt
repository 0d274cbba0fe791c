//! The lines that tell of faults.
ghost use Rattle.std.specs.Prelude.{◌≡◌, ◌+◌, ◌≤◌, ◌++◌, codes, decimal, length, vec_len, vec_capacity};
ghost use Rattle.setoff_model.specs.declared.limits.TheConstants.{LINE_BYTES};
ghost use Rattle.setoff_model.specs.Writing.{Writes};
ghost use Rattle.printed_text.specs.Texts.{memory_line, full_line, room_text, cause_text, bad_line_text};
ghost use Rattle.printed_text.specs.Texts.{row_cause_text, bad_row_text, statement_cause_text, bad_statement_text};

use firm_notices::RowCause;
use served_lines::{LineCause, Room};
use setoff_model::{put, write_whole};
use statement_text::StatementCause;

/// Writes the line `! line N memory` of a line for which there was no memory.
pub fn write_memory_line(buffer: &mut Vec<u8>, line: u64)
    requires { vec_len buffer.old + LINE_BYTES ≤ vec_capacity buffer.old }
    ensures { Writes buffer.old buffer.new (memory_line line) LINE_BYTES }
{
    put(buffer, b"! line ");
    write_whole(buffer, line);
    put(buffer, b" memory\n");
}

// That there was no room, and for what.
fn full_words(what: Room) -> &'static [u8]
    ensures text { result.now ≡ codes " full " ++ room_text what ++ codes " " }
    ensures short { length result.now ≤ 14 }
{
    match what {
        Room::Entries => b" full entries ",
        Room::Bytes => b" full bytes ",
    }
}

/// Writes the line `! line N full WHAT NEEDED LIMIT` of a line whose act was full.
pub fn write_full_line(buffer: &mut Vec<u8>, line: u64, what: Room, needed: u64, limit: u64)
    requires { vec_len buffer.old + LINE_BYTES ≤ vec_capacity buffer.old }
    ensures { Writes buffer.old buffer.new (full_line line what needed limit) LINE_BYTES }
{
    put(buffer, b"! line ");
    write_whole(buffer, line);
    write_place(buffer, full_words(what), needed);
    write_whole(buffer, limit);
    put(buffer, b"\n");
}

// Words with a space behind them, a number, and a space.
fn write_place(buffer: &mut Vec<u8>, words: &[u8], number: u64)
    requires spare { vec_len buffer.old + 40 ≤ vec_capacity buffer.old }
    requires words { length words.now ≤ 14 }

    // What stands in the buffer then, and its room.
    ensures { Writes buffer.old buffer.new (words.now ++ decimal number ++ codes " ") 40 }
{
    put(buffer, words);
    write_whole(buffer, number);
    put(buffer, b" ");
}

// The number of a field.
fn write_field(buffer: &mut Vec<u8>, field: u32)
    requires { vec_len buffer.old + 70 ≤ vec_capacity buffer.old }
    ensures { Writes buffer.old buffer.new (codes "field " ++ decimal field) 30 }
{
    put(buffer, b"field ");
    write_whole(buffer, u64::from(field));
}

fn write_cause(buffer: &mut Vec<u8>, cause: LineCause)
    requires { vec_len buffer.old + 70 ≤ vec_capacity buffer.old }
    ensures { Writes buffer.old buffer.new (cause_text cause) 30 }
{
    match cause {
        LineCause::Lane => put(buffer, b"lane"),
        LineCause::Pool => put(buffer, b"pool"),
        LineCause::Verb => put(buffer, b"verb"),
        LineCause::Fields => put(buffer, b"fields"),
        LineCause::Field(k) => write_field(buffer, k),
    }
}

/// Writes the line `fault line N CAUSE` of an input of requests that is not in the grammar, whose lines are counted from 1. The caller
/// gives room for `LINE_BYTES` behind what the buffer has, and so there is no error.
pub fn write_bad_line(buffer: &mut Vec<u8>, line: u64, cause: LineCause)
    requires { vec_len buffer.old + LINE_BYTES ≤ vec_capacity buffer.old }
    ensures { Writes buffer.old buffer.new (bad_line_text line cause) LINE_BYTES }
{
    write_place(buffer, b"fault line ", line);
    write_cause(buffer, cause);
    put(buffer, b"\n");
}

fn write_row_cause(buffer: &mut Vec<u8>, cause: RowCause)
    requires { vec_len buffer.old + 70 ≤ vec_capacity buffer.old }
    ensures { Writes buffer.old buffer.new (row_cause_text cause) 30 }
{
    match cause {
        RowCause::Header => put(buffer, b"header"),
        RowCause::Fields => put(buffer, b"fields"),
        RowCause::Field(k) => write_field(buffer, k),
    }
}

/// Writes the line `fault row N CAUSE` of an input of invoices that is not in the grammar, whose rows are counted from 1, the header
/// first. The room is as for `write_bad_line`.
pub fn write_bad_row(buffer: &mut Vec<u8>, row: u64, cause: RowCause)
    requires { vec_len buffer.old + LINE_BYTES ≤ vec_capacity buffer.old }
    ensures { Writes buffer.old buffer.new (bad_row_text row cause) LINE_BYTES }
{
    write_place(buffer, b"fault row ", row);
    write_row_cause(buffer, cause);
    put(buffer, b"\n");
}

fn statement_cause(cause: StatementCause) -> &'static [u8]
    ensures text { result.now ≡ statement_cause_text cause }
    ensures short { length result.now ≤ 10 }
{
    match cause {
        StatementCause::Round => b"round",
        StatementCause::After => b"after",
        StatementCause::Shape => b"shape",
        StatementCause::Limit => b"limit",
        StatementCause::Repeat => b"repeat",
        StatementCause::NoParty => b"party",
        StatementCause::SameFirm => b"same-firm",
        StatementCause::Window => b"window",
        StatementCause::NoEnd => b"end",
    }
}

/// Writes the line `fault line N CAUSE` of an input that is no statement, whose lines are counted from 1. The room is as for
/// `write_bad_line`.
pub fn write_bad_statement(buffer: &mut Vec<u8>, line: u64, cause: StatementCause)
    requires { vec_len buffer.old + LINE_BYTES ≤ vec_capacity buffer.old }
    ensures { Writes buffer.old buffer.new (bad_statement_text line cause) LINE_BYTES }
{
    write_place(buffer, b"fault line ", line);
    put(buffer, statement_cause(cause));
    put(buffer, b"\n");
}
