//! The line of an entry.
ghost use Rattle.std.specs.Prelude.{◌≡◌, ◌+◌, ◌<◌, ◌≤◌, ◌++◌, unsigned_abs, length, codes, decimal, true, vec_len, vec_capacity};
ghost use Rattle.setoff_model.specs.declared.limits.TheConstants.{SUM_LIMIT, LINE_BYTES};
ghost use Rattle.setoff_model.specs.Texts.{cents_text, signed_cents_text};
ghost use Rattle.setoff_model.specs.Writing.{Writes};
ghost use Rattle.request_text.specs.claim_history.specs.Acts.{is_valid};
ghost use Rattle.request_text.specs.claim_history.specs.Laws.{IsReplyInRange};
ghost use Rattle.request_text.specs.claim_history.specs.Pools.{member_of};
ghost use Rattle.entry_text.specs.Entries.{why_name, why_numbers, why_text, spaced, position_text, reply_text, entry_line, entry_text};
ghost use Rattle.entry_text.specs.declared.entry.TheConstants.{ENTRY_BYTES, REPLY_BYTES};

use request_text::{Entry, PoolEntry, Position, Reply, Why, write_act, write_pool};
use setoff_model::{Name, put, write_sum, write_whole};

/// The bytes that the text of a reply takes at most.
pub const REPLY_BYTES: usize = 87;

// The bytes that an act, ` = ` and its reply take at most.
const ENTRY_BYTES: usize = 170;

// The number and name of a refusal.
fn name_of(why: Why) -> &'static [u8]
    ensures text { result.now ≡ why_name why }
    ensures short { length result.now ≤ 25 }
{
    match why {
        Why::FirmExists => b"1 firm-exists",
        Why::FirmsFull => b"2 firms-full",
        Why::UnknownFirm => b"3 unknown-firm",
        Why::SameFirm => b"4 same-firm",
        Why::ClaimExists => b"5 claim-exists",
        Why::ClaimsFull => b"6 claims-full",
        Why::UnknownClaim => b"7 unknown-claim",
        Why::NotDebtor => b"8 not-debtor",
        Why::WrongState => b"9 wrong-state",
        Why::Frozen { .. } => b"10 frozen",
        Why::OverOpen => b"11 over-open",
        Why::OverCeiling => b"12 over-ceiling",
        Why::BelowFloor => b"13 below-floor",
        Why::LimitsExcludeBalance => b"14 limits-exclude-balance",
        Why::RoundOpen { .. } => b"15 round-open",
        Why::NoRound => b"16 no-round",
        Why::NotOwner { .. } => b"17 not-owner",
        Why::Device { .. } => b"18 device",
        Why::NotProved => b"19 not-proved",
        Why::OverAmount => b"20 over-amount",
    }
}

fn write_balance(buffer: &mut Vec<u8>, cents: i64)
    requires small { unsigned_abs cents < SUM_LIMIT }
    requires spare { vec_len buffer.old + 20 ≤ vec_capacity buffer.old }
    ensures { Writes buffer.old buffer.new (signed_cents_text cents) 20 }
{
    let size = cents.unsigned_abs();
    if cents < 0 {
        put(buffer, b"-");
        write_sum(buffer, size);
    } else {
        write_sum(buffer, size);
    }
}

fn write_named_sum(buffer: &mut Vec<u8>, name: &[u8], cents: u64)
    requires small { cents < SUM_LIMIT }
    requires spare { vec_len buffer.old + (length name.now + 19) ≤ vec_capacity buffer.old }
    ensures { Writes buffer.old buffer.new (name.now ++ cents_text cents) (length name.now + 19) }
{
    put(buffer, name);
    write_sum(buffer, cents);
}

fn write_position(buffer: &mut Vec<u8>, position: &Position)
    requires balance { unsigned_abs position.now.balance < SUM_LIMIT }
    requires receivable { position.now.receivable < SUM_LIMIT }
    requires payable { position.now.payable < SUM_LIMIT }
    requires spare { vec_len buffer.old + REPLY_BYTES ≤ vec_capacity buffer.old }

    // The text of the position stands behind what there was.
    ensures { Writes buffer.old buffer.new (position_text position.now) REPLY_BYTES }
{
    put(buffer, b"balance ");
    write_balance(buffer, position.balance);
    write_named_sum(buffer, b" receivable ", position.receivable);
    write_named_sum(buffer, b" payable ", position.payable);
}

// A space and a number.
fn write_spaced(buffer: &mut Vec<u8>, number: u64)
    requires { vec_len buffer.old + 21 ≤ vec_capacity buffer.old }
    ensures { Writes buffer.old buffer.new (spaced number) 21 }
{
    put(buffer, b" ");
    write_whole(buffer, number);
}

// A word, a space and the number of a round.
fn write_round(buffer: &mut Vec<u8>, word: &[u8], round: u32)
    requires short { length word.now ≤ 9 }
    requires spare { vec_len buffer.old + 30 ≤ vec_capacity buffer.old }
    ensures { Writes buffer.old buffer.new (word.now ++ spaced round) 30 }
{
    put(buffer, word);
    write_spaced(buffer, u64::from(round));
}

// The numbers that a refusal tells.
fn write_numbers(buffer: &mut Vec<u8>, why: Why)
    requires { vec_len buffer.old + 42 ≤ vec_capacity buffer.old }
    ensures { Writes buffer.old buffer.new (why_numbers why) 42 }
{
    match why {
        Why::Frozen { round } | Why::RoundOpen { round } | Why::NotOwner { round } => {
            write_spaced(buffer, u64::from(round))
        }
        Why::Device { before, after } => write_counts(buffer, before, after),
        _ => {}
    }
}

fn write_counts(buffer: &mut Vec<u8>, before: u64, after: u64)
    requires { vec_len buffer.old + 42 ≤ vec_capacity buffer.old }
    ensures { Writes buffer.old buffer.new (spaced before ++ spaced after) 42 }
{
    write_spaced(buffer, before);
    write_spaced(buffer, after);
}

fn write_refusal(buffer: &mut Vec<u8>, why: Why)
    requires { vec_len buffer.old + 80 ≤ vec_capacity buffer.old }
    ensures { Writes buffer.old buffer.new (codes "refused " ++ why_text why) 80 }
{
    put(buffer, b"refused ");
    put(buffer, name_of(why));
    write_numbers(buffer, why);
}

/// Writes the text of a reply: at most `REPLY_BYTES`. The caller gives as many bytes of room behind what the buffer has, and so
/// there is no error.
///
/// The amounts of a position, and the total of a publication, are below 10^18 cents in size.
pub fn write_reply(buffer: &mut Vec<u8>, reply: &Reply)
    requires range { IsReplyInRange reply.now }
    requires spare { vec_len buffer.old + REPLY_BYTES ≤ vec_capacity buffer.old }
    ensures { Writes buffer.old buffer.new (reply_text reply.now) REPLY_BYTES }
{
    match reply {
        Reply::Done => put(buffer, b"ok"),
        Reply::Position(position) => write_position(buffer, position),
        Reply::Opened { round } => write_round(buffer, b"opened", *round),
        Reply::Continued { round } => write_round(buffer, b"continued", *round),
        Reply::Published { total } => write_named_sum(buffer, b"published ", *total),
        Reply::Abandoned { round } => write_round(buffer, b"abandoned", *round),
        Reply::Refused(why) => write_refusal(buffer, *why),
    }
}

// The number of a caller, which has at most 10 digits.
fn write_caller(buffer: &mut Vec<u8>, caller: u32)
    requires { vec_len buffer.old + 20 ≤ vec_capacity buffer.old }
    ensures { Writes buffer.old buffer.new (decimal caller) 10 }
{
    write_whole(buffer, u64::from(caller));
}

// The text `REQUEST = REPLY` of an entry.
fn write_entry(buffer: &mut Vec<u8>, entry: &Entry)
    requires valid { is_valid entry.now.act ≡ true }
    requires range { IsReplyInRange entry.now.reply }
    requires spare { vec_len buffer.old + ENTRY_BYTES ≤ vec_capacity buffer.old }
    ensures { Writes buffer.old buffer.new (entry_text entry.now) ENTRY_BYTES }
{
    write_act(buffer, &entry.act);
    put(buffer, b" = ");
    write_reply(buffer, &entry.reply);
}

/// Writes the line `caller @POOL REQUEST = REPLY` of an entry of a pool, without `@POOL` where the pool is MAIN, with its line
/// feed: at most `LINE_BYTES`. The caller gives as many bytes of room behind what the buffer has, and so there is no error.
///
/// The amounts of a position, and the total of a publication, are below 10^18 cents in size.
pub fn write_member(buffer: &mut Vec<u8>, pool: &Name, entry: &Entry)
    requires valid { is_valid entry.now.act ≡ true }
    requires range { IsReplyInRange entry.now.reply }
    requires spare { vec_len buffer.old + LINE_BYTES ≤ vec_capacity buffer.old }

    // The line of the entry stands behind what there was.
    ensures { Writes buffer.old buffer.new (entry_line (member_of pool.now entry.now)) LINE_BYTES }
{
    write_caller(buffer, entry.caller);
    put(buffer, b" ");
    write_pool(buffer, pool);
    write_entry(buffer, entry);
    put(buffer, b"\n");
}

/// Writes the line of a member of the history, as `write_member` does.
pub fn write_pool_entry(buffer: &mut Vec<u8>, entry: &PoolEntry)
    requires valid { is_valid entry.now.entry.act ≡ true }
    requires range { IsReplyInRange entry.now.entry.reply }
    requires spare { vec_len buffer.old + LINE_BYTES ≤ vec_capacity buffer.old }

    // The line of the entry stands behind what there was.
    ensures { Writes buffer.old buffer.new (entry_line entry.now) LINE_BYTES }
{
    write_member(buffer, &entry.pool, &entry.entry);
}
