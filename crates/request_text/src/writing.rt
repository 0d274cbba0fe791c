//! Writing requests.
ghost use Rattle.std.specs.Prelude.{◌≡◌, ◌+◌, ◌≤◌, true, vec_len, vec_capacity};
ghost use Rattle.setoff_model.specs.declared.limits.TheConstants.{LINE_BYTES};
ghost use Rattle.setoff_model.specs.Writing.{Writes};
ghost use Rattle.claim_history.specs.Acts.{is_request};
ghost use Rattle.request_text.specs.Grammar.{request_line};
ghost use Rattle.request_text.specs.Lanes.{IsLane};
ghost use Rattle.request_text.specs.Pools.{pool_text};

use claim_history::{Act, is_main, write_act};
use setoff_model::{Name, put, write_whole};

/// Writes the field `@POOL` with a space behind it, at most 18 bytes, or nothing where the pool is MAIN, into a buffer that has
/// room. It takes no memory.
pub fn write_pool(buffer: &mut Vec<u8>, pool: &Name)
    requires spare { vec_len buffer.old + 18 ≤ vec_capacity buffer.old }
    ensures { Writes buffer.old buffer.new (pool_text pool.now) 18 }
{
    if !is_main(pool) {
        put(buffer, b"@");
        put(buffer, pool.bytes());
        put(buffer, b" ");
    }
}

/// Writes the line `lane @POOL VERB fields` of what is asked of a lane with its line feed, without `@POOL` where the pool is
/// MAIN: at most `LINE_BYTES`, into a buffer that has room. It takes no memory.
pub fn write_request(buffer: &mut Vec<u8>, lane: u32, pool: &Name, act: &Act)
    requires lane { IsLane lane }
    requires valid { is_request act.now ≡ true }
    requires spare { vec_len buffer.old + LINE_BYTES ≤ vec_capacity buffer.old }
    ensures { Writes buffer.old buffer.new (request_line lane pool.now act.now) LINE_BYTES }
{
    write_whole(buffer, u64::from(lane));
    put(buffer, b" ");
    write_pool(buffer, pool);
    write_act(buffer, act);
    put(buffer, b"\n");
}
