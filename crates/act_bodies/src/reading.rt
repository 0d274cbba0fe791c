//! Reading a body.
ghost use Rattle.std.specs.Prelude.{◌≡◌, true, slice_index, IfOk, OnErr, MatchOption};
ghost use Rattle.act_bodies.specs.Bodies.{body_of, is_keepable, HasPublishTag, IsNoBody};
ghost use Rattle.act_bodies.specs.Reading.{Reads, act_at, call_at, pool_at};

use crate::acts::take_fields;
use crate::fields::{take_name, take_u32};
use crate::kept::can_be_kept;
use crate::outcomes::take_publish;
use crate::tag;
use claim_history::{Act, Call, is_main, main_pool_name};
use setoff_model::Name;
use std::alloc::{AllocError, Global};

/// The call that has this body: None exactly where no call that can be kept has it.
///
/// The only error is running out of memory, for the lists of a publication. No other body takes memory.
pub fn read_body(alloc: Global, body: &[u8]) -> Result<Option<Call>, AllocError>
    ensures found { IfOk result (λ found. MatchOption found (IsNoBody body.now)
        (λ call. (is_keepable call ≡ true) × (body_of call ≡ body.now))) }
    ensures memory { OnErr result (HasPublishTag body.now) }
{
    call_of(alloc, body)
}

#[tactic(auto, unfolding(crate::specs::Reading::call_at))]
fn call_of(alloc: Global, body: &[u8]) -> Result<Option<Call>, AllocError>
    ensures found { IfOk result (λ found. Reads (λ call. call) found (call_at body.now)) }
    ensures memory { OnErr result (HasPublishTag body.now) }
{
    let Some((caller, rest)) = take_u32(body) else {
        return Ok(None);
    };
    let Some((pool, rest)) = take_pool(rest) else {
        return Ok(None);
    };
    let Some((act, rest)) = take_act(alloc, rest)? else {
        return Ok(None);
    };
    let call = Call { caller, pool, act };
    if !rest.is_empty() || !can_be_kept(&call) {
        return Ok(None);
    }
    Ok(Some(call))
}

// The pool behind its tag, else MAIN.
#[tactic(auto, unfolding(crate::specs::Reading::pool_at))]
fn take_pool(bytes: &[u8]) -> Option<(Name, &[u8])>
    ensures { Reads (λ x. (x.0, x.1.now)) result (pool_at bytes.now) }
{
    let [tag, rest @ ..] = bytes else {
        return None;
    };
    if *tag != tag::POOL {
        return Some((main_pool_name(), bytes));
    }
    let Some((pool, rest)) = take_name(rest) else {
        return None;
    };
    if is_main(&pool) {
        return None;
    }
    Some((pool, rest))
}

// The tag and the fields.
#[tactic(auto, unfolding(crate::specs::Reading::act_at))]
fn take_act(alloc: Global, bytes: &[u8]) -> Result<Option<(Act, &[u8])>, AllocError>
    ensures found { IfOk result (λ found. Reads (λ x. (x.0, x.1.now)) found (act_at bytes.now)) }
    ensures memory { OnErr result (slice_index bytes.now 0 ≡ 14) }
{
    let [tag, rest @ ..] = bytes else {
        return Ok(None);
    };
    if *tag == tag::PUBLISH {
        return take_publish(alloc, rest);
    }
    Ok(take_fields(*tag, rest))
}
