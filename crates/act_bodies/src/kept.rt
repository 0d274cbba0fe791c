//! Which calls a journal keeps.
ghost use Rattle.std.specs.Prelude.{◌≡◌};
ghost use Rattle.setoff_model.specs.Names.{is_name};
ghost use Rattle.claim_history.specs.Acts.{is_abandonment};
ghost use Rattle.act_bodies.specs.Bodies.{is_keepable};

use claim_history::{Act, Call};
use setoff_model::Name;

/// Whether a journal can keep the call: its act is valid, and caller 0, the bureau itself, does nothing but abandon.
#[tactic(auto, unfolding(crate::specs::Bodies::is_keepable))]
pub fn can_be_kept(call: &Call) -> bool
    ensures { result ≡ is_keepable call.now }
{
    has_name(&call.pool) && call.act.valid() && (call.caller >= 1 || abandons(&call.act))
}

// A name is valid by its type, which the call tells.
fn has_name(pool: &Name) -> bool
    ensures { result ≡ is_name pool.now }
{
    let _name = pool.bytes();
    true
}

fn abandons(act: &Act) -> bool
    ensures { result ≡ is_abandonment act.now }
{
    matches!(act, Act::Abandon)
}
