//! A chain is found and taken off what is left.
ghost use Rattle.std.specs.Prelude.{◌≡◌, ◌⊎◌, ℕ, ◌<◌, IsTrue, slice_index};
ghost use Rattle.setoff_model.specs.CutView.{WellFormed, obligations};
ghost use Rattle.chain_explain.specs.Chains.{IsChainOf, chain_view};
ghost use Rattle.chain_explain.specs.Walks.{IsLeft, IsListed, IsWalk, IsOrigin, IsBackAt, IsThrough, IsBetween};
ghost use Rattle.chain_explain.specs.Walks.{IsTaken, HasWay, last_chain};

use crate::advice::Advice;
use crate::chain::Chain;
use crate::left::{Left, origin};
use crate::listed::Listed;
use crate::lowering::{take_closed, take_open};
use crate::walk::{Walk, walk_on};
use setoff_model::Cut;

// Begins a walk where none has begun, at the debtor of the advised claim where that can be. False where all is explained.
pub(crate) fn begin(cut: &Cut, left: &mut Left, walk: &mut Walk, advised: usize) -> bool
    requires cut { WellFormed cut.now }
    requires between { IsBetween (obligations cut.now) left.old walk.old }

    // What is left to be explained stays as it was.
    ensures left { IsLeft (obligations cut.now) left.new }
    ensures rests { left.new.rests.items ≡ left.old.rests.items }
    ensures begins { left.new.begins.items ≡ left.old.begins.items }
    ensures ends { left.new.ends.items ≡ left.old.ends.items }

    // Where one has begun it is a walk. Its claims stay as they were either way.
    ensures walk { IsTrue result → IsWalk (obligations cut.now) left.old.rests.items walk.new }
    ensures path { walk.new.path ≡ walk.old.path }
    ensures walked { walk.new.walked ≡ walk.old.walked }
    ensures end { walk.new.end ≡ walk.old.end }

    // The walk begins where a chain may begin, and has a claim or can go over one.
    ensures origin { IsTrue result → IsOrigin left.old walk.new.from }
    ensures way { IsTrue result → (0 < walk.new.walked) ⊎ HasWay (obligations cut.now) left.old.rests.items walk.new.at }

    // Else all is explained, and the walk is as before.
    ensures no_rests { (IsTrue result → ⊥) → (c : ℕ) → slice_index left.old.rests.items c ≡ 0 }
    ensures no_begins { (IsTrue result → ⊥) → (f : ℕ) → slice_index left.old.begins.items f ≡ 0 }
    ensures none { (IsTrue result → ⊥) → walk.new ≡ walk.old }
{
    if walk.walked > 0 {
        return true;
    }
    match origin(cut, left, advised) {
        Some(party) => {
            walk.from = party;
            walk.at = party;
            true
        }
        None => false,
    }
}

// Walks on to the end of a chain, and takes it off what is left.
pub(crate) fn give(
    cut: &Cut,
    left: &mut Left,
    listed: &mut Listed,
    walk: &mut Walk,
    advice: &mut Advice,
) -> Chain
    requires cut { WellFormed cut.now }
    requires left { IsLeft (obligations cut.now) left.old }
    requires listed { IsListed (obligations cut.now) left.old.rests.items listed.old }
    requires walk { IsWalk (obligations cut.now) left.old.rests.items walk.old }

    // The walk begins where a chain may begin, and has a claim or can go over one.
    requires origin { IsOrigin left.old walk.old.from }
    requires way { (0 < walk.old.walked) ⊎ HasWay (obligations cut.now) left.old.rests.items walk.old.at }

    // The chain is one of the cut, and was taken off what is left.
    ensures between { IsBetween (obligations cut.now) left.new walk.new }
    ensures listed { IsListed (obligations cut.now) left.new.rests.items listed.new }
    ensures chain { IsChainOf (obligations cut.now) (chain_view result (last_chain walk.new)) }
    ensures taken { IsTaken (obligations cut.now) left.old (chain_view result (last_chain walk.new)) left.new }
{
    advice.seek(cut, left, walk.at);
    match walk_on(cut, left, listed, walk, advice) {
        Some(place) => give_closed(cut, left, walk, place),
        None => give_open(cut, left, walk),
    }
}

// Takes the end of the walk off what is left, from the debtor on at which the walk is again.
fn give_closed(cut: &Cut, left: &mut Left, walk: &mut Walk, place: usize) -> Chain
    requires cut { WellFormed cut.now }
    requires left { IsLeft (obligations cut.now) left.old }

    // The walk is again at the debtor of its claim at the place.
    requires walk { IsWalk (obligations cut.now) left.old.rests.items walk.old }
    requires origin { IsOrigin left.old walk.old.from }
    requires back { IsBackAt (obligations cut.now) walk.old place }

    // The chain is one of the cut, and was taken off what is left.
    ensures between { IsBetween (obligations cut.now) left.new walk.new }
    ensures chain { IsChainOf (obligations cut.now) (chain_view result (last_chain walk.new)) }
    ensures taken { IsTaken (obligations cut.now) left.old (chain_view result (last_chain walk.new)) left.new }
{
    let amount = take_closed(cut, left, &walk.path[place..walk.walked]);
    walk.end = walk.walked;
    walk.walked = place;
    Chain {
        closed: true,
        amount,
    }
}

// Takes the whole walk off what is left.
fn give_open(cut: &Cut, left: &mut Left, walk: &mut Walk) -> Chain
    requires cut { WellFormed cut.now }
    requires left { IsLeft (obligations cut.now) left.old }
    requires walk { IsWalk (obligations cut.now) left.old.rests.items walk.old }
    requires through { IsThrough (obligations cut.now) left.old walk.old }

    // The chain is one of the cut, and was taken off what is left.
    ensures between { IsBetween (obligations cut.now) left.new walk.new }
    ensures chain { IsChainOf (obligations cut.now) (chain_view result (last_chain walk.new)) }
    ensures taken { IsTaken (obligations cut.now) left.old (chain_view result (last_chain walk.new)) left.new }
{
    let amount = take_open(cut, left, &walk.path[..walk.walked], walk.from, walk.at);
    walk.end = walk.walked;
    walk.walked = 0;
    Chain {
        closed: false,
        amount,
    }
}
