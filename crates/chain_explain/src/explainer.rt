//! The chains of an outcome, one after another.
ghost use Rattle.std.specs.Prelude.{◌≡◌, ◌↔◌, IfOk, MatchOption, IsNone};
ghost use Rattle.setoff_model.specs.CutView.{obligations};
ghost use Rattle.chain_explain.specs.Chains.{chain_view};
ghost use Rattle.chain_explain.specs.Explained.{IsStart, IsDone, HasGiven};

use crate::advice::Advice;
use crate::chain::Chain;
use crate::giving::{begin, give};
use crate::left::Left;
use crate::listed::{Listed, claims_listed};
use crate::start::left_at_start;
use crate::walk::Walk;
use setoff_checker::Checked;
use setoff_model::Cut;
use std::alloc::{AllocError, Global};
use std::marker::Model;

/// Cuts a proved outcome into chains, one at each call of `next`.
///
/// It holds the cut, the rest of each claim that no chain has discharged yet, and for each party what is still to begin
/// and to end at it by open chains.
#[derive(Drop)]
pub struct Explainer {
    cut: Cut,
    left: Left,
    listed: Listed,
    walk: Walk,
    advice: Advice,
}

// Contracts see the cut, the three lists of numbers and the claims of the last chain.
impl Model for Explainer {
    ghost use Rattle.chain_explain.specs.Explained.{ExplainerView};

    ghost Value = { ExplainerView };

    ghost use Rattle.chain_explain.specs.Walks.{IsExplainer, last_chain};

    ghost view = { λ e. record {
      cut = e.cut;
      rests = e.left.rests.items;
      begins = e.left.begins.items;
      ends = e.left.ends.items;
      claims = last_chain e.walk;
    } };

    ghost invariant = { λ e. IsExplainer e.cut e.left e.listed e.walk };
}

impl Explainer {
    /// An explainer of the outcome, of which nothing is explained yet. The only error is running out of memory.
    pub fn for_round(alloc: Global, checked: Checked) -> Result<Explainer, AllocError>
        ensures { IfOk result (IsStart checked.cut checked.outcome.discharges) }
    {
        let (cut, outcome) = checked.parts();
        let parties = cut.parties().len();
        let left = left_at_start(alloc, &cut, outcome.discharges())?;
        let listed = claims_listed(alloc, &cut)?;
        let path = vec![in alloc; 0u32; parties]?;
        let marks = vec![in alloc; 0usize; parties]?;
        let advice = Advice::new(alloc, &cut, &left.rests)?;
        Ok(Explainer {
            cut,
            left,
            listed,
            walk: Walk {
                path,
                marks,
                from: 0,
                at: 0,
                walked: 0,
                end: 0,
            },
            advice,
        })
    }

    /// The next chain, whose claims are those of `claims`. None where all is explained. Takes no memory.
    ///
    /// Its amount is the largest that what is left allows: it leaves some claim without a rest, or nothing more to begin
    /// or to end at a party.
    pub fn next(&mut self) -> Option<Chain>
        ensures given { MatchOption result (self.new ≡ self.old)
            (λ chain. HasGiven (obligations self.old.cut) self.old (chain_view chain self.new.claims) self.new) }
        ensures none { IsNone result ↔ IsDone (obligations self.old.cut) self.old }
    {
        self.advice.note(&self.cut, &self.left, &self.walk);
        let advised = self.advice.first();
        if begin(&self.cut, &mut self.left, &mut self.walk, advised) {
            Some(give(
                &self.cut,
                &mut self.left,
                &mut self.listed,
                &mut self.walk,
                &mut self.advice,
            ))
        } else {
            None
        }
    }

    /// The cut whose round is explained. Takes no memory.
    pub fn cut(&self) -> &Cut
        ensures { result.now ≡ self.now.cut }
    {
        &self.cut
    }

    /// The places of the claims of the last chain, in its order. It is empty before the first. Takes no memory.
    pub fn claims(&self) -> &[u32]
        ensures { result.now ≡ self.now.claims }
    {
        &self.walk.path[self.walk.walked..self.walk.end]
    }
}
