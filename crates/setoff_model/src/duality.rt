//! Why prices prove that a set-off is greatest.
ghost use Rattle.setoff_model.specs.Setoff.{WeakDuality, AsWritten};
ghost use Rattle.setoff_model.specs.CutView.{LawfulFits, SumsAreBounded};
ghost use Rattle.setoff_model.specs.ProofTest.{ProofTestLaw};
ghost use Rattle.setoff_model.specs.Slackness.{Slackness};
ghost use Rattle.setoff_model.specs.Squeezing.{SqueezingKeeps, SqueezedIsOne, NarrowingKeeps};
ghost use Rattle.setoff_model.specs.Weighted.{WeightedDuality, WeightedSlackness, WeightedSumsAreBounded, WeightsOfOne};

/// The law behind every published round: weak duality of linear programming, for circulations.
///
/// A call does nothing. By its clauses every lawful total is at most the bound of every price list,
/// so a set-off that is proved by prices is greatest, whatever the cut. The words of the bound are the
/// formulas that they are named for, lawful discharges of a well-formed cut have a total, and no sum
/// of a well-formed cut reaches 2^80.
pub fn weak_duality()
    ensures laws { WeakDuality }
    ensures as_written { AsWritten }
    ensures fits { LawfulFits }
    ensures bounded { SumsAreBounded }
{}

/// The test `is_proved`, which computes, is true exactly where prices prove discharges. A law, which does nothing when
/// it is called.
pub fn proofs_are_decided()
    ensures { ProofTestLaw }
{}

/// The law by which a solver knows its end: complementary slackness, for circulations.
///
/// A call does nothing. By its clause the total of a lawful set-off equals the bound of prices exactly where each claim
/// with `1 + price of the debtor - price of the creditor` above 0 is discharged whole, each claim where that is below 0
/// not at all, each party with a price above 0 has used its room, and each with a price below 0 its spend.
pub fn slackness()
    ensures { Slackness }
{}

/// The law behind squeezed prices: what the prices prove, they prove, each of n prices from -n to n.
///
/// A call does nothing. By its clauses the facts of `slackness` still hold of squeezed prices, and where the total of a
/// lawful set-off equals the bound of prices, the squeezed ones prove it. There is one way to squeeze prices.
pub fn squeezing_keeps_proofs()
    ensures keeps { SqueezingKeeps }
    ensures one { SqueezedIsOne }
{}

/// The same where a cent of one claim counts more than a cent of another: by weights from 1 to 9, one for each claim.
///
/// A call does nothing. By its clauses every lawful weighted total is at most the weighted bound of every price list, so a
/// set-off that is proved by prices is greatest by these weights. The total is the bound exactly where each claim with
/// `weight + price of the debtor - price of the creditor` above 0 is discharged whole, each where that is below 0 not at all,
/// and the windows are used up as in `slackness`. No sum of a well-formed cut reaches 2^84. Where each weight is 1, totals,
/// bounds, greatest set-offs and proofs are those of claims without weights.
pub fn weighted_duality()
    ensures laws { WeightedDuality }
    ensures slackness { WeightedSlackness }
    ensures bounded { WeightedSumsAreBounded }
    ensures of_one { WeightsOfOne }
{}

/// The law of gaps between prices that are narrowed to the largest weight, and to no less: what the prices prove of weighted
/// claims, they prove.
///
/// A call does nothing.
pub fn narrowing_keeps_proofs()
    ensures { NarrowingKeeps }
{}
