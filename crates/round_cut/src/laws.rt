//! Why the cut of a history may be made of its facts.
ghost use Rattle.round_cut.specs.Windows.{WindowsLaw};
ghost use Rattle.round_cut.specs.CutLaw.{BuiltCutLaw, FactsLaw, FormedLaw, OpenFormedLaw};

/// After a legal history of valid acts, what it says of claims and accounts meets what `build_cut` asks for, the cut
/// made of it is the history's, and so the history's cut is well formed. Where an account is within its limits, its
/// window in a funded round is the lesser of the offer and of balance and credit together, and the ceiling less the
/// balance. A law, which does nothing when it is called.
pub fn cut_of_a_history_is_of_its_facts()
    ensures cut { BuiltCutLaw }
    ensures facts { FactsLaw }
    ensures formed { FormedLaw }
    ensures windows { WindowsLaw }
{}

/// The cut of the open round of a legal history of valid acts is well formed. A law, which does nothing when it is called.
pub fn open_cut_is_well_formed()
    ensures { OpenFormedLaw }
{}
