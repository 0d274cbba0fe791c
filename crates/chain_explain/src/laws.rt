//! What the chains of an explainer come to.
ghost use Rattle.chain_explain.specs.Explained.{ChainsLaw};

/// The chains that an explainer gives, up to the first `None`, explain the outcome that it was made for.
///
/// They add up to the discharge of each claim, and to what each party spends and receives, and there are at most as many
/// of them as claims and parties together.
pub fn chains_explain()
    ensures { ChainsLaw }
{}
