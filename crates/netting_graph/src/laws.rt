//! Why a set-off may be found on the net of a cut.
ghost use Rattle.netting_graph.specs.MergingLaw.{MergedLaw, SpreadLaw, BoundLaw, FlowsAreBounded};

/// The law behind every net: a cut and its net have the same set-offs.
///
/// A call does nothing. By its clauses the discharges of the claims, summed for each arc, are a flow of the net with
/// the same total, the same is discharged towards and by each party, and a lawful one stays lawful. The same holds of
/// a flow of the net that is spread over the claims. The bound of a price list is the same for both, so a flow whose
/// total is the bound is spread to discharges whose total is the bound, and a greatest flow to a greatest set-off.
/// No sum over a lawful flow of a net reaches 2^58 cents.
pub fn merging_keeps_setoffs()
    ensures merged { MergedLaw }
    ensures spread { SpreadLaw }
    ensures bound { BoundLaw }
    ensures bounded { FlowsAreBounded }
{}
