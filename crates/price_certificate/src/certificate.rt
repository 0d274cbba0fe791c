//! The outcome of what a solver finds.
ghost use Rattle.std.specs.Prelude.{IfOk};
ghost use Rattle.setoff_model.specs.Setoff.{Proves, IsOldestFirst};
ghost use Rattle.setoff_model.specs.CutView.{obligations};
ghost use Rattle.setoff_model.specs.Squeezing.{IsSqueezed};
ghost use Rattle.flow_solver.specs.netting_graph.specs.Merging.{IsNetOf, IsSpread};
ghost use Rattle.flow_solver.specs.Solution.{IsSolution};

use flow_solver::{Flow, Net, spread, squeeze};
use setoff_model::{Cut, Outcome};
use std::alloc::{AllocError, Global};

/// The outcome of a cut by what a solver found of its net: the flows are spread over the claims, and the prices are squeezed.
///
/// The net is that of the cut, and the flow is one that a `Solver` may give for it. The outcome's prices prove that its
/// discharges are greatest for the cut, and of two claims of one debtor and one creditor the earlier is filled first.
/// The only error is running out of memory.
pub fn outcome_of(alloc: Global, cut: &Cut, net: &Net, flow: Flow) -> Result<Outcome, AllocError>
    requires net { IsNetOf cut.now net.now }
    requires flow { IsSolution net.now flow }

    // The outcome is proved greatest, and made of the flows and the prices.
    ensures proved { IfOk result (λ outcome. Proves (obligations cut.now) outcome.discharges outcome.prices) }
    ensures oldest_first { IfOk result (λ outcome. IsOldestFirst (obligations cut.now) outcome.discharges) }
    ensures spread { IfOk result (λ outcome. IsSpread cut.now net.now flow.flows outcome.discharges) }
    ensures squeezed { IfOk result (λ outcome. IsSqueezed flow.prices outcome.prices) }
{
    let (flows, mut prices) = flow.into_parts();
    squeeze(alloc, &mut prices)?;
    let discharges = spread(alloc, cut, net, &flows)?;
    Ok(Outcome::new(discharges, prices))
}
