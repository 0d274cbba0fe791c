//! One lane that is run.
ghost use Rattle.std.specs.Prelude.{◌≡◌, true, All};
ghost use Rattle.shared_bureau.specs.claim_history.specs.Acts.{is_request};
ghost use Rattle.lane_runner.specs.Lanes.{IsFit};
ghost use Rattle.lane_runner.specs.LanesServed.{HasServedLane};

use crate::gate::Gate;
use crate::lane::Lane;
use crate::line::serve;
use crate::service::Service;
use served_lines::Request;
use shared_bureau::{Disk, Pause, Solver};
use std::sync::Wait;

/// Serves in order the requests of one lane. The room for what comes of them is there.
pub fn run_lane<D: Disk, R: Wait, S: Solver, G: Gate, P: Pause>(
    service: &Service<D, R, S, G, P>,
    lane: &mut Lane<D, ()>,
    requests: &[Request],
)
    requires fit { IsFit service.now.shared.now.turn requests.now lane.old }
    requires valid { All (λ r. is_request r.act ≡ true) requests.now }
    ensures { HasServedLane service.now.shared.now.turn requests.now lane.old lane.new }
{
    for request in requests {
        if request.lane == lane.seat.number() {
            let end = serve(
                service.rt,
                service.alloc,
                service.shared,
                &mut lane.seat,
                request,
                service.solver,
                service.gate,
                service.pause,
            );
            lane.ends.push_reserved(end);
        }
    }
}
