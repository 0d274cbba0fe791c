//! One lane, while lines are handed to it.
ghost use Rattle.std.specs.Prelude.{◌≡◌, ◌++◌, ◌∷◌, []};
ghost use Rattle.rtrb.specs.Ring.{received, SameConsumer};
ghost use Rattle.live_reading.specs.Handing.{MayHand};
ghost use Rattle.live_intake.specs.Segments.{HasServedSegment, IsFitLiveLane};

use lane_runner::{Disk, Gate, Lane, Pause, Request, Service, Solver, serve};
use live_reading::{Handed, InSegments};
use rtrb::Consumer;
use std::alloc::Global;
use std::sync::Wait;
use std::thread::{self, Parker};

// How often a lane looks into its ring before it sleeps.
const MOST_LOOKS: u32 = 100;

/// The end of a ring by which a lane is handed its lines.
pub type RingEnd = Consumer<Handed, Global, InSegments>;

/// A lane that is handed its lines. It has what came of those of the last segment.
pub type LiveLane<D> = Lane<D, RingEnd>;

/// Serves in order the lines that the lane is handed, up to the end of the segment. It waits for each of them, and sleeps by its bell
/// where it has one.
pub fn serve_segment<D: Disk, R: Wait, V: Solver, G: Gate, P: Pause>(
    service: &Service<D, R, V, G, P>,
    bell: Option<&Parker>,
    lane: &mut LiveLane<D>,
)
    requires { IsFitLiveLane service.now.shared.now.turn lane.old }
    ensures { HasServedSegment service.now.shared.now.turn lane.old lane.new }
{
    lane.ends.clear();
    for _ in service.rt.forever() {
        match take(service.rt, bell, &mut lane.queue) {
            Handed::Line { line, pool, act } => {
                let request = Request {
                    line,
                    lane: lane.seat.number(),
                    pool,
                    act,
                };
                let end = serve(
                    service.rt,
                    service.alloc,
                    service.shared,
                    &mut lane.seat,
                    &request,
                    service.solver,
                    service.gate,
                    service.pause,
                );
                lane.ends.push_reserved(end);
            }
            Handed::End => return,
        }
    }
    unreachable!()
}

// Waits for what the lane is handed next.
//
// After a hundred looks into the ring it sleeps between one and the next. No wake-up is lost: whoever hands it something puts that into
// the ring first and gives the token of the bell then. A token stays until it is taken, and each time that one was taken the lane looks
// into the ring again. So of what came after the last look the token is still there, or wakes the lane; one that is older costs a look.
fn take<R: Wait>(rt: &R, bell: Option<&Parker>, ring: &mut RingEnd) -> Handed
    ensures same { SameConsumer ring.old ring.new }
    ensures taken { received ring.new ≡ received ring.old ++ result ∷ [] }
    ensures allowed { MayHand (received ring.old) result }
{
    let mut looks = 0;
    for _ in rt.forever() {
        if let Ok(handed) = ring.pop() {
            return handed;
        }
        if looks < MOST_LOOKS {
            looks += 1;
            thread::yield_now();
        } else {
            sleep(rt, bell);
        }
    }
    unreachable!()
}

// Sleeps until the bell has a token, and takes it. Where there is no bell, others have their turn.
fn sleep<R: Wait>(rt: &R, bell: Option<&Parker>) {
    match bell {
        Some(bell) => bell.park(rt),
        None => thread::yield_now(),
    }
}
