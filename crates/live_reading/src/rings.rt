//! The ends by which lanes are handed their lines.
ghost use Rattle.std.specs.Prelude.{◌≡◌, ◌≤◌, length, true, false, All};
ghost use Rattle.served_lines.specs.claim_history.specs.Acts.{is_request};
ghost use Rattle.live_reading.specs.Rings.{AreMarked, HasHanded, HasRoom, HasSent, IsOpen};
ghost use Rattle.live_reading.specs.declared.handed.Handed.TheVariants as handed;

use crate::handed::{Handed, InSegments};
use rtrb::Producer;
use served_lines::{Act, Request};
use setoff_model::Name;
use std::alloc::Global;
use std::thread::Parker;

/// The end by which a lane is handed lines. That of lane 1 is the first.
pub type Ring = Producer<Handed, Global, InSegments>;

/// Hands a line to its lane, wakes it, and answers whether that lane may be handed no other in the segment.
pub fn hand(rings: &mut [Ring], bells: &[Parker], request: Request) -> bool
    requires lane { (1 ≤ request.lane) × (request.lane ≤ length rings.old) }
    requires valid { is_request request.act ≡ true }
    requires open { All IsOpen rings.old }

    // It is handed to its lane alone.
    ensures handed { HasHanded rings.old rings.new request }
    ensures open { result ≡ false → All IsOpen rings.new }
    ensures room { All HasRoom rings.new }
{
    let Request {
        line,
        lane,
        pool,
        act,
    } = request;
    let at = lane as usize - 1;
    let last = hand_to(&mut rings[at], line, pool, act);
    wake(bells, at);
    last
}

// Hands a line to the lane of a ring.
fn hand_to(ring: &mut Ring, line: u64, pool: Name, act: Act) -> bool
    requires valid { is_request act ≡ true }
    requires open { IsOpen ring.old }

    // It is the last that the lane was handed.
    ensures handed { HasSent ring.old ring.new (handed.Line line pool act) }
    ensures open { result ≡ false → IsOpen ring.new }
    ensures room { HasRoom ring.new }
{
    ring.push_reserved(Handed::Line { line, pool, act });
    ring.cached_slots() == 1
}

/// Marks the end of a segment in each ring, and wakes each lane.
pub fn mark(rings: &mut [Ring], bells: &[Parker])
    requires { All HasRoom rings.old }
    ensures { AreMarked rings.old rings.new }
{
    for k in 0..rings.len() {
        rings[k].push_reserved(Handed::End);
        wake(bells, k);
    }
}

// Wakes the lane of this place, where it sleeps by a bell.
fn wake(bells: &[Parker], at: usize) {
    if let Some(bell) = bells.get(at) {
        bell.unpark();
    }
}
