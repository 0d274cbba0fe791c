//! The memory for a batch of an input that is still read.
ghost use Rattle.std.specs.Prelude.{◌≡◌, ◌+◌, ◌<◌, ◌≤◌, [], IfOk, length, vec_capacity};
ghost use Rattle.setoff_model.specs.declared.limits.TheConstants.{MOST_LANES, MOST_INPUT_BYTES};
ghost use Rattle.live_intake.specs.Rooms.{ArePlaces, IsPlace, IsRoom};

use crate::lane::{LiveLane, RingEnd};
use lane_runner::{Answer, Desk, Disk, Place, Request, lanes_and_seats};
use live_reading::{InSegments, MOST_ASKED, MOST_HANDED, Ring};
use rtrb::RingBuffer;
use setoff_model::limits::MOST_LANES;
use std::alloc::{AllocError, Global};
use std::thread::Parker;
use turn_lock::Seat;

/// The memory that a batch takes, with that for the answers of the lines that were taken before it.
pub struct LiveRoom<D: Disk> {
    pub rings: Vec<Ring>,
    pub places: Vec<Place<RingEnd>>,
    pub bells: Vec<Parker>,
    pub requests: Vec<Request>,
    pub answers: Vec<Answer>,
    pub lanes: Vec<LiveLane<D>>,
    pub seats: Vec<Seat<Desk<D>>>,
}

impl<D: Disk> LiveRoom<D> {
    /// The room for a batch, before which so many bytes were taken and not read. The only error is that memory is missing.
    pub fn make(alloc: Global, left: usize) -> Result<LiveRoom<D>, AllocError>
        requires { left ≤ MOST_INPUT_BYTES + 1 }
        ensures room { IfOk result IsRoom }
        ensures answers { IfOk result (λ r. left < vec_capacity r.answers) }
    {
        let (rings, places) = rings_and_places(alloc)?;
        let bells = bells(alloc)?;
        let requests = Vec::with_capacity(alloc, MOST_ASKED)?;
        let answers = Vec::with_capacity(alloc, left + 1)?;
        let (lanes, seats) = lanes_and_seats(alloc)?;
        Ok(LiveRoom {
            rings,
            places,
            bells,
            requests,
            answers,
            lanes,
            seats,
        })
    }

    /// Gives the memory back, where no lane was made.
    pub fn free(self)
        requires lanes { self.lanes.items ≡ [] }
        requires seats { self.seats.items ≡ [] }
    {
        let LiveRoom {
            rings: _,
            places: _,
            bells: _,
            requests: _,
            answers: _,
            lanes,
            seats,
        } = self;
        lanes.destroy_empty();
        seats.destroy_empty();
    }
}

// The rings of all lanes, and beside each the place of its lane.
fn rings_and_places(alloc: Global) -> Result<(Vec<Ring>, Vec<Place<RingEnd>>), AllocError>
    ensures { IfOk result (λ r. (length r.1.items ≡ MOST_LANES) × ArePlaces r.0.items r.1.items) }
{
    let mut rings = Vec::with_capacity(alloc, MOST_LANES)?;
    let mut places = Vec::with_capacity(alloc, MOST_LANES)?;
    while places.len() < MOST_LANES {
        let (ring, place) = one_place(alloc)?;
        rings.push_reserved(ring);
        places.push_reserved(place);
    }
    Ok((rings, places))
}

// One of them, with room for what comes of the lines of a segment.
fn one_place(alloc: Global) -> Result<(Ring, Place<RingEnd>), AllocError>
    ensures { IfOk result (λ r. IsPlace r.0 r.1) }
{
    let (ring, queue) = RingBuffer::with_protocol::<Global, InSegments>(alloc, MOST_HANDED + 1)?;
    let ends = Vec::with_capacity(alloc, MOST_HANDED)?;
    Ok((ring, Place { queue, ends }))
}

// What wakes the lanes, one for each.
fn bells(alloc: Global) -> Result<Vec<Parker>, AllocError> {
    let mut bells = Vec::with_capacity(alloc, MOST_LANES)?;
    for _ in 0..MOST_LANES {
        bells.push(Parker::new())?;
    }
    Ok(bells)
}
