//! One batch of an input, served while it is read.
ghost use Rattle.std.specs.Prelude.{None, ◌≡◌, ◌-◌, ◌<◌, ◌≤◌, true, false, length, vec_capacity, IfSome};
ghost use Rattle.turn_lock.specs.Seats.{lock_of, made, registrar_view, registry};
ghost use Rattle.live_intake.specs.Live.{HasRunLive, HasServedLive};
ghost use Rattle.live_reading.specs.Reading.{HasPassed, HasTakenPiece};
ghost use Rattle.live_intake.specs.Rooms.{IsRoom};
ghost use Rattle.live_reading.specs.Sparing.{HasSpare};

use crate::room::LiveRoom;
use crate::segments::serve_segments;
use lane_runner::{
    Answer, Answers, BatchEnd, Desk, Disk, Gate, Pause, Service, Shared, Solver, seat_lanes, unseat,
};
use live_reading::{Intake, Source, Stop, pass_over};
use std::alloc::Global;
use std::sync::Wait;
use std::thread::Threads;
use turn_lock::{Registrar, Unmade};

const FENCE: &[u8] = b"FENCE\n";

/// The desk after a batch with what came of its lines, and why the batch ended.
#[derive(Drop)]
pub struct LiveEnd<D: Disk> {
    pub end: BatchEnd<D>,
    pub stop: Stop,
}

/// Serves one batch of an input while it is read: each line is handed to its lane as soon as it was read. The batch before it, if
/// there was one, has ended with a FENCE. The rounds of the desk are cleared first.
///
/// Fence, End and BadLine come where the batch ends so; Failed where the source failed, and counted it; TooLong where more bytes than
/// the limit were taken. Memory: there was none to read a line, or for what is taken next; the whole lines that stand before are the
/// batch. Without answers no line of the batch was asked: it has none, or there was no memory for that, and it ends by what had been
/// taken.
pub fn run_live<
    S: Source,
    D: Disk + Send + Sync,
    R: Threads + Wait + Sync,
    V: Solver + Sync,
    G: Gate + Sync,
    P: Pause + Sync,
>(
    rt: &R,
    alloc: Global,
    desk: Desk<D>,
    intake: &mut Intake,
    source: &mut S,
    solver: &V,
    gate: &G,
    pause: &P,
) -> LiveEnd<D>
    requires { intake.old.fenced ≡ true }
    ensures ran { HasRunLive D.seen S.left S.faults desk result.end.desk source.old source.new
        intake.old intake.new result.end.answers result.stop }
    ensures later { S.faults source.old ≤ S.faults source.new }
{
    let mut desk = desk;
    desk.clear_rounds();
    let _books = desk.books();
    intake.batches();
    intake.begin();
    let Some(room) = room_for(alloc, intake) else {
        return end_unserved(alloc, desk, intake);
    };
    match Shared::open(alloc, desk, 0) {
        Ok((shared, registrar, no_seats)) => {
            no_seats.destroy_empty();
            let (desk, answers, stop) = serve_live(
                rt, alloc, shared, registrar, room, intake, source, solver, gate, pause,
            );
            LiveEnd {
                end: BatchEnd {
                    desk,
                    answers: Some(Answers::of(answers)),
                },
                stop,
            }
        }
        Err(Unmade { value }) => {
            room.free();
            end_unserved(alloc, value, intake)
        }
    }
}

// The memory for a batch. None: it is missing, or a FENCE stands next, so that the batch has no lines and needs none.
fn room_for<D: Disk>(alloc: Global, intake: &Intake) -> Option<LiveRoom<D>>
    ensures room { IfSome result IsRoom }
    ensures answers { IfSome result (λ r. length intake.now.taken - intake.now.read < vec_capacity r.answers) }
{
    if intake.unread().starts_with(FENCE) {
        return None;
    }
    LiveRoom::make(alloc, intake.left()).ok()
}

// There is no line, or was no memory to serve one: the lines that had been taken are read, and not asked.
fn end_unserved<D: Disk>(alloc: Global, desk: Desk<D>, intake: &mut Intake) -> LiveEnd<D>
    requires { intake.old.fenced ≡ false }
    ensures end { result.end ≡ record { desk = desk; answers = None } }
    ensures passed { HasPassed intake.old intake.new result.stop }
{
    let stop = pass_over(alloc, intake);
    LiveEnd {
        end: BatchEnd {
            desk,
            answers: None,
        },
        stop,
    }
}

// Serves the lines of a batch, and gives the desk back with what came of them.
fn serve_live<
    S: Source,
    D: Disk + Send + Sync,
    R: Threads + Wait + Sync,
    V: Solver + Sync,
    G: Gate + Sync,
    P: Pause + Sync,
>(
    rt: &R,
    alloc: Global,
    shared: Shared<D>,
    registrar: Registrar<Desk<D>>,
    room: LiveRoom<D>,
    intake: &mut Intake,
    source: &mut S,
    solver: &V,
    gate: &G,
    pause: &P,
) -> (Desk<D>, Vec<Answer>, Stop)
    // The lock was opened for the batch.
    requires made { (registry registrar ≡ lock_of shared.turn) × (made registrar ≡ 0) }
    requires opened { (registrar_view registrar).opened ≡ length (registrar_view registrar).history.seen }

    requires begun { intake.old.fenced ≡ false }
    requires room { IsRoom room }
    requires answers { HasSpare intake.old room.answers 0 }

    // What was read and served.
    ensures taken { HasTakenPiece (S.left source.old) (S.left source.new) (S.faults source.old) (S.faults source.new)
        intake.old intake.new }
    ensures served { HasServedLive D.seen (registrar_view registrar) (S.left source.new) (S.faults source.old) (S.faults source.new)
        intake.old intake.new result.0 result.1.items result.2 }
{
    let mut registrar = registrar;
    let LiveRoom {
        mut rings,
        places,
        bells,
        mut requests,
        mut answers,
        mut lanes,
        mut seats,
    } = room;
    seat_lanes(&shared, &mut registrar, places, &mut lanes);
    let service = Service {
        rt,
        alloc,
        shared: &shared,
        solver,
        gate,
        pause,
    };
    let stop = serve_segments(
        &service,
        bells.as_slice(),
        lanes.as_mut_slice(),
        rings.as_mut_slice(),
        intake,
        source,
        &mut requests,
        &mut answers,
    );
    unseat(lanes, &mut seats);
    let desk = shared.finish(registrar, seats);
    (desk, answers, stop)
}
