//! One segment: lines are handed to their lanes, which serve them meanwhile.
ghost use Rattle.std.specs.Prelude.{◌≡◌, ◌≤◌, false, [], length, All, vec_len, vec_capacity};
ghost use Rattle.live_reading.specs.declared.reading.TheConstants.{MOST_ASKED};
ghost use Rattle.setoff_model.specs.declared.limits.TheConstants.{MOST_LANES};
ghost use Rattle.lane_runner.specs.request_text.specs.Lanes.{IsLane};
ghost use Rattle.live_reading.specs.Reading.{Ends, HasTakenPiece};
ghost use Rattle.live_reading.specs.Reader.{HasReadSegment, MayRead};
ghost use Rattle.live_intake.specs.Joining.{AreJoined, HaveServedThese};
ghost use Rattle.live_intake.specs.Segments.{HaveServedSegment, IsFitLiveLane};
ghost use Rattle.live_reading.specs.Sparing.{HasSpare, KeepsSpare};

use crate::fork::{serve_first, serve_lanes};
use crate::lane::LiveLane;
use crate::meeting::meet;
use lane_runner::{Answer, Disk, Gate, Pause, Request, Service, Solver};
use live_reading::{Act, Intake, Ring, Source, Stop, read_segment, steps_alone};
use setoff_model::limits::MOST_LANES;
use std::sync::Wait;
use std::thread::{Parker, Threads, join_mut};

/// Reads lines in this thread and hands each to its lane. Then the lanes serve them, in this thread, or in threads of their own where a
/// round is closed; and where more lines may come while one is, they serve meanwhile. Where no thread can be made, all is done in
/// this one.
pub fn run_segment<
    D: Disk + Send + Sync,
    R: Threads + Wait + Sync,
    V: Solver + Sync,
    G: Gate + Sync,
    P: Pause + Sync,
    S: Source,
>(
    service: &Service<D, R, V, G, P>,
    bells: &[Parker],
    lanes: &mut [LiveLane<D>],
    rings: &mut [Ring],
    intake: &mut Intake,
    source: &mut S,
    requests: &mut Vec<Request>,
    answers: &mut Vec<Answer>,
) -> Option<Stop>
    requires begun { intake.old.fenced ≡ false }
    requires all { length rings.old ≡ MOST_LANES }
    requires fresh { (requests.old.items ≡ []) × (vec_len requests.old ≡ 0) × (MOST_ASKED ≤ vec_capacity requests.old) }
    requires answers { HasSpare intake.old answers.old (vec_len requests.old) }

    // The lanes are at the beginning of a segment.
    requires joined { AreJoined rings.old lanes.old }
    requires fit { All (IsFitLiveLane service.now.shared.now.turn) lanes.old }

    // They served what they were handed.
    ensures joined { AreJoined rings.new lanes.new }
    ensures served { HaveServedThese service.now.shared.now.turn requests.new.items lanes.old lanes.new }
    ensures own { All (λ r. IsLane r.lane) requests.new.items }
    ensures few { vec_len requests.new ≤ MOST_ASKED }

    // What was read, and the room for more.
    ensures spare { MOST_ASKED ≤ vec_capacity requests.new }
    ensures taken { HasTakenPiece (S.left source.old) (S.left source.new) (S.faults source.old) (S.faults source.new)
        intake.old intake.new }
    ensures ends { Ends (S.left source.new) (S.faults source.old) (S.faults source.new)
        intake.old intake.new requests.new.items result }
    ensures answers { KeepsSpare intake.old intake.new answers.old answers.new (vec_len requests.new) result }
{
    let stop = run_lanes(
        service, bells, lanes, rings, intake, source, requests, answers,
    );
    meet(lanes, rings);
    stop
}

// Runs the reader and the lanes, and decides how: one after another in this thread, or side by side.
fn run_lanes<
    D: Disk + Send + Sync,
    R: Threads + Wait + Sync,
    V: Solver + Sync,
    G: Gate + Sync,
    P: Pause + Sync,
    S: Source,
>(
    service: &Service<D, R, V, G, P>,
    bells: &[Parker],
    lanes: &mut [LiveLane<D>],
    rings: &mut [Ring],
    intake: &mut Intake,
    source: &mut S,
    requests: &mut Vec<Request>,
    answers: &mut Vec<Answer>,
) -> Option<Stop>
    requires ready { MayRead intake.old rings.old requests.old answers.old }
    requires fit { All (IsFitLiveLane service.now.shared.now.turn) lanes.old }
    ensures read { HasReadSegment (S.left source.old) (S.left source.new) (S.faults source.old) (S.faults source.new)
        intake.old intake.new rings.old rings.new requests.new answers.old answers.new result }
    ensures served { HaveServedSegment service.now.shared.now.turn lanes.old lanes.new }
{
    match steps_alone(intake.unread()) {
        Some(steps) => {
            let stop = read_segment(
                service.alloc,
                intake,
                source,
                rings,
                &[],
                requests,
                answers,
                steps,
            );
            serve_first(service, lanes, threads_for(requests.as_slice()));
            stop
        }
        None => run_both(
            service, bells, lanes, rings, intake, source, requests, answers,
        ),
    }
}

// How many of the lanes are served side by side, after they were handed these: those up to the last of them where one closes a round,
// which can take long. Others are served in less time than threads take to begin.
fn threads_for(requests: &[Request]) -> usize
    ensures { 1 ≤ result }
{
    let (mut last, mut closes) = (0, false);
    for request in requests {
        last = last.max(request.lane as usize);
        closes = closes || matches!(request.act, Act::Close { .. });
    }
    if closes { last.max(1) } else { 1 }
}

// Runs the lanes and the reader of their lines side by side. Where no thread can be made, the reader runs first.
fn run_both<
    D: Disk + Send + Sync,
    R: Threads + Wait + Sync,
    V: Solver + Sync,
    G: Gate + Sync,
    P: Pause + Sync,
    S: Source,
>(
    service: &Service<D, R, V, G, P>,
    bells: &[Parker],
    lanes: &mut [LiveLane<D>],
    rings: &mut [Ring],
    intake: &mut Intake,
    source: &mut S,
    requests: &mut Vec<Request>,
    answers: &mut Vec<Answer>,
) -> Option<Stop>
    requires ready { MayRead intake.old rings.old requests.old answers.old }
    requires fit { All (IsFitLiveLane service.now.shared.now.turn) lanes.old }
    ensures read { HasReadSegment (S.left source.old) (S.left source.new) (S.faults source.old) (S.faults source.new)
        intake.old intake.new rings.old rings.new requests.new answers.old answers.new result }
    ensures served { HaveServedSegment service.now.shared.now.turn lanes.old lanes.new }
{
    let (_, stop) = join_mut(
        service.rt,
        &mut ||
            requires { All (IsFitLiveLane service.now.shared.now.turn) lanes.now }
            ensures { HaveServedSegment service.entry.now.shared.now.turn lanes.entry.now lanes.exit.now }
        { serve_lanes(service, bells, lanes, MOST_LANES) },
        &mut || -> Option<Stop>
            requires { MayRead intake.now rings.now requests.now answers.now }
            ensures { HasReadSegment (S.left source.entry.now) (S.left source.exit.now)
                (S.faults source.entry.now) (S.faults source.exit.now) intake.entry.now intake.exit.now
                rings.entry.now rings.exit.now requests.exit.now answers.entry.now answers.exit.now result }
        {
            read_segment(
                service.alloc,
                intake,
                source,
                rings,
                bells,
                requests,
                answers,
                usize::MAX,
            )
        },
    );
    stop
}
