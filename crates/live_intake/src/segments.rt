//! The segments of a batch, one after another.
ghost use Rattle.std.specs.Prelude.{◌≡◌, ◌≤◌, false, [], None, Some, vec_capacity};
ghost use Rattle.live_reading.specs.declared.reading.TheConstants.{MOST_ASKED};
ghost use Rattle.live_intake.specs.Batching.{AreReady, HasServedBatch, HasServedMore};
ghost use Rattle.live_reading.specs.Reading.{HasTakenPiece};
ghost use Rattle.live_reading.specs.Sparing.{HasMoved, HasSpare};

use crate::lane::LiveLane;
use crate::segment::run_segment;
use lane_runner::{Answer, Disk, Gate, Pause, Request, Service, Solver, merge};
use live_reading::{Intake, Ring, Source, Stop};
use std::sync::Wait;
use std::thread::{Parker, Threads};

/// Serves a batch, segment after segment.
pub fn serve_segments<
    S: Source,
    D: Disk + Send + Sync,
    R: Threads + Wait + Sync,
    V: Solver + Sync,
    G: Gate + Sync,
    P: Pause + Sync,
>(
    service: &Service<D, R, V, G, P>,
    bells: &[Parker],
    lanes: &mut [LiveLane<D>],
    rings: &mut [Ring],
    intake: &mut Intake,
    source: &mut S,
    requests: &mut Vec<Request>,
    answers: &mut Vec<Answer>,
) -> Stop
    requires begun { intake.old.fenced ≡ false }
    requires ready { AreReady service.now.shared.now.turn rings.old lanes.old }

    // The lists.
    requires room { MOST_ASKED ≤ vec_capacity requests.old }
    requires none { answers.old.items ≡ [] }
    requires answers { HasSpare intake.old answers.old 0 }

    // What was read and served.
    ensures taken { HasTakenPiece (S.left source.old) (S.left source.new) (S.faults source.old) (S.faults source.new)
        intake.old intake.new }
    ensures served { HasServedBatch service.now.shared.now.turn (S.left source.new) (S.faults source.old) (S.faults source.new)
        intake.old intake.new rings.new
        lanes.old lanes.new answers.new.items (Some result) }
{
    loop {
        let ended = serve_next(
            service, bells, lanes, rings, intake, source, requests, answers,
        );
        if let Some(stop) = ended {
            return stop;
        }
        intake.batches();
    }
}

// Serves the next segment. None: the batch goes on.
fn serve_next<
    S: Source,
    D: Disk + Send + Sync,
    R: Threads + Wait + Sync,
    V: Solver + Sync,
    G: Gate + Sync,
    P: Pause + Sync,
>(
    service: &Service<D, R, V, G, P>,
    bells: &[Parker],
    lanes: &mut [LiveLane<D>],
    rings: &mut [Ring],
    intake: &mut Intake,
    source: &mut S,
    requests: &mut Vec<Request>,
    answers: &mut Vec<Answer>,
) -> Option<Stop>
    requires begun { intake.old.fenced ≡ false }
    requires ready { AreReady service.now.shared.now.turn rings.old lanes.old }
    requires room { MOST_ASKED ≤ vec_capacity requests.old }
    requires answers { HasSpare intake.old answers.old 0 }

    // Where the batch goes on, the next segment can begin.
    ensures answers { result ≡ None → HasSpare intake.new answers.new 0 }
    ensures moves { result ≡ None → HasMoved intake.old intake.new }
    ensures room { MOST_ASKED ≤ vec_capacity requests.new }

    // What was read and served.
    ensures taken { HasTakenPiece (S.left source.old) (S.left source.new) (S.faults source.old) (S.faults source.new)
        intake.old intake.new }
    ensures served { HasServedMore service.now.shared.now.turn (S.left source.new) (S.faults source.old) (S.faults source.new)
        intake.old intake.new rings.new
        lanes.old lanes.new answers.old.items answers.new.items result }
{
    requests.clear();
    let ended = run_segment(
        service, bells, lanes, rings, intake, source, requests, answers,
    );
    merge(requests.as_slice(), lanes, answers);
    ended
}
