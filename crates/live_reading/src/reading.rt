//! The reader of a segment.
ghost use Rattle.std.specs.Prelude.{None, ◌≡◌, ◌+◌, ◌<◌, ◌≤◌, ◌∷◌, ◌++◌, [], drop, length, true, false, All, vec_len, vec_capacity};
ghost use Rattle.live_reading.specs.declared.reading.TheConstants.{MOST_ASKED};
ghost use Rattle.setoff_model.specs.declared.limits.TheConstants.{MOST_LANES};
ghost use Rattle.served_lines.specs.claim_history.specs.Acts.{is_request};
ghost use Rattle.served_lines.specs.request_text.specs.Lanes.{IsLane};
ghost use Rattle.input_front.specs.Taken.{HasNoFeed};
ghost use Rattle.live_reading.specs.Reading.{MayGoOn, HasGoneOn, HasReadLast, end_of};
ghost use Rattle.live_reading.specs.Reader.{HasReadSegment, MayRead};
ghost use Rattle.live_reading.specs.Rings.{HasHanded, HasRoom, IsOpen};
ghost use Rattle.live_reading.specs.Sparing.{HasSpare, KeepsSpare};

use crate::handed::MOST_HANDED;
use crate::rings::{Ring, hand, mark};
use crate::stop::Stop;
use input_front::{Intake, Line, More, PIECE, Source};
use served_lines::{Answer, Request};
use setoff_model::limits::MOST_LANES;
use std::alloc::Global;
use std::thread::Parker;

/// How many lines a segment has, at most: with so many each lane was handed `MOST_HANDED`.
pub const MOST_ASKED: usize = MOST_HANDED * MOST_LANES;

// The room for the answers of a segment, of the lines of a piece, and of the rest of an input.
const MOST_ANSWERS: usize = MOST_ASKED + PIECE + 1;

/// What came of one step of the reader.
#[derive(Clone, Copy)]
pub enum Step {
    /// The segment goes on.
    On,
    /// A lane was handed all that it may be in a segment.
    Full,
    /// The batch has ended.
    Over(Stop),
}

/// Reads the lines of a segment, by so many steps at most, and hands each to its lane, and then marks its end for each lane. None: the
/// batch goes on. A lane that sleeps by its bell, the one of its place, is woken by what it is handed.
pub fn read_segment<S: Source>(
    alloc: Global,
    intake: &mut Intake,
    source: &mut S,
    rings: &mut [Ring],
    bells: &[Parker],
    requests: &mut Vec<Request>,
    answers: &mut Vec<Answer>,
    steps: usize,
) -> Option<Stop>
    requires ready { MayRead intake.old rings.old requests.old answers.old }
    requires some { 1 ≤ steps }
    ensures { HasReadSegment (S.left source.old) (S.left source.new) (S.faults source.old) (S.faults source.new)
        intake.old intake.new rings.old rings.new requests.new answers.old answers.new result }
{
    let stop = hand_lines(
        alloc, intake, source, rings, bells, requests, answers, steps,
    );
    mark(rings, bells);
    stop
}

// Takes so many steps of the reader, or less where the batch ends, or a lane was handed all that it may be in a segment.
fn hand_lines<S: Source>(
    alloc: Global,
    intake: &mut Intake,
    source: &mut S,
    rings: &mut [Ring],
    bells: &[Parker],
    requests: &mut Vec<Request>,
    answers: &mut Vec<Answer>,
    steps: usize,
) -> Option<Stop>
    requires begun { intake.old.fenced ≡ false }
    requires all { length rings.old ≡ MOST_LANES }
    requires open { All IsOpen rings.old }

    // The lines of the segment so far, and the room for their answers.
    requires few { (vec_len requests.old < MOST_ASKED) × (MOST_ASKED ≤ vec_capacity requests.old) }
    requires answers { HasSpare intake.old answers.old (vec_len requests.old) }
    requires some { 1 ≤ steps }

    // More lines were read and handed on, and there is as much room again.
    ensures gone { HasGoneOn (S.left source.old) (S.left source.new) (S.faults source.old) (S.faults source.new) intake.old intake.new
        rings.old rings.new requests.old.items requests.new.items result }
    ensures room { All HasRoom rings.new }
    ensures few { (vec_len requests.new ≤ MOST_ASKED) × (MOST_ASKED ≤ vec_capacity requests.new) }
    ensures answers { KeepsSpare intake.old intake.new answers.old answers.new (vec_len requests.new) result }
{
    for _ in 0..steps {
        match hand_next(alloc, intake, source, rings, bells, requests, answers) {
            Step::On => {}
            Step::Full => return None,
            Step::Over(stop) => return Some(stop),
        }
    }
    None
}

// Reads a line and hands it to its lane, or takes more of the input, for which the room for the answers of its lines is made before.
fn hand_next<S: Source>(
    alloc: Global,
    intake: &mut Intake,
    source: &mut S,
    rings: &mut [Ring],
    bells: &[Parker],
    requests: &mut Vec<Request>,
    answers: &mut Vec<Answer>,
) -> Step
    requires begun { intake.old.fenced ≡ false }
    requires all { length rings.old ≡ MOST_LANES }
    requires open { All IsOpen rings.old }

    // The lines of the segment so far, and the room for their answers.
    requires few { (vec_len requests.old < MOST_ASKED) × (MOST_ASKED ≤ vec_capacity requests.old) }
    requires answers { HasSpare intake.old answers.old (vec_len requests.old) }

    // Perhaps a line was read and handed on.
    ensures gone { HasGoneOn (S.left source.old) (S.left source.new) (S.faults source.old) (S.faults source.new) intake.old intake.new
        rings.old rings.new requests.old.items requests.new.items (end_of result) }
    ensures open { MayGoOn result rings.new (vec_len requests.new) }

    // There is as much room again.
    ensures room { All HasRoom rings.new }
    ensures few { (vec_len requests.new ≤ MOST_ASKED) × (MOST_ASKED ≤ vec_capacity requests.new) }
    ensures answers { KeepsSpare intake.old intake.new answers.old answers.new (vec_len requests.new) (end_of result) }
{
    intake.batches();
    match intake.next(alloc) {
        Some(Line::Asks(request)) => hand_one(rings, bells, requests, request),
        Some(Line::Fence) => Step::Over(Stop::Fence),
        Some(Line::Bad { line, cause }) => Step::Over(Stop::BadLine { line, cause }),
        Some(Line::Memory) => Step::Over(Stop::Memory),
        None => {
            if answers.reserve(MOST_ANSWERS).is_err() {
                return Step::Over(Stop::Memory);
            }
            match intake.more(source) {
                More::Some => Step::On,
                More::End => Step::Over(hand_last(alloc, intake, rings, bells, requests)),
                More::Failed => Step::Over(Stop::Failed),
                More::TooLong => Step::Over(Stop::TooLong),
                More::Memory => Step::Over(Stop::Memory),
            }
        }
    }
}

// The input has ended: what is left of it is its last line.
fn hand_last(
    alloc: Global,
    intake: &Intake,
    rings: &mut [Ring],
    bells: &[Parker],
    requests: &mut Vec<Request>,
) -> Stop
    requires begun { intake.now.fenced ≡ false }
    requires all { length rings.old ≡ MOST_LANES }
    requires open { All IsOpen rings.old }

    // What is noted, and what is left of the input.
    requires few { (vec_len requests.old < MOST_ASKED) × (MOST_ASKED ≤ vec_capacity requests.old) }
    requires none { HasNoFeed (drop intake.now.read intake.now.taken) }

    // The line was read, handed on and noted.
    ensures last { HasReadLast intake.now rings.old rings.new requests.old.items requests.new.items result }
    ensures room { All HasRoom rings.new }
    ensures few { (vec_len requests.new ≤ MOST_ASKED) × (MOST_ASKED ≤ vec_capacity requests.new) }
    ensures one { vec_len requests.new ≤ vec_len requests.old + 1 }
{
    match intake.last(alloc) {
        Some(Line::Asks(request)) => {
            let _ = hand_one(rings, bells, requests, request);
            Stop::End
        }
        Some(Line::Bad { line, cause }) => Stop::BadLine { line, cause },
        Some(Line::Memory) => Stop::Memory,
        Some(Line::Fence) | None => Stop::End,
    }
}

// Hands a request to its lane, and notes it.
fn hand_one(
    rings: &mut [Ring],
    bells: &[Parker],
    requests: &mut Vec<Request>,
    request: Request,
) -> Step
    requires lane { IsLane request.lane }
    requires all { length rings.old ≡ MOST_LANES }
    requires valid { is_request request.act ≡ true }
    requires open { All IsOpen rings.old }

    // There is a place to note it.
    requires few { (vec_len requests.old < MOST_ASKED) × (MOST_ASKED ≤ vec_capacity requests.old) }

    // It was handed on and noted, and the segment may go on.
    ensures handed { HasHanded rings.old rings.new request }
    ensures noted { requests.new.items ≡ requests.old.items ++ request ∷ [] }
    ensures open { MayGoOn result rings.new (vec_len requests.new) }
    ensures on { end_of result ≡ None }

    // The rings and the list have room again.
    ensures room { All HasRoom rings.new }
    ensures few { (vec_len requests.new ≤ MOST_ASKED) × (MOST_ASKED ≤ vec_capacity requests.new) }
    ensures one { vec_len requests.new ≡ vec_len requests.old + 1 }
{
    let Request {
        line,
        lane,
        pool,
        act,
    } = request;
    let Ok(noted) = act.clone() else {
        unreachable!()
    };
    requests.push_reserved(Request {
        line,
        lane,
        pool,
        act: noted,
    });
    let last = hand(
        rings,
        bells,
        Request {
            line,
            lane,
            pool,
            act,
        },
    );
    if last || requests.len() == MOST_ASKED {
        return Step::Full;
    }
    Step::On
}
