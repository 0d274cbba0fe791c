//! What came of all lines, from what came of the lines of each lane.
ghost use Rattle.std.specs.Prelude.{◌≡◌, ◌+◌, ◌≤◌, length, All, vec_len, vec_capacity};
ghost use Rattle.lane_runner.specs.Merging.{HasMergedMore, HaveEnds};

use crate::lane::Lane;
use served_lines::{Answer, Request};
use setoff_model::limits::MOST_LANES;
use shared_bureau::Disk;

/// Puts the answers of lines that lanes have served behind those that are there, in the order of the lines: that of a line of a lane is
/// the lane's next one. The room for them is there.
pub fn merge<D: Disk, Q>(requests: &[Request], lanes: &[Lane<D, Q>], answers: &mut Vec<Answer>)
    // The lanes are those of the requests, and each has an end for each of its own.
    requires few { length lanes.now ≤ MOST_LANES }
    requires lanes { All (λ r. (1 ≤ r.lane) × (r.lane ≤ length lanes.now)) requests.now }
    requires all { HaveEnds requests.now lanes.now }

    // There is room for the answers.
    requires spare { vec_len answers.old + length requests.now ≤ vec_capacity answers.old }

    ensures merged { HasMergedMore requests.now lanes.now answers.old.items answers.new.items }
    ensures len { vec_len answers.new ≡ vec_len answers.old + length requests.now }
    ensures capacity { vec_capacity answers.new ≡ vec_capacity answers.old }
{
    let mut told = [0usize; MOST_LANES];
    for request in requests {
        let lane = request.lane as usize - 1;
        let end = lanes[lane].ends[told[lane]];
        told[lane] += 1;
        answers.push_reserved(Answer {
            line: request.line,
            end,
        });
    }
}
