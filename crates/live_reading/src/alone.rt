//! What the lines are like that stand next.
ghost use Rattle.std.specs.Prelude.{◌≤◌, IfSome};

use crate::handed::MOST_HANDED;
use input_front::PIECE;

const FENCE: &[u8] = b"FENCE\n";

const CLOSE: &[u8] = b"CLOSE";

// How many lines are looked at.
const MOST_LOOKED: usize = 256;

/// How many steps the reader may take before any lane serves; None where the lanes are to serve meanwhile. It looks at the first lines
/// that were taken and not read. It is advice: by it threads are saved, and no clause says what is best.
///
/// Where no whole line stands there it is one step, which asks the source. Else it is one for each line, up to a FENCE, or to the first
/// one that closes a round. What stands before that is soon served, in less time than threads take to begin. To close a round can take
/// long, and then lines of other lanes may come. So where such a line is the first one, the lanes serve meanwhile, unless the batch ends
/// among the lines that are looked at, or one lane is handed all that it may be in a segment.
pub fn steps_alone(unread: &[u8]) -> Option<usize>
    ensures { IfSome result (λ steps. 1 ≤ steps) }
{
    let (next, _) = unread.split_at(unread.len().min(PIECE));
    let lane = first_field(next);
    let (mut steps, mut closes, mut alone) = (0, false, true);
    for (count, line) in next.split_inclusive(|byte| *byte == b'\n').enumerate() {
        if line == FENCE {
            return Some(count + 1);
        }
        if count == MOST_LOOKED || !line.ends_with(b"\n") {
            break;
        }
        if closes_round(line) && !closes {
            if count > 0 {
                return Some(count);
            }
            closes = true;
        }
        alone = alone && first_field(line) == lane;
        steps = count + 1;
        if alone && steps == MOST_HANDED {
            return Some(steps);
        }
    }
    if closes {
        return None;
    }
    Some(steps.max(1))
}

// The bytes up to the first space.
fn first_field(text: &[u8]) -> Option<&[u8]> {
    text.split(|byte| *byte == b' ').next()
}

// Whether one of its fields is CLOSE.
fn closes_round(line: &[u8]) -> bool {
    line.split(|byte| *byte == b' ').any(|field| field == CLOSE)
}
