//! Counts of faults. A device that can fail counts its faults, and what calls it can show by the count that the device
//! did fail: a call answers a failure only where the count has risen.
//!
//! A count never falls. It stops at the last `u64`, where one more fault leaves no trace; so `HasRisen` of two counts says
//! that the later is above the earlier, or that both stand there. `IsCounted` says of a call's answer that the count does not
//! fall and that an error has its cause in it.
//!
//! A call that a signal interrupted did nothing, and is no fault. Who makes it again does so only until it was made `MOST_CALLS`
//! times, so that the loop ends, and then the interruption is a fault.
#![tactic(auto)]

ghost use Rattle.std.specs.Prelude.{◌≡◌, ◌≤◌};
ghost use Rattle.fault_count.specs.Counts.{HasRisen, next_count};

/// How many times an interrupted call is made in all before the interruption is a fault.
pub const MOST_CALLS: u32 = 64;

/// The count after one more fault: it stops at the last `u64`.
pub fn next_count(count: u64) -> u64
    ensures next { result ≡ next_count count }
    ensures later { count ≤ result }
    ensures rose { HasRisen count result }
{
    count.saturating_add(1)
}
