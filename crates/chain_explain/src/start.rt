//! What is left at the start: the discharges, and what the parties spend and receive.
ghost use Rattle.std.specs.Prelude.{◌≡◌, ℕ, ◌-◌, ◌<◌, IfOk, length, slice_index};
ghost use Rattle.setoff_model.specs.Setoff.{IsLawful};
ghost use Rattle.setoff_model.specs.CutView.{WellFormed, obligations};
ghost use Rattle.chain_explain.specs.Walks.{IsLeftAtStart};

use crate::left::Left;
use setoff_checker::sum_flows;
use setoff_model::Cut;
use std::alloc::{AllocError, Global};

// Nothing is explained of the discharges. The only error is running out of memory.
pub(crate) fn left_at_start(
    alloc: Global,
    cut: &Cut,
    discharges: &[u64],
) -> Result<Left, AllocError>
    requires cut { WellFormed cut.now }
    requires lawful { IsLawful (obligations cut.now) discharges.now }
    ensures { IfOk result (IsLeftAtStart (obligations cut.now) discharges.now) }
{
    let rests = discharges.to_vec(alloc)?;
    let mut begins = vec![in alloc; 0u64; cut.parties().len()]?;
    let mut ends = vec![in alloc; 0u64; cut.parties().len()]?;
    sum_flows(cut.claims(), discharges, &mut ends, &mut begins);
    net(&mut begins, &mut ends);
    Ok(Left {
        rests,
        begins,
        ends,
        spender: 0,
        oldest: 0,
    })
}

// Takes the smaller one of the two numbers of each party from both.
fn net(begins: &mut [u64], ends: &mut [u64])
    requires { length begins.old ≡ length ends.old }
    ensures begins { (f : ℕ) → f < length begins.old →
        slice_index begins.new f ≡ slice_index begins.old f - slice_index ends.old f }
    ensures ends { (f : ℕ) → f < length begins.old →
        slice_index ends.new f ≡ slice_index ends.old f - slice_index begins.old f }
{
    for party in 0..begins.len() {
        let both = begins[party].min(ends[party]);
        begins[party] -= both;
        ends[party] -= both;
    }
}
