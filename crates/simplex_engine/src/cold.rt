//! A solution from where nothing is set off, or claims in pairs alone.
use crate::pairs::set_off_pairs;
use crate::simplex::Simplex;
use crate::start::{Solution, Start, answer_if, claims_of, unused_flows, work_of};
use spanning_tree::schedule::{
    ALONE, CLAIMS_IN_PAIRS, FAR_OF, FAR_PARTS, FEW_HALVES, FULL_TRIAL, PAIRED, SLICE, SLICE_MORE,
    SLICE_MOST, SLICES, SPARSE_HALVES, SPARSE_TRIAL, Trial, WHOLE,
};
use spanning_tree::{Edge, Halves};
use std::alloc::{AllocError, Global};

/// A solution from where nothing is set off, or claims in pairs alone, if one is found with little work for each arc that enters.
///
/// It is sought where there are some halves of arcs at a node and not many, or where most of what is set off is in excess. Nothing is
/// proved of it. The only error is running out of memory.
pub fn seek_cold(alloc: Global, start: &Start) -> Result<Option<Solution>, AllocError> {
    let (many, nodes) = (start.halves.len(), start.excess.len());
    if many / FEW_HALVES <= nodes {
        return Ok(None);
    }
    if many / SPARSE_HALVES <= nodes {
        return try_sparse(alloc, start);
    }
    if is_far(start) {
        try_cold(alloc, start, FULL_TRIAL)
    } else {
        Ok(None)
    }
}

// Whether most of what is set off is in excess, and so has to go back.
fn is_far(start: &Start) -> bool {
    let mut left = 0u128;
    for &amount in start.excess {
        if 0 < amount {
            left = left.saturating_add(amount.unsigned_abs());
        }
    }
    let mut set_off = 0u128;
    let claims = start.flows.len().saturating_sub(start.windows.len());
    for &flow in start.flows.iter().take(claims) {
        set_off = set_off.saturating_add(u128::from(flow));
    }
    set_off / FAR_OF * FAR_PARTS < left
}

// A solution where there are few halves.
fn try_sparse(alloc: Global, start: &Start) -> Result<Option<Solution>, AllocError> {
    let paired = try_pairs(alloc, start)?;
    if paired.is_some() {
        return Ok(paired);
    }
    try_cold(alloc, start, SPARSE_TRIAL)
}

// A solution from where claims are set off in pairs, if one is found soon. It is sought where most claims are in pairs. More pairs than
// parties close many circles, on which much would have to be undone.
fn try_pairs(alloc: Global, start: &Start) -> Result<Option<Solution>, AllocError> {
    let parties = start.windows.len();
    let mut flows = unused_flows(alloc, start)?;
    let pairs = set_off_pairs(alloc, start.edges, start.halves, parties, &mut flows)?;
    if pairs <= claims_of(start) / CLAIMS_IN_PAIRS || parties < pairs {
        return Ok(None);
    }
    let prices = vec![in alloc; 0i32; start.excess.len()]?;
    let mut paired = even_simplex(alloc, start, flows, &prices)?;
    paired.lengthen_runs(1);
    let work = (start.halves.len() as u64).saturating_mul(PAIRED);
    let over = paired.run(alloc, start.edges, start.halves, work);
    answer_if(alloc, start.edges, &paired, over)
}

// A solution from where nothing is set off, if the trial comes to its end.
fn try_cold(alloc: Global, start: &Start, trial: Trial) -> Result<Option<Solution>, AllocError> {
    let prices = vec![in alloc; 0i32; start.excess.len()]?;
    let mut cold = cold_simplex(alloc, start, &prices)?;
    cold.lengthen_runs(1);
    let over = ends_lightly(alloc, &mut cold, start, trial);
    answer_if(alloc, start.edges, &cold, over)
}

// Whether the simplex comes to its end. It does not go on where it is not light.
fn ends_lightly(
    alloc: Global,
    simplex: &mut Simplex,
    start: &Start,
    trial: Trial,
) -> Result<bool, AllocError> {
    let many = start.halves.len() as u64;
    if simplex.run(
        alloc,
        start.edges,
        start.halves,
        many.saturating_mul(trial.first),
    )? {
        return Ok(true);
    }
    if !simplex.is_light(trial.light) {
        return Ok(false);
    }
    let more = trial.all.saturating_sub(trial.first);
    simplex.run(alloc, start.edges, start.halves, many.saturating_mul(more))
}

/// A solution from where nothing is set off, at the price of each node, if one is found while arcs enter with little work each, and with so
/// much work for each half.
///
/// Nothing is proved of it. The only error is running out of memory.
pub fn seek_from(
    alloc: Global,
    start: &Start,
    prices: &[i32],
    work: u64,
) -> Result<Option<Solution>, AllocError> {
    let mut cold = cold_simplex(alloc, start, prices)?;
    cold.lengthen_runs(1);
    let most = (start.halves.len() as u64).saturating_mul(work);
    let over = ends_in_slices(alloc, &mut cold, start, most);
    answer_if(alloc, start.edges, &cold, over)
}

// Whether the simplex comes to its end in slices, each of half as much work more than the one before. It does not go on behind one
// that was not light, or after so much work.
fn ends_in_slices(
    alloc: Global,
    simplex: &mut Simplex,
    start: &Start,
    most: u64,
) -> Result<bool, AllocError> {
    let (many, nodes) = (start.halves.len() as u64, start.excess.len() as u64);
    let mut work = many;
    for _ in 0..SLICES {
        let before = simplex.pivots();
        if simplex.run(alloc, start.edges, start.halves, work)? {
            return Ok(true);
        }
        let each = work / simplex.pivots().saturating_sub(before).max(1);
        if most <= simplex.work() || is_heavy(each, work, many, nodes) {
            return Ok(false);
        }
        work = work.saturating_add(work / 2);
    }
    Ok(false)
}

// Whether the work for each arc that entered in a slice was more than so much, and some more in a longer slice, times the root of how many
// halves there are for each node.
fn is_heavy(each: u64, slice: u64, halves: u64, nodes: u64) -> bool {
    let longer = (slice / halves.max(1)).saturating_mul(SLICE_MORE);
    let most = SLICE.saturating_add(longer).min(SLICE_MOST);
    let allowed = most.saturating_mul(most).saturating_mul(halves);
    allowed < each.saturating_mul(each).saturating_mul(nodes)
}

/// A solution on these arcs alone, with the flows of the windows' arcs at which no balance changes, if one is found in time.
///
/// The arcs of claims may count more than claims do. Nothing is proved of it. The only error is running out of memory.
pub fn seek_alone(
    alloc: Global,
    edges: &[Edge],
    windows: &[u64],
) -> Result<Option<Solution>, AllocError> {
    let nodes = windows.len().saturating_add(1);
    let halves = Halves::of(alloc, edges, nodes)?;
    let flows = vec![in alloc; 0u64; edges.len()]?;
    let excess = vec![in alloc; 0i128; nodes]?;
    let start = Start {
        edges,
        halves: &halves,
        flows: &flows,
        prices: &[],
        excess: &excess,
        windows,
    };
    let most = (nodes as u64).saturating_mul(nodes as u64);
    let work = (halves.len() as u64).saturating_mul(ALONE);
    whole_within(alloc, &start, most.saturating_add(work))
}

// A solution from where nothing is set off, if one is found in time.
pub(crate) fn whole_at_once(alloc: Global, start: &Start) -> Result<Option<Solution>, AllocError> {
    whole_within(alloc, start, work_of(start, WHOLE))
}

// A solution from where nothing is set off, if one is found with so much work.
fn whole_within(alloc: Global, start: &Start, work: u64) -> Result<Option<Solution>, AllocError> {
    let prices = vec![in alloc; 0i32; start.excess.len()]?;
    let mut cold = cold_simplex(alloc, start, &prices)?;
    let over = cold.run(alloc, start.edges, start.halves, work);
    answer_if(alloc, start.edges, &cold, over)
}

// A simplex that starts where nothing is set off, and no balance changes, at the price of each node.
fn cold_simplex(alloc: Global, start: &Start, prices: &[i32]) -> Result<Simplex, AllocError> {
    let flows = unused_flows(alloc, start)?;
    even_simplex(alloc, start, flows, prices)
}

// A simplex that starts at flows of which no node has or wants any, at the price of each node.
fn even_simplex(
    alloc: Global,
    start: &Start,
    flows: Vec<u64>,
    prices: &[i32],
) -> Result<Simplex, AllocError> {
    let excess = vec![in alloc; 0i64; start.excess.len()]?;
    let mut even = Simplex::new(alloc, start.edges, start.halves, flows, prices, excess)?;
    even.stop_looking();
    Ok(even)
}
