//! A solution to which arcs come by shares.
use crate::shares::Shares;
use crate::start::{Solution, Start, claims_of, square_of, unused_flows};
use spanning_tree::schedule::{
    SHARED, SHARED_COLD, SHARED_EARLY, SHARED_FAR, SHARES_BEGUN, SHARES_FAR, SHARES_ON, WARM_FAR,
    WARM_HALF, WARM_LEFT, WARM_MOST, WARM_NEAR, WARM_SOON,
};
use std::alloc::{AllocError, Global};

/// A solution to which all arcs come by shares, those that hold most first, if one is found in time: from where nothing is set off, or from
/// this start.
///
/// Nothing is proved of it. The only error is running out of memory.
pub fn seek_by_shares(alloc: Global, start: &Start) -> Result<Option<Solution>, AllocError> {
    let mut cold = cold_shares(alloc, start)?;
    run_from_cold(alloc, start, &mut cold)
}

// The solution that the cold shares come to, or the warm ones. Where more than the first share of the cold ones is open, it is asked once
// more behind twice the work whether they are far on.
fn run_from_cold(
    alloc: Global,
    start: &Start,
    cold: &mut Shares,
) -> Result<Option<Solution>, AllocError> {
    for times in 1..3u64 {
        let work = SHARED_EARLY.saturating_mul(times);
        if let Some(found) = run_shares(alloc, start, cold, work)? {
            return Ok(Some(found));
        }
        if cold.are_open(SHARES_FAR) {
            return run_far(alloc, start, cold);
        }
        if !cold.are_open(SHARES_BEGUN) {
            break;
        }
    }
    run_warm(alloc, start, cold)
}

// Where the cold shares are far on soon, they go on for some work, and then the warm ones for a little.
fn run_far(
    alloc: Global,
    start: &Start,
    cold: &mut Shares,
) -> Result<Option<Solution>, AllocError> {
    if let Some(found) = run_shares(alloc, start, cold, SHARED_FAR)? {
        return Ok(Some(found));
    }
    let mut warm = Shares::new(alloc, start)?;
    if let Some(found) = run_shares(alloc, start, &mut warm, WARM_SOON)? {
        return Ok(Some(found));
    }
    let most = if cold.are_open(SHARES_ON) {
        WARM_NEAR
    } else {
        WARM_HALF
    };
    if warm.is_within(most) {
        run_in_turn(alloc, start, &mut warm, cold)
    } else {
        run_in_turn(alloc, start, cold, &mut warm)
    }
}

// Elsewhere the warm shares begin, and go on where they get on.
fn run_warm(
    alloc: Global,
    start: &Start,
    cold: &mut Shares,
) -> Result<Option<Solution>, AllocError> {
    let mut warm = Shares::new(alloc, start)?;
    if let Some(found) = run_shares(alloc, start, &mut warm, WARM_SOON)? {
        return Ok(Some(found));
    }
    if warm.is_within(WARM_LEFT) {
        return run_in_turn(alloc, start, &mut warm, cold);
    }
    if let Some(found) = run_shares(alloc, start, cold, SHARED_FAR)? {
        return Ok(Some(found));
    }
    let slow = cold.are_open(SHARES_FAR) && !warm.is_within(WARM_MOST);
    if slow || cold.are_open(SHARES_ON) {
        return run_in_turn(alloc, start, cold, &mut warm);
    }
    run_warm_on(alloc, start, cold, &mut warm)
}

// The warm shares go on for longer, and to the end where they get on now.
fn run_warm_on(
    alloc: Global,
    start: &Start,
    cold: &mut Shares,
    warm: &mut Shares,
) -> Result<Option<Solution>, AllocError> {
    if let Some(found) = run_shares(alloc, start, warm, WARM_FAR)? {
        return Ok(Some(found));
    }
    if warm.is_within(WARM_LEFT) {
        run_in_turn(alloc, start, warm, cold)
    } else {
        run_in_turn(alloc, start, cold, warm)
    }
}

// The solution that the first comes to, or else the other.
fn run_in_turn(
    alloc: Global,
    start: &Start,
    first: &mut Shares,
    other: &mut Shares,
) -> Result<Option<Solution>, AllocError> {
    if let Some(found) = run_shares(alloc, start, first, SHARED)? {
        return Ok(Some(found));
    }
    run_shares(alloc, start, other, SHARED)
}

/// A solution to which all arcs come by shares from where nothing is set off, if one is found soon.
///
/// Nothing is proved of it. The only error is running out of memory.
pub fn seek_cold_by_shares(alloc: Global, start: &Start) -> Result<Option<Solution>, AllocError> {
    let mut cold = cold_shares(alloc, start)?;
    let found = run_shares(alloc, start, &mut cold, SHARED_EARLY)?;
    if found.is_none() && cold.are_open(SHARES_FAR) {
        return run_shares(alloc, start, &mut cold, SHARED_COLD);
    }
    Ok(found)
}

// All arcs by shares, from where nothing is set off.
fn cold_shares(alloc: Global, start: &Start) -> Result<Shares, AllocError> {
    let flows = unused_flows(alloc, start)?;
    let prices = vec![in alloc; 0i64; start.windows.len()]?;
    let excess = vec![in alloc; 0i128; start.excess.len()]?;
    let unused = Start {
        edges: start.edges,
        halves: start.halves,
        flows: &flows,
        prices: &prices,
        excess: &excess,
        windows: start.windows,
    };
    Shares::new(alloc, &unused)
}

// The solution of the shares, if they come to their end with so much work for each arc.
fn run_shares(
    alloc: Global,
    start: &Start,
    shares: &mut Shares,
    work: u64,
) -> Result<Option<Solution>, AllocError> {
    if !shares.run(alloc, square_of(start), work)? {
        return Ok(None);
    }
    let flows = shares.flows(alloc, claims_of(start), start.windows)?;
    let prices = shares.prices(alloc)?;
    Ok(Some(Solution { flows, prices }))
}
