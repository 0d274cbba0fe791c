//! What is found at once of whole nets.
use crate::hard_nets::{Net, chain, comb, drawn_claims, firms, kind_of, ladder};
use crate::solvers::{Owed, Window, cut_of, total_of};
use flow_solver::state_of_net;
use level_engine::Halves;
use net_presolve::{Inner, Parts, Sizes, Unused};
use residual_state::{State, adopt};
use setoff_model::Kind;
use simplex_engine::{
    Solution, Start, seek_by_shares, seek_cold, seek_cold_by_shares, seek_drained, seek_first,
    seek_solution,
};
use std::alloc::Global;
use std::process::Abort;

// The flows of the windows' arcs at the beginning of a search, and the halves of all arcs.
#[derive(Drop)]
struct Beginning {
    windows: Vec<u64>,
    halves: Halves,
}

fn state_of(
    rt: &impl Abort,
    alloc: Global,
    kind: Kind,
    windows: &[Window],
    owed: &[Owed],
) -> State {
    let cut = cut_of(rt, alloc, kind, windows, owed);
    assert!(rt; cut.well_formed());
    let net = netting_graph::Net::of(alloc, &cut).expect(rt, "memory");
    state_of_net(alloc, &net).expect(rt, "memory")
}

fn beginning_of(rt: &impl Abort, alloc: Global, state: &State) -> Beginning {
    let claims = state.flows.len().saturating_sub(state.prices.len());
    let mut windows = Vec::new(alloc);
    for (place, &flow) in state.flows.iter().enumerate() {
        if claims <= place {
            windows.push(flow).expect(rt, "memory");
        }
    }
    let halves = Halves::of(alloc, &state.edges, state.excess.len()).expect(rt, "memory");
    Beginning { windows, halves }
}

fn start_of<'a>(state: &'a State, begun: &'a Beginning) -> Start<'a> {
    Start {
        edges: &state.edges,
        halves: &begun.halves,
        flows: &state.flows,
        prices: &state.prices,
        excess: &state.excess,
        windows: &begun.windows,
    }
}

// What the simplex finds where nothing was done before, by shares or by turns.
fn found_from(rt: &impl Abort, alloc: Global, state: &State, by_shares: bool) -> Solution {
    let begun = beginning_of(rt, alloc, state);
    let start = start_of(state, &begun);
    let found = if by_shares {
        seek_by_shares(alloc, &start).expect(rt, "memory")
    } else {
        seek_solution(alloc, &start, 8).expect(rt, "memory")
    };
    found.expect(rt, "a solution")
}

// Whether it is taken.
fn is_taken(rt: &impl Abort, alloc: Global, net: &netting_graph::Net, by_shares: bool) -> bool {
    let mut state = state_of_net(alloc, net).expect(rt, "memory");
    let Solution { flows, prices } = found_from(rt, alloc, &state, by_shares);
    adopt(alloc, &mut state, flows, prices).expect(rt, "memory")
}

fn is_answered(rt: &impl Abort, alloc: Global, net: &Net) -> bool {
    let cut = cut_of(rt, alloc, kind_of(net), &net.windows, &net.owed);
    assert!(rt; cut.well_formed());
    let merged = netting_graph::Net::of(alloc, &cut).expect(rt, "memory");
    is_taken(rt, alloc, &merged, false) && is_taken(rt, alloc, &merged, true)
}

#[test]
fn the_simplex_is_taken(rt: HostRuntime) {
    let alloc = rt.alloc();
    let mut laddered = firms(&rt, alloc, 61, None);
    ladder(&rt, &mut laddered, 60, false);
    assert!(rt; is_answered(&rt, alloc, &laddered));
    let mut combed = firms(&rt, alloc, 121, None);
    comb(&rt, &mut combed);
    assert!(rt; is_answered(&rt, alloc, &combed));
    let mut tight = firms(&rt, alloc, 140, Some(1));
    chain(&rt, &mut tight, 0, 80, 1_000_000);
    drawn_claims(&rt, &mut tight, 80, 400, 1);
    assert!(rt; is_answered(&rt, alloc, &tight));
}

// A tree that is deep, and changes so often that its nodes are numbered anew. By shares, more is left than what is tried at first.
#[test]
fn a_long_chain_is_taken(rt: HostRuntime) {
    let alloc = rt.alloc();
    let mut tight = firms(&rt, alloc, 300, Some(5));
    chain(&rt, &mut tight, 0, 299, 1_000_000);
    assert!(rt; is_answered(&rt, alloc, &tight));
}

// The paths of the tree are so long that they are kept in stretches, of which circles over the drawn claims turn some, and part others.
#[test]
fn a_chain_of_stretches_is_taken(rt: HostRuntime) {
    let alloc = rt.alloc();
    let mut tight = firms(&rt, alloc, 2_048, Some(5));
    chain(&rt, &mut tight, 0, 2_047, 1_000_000);
    drawn_claims(&rt, &mut tight, 1_000, 400, 1);
    assert!(rt; is_answered(&rt, alloc, &tight));
}

// Two rings, and a claim from one to the other, of which nothing can be set off.
const RINGS: [Owed; 7] = [
    (0, 1, 500),
    (1, 2, 400),
    (2, 0, 300),
    (0, 3, 1_000),
    (3, 4, 70),
    (4, 5, 80),
    (5, 3, 90),
];

#[test]
fn parts_are_solved_apart(rt: HostRuntime) {
    let alloc = rt.alloc();
    assert!(rt; total_of(&rt, alloc, Kind::Plain, &[(0, 0); 6], &RINGS) == 1_110);
    let mut windows = [(0, 0); 6];
    windows[0] = (600, 0);
    windows[4] = (0, 200);
    let _total = total_of(&rt, alloc, Kind::Funded, &windows, &RINGS);
    windows[0] = (0, 600);
    windows[4] = (200, 0);
    let total = total_of(&rt, alloc, Kind::Funded, &windows, &RINGS);
    assert!(rt; total == 1_110);
    let state = state_of(&rt, alloc, Kind::Plain, &[(0, 0); 6], &RINGS);
    let begun = beginning_of(&rt, alloc, &state);
    let net = Unused {
        edges: &state.edges,
        halves: &begun.halves,
        windows: &begun.windows,
    };
    let parts = Parts::of(alloc, &net).expect(&rt, "memory");
    assert!(rt; parts.are_apart(&net));
    let inner = Inner::of(alloc, &net, &parts).expect(&rt, "memory");
    assert!(rt; inner.claims.len() == 6 && inner.windows.len() == 6);
}

// A ring of two firms that owe each other, one of them by way of 50 more.
#[test]
fn a_series_of_firms(rt: HostRuntime) {
    let alloc = rt.alloc();
    let mut owed = Vec::new(alloc);
    for firm in 0..51u32 {
        let claim = (firm, firm + 1, 1_000 + u64::from(firm * 7 % 51));
        owed.push(claim).expect(&rt, "memory");
    }
    owed.push((51, 0, 1_020)).expect(&rt, "memory");
    owed.push((0, 51, 15)).expect(&rt, "memory");
    let total = total_of(&rt, alloc, Kind::Plain, &[(0, 0); 52], &owed);
    assert!(rt; total == 51 * 1_000 + 1_015 + 15);
}

// A ring of 50 firms, each of which owes the next 10.00 or more, and is owed 4.00 by it.
fn mutual_ring(rt: &impl Abort, alloc: Global) -> Vec<Owed> {
    let mut owed = Vec::new(alloc);
    for firm in 0..50u32 {
        let next = (firm + 1) % 50;
        owed.push((firm, next, 1_000 + u64::from(firm)))
            .expect(rt, "memory");
        owed.push((next, firm, 400)).expect(rt, "memory");
    }
    owed
}

// What a simplex finds that starts where nothing is set off, or claims in pairs alone.
fn found_cold(rt: &impl Abort, alloc: Global, state: &State) -> Solution {
    let begun = beginning_of(rt, alloc, state);
    let found = seek_cold(alloc, &start_of(state, &begun)).expect(rt, "memory");
    found.expect(rt, "a solution")
}

// In pairs all that is owed back is set off, and 6.00 more of each other claim goes round the ring: 700.00 in all. A further cent round it
// takes one back from each pair whose larger claim is used up, and adds one elsewhere. While those are fewer than half, this brings 6.00.
#[test]
fn pairs_come_before_the_ring(rt: HostRuntime) {
    let alloc = rt.alloc();
    let owed = mutual_ring(&rt, alloc);
    assert!(rt; is_set_off(&rt, alloc, &owed, &[(0, 0); 50], 70_600, Search::Cold));
}

// A ring of large claims, of which 9,980.00 can be set off, and two small claims between its firms. The first of these makes a circle of
// two with a claim of the ring. Each cent over the second would take two from the ring.
const CROSSED: [Owed; 5] = [
    (0, 1, 1_000_000),
    (1, 2, 999_000),
    (2, 0, 998_000),
    (2, 1, 500),
    (0, 2, 300),
];

fn sum(flows: &[u64]) -> u64 {
    let mut sum = 0u64;
    for &flow in flows {
        sum = sum.saturating_add(flow);
    }
    sum
}

// Whether a solution was found that sets off so much.
fn sets_off(rt: &impl Abort, found: Option<Solution>, total: u64) -> bool {
    let found = found.expect(rt, "a solution");
    sum(&found.flows) == total
}

// What is found where all claims come by shares. As much is found from where nothing is set off alone, from where the rest is drained, and
// in the first turn.
fn found_by_shares(rt: &impl Abort, alloc: Global, state: &State) -> Solution {
    let begun = beginning_of(rt, alloc, state);
    let start = start_of(state, &begun);
    let found = seek_by_shares(alloc, &start).expect(rt, "memory");
    let found = found.expect(rt, "a solution");
    let total = sum(&found.flows);
    let cold = seek_cold_by_shares(alloc, &start).expect(rt, "memory");
    assert!(rt; sets_off(rt, cold, total));
    let drained = seek_drained(alloc, &start).expect(rt, "memory");
    assert!(rt; sets_off(rt, drained, total));
    let first = seek_first(alloc, &start).expect(rt, "memory");
    assert!(rt; sets_off(rt, first, total));
    found
}

// How a whole solution is sought: from where nothing is set off, or claims in pairs alone; by shares; or by shares from where a ring is at
// rest.
#[derive(Clone, Copy)]
enum Search {
    Cold,
    ByShares,
    FromRing,
}

// What is found so.
fn found_as(rt: &impl Abort, alloc: Global, state: &State, search: Search) -> Solution {
    match search {
        Search::Cold => found_cold(rt, alloc, state),
        Search::ByShares => found_by_shares(rt, alloc, state),
        Search::FromRing => found_from_ring(rt, alloc, state),
    }
}

// Whether what is found so is taken, and sets off so much, which is what the solvers find, too.
fn is_set_off(
    rt: &impl Abort,
    alloc: Global,
    owed: &[Owed],
    windows: &[Window],
    total: u64,
    search: Search,
) -> bool {
    let cut = cut_of(rt, alloc, Kind::Plain, windows, owed);
    assert!(rt; cut.well_formed());
    let net = netting_graph::Net::of(alloc, &cut).expect(rt, "memory");
    let mut state = state_of_net(alloc, &net).expect(rt, "memory");
    let Solution { flows, prices } = found_as(rt, alloc, &state, search);
    let is_all = sum(&flows) == total && total_of(rt, alloc, Kind::Plain, windows, owed) == total;
    is_all && adopt(alloc, &mut state, flows, prices).expect(rt, "memory")
}

// The sizes of the claims between three firms.
fn sizes_of(rt: &impl Abort, alloc: Global, owed: &[Owed]) -> Sizes {
    let state = state_of(rt, alloc, Kind::Plain, &[(0, 0); 3], owed);
    let begun = beginning_of(rt, alloc, &state);
    Sizes::of(&Unused {
        edges: &state.edges,
        halves: &begun.halves,
        windows: &begun.windows,
    })
}

// Two of the ring with small claims hold less than one cent in 256 of what the largest holds.
#[test]
fn claims_are_of_sizes(rt: HostRuntime) {
    let alloc = rt.alloc();
    let many = sizes_of(&rt, alloc, &CROSSED);
    assert!(rt; many.are_many() && !many.are_mostly_small() && !many.are_mostly_alike());
    let alike = sizes_of(&rt, alloc, &[(0, 1, 700), (1, 2, 700), (2, 0, 300)]);
    assert!(rt; alike.are_mostly_alike() && !alike.are_many() && !alike.are_mostly_small());
    let small = sizes_of(&rt, alloc, &[(0, 1, 90_000), (1, 2, 300), (2, 0, 300)]);
    assert!(rt; small.are_mostly_small() && !small.are_mostly_alike());
}

#[test]
fn small_claims_come_behind_large_ones(rt: HostRuntime) {
    let alloc = rt.alloc();
    assert!(rt;
        is_set_off(
            &rt,
            alloc,
            &CROSSED,
            &[(0, 0); 3],
            2_995_000,
            Search::ByShares
        )
    );
}

// A ring of 200 firms, whose first claim holds least, and for each of the others a small claim back.
fn ring_with_small(rt: &impl Abort, alloc: Global) -> Vec<Owed> {
    let mut owed = Vec::new(alloc);
    owed.push((0, 1, 1_000_000)).expect(rt, "memory");
    for firm in 1..200u32 {
        let next = (firm + 1) % 200;
        owed.push((firm, next, 1_010_000)).expect(rt, "memory");
        owed.push((next, firm, 10 + u64::from(firm)))
            .expect(rt, "memory");
    }
    owed
}

#[test]
fn all_claims_come_by_shares(rt: HostRuntime) {
    let alloc = rt.alloc();
    let owed = ring_with_small(&rt, alloc);
    assert!(rt;
        is_set_off(
            &rt,
            alloc,
            &owed,
            &[(0, 0); 200],
            200_043_780,
            Search::ByShares
        )
    );
}

// The prices of the ring, at which the first claim alone gains.
fn ring_prices(rt: &impl Abort, alloc: Global) -> Vec<i64> {
    let mut prices = Vec::new(alloc);
    prices.push(200).expect(rt, "memory");
    for firm in 1..200u32 {
        prices.push(i64::from(firm)).expect(rt, "memory");
    }
    prices
}

// What is found by shares from where the ring is at rest, and nothing of the small claims is set off.
fn found_from_ring(rt: &impl Abort, alloc: Global, state: &State) -> Solution {
    let begun = beginning_of(rt, alloc, state);
    let mut flows = Vec::new(alloc);
    for edge in &state.edges {
        flows
            .push(edge.capacity / 1_000_000 * 1_000_000)
            .expect(rt, "memory");
    }
    let prices = ring_prices(rt, alloc);
    let excess = vec![in alloc; 0i128; state.excess.len()].expect(rt, "memory");
    let start = Start {
        edges: &state.edges,
        halves: &begun.halves,
        flows: &flows,
        prices: &prices,
        excess: &excess,
        windows: &begun.windows,
    };
    let found = seek_by_shares(alloc, &start).expect(rt, "memory");
    found.expect(rt, "a solution")
}

// The small claims come in shares of fifty, and the tree lets through at once what is bad of one. They hold 218.90 together, and the ring
// takes as much more.
#[test]
fn a_share_is_filled_at_once(rt: HostRuntime) {
    let alloc = rt.alloc();
    let owed = ring_with_small(&rt, alloc);
    assert!(rt;
        is_set_off(
            &rt,
            alloc,
            &owed,
            &[(0, 0); 200],
            200_043_780,
            Search::FromRing
        )
    );
}
