//! Chains that explain outcomes.
use crate::solvers::{Owed, cut_of, drawn_cut};
use chain_explain::{Chain, Explainer};
use price_certificate::certified;
use setoff_model::{Cut, CutClaim, Kind};
use std::alloc::Global;
use std::process::Abort;
use weighted_setoff::LevelSolver;

// A chain that was given, with the places of its claims.
#[derive(Drop)]
struct Given {
    chain: Chain,
    claims: Vec<u32>,
}

// One number for each claim, and two for each party: what chains discharge, begin and end there.
#[derive(Drop)]
struct Sums {
    claims: Vec<u64>,
    begins: Vec<u64>,
    ends: Vec<u64>,
}

fn add(rt: &impl Abort, sums: &mut [u64], place: usize, amount: u64) {
    let sum = sums.get_mut(place).expect(rt, "a place");
    *sum = sum.checked_add(amount).expect(rt, "a sum");
}

fn no_sums(rt: &impl Abort, alloc: Global, claims: usize, parties: usize) -> Sums {
    Sums {
        claims: vec![in alloc; 0u64; claims].expect(rt, "memory"),
        begins: vec![in alloc; 0u64; parties].expect(rt, "memory"),
        ends: vec![in alloc; 0u64; parties].expect(rt, "memory"),
    }
}

// What chains must come to, where so much is discharged of each claim.
fn due(
    rt: &impl Abort,
    alloc: Global,
    claims: &[CutClaim],
    parties: usize,
    discharges: &[u64],
) -> Sums {
    let mut due = no_sums(rt, alloc, claims.len(), parties);
    for (place, claim) in claims.iter().enumerate() {
        let amount = *discharges.get(place).expect(rt, "a discharge");
        add(rt, &mut due.claims, place, amount);
        add(rt, &mut due.begins, claim.debtor as usize, amount);
        add(rt, &mut due.ends, claim.creditor as usize, amount);
    }
    for (begins, ends) in due.begins.iter_mut().zip(due.ends.iter_mut()) {
        let both = (*begins).min(*ends);
        *begins -= both;
        *ends -= both;
    }
    due
}

fn claim_at(rt: &impl Abort, claims: &[CutClaim], place: u32) -> CutClaim {
    *claims.get(place as usize).expect(rt, "a claim of the cut")
}

// Whether the firm owes one of the claims at these places.
fn owes(rt: &impl Abort, claims: &[CutClaim], places: &[u32], firm: u32) -> bool {
    for &place in places {
        if claim_at(rt, claims, place).debtor == firm {
            return true;
        }
    }
    false
}

// Holds the chain to the rules of chains, and adds it to the sums.
fn add_chain(rt: &impl Abort, sums: &mut Sums, claims: &[CutClaim], chain: Chain, places: &[u32]) {
    let start = claim_at(rt, claims, *places.first().expect(rt, "a claim")).debtor;
    let mut firm = start;
    for (step, &place) in places.iter().enumerate() {
        let claim = claim_at(rt, claims, place);
        assert!(rt; claim.debtor == firm);
        assert!(rt; !owes(rt, claims, &places[step + 1..], firm), "once");
        add(rt, &mut sums.claims, place as usize, chain.amount);
        firm = claim.creditor;
    }
    assert!(rt; 0 < chain.amount && chain.closed == (firm == start));
    if !chain.closed {
        assert!(rt; !owes(rt, claims, places, firm), "open");
        add(rt, &mut sums.begins, start as usize, chain.amount);
        add(rt, &mut sums.ends, firm as usize, chain.amount);
    }
}

// The chains that the explainer gives, at most so many. Then it gives none, and the last one stays.
fn all_given(rt: &impl Abort, alloc: Global, explainer: &mut Explainer, most: usize) -> Vec<Given> {
    let mut all = Vec::new(alloc);
    assert!(rt; explainer.claims().is_empty());
    for _ in 0..most {
        let Some(chain) = explainer.next() else {
            break;
        };
        let claims = explainer.claims().to_vec(alloc).expect(rt, "memory");
        all.push(Given { chain, claims }).expect(rt, "memory");
    }
    let last = explainer.claims().len();
    assert!(rt; explainer.next().is_none() && explainer.next().is_none());
    assert!(rt; explainer.claims().len() == last);
    all
}

// The chains of a greatest set-off of a cut. They add up to it.
fn chains_of(rt: &impl Abort, alloc: Global, cut: Cut) -> Vec<Given> {
    assert!(rt; cut.well_formed());
    let parties = cut.parties().len();
    let claims = cut.claims().to_vec(alloc).expect(rt, "memory");
    let checked = certified(alloc, &LevelSolver::new(), cut).expect(rt, "memory");
    let wanted = due(rt, alloc, &claims, parties, checked.outcome().discharges());
    let mut explainer = Explainer::for_round(alloc, checked).expect(rt, "memory");
    let most = claims.len().saturating_add(parties);
    let given = all_given(rt, alloc, &mut explainer, most);
    let mut sums = no_sums(rt, alloc, claims.len(), parties);
    for one in given.iter() {
        add_chain(rt, &mut sums, &claims, one.chain, &one.claims);
    }
    assert!(rt; sums.claims == wanted.claims);
    assert!(rt; sums.begins == wanted.begins && sums.ends == wanted.ends);
    given
}

// The chains of a round without liquidity among four firms.
fn plain_chains(rt: &impl Abort, alloc: Global, owed: &[Owed]) -> Vec<Given> {
    chains_of(
        rt,
        alloc,
        cut_of(rt, alloc, Kind::Plain, &[(0, 0); 4], owed),
    )
}

// Whether one list is the other, begun at any of its places.
fn is_rotation(one: &[u32], other: &[u32]) -> bool {
    for shift in 0..one.len() {
        let (end, start) = one.split_at(shift);
        if one.len() == other.len() && other.starts_with(start) && other.ends_with(end) {
            return true;
        }
    }
    false
}

// Whether one of the chains is closed, has this amount and these claims, from whichever on.
fn has_closed(given: &[Given], amount: u64, claims: &[u32]) -> bool {
    for one in given {
        let same = one.chain.closed && one.chain.amount == amount;
        if same && is_rotation(&one.claims, claims) {
            return true;
        }
    }
    false
}

// Whether one of the chains is open and has this amount and these claims.
fn has_open(given: &[Given], amount: u64, claims: &[u32]) -> bool {
    for one in given {
        if !one.chain.closed && one.chain.amount == amount && one.claims.as_slice() == claims {
            return true;
        }
    }
    false
}

const ROOM: u64 = 1_000_000_000_000_000;

#[test]
fn closed_chains(rt: HostRuntime) {
    let alloc = rt.alloc();
    let triangle = [(0, 1, 1000), (1, 2, 700), (2, 0, 1200)];
    let given = plain_chains(&rt, alloc, &triangle);
    assert!(rt; given.len() == 1 && has_closed(&given, 700, &[0, 1, 2]));
    let parallel = [(0, 1, 400), (0, 1, 900), (1, 0, 600)];
    let given = plain_chains(&rt, alloc, &parallel);
    assert!(rt; given.len() == 2 && has_closed(&given, 400, &[0, 2]));
    assert!(rt; has_closed(&given, 200, &[1, 2]));
    let nothing = [(0, 1, 1000), (1, 2, 700)];
    let given = plain_chains(&rt, alloc, &nothing);
    assert!(rt; given.is_empty());
}

#[test]
fn chains_that_share(rt: HostRuntime) {
    let alloc = rt.alloc();
    let firm = [(0, 1, 500), (1, 0, 800), (0, 2, 900), (2, 0, 700)];
    let given = plain_chains(&rt, alloc, &firm);
    assert!(rt; given.len() == 2 && has_closed(&given, 500, &[0, 1]));
    assert!(rt; has_closed(&given, 700, &[2, 3]));
    let claim = [
        (0, 1, 1000),
        (1, 2, 400),
        (2, 0, 400),
        (1, 3, 600),
        (3, 0, 600),
    ];
    let given = plain_chains(&rt, alloc, &claim);
    assert!(rt; given.len() == 2 && has_closed(&given, 400, &[0, 1, 2]));
    assert!(rt; has_closed(&given, 600, &[0, 3, 4]));
}

#[test]
fn open_chains(rt: HostRuntime) {
    let alloc = rt.alloc();
    let windows = [(6000, ROOM - 6000), (0, ROOM), (0, ROOM), (0, ROOM)];
    let chain = [(0, 1, 10_000), (1, 2, 10_000)];
    let given = chains_of(
        &rt,
        alloc,
        cut_of(&rt, alloc, Kind::Funded, &windows, &chain),
    );
    assert!(rt; given.len() == 1 && has_open(&given, 6000, &[0, 1]));
    let beside = [(0, 1, 10_000), (1, 2, 10_000), (1, 3, 2000), (3, 1, 2000)];
    let given = chains_of(
        &rt,
        alloc,
        cut_of(&rt, alloc, Kind::Funded, &windows, &beside),
    );
    assert!(rt; given.len() == 2 && has_open(&given, 6000, &[0, 1]));
    assert!(rt; has_closed(&given, 2000, &[2, 3]));
}

#[test]
fn chains_of_drawn_claims(rt: HostRuntime) {
    let alloc = rt.alloc();
    for seed in 1..=6u32 {
        for kind in [Kind::Plain, Kind::Funded] {
            let mut x = seed;
            let cut = drawn_cut(&rt, alloc, kind, 30, 150, &mut x);
            assert!(rt; !chains_of(&rt, alloc, cut).is_empty());
        }
    }
}

// One firm owes each of 100 others ten claims, and is owed as many, so each chain goes there and back.
#[test]
fn chains_of_a_star(rt: HostRuntime) {
    let alloc = rt.alloc();
    let mut owed = Vec::new(alloc);
    for place in 0..1_000u32 {
        let firm = place % 100 + 1;
        owed.push((0, firm, 100)).expect(&rt, "memory");
        owed.push((firm, 0, 100)).expect(&rt, "memory");
    }
    let cut = cut_of(&rt, alloc, Kind::Plain, &[(0, 0); 101], &owed);
    let given = chains_of(&rt, alloc, cut);
    assert!(rt; given.len() == 1_000);
    for one in given.iter() {
        assert!(rt; one.chain.closed && one.chain.amount == 100);
        assert!(rt; one.claims.len() == 2);
    }
}
