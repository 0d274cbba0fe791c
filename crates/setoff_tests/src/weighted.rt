//! Set-offs of claims that count more or less, and the verdicts on them.
use crate::cuts::{TRIANGLE, both_ways, claim, party, round, three_firms, triangle};
use crate::solvers::{drawn_cut, next};
use setoff_model::{Cut, Kind, Outcome};
use std::alloc::Global;
use std::process::Abort;
use weighted_setoff::{WeightedChecker, WeightedVerdict, are_weights, solve_weighted};

// A owes B 10.00, long overdue; B owes A 6.00, A owes C 10.00 and C owes B 10.00.
fn long_overdue(rt: &impl Abort, alloc: Global) -> Cut {
    let [a, b, c] = three_firms(rt);
    let parties = [party(a, 0, 0), party(b, 0, 0), party(c, 0, 0)];
    let claims = [
        claim(b, a, 0, 1, 1000),
        claim(a, b, 1, 0, 600),
        claim(c, a, 0, 2, 1000),
        claim(b, c, 2, 1, 1000),
    ];
    round(rt, alloc, Kind::Plain, &parties, &claims)
}

fn verdict_on(
    rt: &impl Abort,
    alloc: Global,
    cut: &Cut,
    weights: &[u32],
    discharges: &[u64],
    prices: &[i64],
) -> WeightedVerdict {
    assert!(rt; cut.well_formed() && are_weights(cut, weights));
    let discharges = discharges.to_vec(alloc).expect(rt, "memory");
    let prices = prices.to_vec(alloc).expect(rt, "memory");
    let mut checker = WeightedChecker::for_cut(alloc, cut).expect(rt, "memory");
    checker.verdict(cut, weights, &Outcome::new(discharges, prices))
}

// The discharges that are found, and the verdict on them.
fn found(
    rt: &impl Abort,
    alloc: Global,
    cut: &Cut,
    weights: &[u32],
    want: &[u64],
) -> WeightedVerdict {
    assert!(rt; cut.well_formed() && are_weights(cut, weights));
    let outcome = solve_weighted(alloc, cut, weights).expect(rt, "memory");
    assert!(rt; outcome.discharges() == want);
    let mut checker = WeightedChecker::for_cut(alloc, cut).expect(rt, "memory");
    checker.verdict(cut, weights, &outcome)
}

#[test]
fn long_overdue_claims_count_more(rt: HostRuntime) {
    let cut = long_overdue(&rt, rt.alloc());
    let verdict = found(&rt, rt.alloc(), &cut, &[9, 1, 1, 1], &[600, 600, 0, 0]);
    assert!(rt; verdict == WeightedVerdict::Greatest { total: 6000 });
    let plain = found(&rt, rt.alloc(), &cut, &[1, 1, 1, 1], &[0, 600, 600, 600]);
    assert!(rt; plain == WeightedVerdict::Greatest { total: 1800 });
}

// A, who may spend 4.00, owes B 10.00 and C 10.00. C may gain 3.00.
fn one_spender(rt: &impl Abort, alloc: Global) -> Cut {
    let [a, b, c] = three_firms(rt);
    let parties = [party(a, 400, 0), party(b, 0, 5000), party(c, 0, 300)];
    let claims = [claim(b, a, 0, 1, 1000), claim(c, a, 0, 2, 1000)];
    round(rt, alloc, Kind::Funded, &parties, &claims)
}

#[test]
fn money_goes_where_it_counts_most(rt: HostRuntime) {
    let cut = one_spender(&rt, rt.alloc());
    let second = found(&rt, rt.alloc(), &cut, &[1, 9], &[100, 300]);
    assert!(rt; second == WeightedVerdict::Greatest { total: 2800 });
    let first = found(&rt, rt.alloc(), &cut, &[9, 1], &[400, 0]);
    assert!(rt; first == WeightedVerdict::Greatest { total: 3600 });
}

// Of two claims on one debtor by one creditor, the one that counts more is discharged first, wherever it stands.
#[test]
fn claims_of_one_pair_stay_apart(rt: HostRuntime) {
    let cut = both_ways(&rt, rt.alloc());
    let later = found(&rt, rt.alloc(), &cut, &[1, 9, 1], &[0, 600, 600]);
    assert!(rt; later == WeightedVerdict::Greatest { total: 6000 });
    let earlier = found(&rt, rt.alloc(), &cut, &[9, 1, 1], &[400, 200, 600]);
    assert!(rt; earlier == WeightedVerdict::Greatest { total: 4400 });
}

#[test]
fn weights_of_one_are_plain(rt: HostRuntime) {
    let cut = triangle(&rt, rt.alloc(), three_firms(&rt), TRIANGLE);
    let verdict = found(&rt, rt.alloc(), &cut, &[1, 1, 1], &[700, 700, 700]);
    assert!(rt; verdict == WeightedVerdict::Greatest { total: 2100 });
    let none = round(&rt, rt.alloc(), Kind::Plain, &[], &[]);
    let nothing = found(&rt, rt.alloc(), &none, &[], &[]);
    assert!(rt; nothing == WeightedVerdict::Greatest { total: 0 });
}

#[test]
fn judges_by_weights(rt: HostRuntime) {
    let cut = long_overdue(&rt, rt.alloc());
    let cases: [(&[u64], &[i64], WeightedVerdict); 7] = [
        (
            &[600, 600, 0, 0],
            &[0, 9, 1],
            WeightedVerdict::Greatest { total: 6000 },
        ),
        (
            &[600, 600, 0, 0],
            &[18, 27, 19],
            WeightedVerdict::Greatest { total: 6000 },
        ),
        (
            &[600, 600, 0, 0],
            &[19, 28, 20],
            WeightedVerdict::PriceRange { party: 1 },
        ),
        (
            &[0, 600, 600, 600],
            &[0, 9, 1],
            WeightedVerdict::NotProved {
                total: 1800,
                bound: 6000,
            },
        ),
        (
            &[600, 601, 0, 0],
            &[0, 9, 1],
            WeightedVerdict::OverAmount { claim: 1 },
        ),
        (
            &[600, 500, 0, 0],
            &[0, 9, 1],
            WeightedVerdict::OutsideWindow { party: 0 },
        ),
        (&[600, 600, 0], &[0, 9, 1], WeightedVerdict::Lengths),
    ];
    for (discharges, prices, want) in cases {
        let got = verdict_on(&rt, rt.alloc(), &cut, &[9, 1, 1, 1], discharges, prices);
        assert!(rt; got == want);
    }
}

#[test]
fn weights_are_from_one_to_nine(rt: HostRuntime) {
    let cut = long_overdue(&rt, rt.alloc());
    assert!(rt; are_weights(&cut, &[9, 1, 1, 1]));
    let others: [&[u32]; 4] = [&[9, 1, 1], &[9, 1, 1, 1, 1], &[9, 0, 1, 1], &[10, 1, 1, 1]];
    for weights in others {
        assert!(rt; !are_weights(&cut, weights));
    }
}

// The weighted total that is found of a drawn cut, whose weights are drawn last.
fn drawn_total(
    rt: &impl Abort,
    alloc: Global,
    kind: Kind,
    firms: u32,
    claims: u32,
    seed: u32,
) -> u64 {
    let mut x = seed;
    let cut = drawn_cut(rt, alloc, kind, firms, claims, &mut x);
    let mut weights = Vec::new(alloc);
    for _ in 0..claims {
        weights.push(next(&mut x) % 9 + 1).expect(rt, "memory");
    }
    assert!(rt; cut.well_formed() && are_weights(&cut, &weights));
    let outcome = solve_weighted(alloc, &cut, &weights).expect(rt, "memory");
    let mut checker = WeightedChecker::for_cut(alloc, &cut).expect(rt, "memory");
    match checker.verdict(&cut, &weights, &outcome) {
        WeightedVerdict::Greatest { total } => total,
        _ => panic!(rt; "not proved"),
    }
}

// The totals are those of another program.
#[test]
fn weighted_totals_of_drawn_cuts(rt: HostRuntime) {
    let alloc = rt.alloc();
    let drawn = [
        (Kind::Plain, 60, 400, 1, 43_534_698),
        (Kind::Plain, 400, 4_000, 7, 532_690_312),
        (Kind::Funded, 60, 400, 3, 50_931_410),
        (Kind::Funded, 400, 4_000, 7, 562_003_173),
    ];
    for (kind, firms, claims, seed, total) in drawn {
        assert!(rt;
            drawn_total(&rt, alloc, kind, firms, claims, seed) == total,
            "{total}"
        );
    }
}
