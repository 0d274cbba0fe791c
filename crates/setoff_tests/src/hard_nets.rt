//! Nets on which price levels are as many as firms.
use crate::solvers::{Owed, Window, next, total_of};
use setoff_model::Kind;
use std::alloc::Global;
use std::process::Abort;

// The windows of the firms, and what they owe.
#[derive(Drop)]
pub(crate) struct Net {
    pub(crate) windows: Vec<Window>,
    pub(crate) owed: Vec<Owed>,
}

fn owe(rt: &impl Abort, net: &mut Net, debtor: u32, creditor: u32, cents: u64) {
    net.owed
        .push((debtor, creditor, cents))
        .expect(rt, "memory");
}

// So many firms, each with up to 49 cents of liquidity and of room where they are drawn.
pub(crate) fn firms(rt: &impl Abort, alloc: Global, many: u32, seed: Option<u32>) -> Net {
    let mut windows = Vec::new(alloc);
    let mut x = seed.unwrap_or(0);
    for _ in 0..many {
        let window = match seed {
            Some(_) => (u64::from(next(&mut x) % 50), u64::from(next(&mut x) % 50)),
            None => (0, 0),
        };
        windows.push(window).expect(rt, "memory");
    }
    Net {
        windows,
        owed: Vec::new(alloc),
    }
}

// The first firm owes each of the next ones a cent, and each of these owes the one before it all that it was owed so far. Turned
// round, the others owe.
pub(crate) fn ladder(rt: &impl Abort, net: &mut Net, rungs: u32, turned: bool) {
    for place in 0..rungs {
        let foot = rungs.wrapping_sub(place);
        let held = u64::from(place);
        if turned {
            owe(rt, net, foot, 0, 1);
        } else {
            owe(rt, net, 0, foot, 1);
        }
        if 0 < place && turned {
            owe(rt, net, foot, foot.wrapping_add(1), held);
        } else if 0 < place {
            owe(rt, net, foot.wrapping_add(1), foot, held);
        }
    }
}

// Each of so many firms from one on owes the next as much.
pub(crate) fn chain(rt: &impl Abort, net: &mut Net, first: u32, claims: u32, cents: u64) {
    for place in 0..claims {
        let debtor = first.wrapping_add(place);
        owe(rt, net, debtor, debtor.wrapping_add(1), cents);
    }
}

// Two sides of 12 firms from one on: each of the first owes each of the second twice as much as can be set off. The foot of a ladder
// owes the first side.
fn block(rt: &impl Abort, net: &mut Net, first: u32) {
    for place in 0..144u32 {
        let debtor = first.wrapping_add(place / 12);
        let creditor = first.wrapping_add(12 + place % 12);
        owe(rt, net, debtor, creditor, 2);
    }
    for place in 0..12u32 {
        let one = first.wrapping_add(place);
        owe(rt, net, 1, one, 1);
        owe(rt, net, one.wrapping_add(12), one, 12);
    }
}

// A ladder whose rungs are chains of 4 claims. The feet are the firms 1 to 30, and the others stand behind them.
pub(crate) fn comb(rt: &impl Abort, net: &mut Net) {
    for place in 0..30u32 {
        let foot = 30 - place;
        let first = 31 + place * 3;
        owe(rt, net, 0, first, 1);
        chain(rt, net, first, 2, 1);
        owe(rt, net, first + 2, foot, 1);
        if 0 < place {
            owe(rt, net, foot + 1, foot, u64::from(place));
        }
    }
}

// So many claims, drawn between 60 firms from one on.
pub(crate) fn drawn_claims(rt: &impl Abort, net: &mut Net, first: u32, claims: u32, seed: u32) {
    let mut x = seed;
    for _ in 0..claims {
        let debtor = next(&mut x) % 60;
        let creditor = (debtor + 1 + next(&mut x) % 59) % 60;
        let cents = u64::from(next(&mut x)) + 1;
        owe(
            rt,
            net,
            first.wrapping_add(debtor),
            first.wrapping_add(creditor),
            cents,
        );
    }
}

// A round with liquidity where there is any window.
pub(crate) fn kind_of(net: &Net) -> Kind {
    let open = net
        .windows
        .iter()
        .any(|window| 0 < window.0 || 0 < window.1);
    if open { Kind::Funded } else { Kind::Plain }
}

fn total(rt: &impl Abort, alloc: Global, net: &Net) -> u64 {
    total_of(rt, alloc, kind_of(net), &net.windows, &net.owed)
}

// Nothing can be set off on a ladder, and of a block just half.
#[test]
fn solvers_agree_on_ladders(rt: HostRuntime) {
    let alloc = rt.alloc();
    for turned in [false, true] {
        let mut net = firms(&rt, alloc, 61, None);
        ladder(&rt, &mut net, 60, turned);
        assert!(rt; total(&rt, alloc, &net) == 0);
    }
    let mut blocked = firms(&rt, alloc, 105, None);
    ladder(&rt, &mut blocked, 80, false);
    block(&rt, &mut blocked, 81);
    assert!(rt; total(&rt, alloc, &blocked) == 288);
    let mut combed = firms(&rt, alloc, 121, None);
    comb(&rt, &mut combed);
    assert!(rt; total(&rt, alloc, &combed) == 0);
}

// No total is known beforehand here: the solvers find the same one.
#[test]
fn solvers_agree_on_tight_chains(rt: HostRuntime) {
    let alloc = rt.alloc();
    for seed in 1..=3u32 {
        let mut alone = firms(&rt, alloc, 80, Some(seed));
        chain(&rt, &mut alone, 0, 79, 1_000_000);
        let _total = total(&rt, alloc, &alone);
        let mut beside = firms(&rt, alloc, 140, Some(seed));
        chain(&rt, &mut beside, 0, 80, 1_000_000);
        drawn_claims(&rt, &mut beside, 80, 400, seed);
        let _total = total(&rt, alloc, &beside);
    }
}

// A ladder over the firms of a drawn net, and one that begins where such a net ends.
#[test]
fn solvers_agree_on_unions(rt: HostRuntime) {
    let alloc = rt.alloc();
    for seed in 1..=3u32 {
        let mut over = firms(&rt, alloc, 81, None);
        ladder(&rt, &mut over, 80, false);
        drawn_claims(&rt, &mut over, 1, 300, seed);
        let _total = total(&rt, alloc, &over);
        let mut beside = firms(&rt, alloc, 120, None);
        ladder(&rt, &mut beside, 60, true);
        drawn_claims(&rt, &mut beside, 60, 300, seed);
        let _total = total(&rt, alloc, &beside);
    }
}
