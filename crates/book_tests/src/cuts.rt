//! Cuts of claims and accounts, and windows.
use crate::acts::name;
use crate::facts::{are_facts, keeps_limits};
use claim_history::{AccountFact, ClaimFact, Day, Status};
use round_cut::{build_cut, cut_of_a_history_is_of_its_facts, open_cut_is_well_formed, window};
use setoff_model::{Cut, CutClaim, Key, Kind, Name, Party};
use std::alloc::Global;
use std::process::Abort;

// The cut of a round 1 of claims and accounts of which one may be made.
fn cut_of(
    rt: &impl Abort,
    alloc: Global,
    claims: &[ClaimFact],
    accounts: &[AccountFact],
    kind: Kind,
    horizon: Day,
) -> Cut {
    assert!(rt; are_facts(claims, accounts));
    build_cut(alloc, claims, accounts, kind, horizon, 1).expect(rt, "memory")
}

// ---- windows

fn account(firm: Name, balance: i64, credit: u64, ceiling: u64, offer: u64) -> AccountFact {
    AccountFact {
        firm,
        balance,
        credit,
        ceiling,
        offer,
    }
}

// An account as it is registered.
fn new_account(firm: Name) -> AccountFact {
    account(firm, 0, 0, 1_000_000_000_000_000, 0)
}

// An account that is within its limits has this window.
fn window_is(rt: &impl Abort, account: &AccountFact, kind: Kind, due: (u64, u64)) {
    assert!(rt; keeps_limits(account));
    assert!(rt; window(account, kind) == due);
}

#[test]
fn windows_of_accounts(rt: HostRuntime) {
    cut_of_a_history_is_of_its_facts();
    open_cut_is_well_formed();
    let firm = name(&rt, b"A");
    let most = 999_999_999_999;
    let ceiling = 1_000_000_000_000_000;
    let rich = account(firm, 6_000, 0, ceiling, 6_000);
    let owing = account(firm, -2_000, 5_000, 1_000, 10_000);
    let deep = account(firm, -999_999_999_999, most, 0, 1);
    let full = account(firm, 1_000_000_000_000_000, most, ceiling, 7);
    window_is(&rt, &rich, Kind::Funded, (6_000, 999_999_999_994_000));
    window_is(&rt, &rich, Kind::Plain, (0, 0));
    window_is(&rt, &owing, Kind::Funded, (3_000, 3_000));
    window_is(&rt, &deep, Kind::Funded, (0, most));
    window_is(&rt, &full, Kind::Funded, (7, 0));
}

// ---- the triangle

// Three firms and the names of four invoices.
#[derive(Clone, Copy)]
struct Names {
    a: Name,
    b: Name,
    c: Name,
    invoices: [Name; 4],
    day: Day,
}

fn day(rt: &impl Abort, number: u32) -> Day {
    Day::of_number(number).expect(rt, "a day")
}

fn make_names(rt: &impl Abort) -> Names {
    Names {
        a: name(rt, b"A"),
        b: name(rt, b"B"),
        c: name(rt, b"C"),
        invoices: [
            name(rt, b"I-1"),
            name(rt, b"I-2"),
            name(rt, b"I-3"),
            name(rt, b"I-4"),
        ],
        day: day(rt, 20_119),
    }
}

// A confirmed claim with its amount as filed, its open amount and its part.
fn claim(
    creditor: Name,
    invoice: Name,
    debtor: Name,
    amounts: (u64, u64, u64),
    due: Day,
) -> ClaimFact {
    let (amount, left, part) = amounts;
    ClaimFact {
        key: Key { creditor, invoice },
        debtor,
        status: Status::Confirmed,
        amount,
        left,
        part,
        due,
    }
}

fn placed(creditor: Name, invoice: Name, debtor: u32, place: u32, amount: u64) -> CutClaim {
    CutClaim {
        key: Key { creditor, invoice },
        debtor,
        creditor: place,
        amount,
    }
}

fn plain(firm: Name) -> Party {
    Party {
        firm,
        spend: 0,
        room: 0,
    }
}

// Whether a cut is that of a plain round 1 among the three firms, with these claims.
fn is_cut(cut: &Cut, names: &Names, claims: &[CutClaim]) -> bool {
    let parties = [plain(names.a), plain(names.b), plain(names.c)];
    let is_first = cut.round() == 1 && cut.kind() == Kind::Plain;
    is_first && cut.parties() == parties.as_slice() && cut.claims() == claims
}

// The cut of these claims among the three firms has these claims.
fn cuts_to(rt: &impl Abort, alloc: Global, names: &Names, claims: &[ClaimFact], due: &[CutClaim]) {
    let accounts = [
        new_account(names.c),
        new_account(names.b),
        new_account(names.a),
    ];
    let cut = cut_of(rt, alloc, claims, &accounts, Kind::Plain, names.day);
    assert!(rt; is_cut(&cut, names, due));
    drop(cut);
}

#[test]
fn the_triangle(rt: HostRuntime) {
    let names = make_names(&rt);
    let Names {
        a,
        b,
        c,
        invoices: [i1, i2, i3, _],
        day,
    } = names;
    let claims = [
        claim(b, i1, a, (1000, 1000, 1000), day),
        claim(c, i2, b, (700, 700, 700), day),
        claim(a, i3, c, (1200, 1200, 1200), day),
    ];
    let due = [
        placed(b, i1, 0, 1, 1000),
        placed(c, i2, 1, 2, 700),
        placed(a, i3, 2, 0, 1200),
    ];
    cuts_to(&rt, rt.alloc(), &names, &claims, &due);
}

// After a round of 7.00 on each claim of the triangle, and B I-4 A 2.00, of which A agrees to 1.50.
#[test]
fn the_triangle_after_a_round(rt: HostRuntime) {
    let names = make_names(&rt);
    let Names {
        a,
        b,
        c,
        invoices: [i1, i2, i3, i4],
        day,
    } = names;
    let claims = [
        claim(b, i1, a, (1000, 300, 300), day),
        claim(c, i2, b, (700, 0, 0), day),
        claim(a, i3, c, (1200, 500, 500), day),
        claim(b, i4, a, (200, 200, 150), day),
    ];
    let due = [
        placed(b, i1, 0, 1, 300),
        placed(a, i3, 2, 0, 500),
        placed(b, i4, 0, 1, 150),
    ];
    cuts_to(&rt, rt.alloc(), &names, &claims, &due);
}

#[test]
fn no_claims(rt: HostRuntime) {
    let cut = cut_of(&rt, rt.alloc(), &[], &[], Kind::Funded, day(&rt, 0));
    assert!(rt; cut.parties().is_empty() && cut.claims().is_empty() && cut.kind() == Kind::Funded);
    drop(cut);
}

// ---- a table of claims

// The name of this letter and three digits of the number.
fn numbered(rt: &impl Abort, letter: u8, number: u32) -> Name {
    let digit = |unit: u32| b'0' + (number / unit % 10) as u8;
    name(rt, &[letter, digit(100), digit(10), digit(1)])
}

fn ruled_status(number: u32) -> Status {
    match number % 7 {
        0 => Status::Filed,
        1 => Status::Disputed,
        2 => Status::Withdrawn,
        _ => Status::Confirmed,
    }
}

// What a debtor agrees to of an open amount by a fixed rule: half of it where the claim is one in five.
fn ruled_part(number: u32, left: u64) -> u64 {
    match ruled_status(number) {
        Status::Confirmed if number % 5 == 0 => left / 2,
        Status::Confirmed => left,
        Status::Filed | Status::Disputed | Status::Withdrawn => 0,
    }
}

// A claim by a fixed rule, between two of nine firms: one in eleven is paid, and due days are around day 20,000.
fn ruled_claim(rt: &impl Abort, number: u32) -> ClaimFact {
    let debtor = number / 3 % 9;
    let creditor = (debtor + 1 + number % 8) % 9;
    let amount = 1 + u64::from(number % 101 * 37 % 101);
    let left = if number % 11 == 0 {
        0
    } else {
        amount.div_ceil(2)
    };
    ClaimFact {
        key: Key {
            creditor: numbered(rt, b'F', creditor),
            invoice: numbered(rt, b'I', number),
        },
        debtor: numbered(rt, b'F', debtor),
        status: ruled_status(number),
        amount,
        left,
        part: ruled_part(number, left),
        due: day(rt, 19_994 + number % 13),
    }
}

fn ruled_claims(rt: &impl Abort, alloc: Global) -> Vec<ClaimFact> {
    let mut claims = Vec::new(alloc);
    for number in 0..400 {
        claims.push(ruled_claim(rt, number)).expect(rt, "memory");
    }
    claims
}

// Accounts of twelve firms, three of which have no claim.
fn ruled_accounts(rt: &impl Abort, alloc: Global) -> Vec<AccountFact> {
    let mut accounts = Vec::new(alloc);
    for number in 0..12_u32 {
        let account = account(
            numbered(rt, b'F', 11 - number),
            i64::from(number) * 700 - 3_000,
            3_000,
            5_000 + u64::from(number),
            u64::from(number) * 500,
        );
        accounts.push(account).expect(rt, "memory");
    }
    accounts
}

// Whether the party at a place is the firm, and whether each party before the place was seen before.
fn is_next(parties: &[Party], place: u32, firm: Name, seen: &mut usize) -> bool {
    let place = place as usize;
    if place == *seen && *seen < usize::MAX {
        *seen += 1;
    }
    match parties.get(place) {
        Some(party) => party.firm == firm && place < *seen,
        None => false,
    }
}

// Whether the window of a party is that of an account, by the rule.
fn has_window(account: &AccountFact, party: &Party) -> bool {
    let balance = i128::from(account.balance);
    let reach = balance + i128::from(account.credit);
    i128::from(party.spend) == reach.min(i128::from(account.offer))
        && i128::from(party.room) == i128::from(account.ceiling) - balance
}

// Whether the window of each party is that of its account.
fn windows_match(cut: &Cut, accounts: &[AccountFact]) -> bool {
    for party in cut.parties() {
        let mut is_right = false;
        for account in accounts {
            if account.firm == party.firm {
                is_right = has_window(account, party);
            }
        }
        if !is_right {
            return false;
        }
    }
    true
}

fn takes_part(claim: &ClaimFact, horizon: Day) -> bool {
    claim.part != 0 && claim.due <= horizon
}

// The cut's claims are those of the table that take part, in its order, among parties in order of appearance.
fn claims_match(rt: &impl Abort, cut: &Cut, claims: &[ClaimFact], horizon: Day) {
    let mut seen = 0;
    let mut place = 0;
    for claim in claims {
        if takes_part(claim, horizon) {
            let found = cut.claims().get(place).expect(rt, "a claim");
            assert!(rt; found.key == claim.key && found.amount == claim.part);
            assert!(rt; is_next(cut.parties(), found.debtor, claim.debtor, &mut seen));
            assert!(rt; is_next(cut.parties(), found.creditor, claim.key.creditor, &mut seen));
            place += 1;
        }
    }
    assert!(rt; place == cut.claims().len() && seen == cut.parties().len());
}

#[test]
fn a_table_of_claims(rt: HostRuntime) {
    let claims = ruled_claims(&rt, rt.alloc());
    let accounts = ruled_accounts(&rt, rt.alloc());
    let horizon = day(&rt, 20_000);
    let cut = cut_of(&rt, rt.alloc(), &claims, &accounts, Kind::Funded, horizon);
    assert!(rt; cut.claims().len() > 100 && cut.parties().len() == 9);
    claims_match(&rt, &cut, &claims, horizon);
    assert!(rt; windows_match(&cut, &accounts));
    drop(cut);
    drop(accounts);
    drop(claims);
}
