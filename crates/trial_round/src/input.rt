//! The input of a trial: firms, claims that are drawn among them, and a round, all in the pool MAIN.
ghost use Rattle.std.specs.Prelude.{◌≡◌, ◌+◌, ◌-◌, ◌*◌, ◌<◌, ◌≤◌, ◌^◌, ◌++◌, ◌∷◌, decimal, true, None, OnOk, IfOk, vec_capacity};
ghost use Rattle.setoff_model.specs.declared.limits.TheConstants.{MOST_CLAIMS, MOST_FIRMS};
ghost use Rattle.setoff_model.specs.Names.{is_letter, is_name};
ghost use Rattle.claim_history.specs.Acts.{is_claim_amount, is_key, is_request};
ghost use Rattle.claim_history.specs.Pools.{main_pool};
ghost use Rattle.claim_history.specs.declared.act.Act.TheVariants as acts;
ghost use Rattle.request_text.specs.Grammar.{request_line};
ghost use Rattle.trial_round.specs.Input.{claim_acts, claim_cents, claim_key, close_act, debtor_place};
ghost use Rattle.trial_round.specs.Input.{filed_and_confirmed, firm_acts, firm_name, other_than, text_of_acts, trial_input};
ghost use Rattle.trial_round.specs.Trial.{IsTrialSize, trial_batch};

use crate::days::{DUE_DAY, HORIZON_DAY};
use crate::draws::Draws;
use claim_history::{Act, Day, main_pool_name};
use request_text::{
    Batch, RequestError, read_requests, write_request, written_requests_are_read_back,
};
use setoff_model::limits::LINE_BYTES;
use setoff_model::{Key, Kind, Name, put, write_whole};
use std::alloc::{AllocError, Global};

/// The bytes of room for a name.
const NAME_BYTES: usize = 80;

// The name of a letter, a dash and a number, which is written in the room of another text.
fn numbered_name(room: &mut Vec<u8>, letter: u8, number: u32) -> Name
    requires letter { is_letter letter ≡ true }
    requires room { 80 ≤ vec_capacity room.old }
    ensures name { result ≡ letter ∷ 45 ∷ decimal number }
    ensures room { 80 ≤ vec_capacity room.new }
{
    room.clear();
    put(room, &[letter, b'-']);
    write_whole(room, u64::from(number));
    match Name::of(room.as_slice()) {
        Some(name) => name,
        None => unreachable!(),
    }
}

// Writes the line of an act that lane 1 is asked for in the pool MAIN.
fn write_line(text: &mut Vec<u8>, act: &Act) -> Result<(), AllocError>
    requires { is_request act.now ≡ true }
    ensures { OnOk result (text.new.items ≡ text.old.items ++ request_line 1 main_pool act.now) }
{
    text.reserve(LINE_BYTES)?;
    write_request(text, 1, &main_pool_name(), act);
    Ok(())
}

// Registers the firms.
fn write_firms(text: &mut Vec<u8>, room: &mut Vec<u8>, firms: u32) -> Result<(), AllocError>
    requires room { 80 ≤ vec_capacity room.old }
    ensures text { OnOk result (text.new.items ≡ text.old.items ++ text_of_acts (firm_acts firms)) }
    ensures room { 80 ≤ vec_capacity room.new }
{
    for registered in 0..firms {
        let firm = numbered_name(room, b'F', registered + 1);
        write_line(text, &Act::Firm { firm })?;
    }
    Ok(())
}

// The place among all firms of a place among the others than the debtor.
fn other_than(debtor: u32, place: u32) -> u32
    requires { place + 1 < 2 ^ 32 }
    ensures { result ≡ other_than debtor place }
{
    if debtor <= place { place + 1 } else { place }
}

/// A claim that was drawn. Its amount is in cents.
#[derive(Clone, Copy)]
struct DrawnClaim {
    key: Key,
    debtor: Name,
    amount: u64,
}

// Draws the claim of a number, from 1, among the firms: its debtor, its creditor and its amount.
fn draw_claim(room: &mut Vec<u8>, draws: &mut Draws, firms: u32, number: u32) -> DrawnClaim
    requires firms { 2 ≤ firms }
    requires few { firms ≤ MOST_FIRMS }
    requires number { 1 ≤ number }
    requires claims { number ≤ MOST_CLAIMS }

    // The generator and the room.
    requires draws { draws.old.made ≡ 3 * (number - 1) }
    requires room { 80 ≤ vec_capacity room.old }

    // The claim.
    ensures key { result.key ≡ claim_key firms draws.old.seed number }
    ensures debtor { result.debtor ≡ firm_name (debtor_place firms draws.old.seed number + 1) }
    ensures amount { result.amount ≡ claim_cents draws.old.seed number }

    // The generator and the room.
    ensures draws { draws.new.made ≡ 3 * number }
    ensures seed { draws.new.seed ≡ draws.old.seed }
    ensures room { 80 ≤ vec_capacity room.new }
{
    let debtor = draws.next() % firms;
    let creditor = other_than(debtor, draws.next() % (firms - 1));
    let amount = u64::from(draws.next()) + 1;
    DrawnClaim {
        key: Key {
            creditor: numbered_name(room, b'F', creditor + 1),
            invoice: numbered_name(room, b'I', number),
        },
        debtor: numbered_name(room, b'F', debtor + 1),
        amount,
    }
}

// Files a claim and confirms it.
fn write_filed(text: &mut Vec<u8>, claim: DrawnClaim) -> Result<(), AllocError>
    requires key { is_key claim.key ≡ true }
    requires debtor { is_name claim.debtor ≡ true }
    requires amount { is_claim_amount claim.amount ≡ true }
    ensures { OnOk result (text.new.items ≡ text.old.items
        ++ request_line 1 main_pool (acts.File claim.key claim.debtor claim.amount DUE_DAY)
        ++ request_line 1 main_pool (acts.Confirm claim.key claim.debtor None)) }
{
    let Some(due) = Day::of_number(DUE_DAY) else {
        unreachable!()
    };
    let filing = Act::File {
        key: claim.key,
        debtor: claim.debtor,
        amount: claim.amount,
        due,
    };
    write_line(text, &filing)?;
    let confirmation = Act::Confirm {
        key: claim.key,
        debtor: claim.debtor,
        agreed: None,
    };
    write_line(text, &confirmation)
}

// Draws the claim of a number, from 1, files it and confirms it.
fn write_claim(
    text: &mut Vec<u8>,
    room: &mut Vec<u8>,
    draws: &mut Draws,
    firms: u32,
    number: u32,
) -> Result<(), AllocError>
    requires firms { 2 ≤ firms }
    requires few { firms ≤ MOST_FIRMS }
    requires number { 1 ≤ number }
    requires claims { number ≤ MOST_CLAIMS }

    // The generator and the room.
    requires draws { draws.old.made ≡ 3 * (number - 1) }
    requires room { 80 ≤ vec_capacity room.old }

    // The lines.
    ensures text { OnOk result (text.new.items ≡ text.old.items ++ text_of_acts (filed_and_confirmed firms draws.old.seed number)) }

    // The generator and the room.
    ensures draws { draws.new.made ≡ 3 * number }
    ensures seed { draws.new.seed ≡ draws.old.seed }
    ensures room { 80 ≤ vec_capacity room.new }
{
    let claim = draw_claim(room, draws, firms, number);
    write_filed(text, claim)
}

// Files so many drawn claims and confirms them.
fn write_claims(
    text: &mut Vec<u8>,
    room: &mut Vec<u8>,
    firms: u32,
    claims: u32,
    seed: u32,
) -> Result<(), AllocError>
    requires size { IsTrialSize firms claims }
    requires room { 80 ≤ vec_capacity room.old }
    ensures { OnOk result (text.new.items ≡ text.old.items ++ text_of_acts (claim_acts firms seed claims)) }
{
    let mut draws = Draws::new(seed);
    for filed in 0..claims {
        write_claim(text, room, &mut draws, firms, filed + 1)?;
    }
    Ok(())
}

// Closes a plain round.
fn write_close(text: &mut Vec<u8>) -> Result<(), AllocError>
    ensures { OnOk result (text.new.items ≡ text.old.items ++ request_line 1 main_pool close_act) }
{
    let Some(horizon) = Day::of_number(HORIZON_DAY) else {
        unreachable!()
    };
    let close = Act::Close {
        kind: Kind::Plain,
        horizon,
    };
    write_line(text, &close)
}

/// The text of the input. The only error is running out of memory.
pub fn trial_text(alloc: Global, firms: u32, claims: u32, seed: u32) -> Result<Vec<u8>, AllocError>
    requires { IsTrialSize firms claims }
    ensures { IfOk result (λ text. text.items ≡ trial_input firms claims seed) }
{
    let mut text = Vec::new(alloc);
    let mut room = Vec::with_capacity(alloc, NAME_BYTES)?;
    write_firms(&mut text, &mut room, firms)?;
    write_claims(&mut text, &mut room, firms, claims, seed)?;
    write_close(&mut text)?;
    Ok(text)
}

/// The one batch of the input. The only error is running out of memory.
pub fn trial_batch(alloc: Global, firms: u32, claims: u32, seed: u32) -> Result<Batch, AllocError>
    requires { IsTrialSize firms claims }
    ensures { IfOk result (λ batch. batch ≡ trial_batch firms claims seed) }
{
    written_requests_are_read_back();
    let text = trial_text(alloc, firms, claims, seed)?;
    match read_requests(alloc, text.as_slice()) {
        Ok(mut batches) => match batches.pop() {
            Some(batch) => Ok(batch),
            None => unreachable!(),
        },
        Err(RequestError::Memory) => Err(AllocError),
        Err(RequestError::BadLine { .. }) => unreachable!(),
    }
}
