//! Writing a body.
ghost use Rattle.std.specs.Prelude.{◌≡◌, ◌+◌, ◌*◌, ◌≤◌, ◌<◌, ◌++◌, ◌∷◌, All, length, unsigned_abs, vec_len, vec_capacity, true};
ghost use Rattle.std.specs.List.{flat_map};
ghost use Rattle.setoff_model.specs.declared.limits.TheConstants.{MOST_CLAIMS, MOST_FIRMS};
ghost use Rattle.setoff_model.specs.declared.kind.Kind.{Kind};
ghost use Rattle.claim_history.specs.declared.act.Act.TheVariants as act;
ghost use Rattle.claim_history.specs.Acts.{is_valid};
ghost use Rattle.claim_history.specs.Needs.{body_length_of};
ghost use Rattle.claim_history.specs.PoolNeeds.{pool_bytes};
ghost use Rattle.act_bodies.specs.Bodies.{four, eight, name_bytes, key_bytes, kind_byte, stored_price};
ghost use Rattle.act_bodies.specs.Bodies.{outcome_bytes, pool_mark, called, fields_of, body_of, is_keepable};

use crate::tag;
use claim_history::{Act, Day, is_main};
use setoff_model::{Key, Kind, Name, Outcome, put};

/// Replaces what the buffer holds by the body of a call. The buffer has room for it, so this takes no memory.
#[tactic(auto, unfolding(crate::specs::Bodies::body_of))]
pub fn encode(buffer: &mut Vec<u8>, caller: u32, pool: &Name, act: &Act)
    requires kept { is_keepable (called caller pool.now act.now) ≡ true }
    requires spare { body_length_of act.now + pool_bytes pool.now ≤ vec_capacity buffer.old }

    // The buffer holds the body, and has no less room.
    ensures body { buffer.new.items ≡ body_of (called caller pool.now act.now) }
    ensures len { length buffer.new.items ≡ body_length_of act.now + pool_bytes pool.now }
    ensures room { vec_capacity buffer.old ≤ vec_capacity buffer.new }
{
    buffer.clear();
    put(buffer, &caller.to_be_bytes());
    put_pool(buffer, pool);
    put_act(buffer, act);
}

// The tag and the name of a pool other than MAIN.
fn put_pool(buffer: &mut Vec<u8>, pool: &Name)
    requires { vec_len buffer.old + pool_bytes pool.now ≤ vec_capacity buffer.old }
    ensures text { buffer.new.items ≡ buffer.old.items ++ pool_mark pool.now }
    ensures len { vec_len buffer.new ≡ vec_len buffer.old + pool_bytes pool.now }
    ensures room { vec_capacity buffer.old ≤ vec_capacity buffer.new }
{
    if is_main(pool) {
        return;
    }
    put_firm(buffer, tag::POOL, pool);
}

// The tag and the fields.
#[tactic(auto, unfolding(crate::specs::Bodies::fields_of))]
fn put_act(buffer: &mut Vec<u8>, act: &Act)
    requires valid { is_valid act.now ≡ true }
    requires spare { vec_len buffer.old + body_length_of act.now ≤ vec_capacity buffer.old + 4 }

    // The fields stand behind what was there.
    ensures fields { buffer.new.items ≡ buffer.old.items ++ fields_of act.now }
    ensures len { vec_len buffer.new + 4 ≡ vec_len buffer.old + body_length_of act.now }
    ensures room { vec_capacity buffer.old ≤ vec_capacity buffer.new }
{
    match act {
        Act::Firm { firm } => put_firm(buffer, tag::FIRM, firm),
        Act::File {
            key,
            debtor,
            amount,
            due,
        } => put_file(buffer, key, debtor, *amount, due),
        Act::Confirm {
            key,
            debtor,
            agreed,
        } => put_confirm(buffer, key, debtor, *agreed),
        Act::Dispute { key, debtor } => put_claim(buffer, tag::DISPUTE, key, debtor),
        Act::Withdraw { key } => put_key(buffer, tag::WITHDRAW, key),
        Act::Receive { key, amount } => put_receive(buffer, key, *amount),
        Act::Fund { firm, amount } => put_account(buffer, tag::FUND, firm, *amount),
        Act::Draw { firm, amount } => put_account(buffer, tag::DRAW, firm, *amount),
        Act::Limit {
            firm,
            credit,
            ceiling,
        } => put_limit(buffer, firm, *credit, *ceiling),
        Act::Offer { firm, amount } => put_account(buffer, tag::OFFER, firm, *amount),
        Act::Position { firm } => put_firm(buffer, tag::POSITION, firm),
        Act::Close { kind, horizon } => put_close(buffer, *kind, horizon),
        Act::Abandon => put(buffer, &[tag::ABANDON]),
        Act::Publish { round, outcome } => put_publish(buffer, *round, outcome),
    }
}

fn put_name(buffer: &mut Vec<u8>, name: &Name)
    requires { vec_len buffer.old + 1 + length name.now ≤ vec_capacity buffer.old }
    ensures text { buffer.new.items ≡ buffer.old.items ++ name_bytes name.now }
    ensures len { vec_len buffer.new ≡ vec_len buffer.old + 1 + length name.now }
    ensures room { vec_capacity buffer.old ≤ vec_capacity buffer.new }
{
    let bytes = name.bytes();
    put(buffer, &[bytes.len() as u8]);
    put(buffer, bytes);
}

// A number of 4 bytes.
fn put_four(buffer: &mut Vec<u8>, number: u32)
    requires { vec_len buffer.old + 4 ≤ vec_capacity buffer.old }
    ensures text { buffer.new.items ≡ buffer.old.items ++ four number }
    ensures len { vec_len buffer.new ≡ vec_len buffer.old + 4 }
    ensures room { vec_capacity buffer.old ≤ vec_capacity buffer.new }
{
    put(buffer, &number.to_be_bytes());
}

// A number of 8 bytes.
fn put_eight(buffer: &mut Vec<u8>, number: u64)
    requires { vec_len buffer.old + 8 ≤ vec_capacity buffer.old }
    ensures text { buffer.new.items ≡ buffer.old.items ++ eight number }
    ensures len { vec_len buffer.new ≡ vec_len buffer.old + 8 }
    ensures room { vec_capacity buffer.old ≤ vec_capacity buffer.new }
{
    put(buffer, &number.to_be_bytes());
}

// A tag and a name.
fn put_firm(buffer: &mut Vec<u8>, tag: u8, firm: &Name)
    requires { vec_len buffer.old + 2 + length firm.now ≤ vec_capacity buffer.old }
    ensures text { buffer.new.items ≡ buffer.old.items ++ tag ∷ name_bytes firm.now }
    ensures len { vec_len buffer.new ≡ vec_len buffer.old + 2 + length firm.now }
    ensures room { vec_capacity buffer.old ≤ vec_capacity buffer.new }
{
    put(buffer, &[tag]);
    put_name(buffer, firm);
}

// A tag and a key.
fn put_key(buffer: &mut Vec<u8>, tag: u8, key: &Key)
    requires { vec_len buffer.old + 3 + length key.now.creditor + length key.now.invoice ≤ vec_capacity buffer.old }
    ensures text { buffer.new.items ≡ buffer.old.items ++ tag ∷ key_bytes key.now }
    ensures len { vec_len buffer.new ≡ vec_len buffer.old + 3 + length key.now.creditor + length key.now.invoice }
    ensures room { vec_capacity buffer.old ≤ vec_capacity buffer.new }
{
    put_firm(buffer, tag, &key.creditor);
    put_name(buffer, &key.invoice);
}

// A tag, a key and a debtor.
fn put_claim(buffer: &mut Vec<u8>, tag: u8, key: &Key, debtor: &Name)
    requires { vec_len buffer.old + 4 + length key.now.creditor + length key.now.invoice + length debtor.now ≤ vec_capacity buffer.old }
    ensures text { buffer.new.items ≡ buffer.old.items ++ tag ∷ key_bytes key.now ++ name_bytes debtor.now }
    ensures len { vec_len buffer.new ≡ vec_len buffer.old + 4 + length key.now.creditor + length key.now.invoice + length debtor.now }
    ensures room { vec_capacity buffer.old ≤ vec_capacity buffer.new }
{
    put_key(buffer, tag, key);
    put_name(buffer, debtor);
}

fn put_file(buffer: &mut Vec<u8>, key: &Key, debtor: &Name, amount: u64, due: &Day)
    requires { vec_len buffer.old + 16 + length key.now.creditor + length key.now.invoice + length debtor.now ≤ vec_capacity buffer.old }
    ensures text { buffer.new.items ≡ buffer.old.items ++ 2 ∷ key_bytes key.now ++ name_bytes debtor.now ++ eight amount ++ four due.now }
    ensures len { vec_len buffer.new ≡ vec_len buffer.old + 16 + length key.now.creditor + length key.now.invoice + length debtor.now }
    ensures room { vec_capacity buffer.old ≤ vec_capacity buffer.new }
{
    put_claim(buffer, tag::FILE, key, debtor);
    put_eight(buffer, amount);
    put_four(buffer, due.number());
}

// A confirmation, with the amount that the debtor agrees to where it names one.
#[tactic(auto, unfolding(crate::specs::Bodies::fields_of))]
fn put_confirm(buffer: &mut Vec<u8>, key: &Key, debtor: &Name, agreed: Option<u64>)
    requires { vec_len buffer.old + body_length_of (act.Confirm key.now debtor.now agreed) ≤ vec_capacity buffer.old + 4 }
    ensures text { buffer.new.items ≡ buffer.old.items ++ fields_of (act.Confirm key.now debtor.now agreed) }
    ensures len { vec_len buffer.new + 4 ≡ vec_len buffer.old + body_length_of (act.Confirm key.now debtor.now agreed) }
    ensures room { vec_capacity buffer.old ≤ vec_capacity buffer.new }
{
    match agreed {
        None => put_claim(buffer, tag::CONFIRM, key, debtor),
        Some(agreed) => {
            put_claim(buffer, tag::AGREE, key, debtor);
            put_eight(buffer, agreed);
        }
    }
}

fn put_receive(buffer: &mut Vec<u8>, key: &Key, amount: u64)
    requires { vec_len buffer.old + 11 + length key.now.creditor + length key.now.invoice ≤ vec_capacity buffer.old }
    ensures text { buffer.new.items ≡ buffer.old.items ++ 6 ∷ key_bytes key.now ++ eight amount }
    ensures len { vec_len buffer.new ≡ vec_len buffer.old + 11 + length key.now.creditor + length key.now.invoice }
    ensures room { vec_capacity buffer.old ≤ vec_capacity buffer.new }
{
    put_key(buffer, tag::RECEIVE, key);
    put_eight(buffer, amount);
}

// A tag, a firm and an amount.
fn put_account(buffer: &mut Vec<u8>, tag: u8, firm: &Name, amount: u64)
    requires { vec_len buffer.old + 10 + length firm.now ≤ vec_capacity buffer.old }
    ensures text { buffer.new.items ≡ buffer.old.items ++ tag ∷ name_bytes firm.now ++ eight amount }
    ensures len { vec_len buffer.new ≡ vec_len buffer.old + 10 + length firm.now }
    ensures room { vec_capacity buffer.old ≤ vec_capacity buffer.new }
{
    put_firm(buffer, tag, firm);
    put_eight(buffer, amount);
}

fn put_limit(buffer: &mut Vec<u8>, firm: &Name, credit: u64, ceiling: u64)
    requires { vec_len buffer.old + 18 + length firm.now ≤ vec_capacity buffer.old }
    ensures text { buffer.new.items ≡ buffer.old.items ++ 9 ∷ name_bytes firm.now ++ eight credit ++ eight ceiling }
    ensures len { vec_len buffer.new ≡ vec_len buffer.old + 18 + length firm.now }
    ensures room { vec_capacity buffer.old ≤ vec_capacity buffer.new }
{
    put_account(buffer, tag::LIMIT, firm, credit);
    put_eight(buffer, ceiling);
}

fn put_close(buffer: &mut Vec<u8>, kind: Kind, horizon: &Day)
    requires { vec_len buffer.old + 6 ≤ vec_capacity buffer.old }
    ensures text { buffer.new.items ≡ buffer.old.items ++ 12 ∷ kind_byte kind ∷ four horizon.now }
    ensures len { vec_len buffer.new ≡ vec_len buffer.old + 6 }
    ensures room { vec_capacity buffer.old ≤ vec_capacity buffer.new }
{
    put(buffer, &[tag::CLOSE, byte_of(kind)]);
    put_four(buffer, horizon.number());
}

fn byte_of(kind: Kind) -> u8
    ensures { result ≡ kind_byte kind }
{
    match kind {
        Kind::Plain => 0,
        Kind::Funded => 1,
    }
}

fn put_publish(buffer: &mut Vec<u8>, round: u32, outcome: &Outcome)
    requires spare { vec_len buffer.old + 13 + (8 * length outcome.now.discharges
        + 4 * length outcome.now.prices) ≤ vec_capacity buffer.old }
    requires discharges { length outcome.now.discharges ≤ MOST_CLAIMS }
    requires prices { length outcome.now.prices ≤ MOST_FIRMS }
    requires near { All (λ p. unsigned_abs p ≤ length outcome.now.prices) outcome.now.prices }

    // The tag, the round and the outcome stand behind what was there.
    ensures text { buffer.new.items ≡ buffer.old.items ++ 14 ∷ four round ++ outcome_bytes outcome.now }
    ensures len { vec_len buffer.new ≡ vec_len buffer.old + 13 + (8 * length outcome.now.discharges + 4 * length outcome.now.prices) }
    ensures room { vec_capacity buffer.old ≤ vec_capacity buffer.new }
{
    put(buffer, &[tag::PUBLISH]);
    put_four(buffer, round);
    let discharges = outcome.discharges();
    put_four(buffer, discharges.len() as u32);
    put_eights(buffer, discharges);
    let prices = outcome.prices();
    put_four(buffer, prices.len() as u32);
    put_prices(buffer, prices);
}

fn put_eights(buffer: &mut Vec<u8>, numbers: &[u64])
    requires { vec_len buffer.old + 8 * length numbers.now ≤ vec_capacity buffer.old }
    ensures text { buffer.new.items ≡ buffer.old.items ++ flat_map eight numbers.now }
    ensures len { vec_len buffer.new ≡ vec_len buffer.old + 8 * length numbers.now }
    ensures room { vec_capacity buffer.old ≤ vec_capacity buffer.new }
{
    for number in numbers {
        put_eight(buffer, *number);
    }
}

fn put_prices(buffer: &mut Vec<u8>, prices: &[i64])
    requires spare { vec_len buffer.old + 4 * length prices.now ≤ vec_capacity buffer.old }
    requires few { length prices.now ≤ MOST_FIRMS }
    requires near { All (λ p. unsigned_abs p ≤ length prices.now) prices.now }

    // The prices stand behind what was there.
    ensures text { buffer.new.items ≡ buffer.old.items ++ flat_map (λ p. four (stored_price (length prices.now) p)) prices.now }
    ensures len { vec_len buffer.new ≡ vec_len buffer.old + 4 * length prices.now }
    ensures room { vec_capacity buffer.old ≤ vec_capacity buffer.new }
{
    let n = prices.len() as u32;
    for price in prices {
        put_price(buffer, n, *price);
    }
}

// A price of n parties.
fn put_price(buffer: &mut Vec<u8>, n: u32, price: i64)
    requires spare { vec_len buffer.old + 4 ≤ vec_capacity buffer.old }
    requires few { n ≤ MOST_FIRMS }
    requires near { unsigned_abs price ≤ n }

    // The price stands behind what was there.
    ensures text { buffer.new.items ≡ buffer.old.items ++ four (stored_price n price) }
    ensures len { vec_len buffer.new ≡ vec_len buffer.old + 4 }
    ensures room { vec_capacity buffer.old ≤ vec_capacity buffer.new }
{
    put_four(buffer, (price + i64::from(n)).unsigned_abs() as u32);
}
