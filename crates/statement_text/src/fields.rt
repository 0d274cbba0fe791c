//! The line that a text is, read by its fields.
ghost use Rattle.std.specs.Prelude.{◌≡◌, ◌∷◌, ◌<◌, ◌≤◌, ℕ, [], codes, decimal, map, IfOk, IfSome, IfNone};
ghost use Rattle.setoff_model.specs.Texts.{cents_text};
ghost use Rattle.statement_text.specs.Lines.{AreFields, AreNoFields, IsLine, IsNoLine};

use crate::line::Line;
use setoff_model::limits::{MOST_ROUNDS, MOST_WINDOW};
use setoff_model::{
    Key, Name, Party, read_claim_amount, read_kind, read_number, read_price, read_sum,
};
use std::alloc::{AllocError, Global};
use text_lines::{fields_of, joined_fields_are_cut_again};

// The number of a round that a field is.
#[tactic(auto, using(crate::proofs::Words::same_number))]
fn round_at(field: &[u8]) -> Option<u32>
    ensures found { IfSome result (λ n. (field.now ≡ decimal n) × (1 ≤ n)) }
    ensures none { IfNone result ((n : ℕ) → 1 ≤ n → n ≤ MOST_ROUNDS → field.now ≡ decimal n → ⊥) }
{
    match read_number(field) {
        Some(number) if 1 <= number && number <= u64::from(MOST_ROUNDS) => Some(number as u32),
        _ => None,
    }
}

// The spend or the room that a field is.
#[tactic(auto, using(crate::proofs::Words::same_cents))]
fn window_at(field: &[u8]) -> Option<u64>
    ensures found { IfSome result (λ c. (field.now ≡ cents_text c) × (c ≤ MOST_WINDOW)) }
    ensures none { IfNone result ((c : ℕ) → c ≤ MOST_WINDOW → field.now ≡ cents_text c → ⊥) }
{
    match read_sum(field) {
        Some(cents) if cents <= MOST_WINDOW => Some(cents),
        _ => None,
    }
}

// The line of a word and the fields after it.
fn line_of_word(word: &[u8], args: &[&[u8]]) -> Option<Line>
    ensures found { IfSome result (AreFields (word.now ∷ map (λ f. f.now) args.now)) }
    ensures none { IfNone result (AreNoFields (word.now ∷ map (λ f. f.now) args.now)) }
{
    if word == b"ROUND".as_slice() {
        head_of(args)
    } else if word == b"PARTY".as_slice() {
        party_of(args)
    } else if word == b"CLAIM".as_slice() {
        claim_of(args)
    } else if word == b"END".as_slice() {
        end_of(args)
    } else {
        None
    }
}

fn head_of(args: &[&[u8]]) -> Option<Line>
    ensures found { IfSome result (AreFields (codes "ROUND" ∷ map (λ f. f.now) args.now)) }
    ensures none { IfNone result (AreNoFields (codes "ROUND" ∷ map (λ f. f.now) args.now)) }
{
    let [round, kind] = args else {
        return None;
    };
    read_head(round, kind)
}

fn read_head(round: &[u8], kind: &[u8]) -> Option<Line>
    ensures found { IfSome result (AreFields (codes "ROUND" ∷ round.now ∷ kind.now ∷ [])) }
    ensures none { IfNone result (AreNoFields (codes "ROUND" ∷ round.now ∷ kind.now ∷ [])) }
{
    let round = round_at(round)?;
    let kind = read_kind(kind)?;
    Some(Line::Head { round, kind })
}

fn party_of(args: &[&[u8]]) -> Option<Line>
    ensures found { IfSome result (AreFields (codes "PARTY" ∷ map (λ f. f.now) args.now)) }
    ensures none { IfNone result (AreNoFields (codes "PARTY" ∷ map (λ f. f.now) args.now)) }
{
    let [firm, spend, room, price] = args else {
        return None;
    };
    read_party(firm, spend, room, price)
}

fn read_party(firm: &[u8], spend: &[u8], room: &[u8], price: &[u8]) -> Option<Line>
    ensures found { IfSome result (AreFields (codes "PARTY" ∷ firm.now ∷ spend.now ∷ room.now ∷ price.now ∷ [])) }
    ensures none { IfNone result (AreNoFields (codes "PARTY" ∷ firm.now ∷ spend.now ∷ room.now ∷ price.now ∷ [])) }
{
    let firm = Name::of(firm)?;
    let spend = window_at(spend)?;
    let room = window_at(room)?;
    let price = read_price(price)?;
    Some(Line::Party {
        party: Party { firm, spend, room },
        price,
    })
}

fn claim_of(args: &[&[u8]]) -> Option<Line>
    ensures found { IfSome result (AreFields (codes "CLAIM" ∷ map (λ f. f.now) args.now)) }
    ensures none { IfNone result (AreNoFields (codes "CLAIM" ∷ map (λ f. f.now) args.now)) }
{
    let [creditor, invoice, debtor, amount, discharge] = args else {
        return None;
    };
    read_claim(creditor, invoice, debtor, amount, discharge)
}

fn read_claim(
    creditor: &[u8],
    invoice: &[u8],
    debtor: &[u8],
    amount: &[u8],
    discharge: &[u8],
) -> Option<Line>
    ensures found { IfSome result (AreFields (codes "CLAIM" ∷ creditor.now ∷ invoice.now ∷ debtor.now ∷ amount.now ∷ discharge.now ∷ [])) }
    ensures none { IfNone result (AreNoFields (codes "CLAIM" ∷ creditor.now ∷ invoice.now ∷ debtor.now ∷ amount.now ∷ discharge.now ∷ [])) }
{
    let creditor = Name::of(creditor)?;
    let invoice = Name::of(invoice)?;
    let debtor = Name::of(debtor)?;
    let amount = read_claim_amount(amount)?;
    let discharge = read_sum(discharge)?;
    Some(Line::Claim {
        key: Key { creditor, invoice },
        debtor,
        amount,
        discharge,
    })
}

fn end_of(args: &[&[u8]]) -> Option<Line>
    ensures found { IfSome result (AreFields (codes "END" ∷ map (λ f. f.now) args.now)) }
    ensures none { IfNone result (AreNoFields (codes "END" ∷ map (λ f. f.now) args.now)) }
{
    match args {
        [] => Some(Line::End),
        _ => None,
    }
}

fn line_of_fields(fields: &[&[u8]]) -> Option<Line>
    ensures found { IfSome result (AreFields (map (λ f. f.now) fields.now)) }
    ensures none { IfNone result (AreNoFields (map (λ f. f.now) fields.now)) }
{
    let [word, args @ ..] = fields else {
        return None;
    };
    line_of_word(word, args)
}

/// The line that a text is; None exactly where it is no line with fields in their ranges.
pub(crate) fn read_line(alloc: Global, text: &[u8]) -> Result<Option<Line>, AllocError>
    ensures found { IfOk result (λ read. IfSome read (IsLine text.now)) }
    ensures none { IfOk result (λ read. IfNone read (IsNoLine text.now)) }
{
    joined_fields_are_cut_again();
    let fields = fields_of(alloc, text)?;
    Ok(line_of_fields(fields.as_slice()))
}
