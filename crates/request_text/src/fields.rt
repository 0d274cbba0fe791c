//! What a line's fields ask of a lane.
ghost use Rattle.std.specs.Prelude.{◌≡◌, ℕ, decimal, List, ◌∷◌, [], codes, map, true, IfOk, IfErr, IfSome, IfNone};
ghost use Rattle.setoff_model.specs.Names.{is_name};
ghost use Rattle.setoff_model.specs.Texts.{cents_text, kind_text};
ghost use Rattle.text_lines.specs.Fields.{fields};
ghost use Rattle.claim_history.specs.Days.{day_text};
ghost use Rattle.claim_history.specs.Acts.{is_key, is_amount, is_claim_amount, is_day};
ghost use Rattle.request_text.specs.Lanes.{IsLane};
ghost use Rattle.request_text.specs.Pools.{IsOtherPool, pool_field};
ghost use Rattle.request_text.specs.Grammar.{AreActFields, AreArgs, AreFields, ArePoolFields, IsLine};
ghost use Rattle.request_text.specs.Causes.{HasArgsCause, HasCause, HasForm, HasPoolCause, HasVerbCause};
ghost use Rattle.request_text.specs.Causes.{forms_of, verb_text, any_cents, named, of_kind, on_day, some_cents};
ghost use Rattle.request_text.specs.declared.verb.Verb.TheVariants as verbs;

use crate::error::LineCause;
use crate::verb::{Verb, verb_of};
use claim_history::{Act, Day, is_main, main_pool_name};
use setoff_model::limits::MOST_LANES;
use setoff_model::{Key, Kind, Name, read_amount, read_claim_amount, read_kind, read_number};
use std::alloc::{AllocError, Global};
use text_lines::{ended_lines_are_lines, fields_of, joined_fields_are_cut_again};

// The amount from 0.01 on that a field is.
fn amount_at(field: &[u8]) -> Option<u64>
    ensures found { IfSome result (λ cents. (field.now ≡ cents_text cents) × (is_claim_amount cents ≡ true)) }
    ensures none { IfNone result (HasForm some_cents field.now → ⊥) }
{
    read_claim_amount(field)
}

// The amount from 0.00 on that a field is.
fn limit_at(field: &[u8]) -> Option<u64>
    ensures found { IfSome result (λ cents. (field.now ≡ cents_text cents) × (is_amount cents ≡ true)) }
    ensures none { IfNone result (HasForm any_cents field.now → ⊥) }
{
    read_amount(field)
}

// The day that a field is.
fn day_at(field: &[u8]) -> Option<Day>
    ensures found { IfSome result (λ day. (field.now ≡ day_text day) × (is_day day ≡ true)) }
    ensures none { IfNone result (HasForm on_day field.now → ⊥) }
{
    match Day::read(field) {
        Some(day) => {
            let _number = day.number();
            Some(day)
        }
        None => None,
    }
}

// The kind that a field is.
fn kind_at(field: &[u8]) -> Option<Kind>
    ensures found { IfSome result (λ kind. field.now ≡ kind_text kind) }
    ensures none { IfNone result (HasForm of_kind field.now → ⊥) }
{
    read_kind(field)
}

// The key of two fields, the first and the second after the verb.
fn key_at(creditor: &[u8], invoice: &[u8]) -> Result<Key, LineCause>
    ensures found { IfOk result (λ key. (key.creditor ≡ creditor.now) × (key.invoice ≡ invoice.now) × (is_key key ≡ true)) }
    ensures bad { IfErr result (HasArgsCause (named ∷ named ∷ []) (creditor.now ∷ invoice.now ∷ [])) }
{
    let Some(creditor) = Name::of(creditor) else {
        return Err(LineCause::Field(1));
    };
    let Some(invoice) = Name::of(invoice) else {
        return Err(LineCause::Field(2));
    };
    Ok(Key { creditor, invoice })
}

// The firm of one field.
fn one_firm(args: &[&[u8]]) -> Result<Name, LineCause>
    ensures found { IfOk result (λ firm. (map (λ f. f.now) args.now ≡ firm ∷ []) × (is_name firm ≡ true)) }
    ensures bad { IfErr result (HasArgsCause (named ∷ []) (map (λ f. f.now) args.now)) }
{
    let [firm] = args else {
        return Err(LineCause::Fields);
    };
    let Some(firm) = Name::of(firm) else {
        return Err(LineCause::Field(1));
    };
    Ok(firm)
}

// The act of a FIRM's fields.
fn firm_act(args: &[&[u8]]) -> Result<Act, LineCause>
    ensures found { IfOk result (AreArgs (codes "FIRM") (map (λ f. f.now) args.now)) }
    ensures bad { IfErr result (HasArgsCause (forms_of verbs.Firm) (map (λ f. f.now) args.now)) }
{
    let firm = one_firm(args)?;
    Ok(Act::Firm { firm })
}

// The act of a FILE's fields.
fn file_act(args: &[&[u8]]) -> Result<Act, LineCause>
    ensures found { IfOk result (AreArgs (codes "FILE") (map (λ f. f.now) args.now)) }
    ensures bad { IfErr result (HasArgsCause (forms_of verbs.File) (map (λ f. f.now) args.now)) }
{
    let [creditor, invoice, debtor, amount, due] = args else {
        return Err(LineCause::Fields);
    };
    file_of_fields(creditor, invoice, debtor, amount, due)
}

fn file_of_fields(
    creditor: &[u8],
    invoice: &[u8],
    debtor: &[u8],
    amount: &[u8],
    due: &[u8],
) -> Result<Act, LineCause>
    ensures found { IfOk result (AreArgs (codes "FILE") (creditor.now ∷ invoice.now ∷ debtor.now ∷ amount.now ∷ due.now ∷ [])) }
    ensures bad { IfErr result (HasArgsCause (forms_of verbs.File) (creditor.now ∷ invoice.now ∷ debtor.now ∷ amount.now ∷ due.now ∷ [])) }
{
    let key = key_at(creditor, invoice)?;
    let Some(debtor) = Name::of(debtor) else {
        return Err(LineCause::Field(3));
    };
    let Some(amount) = amount_at(amount) else {
        return Err(LineCause::Field(4));
    };
    let Some(due) = day_at(due) else {
        return Err(LineCause::Field(5));
    };
    Ok(Act::File {
        key,
        debtor,
        amount,
        due,
    })
}

// The key and the debtor of three fields.
fn key_and_debtor(args: &[&[u8]]) -> Result<(Key, Name), LineCause>
    ensures found { IfOk result (λ found. (map (λ f. f.now) args.now ≡ found.0.creditor ∷ found.0.invoice ∷ found.1 ∷ [])
        × (is_key found.0 ≡ true) × (is_name found.1 ≡ true)) }
    ensures bad { IfErr result (HasArgsCause (named ∷ named ∷ named ∷ []) (map (λ f. f.now) args.now)) }
{
    let [creditor, invoice, debtor] = args else {
        return Err(LineCause::Fields);
    };
    let key = key_at(creditor, invoice)?;
    let Some(debtor) = Name::of(debtor) else {
        return Err(LineCause::Field(3));
    };
    Ok((key, debtor))
}

// The act of a CONFIRM's fields.
fn confirm_act(args: &[&[u8]]) -> Result<Act, LineCause>
    ensures found { IfOk result (AreArgs (codes "CONFIRM") (map (λ f. f.now) args.now)) }
    ensures bad { IfErr result (HasArgsCause (forms_of verbs.Confirm) (map (λ f. f.now) args.now)) }
{
    if let [creditor, invoice, debtor, amount] = args {
        return confirm_of_fields(creditor, invoice, debtor, amount);
    }
    let (key, debtor) = key_and_debtor(args)?;
    Ok(Act::Confirm {
        key,
        debtor,
        agreed: None,
    })
}

// The act of a CONFIRM's fields with an amount.
fn confirm_of_fields(
    creditor: &[u8],
    invoice: &[u8],
    debtor: &[u8],
    amount: &[u8],
) -> Result<Act, LineCause>
    ensures found { IfOk result (AreArgs (codes "CONFIRM") (creditor.now ∷ invoice.now ∷ debtor.now ∷ amount.now ∷ [])) }
    ensures bad { IfErr result (HasArgsCause (forms_of verbs.Confirm) (creditor.now ∷ invoice.now ∷ debtor.now ∷ amount.now ∷ [])) }
{
    let key = key_at(creditor, invoice)?;
    let Some(debtor) = Name::of(debtor) else {
        return Err(LineCause::Field(3));
    };
    let Some(amount) = amount_at(amount) else {
        return Err(LineCause::Field(4));
    };
    Ok(Act::Confirm {
        key,
        debtor,
        agreed: Some(amount),
    })
}

// The act of a DISPUTE's fields.
fn dispute_act(args: &[&[u8]]) -> Result<Act, LineCause>
    ensures found { IfOk result (AreArgs (codes "DISPUTE") (map (λ f. f.now) args.now)) }
    ensures bad { IfErr result (HasArgsCause (forms_of verbs.Dispute) (map (λ f. f.now) args.now)) }
{
    let (key, debtor) = key_and_debtor(args)?;
    Ok(Act::Dispute { key, debtor })
}

// The act of a WITHDRAW's fields.
fn withdraw_act(args: &[&[u8]]) -> Result<Act, LineCause>
    ensures found { IfOk result (AreArgs (codes "WITHDRAW") (map (λ f. f.now) args.now)) }
    ensures bad { IfErr result (HasArgsCause (forms_of verbs.Withdraw) (map (λ f. f.now) args.now)) }
{
    let [creditor, invoice] = args else {
        return Err(LineCause::Fields);
    };
    let key = key_at(creditor, invoice)?;
    Ok(Act::Withdraw { key })
}

// The act of a RECEIVE's fields.
fn receive_act(args: &[&[u8]]) -> Result<Act, LineCause>
    ensures found { IfOk result (AreArgs (codes "RECEIVE") (map (λ f. f.now) args.now)) }
    ensures bad { IfErr result (HasArgsCause (forms_of verbs.Receive) (map (λ f. f.now) args.now)) }
{
    let [creditor, invoice, amount] = args else {
        return Err(LineCause::Fields);
    };
    let key = key_at(creditor, invoice)?;
    let Some(amount) = amount_at(amount) else {
        return Err(LineCause::Field(3));
    };
    Ok(Act::Receive { key, amount })
}

// The firm and the amount from 0.01 on of two fields.
fn firm_and_amount(args: &[&[u8]]) -> Result<(Name, u64), LineCause>
    ensures found { IfOk result (λ found. (map (λ f. f.now) args.now ≡ found.0 ∷ cents_text found.1 ∷ []) × (is_name found.0 ≡ true)
        × (is_claim_amount found.1 ≡ true)) }
    ensures bad { IfErr result (HasArgsCause (named ∷ some_cents ∷ []) (map (λ f. f.now) args.now)) }
{
    let [firm, amount] = args else {
        return Err(LineCause::Fields);
    };
    let Some(firm) = Name::of(firm) else {
        return Err(LineCause::Field(1));
    };
    let Some(amount) = amount_at(amount) else {
        return Err(LineCause::Field(2));
    };
    Ok((firm, amount))
}

// The act of a FUND's fields.
fn fund_act(args: &[&[u8]]) -> Result<Act, LineCause>
    ensures found { IfOk result (AreArgs (codes "FUND") (map (λ f. f.now) args.now)) }
    ensures bad { IfErr result (HasArgsCause (forms_of verbs.Fund) (map (λ f. f.now) args.now)) }
{
    let (firm, amount) = firm_and_amount(args)?;
    Ok(Act::Fund { firm, amount })
}

// The act of a DRAW's fields.
fn draw_act(args: &[&[u8]]) -> Result<Act, LineCause>
    ensures found { IfOk result (AreArgs (codes "DRAW") (map (λ f. f.now) args.now)) }
    ensures bad { IfErr result (HasArgsCause (forms_of verbs.Draw) (map (λ f. f.now) args.now)) }
{
    let (firm, amount) = firm_and_amount(args)?;
    Ok(Act::Draw { firm, amount })
}

// The act of a LIMIT's fields.
fn limit_act(args: &[&[u8]]) -> Result<Act, LineCause>
    ensures found { IfOk result (AreArgs (codes "LIMIT") (map (λ f. f.now) args.now)) }
    ensures bad { IfErr result (HasArgsCause (forms_of verbs.Limit) (map (λ f. f.now) args.now)) }
{
    let [firm, credit, ceiling] = args else {
        return Err(LineCause::Fields);
    };
    let Some(firm) = Name::of(firm) else {
        return Err(LineCause::Field(1));
    };
    let Some(credit) = limit_at(credit) else {
        return Err(LineCause::Field(2));
    };
    let Some(ceiling) = limit_at(ceiling) else {
        return Err(LineCause::Field(3));
    };
    Ok(Act::Limit {
        firm,
        credit,
        ceiling,
    })
}

// The act of an OFFER's fields.
fn offer_act(args: &[&[u8]]) -> Result<Act, LineCause>
    ensures found { IfOk result (AreArgs (codes "OFFER") (map (λ f. f.now) args.now)) }
    ensures bad { IfErr result (HasArgsCause (forms_of verbs.Offer) (map (λ f. f.now) args.now)) }
{
    let [firm, amount] = args else {
        return Err(LineCause::Fields);
    };
    let Some(firm) = Name::of(firm) else {
        return Err(LineCause::Field(1));
    };
    let Some(amount) = limit_at(amount) else {
        return Err(LineCause::Field(2));
    };
    Ok(Act::Offer { firm, amount })
}

// The act of a POSITION's fields.
fn position_act(args: &[&[u8]]) -> Result<Act, LineCause>
    ensures found { IfOk result (AreArgs (codes "POSITION") (map (λ f. f.now) args.now)) }
    ensures bad { IfErr result (HasArgsCause (forms_of verbs.Position) (map (λ f. f.now) args.now)) }
{
    let firm = one_firm(args)?;
    Ok(Act::Position { firm })
}

// The act of a CLOSE's fields.
fn close_act(args: &[&[u8]]) -> Result<Act, LineCause>
    ensures found { IfOk result (AreArgs (codes "CLOSE") (map (λ f. f.now) args.now)) }
    ensures bad { IfErr result (HasArgsCause (forms_of verbs.Close) (map (λ f. f.now) args.now)) }
{
    let [kind, horizon] = args else {
        return Err(LineCause::Fields);
    };
    let Some(kind) = kind_at(kind) else {
        return Err(LineCause::Field(1));
    };
    let Some(horizon) = day_at(horizon) else {
        return Err(LineCause::Field(2));
    };
    Ok(Act::Close { kind, horizon })
}

// The act of an ABANDON, which has no fields.
fn abandon_act(args: &[&[u8]]) -> Result<Act, LineCause>
    ensures found { IfOk result (AreArgs (codes "ABANDON") (map (λ f. f.now) args.now)) }
    ensures bad { IfErr result (HasArgsCause (forms_of verbs.Abandon) (map (λ f. f.now) args.now)) }
{
    match args {
        [] => Ok(Act::Abandon),
        _ => Err(LineCause::Fields),
    }
}

// The act of a verb and the fields after it.
fn act_of(verb: Verb, args: &[&[u8]]) -> Result<Act, LineCause>
    ensures found { IfOk result (AreArgs (verb_text verb) (map (λ f. f.now) args.now)) }
    ensures bad { IfErr result (HasArgsCause (forms_of verb) (map (λ f. f.now) args.now)) }
{
    match verb {
        Verb::Firm => firm_act(args),
        Verb::File => file_act(args),
        Verb::Confirm => confirm_act(args),
        Verb::Dispute => dispute_act(args),
        Verb::Withdraw => withdraw_act(args),
        Verb::Receive => receive_act(args),
        Verb::Fund => fund_act(args),
        Verb::Draw => draw_act(args),
        Verb::Limit => limit_act(args),
        Verb::Offer => offer_act(args),
        Verb::Position => position_act(args),
        Verb::Close => close_act(args),
        Verb::Abandon => abandon_act(args),
    }
}

// The act of the fields after a lane and a pool.
fn act_after(after: &[&[u8]]) -> Result<Act, LineCause>
    ensures found { IfOk result (λ act. AreActFields (map (λ f. f.now) after.now) act) }
    ensures bad { IfErr result (HasVerbCause (map (λ f. f.now) after.now)) }
{
    let [verb, args @ ..] = after else {
        return Err(LineCause::Verb);
    };
    let Some(verb) = verb_of(verb) else {
        return Err(LineCause::Verb);
    };
    act_of(verb, args)
}

// What is behind the `@` that a field begins with.
fn after_sign(field: &[u8]) -> Option<&[u8]>
    ensures found { IfSome result (λ name. field.now ≡ pool_field name.now) }
    ensures none { IfNone result ((name : List ℕ) → field.now ≡ pool_field name → ⊥) }
{
    match field {
        [b'@', name @ ..] => Some(name),
        _ => None,
    }
}

// The pool other than MAIN that has this name.
fn other_pool(name: &[u8]) -> Option<Name>
    ensures found { IfSome result (λ pool. (pool ≡ name.now) × IsOtherPool pool) }
    ensures none { IfNone result (IsOtherPool name.now → ⊥) }
{
    match Name::of(name) {
        Some(pool) if !is_main(&pool) => Some(pool),
        _ => None,
    }
}

// The pool and the act of the fields after a lane.
fn pool_and_act(after: &[&[u8]]) -> Result<(Name, Act), LineCause>
    ensures found { IfOk result (λ asked. ArePoolFields (map (λ f. f.now) after.now) asked.0 asked.1) }
    ensures bad { IfErr result (HasPoolCause (map (λ f. f.now) after.now)) }
{
    let [first, others @ ..] = after else {
        return Err(LineCause::Verb);
    };
    if let Some(name) = after_sign(first) {
        return in_other(name, others);
    }
    let act = act_after(after)?;
    Ok((main_pool_name(), act))
}

// The pool that is named behind an `@`, and the act of the fields after it.
fn in_other(name: &[u8], others: &[&[u8]]) -> Result<(Name, Act), LineCause>
    ensures found { IfOk result (λ asked. ArePoolFields (pool_field name.now ∷ map (λ f. f.now) others.now) asked.0 asked.1) }
    ensures bad { IfErr result (HasPoolCause (pool_field name.now ∷ map (λ f. f.now) others.now)) }
{
    let Some(pool) = other_pool(name) else {
        return Err(LineCause::Pool);
    };
    match act_after(others) {
        Ok(act) => Ok((pool, act)),
        Err(cause) => Err(cause),
    }
}

// The lane that a field is.
fn lane_at(field: &[u8]) -> Option<u32>
    ensures found { IfSome result (λ lane. IsLane lane × (field.now ≡ decimal lane)) }
    ensures none { IfNone result ((lane : ℕ) → IsLane lane → field.now ≡ decimal lane → ⊥) }
{
    match read_number(field) {
        Some(lane) if 1 <= lane && lane <= MOST_LANES as u64 => Some(lane as u32),
        _ => None,
    }
}

// What the fields of a line ask of a lane.
fn read_fields(fields: &[&[u8]]) -> Result<(u32, Name, Act), LineCause>
    ensures found { IfOk result (λ asked. AreFields (map (λ f. f.now) fields.now) asked.0 asked.1 asked.2) }
    ensures bad { IfErr result (HasCause (map (λ f. f.now) fields.now)) }
{
    let [lane, after @ ..] = fields else {
        return Err(LineCause::Lane);
    };
    read_lane_fields(lane, after)
}

// What a field and the fields after it ask of the lane that it is.
fn read_lane_fields(lane: &[u8], after: &[&[u8]]) -> Result<(u32, Name, Act), LineCause>
    ensures found { IfOk result (λ asked. AreFields (lane.now ∷ map (λ f. f.now) after.now) asked.0 asked.1 asked.2) }
    ensures bad { IfErr result (HasCause (lane.now ∷ map (λ f. f.now) after.now)) }
{
    let Some(lane) = lane_at(lane) else {
        return Err(LineCause::Lane);
    };
    match pool_and_act(after) {
        Ok((pool, act)) => Ok((lane, pool, act)),
        Err(cause) => Err(cause),
    }
}

/// What a line asks of a lane and in which pool, or what is wrong with a line that is no fence.
pub(crate) fn read_line(
    alloc: Global,
    line: &[u8],
) -> Result<Result<(u32, Name, Act), LineCause>, AllocError>
    ensures found { IfOk result (λ read. IfOk read (λ asked. IsLine line.now asked.0 asked.1 asked.2)) }
    ensures bad { IfOk result (λ read. IfErr read (HasCause (fields line.now))) }
{
    joined_fields_are_cut_again();
    ended_lines_are_lines();
    let fields = fields_of(alloc, line)?;
    Ok(read_fields(fields.as_slice()))
}
