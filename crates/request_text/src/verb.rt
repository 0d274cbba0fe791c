//! The verbs of requests.
ghost use Rattle.std.specs.Prelude.{◌≡◌, ◌≢◌, codes, IfSome, IfNone};
ghost use Rattle.request_text.specs.declared.verb.Verb.{Verb};
ghost use Rattle.request_text.specs.Causes.{verb_text};

/// What a line can ask for.
#[derive(Clone, Copy)]
pub enum Verb {
    Firm,
    File,
    Confirm,
    Dispute,
    Withdraw,
    Receive,
    Fund,
    Draw,
    Limit,
    Offer,
    Position,
    Close,
    Abandon,
}

/// The verb that a field is; None exactly where it is none.
pub(crate) fn verb_of(field: &[u8]) -> Option<Verb>
    ensures found { IfSome result (λ verb. field.now ≡ verb_text verb) }
    ensures none { IfNone result ((verb : Verb) → field.now ≡ verb_text verb → ⊥) }
{
    if let Some(verb) = claim_verb(field) {
        return Some(verb);
    }
    if let Some(verb) = account_verb(field) {
        return Some(verb);
    }
    round_verb(field)
}

// The verb of claims that a field is.
fn claim_verb(field: &[u8]) -> Option<Verb>
    ensures found { IfSome result (λ verb. field.now ≡ verb_text verb) }
    ensures none { IfNone result ((field.now ≢ codes "FILE") × (field.now ≢ codes "CONFIRM") × (field.now ≢ codes "DISPUTE")
        × (field.now ≢ codes "WITHDRAW") × (field.now ≢ codes "RECEIVE")) }
{
    if field == b"FILE".as_slice() {
        Some(Verb::File)
    } else if field == b"CONFIRM".as_slice() {
        Some(Verb::Confirm)
    } else if field == b"DISPUTE".as_slice() {
        Some(Verb::Dispute)
    } else if field == b"WITHDRAW".as_slice() {
        Some(Verb::Withdraw)
    } else if field == b"RECEIVE".as_slice() {
        Some(Verb::Receive)
    } else {
        None
    }
}

// The verb of firms and their accounts that a field is.
fn account_verb(field: &[u8]) -> Option<Verb>
    ensures found { IfSome result (λ verb. field.now ≡ verb_text verb) }
    ensures none { IfNone result ((field.now ≢ codes "FIRM") × (field.now ≢ codes "FUND") × (field.now ≢ codes "DRAW")
        × (field.now ≢ codes "LIMIT") × (field.now ≢ codes "OFFER") × (field.now ≢ codes "POSITION")) }
{
    if field == b"FIRM".as_slice() {
        Some(Verb::Firm)
    } else if field == b"FUND".as_slice() {
        Some(Verb::Fund)
    } else if field == b"DRAW".as_slice() {
        Some(Verb::Draw)
    } else if field == b"LIMIT".as_slice() {
        Some(Verb::Limit)
    } else if field == b"OFFER".as_slice() {
        Some(Verb::Offer)
    } else if field == b"POSITION".as_slice() {
        Some(Verb::Position)
    } else {
        None
    }
}

// The verb of rounds that a field is.
fn round_verb(field: &[u8]) -> Option<Verb>
    ensures found { IfSome result (λ verb. field.now ≡ verb_text verb) }
    ensures none { IfNone result ((field.now ≢ codes "CLOSE") × (field.now ≢ codes "ABANDON")) }
{
    if field == b"CLOSE".as_slice() {
        Some(Verb::Close)
    } else if field == b"ABANDON".as_slice() {
        Some(Verb::Abandon)
    } else {
        None
    }
}
