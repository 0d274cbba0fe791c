//! Reading statements.
ghost use Rattle.std.specs.Prelude.{◌≡◌, ◌+◌, ◌<◌, ◌++◌, ◌∷◌, [], ℕ, List, length, IfOk, IfErr};
ghost use Rattle.std.specs.Str.Lines.{lines};
ghost use Rattle.statement_text.specs.Lines.{IsInRange};
ghost use Rattle.statement_text.specs.Statements.{CanBeStated, IsStatement, IsNoStatement, IsNoFront, IsFirstBadLine, OnBadLine};
ghost use Rattle.statement_text.specs.Drafts.{lines_of, texts_of, IsNoNext};
ghost use Rattle.statement_text.specs.Causes.{HasCause, HasLineCause, HasTextCause, IsNoHeadText, OnCause};
ghost use Rattle.statement_text.specs.Steps.{IsNoHead, IsTaken, IsStep};

use crate::draft::Draft;
use crate::error::{StatementCause, StatementError};
use crate::fields::read_line;
use crate::line::Line;
use setoff_model::{Cut, Key, Name, Outcome, Party};
use std::alloc::Global;
use text_lines::next_line;

// What a line makes of a draft.
#[derive(Drop)]
enum Step {
    // The draft with the line.
    More(Draft),
    // The draft as it was: the line is END.
    Last(Draft),
}

// Takes the PARTY line with a number.
fn take_party(draft: Draft, number: u64, party: Party, price: i64) -> Result<Step, StatementError>
    requires { IsInRange (Line.Party party price) }
    ensures found { IfOk result (IsTaken draft (Line.Party party price)) }
    ensures bad { IfErr result (OnBadLine (λ n. (n ≡ number) × IsNoNext draft (Line.Party party price))) }
    ensures cause { IfErr result (OnCause (λ n cause. (n ≡ number) × HasLineCause draft (Line.Party party price) cause)) }
{
    match draft.party_refusal(&party) {
        Some(cause) => {
            drop(draft);
            Err(StatementError::BadLine {
                line: number,
                cause,
            })
        }
        None => Ok(Step::More(draft.with_party(party, price)?)),
    }
}

// Takes the CLAIM line with a number.
fn take_claim(
    draft: Draft,
    number: u64,
    key: Key,
    debtor: Name,
    amount: u64,
    discharge: u64,
) -> Result<Step, StatementError>
    requires { IsInRange (Line.Claim key debtor amount discharge) }
    ensures found { IfOk result (IsTaken draft (Line.Claim key debtor amount discharge)) }
    ensures bad { IfErr result (OnBadLine (λ n. (n ≡ number) × IsNoNext draft (Line.Claim key debtor amount discharge))) }
    ensures cause { IfErr result (OnCause (λ n cause. (n ≡ number) × HasLineCause draft (Line.Claim key debtor amount discharge) cause)) }
{
    match draft.place_claim(&key, &debtor, amount) {
        Err(cause) => {
            drop(draft);
            Err(StatementError::BadLine {
                line: number,
                cause,
            })
        }
        Ok(claim) => Ok(Step::More(draft.with_claim(claim, discharge)?)),
    }
}

// Takes a line after the first, with its number.
fn take_line(draft: Draft, number: u64, line: Line) -> Result<Step, StatementError>
    // The lines so far can be stated.
    requires stated { CanBeStated draft.cut draft.outcome }
    requires range { IsInRange line }

    // The line is taken, or this is why it is a bad one.
    ensures found { IfOk result (IsTaken draft line) }
    ensures bad { IfErr result (OnBadLine (λ n. (n ≡ number) × IsNoNext draft line)) }
    ensures cause { IfErr result (OnCause (λ n cause. (n ≡ number) × HasLineCause draft line cause)) }
{
    match line {
        Line::Party { party, price } => take_party(draft, number, party, price),
        Line::Claim {
            key,
            debtor,
            amount,
            discharge,
        } => take_claim(draft, number, key, debtor, amount, discharge),
        Line::End => Ok(Step::Last(draft)),
        Line::Head { .. } => {
            drop(draft);
            Err(StatementError::BadLine {
                line: number,
                cause: StatementCause::Shape,
            })
        }
    }
}

// Takes the text of a line after the first, with its number.
fn take_text(alloc: Global, draft: Draft, number: u64, text: &[u8]) -> Result<Step, StatementError>
    requires { CanBeStated draft.cut draft.outcome }
    ensures found { IfOk result (IsStep draft text.now) }
    ensures bad { IfErr result (OnBadLine (λ n. (n ≡ number) × IsNoFront (texts_of draft ++ text.now ∷ []))) }
    ensures cause { IfErr result (OnCause (λ n cause. (n ≡ number) × HasTextCause draft text.now cause)) }
{
    let read = match read_line(alloc, text) {
        Ok(read) => read,
        Err(e) => {
            drop(draft);
            return Err(StatementError::from(e));
        }
    };
    match read {
        Some(line) => take_line(draft, number, line),
        None => {
            drop(draft);
            Err(StatementError::BadLine {
                line: number,
                cause: StatementCause::Shape,
            })
        }
    }
}

// The statement of a draft whose END line is read, where no line follows it; the number is that of the line after END.
fn finish_draft(draft: Draft, number: u64, rest: &[u8]) -> Result<(Cut, Outcome), StatementError>
    ensures found { IfOk result (λ read. (read.0 ≡ draft.cut) × (read.1 ≡ draft.outcome) × (lines rest.now ≡ [])) }
    ensures bad { IfErr result
        (OnBadLine (λ n. (n ≡ number) × ((text : List ℕ) × (others : List (List ℕ)) × (lines rest.now ≡ text ∷ others)))) }
    ensures cause { IfErr result (OnCause (λ n cause. cause ≡ StatementCause.After)) }
{
    match next_line(rest) {
        Some(_) => {
            drop(draft);
            Err(StatementError::BadLine {
                line: number,
                cause: StatementCause::After,
            })
        }
        None => Ok(draft.finish()),
    }
}

// The statement of a first line and the lines after it.
fn read_rest(alloc: Global, head: Draft, text: &[u8]) -> Result<(Cut, Outcome), StatementError>
    // The lines so far can be stated.
    requires stated { CanBeStated head.cut head.outcome }
    requires first { length (lines_of head) ≡ 1 }

    // They are read to the end, or this is the first bad line.
    ensures found { IfOk result (λ read. IsStatement (texts_of head ++ lines text.now) read.0 read.1) }
    ensures bad { IfErr result (OnBadLine (IsFirstBadLine (texts_of head ++ lines text.now))) }
    ensures cause { IfErr result (OnCause (HasCause (texts_of head ++ lines text.now))) }
{
    let mut draft = head;
    let mut rest = text;
    let mut number: u64 = 2;
    while let Some((line, after)) = next_line(rest) {
        match take_text(alloc, draft, number, line) {
            Ok(Step::More(next)) => draft = next,
            Ok(Step::Last(whole)) => return finish_draft(whole, number.saturating_add(1), after),
            Err(e) => return Err(e),
        }
        rest = after;
        number = number.saturating_add(1);
    }
    drop(draft);
    Err(StatementError::BadLine {
        line: number,
        cause: StatementCause::NoEnd,
    })
}

// The draft of the first line.
fn begin(alloc: Global, line: Line) -> Result<Draft, StatementError>
    requires { IsInRange line }

    // With a head, it is the one of the line.
    ensures stated { IfOk result (λ head. CanBeStated head.cut head.outcome) }
    ensures first { IfOk result (λ head. lines_of head ≡ line ∷ []) }

    // Else the line is bad.
    ensures bad { IfErr result (OnBadLine (λ n. (n ≡ 1) × IsNoHead line)) }
    ensures cause { IfErr result (OnCause (λ n cause. cause ≡ StatementCause.Round)) }
{
    match line {
        Line::Head { round, kind } => Ok(Draft::new(alloc, round, kind)),
        Line::Party { .. } | Line::Claim { .. } | Line::End => Err(StatementError::BadLine {
            line: 1,
            cause: StatementCause::Round,
        }),
    }
}

// The draft of the text of the first line.
fn begin_text(alloc: Global, text: &[u8]) -> Result<Draft, StatementError>
    ensures stated { IfOk result (λ head. CanBeStated head.cut head.outcome) }
    ensures first { IfOk result (λ head. (length (lines_of head) ≡ 1) × (texts_of head ≡ text.now ∷ [])) }
    ensures bad { IfErr result (OnBadLine (λ n. (n ≡ 1) × IsNoFront (text.now ∷ []))) }
    ensures cause { IfErr result (OnCause (λ n cause. (n ≡ 1) × (cause ≡ StatementCause.Round) × IsNoHeadText text.now)) }
{
    match read_line(alloc, text)? {
        Some(line) => begin(alloc, line),
        None => Err(StatementError::BadLine {
            line: 1,
            cause: StatementCause::Round,
        }),
    }
}

/// The cut and the outcome that a statement says. Its lines are `ROUND r KIND`, the parties'
/// `PARTY firm spend room price`, the claims' `CLAIM creditor invoice debtor amount discharged` and `END`; a line ends
/// at a line feed, with or without a carriage return before it.
///
/// The cut is well formed, and the outcome has a price for each party and a discharge for each claim. `BadLine` comes
/// exactly where the input is no statement, with the first line, counted from 1, up to which no statement begins like
/// the input, or one past the last line where some statement goes on from there, and with the first cause that applies
/// there.
pub fn read_statement(alloc: Global, input: &[u8]) -> Result<(Cut, Outcome), StatementError>
    ensures found { IfOk result (λ read. IsStatement (lines input.now) read.0 read.1) }
    ensures bad { IfErr result (OnBadLine (λ number. IsFirstBadLine (lines input.now) number × IsNoStatement (lines input.now))) }
    ensures cause { IfErr result (OnCause (HasCause (lines input.now))) }
{
    let Some((first, rest)) = next_line(input) else {
        return Err(StatementError::BadLine {
            line: 1,
            cause: StatementCause::Round,
        });
    };
    match begin_text(alloc, first) {
        Ok(head) => read_rest(alloc, head, rest),
        Err(e) => Err(e),
    }
}
