//! A weighted set-off of a book.
ghost use Rattle.std.specs.Prelude.{IfOk};
ghost use Rattle.printed_text.specs.claim_book.specs.Book.{ledger_of};
ghost use Rattle.weighed_round.specs.Weighed.{IsWeighedText};

use crate::text::text_of;
use crate::weights::weights_of;
use printed_text::{Book, Day, build_cut, cut_of_a_history_is_of_its_facts};
use setoff_model::Kind;
use std::alloc::{AllocError, Global};
use weighted_setoff::solve_weighted;

/// The text of a weighted set-off of the book's claims that are due on or before a day, in which a claim counts 1, and one more for
/// each 30 days that it is overdue then, at most 9. Where the kind is Funded accounts are drawn on, as in a round. The only error is
/// that memory is missing.
pub fn weigh(alloc: Global, book: &Book, kind: Kind, today: Day) -> Result<Vec<u8>, AllocError>
    ensures { IfOk result (λ text. IsWeighedText kind today (ledger_of book.now.history) text.items) }
{
    cut_of_a_history_is_of_its_facts();
    let cut = build_cut(alloc, book.claims(), book.accounts(), kind, today, 0)?;
    let weights = weights_of(alloc, book.claims(), today)?;
    let outcome = solve_weighted(alloc, &cut, weights.as_slice())?;
    text_of(alloc, &cut, weights.as_slice(), &outcome)
}
