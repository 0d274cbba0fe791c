//! What holds of every history that is told again. Each of these calls does nothing.
ghost use Rattle.history_text.specs.Accepted.{ReplayedLaw, RetoldLaw, StatementLaw};
ghost use Rattle.history_text.specs.Pages.{PagesLaw};
ghost use Rattle.history_text.specs.Since.{SinceLaw};

/// The calls of the accepted members of a legal history, replayed, are these members, with the very replies that they had, and they
/// are told as they were printed, whatever was refused before and between them. A published round has one statement, the one that
/// was printed behind its line.
pub fn accepted_entries_are_told_again()
    ensures replayed { ReplayedLaw }
    ensures retold { RetoldLaw }
    ensures statement { StatementLaw }
{}

/// What a history tells is what its first acts tell, and behind this what it tells since then.
pub fn a_history_is_told_in_parts()
    ensures since { SinceLaw }
{}

/// Each claim of a cut stands on two pages, its creditor's and its debtor's, and what is discharged towards the parties of all pages is
/// what is discharged by them.
pub fn each_claim_has_two_pages()
    ensures pages { PagesLaw }
{}
