//! The members of a history that are told.
ghost use Rattle.std.specs.Prelude.{◌≡◌, ◌^◌, ◌<◌, length, slice_get, Some};
ghost use Rattle.claim_history.specs.Pools.{AreValid, IsLegal, member_of};
ghost use Rattle.history_text.specs.Histories.{told_members};

use claim_history::{Entry, each_pool_has_its_history, main_pool_name};
use printed_text::Books;
use setoff_model::Name;

/// How much of a text was printed.
#[derive(Clone, Copy)]
pub enum Told {
    /// All of it.
    Whole,
    /// What is before a publication, since memory was missing for it.
    Short,
}

/// How many members are told of the books: all, or those of one pool. They are a legal history of valid acts.
pub(crate) fn told_len(books: &Books, pool: &Option<Name>) -> u64
    ensures len { result ≡ length (told_members pool.now books.now.members) }
    ensures few { result < 2 ^ 62 }
    ensures legal { IsLegal (told_members pool.now books.now.members) }
    ensures valid { AreValid (told_members pool.now books.now.members) }
{
    each_pool_has_its_history();
    let len = books.len();
    match pool {
        None => len,
        Some(pool) => {
            let entries = books.book(pool).history();
            entries.len() as u64
        }
    }
}

/// The member that is told at a place, which there is: the pool that its line names, and its entry.
pub(crate) fn told_at<'a>(books: &'a Books, pool: &Option<Name>, place: u64) -> (Name, &'a Entry)
    requires { place < length (told_members pool.now books.now.members) }
    ensures { slice_get (told_members pool.now books.now.members) place ≡ Some (member_of result.0 result.1.now) }
{
    match pool {
        None => books.member(place),
        Some(pool) => {
            let at = place as usize;
            let entries = books.book(pool).history();
            (main_pool_name(), &entries[at])
        }
    }
}
