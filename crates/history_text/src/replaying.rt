//! The replay of entries that were replied to.
ghost use Rattle.std.specs.Prelude.{◌≡◌, ◌≤◌, ◌++◌, ◌∷◌, [], OnOk, IfOk, Some, is_some, true, false, length, take};
ghost use Rattle.setoff_model.specs.CutView.{CutView};
ghost use Rattle.claim_history.specs.declared.entry.Reply.TheVariants as reply;
ghost use Rattle.claim_history.specs.Acts.{is_close, is_valid, is_publication};
ghost use Rattle.claim_history.specs.History.{is_opening};
ghost use Rattle.claim_history.specs.Pools.{MayFollow, member_of};
ghost use Rattle.claim_history.specs.PoolRounds.{open_cut_in};
ghost use Rattle.history_text.specs.Histories.{AreFirst, told_members};

use crate::told::{told_at, told_len};
use claim_history::{Act, Entry, Reply};
use printed_text::Books;
use setoff_model::{Cut, Name};
use std::alloc::{AllocError, Global};
use std::slice::from_ref;

// Puts the entry of a publication at the end.
fn put_publication(books: &mut Books, pool: Name, entry: Entry) -> Result<(), AllocError>
    requires valid { is_valid entry.act ≡ true }
    requires publishes { is_publication entry.act ≡ true }
    requires next { MayFollow books.old.members (member_of pool entry) }
    ensures members { OnOk result (books.new.members ≡ books.old.members ++ member_of pool entry ∷ []) }
{
    books.reserve(pool, &entry.act)?;
    let _cut = books.apply_publish(pool, entry);
    Ok(())
}

// Puts the entry of a Close at the end that opens a round of this number.
fn put_opening(
    alloc: Global,
    books: &mut Books,
    pool: Name,
    entry: Entry,
    round: u32,
) -> Result<(), AllocError>
    requires valid { is_valid entry.act ≡ true }
    requires closes { is_close entry.act ≡ true }
    requires opens { entry.reply ≡ reply.Opened round }
    requires next { MayFollow books.old.members (member_of pool entry) }

    // With memory, the entry stands at the end.
    ensures members { OnOk result (books.new.members ≡ books.old.members ++ member_of pool entry ∷ []) }
{
    let _ = round;
    let Act::Close { kind, horizon } = &entry.act else {
        unreachable!();
    };
    let cut = books.book(&pool).next_cut(alloc, *kind, *horizon)?;
    books.reserve(pool, &entry.act)?;
    books.apply_close(pool, entry, cut);
    Ok(())
}

// Puts an entry at the end that publishes nothing and opens no round.
fn put_other(books: &mut Books, pool: Name, entry: Entry) -> Result<(), AllocError>
    requires valid { is_valid entry.act ≡ true }
    requires apart { is_publication entry.act ≡ false }
    requires no_opening { is_opening entry.reply ≡ false }
    requires next { MayFollow books.old.members (member_of pool entry) }

    // With memory, the entry stands at the end.
    ensures members { OnOk result (books.new.members ≡ books.old.members ++ member_of pool entry ∷ []) }
{
    books.reserve(pool, &entry.act)?;
    books.apply(pool, entry);
    Ok(())
}

// Puts an entry of a pool at the end.
fn put_entry(alloc: Global, books: &mut Books, pool: Name, entry: Entry) -> Result<(), AllocError>
    requires valid { is_valid entry.act ≡ true }
    requires next { MayFollow books.old.members (member_of pool entry) }
    ensures members { OnOk result (books.new.members ≡ books.old.members ++ member_of pool entry ∷ []) }
{
    if entry.act.publishes() {
        return put_publication(books, pool, entry);
    }
    let Reply::Opened { round } = entry.reply else {
        return put_other(books, pool, entry);
    };
    put_opening(alloc, books, pool, entry, round)
}

fn copy_of(entry: &Entry) -> Result<Entry, AllocError>
    ensures { IfOk result (λ copy. copy ≡ entry.now) }
{
    let act = entry.act.clone()?;
    Ok(Entry {
        caller: entry.caller,
        act,
        reply: entry.reply,
    })
}

// Puts a copy of an entry of a pool at the end of books, where it may stand next. The only error is that memory is missing.
fn put_next(alloc: Global, books: &mut Books, pool: Name, entry: &Entry) -> Result<(), AllocError>
    requires valid { is_valid entry.now.act ≡ true }
    requires next { MayFollow books.old.members (member_of pool entry.now) }
    ensures members { OnOk result (books.new.members ≡ books.old.members ++ member_of pool entry.now ∷ []) }
{
    let copy = copy_of(entry)?;
    put_entry(alloc, books, pool, copy)
}

/// Puts copies of the members that are told of books at the end of others, which have the first of them, up to a place. The only
/// error is that memory is missing.
pub(crate) fn replay_to(
    alloc: Global,
    books: &Books,
    pool: &Option<Name>,
    place: u64,
    replayed: &mut Books,
) -> Result<(), AllocError>
    requires place { place ≤ length (told_members pool.now books.now.members) }
    requires first { AreFirst place (told_members pool.now books.now.members) replayed.old.members }
    ensures { OnOk result (replayed.new.members ≡ take place (told_members pool.now books.now.members)) }
{
    let _len = told_len(books, pool);
    let from = replayed.len();
    for earlier in from..place {
        let (shown, entry) = told_at(books, pool, earlier);
        put_next(alloc, replayed, shown, entry)?;
    }
    Ok(())
}

/// The cut of the round that is open in a pool, as a list of one. It takes no memory.
pub(crate) fn open_cut<'a>(books: &'a Books, pool: &Name) -> &'a [Cut]
    requires { is_some (open_cut_in books.now.members pool.now) ≡ true }
    ensures { (cut : CutView) → open_cut_in books.now.members pool.now ≡ Some cut → result.now ≡ cut ∷ [] }
{
    let Some(cut) = books.book(pool).kept_cut() else {
        unreachable!();
    };
    from_ref(cut)
}
