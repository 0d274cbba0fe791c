//! The book of a pool among the books of all pools.
ghost use Rattle.std.specs.Prelude.{◌≡◌, ◌+◌, ◌-◌, ◌<◌, ◌≤◌, length, vec_len, vec_capacity, true, false, OnOk, OnErr, ℕ};
ghost use Rattle.setoff_model.specs.declared.limits.TheConstants.{MOST_ROUNDS};
ghost use Rattle.setoff_model.specs.declared.kind.Kind.{Kind};
ghost use Rattle.round_cut.specs.claim_history.specs.declared.act.Act.TheVariants as acts;
ghost use Rattle.round_cut.specs.claim_history.specs.Cut.{cut_of};
ghost use Rattle.round_cut.specs.claim_history.specs.States.{state_of};
ghost use Rattle.round_cut.specs.claim_history.specs.History.{MayFollowInPool, is_opening};
ghost use Rattle.round_cut.specs.claim_history.specs.Acts.{is_valid, is_publication};
ghost use Rattle.claim_book.specs.Book.{ledger_of, room_for, room_needed, GivesCut};
ghost use Rattle.claim_book.specs.Changes.{HasGrown, HasRoomMade};

use crate::book::Book;
use round_cut::{Act, Entry};
use setoff_model::{Cut, Name};
use std::alloc::AllocError;

/// The book of a pool, and its room: for how many of its entries there is a place among the members.
#[derive(Drop)]
pub struct PoolBook {
    /// The name of the pool.
    pub pool: Name,
    /// Its book, whose own room is no less.
    pub book: Book,
    /// Its room.
    pub room: usize,
}

/// Where the entry of a member stands.
#[derive(Clone, Copy)]
pub struct Place {
    /// The place of its pool.
    pub pool: usize,
    /// Its place in the pool's book.
    pub at: usize,
}

// Where a book has too little room, room is made for one entry more for each so many that it has, so that most acts find theirs.
const SHARE_AHEAD: usize = 64;

/// Makes the room that an act needs in a book and among the places, of which so many are promised. The error is running out of
/// memory, and comes only where more room was needed.
pub fn make_room(
    kept: &mut PoolBook,
    places: &mut Vec<Place>,
    promised: &mut usize,
    act: &Act,
) -> Result<(), AllocError>
    requires kept { kept.old.room ≤ kept.old.book.room }
    requires promised { promised.old ≤ vec_capacity places.old - vec_len places.old }

    // The same history, with the room. An error comes only where there was less.
    ensures made { HasRoomMade kept.old kept.new }
    ensures room { OnOk result (room_for (state_of kept.old.book.history) act.now ≤ kept.new.room) }
    ensures needed { OnErr result (kept.old.room < room_for (state_of kept.old.book.history) act.now) }

    // So many places more are promised, and there is memory for them.
    ensures promised { promised.new + kept.old.room ≡ promised.old + kept.new.room }
    ensures spare { promised.new ≤ vec_capacity places.new - vec_len places.new }
    ensures places { places.new.items ≡ places.old.items }
{
    let needed = kept.book.room_for(act);
    if needed <= kept.room {
        return Ok(());
    }
    let ahead = kept.book.history().len() / SHARE_AHEAD;
    let room = needed + ahead;
    let Some(wanted) = promised.checked_add(room - kept.room) else {
        return Err(AllocError);
    };
    kept.book.make_room(room)?;
    places.reserve(wanted)?;
    *promised = wanted;
    kept.room = room;
    Ok(())
}

/// Applies an entry that publishes nothing and opens no round, and gives its place in the book.
pub fn apply_in(kept: &mut PoolBook, entry: Entry) -> usize
    // There is room for the entry, and its act is valid.
    requires kept { kept.old.room ≤ kept.old.book.room }
    requires room { room_for (state_of kept.old.book.history) entry.act ≤ kept.old.room }
    requires valid { is_valid entry.act ≡ true }

    // It publishes nothing, opens no round, and may stand next.
    requires apart { is_publication entry.act ≡ false }
    requires no_opening { is_opening entry.reply ≡ false }
    requires next { MayFollowInPool kept.old.book.history entry }

    // The entry stands at the end of the book, at this place.
    ensures grown { HasGrown kept.old kept.new entry }
    ensures at { result ≡ length kept.old.book.history }
{
    let at = kept.book.history().len();
    kept.book.apply(entry);
    kept.room -= 1;
    at
}

/// Applies the entry of a Close that opens a round, and gives its place in the book.
pub fn close_in(kept: &mut PoolBook, entry: Entry, cut: Cut) -> usize
    // There is room for the entry, its act is valid, and one round more may be opened.
    requires kept { kept.old.room ≤ kept.old.book.room }
    requires room { room_for (state_of kept.old.book.history) entry.act ≤ kept.old.room }
    requires valid { is_valid entry.act ≡ true }
    requires few { (state_of kept.old.book.history).openings < MOST_ROUNDS }

    // It opens a round and may stand next, and this is the cut of the round.
    requires opens { is_opening entry.reply ≡ true }
    requires next { MayFollowInPool kept.old.book.history entry }
    requires cut { (kind : Kind) (horizon : ℕ) → entry.act ≡ acts.Close kind horizon
        → cut ≡ cut_of ((state_of kept.old.book.history).openings + 1) (ledger_of kept.old.book.history) kind horizon }

    // The entry stands at the end of the book, at this place.
    ensures grown { HasGrown kept.old kept.new entry }
    ensures at { result ≡ length kept.old.book.history }
{
    let at = kept.book.history().len();
    kept.book.apply_close(entry, cut);
    kept.room -= 1;
    at
}

/// Applies the entry of a publication, and gives its place in the book, and the cut where it is accepted.
pub fn publish_in(kept: &mut PoolBook, entry: Entry) -> (usize, Option<Cut>)
    // There is room for the entry, and its act is valid.
    requires kept { kept.old.room ≤ kept.old.book.room }
    requires room { room_needed (state_of kept.old.book.history) entry.caller entry.act ≤ kept.old.room }
    requires valid { is_valid entry.act ≡ true }

    // It is a publication, and may stand next.
    requires publishes { is_publication entry.act ≡ true }
    requires next { MayFollowInPool kept.old.book.history entry }

    // The entry stands at the end of the book, at this place, and the cut of its round is given.
    ensures grown { HasGrown kept.old kept.new entry }
    ensures at { result.0 ≡ length kept.old.book.history }
    ensures cut { GivesCut (state_of kept.old.book.history).open_round entry result.1 }
{
    let at = kept.book.history().len();
    let cut = kept.book.apply_publish(entry);
    kept.room -= 1;
    (at, cut)
}
