//! The replay of a journal's records.
ghost use Rattle.std.specs.Prelude.{◌≡◌, ◌≤◌, [], Some, IfOk, IfErr, OnOk, true, false};
ghost use Rattle.limited_book.specs.claim_history.specs.Acts.{is_valid, is_publication, is_close};
ghost use Rattle.limited_book.specs.claim_history.specs.History.{is_opening, is_no_refusal};
ghost use Rattle.limited_book.specs.claim_history.specs.Pools.{due_reply, state_in};
ghost use Rattle.limited_book.specs.claim_history.specs.PoolRounds.{open_cut_in};
ghost use Rattle.limited_book.specs.claim_book.specs.Book.{room_for};
ghost use Rattle.limited_book.specs.claim_book.specs.Pools.{room_in};
ghost use Rattle.limited_book.specs.act_bodies.specs.Bodies.{is_keepable};
ghost use Rattle.round_journal.specs.Records.{AreKeepable};
ghost use Rattle.journal_replay.specs.Replays.{history_of, recorded_call, AreSound, StopsFirst, Tells, IsReplayed, published_cut};

use crate::replay_stop::ReplayStop;
use limited_book::{Act, Call, Entry, LimitedBooks, Reply};
use round_journal::Record;
use setoff_model::Cut;
use std::alloc::Global;

/// The books of the calls of records in turn, each with the one reply of its pool. The calls can be kept in a journal.
///
/// Where it is Ok, each call is accepted and was within the limits. `BadAct` and `Overfull` come exactly where there is a first
/// record that is refused by those before it or above the limits: `BadAct` where it is refused, with the reply, and `Overfull`
/// where it is not. `Memory` comes where memory is missing. The acts of the records are moved into the books.
pub fn replay(alloc: Global, records: Vec<Record>) -> Result<LimitedBooks, ReplayStop>
    requires keepable { AreKeepable records.items }
    ensures history { IfOk result (λ books. books.members ≡ history_of records.items) }
    ensures sound { IfOk result (λ _. AreSound records.items) }
    ensures stopped { IfErr result (StopsFirst records.items) }
{
    let mut books = LimitedBooks::new(alloc);
    match replay_all(alloc, &mut books, records) {
        Ok(()) => Ok(books),
        Err(stop) => {
            drop(books);
            Err(stop)
        }
    }
}

// Puts the calls of records into empty books.
fn replay_all(
    alloc: Global,
    books: &mut LimitedBooks,
    records: Vec<Record>,
) -> Result<(), ReplayStop>
    requires keepable { AreKeepable records.items }
    requires empty { books.old.members ≡ [] }

    // The books have the calls of all records, or this is why not.
    ensures history { OnOk result (books.new.members ≡ history_of records.items) }
    ensures sound { OnOk result (AreSound records.items) }
    ensures stopped { IfErr result (StopsFirst records.items) }
{
    for kept in records {
        drop(replay_next(alloc, books, kept)?);
    }
    Ok(())
}

/// Puts the call of a record at the end of books, where it is accepted and within the limits, and gives the cut of the round that
/// it publishes; None where it is no publication. The call can be kept in a journal.
///
/// `BadAct` comes where the call is refused, with the reply, and `Overfull` where it is not refused and above the limits. `Memory`
/// comes where memory is missing.
pub fn replay_next(
    alloc: Global,
    books: &mut LimitedBooks,
    kept: Record,
) -> Result<Option<Cut>, ReplayStop>
    requires keepable { is_keepable (recorded_call kept) ≡ true }
    ensures done { OnOk result (IsReplayed books.old.members books.new.members (recorded_call kept)) }
    ensures cut { IfOk result (λ cut. cut ≡ published_cut books.old.members (recorded_call kept)) }
    ensures stopped { IfErr result (Tells books.old.members kept.offset (recorded_call kept)) }
{
    let Record {
        offset,
        caller,
        pool,
        act,
    } = kept;
    let call = Call { caller, pool, act };
    if call.act.publishes() {
        let cut = replay_publication(alloc, books, offset, call)?;
        return Ok(Some(cut));
    }
    replay_unpublished(alloc, books, offset, call)?;
    Ok(None)
}

// Puts a call at the end that is no publication, where it is accepted and within the limits.
fn replay_unpublished(
    alloc: Global,
    books: &mut LimitedBooks,
    offset: u64,
    call: Call,
) -> Result<(), ReplayStop>
    requires valid { is_valid call.act ≡ true }
    requires apart { is_publication call.act ≡ false }
    ensures done { OnOk result (IsReplayed books.old.members books.new.members call) }
    ensures stopped { IfErr result (Tells books.old.members offset call) }
{
    if closes(&call.act) {
        return replay_close(alloc, books, offset, call);
    }
    replay_act(books, offset, call)
}

fn closes(act: &Act) -> bool
    ensures { result ≡ is_close act.now }
{
    matches!(act, Act::Close { .. })
}

// The same of a call that is no Close and no publication.
fn replay_act(books: &mut LimitedBooks, offset: u64, call: Call) -> Result<(), ReplayStop>
    requires valid { is_valid call.act ≡ true }
    requires apart { is_publication call.act ≡ false }
    requires other { is_close call.act ≡ false }

    // The call is the last member, or this is why not.
    ensures done { OnOk result (IsReplayed books.old.members books.new.members call) }
    ensures stopped { IfErr result (Tells books.old.members offset call) }
{
    books.reserve(&call)?;
    let reply = books.answer(&call);
    put_reply(books, offset, call, reply)
}

// Puts a call at the end that opens no round, with the reply that is due, where it is accepted and within the limits.
fn put_reply(
    books: &mut LimitedBooks,
    offset: u64,
    call: Call,
    reply: Reply,
) -> Result<(), ReplayStop>
    // The call publishes nothing and opens no round.
    requires valid { is_valid call.act ≡ true }
    requires apart { is_publication call.act ≡ false }
    requires no_opening { is_opening reply ≡ false }

    // The reply is the one that is due, and there is the room.
    requires due { reply ≡ due_reply books.old.members call }
    requires room { room_for (state_in books.old.members call.pool) call.act ≤ room_in call.pool books.old.rooms }

    // The call is the last member, or this is why not.
    ensures done { OnOk result (IsReplayed books.old.members books.new.members call) }
    ensures stopped { IfErr result (Tells books.old.members offset call) }
{
    if !accepts(reply) {
        return Err(ReplayStop::BadAct { offset, reply });
    }
    if books.fits(&call, reply).is_err() {
        return Err(ReplayStop::Overfull { offset });
    }
    let Call { caller, pool, act } = call;
    books.apply(pool, Entry { caller, act, reply });
    Ok(())
}

// The same of a Close, which may open a round.
fn replay_close(
    alloc: Global,
    books: &mut LimitedBooks,
    offset: u64,
    call: Call,
) -> Result<(), ReplayStop>
    requires valid { is_valid call.act ≡ true }
    requires closes { is_close call.act ≡ true }
    ensures done { OnOk result (IsReplayed books.old.members books.new.members call) }
    ensures stopped { IfErr result (Tells books.old.members offset call) }
{
    books.reserve(&call)?;
    let reply = books.answer(&call);
    if opens(reply) {
        return replay_opening(alloc, books, offset, call, reply);
    }
    put_reply(books, offset, call, reply)
}

// The same of a Close that opens a round, with the reply that is due.
fn replay_opening(
    alloc: Global,
    books: &mut LimitedBooks,
    offset: u64,
    call: Call,
    reply: Reply,
) -> Result<(), ReplayStop>
    // The call is a Close that opens a round.
    requires valid { is_valid call.act ≡ true }
    requires closes { is_close call.act ≡ true }
    requires opens { is_opening reply ≡ true }

    // The reply is the one that is due, and there is the room.
    requires due { reply ≡ due_reply books.old.members call }
    requires room { room_for (state_in books.old.members call.pool) call.act ≤ room_in call.pool books.old.rooms }

    // The call is the last member, or this is why not.
    ensures done { OnOk result (IsReplayed books.old.members books.new.members call) }
    ensures stopped { IfErr result (Tells books.old.members offset call) }
{
    let cut = books.next_cut(alloc, &call)?;
    if books.fits_opening(&call, &cut).is_err() {
        return Err(ReplayStop::Overfull { offset });
    }
    let Call { caller, pool, act } = call;
    books.apply_close(pool, Entry { caller, act, reply }, cut);
    Ok(())
}

// The same of a publication, with the cut of its round. Where it is accepted, the room for it was kept.
fn replay_publication(
    alloc: Global,
    books: &mut LimitedBooks,
    offset: u64,
    call: Call,
) -> Result<Cut, ReplayStop>
    requires valid { is_valid call.act ≡ true }
    requires publishes { is_publication call.act ≡ true }
    ensures done { OnOk result (IsReplayed books.old.members books.new.members call) }
    ensures cut { IfOk result (λ cut. Some cut ≡ open_cut_in books.old.members call.pool) }
    ensures stopped { IfErr result (Tells books.old.members offset call) }
{
    let known = books.books();
    let _len = known.len();
    let reply = books.publication_reply(alloc, &call)?;
    if !accepts(reply) {
        return Err(ReplayStop::BadAct { offset, reply });
    }
    books.reserve(&call)?;
    let Call { caller, pool, act } = call;
    match books.apply_publish(pool, Entry { caller, act, reply }) {
        Some(cut) => Ok(cut),
        None => unreachable!(),
    }
}

fn accepts(reply: Reply) -> bool
    ensures { result ≡ is_no_refusal reply }
{
    !matches!(reply, Reply::Refused(_))
}

fn opens(reply: Reply) -> bool
    ensures { result ≡ is_opening reply }
{
    matches!(reply, Reply::Opened { .. })
}
