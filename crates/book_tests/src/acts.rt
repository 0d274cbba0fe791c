//! Acts, and what a book answers to them.
ghost use Rattle.std.specs.Prelude.{◌≡◌, ◌<◌, ◌≤◌, true, false};
ghost use Rattle.setoff_model.specs.declared.limits.TheConstants.{MOST_ROUNDS};
ghost use Rattle.claim_history.specs.Acts.{is_valid, is_publication};
ghost use Rattle.claim_history.specs.States.{state_of};
ghost use Rattle.claim_book.specs.Book.{room_for};

use claim_book::Book;
use claim_history::{Act, Day, Entry, Reply};
use setoff_model::{Key, Name};
use std::process::Abort;

pub(crate) fn name(rt: &impl Abort, text: &[u8]) -> Name {
    Name::of(text).expect(rt, "a name")
}

pub(crate) fn due_day(rt: &impl Abort) -> Day {
    Day::of_number(20_119).expect(rt, "a day")
}

pub(crate) fn key(creditor: Name, invoice: Name) -> Key {
    Key { creditor, invoice }
}

pub(crate) fn file(key: Key, debtor: Name, amount: u64, due: Day) -> Act {
    Act::File {
        key,
        debtor,
        amount,
        due,
    }
}

pub(crate) fn confirm(key: Key, debtor: Name) -> Act {
    Act::Confirm {
        key,
        debtor,
        agreed: None,
    }
}

// Confirms a part of a claim.
pub(crate) fn agree(key: Key, debtor: Name, amount: u64) -> Act {
    Act::Confirm {
        key,
        debtor,
        agreed: Some(amount),
    }
}

pub(crate) fn dispute(key: Key, debtor: Name) -> Act {
    Act::Dispute { key, debtor }
}

pub(crate) fn receive(key: Key, amount: u64) -> Act {
    Act::Receive { key, amount }
}

pub(crate) fn limit(firm: Name, credit: u64, ceiling: u64) -> Act {
    Act::Limit {
        firm,
        credit,
        ceiling,
    }
}

pub(crate) fn draw(firm: Name, amount: u64) -> Act {
    Act::Draw { firm, amount }
}

pub(crate) fn fund(firm: Name, amount: u64) -> Act {
    Act::Fund { firm, amount }
}

// Makes the room that an act needs. The test ends where it is not valid or a publication, or where many rounds were opened.
pub(crate) fn make_room(rt: &impl Abort, book: &mut Book, act: &Act)
    ensures valid { is_valid act.now ≡ true }
    ensures apart { is_publication act.now ≡ false }
    ensures few { (state_of book.new.history).openings < MOST_ROUNDS }
    ensures room { room_for (state_of book.new.history) act.now ≤ book.new.room }
{
    assert!(rt; act.valid() && !act.publishes());
    assert!(rt; book.history().len() < 1_000_000);
    book.reserve(act).expect(rt, "memory");
}

// The book gives a caller this reply to an act that opens no round, and the entry is put at its end.
#[tactic(auto, using(claim_history::proofs::Growth::due_follows))]
pub(crate) fn is_answered(rt: &impl Abort, book: &mut Book, caller: u32, act: Act, due: Reply) {
    make_room(rt, book, &act);
    let reply = book.answer(caller, &act);
    assert!(rt; reply == due && !matches!(reply, Reply::Opened { .. }));
    book.apply(Entry { caller, act, reply });
}

// The book gives a caller these replies, one after another.
pub(crate) fn replies(
    rt: &impl Abort,
    book: &mut Book,
    caller: u32,
    acts: Vec<Act>,
    due: &[Reply],
) {
    assert!(rt; acts.len() == due.len());
    for (act, due) in acts.into_iter().zip(due) {
        is_answered(rt, book, caller, act, *due);
    }
}
