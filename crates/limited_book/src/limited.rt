//! The books of all pools within the limits.
ghost use Rattle.std.specs.Prelude.{ℕ, List, ◌≡◌, ◌+◌, ◌-◌, ◌*◌, ◌<◌, ◌≤◌, ◌++◌, ◌∷◌, [], IfOk, IfErr, OnOk, OnErr, true, false};
ghost use Rattle.setoff_model.specs.declared.limits.TheConstants.{MOST_ENTRIES, MOST_JOURNAL_BYTES};
ghost use Rattle.setoff_model.specs.CutView.{WellFormed};
ghost use Rattle.claim_book.specs.claim_history.specs.History.{is_opening, is_no_refusal};
ghost use Rattle.claim_book.specs.claim_history.specs.Acts.{is_valid, is_publication, is_close};
ghost use Rattle.claim_book.specs.claim_history.specs.Pools.{IsLegal, AreValid, MayFollow, call_of, due_reply};
ghost use Rattle.claim_book.specs.claim_history.specs.Pools.{entries_in, member_of, open_round_in, state_in};
ghost use Rattle.claim_book.specs.claim_history.specs.Needs.{endings_entries};
ghost use Rattle.claim_book.specs.claim_history.specs.PoolNeeds.{Fits, IsReserved, IsWithinLimits, is_full, pool_endings_bytes};
ghost use Rattle.claim_book.specs.claim_history.specs.PoolNeeds.{reserved_bytes_of, reserved_entries_of, used_bytes_of, used_entries_of};
ghost use Rattle.claim_book.specs.claim_history.specs.PoolRounds.{IsCutDue};
ghost use Rattle.claim_book.specs.Book.{room_for, room_needed, KeepsRoom, GivesCut};
ghost use Rattle.claim_book.specs.Pools.{KeepsRooms, room_in};
ghost use Rattle.limited_book.specs.Limited.{IsFull, round_after};

use crate::full::{Full, within_limits};
use crate::need::{Need, endings_in, endings_of, is_ending, more, own_bytes, replace_part, use_of};
use crate::publication::publication_reply;
use claim_book::record_bytes::{CLOSE_BODY, RECORD_HEAD};
use claim_book::{
    Act, Books, Call, Entry, Reply, cut_of_a_history_is_of_its_facts, each_pool_has_its_history,
    pool_bytes, use_is_counted,
};
use setoff_model::{Cut, Name};
use std::alloc::{AllocError, Global};
use std::marker::Model;

/// The books of all pools, of which each act was within the limits when it was asked, with what their history uses and what its
/// open rounds reserve.
///
/// Contracts see the books alone. The bytes are those of a journal of the accepted acts.
#[derive(Drop)]
pub struct LimitedBooks {
    books: Books,
    used: Need,
    reserved: Need,
}

impl Model for LimitedBooks {
    ghost use Rattle.claim_book.specs.Pools.{BooksView};
    ghost use Rattle.limited_book.specs.Limited.{AreLimited};

    ghost Value = { BooksView };

    ghost view = { λ b. b.books };

    ghost invariant = { λ b. AreLimited b.books.members b.used b.reserved };
}

impl LimitedBooks {
    /// Books without members. It takes no memory.
    pub fn new(alloc: Global) -> LimitedBooks
        ensures members { result.members ≡ [] }
        ensures rooms { result.rooms ≡ [] }
    {
        LimitedBooks {
            books: Books::new(alloc),
            used: Need {
                entries: 0,
                bytes: 9,
            },
            reserved: Need {
                entries: 0,
                bytes: 0,
            },
        }
    }

    /// The books. Each act of them was within the limits when it was asked. It takes no memory.
    pub fn books(&self) -> &Books
        ensures books { result.now ≡ self.now }
        ensures within { IsWithinLimits self.now.members }
    {
        &self.books
    }

    /// Gives the books. It takes no memory.
    pub fn into_books(self) -> Books
        ensures { result ≡ self }
    {
        self.books
    }

    /// How many rounds are open, those of all pools counted: at most 2^19, since each reserves two entries. It takes no memory.
    pub fn open_rounds(&self) -> u64
        ensures open { 2 * result ≡ reserved_entries_of self.now.members }
        ensures most { 2 * result ≤ MOST_ENTRIES }
    {
        let _used = self.used();
        self.reserved().entries / 2
    }

    // What the history uses. With what its open rounds reserve it is within the limits.
    fn used(&self) -> Need
        ensures entries { result.entries ≡ used_entries_of self.now.members }
        ensures bytes { result.bytes ≡ used_bytes_of self.now.members }
        ensures few_entries { used_entries_of self.now.members + reserved_entries_of self.now.members ≤ MOST_ENTRIES }
        ensures few_bytes { used_bytes_of self.now.members + reserved_bytes_of self.now.members ≤ MOST_JOURNAL_BYTES }

        // Each round was opened by an entry.
        ensures openings { (pool : List ℕ) → (state_in self.now.members pool).openings ≤ result.entries }

        // The history is legal, its acts are valid, and each was within the limits when asked.
        ensures legal { IsLegal self.now.members }
        ensures valid { AreValid self.now.members }
        ensures within { IsWithinLimits self.now.members }
    {
        let _len = self.books.len();
        self.used
    }

    // What its open rounds reserve, which covers the round of each pool.
    fn reserved(&self) -> Need
        ensures entries { result.entries ≡ reserved_entries_of self.now.members }
        ensures bytes { result.bytes ≡ reserved_bytes_of self.now.members }
        ensures covers { (pool : List ℕ) → IsReserved self.now.members pool }
    {
        use_is_counted();
        self.reserved
    }

    // What the open rounds reserve after a reply in a pool that opens none, which is no more than before.
    fn reserved_after(&self, pool: &Name, reply: Reply) -> Need
        ensures entries { result.entries ≡ reserved_entries_of self.now.members - endings_entries (open_round_in self.now.members pool.now)
            + endings_entries (round_after reply (open_round_in self.now.members pool.now)) }
        ensures bytes { result.bytes ≡ reserved_bytes_of self.now.members
            - pool_endings_bytes pool.now (open_round_in self.now.members pool.now)
            + pool_endings_bytes pool.now (round_after reply (open_round_in self.now.members pool.now)) }
        ensures fewer { result.entries ≤ reserved_entries_of self.now.members }
        ensures shorter { result.bytes ≤ reserved_bytes_of self.now.members }
    {
        let reserved = self.reserved();
        if !is_ending(reply) {
            return reserved;
        }
        let now = endings_in(&self.books, pool);
        Need {
            entries: reserved.entries - now.entries,
            bytes: reserved.bytes - now.bytes,
        }
    }

    /// Makes the room that the entry of a call needs in its pool, as `Books::reserve` does: of one entry and, where a round is
    /// open there or the act is a Close, of one publication beside it. It lowers no room that was made before, of this pool or
    /// another.
    ///
    /// The only error is that memory is missing. It comes only where there was less room, and leaves the history as before.
    pub fn reserve(&mut self, call: &Call) -> Result<(), AllocError>
        ensures members { self.new.members ≡ self.old.members }
        ensures room { OnOk result (room_for (state_in self.old.members call.now.pool) call.now.act
            ≤ room_in call.now.pool self.new.rooms) }
        ensures kept { (any : List ℕ) → room_in any self.old.rooms ≤ room_in any self.new.rooms }
        ensures needed { OnErr result (room_in call.now.pool self.old.rooms
            < room_for (state_in self.old.members call.now.pool) call.now.act) }
    {
        self.books.reserve(call.pool, &call.act)
    }

    /// The one reply to a call that is no publication. It takes no memory.
    pub fn answer(&self, call: &Call) -> Reply
        requires { is_publication call.now.act ≡ false }
        ensures { result ≡ due_reply self.now.members call.now }
    {
        let _used = self.used();
        self.books.answer(call.caller, call.pool, &call.act)
    }

    /// The one reply to a call that is a publication. The only error is that memory is missing.
    pub fn publication_reply(&self, alloc: Global, call: &Call) -> Result<Reply, AllocError>
        requires { is_publication call.now.act ≡ true }
        ensures { IfOk result (λ reply. reply ≡ due_reply self.now.members call.now) }
    {
        let Act::Publish { round, outcome } = &call.act else {
            unreachable!();
        };
        publication_reply(
            alloc,
            self.books.book(&call.pool),
            call.caller,
            *round,
            outcome,
        )
    }

    /// Whether a call that opens no round is within the limits, with its one reply. It takes no memory.
    ///
    /// It needs what the history uses, its own entry and, where it is accepted, its record, and both endings of the rounds that
    /// are open afterwards. The error comes exactly where one of the needs is above its limit, entries before bytes, and says
    /// how much is needed and what the limit is.
    pub fn fits(&self, call: &Call, reply: Reply) -> Result<(), Full>
        requires valid { is_valid call.now.act ≡ true }
        requires due { reply ≡ due_reply self.now.members call.now }
        requires no_opening { is_opening reply ≡ false }

        // It is within the limits, or this is why not.
        ensures fits { IfOk result (λ _. is_full self.now.members call.now ≡ false) }
        ensures full { IfErr result (IsFull self.now.members call.now) }
    {
        let used = self.used();
        let rest = self.reserved_after(&call.pool, reply);
        let entries = used.entries + 1 + rest.entries;
        let bytes = used.bytes + own_bytes(&call.pool, &call.act, reply) + rest.bytes;
        within_limits(entries, bytes)
    }

    /// The cut of the round that a call, a Close, opens now in its pool. The only error is that memory is missing.
    pub fn next_cut(&self, alloc: Global, call: &Call) -> Result<Cut, AllocError>
        requires { is_close call.now.act ≡ true }
        ensures cut { IfOk result (λ cut. IsCutDue self.now.members call.now cut) }
        ensures formed { IfOk result WellFormed }
    {
        let _used = self.used();
        let Act::Close { kind, horizon } = &call.act else {
            unreachable!();
        };
        let book = self.books.book(&call.pool);
        book.next_cut(alloc, *kind, *horizon)
    }

    /// Whether a call that opens a round, a Close, is within the limits, where this is the cut of that round. The rest is as for
    /// `fits`. It takes no memory.
    pub fn fits_opening(&self, call: &Call, cut: &Cut) -> Result<(), Full>
        requires opens { is_opening (due_reply self.now.members call.now) ≡ true }
        requires cut { IsCutDue self.now.members call.now cut.now }
        ensures fits { IfOk result (λ _. is_full self.now.members call.now ≡ false) }
        ensures full { IfErr result (IsFull self.now.members call.now) }
    {
        cut_of_a_history_is_of_its_facts();
        each_pool_has_its_history();
        let used = self.used();
        let reserved = self.reserved();
        let now = endings_in(&self.books, &call.pool);
        let later = endings_of(&call.pool, cut);
        let rest = replace_part(reserved, now, later);
        let own = RECORD_HEAD + CLOSE_BODY + pool_bytes(&call.pool);
        within_limits(
            used.entries + 1 + rest.entries,
            used.bytes + own + rest.bytes,
        )
    }

    /// Puts an entry of a pool at the end that publishes nothing and opens no round, as `Books::apply` does. Its call is within
    /// the limits. It takes no memory.
    pub fn apply(&mut self, pool: Name, entry: Entry)
        // There is room for the entry, which is valid, publishes nothing and opens no round.
        requires room { room_for (state_in self.old.members pool) entry.act ≤ room_in pool self.old.rooms }
        requires valid { is_valid entry.act ≡ true }
        requires apart { is_publication entry.act ≡ false }
        requires no_opening { is_opening entry.reply ≡ false }

        // It may stand next, and its call is within the limits.
        requires next { MayFollow self.old.members (member_of pool entry) }
        requires fits { Fits self.old.members (call_of (member_of pool entry)) }

        // The members with the entry, and the room that is left, in its pool and in the others.
        ensures members { self.new.members ≡ self.old.members ++ member_of pool entry ∷ [] }
        ensures room { room_in pool self.old.rooms ≤ room_in pool self.new.rooms + 1 }
        ensures kept { KeepsRoom (entries_in pool self.old.members) entry (room_in pool self.new.rooms) }
        ensures others { KeepsRooms pool self.old.rooms self.new.rooms }
    {
        let used = self.used();
        let rest = self.reserved_after(&pool, entry.reply);
        let own = use_of(&pool, &entry);
        self.books.apply(pool, entry);
        self.used = more(used, own);
        self.reserved = rest;
    }

    /// Puts the entry of a Close of a pool at the end that opens a round, as `Books::apply_close` does, with the cut of that
    /// round. Its call is within the limits. It takes no memory.
    pub fn apply_close(&mut self, pool: Name, entry: Entry, cut: Cut)
        // There is room for the entry, which is valid and opens a round.
        requires room { room_for (state_in self.old.members pool) entry.act ≤ room_in pool self.old.rooms }
        requires valid { is_valid entry.act ≡ true }
        requires opens { is_opening entry.reply ≡ true }

        // It may stand next, this is the cut of the round, and the call is within the limits.
        requires next { MayFollow self.old.members (member_of pool entry) }
        requires cut { IsCutDue self.old.members (call_of (member_of pool entry)) cut }
        requires fits { Fits self.old.members (call_of (member_of pool entry)) }

        // The members with the entry, and the room that is left, in its pool and in the others.
        ensures members { self.new.members ≡ self.old.members ++ member_of pool entry ∷ [] }
        ensures room { room_in pool self.old.rooms ≤ room_in pool self.new.rooms + 1 }
        ensures kept { KeepsRoom (entries_in pool self.old.members) entry (room_in pool self.new.rooms) }
        ensures others { KeepsRooms pool self.old.rooms self.new.rooms }
    {
        let used = self.used();
        let reserved = self.reserved();
        let own = use_of(&pool, &entry);
        let now = endings_in(&self.books, &pool);
        self.books.apply_close(pool, entry, cut);
        let later = endings_in(&self.books, &pool);
        self.used = more(used, own);
        self.reserved = replace_part(reserved, now, later);
    }

    /// Puts the entry of a publication of a pool at the end, as `Books::apply_publish` does, and gives the cut of its round where
    /// it is accepted. A call that is refused is within the limits; the room for one that is accepted was kept. It takes no
    /// memory.
    pub fn apply_publish(&mut self, pool: Name, entry: Entry) -> Option<Cut>
        // There is room for the entry, which is valid and a publication.
        requires room { room_needed (state_in self.old.members pool) entry.caller entry.act ≤ room_in pool self.old.rooms }
        requires valid { is_valid entry.act ≡ true }
        requires publishes { is_publication entry.act ≡ true }

        // It may stand next, and where its call is refused it is within the limits.
        requires next { MayFollow self.old.members (member_of pool entry) }
        requires fits { is_no_refusal (due_reply self.old.members (call_of (member_of pool entry))) ≡ false
            → Fits self.old.members (call_of (member_of pool entry)) }

        // The members with the entry, and the room that is left, in its pool and in the others.
        ensures members { self.new.members ≡ self.old.members ++ member_of pool entry ∷ [] }
        ensures room { room_in pool self.old.rooms ≤ room_in pool self.new.rooms + 1 }
        ensures kept { KeepsRoom (entries_in pool self.old.members) entry (room_in pool self.new.rooms) }
        ensures others { KeepsRooms pool self.old.rooms self.new.rooms }

        // The cut of a round that was published is given.
        ensures cut { GivesCut (open_round_in self.old.members pool) entry result }
    {
        let used = self.used();
        let reserved = self.reserved();
        let own = use_of(&pool, &entry);
        let now = endings_in(&self.books, &pool);
        let cut = self.books.apply_publish(pool, entry);
        let later = endings_in(&self.books, &pool);
        self.used = more(used, own);
        self.reserved = replace_part(reserved, now, later);
        cut
    }
}
