//! The history of the bureau, with the book of each pool.
ghost use Rattle.std.specs.Prelude.{ℕ, ◌≡◌, ◌^◌, ◌<◌, ◌+◌, ◌≤◌, ◌++◌, ◌∷◌, [], List, length, is_some, position, slice_get};
ghost use Rattle.std.specs.Prelude.{map, Some, None, IfOk, IfErr, OnOk, OnErr, vec_len, vec_capacity, true, false};
ghost use Rattle.std.specs.Option.{option_map};
ghost use Rattle.setoff_model.specs.declared.limits.TheConstants.{MOST_ROUNDS};
ghost use Rattle.round_cut.specs.claim_history.specs.History.{is_opening};
ghost use Rattle.round_cut.specs.claim_history.specs.Acts.{is_valid, is_publication};
ghost use Rattle.round_cut.specs.claim_history.specs.Pools.{IsLegal, AreValid, MayFollow, call_of, due_reply};
ghost use Rattle.round_cut.specs.claim_history.specs.Pools.{entries_in, member_of, open_round_in, state_in};
ghost use Rattle.round_cut.specs.claim_history.specs.PoolRounds.{IsCutDue, open_cut_in};
ghost use Rattle.claim_book.specs.Book.{room_for, room_needed, KeepsRoom, GivesCut};
ghost use Rattle.setoff_model.specs.Same.{same_name};
ghost use Rattle.claim_book.specs.Changes.{IsNew};
ghost use Rattle.claim_book.specs.Pools.{KeepsRooms, is_book, room_in, rooms_of, told_entries};

use crate::book::Book;
use crate::pool_book::{Place, PoolBook, apply_in, close_in, make_room, publish_in};
use round_cut::{Act, Entry, NameIndex, Reply, each_pool_has_its_history};
use setoff_model::{Cut, Name};
use std::alloc::{AllocError, Global};
use std::marker::Model;

/// The history of the bureau in order of time, with the book of each pool.
///
/// The history is legal and each of its acts is valid. Beside it stands the room of each pool: how many of its entries may be
/// applied without taking memory.
pub struct Books {
    names: NameIndex,
    books: Vec<PoolBook>,
    places: Vec<Place>,
    promised: usize,
    none: Book,
}

// Written out, so that its lists are gone through in one proof, and not in that of each function that lets one go.
impl Drop for Books {
    fn drop(self) {
        let Self {
            names,
            books,
            places,
            promised,
            none,
        } = self;
    }
}

impl Model for Books {
    ghost use Rattle.std.specs.Prelude.{◌-◌, vec_len, vec_capacity};
    ghost use Rattle.claim_book.specs.Pools.{BooksView, AreBooks, members_at, rooms_of};

    ghost Value = { BooksView };

    ghost view = { λ b. record { members = members_at b.books.items b.places.items; rooms = rooms_of b.books.items } };

    ghost invariant = { λ b. AreBooks (record {
      names = b.names.names;
      books = b.books.items;
      places = b.places.items;
      promised = b.promised;
      spare = vec_capacity b.places - vec_len b.places;
      none = b.none;
    }) };
}

impl Books {
    /// Books without members. It takes no memory.
    pub fn new(alloc: Global) -> Books
        ensures members { result.members ≡ [] }
        ensures rooms { result.rooms ≡ [] }
    {
        Books {
            names: NameIndex::new(alloc),
            books: Vec::new(alloc),
            places: Vec::new(alloc),
            promised: 0,
            none: Book::new(alloc),
        }
    }

    /// Makes the room that one entry of this act needs in a pool and, where a round is open there or the act is a Close, the room
    /// of one publication beside it. It lowers no room that was made before, of this pool or another.
    ///
    /// The only error is that memory is missing. It comes only where there was less room, and leaves the history as before.
    pub fn reserve(&mut self, pool: Name, act: &Act) -> Result<(), AllocError>
        ensures members { self.new.members ≡ self.old.members }
        ensures room { OnOk result (room_for (state_in self.old.members pool) act.now ≤ room_in pool self.new.rooms) }
        ensures kept { (any : List ℕ) → room_in any self.old.rooms ≤ room_in any self.new.rooms }
        ensures needed { OnErr result (room_in pool self.old.rooms < room_for (state_in self.old.members pool) act.now) }
    {
        let place = self.added_place(pool)?;
        self.add_room(pool, place, act)
    }

    // The place of the book of a pool. Where it has none, one without entries is added.
    fn added_place(&mut self, pool: Name) -> Result<usize, AllocError>
        ensures members { self.new.members ≡ self.old.members }
        ensures rooms { (any : List ℕ) → room_in any self.new.rooms ≡ room_in any self.old.rooms }
        ensures place { IfOk result (λ place. position (λ r. same_name pool r.pool) self.new.rooms ≡ Some place) }
        ensures needed { OnErr result (room_in pool self.old.rooms ≡ 0) }
    {
        match book_place(&self.names, &self.books, &pool) {
            Some(place) => Ok(place),
            None => self.add_book(pool),
        }
    }

    // Adds a book without entries for a pool that has none, and gives its place.
    fn add_book(&mut self, pool: Name) -> Result<usize, AllocError>
        requires { position (λ r. same_name pool r.pool) self.old.rooms ≡ None }

        // The members and all rooms are as they were, and the pool has its place.
        ensures members { self.new.members ≡ self.old.members }
        ensures rooms { (any : List ℕ) → room_in any self.new.rooms ≡ room_in any self.old.rooms }
        ensures place { IfOk result (λ place. position (λ r. same_name pool r.pool) self.new.rooms ≡ Some place) }
        ensures needed { OnErr result (room_in pool self.old.rooms ≡ 0) }
    {
        self.names.reserve(1)?;
        self.books.reserve(1)?;
        let alloc = *self.places.allocator();
        let place = self.books.as_slice().len();
        self.names.add(pool);
        put_book(&mut self.books, new_book(alloc, pool));
        Ok(place)
    }

    // Makes the room that an act needs in a pool, whose book stands at a place.
    fn add_room(&mut self, pool: Name, place: usize, act: &Act) -> Result<(), AllocError>
        requires { position (λ r. same_name pool r.pool) self.old.rooms ≡ Some place }

        // The same members, with the room. An error comes only where there was less.
        ensures members { self.new.members ≡ self.old.members }
        ensures room { OnOk result (room_for (state_in self.old.members pool) act.now ≤ room_in pool self.new.rooms) }
        ensures kept { (any : List ℕ) → room_in any self.old.rooms ≤ room_in any self.new.rooms }
        ensures needed { OnErr result (room_in pool self.old.rooms < room_for (state_in self.old.members pool) act.now) }
    {
        let _ = pool;
        let kept = &mut self.books[place];
        make_room(kept, &mut self.places, &mut self.promised, act)
    }

    /// The book of a pool, which has its entries. It takes no memory.
    pub fn book(&self, pool: &Name) -> &Book
        ensures { result.now.history ≡ entries_in pool.now self.now.members }
    {
        match book_place(&self.names, &self.books, pool) {
            None => &self.none,
            Some(place) => &self.books[place].book,
        }
    }

    /// The book of a pool; None exactly where no member has this pool. It takes no memory.
    pub fn pool(&self, pool: Name) -> Option<&Book>
        ensures { option_map (λ book. book.now.history) result ≡ told_entries (entries_in pool self.now.members) }
    {
        let book = self.book(&pool);
        if book.history().is_empty() {
            return None;
        }
        Some(book)
    }

    /// The one reply of the history of a pool to a caller and an act. It takes no memory. The act is no publication, and fewer
    /// than 2^32 - 1 rounds were opened in the pool.
    pub fn answer(&self, caller: u32, pool: Name, act: &Act) -> Reply
        requires apart { is_publication act.now ≡ false }
        requires few { (state_in self.now.members pool).openings < MOST_ROUNDS }
        ensures { result ≡ due_reply self.now.members (record { caller = caller; pool = pool; act = act.now }) }
    {
        self.book(&pool).answer(caller, act)
    }

    /// Puts an entry of a pool at the end that publishes nothing and opens no round. There is room for it in its pool, its act is
    /// valid, and it may stand next: its reply is the one that is due in its pool, or tells of a device that failed, later than
    /// at any member before it. It takes no memory, and lowers the room of no other pool. Where a round is open in its pool, the
    /// room for the round's publication stays.
    pub fn apply(&mut self, pool: Name, entry: Entry)
        // There is room for the entry, and its act is valid.
        requires room { room_for (state_in self.old.members pool) entry.act ≤ room_in pool self.old.rooms }
        requires valid { is_valid entry.act ≡ true }

        // It publishes nothing, opens no round, and may stand next.
        requires apart { is_publication entry.act ≡ false }
        requires no_opening { is_opening entry.reply ≡ false }
        requires next { MayFollow self.old.members (member_of pool entry) }

        // The members with the entry, and the room that is left, in its pool and in the others.
        ensures members { self.new.members ≡ self.old.members ++ member_of pool entry ∷ [] }
        ensures room { room_in pool self.old.rooms ≤ room_in pool self.new.rooms + 1 }
        ensures kept { KeepsRoom (entries_in pool self.old.members) entry (room_in pool self.new.rooms) }
        ensures others { KeepsRooms pool self.old.rooms self.new.rooms }
    {
        each_pool_has_its_history();
        let place = known_place(&self.names, &self.books, &pool);
        let kept = &mut self.books[place];
        let at = apply_in(kept, entry);
        put_place(&mut self.places, Place { pool: place, at });
        self.promised -= 1;
    }

    /// Puts the entry of a Close of a pool at the end that opens a round, and keeps the cut of the round, which is that of the
    /// pool's entries so far. The rest is as for `apply`.
    pub fn apply_close(&mut self, pool: Name, entry: Entry, cut: Cut)
        // There is room for the entry, its act is valid, and one round more may be opened.
        requires room { room_for (state_in self.old.members pool) entry.act ≤ room_in pool self.old.rooms }
        requires valid { is_valid entry.act ≡ true }
        requires few { (state_in self.old.members pool).openings < MOST_ROUNDS }

        // It opens a round and may stand next, and this is the cut of the round.
        requires opens { is_opening entry.reply ≡ true }
        requires next { MayFollow self.old.members (member_of pool entry) }
        requires cut { IsCutDue self.old.members (call_of (member_of pool entry)) cut }

        // The members with the entry, and the room that is left, in its pool and in the others.
        ensures members { self.new.members ≡ self.old.members ++ member_of pool entry ∷ [] }
        ensures room { room_in pool self.old.rooms ≤ room_in pool self.new.rooms + 1 }
        ensures kept { KeepsRoom (entries_in pool self.old.members) entry (room_in pool self.new.rooms) }
        ensures others { KeepsRooms pool self.old.rooms self.new.rooms }
    {
        each_pool_has_its_history();
        let place = known_place(&self.names, &self.books, &pool);
        let kept = &mut self.books[place];
        let at = close_in(kept, entry, cut);
        put_place(&mut self.places, Place { pool: place, at });
        self.promised -= 1;
    }

    /// Puts the entry of a publication of a pool at the end. Where it is accepted, the cut of its round is given, as by
    /// `Book::apply_publish`; else None. It takes no memory, and lowers the room of no other pool.
    ///
    /// There is room for it, as for `apply`, or it is the publication of the pool's open round by its owner, for which room was
    /// kept.
    pub fn apply_publish(&mut self, pool: Name, entry: Entry) -> Option<Cut>
        requires room { room_needed (state_in self.old.members pool) entry.caller entry.act ≤ room_in pool self.old.rooms }
        requires valid { is_valid entry.act ≡ true }
        requires publishes { is_publication entry.act ≡ true }
        requires next { MayFollow self.old.members (member_of pool entry) }

        // The members with the entry, and the room that is left, in its pool and in the others.
        ensures members { self.new.members ≡ self.old.members ++ member_of pool entry ∷ [] }
        ensures room { room_in pool self.old.rooms ≤ room_in pool self.new.rooms + 1 }
        ensures kept { KeepsRoom (entries_in pool self.old.members) entry (room_in pool self.new.rooms) }
        ensures others { KeepsRooms pool self.old.rooms self.new.rooms }

        // The cut of a round that was published is given.
        ensures cut { GivesCut (open_round_in self.old.members pool) entry result }
    {
        each_pool_has_its_history();
        let place = known_place(&self.names, &self.books, &pool);
        let kept = &mut self.books[place];
        let (at, cut) = publish_in(kept, entry);
        put_place(&mut self.places, Place { pool: place, at });
        self.promised -= 1;
        cut
    }

    /// A copy of the cut of the open round of a pool; None exactly where no round is open there. The only error is that memory is
    /// missing, and it comes only where a round is open.
    pub fn open_cut(&self, alloc: Global, pool: Name) -> Result<Option<Cut>, AllocError>
        ensures cut { IfOk result (λ cut. cut ≡ open_cut_in self.now.members pool) }
        ensures open { IfErr result (λ _. is_some (open_round_in self.now.members pool) ≡ true) }
    {
        self.book(&pool).open_cut(alloc)
    }

    /// How many members there are. The history is legal, and each of its acts is valid. It takes no memory.
    pub fn len(&self) -> u64
        ensures len { result ≡ length self.now.members }
        ensures legal { IsLegal self.now.members }
        ensures valid { AreValid self.now.members }
        ensures few { result < 2 ^ 62 }
    {
        self.places.as_slice().len() as u64
    }

    /// The pool and the entry of the member at a place, which there is. It takes no memory.
    pub fn member(&self, place: u64) -> (Name, &Entry)
        requires { place < length self.now.members }
        ensures { slice_get self.now.members place ≡ Some (member_of result.0 result.1.now) }
    {
        let at = self.places[place as usize];
        let kept = &self.books[at.pool];
        (kept.pool, &kept.book.history()[at.at])
    }
}

// The place of the book of a pool, which is looked for at the first place first; None where it has none.
fn book_place(names: &NameIndex, books: &[PoolBook], pool: &Name) -> Option<usize>
    requires { names.now.names ≡ map (λ b. b.pool) books.now }
    ensures { result ≡ position (is_book pool.now) books.now }
{
    let _ = books;
    names.place_near(0, pool)
}

// The place of the book of a pool that has room.
fn known_place(names: &NameIndex, books: &[PoolBook], pool: &Name) -> usize
    requires names { names.now.names ≡ map (λ b. b.pool) books.now }
    requires known { 1 ≤ room_in pool.now (rooms_of books.now) }
    ensures { position (is_book pool.now) books.now ≡ Some result }
{
    match book_place(names, books, pool) {
        Some(place) => place,
        None => unreachable!(),
    }
}

// A book without entries.
fn new_book(alloc: Global, pool: Name) -> PoolBook
    ensures { IsNew pool result }
{
    PoolBook {
        pool,
        book: Book::new(alloc),
        room: 0,
    }
}

// Puts a book at the end of those that there is room for.
fn put_book(books: &mut Vec<PoolBook>, book: PoolBook)
    requires { vec_len books.old < vec_capacity books.old }
    ensures { books.new.items ≡ books.old.items ++ book ∷ [] }
{
    books.push_reserved(book);
}

// Puts a place at the end of those that there is room for.
fn put_place(places: &mut Vec<Place>, place: Place)
    requires { vec_len places.old < vec_capacity places.old }
    ensures items { places.new.items ≡ places.old.items ++ place ∷ [] }
    ensures len { vec_len places.new ≡ vec_len places.old + 1 }
    ensures capacity { vec_capacity places.old ≤ vec_capacity places.new }
{
    places.push_reserved(place);
}
