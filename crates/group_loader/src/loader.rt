//! A load.
ghost use Rattle.std.specs.Prelude.{◌≡◌, ◌+◌, ◌<◌, ◌≤◌, ◌++◌, ◌∷◌, [], length, true, false};
ghost use Rattle.std.specs.Prelude.{All, IsTrue, IfOk, IfErr, OnOk, OnErr, vec_capacity};
ghost use Rattle.claim_history.specs.Acts.{is_valid, is_publication, is_close};
ghost use Rattle.claim_history.specs.History.{is_no_refusal};
ghost use Rattle.claim_history.specs.Pools.{AreValid, IsLegal, accepted_calls, answered, call_of, due_reply, state_in};
ghost use Rattle.claim_history.specs.Needs.{body_length_of};
ghost use Rattle.claim_history.specs.PoolNeeds.{IsWithinLimits, is_full, pool_bytes, used_bytes_of};
ghost use Rattle.limited_book.specs.claim_book.specs.Book.{room_for};
ghost use Rattle.limited_book.specs.claim_book.specs.Pools.{room_in};
ghost use Rattle.limited_book.specs.Limited.{IsFull};
ghost use Rattle.round_journal.specs.Appends.{IsFaultOf};
ghost use Rattle.act_bodies.specs.Bodies.{is_keepable};
ghost use Rattle.group_loader.specs.Groups.{HasGroupMoments};
ghost use Rattle.group_loader.specs.Loading.{HasKept, HasStopped, Holding, IsLeftBy, IsLoadError, KeepsCalls, kept_calls, pending_calls};

use act_bodies::{body_length, encode};
use claim_history::{Call, Entry, Reply};
use disk_model::Disk;
use limited_book::{Books, Full, LimitedBooks};
use round_journal::{Device, Group, Journal};
use std::alloc::{AllocError, Global};
use std::marker::Model;

/// A journal and the books of its calls, with the group of records that is to be kept next.
#[derive(Drop)]
pub struct Loader<D: Disk> {
    journal: Journal<D>,
    books: LimitedBooks,
    group: Group,
    body: Vec<u8>,
    kept: u64,
}

impl<D: Disk> Model for Loader<D> {
    ghost use Rattle.group_loader.specs.Loading.{LoadView, Loads};

    ghost Value = { LoadView D };

    ghost view = { λ l. record { journal = l.journal; books = l.books; group = l.group; kept = l.kept } };

    ghost invariant = { λ l. Loads D.seen (record { journal = l.journal; books = l.books; group = l.group; kept = l.kept }) };
}

/// Why a call has no entry. Nothing has changed.
#[derive(Clone, Copy)]
pub enum LoadError {
    /// There was no memory for it.
    Memory,
    /// It needs more than there is room for.
    Full(Full),
}

/// The disk of a load that ended, and how it failed.
#[derive(Drop)]
pub struct LoadStopped<D> {
    /// The disk that was handed in.
    pub disk: D,
    /// Its counts of faults, before the call that failed and after it.
    pub device: Device,
}

impl<D: Disk> Loader<D> {
    /// Begins a load with an open journal and the books of its calls. It takes no memory.
    pub fn new(alloc: Global, journal: Journal<D>, books: LimitedBooks) -> Loader<D>
        // The journal keeps the accepted calls of the books, and has no gate to settle.
        requires place { journal.gate + 1 ≡ used_bytes_of books.members }
        requires keepable { All (λ m. is_keepable (call_of m) ≡ true) books.members }
        requires kept { IsTrue (D.seen journal.disk).tells → KeepsCalls D.seen journal (accepted_calls books.members) }

        // It is made of these two, and all is kept.
        ensures journal { result.journal ≡ journal }
        ensures books { result.books ≡ books }
        ensures all { (result.kept ≡ length books.members) × (result.group ≡ []) }

        // From here on each group has its moment.
        ensures begins { IsTrue (D.seen journal.disk).tells
            → HasGroupMoments (D.seen journal.disk) (D.seen journal.disk).moment (accepted_calls books.members) [] [] }
    {
        let members = books.books().len();
        Loader {
            journal,
            books,
            group: Group::new(alloc),
            body: Vec::new(alloc),
            kept: members,
        }
    }

    /// Answers a call that is no Close and no publication, and puts its entry at the end of the books. Where it is accepted, its record
    /// goes into the group. The disk is not called.
    ///
    /// Memory: there was none for it. Full: it needs more entries or bytes than there may be, and no memory was taken for it. After an
    /// error nothing has changed.
    pub fn take(&mut self, call: Call) -> Result<Reply, LoadError>
        // The caller may ask the act, and a journal can keep it.
        requires keepable { is_keepable call ≡ true }
        requires apart { is_publication call.act ≡ false }
        requires other { is_close call.act ≡ false }

        // It has its entry with the reply that is due.
        ensures due { IfOk result (λ got. got ≡ due_reply self.old.books.members call) }
        ensures entry { IfOk result (λ got. self.new.books.members ≡ self.old.books.members ++ answered call got ∷ []) }
        ensures fits { OnOk result (is_full self.old.books.members call ≡ false) }

        // Or this is why it has none. The history and the group are as they were.
        ensures error { IfErr result (IsLoadError self.old.books.members call) }
        ensures untouched { OnErr result ((self.new.books.members ≡ self.old.books.members) × (self.new.group ≡ self.old.group)) }
        ensures left { IfErr result (IsLeftBy self.old self.new) }

        // Nothing is kept yet.
        ensures journal { self.new.journal ≡ self.old.journal }
        ensures kept { self.new.kept ≡ self.old.kept }
    {
        let due = self.books.answer(&call);
        if let Err(full) = self.books.fits(&call, due) {
            drop(call);
            return Err(LoadError::Full(full));
        }
        let Ok(()) = make_room(&mut self.books, &mut self.body, &call) else {
            drop(call);
            return Err(LoadError::Memory);
        };
        let Ok(()) = hold(&mut self.group, &mut self.body, &call, due) else {
            drop(call);
            return Err(LoadError::Memory);
        };
        let Call { caller, pool, act } = call;
        self.books.apply(
            pool,
            Entry {
                caller,
                act,
                reply: due,
            },
        );
        Ok(due)
    }

    /// Keeps the records of the group, all or none, with two syncs, and takes no memory. An Err means that the disk failed, and ends
    /// the load. Where no call of the group was accepted the disk is not called.
    pub fn keep(self) -> Result<Loader<D>, LoadStopped<D>>
        // All calls are kept then, and none gathers.
        ensures books { IfOk result (λ l. l.books ≡ self.books) }
        ensures all { IfOk result (λ l. (l.kept ≡ length self.books.members) × (l.group ≡ [])) }

        // What a crash leaves, meanwhile and from then on.
        ensures kept { IfOk result (λ l. HasKept D.seen self.journal.disk l.journal.disk (kept_calls self) (pending_calls self)) }
        ensures stopped { IfErr result (λ e. HasStopped D.seen self.journal.disk e.disk (kept_calls self) (pending_calls self)) }

        // An error has its cause.
        ensures cause { IfErr result (λ e. IsFaultOf (D.seen self.journal.disk) (D.seen e.disk) e.device) }
    {
        let Loader {
            mut journal,
            books,
            mut group,
            body,
            kept: _,
        } = self;
        if group.len() > 0 {
            if let Err(device) = journal.append_group(&group) {
                drop(books);
                return Err(LoadStopped {
                    disk: journal.close(),
                    device,
                });
            }
            group.clear();
        }
        let kept = books.books().len();
        Ok(Loader {
            journal,
            books,
            group,
            body,
            kept,
        })
    }

    /// The books of all pools, with the entries of the group that gathers. It takes no memory.
    pub fn books(&self) -> &Books
        ensures books { result.now ≡ self.now.books }

        // What they keep.
        ensures legal { IsLegal self.now.books.members }
        ensures within { IsWithinLimits self.now.books.members }
        ensures valid { AreValid self.now.books.members }
        ensures keepable { All (λ m. is_keepable (call_of m) ≡ true) self.now.books.members }
    {
        let books = self.books.books();
        let _len = books.len();
        books
    }

    /// The disk. It takes no memory.
    pub fn disk(&self) -> &D
        ensures { result.now ≡ self.now.journal.disk }
    {
        self.journal.disk()
    }

    /// Gives the disk back. It takes no memory, and calls the disk no more.
    pub fn close(self) -> D
        ensures { result ≡ self.journal.disk }
    {
        let Loader {
            journal,
            books,
            group: _,
            body: _,
            kept: _,
        } = self;
        drop(books);
        journal.close()
    }
}

// Makes the room that a call needs in the books, and for its body. The only error is that memory is missing.
fn make_room(books: &mut LimitedBooks, body: &mut Vec<u8>, call: &Call) -> Result<(), AllocError>
    requires { is_valid call.now.act ≡ true }
    ensures members { books.new.members ≡ books.old.members }
    ensures room { OnOk result
        (room_for (state_in books.old.members call.now.pool) call.now.act ≤ room_in call.now.pool books.new.rooms) }
    ensures spare { OnOk result (body_length_of call.now.act + pool_bytes call.now.pool ≤ vec_capacity body.new) }
{
    body.clear();
    body.reserve(body_length(&call.pool, &call.act) as usize)?;
    books.reserve(call)
}

// Puts the record of a call whose act is accepted into the group. The only error is that memory is missing.
fn hold(group: &mut Group, body: &mut Vec<u8>, call: &Call, due: Reply) -> Result<(), AllocError>
    requires keepable { is_keepable call.now ≡ true }
    requires spare { body_length_of call.now.act + pool_bytes call.now.pool ≤ vec_capacity body.old }

    // The record of an accepted call is in the group. Else the group is as it was.
    ensures held { OnOk result (is_no_refusal due ≡ true → Holding group.old group.new call.now) }
    ensures same { OnOk result (is_no_refusal due ≡ false → group.new ≡ group.old) }
    ensures error { OnErr result (group.new ≡ group.old) }
{
    if !accepts(due) {
        return Ok(());
    }
    encode(body, call.caller, &call.pool, &call.act);
    group.push(body)
}

fn accepts(reply: Reply) -> bool
    ensures { result ≡ is_no_refusal reply }
{
    !matches!(reply, Reply::Refused(_))
}
