//! The board.
ghost use Rattle.std.specs.Prelude.{◌≡◌, ◌≤◌, [], length, drop, vec_capacity, All, Some, IfOk, IfErr, OnOk, OnErr};
ghost use mathlib.Core.List.{IsPrefix};
ghost use Rattle.left_right.specs.Sides.{view};
ghost use Rattle.read_copies.specs.Boards.{most_readers, IsOpen, IsNewReader};
ghost use Rattle.read_copies.specs.Tables.{IsShown, KnowsBoard, brought_up, told_of};

use crate::changes::changed_rows;
use crate::reader::BoardReader;
use crate::rule::{Learns, Shows, TableWriter, Tells};
use crate::table::{Showing, Table};
use crate::told::{Count, Told};
use claim_book::Book;
use core::mem::replace_with;
use left_right::writer::Writer;
use std::alloc::{AllocError, Global};
use std::marker::Model;
use std::sync::Wait;
use std::thread;

/// A table of a book's accounts and positions in two copies, for as many readers as it was made with.
pub struct Board {
    alloc: Global,
    readers: u32,
    count: Count,
    writer: TableWriter,
}

impl Model for Board {
    ghost use Rattle.std.specs.Prelude.{drop};
    ghost use Rattle.read_copies.specs.Boards.{BoardView, IsBoard};

    ghost Value = { BoardView };

    ghost view = { λ b. record { readers = b.readers; table = b.writer.desk.shown.value } };

    ghost invariant = { λ b. IsBoard b.count b.writer.desk.shown.value (drop b.writer.behind b.writer.log.items) };
}

// Shows the other copy, brought up by a showing. It waits for readers that still read that copy. The showing comes back where there
// is no memory to append it.
fn try_publish<R: Wait>(
    rt: &R,
    writer: TableWriter,
    showing: Showing,
) -> (TableWriter, Result<(), Showing>)
    requires settled { drop writer.behind writer.log.items ≡ [] }
    requires board { showing.told.board ≡ writer.desk.shown.value.board }
    requires shown { IsShown (brought_up writer.desk.shown.value showing) }

    // The showing is shown; or it comes back, and what is shown stays as it was.
    ensures settled { drop result.0.behind result.0.log.items ≡ [] }
    ensures ok { OnOk result.1
        ((result.0.desk.shown.value ≡ brought_up writer.desk.shown.value showing)
        × (view result.0.desk.place ≡ Some (told_of result.0.desk.shown.value))) }
    ensures err { IfErr result.1 (λ back. (back ≡ showing) × (result.0.desk ≡ writer.desk)) }
{
    let mut writer = writer;
    match writer.append(showing) {
        Ok(()) => {
            let (writer, _shown) = writer.publish_as::<Shows, R>(rt);
            (writer, Ok(()))
        }
        Err(back) => (writer, Err(back)),
    }
}

// The same, until there is memory. A writer that has published once has room for a showing beside the last one, so that it tries once.
fn publish<R: Wait>(rt: &R, writer: TableWriter, showing: Showing) -> TableWriter
    requires settled { drop writer.behind writer.log.items ≡ [] }
    requires board { showing.told.board ≡ writer.desk.shown.value.board }
    requires shown { IsShown (brought_up writer.desk.shown.value showing) }

    // The table was brought up by the showing.
    ensures settled { drop result.behind result.log.items ≡ [] }
    ensures table { result.desk.shown.value ≡ brought_up writer.desk.shown.value showing }
{
    let mut writer = writer;
    let mut showing = showing;
    for _ in rt.forever() {
        let (next, published) = try_publish(rt, writer, showing);
        writer = next;
        match published {
            Ok(()) => return writer,
            Err(back) => showing = back,
        }
        thread::yield_now();
    }
    unreachable!()
}

// The same, of a writer in its place.
fn publish_in<R: Wait>(rt: &R, writer: &mut TableWriter, showing: Showing)
    requires settled { drop writer.old.behind writer.old.log.items ≡ [] }
    requires board { showing.told.board ≡ writer.old.desk.shown.value.board }
    requires shown { IsShown (brought_up writer.old.desk.shown.value showing) }

    // The table was brought up by the showing.
    ensures settled { drop writer.new.behind writer.new.log.items ≡ [] }
    ensures table { writer.new.desk.shown.value ≡ brought_up writer.old.desk.shown.value showing }
{
    replace_with(writer, showing, |writer, showing| {
        (publish(rt, writer, showing), ())
    })
}

// A writer that shows a table without rows, with room for so many readers.
fn open<R: Wait>(
    rt: &R,
    alloc: Global,
    told: &Told,
    readers: u32,
) -> Result<TableWriter, AllocError>
    requires places { (1 ≤ readers) × (readers ≤ most_readers) }
    requires nothing { told.now.history ≡ [] }
    ensures { IfOk result (λ w. IsOpen told.now w.desk.shown.value (drop w.behind w.log.items) (view w.desk.place)) }
{
    let first = Table::empty(alloc, told.again())?;
    let second = Table::empty(alloc, told.again())?;
    let writer: TableWriter = Writer::new(alloc, first, second, readers as usize)?;
    let showing = Showing {
        entries: 0,
        told: told.again(),
        rows: Vec::new(alloc),
    };
    match try_publish(rt, writer, showing) {
        (writer, Ok(())) => Ok(writer),
        (writer, Err(_)) => {
            drop(writer.take(rt));
            Err(AllocError)
        }
    }
}

// A reader of what a writer shows, who has seen what was told.
fn seat(writer: &mut TableWriter, told: &Told) -> Result<BoardReader, AllocError>
    requires { KnowsBoard told.now.board (view writer.old.desk.place) }
    ensures table { (writer.new.desk.shown ≡ writer.old.desk.shown)
        × (writer.new.log ≡ writer.old.log) × (writer.new.behind ≡ writer.old.behind) }
    ensures knows { view writer.new.desk.place ≡ view writer.old.desk.place }
    ensures reader { IfOk result (λ r. r ≡ told.now) }
{
    let mut reader = writer.factory().reader()?;
    let note = writer.tell::<Tells>();
    reader.learn::<Learns>(note);
    Ok(BoardReader::new(reader, told.again()))
}

// So many readers.
fn seat_all(
    writer: &mut TableWriter,
    told: &Told,
    list: &mut Vec<BoardReader>,
    readers: u32,
) -> Result<(), AllocError>
    requires knows { KnowsBoard told.now.board (view writer.old.desk.place) }
    requires room { readers ≤ vec_capacity list.old }
    requires none { list.old.items ≡ [] }

    // The writer shows the same, and each reader has seen what was told.
    ensures table { (writer.new.desk.shown ≡ writer.old.desk.shown)
        × (writer.new.log ≡ writer.old.log) × (writer.new.behind ≡ writer.old.behind) }
    ensures length { OnOk result (length list.new.items ≡ readers) }
    ensures each { OnOk result (All (λ r. r ≡ told.now) list.new.items) }
{
    for _ in 0..readers {
        list.push_reserved(seat(writer, told)?);
    }
    Ok(())
}

impl Board {
    /// A board that has shown nothing, and 1 to 8 readers of it, who have seen nothing. The table has room for all firms that may
    /// be registered.
    ///
    /// The only error is that memory is missing; a place for a reader that is refused counts as such. After an error the board is
    /// ended as by `close`.
    pub fn make<R: Wait>(
        rt: &R,
        alloc: Global,
        readers: u32,
    ) -> Result<(Board, Vec<BoardReader>), AllocError>
        requires { (1 ≤ readers) × (readers ≤ most_readers) }
        ensures board { IfOk result (λ r. (r.0.readers ≡ readers) × (r.0.table.history ≡ [])) }
        ensures readers { IfOk result (λ r. (length r.1.items ≡ readers) × All (IsNewReader r.0.table.board) r.1.items) }
    {
        let mut list = Vec::with_capacity(alloc, readers as usize)?;
        let (count, told) = Count::begin();
        let mut writer = open(rt, alloc, &told, readers)?;
        match seat_all(&mut writer, &told, &mut list, readers) {
            Ok(()) => {
                let board = Board {
                    alloc,
                    readers,
                    count,
                    writer,
                };
                Ok((board, list))
            }
            Err(refused) => {
                drop(writer.take(rt));
                Err(refused)
            }
        }
    }

    /// Shows a book, whose history begins with what was shown last. The table stands for the book's whole history then, all of it
    /// at once.
    ///
    /// It may wait for a reader that is reading, and not for one that reads no more. It looks at the firms that new entries touch, and
    /// at each firm where one of them publishes a round or where there are more of them than firms. The only error is that memory is
    /// missing; then the table is as before, and a later call shows the whole.
    pub fn show<R: Wait>(&mut self, rt: &R, book: &Book) -> Result<(), AllocError>
        requires { IsPrefix self.old.table.history book.now.history }

        // It is the same board, and what it shows stands for a history.
        ensures readers { self.new.readers ≡ self.old.readers }
        ensures board { self.new.table.board ≡ self.old.table.board }
        ensures shown { IsShown self.new.table }

        // The history is that of the book, or the table is as before.
        ensures ok { OnOk result (self.new.table.history ≡ book.now.history) }
        ensures err { OnErr result (self.new.table ≡ self.old.table) }
    {
        let table = self.writer.published();
        let rows = changed_rows(self.alloc, table, book)?;
        let Some(told) = self.count.add(&table.told, book) else {
            return Err(AllocError);
        };
        let entries = book.history().len() as u64;
        let showing = Showing {
            entries,
            told,
            rows,
        };
        publish_in(rt, &mut self.writer, showing);
        Ok(())
    }

    /// What was shown last, for a reader to learn. It takes no memory.
    pub fn tell(&mut self) -> Told
        ensures told { result ≡ told_of self.old.table }
        ensures same { self.new ≡ self.old }
    {
        self.writer.published().told.again()
    }

    /// Ends the board. The readers are all that it was made with. It takes no memory, and may wait as `show` may.
    pub fn close<R: Wait>(self, rt: &R, readers: Vec<BoardReader>)
        requires all { length readers.items ≡ self.readers }
        requires own { All (λ r. r.board ≡ self.table.board) readers.items }
    {
        drop(readers);
        let Board {
            alloc: _,
            readers: _,
            count: _count,
            writer,
        } = self;
        drop(writer.take(rt));
    }
}
