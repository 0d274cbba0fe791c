//! Readers that read in threads while a book is shown.
ghost use Rattle.std.specs.Prelude.{◌≡◌, length, All};

use crate::acts::{firm, put_any, row_in, triangle};
use crate::boards::{made, put_and_show};
use limited_book::Book;
use read_copies::{Board, BoardReader, Row};
use setoff_model::Name;
use std::alloc::Global;
use std::process::Abort;
use std::sync::Wait;
use std::thread::{self, Threads};

// Reads a firm a thousand times. The numbers never fall, and each answer is what is due of a history of so many entries.
fn reads_rise<R: Wait + Abort>(rt: &R, reader: &mut BoardReader, firm: Name, due: &[Option<Row>])
    ensures { reader.new.board ≡ reader.old.board }
{
    let mut last = 0;
    for _ in 0..1_000 {
        let (entries, row) = reader.read(rt, firm);
        assert!(rt; last <= entries && due.get(entries as usize) == Some(&row));
        last = entries;
    }
}

// Shows a book after each of its entries.
fn show_each<R: Wait + Abort>(rt: &R, alloc: Global, board: &mut Board, book: &mut Book)
    requires { board.old.table.history ≡ book.old.history }
    ensures board { board.new.table.board ≡ board.old.table.board }
    ensures readers { board.new.readers ≡ board.old.readers }
{
    for act in triangle(rt, alloc) {
        put_and_show(rt, alloc, board, book, act);
    }
}

// The row of a firm after each number of entries.
fn due_rows(rt: &impl Abort, alloc: Global, book: &mut Book, firm: Name) -> Vec<Option<Row>> {
    let mut due = Vec::new(alloc);
    due.push(None).expect(rt, "memory");
    for act in triangle(rt, alloc) {
        put_any(rt, alloc, book, act);
        due.push(row_in(book, firm)).expect(rt, "memory");
    }
    due
}

// Two readers read while a book is shown after each of its entries.
fn read_beside<R: Threads + Wait + Abort + Sync>(
    rt: &R,
    alloc: Global,
    board: &mut Board,
    book: &mut Book,
    one: &mut BoardReader,
    other: &mut BoardReader,
    due: &[Option<Row>],
)
    requires { board.old.table.history ≡ book.old.history }

    // It is the same board for as many readers, and each of the two keeps its own.
    ensures board { board.new.table.board ≡ board.old.table.board }
    ensures readers { board.new.readers ≡ board.old.readers }
    ensures one { one.new.board ≡ one.old.board }
    ensures other { other.new.board ≡ other.old.board }
{
    let b = firm(rt, b'B');
    thread::join_mut(
        rt,
        &mut || show_each(rt, alloc, board, book),
        &mut || two_rise(rt, one, other, b, due),
    );
}

// Two readers read a firm in threads.
fn two_rise<R: Threads + Wait + Abort + Sync>(
    rt: &R,
    one: &mut BoardReader,
    other: &mut BoardReader,
    firm: Name,
    due: &[Option<Row>],
)
    ensures one { one.new.board ≡ one.old.board }
    ensures other { other.new.board ≡ other.old.board }
{
    thread::join_mut(
        rt,
        &mut || reads_rise(rt, one, firm, due),
        &mut || reads_rise(rt, other, firm, due),
    );
}

// A reader is told what was shown, and reads all of it.
fn learns<R: Wait + Abort>(
    rt: &R,
    board: &mut Board,
    reader: BoardReader,
    due: &[Option<Row>],
) -> BoardReader
    requires { reader.board ≡ board.old.table.board }
    ensures same { board.new ≡ board.old }
    ensures own { result.board ≡ board.old.table.board }
{
    let mut reader = reader;
    reader.learn(board.tell());
    let (entries, row) = reader.read(rt, firm(rt, b'B'));
    assert!(rt; entries == 11 && due.get(11) == Some(&row));
    reader
}

// The last two readers of a list read while a book is shown, and then all of it, and go to another list.
fn both_read<R: Threads + Wait + Abort + Sync>(
    rt: &R,
    alloc: Global,
    board: &mut Board,
    book: &mut Book,
    readers: &mut Vec<BoardReader>,
    due: &[Option<Row>],
) -> Vec<BoardReader>
    requires same { board.old.table.history ≡ book.old.history }
    requires own { All (λ r. r.board ≡ board.old.table.board) readers.old.items }

    // Both read this board, which has as many readers as before.
    ensures own { All (λ r. r.board ≡ board.new.table.board) result.items }
    ensures count { length result.items ≡ 2 }
    ensures readers { board.new.readers ≡ board.old.readers }
{
    let mut one = readers.pop().expect(rt, "a reader");
    let mut other = readers.pop().expect(rt, "a reader");
    read_beside(rt, alloc, board, book, &mut one, &mut other, due);
    let mut back = Vec::new(alloc);
    back.push(learns(rt, board, one, due)).expect(rt, "memory");
    back.push(learns(rt, board, other, due))
        .expect(rt, "memory");
    back
}

#[test]
fn two_readers_while_each_entry_is_shown(rt: HostRuntime) {
    let alloc = rt.alloc();
    let mut copy = Book::new(alloc);
    let due = due_rows(&rt, alloc, &mut copy, firm(&rt, b'B'));
    let mut book = Book::new(alloc);
    let (mut board, mut readers) = made(&rt, alloc, 2);
    let back = both_read(&rt, alloc, &mut board, &mut book, &mut readers, &due);
    board.close(&rt, back);
}
