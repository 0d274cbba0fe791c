//! A book that is shown, and what its readers read.
ghost use Rattle.std.specs.Prelude.{◌≡◌, ◌+◌, [], length, All};
ghost use mathlib.Core.List.{IsPrefix};

use crate::acts::{fill, firm, put_any, row_in};
use claim_history::{Act, Position};
use limited_book::Book;
use read_copies::{Board, BoardReader};
use std::alloc::Global;
use std::process::Abort;
use std::sync::Wait;

/// A board that has shown nothing, and so many readers of it.
pub fn made<R: Wait + Abort>(rt: &R, alloc: Global, readers: u32) -> (Board, Vec<BoardReader>)
    ensures readers { (length result.1.items ≡ readers) × (result.0.readers ≡ readers) }
    ensures nothing { result.0.table.history ≡ [] }
    ensures own { All (λ r. r.board ≡ result.0.table.board) result.1.items }
{
    assert!(rt; 1 <= readers && readers <= 8);
    Board::make(rt, alloc, readers).expect(rt, "memory")
}

/// Shows a book whole.
pub fn show<R: Wait + Abort>(rt: &R, board: &mut Board, book: &Book)
    requires { IsPrefix board.old.table.history book.now.history }
    ensures board { board.new.table.board ≡ board.old.table.board }
    ensures readers { board.new.readers ≡ board.old.readers }
    ensures shown { board.new.table.history ≡ book.now.history }
{
    board.show(rt, book).expect(rt, "memory");
}

// The triangle is read whole, and a firm that is not registered has no row.
fn reads_the_triangle<R: Wait + Abort>(rt: &R, reader: &mut BoardReader)
    ensures { reader.new.board ≡ reader.old.board }
{
    let (entries, row) = reader.read(rt, firm(rt, b'A'));
    let row = row.expect(rt, "a row");
    assert!(rt; entries == 11 && row.account.balance == 0);
    let due = Position {
        balance: 0,
        receivable: 500,
        payable: 300,
    };
    assert!(rt; row.position == due);
    assert!(rt; reader.read(rt, firm(rt, b'Z')) == (11, None));
    assert!(rt; reader.try_read(firm(rt, b'Z')) == Some((11, None)));
}

// The last reader of a list is told what was shown, reads the triangle twice, and goes to another list.
fn one_reads<R: Wait + Abort>(
    rt: &R,
    board: &mut Board,
    left: &mut Vec<BoardReader>,
    back: &mut Vec<BoardReader>,
)
    requires left { All (λ r. r.board ≡ board.old.table.board) left.old.items }
    requires back { All (λ r. r.board ≡ board.old.table.board) back.old.items }

    // The board stays as it was, and one reader went to the other list.
    ensures same { board.new ≡ board.old }
    ensures left { All (λ r. r.board ≡ board.old.table.board) left.new.items }
    ensures back { All (λ r. r.board ≡ board.old.table.board) back.new.items }
    ensures count { length back.new.items ≡ length back.old.items + 1 }
{
    let mut reader = left.pop().expect(rt, "a reader");
    reader.learn(board.tell());
    reads_the_triangle(rt, &mut reader);
    reads_the_triangle(rt, &mut reader);
    back.push(reader).expect(rt, "memory");
}

// Each reader is told what was shown, and reads the triangle twice.
fn all_read<R: Wait + Abort>(
    rt: &R,
    alloc: Global,
    board: &mut Board,
    readers: Vec<BoardReader>,
) -> Vec<BoardReader>
    requires own { All (λ r. r.board ≡ board.old.table.board) readers.items }
    ensures same { board.new ≡ board.old }
    ensures own { All (λ r. r.board ≡ board.old.table.board) result.items }
    ensures length { length result.items ≡ length readers.items }
{
    let mut left = readers;
    let mut back = Vec::new(alloc);
    for _ in 0..left.len() {
        one_reads(rt, board, &mut left, &mut back);
    }
    back
}

// So many readers of a board that shows the triangle, twice.
#[tactic(auto, using(crate::proofs::Longer::nothing_begins, crate::proofs::Longer::all_begins))]
fn triangle_is_read<R: Wait + Abort>(rt: &R, alloc: Global, book: &mut Book, readers: u32) {
    let (mut board, list) = made(rt, alloc, readers);
    show(rt, &mut board, book);
    show(rt, &mut board, book);
    let list = all_read(rt, alloc, &mut board, list);
    board.close(rt, list);
}

#[test]
fn one_reader_and_eight(rt: HostRuntime) {
    let mut book = Book::new(rt.alloc());
    fill(&rt, rt.alloc(), &mut book);
    triangle_is_read(&rt, rt.alloc(), &mut book, 1);
    triangle_is_read(&rt, rt.alloc(), &mut book, 8);
}

/// Puts an act at the end of a book, which was shown whole, and shows it again.
#[tactic(auto, using(crate::proofs::Longer::still_begins))]
pub fn put_and_show<R: Wait + Abort>(
    rt: &R,
    alloc: Global,
    board: &mut Board,
    book: &mut Book,
    act: Act,
)
    requires { board.old.table.history ≡ book.old.history }
    ensures same { board.new.table.history ≡ book.new.history }
    ensures board { board.new.table.board ≡ board.old.table.board }
    ensures readers { board.new.readers ≡ board.old.readers }
{
    put_any(rt, alloc, book, act);
    show(rt, board, book);
}

// Shows a book after each of a thousand acts, of which each puts a cent into the account of a firm.
fn show_a_thousand<R: Wait + Abort>(rt: &R, alloc: Global, board: &mut Board, book: &mut Book)
    requires { board.old.table.history ≡ book.old.history }
    ensures board { board.new.table.board ≡ board.old.table.board }
    ensures readers { board.new.readers ≡ board.old.readers }
{
    let firm = firm(rt, b'A');
    put_and_show(rt, alloc, board, book, Act::Firm { firm });
    for _ in 0..999 {
        put_and_show(rt, alloc, board, book, Act::Fund { firm, amount: 1 });
    }
}

// The last reader of a list, who was told nothing, reads nothing else than the book has, and all of it once it is told. It goes to
// another list.
fn one_sees<R: Wait + Abort>(
    rt: &R,
    board: &mut Board,
    book: &Book,
    left: &mut Vec<BoardReader>,
    back: &mut Vec<BoardReader>,
)
    requires left { All (λ r. r.board ≡ board.old.table.board) left.old.items }
    requires back { All (λ r. r.board ≡ board.old.table.board) back.old.items }

    // The board stays as it was, and one reader went to the other list.
    ensures same { board.new ≡ board.old }
    ensures back { All (λ r. r.board ≡ board.old.table.board) back.new.items }
    ensures count { length back.new.items ≡ length back.old.items + 1 }
{
    let a = firm(rt, b'A');
    let mut reader = left.pop().expect(rt, "a reader");
    let (entries, row) = reader.read(rt, a);
    assert!(rt; entries <= 1_000);
    assert!(rt; entries < 1_000 || row == row_in(book, a));
    reader.learn(board.tell());
    assert!(rt; reader.read(rt, a) == (1_000, row_in(book, a)));
    back.push(reader).expect(rt, "memory");
}

// A thousand showings are read by the last reader of a list, who goes to another.
fn thousand_read<R: Wait + Abort>(
    rt: &R,
    alloc: Global,
    board: &mut Board,
    book: &mut Book,
    left: &mut Vec<BoardReader>,
) -> Vec<BoardReader>
    requires same { board.old.table.history ≡ book.old.history }
    requires left { All (λ r. r.board ≡ board.old.table.board) left.old.items }

    // The one reader reads this board, which has as many as before.
    ensures back { All (λ r. r.board ≡ board.new.table.board) result.items }
    ensures count { length result.items ≡ 1 }
    ensures readers { board.new.readers ≡ board.old.readers }
{
    show_a_thousand(rt, alloc, board, book);
    let mut back = Vec::new(alloc);
    one_sees(rt, board, book, left, &mut back);
    back
}

#[test]
fn a_thousand_shows(rt: HostRuntime) {
    let mut book = Book::new(rt.alloc());
    let (mut board, mut readers) = made(&rt, rt.alloc(), 1);
    let back = thousand_read(&rt, rt.alloc(), &mut board, &mut book, &mut readers);
    board.close(&rt, back);
}
