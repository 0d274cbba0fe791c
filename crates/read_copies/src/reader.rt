//! Those who read a board.
ghost use Rattle.std.specs.Prelude.{◌≡◌, length, Some, IfSome, IfNone};
ghost use mathlib.Core.List.{IsPrefix};
ghost use Rattle.left_right.specs.Sides.{view};
ghost use Rattle.claim_book.specs.Book.{ledger_of};
ghost use Rattle.read_copies.specs.Rows.{row_in};
ghost use Rattle.read_copies.specs.Tables.{KnowsBoard, HasLooked};

use crate::row::Row;
use crate::rule::{Reads, TableReader};
use crate::told::Told;
use core::mem::replace_with;
use setoff_model::Name;
use std::marker::Model;
use std::sync::Wait;

/// One who reads a board, and has seen a beginning of the history that the board has shown.
#[derive(Drop)]
pub struct BoardReader {
    reader: TableReader,
    told: Told,
    apart: Apart,
}

// Keeps what a reader writes out of the cache lines of the next one in a list: both would wait for each other.
type Apart = [u64; 16];

impl Model for BoardReader {
    ghost use Rattle.left_right.specs.Sides.{view as known};
    ghost use Rattle.read_copies.specs.Shown.{ToldView};
    ghost use Rattle.read_copies.specs.Tables.{KnowsBoard};

    ghost Value = { ToldView };

    ghost view = { λ r. r.told };

    ghost invariant = { λ r. KnowsBoard r.told.board (known r.reader.place) };
}

// What was found of a firm in the table.
#[derive(Drop)]
struct Found {
    entries: u64,
    row: Option<Row>,
    told: Told,
}

// Looks a firm up in the table that is shown now. None where the board is closed.
fn look(reader: TableReader, firm: &Name) -> (TableReader, Option<Found>)
    ensures same { view result.0.place ≡ view reader.place }
    ensures found { IfSome result.1 (λ f. HasLooked (view reader.place) firm.now f.told f.entries f.row) }
{
    match reader.enter_as::<Reads>() {
        Ok(reading) => {
            let table = reading.get();
            let found = Found {
                entries: table.entries,
                row: table.row(firm),
                told: table.told.again(),
            };
            (reading.leave(), Some(found))
        }
        Err(reader) => (reader, None),
    }
}

impl BoardReader {
    pub(crate) fn new(reader: TableReader, told: Told) -> BoardReader
        requires { KnowsBoard told.board (view reader.place) }
        ensures { result ≡ told }
    {
        BoardReader {
            reader,
            told,
            apart: [0; 16],
        }
    }

    /// How many entries the history has that is shown now, and the row of a firm in it; None exactly where the firm is not
    /// registered there.
    ///
    /// That history begins with all that this reader has seen, and is what it has seen afterwards. It takes no turn and no memory,
    /// and waits for nobody. The handle is there since it tries again where `try_read` gives None.
    pub fn read<R: Wait>(&mut self, rt: &R, firm: Name) -> (u64, Option<Row>)
        ensures board { self.new.board ≡ self.old.board }
        ensures begins { IsPrefix self.old.history self.new.history }
        ensures entries { result.0 ≡ length self.new.history }
        ensures row { result.1 ≡ row_in (ledger_of self.new.history) firm }
    {
        for _ in rt.forever() {
            if let Some(read) = self.try_read(firm) {
                return read;
            }
        }
        unreachable!()
    }

    /// The same without a handle, for who must not try again. It always returns: None where the board is closed or shows less than
    /// this reader has seen, which does not come while the reader is out. Then the reader is as it was.
    pub fn try_read(&mut self, firm: Name) -> Option<(u64, Option<Row>)>
        ensures board { self.new.board ≡ self.old.board }
        ensures begins { IsPrefix self.old.history self.new.history }

        // What was read is that of the history; after None the reader is as it was.
        ensures entries { IfSome result (λ r. r.0 ≡ length self.new.history) }
        ensures row { IfSome result (λ r. r.1 ≡ row_in (ledger_of self.new.history) firm) }
        ensures none { IfNone result (self.new ≡ self.old) }
    {
        let found = replace_with(&mut self.reader, &firm, look)?;
        if !self.told.begins(&found.told) {
            return None;
        }
        self.told = found.told;
        Some((found.entries, found.row))
    }

    /// Takes in what the board told. What this reader has seen afterwards begins with what it had seen, and with what was told. It
    /// takes no memory.
    pub fn learn(&mut self, told: Told)
        requires { told.board ≡ self.old.board }
        ensures board { self.new.board ≡ self.old.board }
        ensures begins { IsPrefix self.old.history self.new.history }
        ensures told { IsPrefix told.history self.new.history }
    {
        if self.told.begins(&told) {
            self.told = told;
        }
    }
}
