//! What was taken of an input, and how far it was read.
ghost use Rattle.std.specs.Prelude.{◌≡◌, IfSome, IfNone};
ghost use Rattle.input_front.specs.Taken.{HasNoFeed, IsEnded};

use crate::alone::read_alone;
use crate::line::Line;
use bureau_edge::{Failed, Source};
use setoff_model::put;
use std::alloc::{AllocError, Global};
use std::marker::Model;

/// How many bytes a source is asked for at once, at most.
pub const PIECE: usize = 32_768;

/// What came of asking a source for more.
#[derive(Clone, Copy, PartialEq, Eq)]
pub enum More {
    /// Some bytes.
    Some,
    /// The input has ended.
    End,
    /// The source failed, and counted it.
    Failed,
    /// More bytes than the limit were taken before.
    TooLong,
    /// There was no memory for a piece.
    Memory,
}

/// The bytes that were taken of an input, how many of them and how many lines were read, how many batches have begun, and
/// whether the last of these ended with a FENCE.
#[derive(Drop)]
pub struct Intake {
    limit: u64,
    bytes: Vec<u8>,
    read: usize,
    // Between `read` and here stands no line feed.
    sought: usize,
    lines: u64,
    served: u64,
    fenced: bool,
}

impl Model for Intake {
    ghost use Rattle.input_front.specs.Taken.{IntakeView, IsIntake};

    ghost Value = { IntakeView };

    ghost view = { λ i. record {
      limit = i.limit;
      taken = i.bytes.items;
      read = i.read;
      lines = i.lines;
      served = i.served;
      fenced = i.fenced;
    } };

    ghost invariant = { λ i. IsIntake (record {
      limit = i.limit;
      taken = i.bytes.items;
      read = i.read;
      lines = i.lines;
      served = i.served;
      fenced = i.fenced;
    }) i.sought };
}

impl Intake {
    ghost use Rattle.std.specs.Prelude.{◌≡◌, ◌+◌, ◌-◌, ◌≤◌, [], length, drop, true, false, IfOk, IfNone, IfSome};
    ghost use Rattle.setoff_model.specs.declared.limits.TheConstants.{MOST_INPUT_BYTES};
    ghost use Rattle.input_front.specs.Taken.{HasBatches, HasCome, HasFailed, HasLast, HasNext, HasNoFeed, HasNoLine};
    ghost use Rattle.input_front.specs.Taken.{KeepsRead};

    /// Nothing was taken, and no batch has begun. It takes at most one byte more than the limit.
    ///
    /// The only error is that memory is missing.
    pub fn new(alloc: Global, limit: u64) -> Result<Intake, AllocError>
        requires { limit ≤ MOST_INPUT_BYTES }
        ensures { IfOk result (λ i. i ≡ record { limit = limit; taken = []; read = 0; lines = 0; served = 0; fenced = true }) }
    {
        let bytes = Vec::with_capacity(alloc, PIECE)?;
        Ok(Intake {
            limit,
            bytes,
            read: 0,
            sought: 0,
            lines: 0,
            served: 0,
            fenced: true,
        })
    }

    /// What is known of each intake, as the batches of the lines that were read. It does nothing when it is called.
    pub fn batches(&self)
        ensures batches { HasBatches self.now }

        // How large the counts of an intake may be.
        ensures within { self.now.read ≤ length self.now.taken }
        ensures held { length self.now.taken ≤ self.now.limit + 1 }
        ensures numbered { self.now.lines ≤ length self.now.taken }
        ensures few { self.now.served ≤ length self.now.taken + 1 }
    {
        let _ = &self.limit;
    }

    /// The bytes that were taken and not read.
    pub fn unread(&self) -> &[u8]
        ensures { result.now ≡ drop self.now.read self.now.taken }
    {
        let (_, rest) = self.bytes.split_at(self.read);
        rest
    }

    /// How many lines were read.
    pub fn lines(&self) -> u64
        ensures { result ≡ self.now.lines }
    {
        self.lines
    }

    /// How many of the bytes that were taken were not read.
    pub fn left(&self) -> usize
        ensures left { result ≡ length self.now.taken - self.now.read }
        ensures few { result ≤ MOST_INPUT_BYTES + 1 }
    {
        self.bytes.len() - self.read
    }

    /// Begins the next batch, after a FENCE or at the front of the input.
    pub fn begin(&mut self)
        requires { self.old.fenced ≡ true }
        ensures begun { self.new ≡ record self.old { served = self.old.served + 1; fenced = false } }
        ensures reads { KeepsRead self.old self.new }
    {
        self.served += 1;
        self.fenced = false;
    }

    /// Reads the next line of the batch that has its line feed; None where there is none. A line that is not in the grammar,
    /// or for which memory is missing, is not read.
    pub fn next(&mut self, alloc: Global) -> Option<Line>
        requires { self.old.fenced ≡ false }
        ensures none { IfNone result ((self.new ≡ self.old) × HasNoLine self.old) }
        ensures some { IfSome result (HasNext self.old self.new) }
    {
        let (_, unsought) = self.bytes.split_at(self.sought);
        let Some(at) = line_end(unsought) else {
            self.sought = self.bytes.len();
            return None;
        };
        let end = self.sought + at;
        let (_, rest) = self.bytes.split_at(self.read);
        let (text, _) = rest.split_at(end - self.read);
        let number = self.lines + 1;
        match read_alone(alloc, number, text) {
            Line::Asks(request) => {
                self.read = end;
                self.sought = end;
                self.lines = number;
                Some(Line::Asks(request))
            }
            Line::Fence => {
                self.read = end;
                self.sought = end;
                self.lines = number;
                self.fenced = true;
                Some(Line::Fence)
            }
            Line::Bad { line, cause } => Some(Line::Bad { line, cause }),
            Line::Memory => Some(Line::Memory),
        }
    }

    /// What is left of an input that has ended says, as its last line; None where nothing is left.
    pub fn last(&self, alloc: Global) -> Option<Line>
        requires { HasNoFeed (drop self.now.read self.now.taken) }
        ensures { HasLast self.now result }
    {
        let (_, rest) = self.bytes.split_at(self.read);
        if rest.is_empty() {
            return None;
        }
        Some(read_alone(alloc, self.lines + 1, rest))
    }

    /// Asks the source for a piece, and keeps it. The memory for the piece is taken before.
    pub fn more<S: Source>(&mut self, source: &mut S) -> More
        ensures taken { HasCome S.left source.old source.new self.old self.new result }
        ensures cause { HasFailed S.faults source.old source.new result }
    {
        let taken = self.bytes.len() as u64;
        if self.limit < taken {
            return More::TooLong;
        }
        if self.bytes.reserve(PIECE).is_err() {
            return More::Memory;
        }
        let room = self.limit - taken;
        let ask = room.min(PIECE as u64 - 1) as usize + 1;
        let mut piece = [0; PIECE];
        let into = &mut piece[..ask];
        match source.read(into) {
            Ok(0) => More::End,
            Ok(count) => {
                put(&mut self.bytes, &into[..count]);
                More::Some
            }
            Err(Failed) => More::Failed,
        }
    }
}

// The place behind the first line feed; None where there is none.
fn line_end(bytes: &[u8]) -> Option<usize>
    ensures some { IfSome result (IsEnded bytes.now) }
    ensures none { IfNone result (HasNoFeed bytes.now) }
{
    for (i, byte) in bytes.iter().enumerate() {
        if *byte == b'\n' {
            return Some(i + 1);
        }
    }
    None
}
