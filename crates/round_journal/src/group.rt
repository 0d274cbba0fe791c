//! Records that are kept together, all or none.
ghost use Rattle.std.specs.Prelude.{◌≡◌, ◌+◌, ◌<◌, ◌≤◌, ◌^◌, ℕ, List, [], ◌∷◌, ◌++◌, length, OnOk, OnErr, vec_len, vec_capacity};
ghost use Rattle.act_bodies.specs.claim_history.specs.declared.record_bytes.TheConstants.{RECORD_HEAD};
ghost use Rattle.round_journal.specs.Kept.{IsGroup, IsSomeGroup};

use act_bodies::record_bytes::RECORD_HEAD;
use setoff_model::put;
use std::alloc::{AllocError, Global};
use std::marker::Model;

/// The records of a group, as they are written behind the gate of the first: each a length and a body, with an open gate
/// between two, and a closed one behind the last.
#[derive(Drop)]
pub struct Group {
    bytes: Vec<u8>,
}

impl Model for Group {
    ghost use Rattle.std.specs.Prelude.{ℕ, List};
    ghost use Rattle.round_journal.specs.Kept.{IsSomeGroup};

    ghost Value = { List ℕ };

    ghost view = { λ g. g.bytes.items };

    ghost invariant = { λ g. IsSomeGroup g.bytes.items };
}

impl Group {
    /// A group of no records. It takes no memory.
    pub fn new(alloc: Global) -> Group
        ensures { result ≡ [] }
    {
        Group {
            bytes: Vec::new(alloc),
        }
    }

    /// Puts a record with this body at the end. The only error is that memory is missing, and then the group is as it was.
    pub fn push(&mut self, body: &[u8]) -> Result<(), AllocError>
        requires short { length body.now < 2 ^ 31 }
        ensures done { OnOk result ((bodies : List (List ℕ)) → IsGroup bodies self.old → IsGroup (bodies ++ body.now ∷ []) self.new) }
        ensures len { OnOk result (length self.new ≡ length self.old + RECORD_HEAD + length body.now) }
        ensures error { OnErr result (self.new ≡ self.old) }
    {
        self.bytes.reserve(RECORD_HEAD as usize + body.len())?;
        push_record(&mut self.bytes, body);
        Ok(())
    }

    /// Leaves no record, and keeps the memory that there is.
    pub fn clear(&mut self)
        ensures { self.new ≡ [] }
    {
        self.bytes.clear();
    }

    /// By how many bytes a journal grows where the group is kept. It is 0 exactly where there is no record. It takes no memory.
    pub fn len(&self) -> u64
        ensures { result ≡ length self.now }
    {
        self.bytes.len() as u64
    }

    /// What is written behind the gate.
    pub(crate) fn bytes(&self) -> &[u8]
        ensures bytes { result.now ≡ self.now }
        ensures group { IsSomeGroup self.now }
    {
        &self.bytes
    }
}

/// Puts a record at the end of a piece, in memory that is there.
pub(crate) fn push_record(bytes: &mut Vec<u8>, body: &[u8])
    requires room { vec_len bytes.old + RECORD_HEAD + length body.now ≤ vec_capacity bytes.old }
    requires short { length body.now < 2 ^ 32 }

    // The piece has one record more, and no less memory.
    ensures done { (bodies : List (List ℕ)) → IsGroup bodies bytes.old.items → IsGroup (bodies ++ body.now ∷ []) bytes.new.items }
    ensures len { length bytes.new.items ≡ length bytes.old.items + RECORD_HEAD + length body.now }
    ensures room { vec_capacity bytes.old ≤ vec_capacity bytes.new }
{
    let len = bytes.len();
    if len > 0 {
        bytes[len - 1] = 1;
    }
    put(bytes, &(body.len() as u32).to_be_bytes());
    put(bytes, body);
    bytes.push_reserved(0);
}
