//! An open journal.
ghost use Rattle.std.specs.Prelude.{◌≡◌, ◌+◌, ◌<◌, ◌≤◌, ℕ, List, [], ◌∷◌, length, IfErr, IfOk, OnOk, OnErr, vec_capacity};
ghost use Rattle.setoff_model.specs.declared.limits.TheConstants.{MOST_BODY, MOST_JOURNAL_BYTES};
ghost use Rattle.act_bodies.specs.claim_history.specs.declared.record_bytes.TheConstants.{POOL_BYTES, RECORD_HEAD};
ghost use Rattle.round_journal.specs.Kept.{IsGroup, IsSomeGroup};
ghost use Rattle.round_journal.specs.Appends.{HasAppended, HasNotAppended, HasTried, IsFaultOf};
ghost use Rattle.round_journal.specs.Opened.{IsOpen, IsRefused};

use crate::cause::JournalCause;
use crate::device::Device;
use crate::group::{Group, push_record};
use crate::log::Log;
use crate::open_refused::OpenRefused;
use crate::opening::{Opening, open_disk};
use crate::record::Record;
use act_bodies::record_bytes::{POOL_BYTES, RECORD_HEAD};
use disk_model::Disk;
use setoff_model::limits::MOST_BODY;
use std::alloc::Global;
use std::marker::Model;
use std::snapshot::Snapshot;

/// A journal on a disk, with room for the bytes of the longest record. It keeps the records of its opening and of each append
/// since then that succeeded.
pub struct Journal<D: Disk> {
    log: Log<D>,
    staging: Vec<u8>,
    opened: Snapshot<D>,
    ghost room: { MOST_BODY + POOL_BYTES + RECORD_HEAD ≤ vec_capacity staging },
}

// Written out, so that it is proved once, and not in each crate that lets a journal go.
impl<D: Disk + Drop> Drop for Journal<D> {
    fn drop(self) {
        let Self {
            log,
            staging,
            opened,
        } = self;
    }
}

impl<D: Disk> Model for Journal<D> {
    ghost use Rattle.setoff_model.specs.declared.limits.TheConstants.{MOST_JOURNAL_BYTES};
    ghost use Rattle.round_journal.specs.Kept.{JournalView};

    ghost Value = { JournalView D };

    ghost view = { λ j. record { disk = j.log.disk; gate = j.log.gate; unsettled = j.log.unsettled; at_first_sync = j.opened.value } };
}

impl<D: Disk> Journal<D> {
    /// Opens a journal, and gives its records in order. It syncs the disk, asks for the length, and reads all bytes. A
    /// disk of at most nine bytes that stand for no journal is made one with no records: nine bytes are written at 0 and
    /// synced. Otherwise nothing is written.
    ///
    /// After an Ok every present image stands for the records. An Err hands the disk back. Memory: there was none for
    /// the bytes, the records or the longest record. Device: the disk failed. BadHeader: there are more than nine bytes,
    /// and they begin with neither header. BadRecord: the record behind the first faulty open gate runs past the end
    /// or lacks the next gate (Short), or its body is no act (Body).
    pub fn open(alloc: Global, mut disk: D) -> Result<(Journal<D>, Vec<Record>), OpenRefused<D>>
        ensures ok { IfOk result (λ r. IsOpen D.seen disk r.0 r.1.items) }
        ensures err { IfErr result (λ e. IsRefused (D.seen disk) (D.seen e.disk) e.cause) }
    {
        let before = disk.faults();
        let Ok(staging) = Vec::with_capacity(alloc, MOST_BODY + (POOL_BYTES + RECORD_HEAD) as usize)
        else {
            return Err(OpenRefused {
                disk,
                cause: JournalCause::Memory,
            });
        };
        match open_disk(alloc, &mut disk) {
            Ok(Opening { scan, opened }) => {
                let log = Log {
                    disk,
                    gate: scan.gate,
                    unsettled: false,
                };
                Ok((
                    Journal {
                        log,
                        staging,
                        opened,
                    },
                    scan.records,
                ))
            }
            Err(stop) => {
                let cause = stop.cause(before, disk.faults());
                Err(OpenRefused { disk, cause })
            }
        }
    }

    /// Appends a record with this body, of at most `MOST_BODY` and `POOL_BYTES` bytes. It asks that the record ends within the first 2^30
    /// bytes, and takes no memory. Four calls of the disk are made: length, body and a closed gate are written behind the
    /// record's gate and synced, and then this gate is opened and synced. Where an append that failed may have begun to
    /// open the gate, two calls before these close it again.
    ///
    /// After an Ok every present image has the record. An Err means that the disk failed. Then the records are kept as
    /// they were, and an image may have the new one behind them, or the one of the append that failed before. Where it
    /// failed before it began to open the gate, and with none to close first, nothing is left to settle.
    pub fn append(&mut self, body: &[u8]) -> Result<(), Device>
        requires short { length body.now ≤ MOST_BODY + POOL_BYTES }
        requires near { self.old.gate + RECORD_HEAD + length body.now ≤ MOST_JOURNAL_BYTES }

        // What came of it, what a crash may leave, and the cause of an error.
        ensures done { OnOk result (HasAppended D.seen self.old self.new (body.now ∷ [])) }
        ensures failed { OnErr result (HasNotAppended D.seen self.old self.new (body.now ∷ [])) }
        ensures tried { HasTried D.seen self.old self.new (body.now ∷ []) }
        ensures cause { IfErr result (IsFaultOf (D.seen self.old.disk) (D.seen self.new.disk)) }
    {
        self.staging.clear();
        push_record(&mut self.staging, body);
        let before = self.log.disk.faults();
        let Err(_) = self.log.append(&self.staging) else {
            return Ok(());
        };
        Err(Device {
            before,
            after: self.log.disk.faults(),
        })
    }

    /// Appends the records of a group, of which there is one at least, all or none, and takes no memory. It asks that the records end
    /// within the first 2^30 bytes. The calls of the disk are those of an append of one record, so two syncs serve the whole group.
    ///
    /// After an Ok every present image has all of them. An Err means that the disk failed. Then the records are kept as they
    /// were, and an image may have all those of the group behind them, or those of the append that failed before. No image has
    /// a part of a group. The journal may go on, as after an append of one record that failed.
    pub fn append_group(&mut self, group: &Group) -> Result<(), Device>
        // There is a record, and the last one ends in time.
        requires some { 0 < length group.now }
        requires near { self.old.gate + length group.now ≤ MOST_JOURNAL_BYTES }

        // It is the group of some bodies, and whatever they are, this came of it.
        ensures group { IsSomeGroup group.now }
        ensures done { OnOk result ((bodies : List (List ℕ)) → IsGroup bodies group.now → HasAppended D.seen self.old self.new bodies) }
        ensures failed { OnErr result ((bodies : List (List ℕ)) → IsGroup bodies group.now
            → HasNotAppended D.seen self.old self.new bodies) }

        // What a crash may leave, and the cause of an error.
        ensures tried { (bodies : List (List ℕ)) → IsGroup bodies group.now → HasTried D.seen self.old self.new bodies }
        ensures cause { IfErr result (IsFaultOf (D.seen self.old.disk) (D.seen self.new.disk)) }
    {
        let before = self.log.disk.faults();
        if let Err(_) = self.log.append(group.bytes()) {
            return Err(Device {
                before,
                after: self.log.disk.faults(),
            });
        }
        Ok(())
    }

    /// The disk. It takes no memory.
    pub fn disk(&self) -> &D
        ensures { result.now ≡ self.now.disk }
    {
        &self.log.disk
    }

    /// The place of the next record's gate: the number of bytes of the header and of the records. It takes no
    /// memory.
    pub fn gate(&self) -> u64
        ensures { result ≡ self.now.gate }
    {
        self.log.gate
    }

    /// Gives the disk back. It takes no memory, and calls the disk no more.
    pub fn close(self) -> D
        ensures { result ≡ self.disk }
    {
        let Journal {
            log,
            staging: _,
            opened: _,
        } = self;
        let Log {
            disk,
            gate: _,
            unsettled: _,
        } = log;
        disk
    }
}
