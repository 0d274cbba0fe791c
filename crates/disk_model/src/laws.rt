//! What holds of every run of calls.
ghost use Rattle.disk_model.specs.Runs.{RunLaw};
ghost use Rattle.disk_model.specs.Words.{AnyBytesLaw, TornLaw, WritesLaw};

use crate::disk::Disk;

/// The law of a run of calls, on any disk: what a crash at any moment since its start may have left.
///
/// A call does nothing. By its clause, wherever each call of a list of calls says of its moments what the trait asks,
/// a crash at a moment of the run leaves what some first calls of the list may leave, and a crash at its end what all
/// may leave: the images of the start, with the ranges of the writes torn, and after a sync that succeeded what a
/// read gave then. The images of the moments before the run stay.
pub fn runs_compose<D: Disk>()
    ensures { RunLaw D.seen }
{}

/// The law of torn writes, byte by byte.
///
/// A call does nothing. By its clauses writes after a sync, those that failed included, leave just this: any bytes in
/// their ranges and past the old end, any length from the old one to the new one, and every byte outside the ranges as
/// it was. The first clause is for one write, the second and the third are for any list of writes, each of which
/// begins within the file.
pub fn torn_writes()
    ensures torn { TornLaw }
    ensures nothing_else { WritesLaw }
    ensures any_bytes { AnyBytesLaw }
{}
