//! A disk as a journal sees it: what a read gives, and what a crash at each moment may leave.
//!
//! A disk holds one file, and has a clock of moments, a number that does not fall. Moments pass within calls. To each
//! moment belong its images: the bytes that the file may hold after a crash at that moment. Nobody but the caller
//! writes the file. The rules are these, and the clauses of `Disk` say them call by call, for all moments since the
//! start of the call:
//!
//! - Until a sync has succeeded, the range of each write, and the part past the old end, may hold any bytes after a
//!   crash. The length is then any number from the old one to the new one. Bytes outside the ranges stay.
//! - After a sync that succeeded, and until the next write, a crash leaves what a read gives.
//! - A write that failed counts as a write of its range. The disk may then read as any bytes there, too, and does so
//!   until the range is written again.
//! - A length, a read and a sync change no byte. What the disk reads is one of the images of the present moment.
//! - The images of a moment that has passed stay as they were, and none is added. A write or a sync that succeeded
//!   has passed a moment.
//! - A call fails only where the count of faults rises in it, or stands at its last value, 2^64 - 1. The count does
//!   not fall.
//!
//! A disk need not tell its bytes. Whether it does is the same before and after each call. Of one that does not, only
//! the count of faults is known, and a condition that speaks of its bytes asks nothing.
//!
//! `MemoryDisk` is the model as a program: it tells its bytes, fails where it is told to, and shows the images of each
//! moment that has been. `FileDisk` is a file of the operating system. It tells no bytes, since no clause can know what
//! a system's file holds: that such a file keeps the rules is trusted. `runs_compose` is the law of a whole run of
//! calls, and `torn_writes` says the rules byte by byte.
//!
//! A `FileDisk` that is only read takes no lock, and another may write the file. So it is read once, from front to back, up
//! to a read that gives nothing. Of a journal that is a beginning, with all that was written before the reading began: an
//! append writes a body at the end, and only then opens the gate before it. Where the gate is read open, the body had been
//! written and is read after it. Where it is read closed, what stands behind it is not looked at. A reading up to a length
//! that was asked before would not do: the gate at that end may be opened before it is read, and its body stands past it.
//! This trusts that the system reads what was last written. A gate that an append opened before it failed may be read, with
//! its body, before the next append closes it and writes over them.
#![tactic(auto)]

mod disk;
mod disk_failed;
mod file_disk;
mod laws;
mod memory_disk;
mod overlay;
mod replay;
mod step;
mod system_file;

pub use disk::Disk;
pub use disk_failed::DiskFailed;
pub use file_disk::FileDisk;
pub use laws::{runs_compose, torn_writes};
pub use memory_disk::MemoryDisk;
