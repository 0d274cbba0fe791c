//! A disk over a file of the operating system.
ghost use Rattle.std.specs.Prelude.{◌≡◌, ℕ};
ghost use Rattle.fault_count.specs.Counts.{IsCounted};
ghost use Rattle.disk_model.specs.Untold.{untold};

use crate::disk::Disk;
use crate::disk_failed::DiskFailed;
use crate::system_file::SystemFile;
use fault_count::next_count;
use std::fs::File;
use std::io;
use std::marker::Model;
use std::rt::Files;

/// A file of the operating system. It tells no bytes, since no clause knows what a system's file holds. Contracts see
/// the count of its faults: each call that fails adds one. A read or a write that a signal interrupts is made again, up
/// to 64 calls in all.
///
/// The first length or read reads all of the file and takes no lock, so that another may write it meanwhile. What it read
/// is answered to each length and read, until the first write or sync gives it up and takes the system's lock on the file.
/// From then on the file itself is asked, and no other `FileDisk` writes it. A lock that another program holds is a fault,
/// and no call waits for it. The lock ends with this value.
#[derive(Drop)]
pub struct FileDisk<'a, R> {
    file: SystemFile<'a, R>,
    faults: u64,
}

impl<'a, R> Model for FileDisk<'a, R> {
    ghost Value = { ℕ };

    ghost view = { λ d. d.faults };
}

impl<'a, R: Files<File = File>> FileDisk<'a, R> {
    /// The file of this path. It is opened at the first call. Where it is missing it has no bytes, and the first write
    /// makes it; that another has made it by then is a fault. What has this path and is no regular file, as a folder or a
    /// pipe, is never opened: each call is a fault.
    pub fn new(rt: &'a R, path: String) -> FileDisk<'a, R>
        ensures { result ≡ 0 }
    {
        FileDisk {
            file: SystemFile::new(rt, path),
            faults: 0,
        }
    }

    // An answer of the file, of which an error is one fault more.
    fn count_fault<T>(&mut self, answer: io::Result<T>) -> Result<T, DiskFailed>
        ensures { IsCounted self.old self.new result }
    {
        match answer {
            Ok(value) => Ok(value),
            Err(_) => {
                self.faults = next_count(self.faults);
                Err(DiskFailed)
            }
        }
    }
}

impl<R: Files<File = File>> Disk for FileDisk<'_, R> {
    ghost use Rattle.disk_model.specs.Untold.{nothing_told};

    ghost seen = { untold };

    ghost reads_now = { λ d told. absurd (nothing_told told) };

    /// The system's length of a locked file, and else how many bytes were read of it. An error of the system is a fault, and so is
    /// memory that is missing for what is read.
    fn len(&mut self) -> Result<u64, DiskFailed> {
        let answer = self.file.len();
        self.count_fault(answer)
    }

    /// Reads from a locked file, and else from what was read of it. An end before `into` is full is a fault, and so are an error of
    /// the system and memory that is missing for what is read.
    fn read_at(&mut self, at: u64, into: &mut [u8]) -> Result<(), DiskFailed> {
        let answer = self.file.read_at(at, into);
        self.count_fault(answer)
    }

    /// Writes to the file. An error of the system is a fault, and so is a write that takes nothing.
    fn write_at(&mut self, at: u64, piece: &[u8]) -> Result<(), DiskFailed> {
        let answer = self.file.write_at(at, piece);
        self.count_fault(answer)
    }

    /// Brings the bytes of the file and its length to the medium, and, once, its name in the folder. An error of the
    /// system is a fault, but for one that says of the folder that it knows no such sync.
    fn sync(&mut self) -> Result<(), DiskFailed> {
        let answer = self.file.sync();
        self.count_fault(answer)
    }

    fn faults(&self) -> u64 {
        self.faults
    }
}
