//! The calls of the operating system on one file. Nothing is known of what they do.
ghost use Rattle.std.specs.Prelude.{◌≡◌, ◌+◌, ◌^◌, ◌<◌, length, IfSome};
ghost use Rattle.std.specs.Io.{ReadsAtMost, WritesAtMost};

use fault_count::MOST_CALLS;
use std::alloc::Global;
use std::fs::{self, File, OpenOptions};
use std::io::{self, ErrorKind, Read};
use std::os::unix::fs::FileExt;
use std::path::Path;
use std::rt::Files;

// The room that is made past the length of a file that is read.
const SPARE: usize = 4096;

/// A file of the system, by its path. The first length or read reads all of it, and it is what that gave until the first write or
/// sync opens and locks it. It is made at its first write where it is missing.
#[derive(Drop)]
pub(crate) struct SystemFile<'a, R> {
    rt: &'a R,
    path: String,
    held: Held,
    // Whether a sync of the folder has brought the name to the medium.
    in_folder: bool,
}

// What is held of a file: nothing yet; that it is missing; its bytes, as they were read; or the open file, with the system's lock.
#[derive(Drop)]
enum Held {
    Nothing,
    Missing,
    Bytes(Vec<u8>),
    Locked(File),
}

impl<'a, R: Files<File = File>> SystemFile<'a, R> {
    pub(crate) fn new(rt: &'a R, path: String) -> SystemFile<'a, R> {
        SystemFile {
            rt,
            path,
            held: Held::Nothing,
            in_folder: false,
        }
    }

    /// The number of bytes. A missing file has none.
    pub(crate) fn len(&mut self) -> io::Result<u64> {
        self.look()?;
        self.held.len()
    }

    /// Fills `into` with the bytes from `at` on. An end before it is full is an error.
    pub(crate) fn read_at(&mut self, at: u64, into: &mut [u8]) -> io::Result<()> {
        if into.is_empty() {
            return Ok(());
        }
        self.look()?;
        match &self.held {
            Held::Locked(file) => read_whole(file, at, into),
            Held::Bytes(bytes) => copy_from(bytes, at, into),
            Held::Nothing | Held::Missing => Err(ErrorKind::UnexpectedEof.into()),
        }
    }

    /// Writes a piece at an offset, in as many calls as the system needs.
    pub(crate) fn write_at(&mut self, at: u64, piece: &[u8]) -> io::Result<()>
        requires { at + length piece.now < 2 ^ 62 }
    {
        self.make()?;
        match self.held.file() {
            Some(file) => write_whole(file, at, piece),
            None => Err(ErrorKind::NotFound.into()),
        }
    }

    /// Brings the file to the medium, and, once, its name in the folder.
    ///
    /// Of the file these are its bytes, and its length where that changed: all that a later read needs. Its times may be
    /// left behind, so a byte that was written over in place costs no change of what the file system keeps of the file.
    pub(crate) fn sync(&mut self) -> io::Result<()> {
        self.own()?;
        self.held.sync()?;
        if !self.in_folder {
            sync_folder(self.rt, &self.path)?;
            self.in_folder = self.held.file().is_some();
        }
        Ok(())
    }

    // Makes the file where it is missing, and opens and locks it. It is an error where another has made it since.
    fn make(&mut self) -> io::Result<()> {
        self.own()?;
        if self.held.file().is_none() {
            let file = create_file(self.rt, &self.path)?;
            self.hold(Held::Locked(file));
        }
        Ok(())
    }

    // Reads a file that is there, where nothing is held of it yet.
    fn look(&mut self) -> io::Result<()> {
        if !self.held.is_nothing() {
            return Ok(());
        }
        let held = read_now(self.rt, &self.path)?;
        self.hold(held);
        Ok(())
    }

    // Opens and locks a file that is there. What was read of it before is given up.
    fn own(&mut self) -> io::Result<()> {
        if self.held.is_owned() {
            return Ok(());
        }
        self.hold(Held::Nothing);
        let held = locked_now(self.rt, &self.path)?;
        self.hold(held);
        Ok(())
    }

    fn hold(&mut self, held: Held) {
        self.held = held;
    }
}

impl Held {
    fn is_nothing(&self) -> bool {
        matches!(self, Held::Nothing)
    }

    // Whether the file is open and locked, or is known to be missing.
    fn is_owned(&self) -> bool {
        matches!(self, Held::Missing | Held::Locked(_))
    }

    fn file(&self) -> Option<&File> {
        match self {
            Held::Locked(file) => Some(file),
            Held::Nothing | Held::Missing | Held::Bytes(_) => None,
        }
    }

    fn len(&self) -> io::Result<u64> {
        match self {
            Held::Locked(file) => Ok(file.metadata()?.len()),
            Held::Bytes(bytes) => Ok(bytes.len() as u64),
            Held::Nothing | Held::Missing => Ok(0),
        }
    }

    // Brings the bytes of the file and its length to the medium.
    fn sync(&self) -> io::Result<()> {
        match self.file() {
            Some(file) => file.sync_data(),
            None => Ok(()),
        }
    }
}

// The bytes of a file that is there, as one reading finds them. It is not locked.
fn read_now<R: Files<File = File>>(rt: &R, path: &String) -> io::Result<Held> {
    match open_file(rt, path, false)? {
        Some(file) => Ok(Held::Bytes(bytes_of(*path.allocator(), file)?)),
        None => Ok(Held::Missing),
    }
}

// Reads a file from front to back, up to a read that gives nothing, since its length may grow meanwhile: what is written by the time
// that a byte is read, and stands behind it, is read. The room is that of the length now, and some more.
fn bytes_of(alloc: Global, file: File) -> io::Result<Vec<u8>> {
    let mut file = file;
    let len = usize::try_from(file.metadata()?.len()).unwrap_or(0);
    let mut bytes = Vec::with_capacity(alloc, len.saturating_add(SPARE))?;
    file.read_to_end(&mut bytes)?;
    Ok(bytes)
}

// A file that is there, open and locked. A lock that another holds is an error.
fn locked_now<R: Files<File = File>>(rt: &R, path: &str) -> io::Result<Held> {
    match open_file(rt, path, true)? {
        Some(file) => {
            file.try_lock()?;
            Ok(Held::Locked(file))
        }
        None => Ok(Held::Missing),
    }
}

// Opens a file that is there, for reading or for writing, too.
fn open_file<R: Files<File = File>>(rt: &R, path: &str, writes: bool) -> io::Result<Option<File>> {
    if !is_there(rt, path)? {
        return Ok(None);
    }
    match options(writes).open(rt, path) {
        Ok(file) => Ok(Some(file)),
        Err(error) if error.kind() == ErrorKind::NotFound => Ok(None),
        Err(error) => Err(error),
    }
}

// Whether a file has this path. What is there and is no regular file is an error, before it is opened: the system would wait at a
// pipe for one that writes.
fn is_there<R: Files>(rt: &R, path: &str) -> io::Result<bool> {
    match fs::metadata(rt, path) {
        Ok(found) if found.is_file() => Ok(true),
        Ok(_) => Err(ErrorKind::InvalidInput.into()),
        Err(error) if error.kind() == ErrorKind::NotFound => Ok(false),
        Err(error) => Err(error),
    }
}

// Makes a file that is missing, and locks it.
fn create_file<R: Files<File = File>>(rt: &R, path: &str) -> io::Result<File> {
    let mut options = options(true);
    let _ = options.create_new(true);
    let file = options.open(rt, path)?;
    file.try_lock()?;
    Ok(file)
}

fn options(writes: bool) -> OpenOptions {
    let mut options = OpenOptions::new();
    let _ = options.read(true);
    let _ = options.write(writes);
    options
}

// Fills `into` with these bytes from `at` on.
fn copy_from(bytes: &[u8], at: u64, into: &mut [u8]) -> io::Result<()> {
    match piece_of(bytes, at, into.len()) {
        Some(piece) => {
            into.copy_from_slice(piece);
            Ok(())
        }
        None => Err(ErrorKind::UnexpectedEof.into()),
    }
}

// So many of these bytes from a place on, where there are.
fn piece_of(bytes: &[u8], at: u64, len: usize) -> Option<&[u8]>
    ensures { IfSome result (λ piece. length piece.now ≡ len) }
{
    let from = usize::try_from(at).ok()?;
    let to = from.checked_add(len)?;
    bytes.get(from..to)
}

// Fills `into` with the bytes of a file from `at` on.
fn read_whole(file: &File, at: u64, into: &mut [u8]) -> io::Result<()> {
    let mut done = 0;
    while done < into.len() {
        let place = at.checked_add(done as u64).ok_or(ErrorKind::InvalidInput)?;
        let count = read_again(file, &mut into[done..], place)?;
        if count == 0 {
            return Err(ErrorKind::UnexpectedEof.into());
        }
        done += count;
    }
    Ok(())
}

// Writes a piece to a file from `at` on.
fn write_whole(file: &File, at: u64, piece: &[u8]) -> io::Result<()>
    requires { at + length piece.now < 2 ^ 62 }
{
    let mut done = 0;
    while done < piece.len() {
        let count = write_again(file, &piece[done..], at + done as u64)?;
        if count == 0 {
            return Err(ErrorKind::WriteZero.into());
        }
        done += count;
    }
    Ok(())
}

// Brings the name of a file in its folder to the medium. A system that knows no sync of a folder says so by one of two errors, and
// then there is nothing to do.
fn sync_folder<R: Files<File = File>>(rt: &R, path: &str) -> io::Result<()> {
    match File::open(rt, folder_of(path))?.sync_all() {
        Err(error) if is_unknown(error.kind()) => Ok(()),
        answer => answer,
    }
}

// Whether a sync that failed so is one that the system does not know.
fn is_unknown(kind: ErrorKind) -> bool {
    matches!(kind, ErrorKind::InvalidInput | ErrorKind::Unsupported)
}

// The folder that holds a file.
fn folder_of(path: &str) -> Path<'_> {
    match Path::new(path).parent() {
        Some(folder) if !folder.as_str().is_empty() => folder,
        _ => Path::new("."),
    }
}

// One read, again where a signal interrupts it, `MOST_CALLS` times in all.
fn read_again(file: &File, into: &mut [u8], at: u64) -> io::Result<usize>
    ensures { ReadsAtMost result into.new }
{
    for _ in 1..MOST_CALLS {
        match file.read_at(into, at) {
            Err(error) if error.kind() == ErrorKind::Interrupted => {}
            answer => return answer,
        }
    }
    file.read_at(into, at)
}

// One write, again where a signal interrupts it, `MOST_CALLS` times in all.
fn write_again(file: &File, piece: &[u8], at: u64) -> io::Result<usize>
    ensures { WritesAtMost result piece.now }
{
    for _ in 1..MOST_CALLS {
        match file.write_at(piece, at) {
            Err(error) if error.kind() == ErrorKind::Interrupted => {}
            answer => return answer,
        }
    }
    file.write_at(piece, at)
}
