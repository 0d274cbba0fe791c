//! Takes a register of a bureau into its journal, a group of lines at a time: the program.
//!
//! `main` calls `load`, which is the whole program over its words, a source, a sink and a disk, with a disk over the file
//! `bureau.journal` of the folder that it runs in, or `without_words` where there was no memory for the words or for the path of the
//! journal, and nothing else. Where there are words, it tells on the error stream that it takes none.
#![tactic(auto)]

use bureau_edge::{StandardIn, StandardOut};
use disk_model::FileDisk;
use load_command::{ExitStatus, load, without_words};
use std::alloc::AllocError;
use std::env;
use std::fs::File;
use std::io::{self, ErrorKind};
use std::path::Path;
use std::process::ExitCode;

const USAGE: &str =
    "load takes no words; it reads requests of its input, none of which is a CLOSE\n";

// The words after the program's name. Where one of them is no text, an empty word stands for all. The only error is that memory is
// missing.
fn words(rt: &HostRuntime) -> Result<Vec<String>, AllocError> {
    let mut words = Vec::new(rt.alloc());
    let mut args = match env::args(rt) {
        Ok(args) => args,
        Err(error) if error.kind() == ErrorKind::OutOfMemory => return Err(AllocError),
        Err(_) => {
            words.push(String::new(rt.alloc()))?;
            return Ok(words);
        }
    };
    let _program = args.next();
    for word in args {
        words.push(word)?;
    }
    Ok(words)
}

// The path of the journal.
fn journal(rt: &HostRuntime) -> Result<String, AllocError> {
    String::from_str(rt.alloc(), "bureau.journal")
}

// Puts a folder, of which nothing is read or written as a stream, in the place of each standard stream that is closed. Else the
// system would give the number of one to the journal, and what is printed would be written over it.
fn stand_ins(rt: &HostRuntime) -> [io::Result<File>; 3] {
    let folder = Path::new("/");
    [
        File::open(rt, folder),
        File::open(rt, folder),
        File::open(rt, folder),
    ]
}

// What the top call answers to these words, over the standard streams and the journal at this path.
fn status_of(rt: &HostRuntime, words: Vec<String>, path: String) -> u8 {
    let disk = FileDisk::new(rt, path);
    let source = StandardIn::new(rt);
    let sink = StandardOut::new(rt);
    load(rt.alloc(), words, source, sink, disk).status
}

// The status of the program, where the places of closed streams are held.
fn status(rt: &HostRuntime) -> u8 {
    match (words(rt), journal(rt)) {
        (Ok(words), Ok(path)) => status_of(rt, words, path),
        _ => without_words(StandardIn::new(rt), StandardOut::new(rt)).status,
    }
}

fn main(rt: HostRuntime) -> ExitCode {
    let _held = stand_ins(&rt);
    let status = status(&rt);
    if status == ExitStatus::Words.number() {
        let _told = eprint!(rt; "{USAGE}");
    }
    ExitCode::from(status)
}
