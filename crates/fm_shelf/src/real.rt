// The shelf over the system's files, and the sink over its standard output.
ghost use Rattle.std.specs.Prelude.{◌≡◌, ◌≤◌, List, ℕ, [], false, Some, length, IfOk};
ghost use Rattle.fm_shelf.specs.Entries.{known_files};

use crate::past::{Note, Past};
use crate::shelf::{Failed, Shelf, Sink};
use std::fs::{OpenFile, OpenOptions};
use std::io::{Read, Seek, SeekFrom, Write};
use std::rt::Files;
use std::{fs, io};

// One open, seek and read.
fn read_some<R: Files>(rt: &R, name: &str, at: u64, piece: &mut [u8]) -> io::Result<usize>
    ensures { IfOk result (λ n. n ≤ length piece.new) }
{
    let mut file = fs::open(rt, name)?;
    file.seek(SeekFrom::Start(at))?;
    file.read(piece)
}

// Adds a whole piece, over short writes too.
fn add<R: Files>(rt: &R, name: &str, piece: &[u8]) -> io::Result<()> {
    let mut file = OpenOptions::new().append(true).create(true).open(rt, name)?;
    file.write_all(piece)
}

// A longer file is cut; a shorter one isn't filled up.
fn shorten<R: Files>(rt: &R, name: &str, len: u64) -> io::Result<()> {
    let file = OpenOptions::new()
        .write(true)
        .create(true)
        .truncate(false)
        .open(rt, name)?;
    if file.metadata()?.len() > len {
        file.set_len(len)?;
    }
    Ok(())
}

/// Files of the system, by their paths. It tells nothing of what they hold, but what its calls told: it notes each call that it makes, which
/// takes no memory.
///
/// Failed reads and failed writes are counted for each name, in the record alone: at every error of the system, want of memory inside that
/// call included.
#[derive(Drop)]
pub struct FileShelf<'a, R: Files + Sync> {
    rt: &'a R,
    past: Past,
}

impl<'a, R: Files + Sync> FileShelf<'a, R> {
    /// The files that this runtime opens. Nothing is opened before the first call.
    pub fn new(rt: &'a R) -> Self
        ensures { ⟦<FileShelf<'a, R> as Shelf>⟧.seen result ≡ known_files [] }
    {
        FileShelf {
            rt,
            past: Past::new(),
        }
    }
}

impl<'a, R: Files + Sync> Shelf for FileShelf<'a, R> {
    ghost use Rattle.fm_shelf.specs.Entries.{told_by_calls};

    ghost seen = { λ s. told_by_calls s.past.events };

    fn read(&mut self, name: &str, at: u64, piece: &mut [u8]) -> Result<usize, Failed> {
        let answer = match read_some(self.rt, name, at, piece) {
            Ok(n) => Ok(n),
            Err(_) => Err(Failed),
        };
        let piece = &*piece;
        self.past = self.past.then(&Note::Read {
            name,
            at,
            piece,
            answer,
        });
        answer
    }

    fn append(&mut self, name: &str, piece: &[u8]) -> Result<usize, Failed> {
        let answer = match add(self.rt, name, piece) {
            Ok(()) => Ok(piece.len()),
            Err(_) => Err(Failed),
        };
        self.past = self.past.then(&Note::Append {
            name,
            piece,
            answer,
        });
        answer
    }

    fn cut(&mut self, name: &str, len: u64) -> Result<(), Failed> {
        let answer = match shorten(self.rt, name, len) {
            Ok(()) => Ok(()),
            Err(_) => Err(Failed),
        };
        self.past = self.past.then(&Note::Cut { name, len, answer });
        answer
    }
}

// How often a write is tried that signals cut short before a byte went out.
const TRIES: u32 = 64;

// One write, and again where a signal came first.
fn put_some<R: Print>(rt: &R, piece: &[u8]) -> io::Result<usize>
    ensures { IfOk result (λ n. n ≤ length piece.now) }
{
    for _ in 1..TRIES {
        match rt.write_some(piece) {
            Err(error) if error.kind() == io::ErrorKind::Interrupted => {}
            written => return written,
        }
    }
    rt.write_some(piece)
}

/// Standard output. It tells what the system has taken since it was made: it notes each call that it makes, which takes no memory. Its count
/// of failures rises at every error of the system, and where the system takes no byte; it stands still at the end of `u64`. Each write
/// is one call of the system, so after one that failed no byte of its piece went out.
#[derive(Drop)]
pub struct OutSink<'a, R: Print> {
    rt: &'a R,
    failures: u64,
    past: Past,
}

impl<'a, R: Print> OutSink<'a, R> {
    /// The standard output of this runtime, which has taken nothing yet.
    pub fn new(rt: &'a R) -> Self
        ensures { ⟦<OutSink<'a, R> as Sink>⟧.seen result ≡ record { written = Some []; faults = 0 } }
    {
        OutSink {
            rt,
            failures: 0,
            past: Past::new(),
        }
    }
}

impl<'a, R: Print> Sink for OutSink<'a, R> {
    ghost use Rattle.fm_shelf.specs.Event.{sent_of};

    ghost seen = { λ s. record { written = Some (sent_of s.past.events); faults = s.failures } };

    fn write(&mut self, piece: &[u8]) -> Result<usize, Failed> {
        let answer = match put_some(self.rt, piece) {
            Ok(n) if n > 0 || piece.is_empty() => Ok(n),
            _ => Err(Failed),
        };
        if answer.is_err() {
            self.failures = self.failures.saturating_add(1);
        }
        self.past = self.past.then(&Note::Write { piece, answer });
        answer
    }

    fn failures(&self) -> u64 {
        self.failures
    }
}
