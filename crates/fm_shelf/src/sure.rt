// A shelf and a sink that never fail.
ghost use Rattle.std.specs.Prelude.{◌≡◌, ◌≤◌, ℕ, List, [], None, filter, not, length, IfOk};
ghost use Rattle.std.specs.Str.{bytes_eq};
ghost use Rattle.fm_shelf.specs.Content.{Absent, IfPresent};
ghost use Rattle.fm_shelf.specs.Entries.{content_in, files_of, known_files};
ghost use Rattle.fm_shelf.specs.Given.{given_files};
ghost use Rattle.fm_shelf.specs.Shelf.{IsPieceRead};

use crate::files::Files;
use crate::memory::{Entry, entries_of, is_same, read_entry};
use crate::past::{Note, Past};
use crate::shelf::{Failed, Shelf, Sink};
use room::NoRoom;
use std::alloc::Global;

/// A shelf that never fails. It tells the files that it was given, each until a call cuts it or appends to it, and no other
/// name. It keeps nothing of what it is given, and a read of a file that it doesn't tell is at the end.
#[derive(Drop)]
pub struct SureShelf {
    told: Vec<Entry>,
    past: Past,
}

fn is_other(entry: &Entry, name: &str) -> bool
    ensures { result ≡ not (bytes_eq entry.now.name.items name.now) }
{
    !is_same(entry.name.as_slice(), name.as_bytes())
}

// No longer tells the file of a name.
fn forget(told: &mut Vec<Entry>, name: &str)
    ensures { told.new.items ≡ filter (λ entry. not (bytes_eq entry.name.items name.now)) told.old.items }
{
    told.retain(|entry| is_other(entry, name));
}

// Reads from the file of a name, where it is told; another is at its end.
fn read_told(told: &[Entry], name: &str, at: u64, piece: &mut [u8]) -> usize
    ensures fits { result ≤ length piece.new }
    ensures read { IfPresent (content_in (files_of told.now) Absent name.now) (λ bytes. IsPieceRead bytes at result piece.new) }
{
    match read_entry(told, name, at, piece) {
        Some(n) => n,
        None => 0,
    }
}

impl SureShelf {
    /// A shelf that tells these files. No later call takes memory.
    pub fn new(alloc: Global, files: Files) -> Result<Self, NoRoom>
        ensures { IfOk result (λ s. ⟦<SureShelf as Shelf>⟧.seen s ≡ known_files (given_files files)) }
    {
        Ok(SureShelf {
            told: entries_of(alloc, files.as_slice(), 0)?,
            past: Past::new(),
        })
    }
}

impl Shelf for SureShelf {
    ghost use Rattle.fm_shelf.specs.Content.{Unknown};
    ghost use Rattle.fm_shelf.specs.Entries.{content_in, files_of, unfailing};

    ghost seen = { λ s. unfailing (content_in (files_of s.told.items) Unknown) s.past.events };

    fn read(&mut self, name: &str, at: u64, piece: &mut [u8]) -> Result<usize, Failed> {
        let answer = Ok(read_told(&self.told, name, at, piece));
        let piece = &*piece;
        self.past = self.past.then(&Note::Read {
            name,
            at,
            piece,
            answer,
        });
        answer
    }

    fn append(&mut self, name: &str, piece: &[u8]) -> Result<usize, Failed> {
        forget(&mut self.told, name);
        let answer = Ok(piece.len());
        self.past = self.past.then(&Note::Append {
            name,
            piece,
            answer,
        });
        answer
    }

    fn cut(&mut self, name: &str, len: u64) -> Result<(), Failed> {
        forget(&mut self.told, name);
        let answer = Ok(());
        self.past = self.past.then(&Note::Cut { name, len, answer });
        answer
    }
}

/// A sink that never fails. It drops what it is given, and tells nothing.
#[derive(Drop)]
pub struct SureSink {}

impl SureSink {
    /// Such a sink.
    pub fn new() -> Self
        ensures { ⟦<SureSink as Sink>⟧.seen result ≡ record { written = None; faults = 0 } }
    {
        SureSink {}
    }
}

impl Sink for SureSink {
    ghost seen = { λ _. record { written = None; faults = 0 } };

    fn write(&mut self, piece: &[u8]) -> Result<usize, Failed> {
        Ok(piece.len())
    }

    fn failures(&self) -> u64 {
        0
    }
}
