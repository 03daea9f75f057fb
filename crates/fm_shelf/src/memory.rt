// A shelf and a sink in memory, whose calls of given numbers fail.
ghost use Rattle.std.specs.Prelude.{[], false, if◌then◌else◌, ◌++◌, ◌∷◌, MatchBool, OnOk, ◌≡◌, ◌<◌, ◌≤◌, ◌-◌, ℕ, List, Some, None, length, take, drop, IfOk, IfSome, ◌≢◌, MatchOption};
ghost use Rattle.std.specs.Str.{bytes_eq};
ghost use Rattle.fm_shelf.specs.Content.{Absent, Held, IfPresent, bytes_of};
ghost use Rattle.fm_shelf.specs.Shelf.{IsPieceRead, CountRose, Counts};
ghost use Rattle.fm_shelf.specs.Edits.{content_of, Edited, IsUncounted};
ghost use Rattle.fm_shelf.specs.Given.{given_files};
ghost use Rattle.fm_shelf.specs.Entries.{AllApart, HasName, content_in, files_of, entry_count};

use crate::files::{Calls, File, Files};
use crate::past::{Note, Past};
use crate::shelf::{Failed, Shelf, Sink};
use fm_base::Seq;
use room::{NoRoom, extend, push, with_room};
use std::alloc::Global;

// Whether a call is to fail.
fn is_listed(numbers: &[u64], number: u64) -> bool {
    numbers.contains(&number)
}

/// A sink in memory, for tests: it keeps what is written, and tells it.
#[derive(Drop)]
pub struct MemorySink {
    bytes: Vec<u8>,
    capacity: u64,
    failing: Seq<u64>,
    calls: u64,
    failures: u64,
}

impl MemorySink {
    /// A sink with room for `capacity` bytes. The calls of the given numbers, from 1, fail, and so does a write past the room.
    /// No later call takes memory.
    pub fn new(alloc: Global, capacity: u64, failing: Calls) -> Result<Self, NoRoom>
        ensures seen { IfOk result (λ s. ⟦<MemorySink as Sink>⟧.seen s ≡ record { written = Some []; faults = 0 }) }
        ensures made { IfOk result (λ s. (s.capacity ≡ capacity) × (s.failing ≡ failing) × (s.calls ≡ 0)) }
    {
        Ok(MemorySink {
            bytes: with_room(alloc, capacity as usize)?,
            capacity,
            failing,
            calls: 0,
            failures: 0,
        })
    }

    /// What was written.
    pub fn bytes(&self) -> &[u8]
        ensures { result.now ≡ self.now.bytes.items }
    {
        self.bytes.as_slice()
    }

    /// The number of writes so far, those that failed included.
    pub fn calls(&self) -> u64
        ensures { result ≡ self.now.calls }
    {
        self.calls
    }
}

impl Sink for MemorySink {
    ghost seen = { λ s. record { written = Some s.bytes.items; faults = s.failures } };

    fn write(&mut self, piece: &[u8]) -> Result<usize, Failed> {
        self.calls = self.calls.saturating_add(1);
        let fails = is_listed(self.failing.as_slice(), self.calls);
        if fails || self.bytes.len() as u64 + piece.len() as u64 > self.capacity {
            self.failures = self.failures.saturating_add(1);
            return Err(Failed);
        }
        match extend(&mut self.bytes, piece) {
            Ok(()) => Ok(piece.len()),
            Err(_) => {
                self.failures = self.failures.saturating_add(1);
                Err(Failed)
            }
        }
    }

    fn failures(&self) -> u64 {
        self.failures
    }
}

// A file: its name, its bytes, and how often its reads and its writes have failed.
#[derive(Drop)]
pub(crate) struct Entry {
    pub(crate) name: Vec<u8>,
    pub(crate) bytes: Vec<u8>,
    pub(crate) reads: u64,
    pub(crate) writes: u64,
}

// Names are compared byte by byte.
pub(crate) fn is_same(own: &[u8], name: &[u8]) -> bool
    ensures { result ≡ bytes_eq own.now name.now }
{
    own == name
}

// The place of the first entry of a name.
fn place_of(entries: &[Entry], name: &str) -> Option<usize>
    ensures { MatchOption result (AllApart entries.now name.now) (λ i. (i < length entries.now) × AllApart (take i entries.now) name.now
        × HasName entries.now i name.now) }
{
    for (i, entry) in entries.iter().enumerate() {
        if is_same(entry.name.as_slice(), name.as_bytes()) {
            return Some(i);
        }
    }
    None
}

// Copies what stands at a place.
fn copy_from(bytes: &[u8], at: u64, piece: &mut [u8]) -> usize
    ensures fits { result ≤ length piece.new }
    ensures read { IsPieceRead bytes.now at result piece.new }
{
    if at >= bytes.len() as u64 {
        return 0;
    }
    let rest = &bytes[at as usize..];
    let n = rest.len().min(piece.len());
    piece[..n].copy_from_slice(&rest[..n]);
    n
}

// Reads from the file of a name, where there is one.
pub(crate) fn read_entry(entries: &[Entry], name: &str, at: u64, piece: &mut [u8]) -> Option<usize>
    ensures fits { IfSome result (λ n. n ≤ length piece.new) }
    ensures read { IfSome result (λ n. IfPresent (content_in (files_of entries.now) Absent name.now) (λ bytes. IsPieceRead bytes at n piece.new)) }
    ensures there { IfSome result (λ _. content_in (files_of entries.now) Absent name.now ≢ Absent) }
    ensures absent { result ≡ None → content_in (files_of entries.now) Absent name.now ≡ Absent }
{
    let i = place_of(entries, name)?;
    Some(copy_from(&entries[i].bytes, at, piece))
}

// A count stands still at its type's end.
fn one_more(count: u64) -> u64
    ensures grows { count ≤ result }
    ensures rose { CountRose count result }
{
    count.saturating_add(1)
}

// Notes that a read of this name failed.
fn note_read(entries: &mut [Entry], others: &mut u64, name: &str)
    ensures files { files_of entries.new ≡ files_of entries.old }
    ensures rose { CountRose (entry_count (λ entry. entry.reads) others.old entries.old name.now)
        (entry_count (λ entry. entry.reads) others.new entries.new name.now) }
    ensures counts { Counts (content_in (files_of entries.old) Absent) name.now
        (entry_count (λ entry. entry.reads) others.old entries.old) (entry_count (λ entry. entry.reads) others.new entries.new) }
    ensures writes { (rest : ℕ) (other : List ℕ)
        → entry_count (λ entry. entry.writes) rest entries.new other ≡ entry_count (λ entry. entry.writes) rest entries.old other }
{
    match place_of(entries, name) {
        Some(i) => {
            let entry = &mut entries[i];
            entry.reads = one_more(entry.reads);
        }
        None => *others = one_more(*others),
    }
}

// Notes that a cut of this name or an append to it failed.
fn note_write(entries: &mut [Entry], others: &mut u64, name: &str)
    ensures files { files_of entries.new ≡ files_of entries.old }
    ensures rose { CountRose (entry_count (λ entry. entry.writes) others.old entries.old name.now)
        (entry_count (λ entry. entry.writes) others.new entries.new name.now) }
    ensures counts { Counts (content_in (files_of entries.old) Absent) name.now
        (entry_count (λ entry. entry.writes) others.old entries.old) (entry_count (λ entry. entry.writes) others.new entries.new) }
    ensures reads { (rest : ℕ) (other : List ℕ)
        → entry_count (λ entry. entry.reads) rest entries.new other ≡ entry_count (λ entry. entry.reads) rest entries.old other }
{
    match place_of(entries, name) {
        Some(i) => {
            let entry = &mut entries[i];
            entry.writes = one_more(entry.writes);
        }
        None => *others = one_more(*others),
    }
}

// The room that the shelf was made with, the counts of all names that it doesn't hold, and whether nothing is let through.
#[derive(Clone, Copy)]
struct Limits {
    capacity: u64,
    reads: u64,
    writes: u64,
    shut: bool,
}

// The greatest length of the name of a file that a call makes.
const LONGEST_NAME: usize = 255;

// Makes a file of a name that no entry has.
fn make(
    entries: &mut Vec<Entry>,
    spares: &mut Vec<Entry>,
    limits: Limits,
    name: &str,
    piece: &[u8],
) -> bool
    requires { AllApart entries.old.items name.now }
    ensures { MatchBool result (Edited limits.reads limits.writes entries.old.items entries.new.items name.now (Held piece.now))
        (entries.new.items ≡ entries.old.items) }
{
    if name.len() > LONGEST_NAME || entries.reserve(1).is_err() {
        return false;
    }
    let Some(
        Entry {
            name: mut own,
            mut bytes,
            ..
        },
    ) = spares.pop()
    else {
        return false;
    };
    own.clear();
    bytes.clear();
    if own.extend_from_slice(name.as_bytes()).is_err() || bytes.extend_from_slice(piece).is_err() {
        return false;
    }
    entries.push_reserved(Entry {
        name: own,
        bytes,
        reads: limits.reads,
        writes: limits.writes,
    });
    true
}

// Adds bytes to the end of the file of a name, and makes it where it is absent. There is room for `whole` bytes more.
fn add(
    entries: &mut Vec<Entry>,
    spares: &mut Vec<Entry>,
    limits: Limits,
    name: &str,
    piece: &[u8],
    whole: usize,
) -> bool
    ensures { Edited limits.reads limits.writes entries.old.items entries.new.items name.now
        (if result then Held (bytes_of (content_of entries.old.items name.now) ++ piece.now) else content_of entries.old.items name.now) }
{
    if limits.shut {
        return false;
    }
    match place_of(entries, name) {
        Some(i) => {
            let entry = &mut entries[i];
            if entry.bytes.len() as u64 > limits.capacity
                || whole as u64 > limits.capacity - entry.bytes.len() as u64
            {
                return false;
            }
            entry.bytes.extend_from_slice(piece).is_ok()
        }
        None => {
            if whole as u64 > limits.capacity {
                return false;
            }
            make(entries, spares, limits, name, piece)
        }
    }
}

// Cuts the file of a name, and makes it where it is absent.
fn shorten(
    entries: &mut Vec<Entry>,
    spares: &mut Vec<Entry>,
    limits: Limits,
    name: &str,
    len: u64,
) -> bool
    ensures { Edited limits.reads limits.writes entries.old.items entries.new.items name.now
        (if result then Held (take len (bytes_of (content_of entries.old.items name.now))) else content_of entries.old.items name.now) }
{
    if limits.shut {
        return false;
    }
    match place_of(entries, name) {
        Some(i) => {
            entries[i].bytes.truncate(len as usize);
            true
        }
        None => make(entries, spares, limits, name, b""),
    }
}

// A file with room for a name and for bytes.
fn new_entry(
    alloc: Global,
    name: &[u8],
    bytes: &[u8],
    name_room: usize,
    room: u64,
) -> Result<Entry, NoRoom>
    ensures { IfOk result (λ e. (e.name.items ≡ name.now) × (e.bytes.items ≡ bytes.now) × (e.reads ≡ 0) × (e.writes ≡ 0)) }
{
    let mut own_name = with_room(alloc, name_room)?;
    extend(&mut own_name, name)?;
    let mut own_bytes = with_room(alloc, room as usize)?;
    extend(&mut own_bytes, bytes)?;
    Ok(Entry {
        name: own_name,
        bytes: own_bytes,
        reads: 0,
        writes: 0,
    })
}

// How many files calls may make.
const SPARES: usize = 4;

/// Files in memory, for tests: it tells all that it holds, and every other name as absent.
///
/// It keeps two counts of failures with each of its files, and two for all names that it doesn't hold; a file that a call
/// makes starts with the latter two.
#[derive(Drop)]
pub struct MemoryShelf {
    entries: Vec<Entry>,
    spares: Vec<Entry>,
    capacity: u64,
    other_reads: u64,
    other_writes: u64,
    failing: Calls,
    taken: u64,
    calls: u64,
    failures: u64,
    past: Past,
}

impl MemoryShelf {
    ghost use Rattle.fm_shelf.specs.Entries.{only_files};
    ghost use Rattle.fm_shelf.specs.Starts.{IsFresh};

    /// A shelf with these files. The calls of the given numbers, from 1, fail and change nothing that is held.
    ///
    /// An append may bring a file to `capacity` bytes, and fails past that. Calls may make four files more, with names of at
    /// most 255 bytes; a cut or an append that would make another fails. The room for all of this is taken here, and no later
    /// call takes memory.
    pub fn new(alloc: Global, files: Files, capacity: u64, failing: Calls) -> Result<Self, NoRoom>
        ensures seen { IfOk result (λ m. ⟦<MemoryShelf as Shelf>⟧.seen m ≡ only_files (given_files files)) }
        ensures made { IfOk result (λ m. IsFresh capacity failing 0 m) }
    {
        MemoryShelf::tearing(alloc, files, capacity, failing, 0)
    }

    /// As `new`, but a listed call may be torn: an append that fails only because it is listed takes the first `taken` bytes of
    /// its piece, or all of a shorter one, and such a cut takes effect where `taken` is at least 1.
    pub fn tearing(
        alloc: Global,
        files: Files,
        capacity: u64,
        failing: Calls,
        taken: u64,
    ) -> Result<Self, NoRoom>
        ensures seen { IfOk result (λ m. ⟦<MemoryShelf as Shelf>⟧.seen m ≡ only_files (given_files files)) }
        ensures made { IfOk result (λ m. IsFresh capacity failing taken m) }
    {
        let entries = entries_of(alloc, files.as_slice(), capacity)?;
        let mut spares = with_room(alloc, SPARES)?;
        for _ in 0..SPARES {
            push(
                &mut spares,
                new_entry(alloc, b"", b"", LONGEST_NAME, capacity)?,
            )?;
        }
        Ok(MemoryShelf {
            entries,
            spares,
            capacity,
            other_reads: 0,
            other_writes: 0,
            failing,
            taken,
            calls: 0,
            failures: 0,
            past: Past::new(),
        })
    }

    /// The number of reads, appends and cuts so far, those that failed included.
    pub fn calls(&self) -> u64
        ensures { result ≡ self.now.calls }
    {
        self.calls
    }

    /// The number of calls that failed.
    pub fn failures(&self) -> u64
        ensures { result ≡ self.now.failures }
    {
        self.failures
    }
}

// The files that a shelf begins with.
pub(crate) fn entries_of(alloc: Global, files: &[File], capacity: u64) -> Result<Vec<Entry>, NoRoom>
    ensures { IfOk result (λ v. (files_of v.items ≡ given_files files.now) × IsUncounted v.items) }
{
    let mut entries = with_room(alloc, files.len().saturating_add(SPARES))?;
    for file in files {
        let name = file.name.as_bytes();
        push(
            &mut entries,
            new_entry(alloc, name, file.bytes.as_slice(), name.len(), capacity)?,
        )?;
    }
    Ok(entries)
}

// The bytes that an append takes.
fn taken_of(fails: bool, whole: usize, taken: u64) -> usize
    ensures fits { result ≤ whole }
    ensures all { fails ≡ false → result ≡ whole }
{
    if fails && (whole as u64) > taken {
        taken as usize
    } else {
        whole
    }
}

impl Shelf for MemoryShelf {
    ghost use Rattle.fm_shelf.specs.Entries.{state_of};

    ghost seen = { λ m. state_of m.other_reads m.other_writes m.entries.items m.past.events };

    fn read(&mut self, name: &str, at: u64, piece: &mut [u8]) -> Result<usize, Failed> {
        self.calls = self.calls.saturating_add(1);
        if !is_listed(self.failing.as_slice(), self.calls) {
            if let Some(n) = read_entry(&self.entries, name, at, piece) {
                let answer = Ok(n);
                let piece = &*piece;
                self.past = self.past.then(&Note::Read {
                    name,
                    at,
                    piece,
                    answer,
                });
                return answer;
            }
        }
        self.failures = self.failures.saturating_add(1);
        note_read(&mut self.entries, &mut self.other_reads, name);
        let answer = Err(Failed);
        let piece = &*piece;
        self.past = self.past.then(&Note::Read {
            name,
            at,
            piece,
            answer,
        });
        answer
    }

    fn append(&mut self, name: &str, piece: &[u8]) -> Result<usize, Failed> {
        self.calls = self.calls.saturating_add(1);
        let fails = is_listed(self.failing.as_slice(), self.calls);
        let taken = taken_of(fails, piece.len(), self.taken);
        let limits = Limits {
            capacity: self.capacity,
            reads: self.other_reads,
            writes: self.other_writes,
            shut: fails && self.taken == 0,
        };
        let done = add(
            &mut self.entries,
            &mut self.spares,
            limits,
            name,
            &piece[..taken],
            piece.len(),
        );
        if done && !fails {
            let answer = Ok(piece.len());
            self.past = self.past.then(&Note::Append {
                name,
                piece,
                answer,
            });
            return answer;
        }
        let answer = Err(Failed);
        self.past = self.past.then(&Note::Append {
            name,
            piece,
            answer,
        });
        self.failures = self.failures.saturating_add(1);
        note_write(&mut self.entries, &mut self.other_writes, name);
        answer
    }

    fn cut(&mut self, name: &str, len: u64) -> Result<(), Failed> {
        self.calls = self.calls.saturating_add(1);
        let fails = is_listed(self.failing.as_slice(), self.calls);
        let limits = Limits {
            capacity: self.capacity,
            reads: self.other_reads,
            writes: self.other_writes,
            shut: fails && self.taken == 0,
        };
        let done = shorten(&mut self.entries, &mut self.spares, limits, name, len);
        if done && !fails {
            let answer = Ok(());
            self.past = self.past.then(&Note::Cut { name, len, answer });
            return answer;
        }
        let answer = Err(Failed);
        self.past = self.past.then(&Note::Cut { name, len, answer });
        self.failures = self.failures.saturating_add(1);
        note_write(&mut self.entries, &mut self.other_writes, name);
        answer
    }
}
