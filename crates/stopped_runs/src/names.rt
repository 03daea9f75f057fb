// The names of which a stopping shelf tells files, with their faults since the stop.
ghost use Rattle.std.specs.Prelude.{◌≡◌, map, true, IfOk};
ghost use Rattle.std.specs.Str.{bytes_eq};
ghost use Rattle.stopped_runs.specs.Stopping.{NotesRead, NotesWrite, one_more as one_more_than, read_noted, write_noted};

use room::{NoRoom, from_slice, push, with_room};
use std::alloc::Global;

/// A name, with how often reads of it have failed since the stop, and cuts of it and appends to it.
#[derive(Drop)]
pub(crate) struct Told {
    pub(crate) name: Vec<u8>,
    pub(crate) reads: u64,
    pub(crate) writes: u64,
}

/// Names that are told, and the same two counts for all other names.
#[derive(Drop)]
pub(crate) struct ToldNames {
    pub(crate) names: Vec<Told>,
    pub(crate) other_reads: u64,
    pub(crate) other_writes: u64,
}

fn is_same(own: &[u8], name: &[u8]) -> bool
    ensures { result ≡ bytes_eq own.now name.now }
{
    own == name
}

// A count stands still at its type's end.
fn one_more(count: u64) -> u64
    ensures { result ≡ one_more_than count }
{
    count.saturating_add(1)
}

fn note_read_of(told: &mut Told, name: &str)
    ensures { told.new ≡ read_noted name.now told.old }
{
    if is_same(told.name.as_slice(), name.as_bytes()) {
        told.reads = one_more(told.reads);
    }
}

fn note_write_of(told: &mut Told, name: &str)
    ensures { told.new ≡ write_noted name.now told.old }
{
    if is_same(told.name.as_slice(), name.as_bytes()) {
        told.writes = one_more(told.writes);
    }
}

fn note_reads(names: &mut [Told], name: &str)
    ensures { names.new ≡ map (read_noted name.now) names.old }
{
    for told in names.iter_mut() {
        note_read_of(told, name);
    }
}

fn note_writes(names: &mut [Told], name: &str)
    ensures { names.new ≡ map (write_noted name.now) names.old }
{
    for told in names.iter_mut() {
        note_write_of(told, name);
    }
}

impl ToldNames {
    /// These names, of which no call has failed.
    pub(crate) fn new(alloc: Global, names: &[&str]) -> Result<Self, NoRoom>
        ensures { IfOk result (λ t. map (λ told. told.name.items) t.names.items ≡ map (λ name. name.now) names.now) }
    {
        let mut told = with_room(alloc, names.len())?;
        for name in names {
            let name = from_slice(alloc, name.as_bytes())?;
            push(
                &mut told,
                Told {
                    name,
                    reads: 0,
                    writes: 0,
                },
            )?;
        }
        Ok(ToldNames {
            names: told,
            other_reads: 0,
            other_writes: 0,
        })
    }

    /// Whether these names are told, and no others.
    pub(crate) fn are(&self, names: &[&str]) -> bool
        ensures { result ≡ true → map (λ told. told.name.items) self.now.names.items ≡ map (λ name. name.now) names.now }
    {
        let told = self.names.as_slice();
        if told.len() != names.len() {
            return false;
        }
        for (i, name) in names.iter().enumerate() {
            if !is_same(told[i].name.as_slice(), name.as_bytes()) {
                return false;
            }
        }
        true
    }

    /// Notes that a read of this name has failed.
    pub(crate) fn note_read(&mut self, name: &str)
        ensures { NotesRead name.now self.old self.new }
    {
        note_reads(self.names.as_mut_slice(), name);
        self.other_reads = one_more(self.other_reads);
    }

    /// Notes that a cut of this name, or an append to it, has failed.
    pub(crate) fn note_write(&mut self, name: &str)
        ensures { NotesWrite name.now self.old self.new }
    {
        note_writes(self.names.as_mut_slice(), name);
        self.other_writes = one_more(self.other_writes);
    }
}
