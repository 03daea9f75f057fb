// The files that a command reads.
ghost use Rattle.std.specs.Prelude.{◌≡◌, ◌≢◌, IfOk, MatchResult, Ok, Err};
ghost use Rattle.std.specs.List.{AllByRecursion as ForEach};
ghost use Rattle.fm_shelf.specs.Shelf.{OnlyReads, OnlyReadsAny};
ghost use Rattle.commands.specs.Commands.{name_by};
ghost use Rattle.commands.specs.declared.command.Which.{Which as File};
ghost use Rattle.command_reads.specs.Files.{AreShort, IsFitKind, WasRead, WereRead, exchanged, reads_by};
ghost use Rattle.command_reads.specs.FirstRefusal.{whole};
ghost use Rattle.refusals.specs.Refusals.{IsPlain};

use crate::sample::generated_reads;
use commands::{FileNames, Kind, Which};
use fm_base::Bytes;
use fm_shelf::shelf::Shelf;
use fm_shelf::whole::{ReadRefusal, read_all};
use refusals::status::Status;
use room::NoRoom;
use std::alloc::Global;

/// What was read of a file.
#[derive(Drop)]
pub enum FileRead {
    /// All its bytes, at most 2^26.
    Whole(Bytes),
    /// It has more than 2^26 bytes.
    TooLong,
    /// A read of it has failed.
    Failed,
}

/// What was read of each file of a command; of one that it doesn't read nothing is said.
#[derive(Drop)]
pub struct Reads {
    pub netlist: FileRead,
    pub workload: FileRead,
    pub rates: FileRead,
    pub points: FileRead,
    pub result: FileRead,
    pub first: FileRead,
    pub second: FileRead,
    pub new_rates: FileRead,
    pub held: FileRead,
}

impl Reads {
    // No file was read so far.
    pub(crate) fn none() -> Reads
        ensures { AreShort (reads_by result) }
    {
        Reads {
            netlist: FileRead::Failed,
            workload: FileRead::Failed,
            rates: FileRead::Failed,
            points: FileRead::Failed,
            result: FileRead::Failed,
            first: FileRead::Failed,
            second: FileRead::Failed,
            new_rates: FileRead::Failed,
            held: FileRead::Failed,
        }
    }

    // Notes what was read of a file.
    pub(crate) fn put(&mut self, which: Which, read: FileRead)
        ensures put { reads_by self.new which ≡ read }
        ensures others { (other : File) → other ≢ which → reads_by self.new other ≡ reads_by self.old other }
    {
        match which {
            Which::Netlist => self.netlist = read,
            Which::Workload => self.workload = read,
            Which::Rates => self.rates = read,
            Which::Points => self.points = read,
            Which::Result => self.result = read,
            Which::First => self.first = read,
            Which::Second => self.second = read,
            Which::NewRates => self.new_rates = read,
            Which::Held => self.held = read,
        }
    }

    // The same with NEWRATES in the place of RATES, and the other way round.
    pub(crate) fn exchanged(self) -> Reads
        ensures { reads_by result ≡ exchanged (reads_by self) }
    {
        Reads {
            rates: self.new_rates,
            new_rates: self.rates,
            netlist: self.netlist,
            workload: self.workload,
            points: self.points,
            result: self.result,
            first: self.first,
            second: self.second,
            held: self.held,
        }
    }

    // What was read of a file.
    fn of(&self, which: Which) -> &FileRead
        ensures { result.now ≡ reads_by self.now which }
    {
        match which {
            Which::Netlist => &self.netlist,
            Which::Workload => &self.workload,
            Which::Rates => &self.rates,
            Which::Points => &self.points,
            Which::Result => &self.result,
            Which::First => &self.first,
            Which::Second => &self.second,
            Which::NewRates => &self.new_rates,
            Which::Held => &self.held,
        }
    }

    /// The bytes of a file, or why it wasn't read.
    pub(crate) fn whole(&self, which: Which) -> Result<&[u8], Status>
        ensures { MatchResult result (λ bytes. whole which (reads_by self.now) ≡ Ok bytes.now) (λ ended. (whole which (reads_by self.now) ≡ Err ended) × IsPlain ended) }
    {
        match self.of(which) {
            FileRead::Whole(bytes) => Ok(bytes.as_slice()),
            FileRead::TooLong => Err(Status::TooLong(which)),
            FileRead::Failed => Err(Status::ReadFault(which)),
        }
    }
}

// Reads a file.
fn read_file<F: Shelf>(alloc: Global, shelf: &mut F, name: &str) -> Result<FileRead, NoRoom>
    ensures read { IfOk result (WasRead (F.seen shelf.old) (F.seen shelf.new) name.now) }
    ensures rest { OnlyReads (F.seen shelf.old) (F.seen shelf.new) name.now }
{
    match read_all(alloc, shelf, name) {
        Ok(bytes) => Ok(FileRead::Whole(bytes)),
        Err(ReadRefusal::TooLong) => Ok(FileRead::TooLong),
        Err(ReadRefusal::Failed) => Ok(FileRead::Failed),
        Err(ReadRefusal::Memory(no_room)) => Err(no_room),
    }
}

// Reads each of these files.
fn read_each<F: Shelf>(
    alloc: Global,
    shelf: &mut F,
    names: &FileNames<'_>,
    files: &[Which],
) -> Result<Reads, NoRoom>
    ensures read { IfOk result (λ reads. ForEach (λ file. WasRead (F.seen shelf.old) (F.seen shelf.new) (name_by names.now file) (reads_by reads file)) files.now) }
    ensures short { IfOk result (λ reads. AreShort (reads_by reads)) }
    ensures rest { OnlyReadsAny (F.seen shelf.old) (F.seen shelf.new) }
{
    let mut reads = Reads::none();
    for file in files {
        reads.put(*file, read_file(alloc, shelf, names.of(*file))?);
    }
    Ok(reads)
}

/// Reads each file of a command of this kind, in the order of the checks, whatever the files before it hold; or has the generated texts
/// in their place. It decides nothing. The error is want of memory.
pub fn read_files<F: Shelf>(
    alloc: Global,
    shelf: &mut F,
    names: &FileNames<'_>,
    kind: Kind,
) -> Result<Reads, NoRoom>
    requires { IsFitKind kind }
    ensures read { IfOk result (λ reads. WereRead (F.seen shelf.old) (F.seen shelf.new) (name_by names.now) (reads_by reads) kind) }
    ensures short { IfOk result (λ reads. AreShort (reads_by reads)) }
    ensures rest { OnlyReadsAny (F.seen shelf.old) (F.seen shelf.new) }
{
    match kind {
        Kind::Generated(stages) => generated_reads(alloc, stages),
        _ => read_each(alloc, shelf, names, kind.files()),
    }
}
