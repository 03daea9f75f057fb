// One call of the program over the chain's files, and what it leaves.
use crate::inputs::{POINTS, RATES, WORKLOAD};
use fm_base::Seq;
use fm_shelf::files::{Calls, File, Files};
use fm_shelf::memory::{MemoryShelf, MemorySink};
use fm_shelf::shelf::{Shelf, Sink};
use fm_shelf::whole::read_all;
use fmeda_top::ended::Ended;
use fmeda_top::top::fmeda;
use room::{NoRoom, from_slice, from_str, push};
use std::alloc::Global;
use std::sync::Wait;
use std::thread::Threads;
use worker_gate::Gate;

/// The room of a file and of the output, in bytes.
const ROOM: u64 = 10_000;

/// The numbers of the calls that fail, from 1: those of the shelf, of whose appends so many bytes are taken, and those of the
/// output.
#[derive(Clone, Copy)]
pub struct Failing<'a> {
    pub shelf: &'a [u64],
    pub taken: u64,
    pub out: &'a [u64],
}

/// No call fails.
pub const NOTHING: Failing<'static> = Failing {
    shelf: &[],
    taken: 0,
    out: &[],
};

/// The texts of one call: its words, the first of which stands for the program's own name, the netlist, what the result file holds
/// before, and what is to be written and to be held at the end.
#[derive(Clone, Copy)]
pub struct Texts<'a> {
    pub line: &'a str,
    pub netlist: &'a str,
    pub before: &'a [u8],
    pub text: &'a [u8],
    pub after: &'a [u8],
}

/// What was written of a text.
#[derive(Clone, Copy, PartialEq, Eq)]
pub enum Written {
    Whole,
    Part,
    Other,
}

/// What a call has answered, and whether it wrote and left what it was to.
#[derive(Clone, Copy)]
pub struct Seen {
    pub code: u8,
    pub written: Written,
    pub held: bool,
    /// The calls of the shelf, and how many of them have failed.
    pub calls: u64,
    pub failures: u64,
    /// The writes of the output, and how many of them have failed.
    pub writes: u64,
    pub lost: u64,
}

impl Seen {
    /// Whether the call ended with this exit status, left what it was to, and had so many failures of the shelf and the output.
    pub fn is(&self, code: u8, written: Written, failures: u64, lost: u64) -> bool {
        self.held
            && self.code == code
            && self.written == written
            && (self.failures, self.lost) == (failures, lost)
    }
}

fn words_of(alloc: Global, line: &str) -> Result<Vec<String>, NoRoom> {
    let mut words = Vec::new(alloc);
    for word in line.split(' ') {
        push(&mut words, from_str(alloc, word)?)?;
    }
    Ok(words)
}

fn file_of(alloc: Global, name: &str, bytes: &[u8]) -> Result<File, NoRoom> {
    let bytes = Seq::from_vec(from_slice(alloc, bytes)?);
    let name = from_str(alloc, name)?;
    Ok(File { name, bytes })
}

/// The input files, and the result file as it is before.
pub fn files_of<'a>(alloc: Global, netlist: &'a str, held: &'a [u8]) -> Result<Files, NoRoom> {
    let mut files = Seq::new(alloc);
    for (name, bytes) in [
        ("net", netlist.as_bytes()),
        ("work", WORKLOAD.as_bytes()),
        ("rates", RATES.as_bytes()),
        ("points", POINTS.as_bytes()),
        ("RES", held),
    ] {
        let file = file_of(alloc, name, bytes)?;
        files.push(file)?;
    }
    Ok(files)
}

fn numbers(alloc: Global, numbers: &[u64]) -> Result<Calls, NoRoom> {
    Ok(Seq::from_vec(from_slice(alloc, numbers)?))
}

/// A shelf with these files.
pub fn shelf_of(
    alloc: Global,
    netlist: &str,
    held: &[u8],
    failing: Failing<'_>,
) -> Result<MemoryShelf, NoRoom> {
    let numbered = numbers(alloc, failing.shelf)?;
    let files = files_of(alloc, netlist, held)?;
    MemoryShelf::tearing(alloc, files, ROOM, numbered, failing.taken)
}

/// A sink for what is written.
pub fn sink_of(alloc: Global, failing: Failing<'_>) -> Result<MemorySink, NoRoom> {
    MemorySink::new(alloc, ROOM, numbers(alloc, failing.out)?)
}

/// Calls the program with the words of a line.
pub fn call<R: Threads + Wait + Sync, F: Shelf + Send + Drop, G: Gate + Sync>(
    rt: &R,
    alloc: Global,
    line: &str,
    shelf: F,
    out: &mut MemorySink,
    gate: &G,
) -> Result<Ended<F>, NoRoom> {
    let words = words_of(alloc, line)?;
    Ok(fmeda(rt, alloc, words.as_slice(), shelf, out, gate))
}

/// Whether the result file holds these bytes.
pub fn holds<F: Shelf>(alloc: Global, shelf: &mut F, due: &[u8]) -> bool {
    match read_all(alloc, shelf, "RES") {
        Ok(bytes) => bytes.as_slice() == due,
        Err(_) => false,
    }
}

fn written_of(written: &[u8], text: &[u8]) -> Written {
    if written == text {
        Written::Whole
    } else if text.starts_with(written) {
        Written::Part
    } else {
        Written::Other
    }
}

fn seen_of(
    alloc: Global,
    ended: &mut Ended<MemoryShelf>,
    out: &MemorySink,
    texts: &Texts<'_>,
) -> Seen {
    let (calls, failures) = (ended.shelf.calls(), ended.shelf.failures());
    Seen {
        code: ended.status.code(),
        written: written_of(out.bytes(), texts.text),
        held: holds(alloc, &mut ended.shelf, texts.after),
        calls,
        failures,
        writes: out.calls(),
        lost: out.failures(),
    }
}

/// Calls the program over files in memory.
pub fn see<R: Threads + Wait + Sync, G: Gate + Sync>(
    rt: &R,
    alloc: Global,
    texts: &Texts<'_>,
    failing: Failing<'_>,
    gate: &G,
) -> Result<Seen, NoRoom> {
    let mut out = sink_of(alloc, failing)?;
    let shelf = shelf_of(alloc, texts.netlist, texts.before, failing)?;
    let mut ended = call(rt, alloc, texts.line, shelf, &mut out, gate)?;
    Ok(seen_of(alloc, &mut ended, &out, texts))
}
