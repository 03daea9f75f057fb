// Reads the netlist of a file.
ghost use Rattle.std.specs.Prelude.{◌≡◌, ◌≤◌, ◌^◌, length};
ghost use Rattle.fm_base.specs.Answers.{Gives};
ghost use Rattle.bench_reader.specs.Bench.{bench_of};
ghost use Rattle.bench_reader.specs.Answer.{LineGives, gathered_of};

use crate::BenchFault;
use crate::gather::Gathered;
use crate::line::line_says;
use crate::netlist::netlist_of;
use blif_text::places::{behind, feed_place};
use circuit::netlist::Netlist;
use fm_base::Refusal;
use std::alloc::Global;

/// One more line, which a fault of its own ends.
fn take_line<'a>(
    alloc: Global,
    gathered: &mut Gathered<'a>,
    line: u32,
    text: &'a [u8],
) -> Result<(), Refusal<BenchFault>>
    ensures { LineGives gathered.old gathered.new line text.now result }
{
    match line_says(text) {
        Ok(says) => Ok(gathered.add(alloc, line, says)?),
        Err(kind) => Err(Refusal::Fault(BenchFault { line, kind })),
    }
}

/// What the lines of a file bring, where none has a fault of its own.
fn gather<'a>(alloc: Global, bytes: &'a [u8]) -> Result<Gathered<'a>, Refusal<BenchFault>>
    requires { length bytes.now ≤ 2 ^ 26 }
    ensures { Gives (gathered_of bytes.now) result }
{
    let mut gathered = Gathered::new(alloc);
    let mut rest = bytes;
    let mut line = 1;
    'lines: loop {
        let n = feed_place(rest);
        match take_line(alloc, &mut gathered, line, &rest[..n]) {
            Ok(()) => {}
            Err(refusal) => {
                drop(gathered);
                return Err(refusal);
            }
        }
        if n == rest.len() {
            return Ok(gathered);
        }
        rest = behind(rest, n);
        line += 1;
    }
}

/// The netlist of the bytes of a `.bench` file of at most 64 MiB. A faulty file is refused with the first fault in the order in
/// which faults are looked for: first those of single lines, where the first faulty line decides and on it the first kind of
/// `BadLine` to `TooWide`; then the first kind of `TooLarge` to `Undriven` in their order, at its first line.
pub fn read_bench(alloc: Global, bytes: &[u8]) -> Result<Netlist, Refusal<BenchFault>>
    requires { length bytes.now ≤ 2 ^ 26 }
    ensures { Gives (bench_of bytes.now) result }
{
    let gathered = gather(alloc, bytes)?;
    netlist_of(alloc, gathered)
}
