// The generated texts, as files that were read.
ghost use Rattle.std.specs.Prelude.{◌≡◌, ◌≤◌, IfOk};
ghost use Rattle.command_reads.specs.Files.{AreShort, WereRead, given, reads_by};
ghost use Rattle.commands.specs.declared.command.Kind.TheVariants.{Generated};
ghost use Rattle.commands.specs.declared.command.Which.{Which as File};
ghost use Rattle.fm_base.specs.Names.{Bytes as Text};
ghost use Rattle.fm_shelf.specs.Shelf.{ShelfState};

use crate::files::{FileRead, Reads};
use commands::Which;
use fm_base::{Bytes, Seq};
use room::{NoRoom, from_slice};
use sample_gen::{netlist_text, points_text, rates_text, workload_text};
use std::alloc::Global;

// The greatest length of a file that is read, in bytes.
const GREATEST: usize = 1 << 26;

// Bytes at hand, as a file of them is read.
fn given_read(bytes: Bytes) -> FileRead
    ensures { result ≡ given bytes }
{
    if bytes.len() <= GREATEST {
        FileRead::Whole(bytes)
    } else {
        FileRead::TooLong
    }
}

// A copy of these bytes, likewise.
fn copied_read(alloc: Global, text: &[u8]) -> Result<FileRead, NoRoom>
    ensures { IfOk result (λ read. read ≡ given text.now) }
{
    Ok(given_read(Seq::from_vec(from_slice(alloc, text)?)))
}

/// The texts of 1 to 1,000 stages, as files that were read.
pub(crate) fn generated_reads(alloc: Global, stages: u32) -> Result<Reads, NoRoom>
    requires { (1 ≤ stages) × (stages ≤ 1000) }
    ensures read { IfOk result (λ reads. (before after : ShelfState) (names : File → Text) → WereRead before after names (reads_by reads) (Generated stages)) }
    ensures short { IfOk result (λ reads. AreShort (reads_by reads)) }
{
    let mut reads = Reads::none();
    reads.put(Which::Netlist, given_read(netlist_text(alloc, stages)?));
    reads.put(Which::Workload, given_read(workload_text(alloc, stages)?));
    reads.put(Which::Rates, copied_read(alloc, rates_text())?);
    reads.put(Which::Points, copied_read(alloc, points_text())?);
    Ok(reads)
}
