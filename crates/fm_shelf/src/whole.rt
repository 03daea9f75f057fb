// Whole files and whole pieces.
ghost use Rattle.std.specs.Prelude.{◌≡◌, ◌<◌, ◌≤◌, ◌+◌, ◌^◌, ◌++◌, ℕ, List, length, OnOk, OnErr, IfOk, IsErr, IsErrOf};
ghost use Rattle.std.specs.List.{flat_map};
ghost use Rattle.fm_shelf.specs.Content.{Absent, IfPresent, IsIfKnown, greatest};
ghost use Rattle.fm_shelf.specs.Past.{gave_from, gave_whole};
ghost use Rattle.fm_shelf.specs.Shelf.{CountRose, OnlyReads, OnlyWrites, Appends, MayAppend, Takes, Tears};
ghost use Rattle.fm_shelf.specs.Sink.{Sends};
ghost use Rattle.fm_shelf.specs.declared.whole.ReadRefusal.TheVariants.{Memory, Failed as ReadFailed};

use crate::shelf::{Failed, Shelf, Sink};
use fm_base::Seq;
use room::{NoRoom, extend, filled};
use std::alloc::Global;

// The greatest length of a file that is read, in bytes.
const GREATEST: usize = 1 << 26;

// How many bytes a read asks for. A read of the system's files opens and closes the file.
const PIECE: usize = 1 << 16;

/// Why a file wasn't read.
#[derive(Clone, Copy, Debug, PartialEq, Eq)]
pub enum ReadRefusal {
    /// A read failed.
    Failed,
    /// The file has more than 2^26 bytes.
    TooLong,
    /// There was no memory for its bytes.
    Memory(NoRoom),
}

impl From<NoRoom> for ReadRefusal {
    ghost from_gives = { λ no_room e. e ≡ Memory no_room };

    fn from(e: NoRoom) -> Self {
        ReadRefusal::Memory(e)
    }
}

impl From<Failed> for ReadRefusal {
    ghost from_gives = { λ _ e. e ≡ ReadFailed };

    fn from(_: Failed) -> Self {
        ReadRefusal::Failed
    }
}

/// Writes a whole piece, in as many calls as it takes; none for an empty one. After `Failed` a prefix of it went out.
pub fn write_all<O: Sink>(out: &mut O, piece: &[u8]) -> Result<(), Failed>
    ensures { Sends (O.seen out.old) (O.seen out.new) piece.now result }
{
    let mut done = 0;
    while done < piece.len() {
        done += out.write(&piece[done..])?;
    }
    Ok(())
}

/// Writes whole pieces, one after the other. After `Failed` a prefix of them all went out.
pub fn write_pieces<O: Sink>(out: &mut O, pieces: &[&[u8]]) -> Result<(), Failed>
    ensures { Sends (O.seen out.old) (O.seen out.new) (flat_map (λ piece. piece.now) pieces.now) result }
{
    for piece in pieces {
        write_all(out, piece)?;
    }
    Ok(())
}

/// Adds a whole piece to the end of a file, in one call at least, so an absent file is made for an empty piece too. After
/// `Failed` the file may have a prefix of the piece more.
pub fn append_all<F: Shelf>(shelf: &mut F, name: &str, piece: &[u8]) -> Result<(), Failed>
    ensures ok { OnOk result (Appends (F.seen shelf.old) (F.seen shelf.new) name.now piece.now) }
    ensures failed { OnErr result (MayAppend (F.seen shelf.old) (F.seen shelf.new) name.now piece.now) }
    ensures takes { OnOk result (Takes (F.seen shelf.old) (F.seen shelf.new) name.now piece.now) }
    ensures tears { OnErr result (Tears (F.seen shelf.old) (F.seen shelf.new) name.now piece.now) }
    ensures rest { OnlyWrites (F.seen shelf.old) (F.seen shelf.new) name.now }
{
    let mut done = shelf.append(name, piece)?;
    while done < piece.len() {
        done += shelf.append(name, &piece[done..])?;
    }
    Ok(())
}

// Room for what a read gives, on the heap.
fn room_of_a_piece(alloc: Global) -> Result<Vec<u8>, NoRoom>
    ensures { IfOk result (λ room. length room.items ≡ 2 ^ 16) }
{
    filled(alloc, 0, PIECE)
}

/// Reads a whole file of at most 2^26 bytes, in at most 2^26 + 2 reads. A longer file is `TooLong`, as soon as one byte more
/// was taken.
pub fn read_all<F: Shelf>(alloc: Global, shelf: &mut F, name: &str) -> Result<Seq<u8>, ReadRefusal>
    ensures ok { IfOk result (λ bytes. IfPresent ((F.seen shelf.old).content name.now) (λ held. bytes ≡ held)) }
    ensures short { IfOk result (λ bytes. length bytes ≤ greatest) }
    ensures absent { (F.seen shelf.old).content name.now ≡ Absent → IsErr result }
    ensures failed { IsErrOf result ReadFailed → CountRose ((F.seen shelf.old).read_faults name.now) ((F.seen shelf.new).read_faults name.now) }
    ensures too_long { IsErrOf result ReadRefusal.TooLong → IsIfKnown ((F.seen shelf.old).content name.now) (λ held. greatest < length held) }
    ensures given { IfOk result (λ bytes. (F.seen shelf.new).given name.now ≡ (F.seen shelf.old).given name.now ++ gave_whole bytes) }
    ensures gave_more { IsErrOf result ReadRefusal.TooLong → (bytes : List ℕ) × (greatest < length bytes)
        × ((F.seen shelf.new).given name.now ≡ (F.seen shelf.old).given name.now ++ gave_from 0 bytes) }
    ensures asked { (F.seen shelf.new).asked name.now ≤ (F.seen shelf.old).asked name.now + (2 ^ 26 + 2) }
    ensures rest { OnlyReads (F.seen shelf.old) (F.seen shelf.new) name.now }
{
    let mut room = room_of_a_piece(alloc)?;
    let piece = room.as_mut_slice();
    let mut bytes = Vec::new(alloc);
    while bytes.len() <= GREATEST {
        let n = shelf.read(name, bytes.len() as u64, piece)?;
        if n == 0 {
            return Ok(Seq::from_vec(bytes));
        }
        extend(&mut bytes, &piece[..n])?;
    }
    Err(ReadRefusal::TooLong)
}
