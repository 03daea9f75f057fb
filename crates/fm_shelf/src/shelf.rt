// A set of named files, and a sink of bytes.
ghost use Rattle.std.specs.Prelude.{◌≡◌, ◌<◌, ◌≤◌, ◌+◌, ◌++◌, ℕ, List, length, take, OnOk, OnErr, IfOk, IsErr};
ghost use Rattle.fm_shelf.specs.Content.{Absent, IfPresent};
ghost use Rattle.fm_shelf.specs.Past.{given_by, taken_by, cut_by};
ghost use Rattle.fm_shelf.specs.Shelf.{ShelfState, CountRose, IsPieceRead, OnlyReads, OnlyWrites, Becomes, MayBecome, Appends, MayAppend};
ghost use Rattle.fm_shelf.specs.Sink.{SinkState, Wrote};

/// The outside has failed: a call on a file or on the output wasn't done, or not wholly.
#[derive(Clone, Copy, Debug, PartialEq, Eq)]
pub struct Failed;

/// A set of named files that may fail at any call.
///
/// What it holds under a name is known to be absent, or bytes, or isn't known: clauses on content hold where the file is known.
/// A file may become unknown in a call that changes it, and then stays so. Failures are counted for each name, reads
/// apart from writes: a call that answers `Failed` has raised the count of its own name, and none of a file that is there
/// under another one.
///
/// Of each file, known or not, it tells what its calls told: what reads gave, and how the file was changed, with the calls that failed.
/// This is a record for contracts; no shelf keeps it in memory.
pub trait Shelf {
    /// What contracts see of it: the content of each file, the counts of failures, and the record of its calls.
    ghost seen: { Self → ShelfState };

    /// Reads bytes of a file, from a place on, into the front of the piece, and answers how many. `Ok(0)` for a piece that
    /// isn't empty is the end of the file. An absent file is `Failed`.
    fn read(&mut self, name: &str, at: u64, piece: &mut [u8]) -> Result<usize, Failed>
        ensures fits { IfOk result (λ n. n ≤ length piece.new) }
        ensures bytes { IfOk result (λ n. IfPresent ((seen self.old).content name.now) (λ bytes. IsPieceRead bytes at n piece.new)) }
        ensures absent { (seen self.old).content name.now ≡ Absent → IsErr result }
        ensures failed { OnErr result (CountRose ((seen self.old).read_faults name.now) ((seen self.new).read_faults name.now)) }
        ensures given { (seen self.new).given name.now ≡ (seen self.old).given name.now ++ given_by at piece.new result }
        ensures asked { (seen self.new).asked name.now ≡ (seen self.old).asked name.now + 1 }
        ensures rest { OnlyReads (seen self.old) (seen self.new) name.now };

    /// Adds the first bytes of the piece to the end of a file, and answers how many: one at least, where there is one. An
    /// absent file is made. After `Failed` the file may have a prefix of the piece more.
    fn append(&mut self, name: &str, piece: &[u8]) -> Result<usize, Failed>
        ensures fits { IfOk result (λ n. n ≤ length piece.now) }
        ensures some { IfOk result (λ n. 0 < length piece.now → 0 < n) }
        ensures ok { IfOk result (λ n. Appends (seen self.old) (seen self.new) name.now (take n piece.now)) }
        ensures failed { OnErr result (MayAppend (seen self.old) (seen self.new) name.now piece.now) }
        ensures taken { (seen self.new).changed name.now ≡ (seen self.old).changed name.now ++ taken_by piece.now result }
        ensures rest { OnlyWrites (seen self.old) (seen self.new) name.now };

    /// Cuts a file to its first `len` bytes; a shorter one stays, and an absent one becomes empty. After `Failed` the file is
    /// as before, or as after `Ok`.
    fn cut(&mut self, name: &str, len: u64) -> Result<(), Failed>
        ensures ok { OnOk result (Becomes (seen self.old) (seen self.new) name.now (take len)) }
        ensures failed { OnErr result (MayBecome (seen self.old) (seen self.new) name.now (take len)) }
        ensures changed { (seen self.new).changed name.now ≡ (seen self.old).changed name.now ++ cut_by ((seen self.old).given name.now) len result }
        ensures rest { OnlyWrites (seen self.old) (seen self.new) name.now };
}

/// An output that takes bytes in order, and may fail at any call.
pub trait Sink {
    /// What contracts see of it: what went out, where that is known, and the count of failures.
    ghost seen: { Self → SinkState };

    /// Writes the first bytes of the piece, and answers how many: one at least, where there is one. After `Failed` none of
    /// them went out.
    fn write(&mut self, piece: &[u8]) -> Result<usize, Failed>
        ensures fits { IfOk result (λ n. n ≤ length piece.now) }
        ensures some { IfOk result (λ n. 0 < length piece.now → 0 < n) }
        ensures ok { IfOk result (λ n. Wrote (seen self.old) (seen self.new) (take n piece.now)) }
        ensures nothing { OnErr result ((seen self.new).written ≡ (seen self.old).written) }
        ensures failed { OnErr result (CountRose (seen self.old).faults (seen self.new).faults) }
        ensures grows { (seen self.old).faults ≤ (seen self.new).faults };

    /// How often a write has failed, up to the end of `u64`.
    fn failures(&self) -> u64
        ensures { result ≡ (seen self.now).faults };
}
