// A shelf on which a stop comes.
ghost use Rattle.std.specs.Prelude.{◌≡◌, ◌++◌, ◌<◌, ◌≤◌, ◌+◌, ◌-◌, Some, None, length, take, map, OnOk, OnErr, IfOk, IsErr, true};
ghost use Rattle.fm_shelf.specs.Content.{Absent, IfPresent};
ghost use Rattle.fm_shelf.specs.Past.{cut_by, given_by, taken_by};
ghost use Rattle.fm_shelf.specs.Shelf.{CountRose, IsPieceRead, OnlyReads, OnlyWrites, Becomes, MayBecome, Appends, MayAppend, MayHaveMore};
ghost use Rattle.stopped_runs.specs.Stopping.{TakesTorn, behind_call, stopping_state};

use crate::names::ToldNames;
use fm_shelf::past::{Note, Past};
use fm_shelf::shelf::{Failed, Shelf};
use fm_shelf::whole::append_all;
use room::NoRoom;
use std::alloc::Global;

/// When a stop comes: behind so many calls of a shelf. Where the call that follows is an append, it may be torn: it was begun, and has taken
/// so many bytes of its piece, or all of a shorter one.
#[derive(Clone, Copy, Debug, PartialEq, Eq)]
pub struct Stop {
    pub calls: u64,
    pub torn: Option<u64>,
}

/// A shelf on which a stop comes, by a kill or a power cut: so many calls go to the shelf behind it, and each call behind these fails. An
/// append that the stop falls into may be torn, and what it took stays.
///
/// It tells the files of the names that it is given, and no other; for these it counts the calls that fail by the stop.
#[derive(Drop)]
pub struct StoppingShelf<F: Shelf + Drop> {
    shelf: F,
    told: ToldNames,
    past: Past,
    /// When the stop comes, from now on.
    pub stop: Stop,
}

// An append that the stop falls into: where it is torn, it takes so many bytes, or all of its piece.
fn tear<F: Shelf>(shelf: &mut F, torn: Option<u64>, name: &str, piece: &[u8])
    ensures more { MayHaveMore ((F.seen shelf.old).content name.now) ((F.seen shelf.new).content name.now) piece.now }
    ensures taken { TakesTorn (F.seen shelf.old) (F.seen shelf.new) torn name.now piece.now }
    ensures rest { OnlyWrites (F.seen shelf.old) (F.seen shelf.new) name.now }
{
    let Some(torn) = torn else {
        return;
    };
    let n = if torn < piece.len() as u64 {
        torn as usize
    } else {
        piece.len()
    };
    let _ = append_all(shelf, name, &piece[..n]);
}

impl<F: Shelf + Drop> StoppingShelf<F> {
    /// A shelf that tells the files of these names, and on which this stop comes.
    pub fn new(alloc: Global, shelf: F, names: &[&str], stop: Stop) -> Result<Self, NoRoom>
        ensures stop { IfOk result (λ s. s.stop ≡ stop) }
        ensures shelf { IfOk result (λ s. s.shelf ≡ shelf) }
        ensures names { IfOk result (λ s. map (λ told. told.name.items) s.told.names.items ≡ map (λ name. name.now) names.now) }
    {
        let told = ToldNames::new(alloc, names)?;
        Ok(StoppingShelf {
            shelf,
            told,
            past: Past::new(),
            stop,
        })
    }

    /// Whether it tells the files of these names, and no other.
    pub fn tells(&self, names: &[&str]) -> bool
        ensures { result ≡ true → map (λ told. told.name.items) self.now.told.names.items ≡ map (λ name. name.now) names.now }
    {
        self.told.are(names)
    }

    /// The shelf behind it.
    pub fn into_inner(self) -> F
        ensures { result ≡ self.shelf }
    {
        self.shelf
    }
}

impl<F: Shelf + Drop> Shelf for StoppingShelf<F> {
    ghost use Rattle.stopped_runs.specs.Stopping.{stopping_state};

    ghost seen = { λ s. stopping_state (F.seen s.shelf) s.told s.past.events };

    /// Behind the stop it fails, and leaves the shelf behind as it is.
    fn read(&mut self, name: &str, at: u64, piece: &mut [u8]) -> Result<usize, Failed>
        ensures fits { IfOk result (λ n. n ≤ length piece.new) }
        ensures bytes { IfOk result (λ n. IfPresent ((stopping_state (F.seen self.old.shelf) self.old.told self.old.past.events).content name.now) (λ bytes. IsPieceRead bytes at n piece.new)) }
        ensures absent { (stopping_state (F.seen self.old.shelf) self.old.told self.old.past.events).content name.now ≡ Absent → IsErr result }
        ensures failed { OnErr result (CountRose ((stopping_state (F.seen self.old.shelf) self.old.told self.old.past.events).read_faults name.now)
            ((stopping_state (F.seen self.new.shelf) self.new.told self.new.past.events).read_faults name.now)) }
        ensures given { (stopping_state (F.seen self.new.shelf) self.new.told self.new.past.events).given name.now
            ≡ (stopping_state (F.seen self.old.shelf) self.old.told self.old.past.events).given name.now ++ given_by at piece.new result }
        ensures asked { (stopping_state (F.seen self.new.shelf) self.new.told self.new.past.events).asked name.now
            ≡ (stopping_state (F.seen self.old.shelf) self.old.told self.old.past.events).asked name.now + 1 }
        ensures rest { OnlyReads (stopping_state (F.seen self.old.shelf) self.old.told self.old.past.events) (stopping_state (F.seen self.new.shelf) self.new.told self.new.past.events) name.now }
        ensures stop { self.new.stop ≡ behind_call self.old.stop }
        ensures fails { self.old.stop.calls ≡ 0 → IsErr result }
        ensures stays { self.old.stop.calls ≡ 0 → self.new.shelf ≡ self.old.shelf }
    {
        if self.stop.calls == 0 {
            self.stop.torn = None;
            self.told.note_read(name);
            let answer = Err(Failed);
            let piece = &*piece;
            self.past = self.past.then(&Note::Read {
                name,
                at,
                piece,
                answer,
            });
            return answer;
        }
        self.stop.calls -= 1;
        let answer = self.shelf.read(name, at, piece);
        let piece = &*piece;
        self.past = self.past.then(&Note::Read {
            name,
            at,
            piece,
            answer,
        });
        answer
    }

    /// Behind the stop it fails, and leaves the shelf behind as it is, but for a torn append.
    fn append(&mut self, name: &str, piece: &[u8]) -> Result<usize, Failed>
        ensures fits { IfOk result (λ n. n ≤ length piece.now) }
        ensures some { IfOk result (λ n. 0 < length piece.now → 0 < n) }
        ensures ok { IfOk result (λ n. Appends (stopping_state (F.seen self.old.shelf) self.old.told self.old.past.events) (stopping_state (F.seen self.new.shelf) self.new.told self.new.past.events)
            name.now (take n piece.now)) }
        ensures failed { OnErr result (MayAppend (stopping_state (F.seen self.old.shelf) self.old.told self.old.past.events) (stopping_state (F.seen self.new.shelf) self.new.told self.new.past.events)
            name.now piece.now) }
        ensures taken { (stopping_state (F.seen self.new.shelf) self.new.told self.new.past.events).changed name.now
            ≡ (stopping_state (F.seen self.old.shelf) self.old.told self.old.past.events).changed name.now ++ taken_by piece.now result }
        ensures rest { OnlyWrites (stopping_state (F.seen self.old.shelf) self.old.told self.old.past.events) (stopping_state (F.seen self.new.shelf) self.new.told self.new.past.events) name.now }
        ensures stop { self.new.stop ≡ behind_call self.old.stop }
        ensures fails { self.old.stop.calls ≡ 0 → IsErr result }
        ensures takes { self.old.stop.calls ≡ 0 → TakesTorn (F.seen self.old.shelf) (F.seen self.new.shelf) self.old.stop.torn name.now piece.now }
    {
        if self.stop.calls == 0 {
            let torn = self.stop.torn.take();
            tear(&mut self.shelf, torn, name, piece);
            self.told.note_write(name);
            let answer = Err(Failed);
            self.past = self.past.then(&Note::Append {
                name,
                piece,
                answer,
            });
            return answer;
        }
        self.stop.calls -= 1;
        let answer = self.shelf.append(name, piece);
        self.past = self.past.then(&Note::Append {
            name,
            piece,
            answer,
        });
        answer
    }

    /// Behind the stop it fails, and leaves the shelf behind as it is.
    fn cut(&mut self, name: &str, len: u64) -> Result<(), Failed>
        ensures ok { OnOk result (Becomes (stopping_state (F.seen self.old.shelf) self.old.told self.old.past.events) (stopping_state (F.seen self.new.shelf) self.new.told self.new.past.events)
            name.now (take len)) }
        ensures failed { OnErr result (MayBecome (stopping_state (F.seen self.old.shelf) self.old.told self.old.past.events) (stopping_state (F.seen self.new.shelf) self.new.told self.new.past.events)
            name.now (take len)) }
        ensures changed { (stopping_state (F.seen self.new.shelf) self.new.told self.new.past.events).changed name.now
            ≡ (stopping_state (F.seen self.old.shelf) self.old.told self.old.past.events).changed name.now
            ++ cut_by ((stopping_state (F.seen self.old.shelf) self.old.told self.old.past.events).given name.now) len result }
        ensures rest { OnlyWrites (stopping_state (F.seen self.old.shelf) self.old.told self.old.past.events) (stopping_state (F.seen self.new.shelf) self.new.told self.new.past.events) name.now }
        ensures stop { self.new.stop ≡ behind_call self.old.stop }
        ensures fails { self.old.stop.calls ≡ 0 → IsErr result }
        ensures stays { self.old.stop.calls ≡ 0 → self.new.shelf ≡ self.old.shelf }
    {
        if self.stop.calls == 0 {
            self.stop.torn = None;
            self.told.note_write(name);
            let answer = Err(Failed);
            self.past = self.past.then(&Note::Cut { name, len, answer });
            return answer;
        }
        self.stop.calls -= 1;
        let answer = self.shelf.cut(name, len);
        self.past = self.past.then(&Note::Cut { name, len, answer });
        answer
    }
}
