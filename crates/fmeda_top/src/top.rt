// The program, but for the edge of the system.
ghost use Rattle.std.specs.Prelude.{◌≡◌, ◌≤◌, ℕ, map, string_bytes};
ghost use Rattle.fm_shelf.specs.Content.{Content};
ghost use Rattle.fm_shelf.specs.Outside.{outside};
ghost use Rattle.commands.specs.Commands.{no_names};
ghost use Rattle.refusals.specs.Refusals.{IsSaidOf};
ghost use Rattle.fmeda_top.specs.Promises.{Promises};
ghost use Rattle.fmeda_top.specs.Words.{IsOfWords, MayWait};

use crate::ended::Ended;
use crate::perform::perform;
use claim_counter::{Turn, Waiting};
use command_line::{WordsRefusal, read_words};
use commands::FileNames;
use fm_shelf::shelf::{Shelf, Sink};
use refusals::refuse::say_refused;
use refusals::refused::Refused;
use refusals::status::Status;
use std::alloc::Global;
use std::sync::Wait;
use std::thread::Threads;
use worker_gate::Gate;

/// Writes the line of a refusal of the words themselves, and answers their status.
pub fn refuse_words<O: Sink>(out: &mut O, status: Status) -> Status
    requires { IsOfWords status }
    ensures status { result ≡ status }
    ensures said { (netlist : Content) → IsSaidOf netlist (O.seen out.old) (O.seen out.new) no_names status }
{
    say_refused(out, &FileNames::none(), Refused::By(status))
}

/// Does what the words ask for; the first of them is the program's name. What is promised of the content of a file is of one whose
/// content the shelf tells, and what is promised of what was written is of a sink that tells it. A fault of the outside is the answer
/// only where its count rose in this call.
///
/// `run`, `resume` and `gen` of several workers come to the turn as `turn` says: there their threads wait for each other, and each tells the gate
/// after each draw. The runtime itself can't wait, so for all other words the call returns, as soon as threads of its own that it joins do.
pub fn fmeda_by<R: Threads + Sync, F: Shelf + Send + Drop, O: Sink, G: Gate + Sync, T: Turn + Sync>(
    rt: &R,
    turn: &T,
    alloc: Global,
    words: &[String],
    shelf: F,
    out: &mut O,
    gate: &G,
) -> Ended<F>
    requires turn { MayWait (map string_bytes words.now) → (share : ℕ) → T.admits share }
    ensures promises { Promises (map string_bytes words.now) result.status
        (outside (F.seen shelf) (O.seen out.old)) (outside (F.seen result.shelf) (O.seen out.new)) }
    ensures grows { (O.seen out.old).faults ≤ (O.seen out.new).faults }
{
    match read_words(alloc, words) {
        Ok(asked) => perform(rt, turn, alloc, asked, shelf, out, gate),
        Err(WordsRefusal::Usage) => Ended {
            status: refuse_words(out, Status::Usage),
            shelf,
        },
        Err(WordsRefusal::Memory(no_room)) => Ended {
            status: refuse_words(out, Status::Memory(no_room)),
            shelf,
        },
    }
}

/// The same, where several workers wait for the turn by this runtime.
pub fn fmeda<R: Threads + Wait + Sync, F: Shelf + Send + Drop, O: Sink, G: Gate + Sync>(
    rt: &R,
    alloc: Global,
    words: &[String],
    shelf: F,
    out: &mut O,
    gate: &G,
) -> Ended<F>
    ensures promises { Promises (map string_bytes words.now) result.status
        (outside (F.seen shelf) (O.seen out.old)) (outside (F.seen result.shelf) (O.seen out.new)) }
    ensures grows { (O.seen out.old).faults ≤ (O.seen out.new).faults }
{
    fmeda_by(rt, &Waiting::new(rt), alloc, words, shelf, out, gate)
}
