// Calls of the program that are stopped, and those that go on from them.
ghost use Rattle.std.specs.Prelude.{◌≡◌, map, string_bytes, IfSome};
ghost use Rattle.fm_shelf.specs.Content.{Content};
ghost use Rattle.fm_shelf.specs.Outside.{outside};
ghost use Rattle.stopped_runs.specs.Campaigns.{Campaign};
ghost use Rattle.stopped_runs.specs.Runs.{IsCampaign, IsResumed, KnowsAll, WasCalled};

use crate::stopping::{Stop, StoppingShelf};
use fm_shelf::shelf::{Shelf, Sink};
use fmeda_top::ended::Ended;
use fmeda_top::top::fmeda;
use std::alloc::Global;
use std::sync::Wait;
use std::thread::Threads;
use worker_gate::Gate;

/// A call of the program that is stopped: it is done over a shelf that tells the files of these names, and on which this stop comes. It answers
/// the shelf as the call leaves it, or `None` where there was no memory for the names.
pub fn stopped_call<R: Threads + Wait + Sync, F: Shelf + Send + Drop, O: Sink, G: Gate + Sync>(
    rt: &R,
    alloc: Global,
    words: &[String],
    names: &[&str],
    stop: Stop,
    shelf: F,
    out: &mut O,
    gate: &G,
) -> Option<F>
    ensures { IfSome result (λ left. WasCalled (map string_bytes words.now) (map (λ name. name.now) names.now) (F.seen shelf) (F.seen left)) }
{
    let Ok(stopping) = StoppingShelf::new(alloc, shelf, names, stop) else {
        return None;
    };
    let Ended { shelf, .. } = fmeda(rt, alloc, words, stopping, out, gate);
    if !shelf.tells(names) {
        return None;
    }
    Some(shelf.into_inner())
}

/// A `run` that is stopped, any number of `resume`s that are, and one `resume` to its end. What went out before a stop goes to `lost`. It
/// answers how the last one has ended, or `None` where there was no memory for the names.
pub fn run_and_resume<
    R: Threads + Wait + Sync,
    F: Shelf + Send + Drop,
    L: Sink,
    O: Sink,
    G: Gate + Sync,
>(
    rt: &R,
    alloc: Global,
    run: &[String],
    resume: &[String],
    names: &[&str],
    first: Stop,
    others: &[Stop],
    shelf: F,
    lost: &mut L,
    out: &mut O,
    gate: &G,
) -> Option<Ended<F>>
    ensures { IfSome result (λ ended. (c : Campaign) (start : Content)
        → IsCampaign c start (map string_bytes run.now) (map string_bytes resume.now) (map (λ name. name.now) names.now) (F.seen shelf)
        → KnowsAll F.seen
        → IsResumed c start ended.status (outside (F.seen shelf) (O.seen out.old)) (outside (F.seen ended.shelf) (O.seen out.new))) }
{
    let mut shelf = stopped_call(rt, alloc, run, names, first, shelf, lost, gate)?;
    for stop in others {
        shelf = stopped_call(rt, alloc, resume, names, *stop, shelf, lost, gate)?;
    }
    Some(fmeda(rt, alloc, resume, shelf, out, gate))
}
