// What a command does.
ghost use Rattle.std.specs.Prelude.{ℕ, ◌≡◌, ◌<◌, ◌≤◌, true};
ghost use Rattle.fm_shelf.specs.Content.{Content};
ghost use Rattle.fm_shelf.specs.Outside.{outside};
ghost use Rattle.campaign_plan.specs.declared.Settings.{Settings};
ghost use Rattle.commands.specs.declared.command.Task.TheVariants as task;
ghost use Rattle.commands.specs.declared.command.Which.TheVariants as which;
ghost use Rattle.commands.specs.Commands.{HasFitNumbers, IsFit, name_by, told_by};
ghost use Rattle.command_reads.specs.Files.{Reads};
ghost use Rattle.command_reads.specs.Judging.{made_by};
ghost use Rattle.fmeda_top.specs.Doing.{DoesAs, EndSaid, IsJudged, IsReady, MayEnd, PrintedAs, Prints, TellsAs};
ghost use Rattle.fmeda_top.specs.Words.{RunsNoCampaign, WaitsForNobody};

use crate::always_text::tell_always;
use crate::audit::tell_audit;
use crate::check::tell_check;
use crate::classes::tell_classes;
use crate::ended::Ended;
use crate::kept::{tell_faults, tell_progress};
use crate::merge::{merge, reweigh};
use crate::pairs::tell_pairs;
use crate::parts::tell_parts;
use crate::prepare::prepared;
use crate::reading_texts::{tell_breakdown, tell_coverage, tell_latencies};
use crate::report::tell_report;
use crate::run::{run_anew, run_on, run_share};
use crate::trace::tell_trace;
use campaign_run::{End, Ran, Text};
use campaign_shard::Shard;
use claim_counter::{Alone, Turn};
use command_reads::judge::Judged;
use commands::{Asked, FileNames, Task};
use fm_shelf::shelf::{Shelf, Sink};
use refusals::refuse::{refuse, say_refused};
use refusals::refused::Refused;
use refusals::status::Status;
use std::alloc::Global;
use std::thread::Threads;
use worker_gate::Gate;

// Writes the line of how a campaign has ended, if it has one, and answers its status.
fn say_end<O: Sink>(out: &mut O, names: &FileNames<'_>, end: End) -> Status
    ensures { EndSaid end result (O.seen out.old) (O.seen out.new) (name_by names.now) }
{
    match end {
        End::Done => Status::Done,
        End::OutFault => Status::OutFault,
        End::NoMemory(no_room) => say_refused(out, names, Refused::By(Status::Memory(no_room))),
        End::ResultFault => {
            refuse(out, names, &[], &Status::ResultFault);
            Status::ResultFault
        }
    }
}

// Writes the line of how a campaign has ended, behind it.
fn ended<F: Shelf + Drop, O: Sink>(ran: Ran<F>, names: &FileNames<'_>, out: &mut O) -> Ended<F>
    ensures said { EndSaid ran.end result.status (O.seen out.old) (O.seen out.new) (name_by names.now) }
    ensures shelf { result.shelf ≡ ran.shelf }
{
    Ended {
        status: say_end(out, names, ran.end),
        shelf: ran.shelf,
    }
}

// Writes the text of a task that prints, or refuses.
fn print<R: Threads + Sync, O: Sink>(
    rt: &R,
    alloc: Global,
    task: &Task,
    judged: &Judged,
    out: &mut O,
) -> Result<Status, Refused>
    requires fit { HasFitNumbers task.now }
    requires prints { Prints task.now }
    requires judged { IsJudged task.now judged.now }
    ensures { TellsAs task.now (made_by judged.now) (O.seen out.old) (O.seen out.new) result }
{
    match task {
        Task::Classes => tell_classes(alloc, judged.observed(), out),
        Task::Check => tell_check(judged.planned(), out),
        Task::Audit { every, by } => tell_audit(alloc, judged.begun(), *every, *by, out),
        Task::Report => tell_report(alloc, judged.planned(), out),
        Task::Pairs { workers } => tell_pairs(rt, alloc, judged.begun(), out, *workers),
        Task::Parts => tell_parts(alloc, judged.rated(), out),
        Task::Faults => tell_faults(alloc, judged.begun(), out),
        Task::Progress => tell_progress(alloc, judged.begun(), out),
        Task::Breakdown { intervals, workers } => {
            let intervals = intervals.as_slice();
            tell_breakdown(rt, alloc, judged.planned(), intervals, *workers, out)
        }
        Task::Latencies { workers } => tell_latencies(rt, alloc, judged.planned(), *workers, out),
        Task::Coverage { workers } => tell_coverage(rt, alloc, judged.planned(), *workers, out),
        Task::Trace { run, fault, nets } => tell_trace(
            alloc,
            judged.driven(),
            *run,
            fault,
            nets,
            out,
        ),
        Task::Run { .. }
        | Task::Resume { .. }
        | Task::Gen { .. }
        | Task::Shard { .. }
        | Task::Merge
        | Task::Reweigh
        | Task::Always { .. } => unreachable!(),
    }
}

// Ends a task that prints: the line of a refusal is written where it has refused.
fn printed<O: Sink>(names: &FileNames<'_>, told: Result<Status, Refused>, out: &mut O) -> Status
    ensures { PrintedAs told result (O.seen out.old) (O.seen out.new) (name_by names.now) }
{
    match told {
        Ok(status) => status,
        Err(refused) => say_refused(out, names, refused),
    }
}

// Does what a task asks that runs no campaign, over what its files stand for.
fn do_at_once<R: Threads + Sync, F: Shelf + Drop, O: Sink>(
    rt: &R,
    alloc: Global,
    names: &FileNames<'_>,
    task: &Task,
    judged: &Judged,
    shelf: F,
    out: &mut O,
) -> Ended<F>
    requires fit { HasFitNumbers task.now }
    requires alone { RunsNoCampaign task.now }
    requires judged { IsJudged task.now judged.now }
    ensures { (held : Content) (reads : Reads) (set : Settings) → IsReady held reads judged.now
        → DoesAs (record { files = name_by names.now; settings = set; task = task.now }) (made_by judged.now) reads result.status
        (outside (F.seen shelf) (O.seen out.old)) (outside (F.seen result.shelf) (O.seen out.new)) }
{
    let mut shelf = shelf;
    match task {
        Task::Merge => {
            let end = merge(alloc, judged.merged(), names.result, &mut shelf, out);
            let status = say_end(out, names, end);
            Ended { status, shelf }
        }
        Task::Reweigh => {
            let end = reweigh(alloc, judged.reweighed(), names.result, &mut shelf, out);
            let status = say_end(out, names, end);
            Ended { status, shelf }
        }
        Task::Always { window, ahead } => {
            let told = tell_always(alloc, judged.supposed(), *window, *ahead, out);
            let status = printed(names, told, out);
            Ended { status, shelf }
        }
        prints => {
            let told = print(rt, alloc, prints, judged, out);
            let status = printed(names, told, out);
            Ended { status, shelf }
        }
    }
}

// Runs a part of a campaign, and writes the line of how it has ended.
fn do_share<F: Shelf + Drop, O: Sink>(
    alloc: Global,
    names: &FileNames<'_>,
    part: u32,
    parts: u32,
    judged: &Judged,
    shelf: F,
    out: &mut O,
) -> Ended<F>
    requires part { (part < parts) × (parts ≤ 1024) }
    requires judged { IsJudged (task.Shard part parts) judged.now }
    requires ready { (held : Content) × (reads : Reads) × IsReady held reads judged.now }
    ensures { (held : Content) (reads : Reads) (set : Settings) → IsReady held reads judged.now
        → DoesAs (record { files = name_by names.now; settings = set; task = task.Shard part parts }) (made_by judged.now) reads result.status
        (outside (F.seen shelf) (O.seen out.old)) (outside (F.seen result.shelf) (O.seen out.new)) }
{
    let part = Shard { part, parts };
    let ran = run_share(alloc, judged.planned(), names.result, part, shelf, out);
    ended(ran, names, out)
}

// Does what a task asks, over what its files stand for. Several workers of a campaign come to the turn so.
fn do_task<R: Threads + Sync, F: Shelf + Send + Drop, O: Sink, G: Gate + Sync, T: Turn + Sync>(
    rt: &R,
    turn: &T,
    alloc: Global,
    names: &FileNames<'_>,
    task: &Task,
    judged: Judged,
    shelf: F,
    out: &mut O,
    gate: &G,
) -> Ended<F>
    requires turn { ¬ (WaitsForNobody task.now) → (share : ℕ) → T.admits share }
    requires fit { HasFitNumbers task.now }
    requires judged { IsJudged task.now judged }
    requires ready { (reads : Reads) × IsReady ((F.seen shelf).content (name_by names.now which.Result)) reads judged }
    ensures { (reads : Reads) (set : Settings) → IsReady ((F.seen shelf).content (name_by names.now which.Result)) reads judged
        → DoesAs (record { files = name_by names.now; settings = set; task = task.now }) (made_by judged) reads result.status
        (outside (F.seen shelf) (O.seen out.old)) (outside (F.seen result.shelf) (O.seen out.new)) }
{
    let name = names.result;
    match task {
        Task::Run { workers } => {
            let (plan, text) = (judged.planned(), Text::Report);
            let ran = run_anew(
                rt, turn, alloc, plan, name, text, *workers, shelf, out, gate,
            );
            ended(ran, names, out)
        }
        Task::Gen { stages, workers } => {
            let (plan, text) = (judged.planned(), Text::Summary(*stages));
            let ran = run_anew(
                rt, turn, alloc, plan, name, text, *workers, shelf, out, gate,
            );
            ended(ran, names, out)
        }
        Task::Resume { workers } => {
            let begun = judged.into_begun();
            let ran = run_on(rt, turn, alloc, begun, name, *workers, shelf, out, gate);
            ended(ran, names, out)
        }
        Task::Shard { part, parts } => do_share(alloc, names, *part, *parts, &judged, shelf, out),
        at_once => do_at_once(rt, alloc, names, at_once, &judged, shelf, out),
    }
}

/// Whether a task waits for nobody.
pub fn waits_for_nobody(task: &Task) -> bool
    ensures { (result ≡ true → WaitsForNobody task.now) × (WaitsForNobody task.now → result ≡ true) }
{
    match task {
        Task::Run { workers } => *workers == 1,
        Task::Resume { workers } => *workers == 1,
        Task::Gen { workers, .. } => *workers == 1,
        _ => true,
    }
}

/// Does what a command asks: reads its files, judges them, says the refusal or does what its task asks. Several workers of a campaign come
/// to the turn so.
pub(crate) fn perform<
    R: Threads + Sync,
    F: Shelf + Send + Drop,
    O: Sink,
    G: Gate + Sync,
    T: Turn + Sync,
>(rt: &R, turn: &T, alloc: Global, asked: Asked<'_>, shelf: F, out: &mut O, gate: &G) -> Ended<F>
    requires turn { ¬ (WaitsForNobody asked.task) → (share : ℕ) → T.admits share }
    requires fit { IsFit (told_by asked) }
    ensures { MayEnd (told_by asked.entry) result.status
        (outside (F.seen shelf) (O.seen out.old)) (outside (F.seen result.shelf) (O.seen out.new)) }
{
    let Asked {
        names,
        settings,
        task,
    } = asked;
    let mut shelf = shelf;
    match prepared(alloc, &mut shelf, &names, settings, &task) {
        Ok(judged) => do_task(rt, turn, alloc, &names, &task, judged, shelf, out, gate),
        Err(refused) => Ended {
            status: say_refused(out, &names, refused),
            shelf,
        },
    }
}

/// Does what a command asks that waits for nobody: its runtime can start threads and join them, and no more. A campaign is worked in this
/// thread, by one worker.
pub fn perform_alone<R: Threads + Sync, F: Shelf + Send + Drop, O: Sink, G: Gate + Sync>(
    rt: &R,
    alloc: Global,
    asked: Asked<'_>,
    shelf: F,
    out: &mut O,
    gate: &G,
) -> Ended<F>
    requires fit { IsFit (told_by asked) }
    requires alone { WaitsForNobody asked.task }
    ensures { MayEnd (told_by asked.entry) result.status
        (outside (F.seen shelf) (O.seen out.old)) (outside (F.seen result.shelf) (O.seen out.new)) }
{
    perform(rt, &Alone, alloc, asked, shelf, out, gate)
}
