// Workers, each in a thread.
ghost use Rattle.std.specs.Prelude.{◌≡◌, ◌<◌, ◌≤◌, IfOk, length};
ghost use Rattle.batch_crew.specs.Crew.{AreReady, HaveWorked, share_of};

use crate::rounds::{Rounds, WorkerShare};
use room::{NoRoom, push};
use std::alloc::Global;
use std::thread;
use std::thread::Threads;

const MOST_WORKERS: usize = 32;

/// So many workers, which have done nothing yet.
pub fn hired<A: Rounds>(alloc: Global, analysis: &A, workers: u32) -> Result<Vec<A::Worker>, NoRoom>
    requires sound { A.is_sound analysis.now }
    requires workers { (0 < workers) × (workers ≤ 32) }
    ensures count { IfOk result (λ crew. length crew.items ≡ workers) }
    ensures ready { IfOk result (λ crew. AreReady (A.has_done analysis.now) workers crew.items) }
{
    let mut crew = Vec::new(alloc);
    for _ in 0..workers {
        push(&mut crew, analysis.hire(alloc, workers)?)?;
    }
    Ok(crew)
}

// Does all rounds of a share.
fn work<A: Rounds>(analysis: &A, share: WorkerShare, worker: &mut A::Worker)
    requires sound { A.is_sound analysis.now }
    requires share { (share.number < share.workers) × (share.workers ≤ 32) }
    requires ready { A.has_done analysis.now share 0 worker.old }
    ensures { A.has_done analysis.now share (A.round_count analysis.now share.workers) worker.new }
{
    for round in 0..analysis.round_count(share.workers) {
        analysis.round(share, round, worker);
    }
}

/// All workers at work, each in a thread of its own. It takes no memory but what threads take; where one can't start, another does its
/// rounds.
pub fn work_all<R: Threads + Sync, A: Rounds + Sync>(rt: &R, analysis: &A, crew: &mut [A::Worker])
where
    A::Worker: Send,
    requires sound { A.is_sound analysis.now }
    requires few { length crew.old ≤ 32 }
    requires ready { AreReady (A.has_done analysis.now) (length crew.old) crew.old }
    ensures worked { HaveWorked (A.has_done analysis.now) (A.round_count analysis.now) crew.new }
    ensures count { length crew.new ≡ length crew.old }
{
    let workers = crew.len();
    thread::for_each_mut(
        rt,
        crew,
        MOST_WORKERS,
        &|number, worker: &mut A::Worker|
            requires { A.is_sound analysis.now × A.has_done analysis.now (share_of number workers) 0 worker.now × (number < workers) × (workers ≤ 32) }
            ensures { A.has_done analysis.entry.now (share_of number workers) (A.round_count analysis.entry.now workers) worker.exit.now }
        {
            let share = WorkerShare {
                number: number as u32,
                workers: workers as u32,
            };
            work(analysis, share, worker)
        },
    );
}
