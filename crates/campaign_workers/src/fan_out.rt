ghost use Rattle.std.specs.Prelude.{ℕ, ◌≡◌, ◌≢◌, ◌<◌, ◌+◌, ◌^◌, true, false, All, length};
ghost use Rattle.campaign_plan.specs.Analysis.{batch_count};
ghost use Rattle.campaign_core.specs.Machines.{times};
ghost use Rattle.claim_counter.specs.Seats.{IsOf};
ghost use Rattle.claim_counter.specs.Crews.{MayDraw, IsDone, IsCrew, shares_of};
ghost use Rattle.campaign_workers.specs.Truth.{HasTrueEntries, TakesAll};
ghost use Rattle.campaign_workers.specs.Workplaces.{seats_of};
ghost use Rattle.classifier.specs.Simulator.{simulator_of};
ghost use Rattle.testbench.specs.Testbench.{IsTestbenchFor};
ghost use Rattle.campaign_workers.specs.Finish.{IsFinished};

use crate::crew::{Crew, Workshop};
use crate::worker::{Worker, work};
use campaign_board::{Board, Origin, Seat, Shared};
use campaign_plan::Plan;
use claim_counter::{Alone, Turn};
use fm_shelf::shelf::Shelf;
use std::thread;
use std::thread::Threads;
use testbench::Testbench;
use worker_gate::Gate;

/// What a campaign leaves.
#[derive(Drop)]
pub struct Finished<F: Shelf + Drop, N: Origin> {
    pub board: Board<F, N>,
}

// All workers at work, each in a thread.
fn work_all<
    R: Threads + Sync,
    F: Shelf + Send + Drop,
    N: Origin + Send + Sync,
    G: Gate + Sync,
    T: Turn + Sync,
>(
    rt: &R,
    turn: &T,
    plan: &Plan,
    bench: &Testbench<'_>,
    shared: &Shared<F, N>,
    gate: &G,
    workers: &mut [Worker<F, N>],
)
    requires admitted { (share : ℕ) → T.admits share }
    requires ready { All (λ w. MayDraw shared.now w.seat × (w.simulator ≡ simulator_of bench.now plan.now.settings.ftti)) workers.old }
    requires bench { IsTestbenchFor plan.now bench.now }
    requires entries { HasTrueEntries plan.now N.start × (length N.start.entries ≡ batch_count plan.now) }
    requires takes { TakesAll N.start }
    ensures done { All (λ w. IsDone shared.now w.seat) workers.new }
    ensures shares { shares_of (seats_of workers.new) ≡ shares_of (seats_of workers.old) }
{
    thread::for_each_mut(
        rt,
        workers,
        32,
        &|_, worker: &mut Worker<F, N>|
            requires { ((share : ℕ) → T.admits share) × MayDraw shared.now worker.now.seat × (worker.now.simulator ≡ simulator_of bench.now plan.now.settings.ftti) × IsTestbenchFor plan.now bench.now × HasTrueEntries plan.now N.start × (length N.start.entries ≡ batch_count plan.now) × TakesAll N.start }
            ensures { IsDone shared.entry.now worker.exit.now.seat × (worker.exit.now.seat.view.share ≡ worker.entry.now.seat.view.share) }
        { work(turn, plan, bench, shared, gate, worker) },
    );
}

// The board, once all seats were joined.
fn board_of_all<F: Shelf + Drop, N: Origin>(
    shared: Shared<F, N>,
    mut first: Seat<F, N>,
    mut workers: Vec<Worker<F, N>>,
) -> Board<F, N>
    requires first { IsOf shared first × (first.view.holds ≡ false) × ((n : ℕ) → times n first.view.claims ≡ times n first.view.posts) }
    requires done { All (λ w. IsDone shared w.seat) workers.items × (0 < length workers.items) }
    requires shares { first.view.share + shares_of (seats_of workers.items) ≡ 2 ^ 32 }
    ensures finished { IsFinished N.start result.rows result.failed }
    ensures written { result.written ≡ true }
{
    while let Some(worker) = workers.pop() {
        shared.join(&mut first, worker.into_seat());
    }
    shared.close(first)
}

// Joins the seats of workers that did nothing yet into the first, which then has all shares.
fn join_ready<F: Shelf + Drop, N: Origin>(
    shared: &Shared<F, N>,
    first: &mut Seat<F, N>,
    mut workers: Vec<Worker<F, N>>,
)
    requires crew { IsCrew shared.now first.old (seats_of workers.items) }
    requires free { first.old.view.holds ≡ false }
    ensures ready { MayDraw shared.now first.new }
    ensures whole { first.new.view.share ≡ 2 ^ 32 }
{
    while let Some(worker) = workers.pop() {
        shared.join(first, worker.into_seat());
    }
}

// The campaign of a crew, in a thread for each worker, for which it waits.
fn campaign_of_several<
    R: Threads + Sync,
    F: Shelf + Send + Drop,
    N: Origin + Send + Sync,
    G: Gate + Sync,
    T: Turn + Sync,
>(rt: &R, turn: &T, plan: &Plan, crew: Crew<'_, F, N>, gate: &G) -> Finished<F, N>
    requires admitted { (share : ℕ) → T.admits share }
    requires made { crew.workshop ≡ plan.now }
    requires entries { HasTrueEntries plan.now N.start }
    requires takes { TakesAll N.start }
    requires written { crew.board.written ≡ true }
    requires rows { crew.board.rows ≡ N.start.rows }
    ensures finished { IsFinished N.start result.board.rows result.board.failed }
    ensures written { result.board.written ≡ true }
{
    let Crew { board, workshop } = crew;
    let Workshop {
        bench,
        shared,
        mut first,
        mut workers,
        ..
    } = workshop;
    shared.put(&mut first, board);
    work_all(
        rt,
        turn,
        plan,
        &bench,
        &shared,
        gate,
        workers.as_mut_slice(),
    );
    Finished {
        board: board_of_all(shared, first, workers),
    }
}

// The campaign of a crew, in this thread, by one worker: it is the only one at the table, and waits for nobody. A crew of more workers
// gives it their seats.
fn campaign_of_one<F: Shelf + Drop, N: Origin, G: Gate>(
    plan: &Plan,
    crew: Crew<'_, F, N>,
    gate: &G,
) -> Finished<F, N>
    requires made { crew.workshop ≡ plan.now }
    requires entries { HasTrueEntries plan.now N.start }
    requires takes { TakesAll N.start }
    requires written { crew.board.written ≡ true }
    requires rows { crew.board.rows ≡ N.start.rows }
    ensures finished { IsFinished N.start result.board.rows result.board.failed }
    ensures written { result.board.written ≡ true }
{
    let Crew { board, workshop } = crew;
    let Workshop {
        bench,
        shared,
        mut first,
        mut workers,
        ..
    } = workshop;
    shared.put(&mut first, board);
    let Some(worker) = workers.pop() else {
        unreachable!()
    };
    let Worker {
        number,
        seat,
        simulator,
    } = worker;
    shared.join(&mut first, seat);
    join_ready(&shared, &mut first, workers);
    let mut worker = Worker {
        number,
        seat: first,
        simulator,
    };
    work(&Alone, plan, &bench, &shared, gate, &mut worker);
    Finished {
        board: shared.close(worker.into_seat()),
    }
}

/// Runs the campaign of a crew of so many workers to its end. It takes no memory. Several work in a thread each, and come to the turn as
/// `turn` says; one alone works in this thread, and waits for nobody. Each worker draws up to four batches and tells the gate after each
/// draw; it then simulates them together and posts the row of each by itself, in the order drawn. It goes on until a draw has given none
/// and what it drew is posted, and then looks once; it ends early where a post is stopped. It draws no more once a draw gave none. The
/// board has failed exactly where some append failed.
pub fn campaign<
    R: Threads + Sync,
    F: Shelf + Send + Drop,
    N: Origin + Send + Sync,
    G: Gate + Sync,
    T: Turn + Sync,
>(rt: &R, turn: &T, plan: &Plan, crew: Crew<'_, F, N>, workers: u32, gate: &G) -> Finished<F, N>
    requires admitted { workers ≢ 1 → (share : ℕ) → T.admits share }
    requires made { crew.workshop ≡ plan.now }
    requires entries { HasTrueEntries plan.now N.start }
    requires takes { TakesAll N.start }
    requires written { crew.board.written ≡ true }
    requires rows { crew.board.rows ≡ N.start.rows }
    ensures finished { IsFinished N.start result.board.rows result.board.failed }
    ensures written { result.board.written ≡ true }
{
    if workers == 1 {
        campaign_of_one(plan, crew, gate)
    } else {
        campaign_of_several(rt, turn, plan, crew, gate)
    }
}
