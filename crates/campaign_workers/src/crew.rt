ghost use Rattle.std.specs.Prelude.{◌≡◌, ◌^◌, ◌<◌, ◌≤◌, [], All, IfOk, IfErr, length};
ghost use Rattle.circuit.specs.Order.{IsOrder};
ghost use Rattle.campaign_plan.specs.Analysis.{batch_count};
ghost use Rattle.claim_counter.specs.Crews.{IsCrew};
ghost use Rattle.campaign_workers.specs.Workplaces.{seats_of};
ghost use Rattle.classifier.specs.Simulator.{simulator_of};

use crate::worker::Worker;
use campaign_board::{Board, Origin, Seat, Shared, missing_batches};
use campaign_plan::Plan;
use classifier::Simulator;
use fm_shelf::shelf::Shelf;
use netlist_levels::Order;
use room::{NoRoom, push};
use std::alloc::Global;
use std::marker::Model;
use std::snapshot::Snapshot;
use testbench::Testbench;

/// All that a campaign needs but the board: the testbench, the shared table, a seat that opens it, and the workers. Contracts
/// see the plan that it was made for.
#[derive(Drop)]
pub struct Workshop<'a, F: Shelf + Drop, N: Origin> {
    plan: Snapshot<Plan>,
    pub(crate) bench: Testbench<'a>,
    pub(crate) shared: Shared<F, N>,
    pub(crate) first: Seat<F, N>,
    pub(crate) workers: Vec<Worker<F, N>>,
}

impl<'a, F: Shelf + Drop, N: Origin> Model for Workshop<'a, F, N> {
    ghost use Rattle.std.specs.Prelude.{◌≡◌, length};
    ghost use Rattle.campaign_plan.specs.Analysis.{Analysis, batch_count};
    ghost use Rattle.campaign_workers.specs.Workplaces.{AreFor};

    ghost Value = { Analysis };

    ghost view = { λ s. s.plan.value };

    ghost invariant = { λ s. AreFor s.plan.value s.bench s.shared s.first s.workers.items × (length N.start.entries ≡ batch_count s.plan.value) };
}

/// A crew: the board of a campaign, and all else that the campaign needs. Its campaign takes no memory.
#[derive(Drop)]
pub struct Crew<'a, F: Shelf + Drop, N: Origin> {
    pub(crate) board: Board<F, N>,
    pub(crate) workshop: Workshop<'a, F, N>,
}

/// There was no memory for a crew.
#[derive(Drop)]
pub struct NoCrew<F: Shelf + Drop, N: Origin> {
    pub board: Board<F, N>,
    pub no_room: NoRoom,
}

impl<'a, F: Shelf + Drop, N: Origin> Crew<'a, F, N> {
    ghost use Rattle.std.specs.Borrow.{sem};
    ghost use Rattle.campaign_workers.specs.LentBoard.{LendsBoard};

    /// A crew of up to 32 workers, which takes all memory of its campaign: the testbench, the shared table with a seat for each
    /// worker, and their simulators. For want of memory the board comes back.
    pub fn new(
        alloc: Global,
        plan: &'a Plan,
        order: &'a Order,
        board: Board<F, N>,
        workers: u32,
    ) -> Result<Self, NoCrew<F, N>>
        requires workers { (0 < workers) × (workers ≤ 32) }
        requires order { IsOrder plan.now.circuit order.now }
        requires entries { length N.start.entries ≡ batch_count plan.now }
        requires rows { board.rows ≡ N.start.rows }
        ensures ok { IfOk result (λ crew. (crew.board ≡ board) × (crew.workshop ≡ plan.now)) }
        ensures err { IfErr result (λ e. e.board ≡ board) }
    {
        match Workshop::new(alloc, plan, order, &board, workers) {
            Ok(workshop) => Ok(Crew { board, workshop }),
            Err(no_room) => Err(NoCrew { board, no_room }),
        }
    }

    /// The board, whose header is to be written before the campaign.
    pub fn board(&mut self) -> &mut Board<F, N>
        ensures* writes_back { sem 𝓛 (LendsBoard F.row N.row F.Shelf N.Origin self.entry result) }
        ensures value { result.now ≡ self.old.board }
    {
        &mut self.board
    }

    /// The board of a crew that ran no campaign.
    pub fn into_board(self) -> Board<F, N>
        ensures { result ≡ self.entry.board }
    {
        let Crew { board, .. } = self;
        board
    }
}

impl<'a, F: Shelf + Drop, N: Origin> Workshop<'a, F, N> {
    fn new(
        alloc: Global,
        plan: &'a Plan,
        order: &'a Order,
        board: &Board<F, N>,
        workers: u32,
    ) -> Result<Self, NoRoom>
        requires workers { (0 < workers) × (workers ≤ 32) }
        requires order { IsOrder plan.now.circuit order.now }
        requires entries { length N.start.entries ≡ batch_count plan.now }
        requires rows { board.now.rows ≡ N.start.rows }
        ensures { IfOk result (λ workshop. workshop ≡ plan.now) }
    {
        let bench = Testbench::of_plan(alloc, plan, order)?;
        let todo = missing_batches(alloc, plan.batches(), board.rows())?;
        let (shared, mut first) = Shared::table(alloc, board, todo)?;
        let workers = hired(alloc, plan, &bench, &shared, &mut first, workers)?;
        Ok(Workshop {
            plan: Snapshot::of(plan),
            bench,
            shared,
            first,
            workers,
        })
    }
}

// A worker at this seat.
fn worker_at<F: Shelf + Drop, N: Origin>(
    alloc: Global,
    plan: &Plan,
    bench: &Testbench<'_>,
    number: u32,
    seat: Seat<F, N>,
) -> Result<Worker<F, N>, NoRoom>
    ensures seat { IfOk result (λ w. w.seat ≡ seat) }
    ensures simulator { IfOk result (λ w. w.simulator ≡ simulator_of bench.now plan.now.settings.ftti) }
{
    let simulator = Simulator::new(alloc, bench, plan.settings().ftti)?;
    Ok(Worker {
        number,
        seat,
        simulator,
    })
}

// So many workers, each with a seat that is split from the first.
fn hired<F: Shelf + Drop, N: Origin>(
    alloc: Global,
    plan: &Plan,
    bench: &Testbench<'_>,
    shared: &Shared<F, N>,
    first: &mut Seat<F, N>,
    count: u32,
) -> Result<Vec<Worker<F, N>>, NoRoom>
    requires count { count ≤ 32 }
    requires first { IsCrew shared.now first.old [] × (first.old.view.share ≡ 2 ^ 32) }
    ensures crew { IfOk result (λ workers. IsCrew shared.now first.new (seats_of workers.items)) }
    ensures simulators { IfOk result (λ workers. All (λ w. w.simulator ≡ simulator_of bench.now plan.now.settings.ftti) workers.items) }
    ensures count { IfOk result (λ workers. length workers.items ≡ count) }
    ensures view { (first.new.table ≡ first.old.table) × (first.new.view.holds ≡ first.old.view.holds) × (first.new.view.fails ≡ first.old.view.fails) × (first.new.view.seen ≡ first.old.view.seen) }
{
    let mut workers = Vec::new(alloc);
    for number in 0..count {
        let seat = shared.split(first);
        push(&mut workers, worker_at(alloc, plan, bench, number, seat)?)?;
    }
    Ok(workers)
}
