// How a call ends.
ghost use Rattle.std.specs.Prelude.{◌≡◌, OnOk, OnErr};
ghost use Rattle.refusals.specs.RefusalLines.{code_of, plan_code as plan_code_of};

use alarm_points::PointsFault;
use bench_reader::BenchFault;
use blif_text::NetlistFault;
use campaign_plan::PlanRefusal;
use claim_search::Contradiction;
use commands::Which;
use fm_shelf::shelf::Failed;
use held_inputs::HeldFault;
use netlist_levels::Walk;
use pair_list::PairRefusal;
use rate_table::RatesFault;
use result_file::{FalseRow, ResultRefusal};
use result_merge::MergeRefusal;
use room::NoRoom;
use workload::file::WorkloadFault;

/// How a call ends: done, or the one refusal.
#[derive(Drop)]
pub enum Status {
    Done,
    Usage,
    Netlist(NetlistFault),
    Bench(BenchFault),
    Loop(Walk),
    Rates(RatesFault),
    NewRates(RatesFault),
    Points(PointsFault),
    Held(HeldFault),
    Workload(WorkloadFault),
    Plan(PlanRefusal),
    NewPlan(PlanRefusal),
    ManyOutputs,
    TooLong(Which),
    Result(ResultRefusal),
    Disagrees(FalseRow),
    Merge(MergeRefusal),
    Pairs(PairRefusal),
    NoRun,
    NoFault,
    NoNet,
    NoAlarm,
    /// A window of so many cycles, where the shortest interval of a goal has fewer.
    LongWindow { window: u32, least: u32 },
    Contradiction(Contradiction),
    ReadFault(Which),
    ResultFault,
    OutFault,
    Memory(NoRoom),
}

// The exit status of what makes no plan.
fn plan_code(cause: &PlanRefusal) -> u8
    ensures { result ≡ plan_code_of cause.now }
{
    match cause {
        PlanRefusal::MissingRate(_, _) => 6,
        PlanRefusal::IdleRate { .. } => 7,
        PlanRefusal::TooManyFaults => 10,
        PlanRefusal::Memory(_) => 30,
    }
}

impl Status {
    /// The exit status of the program: 0 is done, 2 to 19 are refusals of what it was given, 20 and 21 are faults of the
    /// outside, and 30 is want of memory.
    pub fn code(&self) -> u8
        ensures { result ≡ code_of self.now }
    {
        match self {
            Status::Done => 0,
            Status::Usage => 2,
            Status::Netlist(_) => 3,
            Status::Bench(_) => 14,
            Status::Loop(_) => 4,
            Status::Rates(_) | Status::NewRates(_) => 5,
            Status::Points(_) => 8,
            Status::Workload(_) => 9,
            Status::Plan(cause) | Status::NewPlan(cause) => plan_code(cause),
            Status::ManyOutputs | Status::TooLong(_) => 10,
            Status::Result(ResultRefusal::Foreign { .. }) => 11,
            Status::Result(ResultRefusal::BadRow { .. }) => 12,
            Status::Disagrees(_) => 13,
            Status::Merge(_) => 15,
            Status::Pairs(PairRefusal::Incomplete { .. }) => 16,
            Status::Pairs(PairRefusal::TooMany) => 10,
            Status::NoRun | Status::NoFault | Status::NoNet => 17,
            Status::Held(_) => 18,
            Status::NoAlarm | Status::LongWindow { .. } | Status::Contradiction(_) => 19,
            Status::ReadFault(_) => 20,
            Status::ResultFault | Status::OutFault => 21,
            Status::Memory(_) => 30,
        }
    }
}

/// How a command ends after its text.
pub fn after_text(written: Result<(), Failed>) -> Status
    ensures done { OnOk written (result ≡ Status.Done) }
    ensures failed { OnErr written (result ≡ Status.OutFault) }
{
    match written {
        Ok(()) => Status::Done,
        Err(Failed) => Status::OutFault,
    }
}
