// The plan of a campaign.
#![tactic(auto)]

ghost use Rattle.std.specs.Prelude.{◌≡◌, ◌<◌};
ghost use Rattle.campaign_plan.specs.Analysis.{all_faults, batch_count, fault_count, fault_numbered, part_count, part_numbered, part_of};
ghost use Rattle.circuit.specs.Loop.{HasNoLoop};
ghost use Rattle.workload.specs.RunsKept.{AreRunsFor};
ghost use Rattle.alarm_points.specs.PointsKept.{ArePointsFor};
ghost use Rattle.campaign_plan.specs.Kept.{AreSettings, IsPlan};
ghost use Rattle.campaign_plan.specs.Making.{analysis, AnswersPlan, AreTables};
ghost use Rattle.campaign_plan.specs.Weights.{weight};
ghost use Rattle.campaign_plan.specs.declared.PlanRefusal.TheVariants.{Memory};

mod batch;
mod law;
mod numbers;
mod shares;
mod tables;

use alarm_points::Points;
pub use batch::{class_with, has_bit, own_sums};
use circuit::netlist::Netlist;
use circuit::parts::{Name, NetId};
use fault_list::{FaultList, Flips, Stretch};
pub use law::{faults_are_alone, sums_are_consistent, weights_sum_to_rates};
use metric_sums::Asil;
use numbers::{Inputs, kept};
use rate_table::{Part, Rates};
use room::NoRoom;
use std::alloc::Global;
use std::marker::Model;
use tables::{FaultTables, fault_tables};
use workload::run::Workload;

/// The fault tolerant time interval of goals without one of their own, in cycles; the cycles of flips and of pulses; the ASIL.
/// Where the cycles of flips weren't listed, they are those of `stretch`.
#[derive(Drop)]
pub struct Settings {
    pub ftti: u32,
    pub flips: Flips,
    pub stretch: Option<Stretch>,
    pub pulses: Flips,
    pub asil: Asil,
}

/// The planes of a batch: bit k of each is danger, or notice, of the fault in lane k.
#[derive(Clone, Copy, Debug, PartialEq, Eq)]
pub struct Outcome {
    pub danger: u64,
    pub noticed: u64,
}

/// Everything that a campaign is about, with the part and the weight of each fault at hand.
#[derive(Drop)]
pub struct Plan {
    net: Netlist,
    work: Workload,
    rates: Rates,
    points: Points,
    set: Settings,
    faults: FaultList,
    part_numbers: Vec<u32>,
    weights: Vec<u64>,
}

impl Model for Plan {
    ghost use Rattle.campaign_plan.specs.Analysis.{Analysis};
    ghost use Rattle.campaign_plan.specs.Kept.{IsTabled};

    ghost Value = { Analysis };

    ghost view = { λ p. record {
      circuit = p.net;
      runs = p.work;
      rates = p.rates;
      points = p.points;
      settings = p.set;
    } };

    ghost invariant = { λ p. IsTabled (record {
      circuit = p.net;
      runs = p.work;
      rates = p.rates;
      points = p.points;
      settings = p.set;
    }) p.faults p.part_numbers.items p.weights.items };
}

impl Plan {
    /// The plan of all this, or the first of what refuses it: too many faults, a net without a rate, an idle rate.
    pub fn new(
        alloc: Global,
        net: Netlist,
        work: Workload,
        rates: Rates,
        points: Points,
        set: Settings,
    ) -> Result<Plan, PlanRefusal>
        requires no_loop { HasNoLoop net }
        requires runs { AreRunsFor net work }
        requires points { ArePointsFor net points }
        requires settings { AreSettings set }
        ensures { AnswersPlan (record { circuit = net; runs = work; rates = rates; points = points; settings = set }) result }
    {
        Plan::of(
            alloc,
            Inputs {
                net,
                work,
                rates,
                points,
                set,
            },
        )
    }

    // The plan of its inputs.
    fn of(alloc: Global, p: Inputs) -> Result<Plan, PlanRefusal>
        requires no_loop { HasNoLoop p.net }
        requires runs { AreRunsFor p.net p.work }
        requires points { ArePointsFor p.net p.points }
        requires settings { AreSettings p.set }
        ensures { AnswersPlan (analysis p) result }
    {
        kept(&p);
        let tables = fault_tables(alloc, &p)?;
        Ok(Plan::with_tables(p, tables))
    }

    // The plan of its inputs and of the tables of its faults.
    fn with_tables(p: Inputs, tables: FaultTables) -> Plan
        requires plan { IsPlan (analysis p) }
        requires tables { AreTables (analysis p) tables }
        ensures { result ≡ analysis p }
    {
        let Inputs {
            net,
            work,
            rates,
            points,
            set,
        } = p;
        let FaultTables {
            faults,
            part_numbers,
            weights,
        } = tables;
        Plan {
            net,
            work,
            rates,
            points,
            set,
            faults,
            part_numbers,
            weights,
        }
    }

    /// The netlist.
    pub fn net(&self) -> &Netlist
        ensures value { result.now ≡ self.now.circuit }
        ensures plan { IsPlan self.now }
    {
        &self.net
    }

    /// The workload, which was made for the netlist.
    pub fn work(&self) -> &Workload
        ensures value { result.now ≡ self.now.runs }
        ensures plan { IsPlan self.now }
    {
        &self.work
    }

    /// The goals with their observation points, and the alarm points, which were made for the netlist.
    pub fn points(&self) -> &Points
        ensures value { result.now ≡ self.now.points }
        ensures plan { IsPlan self.now }
    {
        &self.points
    }

    /// The settings.
    pub fn settings(&self) -> &Settings
        ensures value { result.now ≡ self.now.settings }
        ensures plan { IsPlan self.now }
    {
        &self.set
    }

    /// The fault list of the netlist and the settings.
    pub fn faults(&self) -> &FaultList
        ensures value { result.now ≡ all_faults self.now }
        ensures plan { IsPlan self.now }
    {
        &self.faults
    }

    /// The number of batches of 64 faults, of which the last may have unused lanes.
    pub fn batches(&self) -> u32
        ensures count { result ≡ batch_count self.now }
        ensures plan { IsPlan self.now }
    {
        self.faults().batches()
    }

    /// The number of parts, of which there are at most 4,096.
    pub fn parts(&self) -> u32
        ensures count { result ≡ part_count self.now }
        ensures plan { IsPlan self.now }
    {
        self.rates.parts().len() as u32
    }

    /// A part by its number, in order of first row.
    pub fn part(&self, number: u32) -> &Part
        requires { number < part_count self.now }
        ensures { result.now ≡ part_numbered self.now number }
    {
        &self.rates.parts()[number as usize]
    }

    /// The number of the part of fault `i`: that of its net, and for a flip that of its latch's output net.
    pub fn part_of_fault(&self, i: u32) -> u32
        requires { i < fault_count self.now }
        ensures value { result ≡ part_of self.now (fault_numbered self.now i) }
        ensures within { result < part_count self.now }
    {
        self.part_numbers[i as usize]
    }

    /// The weight of fault `i`, in units of 10^-6 FIT.
    pub fn weight(&self, i: u32) -> u64
        requires { i < fault_count self.now }
        ensures { result ≡ weight self.now i }
    {
        self.weights[i as usize]
    }
}

/// Why there is no plan.
#[derive(Drop)]
pub enum PlanRefusal {
    /// There would be more than 1,048,576 faults.
    TooManyFaults,
    /// No pattern matches the name of this net, which is the first such net.
    MissingRate(NetId, Name),
    /// The part has a rate of this kind above 0, and no fault of it: the first such part, permanent before transient.
    IdleRate { part: Name, permanent: bool },
    /// Memory ran out.
    Memory(NoRoom),
}

impl From<NoRoom> for PlanRefusal {
    ghost from_gives = { λ no_room e. e ≡ Memory no_room };

    fn from(e: NoRoom) -> Self {
        PlanRefusal::Memory(e)
    }
}
