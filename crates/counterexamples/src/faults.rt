// The faults of a list that runs contradict.
ghost use Rattle.std.specs.Prelude.{◌≡◌, ◌≤◌, ◌<◌, ◌+◌, [], ℕ, List, All, IfOk, length, true};
ghost use Rattle.circuit.specs.Circuit.{Circuit};
ghost use Rattle.circuit.specs.Order.{IsOrder};
ghost use Rattle.circuit.specs.Sound.{IsNet};
ghost use Rattle.circuit.specs.declared.parts.Fault.{Fault as OneFault};
ghost use Rattle.claim_search.specs.Question.{MayBePosed};
ghost use Rattle.claim_search.specs.declared.question.Posed.{Posed as PosedOf};
ghost use Rattle.lane_words.specs.Bank.{IsBankFor, KeepsBankLoads};
ghost use Rattle.lane_words.specs.Loads.{loaded_faults};
ghost use Rattle.counterexamples.specs.Contradicted.{MarksContradicted, MarksOpen};
ghost use Rattle.counterexamples.specs.Runs.{AreLoaded, LanesContradicted};

use crate::chance::choose;
use crate::follow::follow;
use crate::judge::unalarmed_lanes;
use crate::law::contradicted_is_open;
use crate::look::{NOTHING, Seen, either_lanes};
use circuit::netlist::Netlist;
use circuit::parts::Fault;
use claim_search::Posed;
use fault_list::FaultList;
use lane_kernel::Lanes;
use lane_words::Word;
use netlist_levels::Order;
use room::{NoRoom, filled};
use std::alloc::Global;

// The most faults of a batch: lane 0 has none.
const BATCH: usize = 63;

// How many runs are tried with each batch at most.
const RUNS: u32 = 256;

// How many cycles a run has behind those that a claim needs, and the most that it has.
const MORE: u64 = 32;

const MOST: u64 = 4096;

// The faults of a batch, each alone in its lane; lane 0 has none.
fn loads_of(faults: &FaultList, batch: &[u32]) -> [[Option<Fault>; 2]; 64]
    requires few { length batch.now ≤ 63 }
    requires numbers { All (λ i. i < length faults.now) batch.now }
    ensures { AreLoaded faults.now batch.now (loaded_faults result) }
{
    let mut loads = [[None, None]; 64];
    for k in 0..batch.len() {
        loads[k + 1] = [Some(faults.fault(batch[k])), None];
    }
    loads
}

// Marks the faults of a batch whose lanes are found.
fn mark(found: u64, batch: &[u32], marks: &mut [bool])
    requires few { length batch.now ≤ 63 }
    requires inside { All (λ i. i < length marks.old) batch.now }
    ensures size { length marks.new ≡ length marks.old }
    ensures marks { (c : Circuit) (p : PosedOf) (faults : List OneFault) (loads : ℕ → List OneFault) → AreLoaded faults batch.now loads → LanesContradicted c p loads found
        → MarksContradicted c p faults marks.old → MarksContradicted c p faults marks.new }
{
    for k in 0..batch.len() {
        if found.get(k as u32 + 1) {
            marks[batch[k] as usize] = true;
        }
    }
}

// The lanes of those that are loaded that some of a few runs contradict. Where so many are found, no more runs are tried.
fn found_lanes(
    netlist: &Netlist,
    order: &Order,
    posed: &Posed<'_>,
    many: usize,
    numbers: &mut [u32],
    inputs: &mut [bool],
    lanes: &mut Lanes,
    seen: &mut [Seen],
) -> u64
    requires posed { MayBePosed netlist.now posed.now }
    requires nets { All (λ h. IsNet netlist.now h.net) posed.now.held.now }
    requires made { IsBankFor netlist.now order.now lanes.old }
    requires golden { loaded_faults lanes.old.loads 0 ≡ [] }
    requires few { length seen.old ≤ 65536 }
    requires numbers { length seen.old ≡ length numbers.old }
    ensures keeps { KeepsBankLoads lanes.old lanes.new }
    ensures size { length seen.new ≡ length seen.old }
    ensures same { length numbers.new ≡ length numbers.old }
    ensures found { LanesContradicted netlist.now posed.now (loaded_faults lanes.old.loads) result }
{
    let mut found = 0;
    for run in 0..RUNS {
        choose(run, numbers);
        let cycles = follow(netlist, order, posed, numbers, inputs, lanes, seen);
        let own = unalarmed_lanes(posed, seen, cycles);
        found = either_lanes(found, own);
        if found.count_ones() as usize >= many {
            return found;
        }
    }
    found
}

// Marks those of a batch that runs contradict.
fn try_batch(
    netlist: &Netlist,
    order: &Order,
    posed: &Posed<'_>,
    faults: &FaultList,
    batch: &[u32],
    numbers: &mut [u32],
    inputs: &mut [bool],
    lanes: &mut Lanes,
    seen: &mut [Seen],
    marks: &mut [bool],
)
    requires posed { MayBePosed netlist.now posed.now }
    requires nets { All (λ h. IsNet netlist.now h.net) posed.now.held.now }
    requires made { IsBankFor netlist.now order.now lanes.old }
    requires cycles { length seen.old ≤ 65536 }
    requires same { length seen.old ≡ length numbers.old }
    requires few { length batch.now ≤ 63 }
    requires numbers { All (λ i. i < length faults.now) batch.now }
    requires marks { length marks.old ≡ length faults.now }
    ensures made { IsBankFor netlist.now order.now lanes.new }
    ensures size { length seen.new ≡ length seen.old }
    ensures same { length numbers.new ≡ length numbers.old }
    ensures count { length marks.new ≡ length marks.old }
    ensures marks { MarksContradicted netlist.now posed.now faults.now marks.old → MarksContradicted netlist.now posed.now faults.now marks.new }
{
    lanes.load(&loads_of(faults, batch));
    let found = found_lanes(
        netlist,
        order,
        posed,
        batch.len(),
        numbers,
        inputs,
        lanes,
        seen,
    );
    mark(found, batch, marks);
}

// Marks those that runs contradict, one batch after the other.
fn try_all(
    netlist: &Netlist,
    order: &Order,
    posed: &Posed<'_>,
    faults: &FaultList,
    tried: &[u32],
    numbers: &mut [u32],
    inputs: &mut [bool],
    lanes: &mut Lanes,
    seen: &mut [Seen],
    marks: &mut [bool],
)
    requires posed { MayBePosed netlist.now posed.now }
    requires nets { All (λ h. IsNet netlist.now h.net) posed.now.held.now }
    requires made { IsBankFor netlist.now order.now lanes.old }
    requires cycles { length seen.old ≤ 65536 }
    requires same { length seen.old ≡ length numbers.old }
    requires numbers { All (λ i. i < length faults.now) tried.now }
    requires marks { length marks.old ≡ length faults.now }
    ensures count { length marks.new ≡ length marks.old }
    ensures marks { MarksContradicted netlist.now posed.now faults.now marks.old → MarksContradicted netlist.now posed.now faults.now marks.new }
{
    let mut first = 0;
    'batches: while first < tried.len() {
        let end = first + BATCH.min(tried.len() - first);
        let batch = &tried[first..end];
        try_batch(
            netlist, order, posed, faults, batch, numbers, inputs, lanes, seen, marks,
        );
        first = end;
    }
}

// Whether each held input has its later value from the first cycle that is spoken of on.
fn are_settled(posed: &Posed<'_>) -> bool
    ensures { result ≡ true → All (λ h. h.from ≤ posed.now.from) posed.now.held.now }
{
    posed.held.iter().all(|held| held.from <= posed.from)
}

// How many cycles a run has at most.
fn most_cycles(posed: &Posed<'_>) -> usize
    ensures { result ≤ 4096 }
{
    let needed = u64::from(posed.from) + u64::from(posed.window) + u64::from(posed.ahead);
    MOST.min(needed + MORE) as usize
}

/// A mark for each fault of a list that a simulated run contradicts: without the fault it is as is supposed, and with it an observation net
/// differs and no alarm comes in time. Those of these numbers are tried, 63 at once, in a few short runs whose inputs are by chance, the
/// same in each call. A fault without a mark is none of which anything is known.
pub fn contradicted(
    alloc: Global,
    netlist: &Netlist,
    order: &Order,
    posed: &Posed<'_>,
    faults: &FaultList,
    tried: &[u32],
) -> Result<Vec<bool>, NoRoom>
    requires order { IsOrder netlist.now order.now }
    requires posed { MayBePosed netlist.now posed.now }
    requires tried { All (λ i. i < length faults.now) tried.now }
    ensures size { IfOk result (λ marks. length marks.items ≡ length faults.now) }
    ensures shown { IfOk result (λ marks. MarksContradicted netlist.now posed.now faults.now marks.items) }
    ensures open { IfOk result (λ marks. MarksOpen netlist.now posed.now faults.now marks.items) }
{
    contradicted_is_open();
    let mut marks = filled(alloc, false, faults.len() as usize)?;
    if tried.is_empty() || !are_settled(posed) {
        return Ok(marks);
    }
    let mut lanes = Lanes::new(alloc, netlist, order)?;
    let mut inputs = filled(alloc, false, netlist.inputs().len())?;
    let cycles = most_cycles(posed);
    let mut numbers = filled(alloc, 0, cycles)?;
    let mut seen = filled(alloc, NOTHING, cycles)?;
    try_all(
        netlist,
        order,
        posed,
        faults,
        tried,
        &mut numbers,
        &mut inputs,
        &mut lanes,
        &mut seen,
        &mut marks,
    );
    Ok(marks)
}
