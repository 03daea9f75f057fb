// A result file by other rates.
ghost use Rattle.std.specs.Prelude.{◌≡◌, IfOk};
ghost use Rattle.campaign_plan.specs.Kept.{AreSettings};
ghost use Rattle.command_reads.specs.Answers.{IsSound, KeepsAs, ReweighsAs, StayDistinct, WeighsAs, refused_new};
ghost use Rattle.command_reads.specs.Files.{AreShort, exchanged, reads_by};
ghost use Rattle.command_reads.specs.FirstRefusal.{new_file as new_file_of, of_new as of_new_rates};

use crate::begun::rows_of;
use crate::files::Reads;
use crate::planned::{Planned, judge_plan};
use campaign_plan::Settings;
use commands::Which;
use fault_list::Flips;
use fm_base::Seq;
use refusals::refused::Refused;
use refusals::status::Status;
use result_file::{KeptRows, Row, RowList};
use result_reweigh::reweighed_rows;
use room::{NoRoom, from_slice};
use std::alloc::Global;

/// The plan with the other rates, and the rows of the result file by its weights.
#[derive(Drop)]
pub struct Reweighed {
    pub planned: Planned,
    pub rows: RowList,
}

// A copy of these cycles.
fn cycles_again(alloc: Global, cycles: &Flips) -> Result<Flips, NoRoom>
    ensures { IfOk result (λ again. again ≡ cycles.now) }
{
    Ok(Seq::from_vec(from_slice(alloc, cycles.as_slice())?))
}

// A copy of these settings.
fn settings_again(alloc: Global, set: &Settings) -> Result<Settings, NoRoom>
    ensures { IfOk result (λ again. again ≡ set.now) }
{
    let flips = cycles_again(alloc, &set.flips)?;
    let pulses = cycles_again(alloc, &set.pulses)?;
    Ok(Settings {
        ftti: set.ftti,
        flips,
        stretch: set.stretch,
        pulses,
        asil: set.asil,
    })
}

// The file that was meant, where NEWRATES stood in the place of RATES.
fn new_file(file: Which) -> Which
    ensures { result ≡ new_file_of file }
{
    match file {
        Which::Rates => Which::NewRates,
        other => other,
    }
}

// A refusal of what stood in the place of RATES.
fn of_new(status: Status) -> Status
    ensures { result ≡ of_new_rates status }
{
    match status {
        Status::Rates(fault) => Status::NewRates(fault),
        Status::Plan(cause) => Status::NewPlan(cause),
        Status::TooLong(file) => Status::TooLong(new_file(file)),
        Status::ReadFault(file) => Status::ReadFault(new_file(file)),
        other => other,
    }
}

// The same.
fn refused_of_new(refused: Refused) -> Refused
    ensures { result ≡ refused_new refused }
{
    match refused {
        Refused::By(status) => Refused::By(of_new(status)),
        Refused::Looped { walk, net } => Refused::Looped { walk, net },
    }
}

// What is kept of the result file, by the plan with the rates that it was made with.
fn kept_before(
    alloc: Global,
    netlist: &str,
    set: Settings,
    reads: &Reads,
) -> Result<KeptRows, Refused>
    requires settings { AreSettings set }
    requires short { AreShort (reads_by reads.now) }
    ensures { KeepsAs netlist.now set (reads_by reads.now) result }
{
    let planned = judge_plan(alloc, netlist, set, reads)?;
    let kept = rows_of(alloc, Which::First, &planned, reads);
    drop(planned);
    match kept {
        Ok(kept) => Ok(kept),
        Err(status) => Err(Refused::By(status)),
    }
}

// The plan of the four files, and these rows by its weights.
fn weighed_by(
    alloc: Global,
    netlist: &str,
    set: Settings,
    reads: &Reads,
    rows: &[Row],
) -> Result<Reweighed, Refused>
    requires settings { AreSettings set }
    requires short { AreShort (reads_by reads.now) }
    requires distinct { StayDistinct netlist.now set (reads_by reads.now) rows.now }
    ensures weighs { WeighsAs netlist.now set (reads_by reads.now) rows.now result }
    ensures sound { IfOk result (λ made. IsSound (reads_by reads.now) made.planned) }
{
    let planned = judge_plan(alloc, netlist, set, reads)?;
    match reweighed_rows(alloc, &planned.plan, rows) {
        Ok(rows) => Ok(Reweighed { planned, rows }),
        Err(no_room) => {
            drop(planned);
            Err(Refused::By(Status::Memory(no_room)))
        }
    }
}

/// The plan of the four files that were read with the other rates in the place of the rates, and by its weights the rows of the result
/// file of the plan with the rates.
pub(crate) fn judge_reweighed(
    alloc: Global,
    netlist: &str,
    set: Settings,
    reads: Reads,
) -> Result<Reweighed, Refused>
    requires settings { AreSettings set }
    requires short { AreShort (reads_by reads) }
    ensures reweighs { ReweighsAs netlist.now set (reads_by reads) result }
    ensures sound { IfOk result (λ made. IsSound (exchanged (reads_by reads)) made.planned) }
{
    let again = settings_again(alloc, &set)?;
    let kept = kept_before(alloc, netlist, set, &reads)?;
    let reads = reads.exchanged();
    match weighed_by(alloc, netlist, again, &reads, kept.rows.as_slice()) {
        Ok(made) => Ok(made),
        Err(refused) => Err(refused_of_new(refused)),
    }
}
