// The line of a status.
ghost use Rattle.std.specs.Prelude.{◌≡◌, ◌∷◌, [], codes, if◌then◌else◌};
ghost use Rattle.circuit.specs.Circuit.{Circuit};
ghost use Rattle.fm_shelf.specs.Content.{Content};
ghost use Rattle.refusals.specs.Said.{IsSaid};
ghost use Rattle.refusals.specs.Refusals.{status_of, HasItsNets, IsSaidOf};
ghost use Rattle.fm_base.specs.Names.{Bytes};
ghost use Rattle.commands.specs.Commands.{name_by};
ghost use Rattle.refusals.specs.RefusalLines.{plan_line, refused, refusal_line};

use crate::lines::{
    refuse_bad_row, refuse_foreign, refuse_incomplete, refuse_planes, refuse_window,
};
use crate::refusal::{
    held_kind, points_kind, rates_kind, refuse_bench, refuse_netlist, refuse_row, say,
    workload_kind,
};
use crate::refused::Refused;
use crate::status::Status;
use crate::walk::refuse_loop;
use campaign_plan::PlanRefusal;
use circuit::parts::Name;
use claim_search::Contradiction;
use commands::{FileNames, Which};
use fm_shelf::shelf::Sink;
use pair_list::PairRefusal;
use result_file::{FalseRow, ResultRefusal};
use result_merge::MergeRefusal;

// The name of one of the files.
fn file_name<'a>(names: &FileNames<'a>, which: Which) -> &'a [u8]
    ensures { result.now ≡ name_by names.now which }
{
    names.of(which).as_bytes()
}

fn rate_word(permanent: bool) -> &'static [u8]
    ensures { result.now ≡ (if permanent then codes "permanent" else codes "transient") }
{
    if permanent {
        b"permanent"
    } else {
        b"transient"
    }
}

// The line of a part that has a rate and no fault of its kind.
fn refuse_idle<'a, O: Sink>(out: &mut O, part: &'a [u8], has_rate: &'a [u8], kind: &'a [u8])
    ensures { IsSaid (O.seen out.old) (O.seen out.new)
        (refused (codes "part" ∷ part.now ∷ has_rate.now ∷ kind.now ∷ codes "rate and no such fault" ∷ [])) }
{
    say(
        out,
        &[
            b"refused:",
            b"part",
            part,
            has_rate,
            kind,
            b"rate and no such fault",
        ],
    )
}

// The line of what makes no plan, by the words of a net that has no rate, and by those of a part that has an idle one.
fn refuse_plan<'a, O: Sink>(
    out: &mut O,
    cause: &'a PlanRefusal,
    no_rate: &'a [u8],
    has_rate: &'a [u8],
)
    ensures { IsSaid (O.seen out.old) (O.seen out.new) (plan_line no_rate.now has_rate.now cause.now) }
{
    match cause {
        PlanRefusal::TooManyFaults => say(out, &[b"refused:", b"more than 1048576 faults"]),
        PlanRefusal::MissingRate(_, net) => say(out, &[b"refused:", no_rate, net.as_slice()]),
        PlanRefusal::IdleRate { part, permanent } => {
            refuse_idle(out, part.as_slice(), has_rate, rate_word(*permanent))
        }
        PlanRefusal::Memory(_) => say(out, &[b"refused:", b"out of memory"]),
    }
}

// The line of what is no result file of the plan.
fn refuse_result<O: Sink>(out: &mut O, cause: &ResultRefusal)
    ensures { (file : Which → Bytes) (c : Circuit) → IsSaid (O.seen out.old) (O.seen out.new) (refusal_line file c (Status.Result cause.now)) }
{
    match cause {
        ResultRefusal::Foreign { found, own } => refuse_foreign(out, found.bytes(), own.bytes()),
        ResultRefusal::BadRow { number, why } => refuse_bad_row(out, *number, *why),
    }
}

// The line of rows that aren't merged.
fn refuse_merge<O: Sink>(out: &mut O, cause: MergeRefusal)
    ensures { (file : Which → Bytes) (c : Circuit) → IsSaid (O.seen out.old) (O.seen out.new) (refusal_line file c (Status.Merge cause)) }
{
    match cause {
        MergeRefusal::Differs {
            batch,
            first,
            second,
        } => refuse_planes(out, b"batch", batch, b"first", first, b"second", second),
    }
}

// The line of rows that make no pairs.
fn refuse_pairs<O: Sink>(out: &mut O, cause: PairRefusal)
    ensures { (file : Which → Bytes) (c : Circuit) → IsSaid (O.seen out.old) (O.seen out.new) (refusal_line file c (Status.Pairs cause)) }
{
    match cause {
        PairRefusal::Incomplete { have, batches } => refuse_incomplete(out, have, batches),
        PairRefusal::TooMany => say(out, &[b"refused:", b"more than 1048576 pairs"]),
    }
}

// The line of a row whose planes aren't those that were computed.
fn refuse_disagreeing<O: Sink>(out: &mut O, row: &FalseRow)
    ensures { (file : Which → Bytes) (c : Circuit) → IsSaid (O.seen out.old) (O.seen out.new) (refusal_line file c (Status.Disagrees row.now)) }
{
    let (kept, computed) = (row.kept, row.computed);
    refuse_planes(
        out,
        b"batch",
        row.batch,
        b"kept",
        kept,
        b"computed",
        computed,
    )
}

// The line of held inputs and silent alarms that contradict each other.
fn refuse_contradiction<O: Sink>(out: &mut O, cause: Contradiction)
    ensures { (file : Which → Bytes) (c : Circuit) → IsSaid (O.seen out.old) (O.seen out.new) (refusal_line file c (Status.Contradiction cause)) }
{
    match cause {
        Contradiction::Held => say(out, &[b"refused:", b"no run has the held inputs"]),
        Contradiction::Alarms => say(
            out,
            &[b"refused:", b"each run raises an alarm without a fault"],
        ),
    }
}

/// Writes the line of a refusal. `nets` has the names of the netlist's nets, for the line of a loop.
pub fn refuse<O: Sink>(out: &mut O, names: &FileNames, nets: &[Name], status: &Status)
    ensures { (c : Circuit) → c.names ≡ nets.now
        → IsSaid (O.seen out.old) (O.seen out.new) (refusal_line (name_by names.now) c status.now) }
{
    match status {
        Status::Done => (),
        Status::OutFault => (),
        Status::ResultFault => {
            let file = file_name(names, Which::Result);
            say(out, &[b"refused:", b"cannot write", file])
        }
        Status::Usage => say(out, &[b"refused:", b"usage"]),
        Status::Memory(_) => say(out, &[b"refused:", b"out of memory"]),
        Status::ManyOutputs => say(out, &[b"refused:", b"more than 1024 outputs"]),
        Status::TooLong(which) => {
            let file = file_name(names, *which);
            say(out, &[b"refused:", file, b"is longer than 67108864 bytes"])
        }
        Status::ReadFault(which) => say(
            out,
            &[b"refused:", b"cannot read", file_name(names, *which)],
        ),
        Status::Netlist(fault) => refuse_netlist(out, fault),
        Status::Bench(fault) => refuse_bench(out, fault),
        Status::Loop(walk) => refuse_loop(out, nets, walk.as_slice()),
        Status::Rates(fault) => refuse_row(out, b"rates row", fault.row, rates_kind(fault.kind)),
        Status::NewRates(fault) => {
            let kind = rates_kind(fault.kind);
            refuse_row(out, b"new rates row", fault.row, kind)
        }
        Status::Points(fault) => refuse_row(out, b"points row", fault.row, points_kind(fault.kind)),
        Status::Held(fault) => refuse_row(out, b"held row", fault.row, held_kind(fault.kind)),
        Status::Workload(fault) => {
            let kind = workload_kind(fault.kind);
            refuse_row(out, b"workload row", fault.row, kind)
        }
        Status::Plan(cause) => refuse_plan(out, cause, b"no rate for net", b"has a"),
        Status::NewPlan(cause) => refuse_plan(out, cause, b"no new rate for net", b"has a new"),
        Status::Result(cause) => refuse_result(out, cause),
        Status::Disagrees(row) => refuse_disagreeing(out, row),
        Status::Merge(cause) => refuse_merge(out, *cause),
        Status::Pairs(cause) => refuse_pairs(out, *cause),
        Status::NoRun => say(out, &[b"refused:", b"no such run"]),
        Status::NoFault => say(out, &[b"refused:", b"no such fault"]),
        Status::NoNet => say(out, &[b"refused:", b"no such net"]),
        Status::NoAlarm => say(out, &[b"refused:", b"no alarm point"]),
        Status::LongWindow { window, least } => refuse_window(out, *window, *least),
        Status::Contradiction(cause) => refuse_contradiction(out, *cause),
    }
}

/// Writes the line of a refusal, and answers its status.
pub fn say_refused<O: Sink>(out: &mut O, names: &FileNames, refused: Refused) -> Status
    ensures status { result ≡ status_of refused }
    ensures said { (held : Content) → HasItsNets (name_by names.now Which.Netlist) held refused
        → IsSaidOf held (O.seen out.old) (O.seen out.new) (name_by names.now) (status_of refused) }
{
    match refused {
        Refused::By(status) => {
            refuse(out, names, &[], &status);
            status
        }
        Refused::Looped { walk, net } => {
            let status = Status::Loop(walk);
            refuse(out, names, net.names(), &status);
            status
        }
    }
}
