// The lines of refusals.
ghost use Rattle.std.specs.Prelude.{◌≡◌, ◌∷◌, ◌++◌, [], map, codes, decimal, if◌then◌else◌};
ghost use Rattle.fm_base.specs.Text.{line, hex};
ghost use Rattle.refusals.specs.Said.{IsSaid, shown_bench_net as bench_net_behind, shown_net as net_behind};
ghost use Rattle.refusals.specs.RefusalLines.{bench_kind, netlist_kind, workload_kind as word_of_workload, rates_kind as word_of_rates, points_kind as word_of_points, held_kind as word_of_held, refused};

use alarm_points::{PointsFault, PointsKind};
use bench_reader::{BenchFault, BenchKind};
use blif_text::{NetlistFault, NetlistKind};
use fm_shelf::lines::write_line;
use fm_shelf::shelf::Sink;
use held_inputs::HeldKind;
use itoa::Buffer;
use rate_table::{RatesFault, RatesKind};
use workload::file::{WorkloadFault, WorkloadKind};

// Writes a line of words. Where that fails there is nobody to tell: the status of the refusal stays.
pub(crate) fn say<O: Sink>(out: &mut O, words: &[&[u8]])
    ensures { IsSaid (O.seen out.old) (O.seen out.new) (line (map (λ word. word.now) words.now)) }
{
    let _ = write_line(out, words);
}

// Writes the line of a file's refusal: which file, the line or row, and the kind.
pub(crate) fn refuse_row<O: Sink>(out: &mut O, file: &[u8], number: u32, kind: &[u8])
    ensures { IsSaid (O.seen out.old) (O.seen out.new)
        (refused (file.now ∷ decimal number ∷ kind.now ∷ [])) }
{
    let mut digits = Buffer::new();
    say(
        out,
        &[b"refused:", file, digits.format(number).as_bytes(), kind],
    )
}

// The same with a name behind it.
fn refuse_named<'a, O: Sink>(
    out: &mut O,
    file: &'a [u8],
    number: u32,
    kind: &'a [u8],
    name: &'a [u8],
)
    ensures { IsSaid (O.seen out.old) (O.seen out.new)
        (refused (file.now ∷ decimal number ∷ kind.now ∷ name.now ∷ [])) }
{
    let mut digits = Buffer::new();
    say(
        out,
        &[
            b"refused:",
            file,
            digits.format(number).as_bytes(),
            kind,
            name,
        ],
    )
}

// The word of a kind of netlist fault.
fn netlist_word(kind: &NetlistKind) -> &'static [u8]
    ensures { netlist_kind kind.now ≡ result.now ++ net_behind kind.now }
{
    match kind {
        NetlistKind::NoModel => b"NoModel",
        NetlistKind::BadToken => b"BadToken",
        NetlistKind::Directive => b"Directive",
        NetlistKind::BadRow => b"BadRow",
        NetlistKind::MixedPlane => b"MixedPlane",
        NetlistKind::BadLatch => b"BadLatch",
        NetlistKind::LevelLatch => b"LevelLatch",
        NetlistKind::TooWide => b"TooWide",
        NetlistKind::TwoModels => b"TwoModels",
        NetlistKind::UnknownModel => b"UnknownModel",
        NetlistKind::BadFormal => b"BadFormal",
        NetlistKind::Unbound => b"Unbound",
        NetlistKind::Recursive => b"Recursive",
        NetlistKind::TooDeep => b"TooDeep",
        NetlistKind::TooLarge => b"TooLarge",
        NetlistKind::TwoClocks => b"TwoClocks",
        NetlistKind::BadClock => b"BadClock",
        NetlistKind::ClockRead => b"ClockRead",
        NetlistKind::TwoDrivers => b"TwoDrivers",
        NetlistKind::Undriven(_) => b"Undriven",
    }
}

pub(crate) fn refuse_netlist<O: Sink>(out: &mut O, fault: &NetlistFault)
    ensures { IsSaid (O.seen out.old) (O.seen out.new)
        (refused (codes "netlist line" ∷ decimal fault.now.line ∷ netlist_kind fault.now.kind ∷ [])) }
{
    let word = netlist_word(&fault.kind);
    match &fault.kind {
        NetlistKind::Undriven(net) => {
            refuse_named(out, b"netlist line", fault.line, word, net.as_slice())
        }
        _ => refuse_row(out, b"netlist line", fault.line, word),
    }
}

// The word of a kind of fault of a `.bench` file.
fn bench_word(kind: &BenchKind) -> &'static [u8]
    ensures { bench_kind kind.now ≡ result.now ++ bench_net_behind kind.now }
{
    match kind {
        BenchKind::BadLine => b"BadLine",
        BenchKind::BadGate => b"BadGate",
        BenchKind::BadCount => b"BadCount",
        BenchKind::TooWide => b"TooWide",
        BenchKind::TooLarge => b"TooLarge",
        BenchKind::TwoDrivers => b"TwoDrivers",
        BenchKind::Undriven(_) => b"Undriven",
    }
}

pub(crate) fn refuse_bench<O: Sink>(out: &mut O, fault: &BenchFault)
    ensures { IsSaid (O.seen out.old) (O.seen out.new)
        (refused (codes "bench line" ∷ decimal fault.now.line ∷ bench_kind fault.now.kind ∷ [])) }
{
    let word = bench_word(&fault.kind);
    match &fault.kind {
        BenchKind::Undriven(net) => {
            refuse_named(out, b"bench line", fault.line, word, net.as_slice())
        }
        _ => refuse_row(out, b"bench line", fault.line, word),
    }
}

pub(crate) fn workload_kind(kind: WorkloadKind) -> &'static [u8]
    ensures { result.now ≡ word_of_workload kind }
{
    match kind {
        WorkloadKind::BadCsv => b"BadCsv",
        WorkloadKind::BadColumn => b"BadColumn",
        WorkloadKind::MissingInput => b"MissingInput",
        WorkloadKind::SplitName => b"SplitName",
        WorkloadKind::BadKind => b"BadKind",
        WorkloadKind::BadBit => b"BadBit",
        WorkloadKind::TooLarge => b"TooLarge",
        WorkloadKind::Empty => b"Empty",
    }
}

pub(crate) fn rates_kind(kind: RatesKind) -> &'static [u8]
    ensures { result.now ≡ word_of_rates kind }
{
    match kind {
        RatesKind::BadCsv => b"BadCsv",
        RatesKind::BadPart => b"BadPart",
        RatesKind::BadRole => b"BadRole",
        RatesKind::BadCovered => b"BadCovered",
        RatesKind::BadRate => b"BadRate",
        RatesKind::TwoMeanings => b"TwoMeanings",
        RatesKind::TooLarge => b"TooLarge",
    }
}

pub(crate) fn points_kind(kind: PointsKind) -> &'static [u8]
    ensures { result.now ≡ word_of_points kind }
{
    match kind {
        PointsKind::BadCsv => b"BadCsv",
        PointsKind::BadKind => b"BadKind",
        PointsKind::UnknownNet => b"UnknownNet",
        PointsKind::Twice => b"Twice",
        PointsKind::TooLarge => b"TooLarge",
        PointsKind::NoObserve => b"NoObserve",
        PointsKind::BadGoal => b"BadGoal",
        PointsKind::BadInterval => b"BadInterval",
    }
}

pub(crate) fn held_kind(kind: HeldKind) -> &'static [u8]
    ensures { result.now ≡ word_of_held kind }
{
    match kind {
        HeldKind::BadCsv => b"BadCsv",
        HeldKind::UnknownInput => b"UnknownInput",
        HeldKind::Twice => b"Twice",
        HeldKind::TooLarge => b"TooLarge",
        HeldKind::BadFrom => b"BadFrom",
        HeldKind::BadBefore => b"BadBefore",
        HeldKind::NoCycleBefore => b"NoCycleBefore",
        HeldKind::BadValue => b"BadValue",
    }
}
