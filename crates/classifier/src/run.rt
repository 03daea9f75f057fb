// One run in all lanes.
ghost use Rattle.std.specs.Prelude.{◌≡◌, ◌≢◌, ◌<◌, ◌≤◌, ◌+◌, ◌*◌, ◌⊎◌, ℕ, Bool, List, [], Option, true, false, length, slice_index_or, take};
ghost use Rattle.circuit.specs.declared.parts.Fault.{Fault};
ghost use Rattle.circuit.specs.Circuit.{Circuit};
ghost use Rattle.workload.specs.declared.run.Run.{Run};
ghost use Rattle.workload.specs.Runs.{cycles_of, run_at};
ghost use Rattle.alarm_points.specs.FourWatches.{AreAllMadeFor, windows_at};
ghost use Rattle.alarm_points.specs.PointsKept.{ArePointsFor};
ghost use Rattle.fm_base.specs.Planes.{bit};
ghost use Rattle.classifier.specs.InRun.{AreAllOver, IsLastCycle, KeepPlace, in_run};
ghost use Rattle.testbench.specs.Load.{load_of};
ghost use Rattle.classifier.specs.Narrowed.{AreNarrowFor, GoOnIn, narrow_in_run};
ghost use Rattle.classifier.specs.declared.narrow.Narrow.{Narrow as NarrowValue};
ghost use Rattle.classifier.specs.OutOfReach.{decided_at};
ghost use Rattle.classifier.specs.declared.decided.Decided.{Decided as DecidedValue};
ghost use Rattle.classifier.specs.Seen.{AllKeepIntervals, Begins, HasBeenRun, HaveAllSeen, is_decided, is_dropped, known_at, left_at};
ghost use Rattle.classifier.specs.Stretch.{AreAllWatched, AreForWords, AreMadeForBench, IsStretch, IsUnderWay, under_way};

use crate::decided::Decided;
use crate::followed::Followed;
use crate::narrow::Narrow;
use crate::points::either_lanes;
use crate::see::see_cycle;
use alarm_points::Points;
use alarm_points::windows::Windows;
use differential_kernel::DifferentialLanes;
use fm_base::Steps;
use lane_words::Word;
use std::sync::ledger::Ledger;
use testbench::Testbench;
use workload::run::Kind;

// After so many cycles it is looked whether few lanes are left.
const STRETCH: u32 = 32;

// Forgets what was seen of earlier runs.
fn start_windows(points: &Points, windows: &mut [Windows], left: &mut [u64])
    requires left { length left.old ≡ length windows.old }
    requires made { AreAllMadeFor points.now windows.old }
    ensures seen { (c : Circuit) (run : Run) (faults : List (List (Option Fault))) (decided : List DecidedValue) → HaveAllSeen c points.now run faults decided 0 windows.new left.new }
    ensures intervals { AllKeepIntervals windows.old windows.new }
{
    for word in 0..windows.len() {
        windows[word].start();
        left[word] = 0;
    }
}

// Drops some lanes of a word, where there are more than before.
fn drop_more<F: Followed>(lanes: &mut F, word: u32, before: u64, out: u64)
    requires { word < F.words }
    ensures place { KeepPlace (F.in_run lanes.old) (F.in_run lanes.new) }
    ensures others { (other k : ℕ) → other < F.words → k < 64 → (other ≢ word) ⊎ (bit out k ≡ false)
        → (F.in_run lanes.new).faults other k ≡ (F.in_run lanes.old).faults other k }
    ensures dropped { (other k : ℕ) → other < F.words → k < 64 → ((F.in_run lanes.new).faults other k ≡ (F.in_run lanes.old).faults other k)
        ⊎ ((other ≡ word) × (bit out k ≡ true) × ((F.in_run lanes.new).faults other k ≡ [])) }
{
    if out != before {
        lanes.drop_lanes(word, out);
    }
}

// The lanes of a word that have left a run: those that had, or are noticed; and those whose notice is decided before, and that are
// dangerous whatever comes.
fn all_left(decided: Decided, windows: &Windows, left: u64) -> u64
    ensures { (k : ℕ) → bit result k ≡ is_dropped decided.notice windows.now left k }
{
    either_lanes(left, decided.notice & windows.settled())
}

// Drops the lanes of each word in which nothing more decides, where `seen` are those that had left or are noticed. Those that have
// left are then in `left`.
fn leave_words<F: Followed>(
    decided: &[Decided],
    seen: &[u64; 4],
    windows: &[Windows],
    lanes: &mut F,
    left: &mut [u64],
)
    requires { (length decided.now ≡ F.words) × (length windows.now ≡ F.words) × (length left.old ≡ F.words) }
    ensures place { KeepPlace (F.in_run lanes.old) (F.in_run lanes.new) }
    ensures left { (word k : ℕ) → word < F.words
        → bit (left_at left.new word) k ≡ is_dropped (known_at decided.now word) (windows_at windows.now word) (left_at seen.now word) k }
    ensures dropped { (word k : ℕ) → word < F.words → k < 64 → ((F.in_run lanes.new).faults word k ≡ (F.in_run lanes.old).faults word k)
        ⊎ ((bit (left_at left.new word) k ≡ true) × ((F.in_run lanes.new).faults word k ≡ [])) }
{
    for word in 0..F::words() {
        let at = word as usize;
        let out = all_left(decided[at], &windows[at], seen[at]);
        drop_more(lanes, word, left[at], out);
        left[at] = out;
    }
}

// Shows the last cycle of a run of this kind to the windows of each word, and drops the lanes in which nothing more decides. `row`
// has the golden values of the cycle.
fn see_words<F: Followed>(
    points: &Points,
    kind: Kind,
    row: &[u64],
    decided: &[Decided],
    lanes: &mut F,
    windows: &mut [Windows],
    left: &mut [u64],
)
    requires points { ArePointsFor (F.in_run lanes.old).load.circuit points.now }
    requires words { AreForWords F.words points.now decided.now windows.old left.old }
    ensures place { KeepPlace (F.in_run lanes.old) (F.in_run lanes.new) }
    ensures intervals { AllKeepIntervals windows.old windows.new }
    ensures seen { (run : Run) (faults : List (List (Option Fault))) (t : ℕ) → IsLastCycle kind run t row.now (F.in_run lanes.old)
        → AreAllWatched points.now run F.words faults decided.now t (under_way (F.in_run lanes.old) windows.old left.old)
        → AreAllWatched points.now run F.words faults decided.now (t + 1) (under_way (F.in_run lanes.new) windows.new left.new) }
{
    let seen = see_cycle(lanes, points, kind, row, windows, left);
    leave_words(decided, &seen, windows, lanes, left);
}

// Simulates the next cycle of a run, and shows it to the windows of each word.
fn run_cycle<F: Followed, L: Ledger>(
    bench: &Testbench<'_>,
    run: u32,
    t: u32,
    decided: &[Decided],
    lanes: &mut F,
    windows: &mut [Windows],
    left: &mut [u64],
    steps: &mut Steps<L>,
)
    requires from { IsUnderWay bench.now run F.words decided.now t (under_way (F.in_run lanes.old) windows.old left.old) }
    requires more { t < cycles_of (run_at bench.now.runs run) }
    ensures stretch { IsStretch bench.now run F.words decided.now t (t + 1) (under_way (F.in_run lanes.old) windows.old left.old)
        (under_way (F.in_run lanes.new) windows.new left.new) }
    ensures cost { steps.new ≤ steps.old + length bench.now.circuit.tables }
{
    let row = bench.row(run, t);
    lanes.advance(bench, row, steps);
    see_words(
        bench.points(),
        bench.kind(run),
        row,
        decided,
        lanes,
        windows,
        left,
    );
}

// The lanes of a word that are decided before a run of this kind.
fn left_out(kind: Kind, decided: Decided) -> u64
    ensures { (k : ℕ) → bit result k ≡ is_decided kind decided k }
{
    match kind {
        Kind::Mission => decided.danger & decided.notice,
        Kind::Test => decided.notice,
    }
}

// Drops the lanes that are decided before a run of this kind.
fn drop_decided<F: Followed>(kind: Kind, decided: &[Decided], lanes: &mut F)
    requires { length decided.now ≡ F.words }
    ensures place { KeepPlace (F.in_run lanes.old) (F.in_run lanes.new) }
    ensures begin { (word k : ℕ) → word < F.words → k < 64
        → Begins kind (decided_at decided.now word) k ((F.in_run lanes.old).faults word k) ((F.in_run lanes.new).faults word k) }
{
    for word in 0..F::words() {
        let out = left_out(kind, decided[word as usize]);
        drop_more(lanes, word, 0, out);
    }
}

// Whether a run goes on in cycle t, up to a bound: it isn't over.
fn goes_on<F: Followed>(lanes: &F, t: u32, bound: u32) -> bool
    ensures more { result ≡ true → t < bound }
    ensures over { (vectors : List (List Bool)) → result ≡ false → t < bound → (F.in_run lanes.now).IsAfter vectors
        → AreAllOver F.words (F.in_run lanes.now) vectors }
{
    if t < bound { !lanes.is_over() } else { false }
}

// Simulates the cycles of a run from one on, up to a bound or until the run is over, shows each to the windows of each word, and answers
// how many cycles of the run are simulated then.
fn follow<F: Followed, L: Ledger>(
    bench: &Testbench<'_>,
    run: u32,
    from: u32,
    bound: u32,
    decided: &[Decided],
    lanes: &mut F,
    windows: &mut [Windows],
    left: &mut [u64],
    steps: &mut Steps<L>,
) -> u32
    requires from { IsUnderWay bench.now run F.words decided.now from (under_way (F.in_run lanes.old) windows.old left.old) }
    requires bound { (from ≤ bound) × (bound ≤ cycles_of (run_at bench.now.runs run)) }
    ensures stretch { IsStretch bench.now run F.words decided.now from result (under_way (F.in_run lanes.old) windows.old left.old)
        (under_way (F.in_run lanes.new) windows.new left.new) }
    ensures within { (from ≤ result) × (result ≤ bound) }
    ensures over { result < bound → AreAllOver F.words (F.in_run lanes.new) (take result (run_at bench.now.runs run).vectors) }
    ensures cost { steps.new + from * length bench.now.circuit.tables ≤ steps.old + result * length bench.now.circuit.tables }
{
    let mut t = from;
    'clock: while goes_on(lanes, t, bound) {
        run_cycle(bench, run, t, decided, lanes, windows, left, steps);
        t += 1;
    }
    t
}

// The end of the stretch of cycles that begins here.
fn stretch_end(t: u32, cycles: u32) -> u32
    requires { t < cycles }
    ensures more { t < result }
    ensures within { result ≤ cycles }
{
    if cycles - t <= STRETCH {
        cycles
    } else {
        t + STRETCH
    }
}

// Whether four words go on in one: at most 64 of their lanes have a fault in force.
fn goes_narrow<W: Word>(narrow: &mut [Narrow], lanes: &DifferentialLanes<W>) -> bool
    requires { AreNarrowFor lanes.now.circuit lanes.now.order narrow.old }
    ensures made { AreNarrowFor lanes.now.circuit lanes.now.order narrow.new }
    ensures some { result ≡ true → 0 < length narrow.new }
    ensures four { result ≡ true → W.words ≡ 4 }
    ensures goes_on { (none : NarrowValue) → result ≡ true
        → GoOnIn (in_run W.lanes W.lane_bit lanes.now) (narrow_in_run (slice_index_or narrow.new 0 none)) }
{
    if narrow.len() > 0 && W::words() == 4 {
        narrow[0].take(lanes)
    } else {
        false
    }
}

/// Simulates a run from its start in all lanes that aren't decided before, and shows each cycle to the windows of each word. A lane
/// leaves it, and is dropped, once nothing more of the run decides: it is noticed; or its notice is decided before, and it is dangerous
/// whatever comes. `left` are then the lanes of each word that have left: of those whose notice isn't decided before, the ones that the run
/// gives notice of. The run ends where it is over in all lanes, and once no more than 64 lanes of four words are left, these go on in the
/// one of `narrow`, where there is one. It takes at most one step for each table and cycle. What lanes, windows and `left` held before is
/// no matter.
pub fn watch_run<W: Word, L: Ledger>(
    bench: &Testbench<'_>,
    run: u32,
    decided: &[Decided],
    lanes: &mut DifferentialLanes<W>,
    narrow: &mut [Narrow],
    windows: &mut [Windows],
    left: &mut [u64],
    steps: &mut Steps<L>,
)
    requires run { run < length bench.now.runs }
    requires made { AreMadeForBench bench.now W.words lanes.old narrow.old windows.old }
    requires counts { (length decided.now ≡ W.words) × (length left.old ≡ W.words) }
    ensures load { load_of lanes.new ≡ load_of lanes.old }
    ensures narrow { AreNarrowFor bench.now.circuit bench.now.order narrow.new }
    ensures seen { HasBeenRun bench.now.circuit bench.now.points (run_at bench.now.runs run) W.words (load_of lanes.old) decided.now windows.new left.new }
    ensures intervals { AllKeepIntervals windows.old windows.new }
    ensures cost { steps.new ≤ steps.old + cycles_of (run_at bench.now.runs run) * length bench.now.circuit.tables }
{
    lanes.start();
    start_windows(bench.points(), windows, left);
    drop_decided(bench.kind(run), decided, lanes);
    let cycles = bench.cycles(run);
    let mut t = 0;
    'stretches: while t < cycles {
        let bound = stretch_end(t, cycles);
        t = follow(bench, run, t, bound, decided, lanes, windows, left, steps);
        if t < bound {
            return;
        }
        if t < cycles && goes_narrow(narrow, lanes) {
            let _end = follow(
                bench,
                run,
                t,
                cycles,
                decided,
                &mut narrow[0],
                windows,
                left,
                steps,
            );
            return;
        }
    }
}
