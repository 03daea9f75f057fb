// A window over the cycles of a run, for one safety goal.
ghost use Rattle.std.specs.Prelude.{length, ◌≡◌, ◌<◌, ◌≤◌, ◌+◌, ◌%◌, ◌∷◌, ◌++◌, [], ℕ, List, IfOk, true, min, not, ◌&&◌, ◌||◌, nat_lt, slice_index, if◌then◌else◌};
ghost use Rattle.fm_base.specs.Planes.{bit};
ghost use Rattle.alarm_points.specs.Watch.{IsAfterPairs, Pair, lane_goes_unalarmed};

use room::{NoRoom, filled};
use std::alloc::Global;
use std::marker::Model;

// The place after this one in a ring.
fn next_place(place: u32, last: u32) -> u32
    requires { place ≤ last }
    ensures within { result ≤ last }
    ensures next { (n : ℕ) → place ≡ n % (last + 1) → result ≡ (n + 1) % (last + 1) }
{
    if place < last { place + 1 } else { 0 }
}

// One more, up to the most.
fn count_up(count: u32, most: u32) -> u32
    requires { count ≤ most }
    ensures { result ≡ min (count + 1) most }
{
    if count < most { count + 1 } else { most }
}

// The lanes that differ in the cycle at this place of the ring, where its interval ends now.
fn due(recent: &[u64], place: u32, count: u32, ftti: u32) -> u64
    requires { place < length recent.now }
    ensures { result ≡ (if nat_lt count ftti then 0 else slice_index recent.now place) }
{
    if count < ftti {
        0
    } else {
        recent[place as usize]
    }
}

// The lanes that are settled, and those that differ and in which no alarm was raised.
fn with_quiet(settled: u64, differing: u64, raised: u64) -> u64
    ensures { (k : ℕ) → k < 64 → bit result k ≡ (bit settled k || (bit differing k && not (bit raised k))) }
{
    settled | (differing & !raised)
}

/// What one safety goal sees of a run in 64 lanes, cycle by cycle, with its fault tolerant time interval in clock cycles.
/// Bit k of each plane is that of lane k. No call but `new` takes memory.
#[derive(Drop)]
pub struct Window {
    ftti: u32,
    recent: Vec<u64>,
    place: u32,
    count: u32,
    differed: u64,
    raised: u64,
    settled: u64,
}

impl Model for Window {
    ghost use Rattle.alarm_points.specs.Watch.{IsWatch, Watch};

    ghost Value = { Watch };

    ghost view = { λ w. record {
      ftti = w.ftti;
      recent = w.recent.items;
      place = w.place;
      count = w.count;
      differed = w.differed;
      raised = w.raised;
      settled = w.settled;
    } };

    ghost invariant = { λ w. IsWatch (record {
      ftti = w.ftti;
      recent = w.recent.items;
      place = w.place;
      count = w.count;
      differed = w.differed;
      raised = w.raised;
      settled = w.settled;
    }) };
}

impl Window {
    /// A window for an interval, which has seen nothing yet. It takes one word for each cycle of the interval, and one more.
    pub fn new(alloc: Global, ftti: u32) -> Result<Self, NoRoom>
        ensures interval { IfOk result (λ window. window.ftti ≡ ftti) }
        ensures start { IfOk result (λ window. IsAfterPairs [] window) }
    {
        Ok(Window {
            ftti,
            recent: filled(alloc, 0, ftti as usize + 1)?,
            place: 0,
            count: 0,
            differed: 0,
            raised: 0,
            settled: 0,
        })
    }

    /// Forgets what was seen: the next cycle is the first of a run.
    pub fn start(&mut self)
        ensures interval { self.new.ftti ≡ self.old.ftti }
        ensures start { IsAfterPairs [] self.new }
    {
        self.place = 0;
        self.count = 0;
        self.differed = 0;
        self.raised = 0;
        self.settled = 0;
    }

    /// Sees the next cycle: the lanes that differ at an observation point, and those in which an alarm is raised.
    pub fn see(&mut self, differs: u64, raised: u64)
        ensures interval { self.new.ftti ≡ self.old.ftti }
        // After some pairs, it is after those and this one.
        ensures step { (pairs : List Pair) → IsAfterPairs pairs self.old
            → IsAfterPairs (pairs ++ record { differs = differs; raised = raised } ∷ []) self.new }
        ensures stays { (k : ℕ) → k < 64 → bit self.old.settled k ≡ true → bit self.new.settled k ≡ true }
    {
        self.recent[self.place as usize] = differs;
        self.differed |= differs;
        self.raised |= raised;
        self.place = next_place(self.place, self.ftti);
        let due = due(&self.recent, self.place, self.count, self.ftti);
        self.settled = with_quiet(self.settled, due, self.raised);
        self.count = count_up(self.count, self.ftti);
    }

    /// The lanes that went unalarmed for an interval that is over: whatever is seen later, they go unalarmed.
    pub fn settled(&self) -> u64
        ensures { result ≡ self.now.settled }
    {
        self.settled
    }

    /// The lanes that go unalarmed: some cycle t that was seen since the start differs, and no alarm was raised from the
    /// first one to t + F, as far as they were seen.
    pub fn end(&self) -> u64
        ensures { (pairs : List Pair) (k : ℕ) → IsAfterPairs pairs self.now → k < 64
            → bit result k ≡ lane_goes_unalarmed self.now.ftti pairs k }
    {
        with_quiet(self.settled, self.differed, self.raised)
    }
}
