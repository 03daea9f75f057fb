// A window for each safety goal.
ghost use Rattle.std.specs.Prelude.{◌≡◌, ◌≢◌, ◌<◌, ◌∷◌, ◌++◌, [], ℕ, All, List, IfOk, true, length, map, slice_index_or};
ghost use Rattle.fm_base.specs.Lists.{some_below};
ghost use Rattle.fm_base.specs.Planes.{bit};
ghost use Rattle.alarm_points.specs.Interval.{interval_of};
ghost use Rattle.alarm_points.specs.Watch.{AreMadeFor, IsAfterPairs, KeepsIntervals, Pair, Watch, intervals, lane_goes_unalarmed, window_at};

use crate::window::Window;
use crate::{Goal, Points};
use room::{NoRoom, push};
use std::alloc::Global;
use std::marker::Model;

// The interval of a goal: its own, or else that of the settings.
fn interval(goal: &Goal, ftti: u32) -> u32
    ensures { result ≡ interval_of ftti goal.now }
{
    goal.ftti.unwrap_or(ftti)
}

fn windows_for(alloc: Global, goals: &[Goal], ftti: u32) -> Result<Vec<Window>, NoRoom>
    ensures intervals { IfOk result (λ windows. map (λ (w : Watch). w.ftti) windows.items ≡ map (interval_of ftti) goals.now) }
    ensures start { IfOk result (λ windows. All (IsAfterPairs []) windows.items) }
{
    let mut windows = Vec::new(alloc);
    for goal in goals {
        push(&mut windows, Window::new(alloc, interval(goal, ftti))?)?;
    }
    Ok(windows)
}

fn start_all(windows: &mut [Window])
    ensures intervals { map (λ (w : Watch). w.ftti) windows.new ≡ map (λ (w : Watch). w.ftti) windows.old }
    ensures start { (g : ℕ) (none : Watch) → g < length windows.new → IsAfterPairs [] (slice_index_or windows.new g none) }
{
    for i in 0..windows.len() {
        windows[i].start();
    }
}

fn unalarmed_in(windows: &[Window]) -> u64
    ensures { (none : Watch) (pairs : ℕ → List Pair) (k : ℕ)
        → ((g : ℕ) → g < length windows.now → IsAfterPairs (pairs g) (slice_index_or windows.now g none)) → k < 64
        → bit result k ≡ some_below (length windows.now) (λ g. lane_goes_unalarmed (slice_index_or windows.now g none).ftti (pairs g) k) }
{
    let mut unalarmed = 0;
    for window in windows {
        unalarmed |= window.end();
    }
    unalarmed
}

fn settled_in(windows: &[Window]) -> u64
    ensures { (none : Watch) (k : ℕ) → bit result k ≡ some_below (length windows.now) (λ g. bit (slice_index_or windows.now g none).settled k) }
{
    let mut settled = 0;
    for window in windows {
        settled |= window.settled();
    }
    settled
}

/// A window for each safety goal. No call but `new` takes memory.
#[derive(Drop)]
pub struct Windows {
    ftti: u32,
    windows: Vec<Window>,
}

impl Model for Windows {
    ghost use Rattle.alarm_points.specs.Watch.{Watches};

    ghost Value = { Watches };

    ghost view = { λ s. record { ftti = s.ftti; windows = s.windows.items } };
}

impl Windows {
    /// Windows for the goals of these points. The interval, in clock cycles, is that of each goal without one of its own.
    pub fn new(alloc: Global, points: &Points, ftti: u32) -> Result<Self, NoRoom>
        ensures made { IfOk result (λ windows. AreMadeFor points.now windows) }
        ensures ftti { IfOk result (λ windows. windows.ftti ≡ ftti) }
        ensures start { IfOk result (λ windows. All (IsAfterPairs []) windows.windows) }
    {
        let windows = windows_for(alloc, points.goals.as_slice(), ftti)?;
        Ok(Windows { ftti, windows })
    }

    /// Forgets what was seen: the next cycle is the first of a run.
    pub fn start(&mut self)
        ensures keeps { KeepsIntervals self.old self.new }
        ensures start { (g : ℕ) → g < length self.new.windows → IsAfterPairs [] (window_at self.new g) }
    {
        start_all(&mut self.windows);
    }

    /// Shows a goal the next cycle: the lanes that differ at an observation point of the goal, and those in which an alarm
    /// is raised.
    pub fn see(&mut self, goal: u32, differs: u64, raised: u64)
        requires { goal < length self.old.windows }
        ensures keeps { KeepsIntervals self.old self.new }
        ensures step { (pairs : List Pair) → IsAfterPairs pairs (window_at self.old goal)
            → IsAfterPairs (pairs ++ record { differs = differs; raised = raised } ∷ []) (window_at self.new goal) }
        ensures others { (g : ℕ) → g ≢ goal → window_at self.new g ≡ window_at self.old g }
        ensures stays { (k : ℕ) → k < 64 → bit (window_at self.old goal).settled k ≡ true → bit (window_at self.new goal).settled k ≡ true }
    {
        self.windows[goal as usize].see(differs, raised);
    }

    /// The lanes that went unalarmed for some goal in an interval of it that is over: whatever is seen later, they go unalarmed.
    pub fn settled(&self) -> u64
        ensures { (k : ℕ) → bit result k ≡ some_below (length self.now.windows) (λ g. bit (window_at self.now g).settled k) }
    {
        settled_in(&self.windows)
    }

    /// The lanes that go unalarmed for some goal, each with its own interval.
    pub fn end(&self) -> u64
        ensures { (pairs : ℕ → List Pair) (k : ℕ) → ((g : ℕ) → g < length self.now.windows → IsAfterPairs (pairs g) (window_at self.now g)) → k < 64
            → bit result k ≡ some_below (length self.now.windows) (λ g. lane_goes_unalarmed (window_at self.now g).ftti (pairs g) k) }
    {
        unalarmed_in(&self.windows)
    }
}
