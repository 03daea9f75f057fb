// Lateness of a lane, by its first cycles.
ghost use Rattle.std.specs.Prelude.{◌≡◌, ◌<◌, [], ℕ, None, Option, length, slice_index_or};
ghost use Rattle.std.specs.List.{list_any};
ghost use Rattle.alarm_points.specs.Interval.{interval_of};
ghost use Rattle.alarm_points.specs.declared.Goal.{Goal as GoalValue};
ghost use Rattle.first_cycles.specs.FirstCycles.{comes_late as late_by, earlier as earlier_of};
ghost use Rattle.first_cycles.specs.Shown.{longer as longer_of, needed as needed_by};

use alarm_points::Goal;

/// Whether a first difference comes without an alarm in its interval, in clock cycles: there is one, and the first alarm is none or
/// comes behind the interval.
pub fn comes_late(ftti: u32, difference: Option<u32>, alarm: Option<u32>) -> bool
    ensures { result ≡ late_by ftti difference alarm }
{
    match (difference, alarm) {
        (None, _) => false,
        (Some(_), None) => true,
        (Some(t), Some(u)) => u64::from(t) + u64::from(ftti) < u64::from(u),
    }
}

/// The earlier of two cycles, where no cycle is later than any.
pub fn earlier(first: Option<u32>, second: Option<u32>) -> Option<u32>
    ensures { result ≡ earlier_of first second }
{
    match (first, second) {
        (None, other) => other,
        (Some(t), None) => Some(t),
        (Some(t), Some(u)) => Some(t.min(u)),
    }
}

/// The least interval with which a first difference and a first alarm aren't late, if there is one.
pub fn needed(difference: Option<u32>, alarm: Option<u32>) -> Option<u32>
    ensures { result ≡ needed_by difference alarm }
{
    match (difference, alarm) {
        (None, _) => Some(0),
        (Some(_), None) => None,
        (Some(t), Some(u)) => Some(u.saturating_sub(t)),
    }
}

/// The greater of two intervals, where none is greater than any.
pub fn longer(first: Option<u32>, second: Option<u32>) -> Option<u32>
    ensures { result ≡ longer_of first second }
{
    match (first, second) {
        (Some(m), Some(n)) => Some(m.max(n)),
        _ => None,
    }
}

// The interval of a goal: its own, or else that of the settings.
fn interval(goal: &Goal, ftti: u32) -> u32
    ensures { result ≡ interval_of ftti goal.now }
{
    goal.ftti.unwrap_or(ftti)
}

/// Whether the first difference of some goal comes late, by this first alarm: each goal has the interval of its own, or else this one.
/// `differences` has that of each goal, in order.
pub fn some_goal_comes_late(
    goals: &[Goal],
    ftti: u32,
    differences: &[Option<u32>],
    alarm: Option<u32>,
) -> bool
    requires { length differences.now ≡ length goals.now }
    ensures { (difference : GoalValue → Option ℕ)
        → ((g : ℕ) → g < length goals.now → slice_index_or differences.now g None ≡ difference (slice_index_or goals.now g (record { name = []; ftti = None; observe = [] })))
        → result ≡ list_any (λ goal. late_by (interval_of ftti goal) (difference goal) alarm) goals.now }
{
    let mut late = false;
    for (g, goal) in goals.iter().enumerate() {
        late |= comes_late(interval(goal, ftti), differences[g], alarm);
    }
    late
}
