ghost use Rattle.std.specs.Prelude.{ℕ, ◌≡◌, ◌<◌, ◌≤◌, ◌++◌, true, List};
ghost use mathlib.Core.List.{IsPrefix};
ghost use Rattle.metric_sums.specs.declared.Sums.{Sums};
ghost use Rattle.metric_sums.specs.Totals.{no_sums};
ghost use Rattle.campaign_core.specs.declared.event.Event.{Event};
ghost use Rattle.campaign_core.specs.Machines.{fresh, after_all, all_lawful, times, times_claimed, once_below};
ghost use Rattle.campaign_core.specs.Laws.{grown_sums, from_scratch};

/// The claims of the workers are disjoint, and together they are the numbers below the next one: each of these was claimed once, and no other number.
pub fn claims_are_disjoint()
    ensures claims { (limit : ℕ) (es : List Event) → all_lawful (fresh limit) es ≡ true → (x : ℕ) → times_claimed x (after_all (fresh limit) es).claims ≡ once_below x (after_all (fresh limit) es).next }
    ensures limit { (limit : ℕ) (es : List Event) → (after_all (fresh limit) es).next ≤ limit }
{}

/// The history has no number twice, and only claimed numbers.
pub fn history_is_claimed()
    ensures { (limit : ℕ) (es : List Event) → all_lawful (fresh limit) es ≡ true → (x : ℕ) → times x (after_all (fresh limit) es).history ≤ times_claimed x (after_all (fresh limit) es).claims }
{}

/// An earlier history begins each later one.
pub fn history_only_grows()
    ensures { (limit : ℕ) (es fs : List Event) → IsPrefix (after_all (fresh limit) es).history (after_all (fresh limit) (es ++ fs)).history }
{}

/// Where all numbers were claimed and each claimed number was posted, the history has each number below the limit once.
pub fn history_is_whole()
    ensures { (limit : ℕ) (es : List Event) → all_lawful (fresh limit) es ≡ true → (after_all (fresh limit) es).next ≡ limit → ((x : ℕ) → times_claimed x (after_all (fresh limit) es).claims ≤ times x (after_all (fresh limit) es).history) → (x : ℕ) → times x (after_all (fresh limit) es).history ≡ once_below x limit }
{}

/// The sums that start at zero and grow at each post by those of its number are at any time, and so at each look, the sums of the history from scratch.
pub fn sums_are_from_scratch()
    ensures { (limit : ℕ) (sums : List Sums) (es : List Event) → grown_sums sums no_sums es ≡ from_scratch sums (after_all (fresh limit) es).history }
{}
