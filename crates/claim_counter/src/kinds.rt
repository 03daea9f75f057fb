ghost use Rattle.std.specs.Prelude.{ℕ, ◌≡◌, ◌≢◌, ◌+◌, ◌^◌, ◌<◌, ◌≤◌, ◌⊎◌, min, true, false, [], ◌∷◌, Option, Some, None, slice_index, replicate};
ghost use mathlib.Core.Option.{some};
ghost use lib.ListN.{get_elem?};
ghost use Rattle.atomic_table.specs.Table.{State, opening};
ghost use Rattle.campaign_core.specs.Machines.{Machine, fresh, after, is_lawful, times, once_below};
ghost use Rattle.campaign_core.specs.declared.event.Event.TheVariants.{Draw, Post, Look};
ghost use Rattle.claim_counter.specs.declared.view.View.{View};
ghost use Rattle.claim_counter.specs.Views.{opening_view};
ghost use Rattle.claim_counter.specs.Rules.{Rule};
ghost use Rattle.claim_counter.specs.Shown.{Shows, moved};
ghost use Rattle.claim_counter.specs.Steps.{after_draw, after_open, after_take, after_note, after_give, after_load, after_split, after_join, given_back};

use crate::kept::Kept;

/// A table that was just made keeps the rule, and shows a fresh machine.
pub fn a_new_table_is_fresh<V: Kept>()
    ensures { (todo : ℕ) → Rule V.list V.is_failed todo (opening (replicate (todo + 2) 0) (None ∷ []) (opening_view todo)) × Shows {S = Option V} todo (opening (replicate (todo + 2) 0) (None ∷ []) (opening_view todo)) (fresh todo) }
{}

/// By the rule the history has no number twice, and only numbers below the lesser of counter and todo.
pub fn the_history_has_each_once<V: Kept>()
    ensures { (todo : ℕ) (s : State (Option V) View) (h : Rule V.list V.is_failed todo s) (x : ℕ) → times x h.history ≤ once_below x (min h.counter todo) }
{}

/// The fetch_add of a draw keeps the rule, and is the event Draw of its seat.
pub fn a_draw_is_an_event<V: Kept>()
    ensures { (todo id : ℕ) (s : State (Option V) View) (v : View) (m : Machine) → Rule V.list V.is_failed todo s → get_elem? s.views id ≡ some v → todo ≤ 2 ^ 20 → v.todo ≡ todo → 0 < v.share → v.nones ≡ 0 → Shows todo s m → Rule V.list V.is_failed todo (after_draw s id v) × Shows todo (after_draw s id v) (after m (Draw id)) }
{}

/// The compare_exchange that takes the first turn keeps the rule, and is the event Look, which changes nothing.
pub fn the_first_turn_is_a_look<V: Kept>()
    ensures { (todo id : ℕ) (s : State (Option V) View) (m : Machine) → Rule V.list V.is_failed todo s → get_elem? s.views id ≡ some (opening_view todo) → Shows todo s m → (slice_index s.words 1 ≡ 0) × Rule V.list V.is_failed todo (after_open s id (opening_view todo)) × Shows todo (after_open s id (opening_view todo)) (after m (Look id)) }
{}

/// The compare_exchange that takes the turn keeps the rule, and is the event Look: the value behind the turn has the machine's history for its list, and has failed exactly where the machine has.
pub fn a_taken_turn_is_a_look<V: Kept>()
    ensures { (todo id : ℕ) (s : State (Option V) View) (v : View) (m : Machine) → Rule V.list V.is_failed todo s → get_elem? s.views id ≡ some v → v.opened ≡ true → v.holds ≡ false → 0 < v.share → (slice_index s.words 1 ≡ 0) ⊎ (slice_index s.words 1 ≡ 2) → Shows todo s m → (x : V) × (get_elem? s.homes 0 ≡ some (some (Some x))) × (V.list x ≡ m.history) × (V.is_failed x ≡ m.failed) × Rule V.list V.is_failed todo (after_take V.list V.is_failed s id v x) × Shows todo (after_take V.list V.is_failed s id v x) (after m (Look id)) }
{}

/// The store of a history word keeps the rule, and is the lawful event Post of its seat.
pub fn a_note_is_a_post<V: Kept>()
    ensures { (todo id d : ℕ) (s : State (Option V) View) (v : View) (m : Machine) → Rule V.list V.is_failed todo s → get_elem? s.views id ≡ some v → v.holds ≡ true → v.fails ≡ false → 0 < times d v.claims → times d v.posts ≡ 0 → Shows todo s m → (is_lawful m (Post id d) ≡ true) × Rule V.list V.is_failed todo (after_note s id v d) × Shows todo (after_note s id v d) (after m (Post id d)) }
{}

/// The store that gives the turn back keeps the rule. It is the event Fail where the turn was 1 and the value has failed, and shows the same otherwise.
pub fn a_returned_turn_may_fail<V: Kept>()
    ensures { (todo id : ℕ) (s : State (Option V) View) (v : View) (x : V) (m : Machine) → Rule V.list V.is_failed todo s → get_elem? s.views id ≡ some v → v.holds ≡ true → V.list x ≡ v.seen → (v.fails ≡ true → V.is_failed x ≡ true) → Shows todo s m → Rule V.list V.is_failed todo (after_give V.is_failed s id v x) × Shows todo (after_give V.is_failed s id v x) (given_back m id (slice_index s.words 1) (V.is_failed x)) }
{}

/// A load leaves the whole table as it is.
pub fn a_load_changes_nothing<V: Kept>()
    ensures { (i id : ℕ) (s : State (Option V) View) (v : View) → get_elem? s.views id ≡ some v → after_load s i id v ≡ s }
{}

/// A split keeps the rule, and shows the same.
pub fn a_split_shows_the_same<V: Kept>()
    ensures { (todo id : ℕ) (s : State (Option V) View) (v : View) (m : Machine) → Rule V.list V.is_failed todo s → get_elem? s.views id ≡ some v → v.opened ≡ true → 2 ≤ v.share → v.nones ≡ 0 → Shows todo s m → Rule V.list V.is_failed todo (after_split s id v) × Shows todo (after_split s id v) m }
{}

/// A join keeps the rule, and shows the same but for the claims of the seat that is joined: they move to the seat that joins.
pub fn a_join_moves_claims<V: Kept>()
    ensures { (todo id other : ℕ) (s : State (Option V) View) (v w : View) (m : Machine) → Rule V.list V.is_failed todo s → get_elem? s.views id ≡ some v → get_elem? s.views other ≡ some w → other ≢ id → v.opened ≡ true → 0 < v.share → w.holds ≡ false → Shows todo s m → Rule V.list V.is_failed todo (after_join s id v other w) × Shows todo (after_join s id v other w) (moved other id m) }
{}
