ghost use Rattle.claim_counter.specs.Views.{opening_view, less_one, with_one, joined_views, spent_view};
ghost use Rattle.claim_counter.specs.Rules.{Rule};
ghost use Rattle.claim_counter.specs.Plays.{Draws, Opens, Takes, TakesAlone, StepGives, Learns, Notes};

use crate::kept::Kept;
use crate::view::View;
use atomic_table::{Join, Play, Split, TableRule};
use std::marker::PhantomData;

/// The rule of the table, over any kept value.
pub struct Law<V> {
    of: PhantomData<V>,
}

impl<V: Kept> TableRule<Option<V>, View, u64> for Law<V> {
    ghost holds = { λ todo. Rule V.list V.is_failed todo };

    ghost first = { opening_view };
}

/// The fetch_add on the counter.
pub struct Draw;

impl<S> Play<S, View> for Draw {
    ghost then = { Draws };
}

/// The compare_exchange that takes the first turn, with the empty slot.
pub struct Open;

impl<V> Play<Option<V>, View> for Open {
    ghost then = { Opens };
}

/// The compare_exchange that takes the turn, with the value in the slot.
pub struct Take;

impl<V: Kept> Play<Option<V>, View> for Take {
    ghost then = { Takes V.list V.is_failed };
}

/// The fetch_add by which a seat with all shares takes the turn, with the value in the slot.
pub struct TakeAlone;

impl<V: Kept> Play<Option<V>, View> for TakeAlone {
    ghost then = { TakesAlone V.list V.is_failed };
}

/// The store that gives the turn back.
pub struct Give;

impl<V: Kept> Play<Option<V>, View> for Give {
    ghost then = { StepGives V.list V.is_failed };
}

/// The load that tells the holder of the turn of a history word that is left.
pub struct Learn;

impl<S> Play<S, View> for Learn {
    ghost then = { Learns };
}

/// The store of a history word.
pub struct Note;

impl<S> Play<S, View> for Note {
    ghost then = { Notes };
}

/// One share goes to a new seat, which has seen as much.
pub struct OneShare;

impl Split<View> for OneShare {
    ghost left = { less_one };

    ghost right = { with_one };
}

impl Join<View> for OneShare {
    ghost both = { joined_views };

    ghost spent = { spent_view };
}
