ghost use Rattle.std.specs.Prelude.{◌≡◌, false, []};

use crate::kept::Kept;
use crate::view::View;
use std::marker::Model;

/// A thread's part in a `Claims`: a token that the calls of this thread take. Contracts see its table, and what it did and knows.
pub struct Seat<V: Kept> {
    pub(crate) token: atomic_table::Seat<Option<V>, View>,
    pub(crate) next: u64,
}

impl<V: Kept> Model for Seat<V> {
    ghost use Rattle.claim_counter.specs.Seats.{Seated, IsSteady};

    ghost Value = { Seated };

    ghost view = { λ s. record { table = s.token.table_id; view = s.token.me.0 } };

    ghost invariant = { λ s. IsSteady s.token.me.0 s.token.me.1 s.next };
}

impl<V: Kept> Seat<V> {
    // The token of a seat that doesn't hold the turn
    pub(crate) fn into_token(self) -> atomic_table::Seat<Option<V>, View>
        requires { self.view.holds ≡ false }
        ensures { (result.table_id ≡ self.table) × (result.me.0 ≡ self.view) × (result.me.1 ≡ []) }
    {
        let Self { token, next: _ } = self;
        token
    }
}

impl<V: Kept> Drop for Seat<V> {
    fn drop(self) {
        let Self { token: _, next: _ } = self;
    }
}
