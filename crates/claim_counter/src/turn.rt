// Who takes the turn: a seat among others, which waits for it, or the only one.
ghost use Rattle.std.specs.Prelude.{◌≡◌, ◌^◌, ℕ, false};
ghost use Rattle.claim_counter.specs.Seats.{IsOf, Taken};

use crate::claims::Claims;
use crate::kept::Kept;
use crate::seat::Seat;
use std::sync::Wait;

/// How seats come to the turn. What is generic over it waits for nobody where it is `Alone`.
pub trait Turn {
    /// Whether a seat with so many shares may take the turn in this way.
    ghost admits: { ℕ → Type 0 };

    /// Takes the turn, and the value behind it. Its list is the history, which the seat has now seen whole.
    fn take<V: Kept>(&self, claims: &Claims<V>, seat: &mut Seat<V>) -> V
        requires table { IsOf claims.now seat.old }
        requires free { seat.old.view.holds ≡ false }
        requires admitted { admits seat.old.view.share }
        ensures { Taken V.list V.is_failed seat.old seat.new result };
}

/// Seats that wait for the turn, by this runtime: any seat may.
#[derive(Drop)]
pub struct Waiting<'a, R: Wait> {
    rt: &'a R,
}

impl<'a, R: Wait> Waiting<'a, R> {
    /// Seats that wait by this runtime.
    pub fn new(rt: &'a R) -> Self {
        Waiting { rt }
    }
}

impl<'a, R: Wait> Turn for Waiting<'a, R> {
    ghost admits = { λ _. Unit {0} };

    fn take<V: Kept>(&self, claims: &Claims<V>, seat: &mut Seat<V>) -> V {
        claims.take(self.rt, seat)
    }
}

/// The only seat: it has all shares, and waits for nobody.
#[derive(Drop)]
pub struct Alone;

impl Turn for Alone {
    ghost admits = { λ share. share ≡ 2 ^ 32 };

    fn take<V: Kept>(&self, claims: &Claims<V>, seat: &mut Seat<V>) -> V {
        claims.take_alone(seat)
    }
}
