ghost use Rattle.std.specs.Prelude.{◌≡◌, ◌+◌, ◌-◌, ◌<◌, ◌≤◌, ◌^◌, ◌⊎◌, true, false, IfSome, IfNone, IfOk};
ghost use Rattle.campaign_core.specs.Machines.{times};
ghost use Rattle.claim_counter.specs.Views.{starting_view, with_claim, with_none, less_one, with_one, joined_views, noting, giving};
ghost use Rattle.claim_counter.specs.Seats.{IsOf, Taken, Closed};

use crate::kept::Kept;
use crate::rule::{Draw, Give, Law, Learn, Note, OneShare, Open, Take, TakeAlone};
use crate::seat::Seat;
use crate::view::View;
use atomic_table::Table;
use room::{NoRoom, filled, vacant};
use std::alloc::Global;
use std::marker::Model;
use std::sync::Wait;
use std::thread;

/// A counter from which each number is drawn once, a turn with a value behind it, and the history of the noted numbers. Threads share it by reference. Contracts see its table, and how many numbers there are.
#[derive(Drop)]
pub struct Claims<V: Kept> {
    pub(crate) table: Table<Option<V>, View, u64, Law<V>, Global>,
    pub(crate) todo: u64,
}

impl<V: Kept> Model for Claims<V> {
    ghost use Rattle.std.specs.Prelude.{◌≡◌, ◌+◌, ◌≤◌, ◌^◌};
    ghost use Rattle.claim_counter.specs.Seats.{Counter};

    ghost Value = { Counter };

    ghost view = { λ c. record { table = c.table.shared.table_id; todo = c.todo } };

    ghost invariant = { λ c. (c.table.shared.key ≡ c.todo) × (c.table.shared.table_id.words ≡ c.todo + 2) × (c.table.shared.table_id.slots ≡ 1) × (c.todo ≤ 2 ^ 20) };
}

impl<V: Kept> Claims<V> {
    /// Draws the next number by one fetch_add, without waiting. Nobody else draws it. None comes exactly where the counter had reached `todo` at this step.
    pub fn draw(&self, seat: &mut Seat<V>) -> Option<u64>
        requires table { IsOf self.now seat.old }
        requires first { seat.old.view.nones ≡ 0 }
        ensures table { seat.new.table ≡ seat.old.table }
        ensures some { IfSome result (λ i. (i < self.now.todo) × (times i seat.old.view.claims ≡ 0) × (seat.new.view ≡ with_claim seat.old.view i)) }
        ensures none { IfNone result (seat.new.view ≡ with_none seat.old.view) }
    {
        let found = self.table.shared.fetch_add::<Draw>(&mut seat.token, 0, 1);
        if found < self.todo { Some(found) } else { None }
    }

    /// A new seat of the same table, which has seen as much and done nothing. It takes one share of the seat, so a seat with one share doesn't split.
    pub fn split(&self, seat: &mut Seat<V>) -> Seat<V>
        requires table { IsOf self.now seat.old }
        requires shares { (2 ≤ seat.old.view.share) × (seat.old.view.nones ≡ 0) }
        ensures seat { (seat.new.table ≡ seat.old.table) × (seat.new.view ≡ less_one seat.old.view) }
        ensures new { (result.table ≡ seat.old.table) × (result.view ≡ with_one seat.old.view) }
    {
        let token = self.table.shared.split_seat::<OneShare>(&mut seat.token);
        Seat { token, next: 0 }
    }

    /// Lets the other seat go. What it did and knows counts as the seat's from now on.
    pub fn join(&self, seat: &mut Seat<V>, other: Seat<V>)
        requires table { IsOf self.now seat.old × IsOf self.now other }
        requires free { other.view.holds ≡ false }
        ensures { (seat.new.table ≡ seat.old.table) × (seat.new.view ≡ joined_views seat.old.view other.view) }
    {
        let shared = &self.table.shared;
        shared.join_seat::<OneShare>(&mut seat.token, other.into_token());
    }

    /// A counter at 0 for at most 2^20 numbers. The seat has all shares and holds the turn, with no value behind it yet: `give` puts the first one.
    pub fn new(alloc: Global, todo: u64) -> Result<(Claims<V>, Seat<V>), NoRoom>
        requires { todo ≤ 2 ^ 20 }
        ensures { IfOk result (λ r. (r.0.todo ≡ todo) × (r.1.table ≡ r.0.table) × (r.1.view ≡ starting_view todo)) }
    {
        let words = filled(alloc, 0u64, todo as usize + 2)?;
        let (table, mut token) = vacant(alloc, words.as_slice(), 1, &todo)?;
        table.shared.compare_exchange::<Open>(&mut token, 1, 0, 1);
        Ok((Claims { table, todo }, Seat { token, next: 0 }))
    }

    // Takes the turn where its word is `old`, which says that it is free
    fn try_take(&self, seat: &mut Seat<V>, old: u64) -> Option<V>
        requires table { IsOf self.now seat.old }
        requires free { seat.old.view.holds ≡ false }
        requires even { (old ≡ 0) ⊎ (old ≡ 2) }
        ensures some { IfSome result (λ x. Taken V.list V.is_failed seat.old seat.new x) }
        ensures none { IfNone result (seat.new ≡ seat.old) }
    {
        let shared = &self.table.shared;
        if shared.compare_exchange::<Take>(&mut seat.token, 1, old, old + 1) != old {
            return None;
        }
        let Some(value) = shared.exchange(&mut seat.token, 0, None) else {
            unreachable!()
        };
        seat.next = value.count();
        Some(value)
    }

    /// Waits for the turn, and takes the value behind it. Its list is the history, which the seat has now seen whole.
    pub fn take<R: Wait>(&self, rt: &R, seat: &mut Seat<V>) -> V
        requires table { IsOf self.now seat.old }
        requires free { seat.old.view.holds ≡ false }
        ensures { Taken V.list V.is_failed seat.old seat.new result }
    {
        for _ in rt.forever() {
            if let Some(value) = self.try_take(seat, 0) {
                return value;
            }
            if let Some(value) = self.try_take(seat, 2) {
                return value;
            }
            thread::yield_now();
        }
        unreachable!()
    }

    /// Takes the turn, and the value behind it, by a seat that has all shares. It is free, since nobody else is there to hold it, so there
    /// is nothing to wait for.
    pub fn take_alone(&self, seat: &mut Seat<V>) -> V
        requires table { IsOf self.now seat.old }
        requires free { seat.old.view.holds ≡ false }
        requires whole { seat.old.view.share ≡ 2 ^ 32 }
        ensures { Taken V.list V.is_failed seat.old seat.new result }
    {
        let shared = &self.table.shared;
        shared.fetch_add::<TakeAlone>(&mut seat.token, 1, 1);
        let Some(value) = shared.exchange(&mut seat.token, 0, None) else {
            unreachable!()
        };
        seat.next = value.count();
        value
    }

    /// Stores the number as the next of the history. The seat drew it and hasn't noted it yet; the value that it took hadn't failed. The value's list has to get the number too, before `give`.
    pub fn note(&self, seat: &mut Seat<V>, drawn: u64)
        requires table { IsOf self.now seat.old }
        requires held { (seat.old.view.holds ≡ true) × (seat.old.view.fails ≡ false) }
        requires drawn { (0 < times drawn seat.old.view.claims) × (times drawn seat.old.view.posts ≡ 0) }
        ensures { (seat.new.table ≡ seat.old.table) × (seat.new.view ≡ noting seat.old.view drawn) }
    {
        let shared = &self.table.shared;
        shared.load::<Learn>(&mut seat.token, 0);
        shared.store::<Note>(&mut seat.token, seat.next as usize + 2, drawn + 1);
        seat.next += 1;
    }

    /// Gives the turn back, with the value behind it: its list is the history, and a failure that the seat knows of is the value's. A value that has failed makes all later takers know.
    pub fn give(&self, seat: &mut Seat<V>, value: V)
        requires table { IsOf self.now seat.old }
        requires held { seat.old.view.holds ≡ true }
        requires list { V.list value ≡ seat.old.view.seen }
        requires failed { seat.old.view.fails ≡ true → V.is_failed value ≡ true }
        ensures { (seat.new.table ≡ seat.old.table) × (seat.new.view ≡ giving seat.old.view (V.is_failed value)) }
    {
        let word = if value.failed() { 2 } else { 0 };
        let shared = &self.table.shared;
        let away = shared.exchange(&mut seat.token, 0, Some(value));
        let None = away else { unreachable!() };
        shared.store::<Give>(&mut seat.token, 1, word);
    }

    /// The value, once all other seats were joined into this one.
    pub fn close(self, seat: Seat<V>) -> V
        requires table { IsOf self seat }
        requires whole { seat.view.share ≡ 2 ^ 32 }
        requires free { seat.view.holds ≡ false }
        ensures { Closed V.list V.is_failed self.todo seat.view result }
    {
        let Claims { table, todo: _ } = self;
        let mut closed = table.close_with(seat.into_token());
        let slot = closed.take(0);
        closed.free();
        let Some(value) = slot else { unreachable!() };
        value
    }
}
