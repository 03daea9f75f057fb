// The shared table, with a plain list of numbers behind its turn.
ghost use Rattle.std.specs.Prelude.{◌≡◌, ◌<◌, ◌≤◌, ◌^◌, [], false, IfOk};
ghost use Rattle.claim_counter.specs.Views.{starting_view, giving};
ghost use Rattle.claim_counter.specs.Seats.{IsOf};

use claim_counter::{Claims, Kept, Seat};
use room::NoRoom;
use std::alloc::Global;
use std::sync::Wait;
use std::test::*;
use std::thread::{Threads, join};

#[derive(Drop)]
struct Plain {
    numbers: Vec<u64>,
    failed: bool,
}

impl Kept for Plain {
    ghost list = { λ p. p.numbers.items };

    ghost is_failed = { λ p. p.failed };

    fn count(&self) -> u64 {
        self.numbers.len() as u64
    }

    fn failed(&self) -> bool {
        self.failed
    }
}

// A table whose turn is free, with an empty list behind it
fn table(alloc: Global, todo: u64) -> Result<(Claims<Plain>, Seat<Plain>), NoRoom>
    requires { todo ≤ 2 ^ 20 }
    ensures { IfOk result (λ r. IsOf r.0 r.1 × (r.0.todo ≡ todo) × (r.1.view ≡ giving (starting_view todo) false)) }
{
    let (claims, mut seat) = Claims::<Plain>::new(alloc, todo)?;
    let value = Plain {
        numbers: Vec::new(alloc),
        failed: false,
    };
    claims.give(&mut seat, value);
    Ok((claims, seat))
}

// Which numbers below 128 a thread drew, how often it drew one, and whether they rose
#[derive(Clone, Copy, PartialEq, Eq)]
struct Drawn {
    numbers: u128,
    count: u64,
    rising: bool,
}

// Draws until there is none left
fn draw_all<R: Wait>(rt: &R, claims: &Claims<Plain>, mut seat: Seat<Plain>) -> Drawn
    requires { IsOf claims.now seat × (seat.view.nones ≡ 0) × (claims.now.todo ≤ 128) }
{
    let mut drawn = Drawn {
        numbers: 0,
        count: 0,
        rising: true,
    };
    for _ in rt.forever() {
        let Some(number) = claims.draw(&mut seat) else {
            return drawn;
        };
        let bit = 1u128 << number;
        drawn.rising &= bit > drawn.numbers;
        drawn.numbers |= bit;
        drawn.count = drawn.count.saturating_add(1);
    }
    unreachable!()
}

// Draws a number and posts it, where there is memory for it
#[tactic(auto, using(claim_counter::proofs::Views::claimed_self))]
fn post_one<R: Wait>(rt: &R, claims: &Claims<Plain>, seat: &mut Seat<Plain>)
    requires { IsOf claims.now seat.old × (seat.old.view.nones ≡ 0) × (seat.old.view.holds ≡ false) × (seat.old.view.posts ≡ []) }
    ensures { IsOf claims.now seat.new × (seat.new.view.holds ≡ false) × (seat.new.view.share ≡ seat.old.view.share) }
{
    let Some(number) = claims.draw(seat) else {
        return;
    };
    let mut value = claims.take(rt, seat);
    if !value.failed && value.numbers.push(number).is_ok() {
        claims.note(seat, number);
    }
    claims.give(seat, value);
}

fn drawn_alone<R: Wait>(rt: &R, alloc: Global, todo: u64) -> Result<Drawn, NoRoom>
    requires { todo ≤ 128 }
{
    let (claims, seat) = table(alloc, todo)?;
    Ok(draw_all(rt, &claims, seat))
}

#[test]
fn numbers_come_in_order_and_then_none(rt: HostRuntime) -> Result<(), Fail> {
    for (todo, numbers) in [(0, 0), (2, 0b11), (100, (1u128 << 100) - 1)] {
        let wanted = Drawn {
            numbers,
            count: todo,
            rising: true,
        };
        assert!(rt;
            drawn_alone(&rt, rt.alloc(), todo)? == wanted,
            "{todo} numbers"
        );
    }
    Ok(())
}

// What two threads draw of 100 numbers
fn drawn_by_two<R: Threads + Wait + Sync>(rt: &R, alloc: Global) -> Result<(Drawn, Drawn), NoRoom> {
    let (claims, mut first) = table(alloc, 100)?;
    let second = claims.split(&mut first);
    Ok(join(
        rt,
        || draw_all(rt, &claims, first),
        || draw_all(rt, &claims, second),
    ))
}

// Whether two threads drew all numbers below 100, each once, and each thread in order
fn are_all(a: Drawn, b: Drawn) -> bool {
    (a.numbers | b.numbers, a.count.saturating_add(b.count)) == ((1u128 << 100) - 1, 100)
        && a.rising
        && b.rising
}

#[test]
fn two_threads_draw_each_number_once(rt: HostRuntime) -> Result<(), Fail> {
    let (a, b) = drawn_by_two(&rt, rt.alloc())?;
    assert!(rt; are_all(a, b));
    Ok(())
}

// What is behind the turn at the end where two seats posted, the second first
fn posted_by_two<R: Wait>(rt: &R, alloc: Global) -> Result<Plain, NoRoom> {
    let (claims, mut first) = table(alloc, 3)?;
    let mut second = claims.split(&mut first);
    post_one(rt, &claims, &mut second);
    post_one(rt, &claims, &mut first);
    claims.join(&mut first, second);
    Ok(claims.close(first))
}

#[test]
fn what_was_posted_comes_back(rt: HostRuntime) -> Result<(), Fail> {
    let value = posted_by_two(&rt, rt.alloc())?;
    let whole = value.numbers.as_slice() == [0, 1].as_slice();
    drop(value);
    assert!(rt; whole);
    Ok(())
}
