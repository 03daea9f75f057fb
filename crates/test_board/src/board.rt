// What no clause says: that calls find memory, and what a worked campaign of two batches shows.
ghost use Rattle.std.specs.Prelude.{ℕ, ◌≡◌, true, false, [], length, IfSome};
ghost use Rattle.std.specs.String.{string_bytes};
ghost use Rattle.claim_counter.specs.Views.{starting_view, giving};
ghost use Rattle.claim_counter.specs.Seats.{IsOf};
ghost use Rattle.campaign_board.specs.Boards.{AreEntries, board_entry};
ghost use Rattle.campaign_board.specs.Kept.{IsStart};
ghost use Rattle.campaign_board.specs.Missing.{batches_missing};
ghost use Rattle.campaign_board.specs.Sharing.{MayPost};

use campaign_board::{BatchList, Board, Entry, Look, Origin, Seat, Shared, missing_batches};
use claim_counter::Waiting;
use fm_base::{Line, Seq};
use fm_shelf::files::Calls;
use fm_shelf::memory::MemoryShelf;
use fm_shelf::shelf::Shelf;
use fm_shelf::whole::read_all;
use metric_sums::Sums;
use result_file::header;
use room::{NoRoom, from_slice, from_str};
use std::alloc::Global;
use std::marker::Brand;
use std::sync::Wait;
use std::test::*;

// What two looks at a shared board find
#[derive(Clone, Copy, PartialEq, Eq)]
struct Looks {
    between: Look,
    after: Look,
}

// What a campaign of two batches leaves
#[derive(Drop)]
struct Played<F: Shelf + Drop> {
    looks: Option<Looks>,
    rows: usize,
    failed: bool,
    shelf: F,
}

// Posts a batch and looks.
fn post_and_look<F: Shelf + Drop, N: Origin, R: Wait>(
    rt: &R,
    shared: &Shared<F, N>,
    seat: &mut Seat<F, N>,
    entry: &Entry,
) -> Look
    requires seat { IsOf shared.now seat.old × (seat.old.view.holds ≡ false) }
    requires drawn { MayPost N.start seat.old.view entry.now.batch }
    requires entry { entry.now ≡ board_entry N.start.entries entry.now.batch }
    requires takes { (batch : ℕ) → N.start.takes batch ≡ true }
    ensures seat { IsOf shared.now seat.new × (seat.new.view.holds ≡ false) × (seat.new.view.share ≡ seat.old.view.share) }
{
    let turn = Waiting::new(rt);
    shared.post(&turn, seat, entry);
    shared.look(&turn, seat)
}

// Two seats draw a batch each, and post them, the second first. Each looks after its post.
fn post_both<F: Shelf + Drop, N: Origin, R: Wait>(
    rt: &R,
    shared: &Shared<F, N>,
    first: &mut Seat<F, N>,
    second: &mut Seat<F, N>,
    entries: &[Entry],
) -> Option<Looks>
    requires first { IsOf shared.now first.old × (first.old.view.holds ≡ false) × (first.old.view.nones ≡ 0) × (first.old.view.claims ≡ []) × (first.old.view.posts ≡ []) }
    requires second { IsOf shared.now second.old × (second.old.view.holds ≡ false) × (second.old.view.nones ≡ 0) × (second.old.view.claims ≡ []) × (second.old.view.posts ≡ []) }
    requires entries { AreEntries entries.now × (entries.now ≡ N.start.entries) }
    requires takes { (batch : ℕ) → N.start.takes batch ≡ true }
    ensures first { IsOf shared.now first.new × (first.new.view.holds ≡ false) × (first.new.view.share ≡ first.old.view.share) }
    ensures second { IsOf shared.now second.new × (second.new.view.holds ≡ false) × (second.new.view.share ≡ second.old.view.share) }
{
    let a = shared.draw(first)?;
    let b = shared.draw(second)?;
    Some(Looks {
        between: post_and_look(rt, shared, second, &entries[b as usize]),
        after: post_and_look(rt, shared, first, &entries[a as usize]),
    })
}

fn play_shared<F: Shelf + Drop, N: Origin, R: Wait>(
    rt: &R,
    shared: Shared<F, N>,
    mut first: Seat<F, N>,
    entries: &[Entry],
) -> Played<F>
    requires table { first.table ≡ shared.table }
    requires view { first.view ≡ giving (starting_view shared.todo) false }
    requires entries { AreEntries entries.now × (entries.now ≡ N.start.entries) }
    requires takes { (batch : ℕ) → N.start.takes batch ≡ true }
{
    let mut second = shared.split(&mut first);
    let looks = post_both(rt, &shared, &mut first, &mut second, entries);
    shared.join(&mut first, second);
    let board = shared.close(first);
    Played {
        looks,
        rows: board.rows().len(),
        failed: board.failed(),
        shelf: board.into_shelf(),
    }
}

// Writes the header of a new board; the batches that are to do
fn begin<F: Shelf + Drop, N: Origin>(
    alloc: Global,
    board: &mut Board<F, N>,
    batches: u32,
    own: &Line,
) -> Option<BatchList>
    requires fresh { (board.old.rows ≡ []) × (N.start.rows ≡ []) × (board.old.written ≡ false) × (board.old.failed ≡ false) }
    requires own { (own.now ≡ N.start.header) × (N.start.whole ≡ 0) }
    requires batches { batches ≡ length N.start.entries }
    ensures rows { board.new.rows ≡ [] }
    ensures begun { IfSome result (λ todo. (board.new.written ≡ true) × (board.new.failed ≡ false) × (todo ≡ batches_missing N.start)) }
{
    board.append_header(0, own).ok()?;
    missing_batches(alloc, batches, board.rows()).ok()
}

fn play_over<F: Shelf + Drop, N: Origin, R: Wait>(
    rt: &R,
    alloc: Global,
    shelf: F,
    name: &String,
    own: &Line,
    entries: &[Entry],
) -> Option<Played<F>>
    requires start { IsStart N.start (string_bytes name.now) [] (length entries.now) (F.seen shelf) }
    requires own { (own.now ≡ N.start.header) × (N.start.whole ≡ 0) }
    requires entries { entries.now ≡ N.start.entries }
    requires takes { (batch : ℕ) → N.start.takes batch ≡ true }
{
    let batches = entries.len() as u32;
    let made = Board::<F, N>::new(alloc, shelf, name.as_str(), batches, Seq::new(alloc));
    let Ok(mut board) = made else {
        return None;
    };
    let todo = begin(alloc, &mut board, batches, own)?;
    let Ok((shared, first)) = Shared::new(alloc, board, todo) else {
        return None;
    };
    Some(play_shared(rt, shared, first, entries))
}

fn play<F: Shelf + Drop, R: Wait>(
    rt: &R,
    alloc: Global,
    shelf: F,
    name: &String,
    own: &Line,
    entries: &[Entry],
) -> Option<Played<F>>
    requires { AreEntries entries.now }
{
    play_over::<F, Brand, R>(rt, alloc, shelf, name, own, entries)
}

fn danger_sums(permanent: u64) -> Sums
    ensures { result ≡ record { permanent_all = permanent; permanent_danger = permanent; latent = 0; transient_all = 0; transient_danger = 0 } }
{
    Sums {
        permanent_all: permanent,
        permanent_danger: permanent,
        latent: 0,
        transient_all: 0,
        transient_danger: 0,
    }
}

// 66 dangerous faults of 1000000 units each, in two batches
fn chain_of_33() -> [Entry; 2]
    ensures { AreEntries result }
{
    [
        Entry {
            batch: 0,
            danger: u64::MAX,
            noticed: 0,
            own: danger_sums(64000000),
        },
        Entry {
            batch: 1,
            danger: 3,
            noticed: 0,
            own: danger_sums(2000000),
        },
    ]
}

// What is seen of the campaign: its looks, the rows of the board and whether it has failed, the length of the file, and whether
// batch 1 stands first there
#[derive(Clone, Copy, PartialEq, Eq)]
struct Seen {
    looks: Option<Looks>,
    rows: usize,
    failed: bool,
    len: usize,
    turned: bool,
}

fn look_of(permanent: u64, count: u32, stopped: bool) -> Look {
    Look {
        sums: danger_sums(permanent),
        count,
        stopped,
    }
}

fn shelf_of(alloc: Global, failing: &[u64]) -> Result<MemoryShelf, NoRoom> {
    let failing: Calls = Seq::from_vec(from_slice(alloc, failing)?);
    MemoryShelf::new(alloc, Seq::new(alloc), 1000, failing)
}

// The length of the file, and whether batch 1 stands first
fn told(alloc: Global, shelf: &mut MemoryShelf) -> (usize, bool) {
    match read_all(alloc, shelf, "res") {
        Ok(bytes) => (
            bytes.len(),
            bytes.as_slice().get(89..99) == Some(b"r 00000001".as_slice()),
        ),
        Err(_) => (0, false),
    }
}

fn seen_of(alloc: Global, played: &mut Played<MemoryShelf>) -> Seen {
    let (len, turned) = told(alloc, &mut played.shelf);
    Seen {
        looks: played.looks,
        rows: played.rows,
        failed: played.failed,
        len,
        turned,
    }
}

// The campaign whose calls of the given numbers fail
fn campaign<R: Wait>(rt: &R, alloc: Global, failing: &[u64]) -> Result<Option<Seen>, NoRoom> {
    let name = from_str(alloc, "res")?;
    let shelf = shelf_of(alloc, failing)?;
    let own = header(&[0; 32], 2);
    match play(rt, alloc, shelf, &name, &own, &chain_of_33()) {
        Some(mut played) => Ok(Some(seen_of(alloc, &mut played))),
        None => Ok(None),
    }
}

#[test]
fn a_batch_posted_first_stands_first(rt: HostRuntime) -> Result<(), Fail> {
    let wanted = Seen {
        looks: Some(Looks {
            between: look_of(2000000, 1, false),
            after: look_of(66000000, 2, false),
        }),
        rows: 2,
        failed: false,
        len: 349,
        turned: true,
    };
    assert!(rt; campaign(&rt, rt.alloc(), &[])? == Some(wanted));
    Ok(())
}

#[test]
fn a_failed_append_stops_the_board(rt: HostRuntime) -> Result<(), Fail> {
    let wanted = Seen {
        looks: Some(Looks {
            between: look_of(2000000, 1, false),
            after: look_of(2000000, 1, true),
        }),
        rows: 1,
        failed: true,
        len: 219,
        turned: true,
    };
    assert!(rt; campaign(&rt, rt.alloc(), &[4])? == Some(wanted));
    Ok(())
}
