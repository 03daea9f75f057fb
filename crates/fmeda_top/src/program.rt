// The program, with the sink that its output goes to.
ghost use Rattle.std.specs.Prelude.{◌≡◌, ◌≤◌, ◌⊎◌, ℕ, drop, map, string_bytes};
ghost use Rattle.fm_shelf.specs.Outside.{outside};
ghost use Rattle.fm_shelf.specs.Sink.{with_more};
ghost use Rattle.fmeda_top.specs.Words.{MayWait};
ghost use Rattle.fmeda_top.specs.Program.{ProgramEnds, SendsRest, failed_code as failed_code_of};

use crate::continued::{Continued, Earlier};
use crate::top::fmeda_by;
use claim_counter::Turn;
use fm_shelf::paged::Paged;
use fm_shelf::shelf::{Shelf, Sink};
use refusals::status::Status;
use std::alloc::Global;
use std::marker::Brand;
use std::thread::Threads;
use worker_gate::Gate;

/// How the program has ended: its exit status, and the files and the output, which come back in every case.
#[derive(Drop)]
pub struct Exited<F: Drop, O: Drop> {
    pub code: u8,
    pub shelf: F,
    pub out: O,
}

// The exit status where a write of the output has failed.
fn failed_code(status: &Status) -> u8
    ensures { result ≡ failed_code_of status.now }
{
    match status {
        Status::Done => Status::OutFault.code(),
        _ => status.code(),
    }
}

// Sends on what waits in the page, unless a write has failed since there were so many failures, and gives the exit status.
fn send_rest<O: Sink + Drop>(status: &Status, failures: u64, page: &mut Paged<O>) -> u8
    requires grown { failures ≤ (O.seen page.old.out).faults }
    ensures sends { SendsRest status.now result failures (with_more (O.seen page.old.out).written (drop page.old.sent page.old.page.items)) (O.seen page.new.out) }
    ensures grows { (O.seen page.old.out).faults ≤ (O.seen page.new.out).faults }
{
    if page.failures() > failures {
        return failed_code(status);
    }
    match page.flush() {
        Ok(()) => status.code(),
        Err(_) => failed_code(status),
    }
}

// The program, over what its output had sent before.
fn program_since<
    R: Threads + Sync,
    F: Shelf + Send + Drop,
    O: Sink + Drop,
    G: Gate + Sync,
    T: Turn + Sync,
    N: Earlier,
>(rt: &R, turn: &T, alloc: Global, words: &[String], shelf: F, out: O, gate: &G) -> Exited<F, O>
    requires turn { MayWait (map string_bytes words.now) → (share : ℕ) → T.admits share }
    requires earlier { (O.seen out).written ≡ N.sent }
    ensures { ProgramEnds (map string_bytes words.now) result.code (outside (F.seen shelf) (O.seen out)) (outside (F.seen result.shelf) (O.seen result.out)) }
{
    let failures = out.failures();
    let mut page = Paged::new(alloc, Continued::<O, N>::new(out));
    let ended = fmeda_by(rt, turn, alloc, words, shelf, &mut page, gate);
    let code = send_rest(&ended.status, failures, &mut page);
    Exited {
        code,
        shelf: ended.shelf,
        out: page.into_sink().into_sink(),
    }
}

/// Does what the words ask for, as `fmeda_by` does, and sends all that it has written on to `out`. For words that aren't `run`, `resume` or `gen` of
/// several workers it needs no turn, and so returns, as soon as threads of its own that it joins do. The exit status is that of the call; where a write
/// of the output has failed, it is 21 if all else was done. Behind a write that failed nothing more is sent, and what had gone out stands.
pub fn program<
    R: Threads + Sync,
    F: Shelf + Send + Drop,
    O: Sink + Drop,
    G: Gate + Sync,
    T: Turn + Sync,
>(rt: &R, turn: &T, alloc: Global, words: &[String], shelf: F, out: O, gate: &G) -> Exited<F, O>
    requires turn { MayWait (map string_bytes words.now) → (share : ℕ) → T.admits share }
    ensures { ProgramEnds (map string_bytes words.now) result.code (outside (F.seen shelf) (O.seen out)) (outside (F.seen result.shelf) (O.seen result.out)) }
{
    program_since::<R, F, O, G, T, Brand>(rt, turn, alloc, words, shelf, out, gate)
}
