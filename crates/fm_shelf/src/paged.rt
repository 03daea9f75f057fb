// An output that goes out in pages.
ghost use Rattle.std.specs.Prelude.{◌≡◌, ◌<◌, ◌≤◌, ◌-◌, ◌++◌, [], length, take, drop, OnOk, OnErr, if◌then◌else◌};
ghost use Rattle.fm_shelf.specs.Shelf.{CountRose};
ghost use Rattle.fm_shelf.specs.Sink.{Sends, Wrote, with_more};

use crate::shelf::{Failed, Sink};
use room::{extend, with_room};
use std::alloc::Global;

/// The bytes of a page: 64 KiB.
const PAGE: usize = 1 << 16;

/// A sink that collects what it is given, and sends it on in pages of 64 KiB. What it tells as written is what went out, and then
/// what waits in its page; `flush` sends that on. So after a call that failed what went out is a prefix of what was written.
#[derive(Drop)]
pub struct Paged<O: Sink + Drop> {
    /// The sink that pages go to.
    out: O,
    page: Vec<u8>,
    /// How many bytes of the page went out: none, but after a write of it that failed.
    sent: usize,
}

// Writes a piece from a place on, and moves the place past what went out.
fn send<O: Sink>(out: &mut O, piece: &[u8], sent: &mut usize) -> Result<(), Failed>
    ensures whole { OnOk result (length piece.now ≤ sent.new) }
    ensures forward { sent.old ≤ sent.new }
    ensures within { sent.new - sent.old ≤ length piece.now - sent.old }
    ensures written { Wrote (O.seen out.old) (O.seen out.new) (take (sent.new - sent.old) (drop sent.old piece.now)) }
    ensures failed { OnErr result (CountRose (O.seen out.old).faults (O.seen out.new).faults) }
    ensures grows { (O.seen out.old).faults ≤ (O.seen out.new).faults }
{
    'rest: while *sent < piece.len() {
        let n = out.write(&piece[*sent..])?;
        *sent += n;
    }
    Ok(())
}

impl<O: Sink + Drop> Paged<O> {
    /// A sink in front of another. All its memory is taken here; where there is none, each piece goes out by itself.
    pub fn new(alloc: Global, out: O) -> Self
        ensures out { result.out ≡ out }
        ensures waits { drop result.sent result.page.items ≡ [] }
    {
        let page = match with_room(alloc, PAGE) {
            Ok(page) => page,
            Err(_) => Vec::new(alloc),
        };
        Paged { out, page, sent: 0 }
    }

    // Takes a piece into the page, where there is room for it and nothing of the page went out, and answers whether it did.
    fn takes(&mut self, piece: &[u8]) -> bool
        ensures out { self.new.out ≡ self.old.out }
        ensures waits { drop self.new.sent self.new.page.items ≡ drop self.old.sent self.old.page.items ++ (if result then piece.now else []) }
    {
        if self.sent > 0 || piece.len() > self.page.capacity().saturating_sub(self.page.len()) {
            return false;
        }
        extend(&mut self.page, piece).is_ok()
    }

    /// Sends on all that waits. After `Failed` a prefix of it went out, and the rest waits.
    pub fn flush(&mut self) -> Result<(), Failed>
        ensures sends { Sends (O.seen self.old.out) (O.seen self.new.out) (drop self.old.sent self.old.page.items) result }
        ensures empty { OnOk result (drop self.new.sent self.new.page.items ≡ []) }
        ensures waits { OnErr result (with_more (O.seen self.new.out).written (drop self.new.sent self.new.page.items)
            ≡ with_more (O.seen self.old.out).written (drop self.old.sent self.old.page.items)) }
    {
        send(&mut self.out, self.page.as_slice(), &mut self.sent)?;
        self.page.clear();
        self.sent = 0;
        Ok(())
    }

    /// The sink behind it; what waits is given up.
    pub fn into_sink(self) -> O
        ensures { result ≡ self.out }
    {
        self.out
    }
}

impl<O: Sink + Drop> Sink for Paged<O> {
    ghost use Rattle.std.specs.Prelude.{drop};
    ghost use Rattle.fm_shelf.specs.Sink.{with_more};

    ghost seen = { λ s. record { written = with_more (O.seen s.out).written (drop s.sent s.page.items); faults = (O.seen s.out).faults } };

    fn write(&mut self, piece: &[u8]) -> Result<usize, Failed> {
        if self.takes(piece) {
            return Ok(piece.len());
        }
        self.flush()?;
        self.out.write(piece)
    }

    fn failures(&self) -> u64 {
        self.out.failures()
    }
}
