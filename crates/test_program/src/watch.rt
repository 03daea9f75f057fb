// A shelf that is watched, and a gate that watches it.
ghost use Rattle.std.specs.Prelude.{◌≡◌};

use fm_shelf::shelf::{Failed, Shelf};
use std::sync::atomic::{AtomicU64, Ordering};
use worker_gate::Gate;

/// A shelf whose appends are counted.
#[derive(Drop)]
pub struct Watched<'a, F: Shelf + Drop> {
    shelf: F,
    appends: &'a AtomicU64,
}

impl<'a, F: Shelf + Drop> Watched<'a, F> {
    /// The shelf, with a counter of its appends.
    pub fn new(shelf: F, appends: &'a AtomicU64) -> Self {
        Watched { shelf, appends }
    }
}

impl<'a, F: Shelf + Drop> Shelf for Watched<'a, F> {
    ghost seen = { λ s. F.seen s.shelf };

    fn read(&mut self, name: &str, at: u64, piece: &mut [u8]) -> Result<usize, Failed> {
        self.shelf.read(name, at, piece)
    }

    fn append(&mut self, name: &str, piece: &[u8]) -> Result<usize, Failed> {
        let answer = self.shelf.append(name, piece);
        self.appends.fetch_add(1, Ordering::SeqCst);
        answer
    }

    fn cut(&mut self, name: &str, len: u64) -> Result<(), Failed> {
        self.shelf.cut(name, len)
    }
}

/// How often a held worker looks at most.
const LOOKS: u64 = 1_000_000_000;

/// A gate that holds whoever drew batch 0 until the result file has a row behind its header.
#[derive(Drop)]
pub struct HoldsFirst<'a> {
    appends: &'a AtomicU64,
}

impl<'a> HoldsFirst<'a> {
    /// Such a gate, which looks at the counter of the appends.
    pub fn new(appends: &'a AtomicU64) -> Self {
        HoldsFirst { appends }
    }
}

impl<'a> Gate for HoldsFirst<'a> {
    fn drawn(&self, _worker: u32, batch: u32) {
        if batch == 0 {
            for _ in 0..LOOKS {
                if self.appends.load(Ordering::SeqCst) > 1 {
                    return;
                }
            }
        }
    }
}
