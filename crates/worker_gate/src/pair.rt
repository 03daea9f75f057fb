ghost use Rattle.std.specs.Prelude.{◌≡◌};

use crate::gate::Gate;
use std::sync::atomic::{AtomicBool, AtomicU64, Ordering};

// How often the first caller looks at most
const LOOKS: u64 = 100_000_000;

/// A gate for tests, at which the first caller waits for a second: it shows that two workers are at work at once.
#[derive(Drop)]
pub struct PairGate {
    looks: u64,
    calls: AtomicU64,
    met: AtomicBool,
}

impl PairGate {
    /// A gate that nobody has called. The first caller looks for the second at most 100,000,000 times.
    pub fn new() -> PairGate
        ensures { result.looks ≡ 100000000 }
    {
        PairGate::with_looks(LOOKS)
    }

    /// The same, with another number of looks.
    pub(crate) fn with_looks(looks: u64) -> PairGate
        ensures { result.looks ≡ looks }
    {
        PairGate {
            looks,
            calls: AtomicU64::new(0),
            met: AtomicBool::new(false),
        }
    }

    /// Whether the first caller saw a second call within its looks.
    pub fn met(&self) -> bool {
        self.met.load(Ordering::SeqCst)
    }

    // Looks for a second call
    fn sees_another(&self) -> bool {
        for _ in 0..self.looks {
            if self.calls.load(Ordering::SeqCst) > 1 {
                return true;
            }
        }
        false
    }
}

impl Gate for PairGate {
    fn drawn(&self, _worker: u32, _batch: u32) {
        let earlier = self.calls.fetch_add(1, Ordering::SeqCst);
        if earlier == 0 && self.sees_another() {
            self.met.store(true, Ordering::SeqCst);
        }
    }
}
