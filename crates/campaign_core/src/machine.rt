ghost use Rattle.std.specs.Prelude.{◌≡◌, true, false, IfOk, IfErr, OnOk, OnErr};
ghost use Rattle.campaign_core.specs.Machines.{fresh, is_claimed, is_posted, is_lawful, after};
ghost use Rattle.campaign_core.specs.Refusals.{Refuses};

use crate::event::Event;
use room::{NoRoom, push};
use std::alloc::Global;
use std::marker::Model;

/// A state of the machine. Contracts see it as a `Machine`.
#[derive(Drop)]
pub struct Core {
    limit: u64,
    next: u64,
    claims: Vec<(u32, u64)>,
    history: Vec<u64>,
    failed: bool,
}

impl Model for Core {
    ghost use Rattle.std.specs.Prelude.{◌≤◌};
    ghost use Rattle.campaign_core.specs.Machines.{Machine};

    ghost Value = { Machine };

    ghost view = { λ c. record { limit = c.limit; next = c.next; claims = c.claims.items; history = c.history.items; failed = c.failed } };

    ghost invariant = { λ c. c.next ≤ c.limit };
}

/// Why a step wasn't made. Each variant hands the core back as it was passed.
#[derive(Drop)]
pub enum StepRefusal {
    /// The event may not come next.
    NotLawful(Core),
    /// The event may come next, and there was no memory to keep it.
    Memory(Core, NoRoom),
}

impl Core {
    /// A fresh state for the numbers below `limit`. It takes no memory yet; `step` takes it from `alloc`.
    pub fn new(alloc: Global, limit: u64) -> Core
        ensures { result ≡ fresh limit }
    {
        Core {
            limit,
            next: 0,
            claims: Vec::new(alloc),
            history: Vec::new(alloc),
            failed: false,
        }
    }

    /// The number that the next draw claims, or `limit` where none is left.
    pub fn next(&self) -> u64
        ensures { result ≡ self.now.next }
    {
        self.next
    }

    /// The posted numbers, in the order posted.
    pub fn history(&self) -> &[u64]
        ensures { result.now ≡ self.now.history }
    {
        self.history.as_slice()
    }

    /// Whether the campaign has failed.
    pub fn failed(&self) -> bool
        ensures { result ≡ self.now.failed }
    {
        self.failed
    }

    fn claimed(&self, worker: u32, number: u64) -> bool
        ensures { result ≡ is_claimed worker number self.now.claims }
    {
        self.claims
            .iter()
            .any(|claim| claim.0 == worker && claim.1 == number)
    }

    fn posted(&self, number: u64) -> bool
        ensures { result ≡ is_posted number self.now.history }
    {
        self.history.iter().any(|earlier| *earlier == number)
    }

    fn allows(&self, event: Event) -> bool
        ensures { result ≡ is_lawful self.now event }
    {
        match event {
            Event::Post(worker, number) => {
                self.claimed(worker, number) && !self.posted(number) && !self.failed
            }
            _ => true,
        }
    }

    fn apply(&mut self, event: Event) -> Result<(), NoRoom>
        ensures ok { OnOk result (self.new ≡ after self.old event) }
        ensures err { OnErr result (self.new ≡ self.old) }
    {
        match event {
            Event::Draw(worker) => {
                if self.next < self.limit {
                    push(&mut self.claims, (worker, self.next))?;
                    self.next += 1;
                }
            }
            Event::Post(_, number) => push(&mut self.history, number)?,
            Event::Look(_) => {}
            Event::Fail(_) => self.failed = true,
        }
        Ok(())
    }
}

/// The machine after the event. NotLawful comes exactly where the event isn't lawful.
pub fn step(mut core: Core, event: Event) -> Result<Core, StepRefusal>
    ensures ok { IfOk result (λ r. (is_lawful core event ≡ true) × (r ≡ after core event)) }
    ensures err { IfErr result (λ r. Refuses core event r) }
{
    if !core.allows(event) {
        return Err(StepRefusal::NotLawful(core));
    }
    match core.apply(event) {
        Ok(()) => Ok(core),
        Err(no_room) => Err(StepRefusal::Memory(core, no_room)),
    }
}
