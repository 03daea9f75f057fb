// The machine, event by event.
use campaign_core::{Core, Event, StepRefusal, step};
use std::alloc::Global;
use std::test::*;

// Events on a fresh machine for two numbers, each with whether it is lawful, and what the machine is after them.
#[derive(Clone, Copy)]
struct Row {
    events: &'static [(Event, bool)],
    history: &'static [u64],
    next: u64,
    failed: bool,
}

// A post needs a claim of its worker; posts come in any order; nothing is posted after a failure.
const ROWS: [Row; 3] = [
    Row {
        events: &[(Event::Post(0, 0), false), (Event::Draw(0), true)],
        history: &[],
        next: 1,
        failed: false,
    },
    Row {
        events: &[
            (Event::Draw(0), true),
            (Event::Draw(1), true),
            (Event::Draw(1), true),
            (Event::Post(1, 0), false),
            (Event::Post(1, 1), true),
            (Event::Post(0, 0), true),
            (Event::Post(0, 0), false),
            (Event::Look(0), true),
        ],
        history: &[1, 0],
        next: 2,
        failed: false,
    },
    Row {
        events: &[
            (Event::Draw(0), true),
            (Event::Fail(0), true),
            (Event::Post(0, 0), false),
        ],
        history: &[],
        next: 1,
        failed: true,
    },
];

// The core after the event, whether it was accepted or not, and whether it was
fn tried(core: Core, event: Event) -> (Core, bool) {
    match step(core, event) {
        Ok(core) => (core, true),
        Err(StepRefusal::NotLawful(core) | StepRefusal::Memory(core, _)) => (core, false),
    }
}

fn is_after(core: &Core, row: &Row) -> bool {
    core.history() == row.history && core.next() == row.next && core.failed() == row.failed
}

fn is_right(alloc: Global, row: &Row) -> bool {
    let mut core = Core::new(alloc, 2);
    let mut right = true;
    for (event, lawful) in row.events {
        let accepted;
        (core, accepted) = tried(core, *event);
        right &= accepted == *lawful;
    }
    right && is_after(&core, row)
}

#[test]
fn events_are_lawful_or_not(rt: HostRuntime) {
    for (i, row) in ROWS.iter().enumerate() {
        assert!(rt; is_right(rt.alloc(), row), "row {i}");
    }
}
