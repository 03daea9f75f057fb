// What happened on a shelf: a record that exists in contracts alone. It takes no memory, and its methods do nothing at run time.
ghost use Rattle.std.specs.Prelude.{◌≡◌, List, [], ◌∷◌};
ghost use base.Fml.{ftrue};
ghost use Rattle.fm_shelf.specs.Event.{Event, events_code};

use crate::shelf::Failed;
use std::marker::Model;

/// The calls of a shelf, or of an output, so far, the last of them first. Who keeps one notes each of its calls in it, and that it notes what it
/// has done is no more proved than what the system's files hold.
#[derive(Drop)]
pub struct Past {
    pub ghost events: { List Event } by { events_code },
}

impl Model for Past {
    ghost also_owns = { λ _. ftrue };
}

// It owns nothing.
unsafe impl Send for Past {}

/// A call of a shelf or of an output, with its answer. Of a read there is the piece as the call has left it.
#[derive(Clone, Copy, Drop)]
pub enum Note<'a> {
    Read {
        name: &'a str,
        at: u64,
        piece: &'a [u8],
        answer: Result<usize, Failed>,
    },
    Append {
        name: &'a str,
        piece: &'a [u8],
        answer: Result<usize, Failed>,
    },
    Cut {
        name: &'a str,
        len: u64,
        answer: Result<(), Failed>,
    },
    Write {
        piece: &'a [u8],
        answer: Result<usize, Failed>,
    },
}

impl Past {
    ghost use Rattle.fm_shelf.specs.Noted.{event_of};

    /// No call so far.
    pub fn new() -> Past
        ensures { result.events ≡ [] }
    {
        Past {}
    }

    /// These calls, and then this one.
    #[inline(always)]
    pub fn then(&self, _note: &Note<'_>) -> Past
        ensures { result.events ≡ event_of self.now.events _note.now ∷ self.now.events }
    {
        Past {}
    }
}
