// The output as a call has found it.
ghost use Rattle.std.specs.Prelude.{◌≡◌};
ghost use Rattle.fmeda_top.specs.Program.{SendsOn};

use fm_shelf::shelf::{Failed, Sink};
use std::marker::{Brand, Model, PhantomData};

/// What an output had sent when a call began, where that is known. It exists in contracts alone.
pub(crate) trait Earlier {
    ghost use Rattle.std.specs.Prelude.{ℕ, List, Option};

    ghost sent: { Option (List ℕ) };
}

impl Earlier for Brand {
    ghost use Rattle.std.specs.Prelude.{None};

    ghost sent = { None };
}

/// A sink as a call has found it: what the call sends goes out behind what was sent earlier.
#[derive(Drop)]
pub(crate) struct Continued<O: Sink + Drop, N: Earlier> {
    out: O,
    since: PhantomData<N>,
}

impl<O: Sink + Drop, N: Earlier> Model for Continued<O, N> {
    ghost Value = { O };

    ghost view = { λ c. c.out };

    ghost invariant = { λ c. SendsOn N.sent (O.seen c.out).written };
}

impl<O: Sink + Drop, N: Earlier> Continued<O, N> {
    /// The sink, from now on.
    pub(crate) fn new(out: O) -> Self
        requires { (O.seen out).written ≡ N.sent }
        ensures { result ≡ out }
    {
        Continued {
            out,
            since: PhantomData,
        }
    }

    /// The sink. What was sent earlier stands.
    pub(crate) fn into_sink(self) -> O
        ensures sink { result ≡ self }
        ensures on { SendsOn N.sent (O.seen result).written }
    {
        let Continued { out, .. } = self;
        out
    }
}

impl<O: Sink + Drop, N: Earlier> Sink for Continued<O, N> {
    ghost seen = { λ c. O.seen c };

    fn write(&mut self, piece: &[u8]) -> Result<usize, Failed> {
        self.out.write(piece)
    }

    fn failures(&self) -> u64 {
        self.out.failures()
    }
}
