// What a line says, as pieces of the file.
ghost use Rattle.std.specs.Prelude.{◌≡◌};
ghost use Rattle.bench_reader.specs.Meant.{kind_of_malformed};

use crate::BenchKind;
use crate::gate::Gate;

/// Why a line is wrong by itself.
#[derive(Clone, Copy)]
pub enum Malformed {
    BadLine,
    BadGate,
    BadCount,
}

impl Malformed {
    /// The kind of refusal.
    pub fn kind(self) -> BenchKind
        ensures { result ≡ kind_of_malformed self }
    {
        match self {
            Malformed::BadLine => BenchKind::BadLine,
            Malformed::BadGate => BenchKind::BadGate,
            Malformed::BadCount => BenchKind::BadCount,
        }
    }
}

/// What a line says.
#[derive(Clone, Copy)]
pub enum Says<'a> {
    /// No token.
    Nothing,
    /// `INPUT(net)`.
    Input(&'a [u8]),
    /// `OUTPUT(net)`.
    Output(&'a [u8]),
    /// `out = AND(in, in)`, and likewise the other gates. `ins` is the text behind the opening bracket, whose names are
    /// well-formed, and as many as the gate may have.
    Table {
        out: &'a [u8],
        gate: Gate,
        ins: &'a [u8],
    },
    /// `out = DFF(from)`.
    Latch {
        out: &'a [u8],
        from: &'a [u8],
    },
    /// A line that is wrong by itself.
    Wrong(Malformed),
}
