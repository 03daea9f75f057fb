// The statement of a line, as slices of the file and of the line's tokens.
ghost use Rattle.std.specs.Prelude.{◌≡◌};
ghost use Rattle.blif_model.specs.Kinds.{kind_of_malformed};

use blif_text::NetlistKind;
use blif_text::token::Token;

/// The clock edge and the control of a latch, which stand together on its line.
#[derive(Clone, Copy)]
pub struct Clocked<'a> {
    pub edge: &'a [u8],
    pub control: &'a [u8],
}

/// A `.latch` line. `start` is true where the initial value is 1.
#[derive(Clone, Copy)]
pub struct LatchSays<'a> {
    pub from: &'a [u8],
    pub to: &'a [u8],
    pub clocking: Option<Clocked<'a>>,
    pub start: bool,
}

/// Why a directive is wrong by itself.
#[derive(Clone, Copy)]
pub enum Malformed {
    BadToken,
    Directive,
    BadLatch,
    LevelLatch,
}

impl Malformed {
    /// The kind of refusal.
    pub fn kind(self) -> NetlistKind
        ensures { result ≡ kind_of_malformed self }
    {
        match self {
            Malformed::BadToken => NetlistKind::BadToken,
            Malformed::Directive => NetlistKind::Directive,
            Malformed::BadLatch => NetlistKind::BadLatch,
            Malformed::LevelLatch => NetlistKind::LevelLatch,
        }
    }
}

/// What a line says. Names that follow a directive stay tokens of the line; those of `Instance` are well-formed bindings,
/// which `bindings::pair_of` splits.
#[derive(Clone, Copy)]
pub enum Says<'m, 'a> {
    /// `.model` with one name.
    Model(&'a [u8]),
    Inputs(&'m [Token<'a>]),
    Outputs(&'m [Token<'a>]),
    Clock(&'m [Token<'a>]),
    /// `.names`: the inputs, then the output.
    Table {
        ins: &'m [Token<'a>],
        out: &'a [u8],
    },
    Latch(LatchSays<'a>),
    /// `.subckt`: the name of the instanced model, and the bindings.
    Instance {
        name: &'a [u8],
        bindings: &'m [Token<'a>],
    },
    End,
    /// A row with all of its tokens.
    Row(&'m [Token<'a>]),
    /// A line that is read as if it weren't there.
    Passed,
    /// `.model` without one name.
    Unnamed,
    /// Any other directive that is wrong by itself.
    Wrong(Malformed),
}
