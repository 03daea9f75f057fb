// Why a netlist file is refused, and its logical lines.
#![tactic(auto)]

mod ink;
pub mod lines;
pub mod places;
pub mod token;
mod tokens;

use fm_base::Name;

/// The kinds of refusal, in the order in which they are looked for.
#[derive(Drop)]
pub enum NetlistKind {
    NoModel,
    BadToken,
    Directive,
    BadRow,
    MixedPlane,
    BadLatch,
    LevelLatch,
    TooWide,
    TwoModels,
    UnknownModel,
    BadFormal,
    Unbound,
    Recursive,
    TooDeep,
    TooLarge,
    TwoClocks,
    BadClock,
    ClockRead,
    TwoDrivers,
    Undriven(Name),
}

/// The line and the kind of the refusal of a netlist file.
#[derive(Drop)]
pub struct NetlistFault {
    pub line: u32,
    pub kind: NetlistKind,
}
