//! The value change dump of one run, for wave viewers: nets without faults, and beside them with one fault alone.
#![tactic(auto)]

mod changed;
mod dump;
mod header;
mod law;
mod named;
mod scene;
mod shown;
mod values;
mod words;

pub use dump::Dump;
use fm_base::Name;
pub use law::{codes_are_apart, prints_traces};

/// Why there is no dump, in the order in which the causes are looked for.
#[derive(Clone, Copy, Debug, PartialEq, Eq)]
pub enum DumpFault {
    /// The workload has no run of this number.
    NoRun,
    /// No fault of the list has this name.
    NoFault,
    /// No net matches the pattern.
    NoNet,
}

/// What is asked for.
#[derive(Clone, Copy)]
pub struct Asked<'a> {
    /// The number of the run, from 1.
    pub run: u32,
    /// The name of a fault, as a report has it, where one was given.
    pub fault: &'a Option<Name>,
    /// The cycles of flips and of pulses that a fault may have.
    pub flips: &'a [u32],
    pub pulses: &'a [u32],
    /// `all`; `differing`, for the nets that the fault changes at some cycle; or the pattern of a name, as a rates file has it. Where none
    /// was given it is `differing` with a fault, and else `all`.
    pub nets: &'a Option<Name>,
}
