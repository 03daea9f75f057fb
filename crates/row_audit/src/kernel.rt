// What an audit simulates by.

/// What an audit simulates by.
#[derive(Clone, Copy, Debug, PartialEq, Eq)]
pub enum Kernel {
    /// 256 circuits at once, in each of which every table is evaluated in every cycle: three batches, and the golden circuit.
    EveryTable,
    /// One circuit at a time, by the rows of its tables: the 64 faults of a batch one by one, and the golden circuit.
    OneCircuit,
}
