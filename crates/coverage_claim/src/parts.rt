// What a claim is made of.
use circuit::parts::NetId;

/// What faults may do to a net.
#[derive(Clone, Copy, Debug, PartialEq, Eq)]
pub enum Site {
    /// Nothing.
    Intact,
    /// Anything, in any cycle.
    Free,
    /// They hold it at this value.
    Only(bool),
}

/// An input that has a value from a cycle on, and before that another one, or any.
#[derive(Clone, Copy, Debug, PartialEq, Eq)]
pub struct Held {
    pub net: NetId,
    /// The first cycle in which it has its later value.
    pub from: u32,
    /// The value that it has before; with none it may have any.
    pub before: Option<bool>,
    /// The value that it has from then on.
    pub value: bool,
}
