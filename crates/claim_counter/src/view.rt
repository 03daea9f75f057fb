use std::collections::LinkedList;

/// What a seat did and knows, for contracts alone: no value of it is made.
pub struct View {
    /// How many numbers there are.
    pub todo: u64,
    /// Of 2^32 shares, those of this seat. 0 where it was joined into another.
    pub share: u64,
    /// How often a draw was answered None.
    pub nones: u64,
    /// The numbers that it drew.
    pub claims: LinkedList<u64>,
    /// The numbers that it noted.
    pub posts: LinkedList<u64>,
    /// The beginning of the history that it has seen.
    pub seen: LinkedList<u64>,
    /// Whether the table's first turn was taken.
    pub opened: bool,
    /// Whether it holds the turn.
    pub holds: bool,
    /// Whether it knows of a failure.
    pub fails: bool,
}
