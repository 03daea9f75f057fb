/// One atomic step of a campaign, as the machine sees it. A `u32` is the worker's number, a `u64` the number of a batch.
#[derive(Clone, Copy, Debug, PartialEq, Eq)]
pub enum Event {
    /// The worker claims the next number, or is told that there is none left.
    Draw(u32),
    /// The worker appends a number that it claimed to the history.
    Post(u32, u64),
    /// The worker reads the history, and whether the campaign has failed.
    Look(u32),
    /// The worker marks the campaign as failed: an append to the result file went wrong.
    Fail(u32),
}
