/// Told of each draw.
pub trait Gate {
    /// The worker with this number drew this batch, and hasn't begun to simulate it.
    fn drawn(&self, worker: u32, batch: u32);
}

/// A gate that does nothing.
#[derive(Clone, Copy, Debug)]
pub struct NoGate;

impl Gate for NoGate {
    fn drawn(&self, _worker: u32, _batch: u32) {}
}
