//! Points at which a test can hold a worker, to steer the interleaving of a run.

/// A moment in a worker's turn, just after or just before a step.
#[derive(Clone, Copy)]
pub enum Point {
    /// The worker has started this leaf; its work is still to come.
    LeafStart(u32),
    /// The worker has posted the call of this leaf.
    Posted(u32),
    /// The worker has won the batch flag, so it is the combiner of the next batch.
    Won,
    /// The worker is about to run the batch piece at this place.
    PieceStart(u32),
}

/// The hook that workers call at each `Point`, while they hold no lock.
pub trait Pause {
    /// Called by worker `worker` at `point`. The worker continues when this returns.
    fn at(&self, point: Point, worker: u32);
}

/// Holds no worker: `at` returns at once.
#[derive(Clone, Copy)]
pub struct NoPause;

impl Pause for NoPause {
    fn at(&self, _point: Point, _worker: u32) {}
}
