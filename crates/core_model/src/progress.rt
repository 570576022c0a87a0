//! The progress of a job's nodes.

/// The progress of one node.
#[derive(Clone, Copy)]
pub enum Progress {
    /// Not opened yet: no event has made it ready.
    Waiting,
    /// Open for a claim; no worker has taken it.
    Ready,
    /// Claimed by a worker, and not done.
    Taken,
    /// A block that is done: both its sides are done.
    Done,
    /// A leaf that is done: its worker, and the ticks of its start and end.
    Ran { worker: u32, start: u64, end: u64 },
}
