//! The tasks of the workers.

/// The task of a worker. Each task except `Idle` names one node.
#[derive(Clone, Copy)]
pub enum Task {
    /// No task: the worker may claim a node.
    Idle,
    /// A claimed node, not started or opened yet.
    Run(u32),
    /// A parallel block whose right side was made ready; its left side is next.
    Half(u32),
    /// A started leaf, with its start tick.
    Started { node: u32, start: u64 },
    /// A started leaf whose value is stored.
    Kept { node: u32, start: u64 },
    /// A leaf that has ended, with both ticks.
    Ended { node: u32, start: u64, end: u64 },
    /// A node that is done and is not the root; its parent is next.
    Whole(u32),
    /// A parallel block at which both sides have arrived; it is finished next.
    Handed(u32),
}
