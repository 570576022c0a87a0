//! The events of the model: the atomic steps by which workers change the core's state.

use crate::status::Receipt;

/// One event of a worker. Each variant is one rule of the model and carries the nodes that the rule names; `left` and
/// `right` are the sides of the block `parent`.
#[derive(Clone, Copy)]
pub enum Event {
    /// The worker claims this ready node, which may be in any worker's list.
    Claim(u32),
    /// The worker starts this leaf and draws a tick.
    Start(u32),
    /// The right side of a parallel block becomes ready. This comes first, so the left side becomes the newer one.
    OpenParRight {
        parent: u32,
        left: u32,
        right: u32,
    },
    /// The left side of a parallel block becomes ready, after the right one.
    OpenParLeft {
        parent: u32,
        left: u32,
        right: u32,
    },
    /// The left side of a series block becomes ready.
    OpenSeqLeft {
        parent: u32,
        left: u32,
        right: u32,
    },
    /// The right side of a series block becomes ready, after the left one is done.
    OpenSeqRight {
        parent: u32,
        left: u32,
        right: u32,
    },
    /// The worker posts the call of this leaf. From then on it is trapped.
    Post {
        node: u32,
        start: u64,
    },
    /// The worker takes the free flag and becomes the launcher of a batch.
    Win,
    /// The flag's owner looks at this worker, and takes its call if that is pending.
    Take(u32),
    /// The taken calls are served and appended to the book as one batch.
    Publish,
    /// The flag's owner hands this worker its receipt.
    Answer {
        worker: u32,
        receipt: Receipt,
    },
    /// The owner releases the flag.
    Release,
    /// The worker leaves its call with this receipt and is no longer trapped.
    Leave(Receipt),
    /// The worker stores the value of this started leaf.
    Keep {
        node: u32,
        start: u64,
        value: u64,
    },
    /// The worker ends this leaf and draws a tick.
    End {
        node: u32,
        start: u64,
    },
    /// This leaf is done, with its start and end ticks.
    FinishLeaf {
        node: u32,
        start: u64,
        end: u64,
    },
    /// A series block is done, because its right side is.
    FinishSeq {
        parent: u32,
        left: u32,
        right: u32,
    },
    /// A parallel block is done, because both its sides have arrived.
    FinishPar {
        parent: u32,
        left: u32,
        right: u32,
    },
    /// `side` is the first side to arrive at its parallel block.
    ArriveFirst {
        parent: u32,
        left: u32,
        right: u32,
        side: u32,
    },
    /// `side` is the second side to arrive at its parallel block. The worker finishes the block next.
    ArriveSecond {
        parent: u32,
        left: u32,
        right: u32,
        side: u32,
    },
}
