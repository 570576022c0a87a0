//! Calls of a batched queue.

/// A worker's call of the queue: a put of the item where there is one, else a get.
#[derive(Clone, Copy)]
pub struct FifoCall {
    pub worker: u32,
    pub item: Option<u32>,
}
