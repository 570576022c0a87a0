//! The progress of the workers' calls of the shared objects.

use seq_objects::Reply;

/// The receipt of a call: the number of its batch, the place of its entry in the batch, and the reply. Both count from
/// 0.
#[derive(Clone, Copy)]
pub struct Receipt {
    pub batch: u32,
    pub place: u32,
    pub reply: Reply,
}

/// The status of a worker, by its call. A worker is trapped while its status is not `Free`.
#[derive(Clone, Copy)]
pub enum Status {
    /// No call of the worker is outstanding.
    Free,
    /// The call is posted, and no owner of the flag has taken it yet.
    Pending,
    /// The flag's owner has taken the call.
    Executing,
    /// The call is answered with this receipt, and the worker has not left it yet.
    Served(Receipt),
}

/// What a worker knows of the call of its started leaf.
#[derive(Clone, Copy)]
pub enum CallState {
    /// No call is posted for a present leaf.
    NotCalled,
    /// The call is posted, and the worker has not left it.
    Out,
    /// The worker has left the call with this receipt.
    Got(Receipt),
}
