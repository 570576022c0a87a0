//! The status word of a worker: how far its call has come.

/// No call of the worker is outstanding.
pub const FREE: u64 = 0;

/// The worker's call is posted, and no launch has taken it.
pub const PENDING: u64 = 1;

/// A launch has taken the call.
pub const EXECUTING: u64 = 2;

/// The call's receipt is in the worker's record slot.
pub const SERVED: u64 = 3;
