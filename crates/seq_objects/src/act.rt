//! The action of a leaf of a job: local work, or a call of a shared object.

use crate::op::Op;

/// The action of a leaf of a job.
#[derive(Clone, Copy, PartialEq, Eq)]
pub enum Act {
    /// This number of steps of `spin`, without a call.
    Work(u32),
    /// One call of a shared object.
    Call(Op),
}
