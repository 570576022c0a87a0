//! Structures that threads share, each with calls of its own.
//!
//! `SharedCounter` is a counter of 64 bits, `SharedStack` a stack, `SharedSet` an ordered set, and `SharedQueue` a
//! priority queue, of numbers of 32 bits. A structure is shared by `shared_calls`: each thread has a caller, and a call
//! stands as if it were alone. `batches` serves what is asked of a stack, a set or a queue by a batched structure, in
//! batch order, and gives each caller its own reply.
#![tactic(auto)]

mod batches;
pub mod counter;
pub mod laws;
pub mod queue;
pub mod sending;
pub mod set;
pub mod stack;

pub use counter::{Counter, SharedCounter};
pub use queue::{CombinedQueue, QueueOp, QueueReply, SharedQueue};
pub use set::{CombinedSet, SetOp, SetReply, SharedSet};
pub use stack::{CombinedStack, SharedStack, StackOp, StackReply};
