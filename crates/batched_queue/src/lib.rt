//! A FIFO queue in stripes. A batch of puts and gets is cut into pieces of one stripe each, which threads may share.
//!
//! `FifoQueue` is seen as the list of its items, the oldest first. A batch is answered as if its calls had come one
//! after another, in however many threads it is served. The items lie in 16 stripes, and each piece of a batch works on
//! one of them; items are counted round the stripes, so no number overflows, however many items pass through. `laws`
//! says that over any batches the numbers got, followed by the numbers left, are the numbers of the queue before,
//! followed by the numbers put. The crate stands on `piece_threads`, which runs the pieces, and on `seq_objects`, whose
//! replies it answers.
#![tactic(auto)]

mod begin;
mod call;
mod end;
pub mod laws;
mod order;
mod piece;
mod queue;
mod serve;

pub use call::FifoCall;
pub use order::in_batch_order;
pub use queue::FifoQueue;
