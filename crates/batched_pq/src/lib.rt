//! A priority queue in eight shards that serves a batch of inserts and takes in pieces.
//!
//! `Queue` implements `Batched` of `seq_objects`. Each piece adds its share of the inserts to one shard and moves that
//! shard's least items to its front, independently of the others. The end takes the least item of all fronts, once for
//! each take. So the replies to a batch and the items after it are those of serving the calls one after another. `laws`
//! states how many pieces a batch has.
#![tactic(auto)]

mod begin;
mod end;
pub mod heap;
pub mod laws;
pub mod piece;
pub mod queue;
mod serve;
pub mod shard;

pub use heap::Heap;
pub use piece::{Piece, Rest, Served};
pub use queue::Queue;
pub use shard::Shard;
