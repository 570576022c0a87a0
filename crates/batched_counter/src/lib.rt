//! A counter that serves a batch of additions in pieces.
//!
//! `Counter` implements `Batched` of `seq_objects` as a two-level prefix sum. Each piece computes the prefix sums of
//! its own addends, independently of the others; the end adds to them the number before the piece. So the replies and
//! the final number are those of serving the additions one after another. `laws` states how many pieces a batch has.
#![tactic(auto)]

mod begin;
pub mod counter;
mod end;
pub mod laws;
pub mod piece;
mod serve;

pub use counter::Counter;
pub use piece::{Piece, Rest, Served};
