//! A stack that serves a batch of pushes and pops in pieces.
//!
//! `Stack` implements `Batched` of `seq_objects`. Its items lie in 16 stripes, by their place modulo 16. Each piece of
//! a batch works on one stripe; the replies and the items afterwards are those of serving the calls one after another.
//! A stripe's vector has exactly the capacity that its room says, and one rule changes the room. `laws` bounds the
//! items that changes of room copy by twice the calls, and states how many pieces a batch has.
#![tactic(auto)]

mod begin;
mod end;
pub mod laws;
pub mod piece;
mod serve;
pub mod stack;
pub mod stripe;

pub use piece::{Piece, Rest, Served};
pub use stack::Stack;
pub use stripe::Stripe;
