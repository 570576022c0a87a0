//! A set of numbers that serves a batch of calls in pieces, each of which owns a part of the set's 2-3 trees.
//!
//! `TreeSet` implements `Batched` of `seq_objects`. `key_sets` cuts the distinct keys of a batch into groups. The
//! forest of trees is cut below the least key of each group but the first, and each piece works on its own forest. The
//! subtrees of `tree_forest` move whole at a cut. A piece also knows the least key beyond its range, which may answer a
//! `TreeNext`. The replies to a batch and the keys after it are those of serving the calls one after another. `laws`
//! states how many pieces a batch has.
#![tactic(auto)]

mod begin;
mod end;
pub mod laws;
pub mod piece;
mod pool;
mod serve;
pub mod tree_set;

pub use piece::{Piece, Rest, Served};
pub use tree_set::TreeSet;
