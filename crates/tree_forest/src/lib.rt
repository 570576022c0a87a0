//! A set of 32-bit numbers as a forest: a row of 2-3 trees with a key between neighbours. A forest is cheap to cut at
//! many keys and to put together again.
//!
//! Contracts model a `Forest` as the strictly ascending list of its keys and the number of its trees. Search, insertion
//! and removal work as in one tree. `Remaining` takes the parts of a forest off its low end. `Forest::append` puts one
//! forest after another, and `Forest::compact` leaves at most 65 trees. The trees are those of `tree23`, whose subtrees
//! move whole.
#![tactic(auto)]

pub mod forest;
pub mod pool;

pub use forest::Forest;
pub use forest::remaining::Remaining;
pub use pool::ForestPool;
