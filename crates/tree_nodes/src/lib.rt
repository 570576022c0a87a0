//! The nodes of a 2-3 tree: each inner node has two or three children (`side` in names) of equal depth with a key
//! between neighbours, and the bottom level consists of leaves of up to 256 keys.
//!
//! Search, insertion and removal work in place. Contracts describe a tree as the list of its keys. `Tree23`, in the
//! crate above, hides the nodes. `key_sets` supplies the vocabulary for sets of keys.
#![tactic(auto)]

pub mod insert;
pub mod leaf;
pub mod node;
pub mod pool;
mod rebalance;
pub mod remove;
pub mod search;
pub mod split_node;

pub use node::{Rooted, Tree};
pub use pool::Pool;
