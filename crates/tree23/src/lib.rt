//! A set of 32-bit numbers as a 2-3 tree: each inner node has two or three subtrees of equal depth, and the bottom
//! level consists of leaves of keys.
//!
//! Contracts model the tree as the strictly ascending list of its keys, and specify each call exactly on that list. A
//! tree of depth d holds at least 2 ^ d - 1 keys, also after a cut or a concatenation, both of which move whole
//! subtrees. The nodes come from `tree_nodes`, the vocabulary for sets of keys from `key_sets`.
#![tactic(auto)]

pub mod tree;
#[doc(hidden)]
pub mod trees;

pub use tree::Tree23;
