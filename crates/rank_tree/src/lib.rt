//! A map between 32-bit numbers with rank and select, as a 2-3 tree. Each inner node has two or three subtrees of equal
//! depth and stores the number of its entries; the bottom level consists of leaves of entries.
//!
//! Contracts model the tree as the list of its entries, whose keys strictly ascend, and specify each call exactly on
//! that list. Rank and select each take one descent. A tree of depth d holds at least 2 ^ d - 1 keys, also after a cut
//! or a concatenation, both of which move whole subtrees. The nodes and the vocabulary for maps come from `rank_nodes`.
#![tactic(auto)]

#[doc(hidden)]
pub mod cut;
#[doc(hidden)]
pub mod join;
pub mod laws;
#[doc(hidden)]
pub mod search;
pub mod tree;

pub use tree::RankTree;
