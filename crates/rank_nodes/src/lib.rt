//! The nodes of a 2-3 tree of entries with subtree sizes. Each inner node has two or three children (`side` in names)
//! of equal depth with an entry between neighbours, and stores the number of entries in its subtree. The bottom level
//! consists of leaves of up to 64 entries.
//!
//! Insertion and removal work in place, and update the size of each node on the path. Contracts describe a tree as the
//! list of its entries. `RankTree`, in the crate above, hides the nodes. `specs/Maps.antt` defines maps as lists of
//! entries; the crates above share its lemmas. `laws` says which maps can be concatenated. `keyed_pieces` supplies the
//! vocabulary for entries in the order of their keys.
#![tactic(auto)]

pub mod boxes;
pub mod entry;
pub mod insert;
pub mod laws;
pub mod leaf;
pub mod node;
mod rebalance;
pub mod remove;
pub mod split_node;

pub use boxes::Boxes;
pub use entry::Entry;
pub use node::{Rooted, Tree};
