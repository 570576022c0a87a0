//! Sets of keys as strictly ascending lists, and the groups into which a batch divides its keys.
//!
//! The specs define membership, insertion, removal, the next greater key, and the cut of a set at a key. The serial
//! objects and the trees state their contracts in these terms, and the crates above share the lemmas on them. `groups`
//! sorts keys, divides them into at most 16 groups of consecutive keys, and finds the group of a key. `laws` says where
//! the keys of the groups lie. The crate depends on std alone.
#![tactic(auto)]

pub mod groups;
pub mod laws;

pub use groups::{find_starts, group_of, sort_distinct};
