//! Operations that have a key each, served independently by ranges of keys.
//!
//! A structure that keeps its entries in the order of their keys, such as a set or a map, is cut into ranges of keys,
//! and the operations of a batch are dealt to the ranges. If each operation touches only what is at its own key,
//! serving the ranges independently leaves the same entries as serving one operation after another, and gives the same
//! replies once they are merged. `laws` proves this for any order of the batch and any types of entries, operations and
//! replies. `deal` distributes the operations to the groups of their keys, and `merge` puts the replies of the groups
//! back in batch order. `key_sets` divides the keys of a batch into groups.
#![tactic(auto)]

pub mod dealing;
pub mod laws;

pub use dealing::{deal, merge};
