//! A forest cut at many keys into forests, and forests joined again.
//!
//! A structure that serves a batch by ranges of keys gives each range its own forest. `cut_below_each` cuts one forest
//! into those of the ranges, and `join_forests` joins them when the ranges are served. Both proceed from the least keys
//! to the greatest and move whole subtrees. `keyed_pieces` defines the ranges; `tree_forest` has the single cut and the
//! single join.
#![tactic(auto)]

mod cut;
mod join;

pub use cut::cut_below_each;
pub use join::join_forests;
