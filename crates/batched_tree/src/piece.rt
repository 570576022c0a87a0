//! A piece of a batch, its result, and what the set keeps meanwhile.
ghost use Rattle.std.specs.Prelude.{◌≡◌, true};
ghost use Rattle.std.specs.List.{list_all};
ghost use Rattle.batched_tree.specs.Calls.{is_of_tree};

use crate::pool::Pool;
use seq_objects::{Call, Reply};
use tree_forest::Forest;

/// The part of the set in one range of keys, the calls whose keys lie in that range, and the least key of the whole set
/// beyond it. `replies` is reused memory with stale content.
#[derive(Drop)]
pub struct Piece {
    pub forest: Forest,
    pub calls: Vec<Call>,
    pub replies: Vec<Reply>,
    pub beyond: Option<u32>,
    ghost of_tree: { list_all (λ call. is_of_tree call.op) calls.items ≡ true },
}

/// The forest after the calls, the replies to them, and the vector of the calls, which is returned for reuse.
#[derive(Drop)]
pub struct Served {
    pub forest: Forest,
    pub replies: Vec<Reply>,
    pub calls: Vec<Call>,
}

/// What a set keeps while the pieces of a batch are served: the group of each call, and the pool of memory.
#[derive(Drop)]
pub struct Rest {
    pub groups: Vec<usize>,
    pub pool: Box<Pool>,
}
