//! A piece of a batch, which has one range of the set, its result, and what the set keeps meanwhile.

use crate::op::BulkKind;
use std::collections::VecDeque;
use tree_forest::{Forest, ForestPool};

/// One key of a call, and what is done with it.
#[derive(Clone, Copy)]
pub(crate) struct KeyOp {
    pub(crate) kind: BulkKind,
    pub(crate) key: u32,
}

/// A range of the set, and the keys of all calls that are in it, in the order in which they are served. It can be sent to
/// another thread.
#[derive(Drop)]
pub struct Piece {
    pub(crate) forest: Forest,
    pub(crate) operations: Vec<KeyOp>,
}

/// The range afterwards, and the answer to each key.
#[derive(Drop)]
pub struct Served {
    pub(crate) forest: Forest,
    pub(crate) answers: VecDeque<bool>,
}

/// What a set keeps while the pieces of a batch are served: the range of each key of the calls, and the pool of memory.
#[derive(Drop)]
pub struct Rest {
    pub(crate) groups: Vec<usize>,
    pub(crate) pool: ForestPool,
}
