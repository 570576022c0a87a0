//! A piece of a batch, which has a range of the map, and its out.
ghost use Rattle.std.specs.Prelude.{◌≤◌, ◌^◌};

use crate::call::MapOp;
use rank_tree::RankTree;
use seq_objects::Reply;
use std::collections::VecDeque;

/// A range of a map, and how many of the map's keys are before it.
#[derive(Drop)]
pub(crate) struct Range {
    pub(crate) tree: RankTree,
    pub(crate) before: u64,
    ghost few: { before ≤ 2 ^ 32 },
}

/// A range, with the operations of the batch that are dealt to it: queries first, as in the batch.
#[derive(Drop)]
pub(crate) struct Piece {
    pub(crate) range: Range,
    pub(crate) operations: Vec<MapOp>,
}

/// The range after its operations, and the replies to them.
#[derive(Drop)]
pub(crate) struct Served {
    pub(crate) tree: RankTree,
    pub(crate) replies: VecDeque<Reply>,
}
