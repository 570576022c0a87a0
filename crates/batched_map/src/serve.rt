//! Serving the operations of a range.
ghost use Rattle.std.specs.Prelude.{◌≡◌, ◌≤◌, ◌^◌, ◌++◌, IfOk, OnOk};
ghost use Rattle.rank_nodes.specs.Maps.{rank_of};
ghost use Rattle.batched_map.specs.Maps.{after};
ghost use Rattle.batched_map.specs.Code.Ranges.{reply_in};
ghost use Rattle.batched_map.specs.Code.Pieces.{Meets};

use crate::call::MapOp;
use crate::piece::{Piece, Range, Served};
use piece_threads::Pieces;
use rank_tree::RankTree;
use seq_objects::Reply;
use std::alloc::{AllocError, Global};
use std::collections::VecDeque;

/// The pieces of the map's batches.
pub(crate) struct RangePieces;

/// How many keys of a range are below the key.
fn rank_of(tree: &RankTree, key: u32) -> u64
    ensures rank { result ≡ rank_of key tree.now }
    ensures small { result ≤ 2 ^ 32 }
{
    let _size = tree.len();
    tree.rank(key)
}

/// Serves an operation on a range that has `before` keys of the map before it.
fn serve_one(tree: &mut RankTree, before: u64, operation: MapOp) -> Result<Reply, AllocError>
    requires { before ≤ 2 ^ 32 }
    ensures reply { IfOk result (λ reply. reply ≡ reply_in before tree.old operation) }
    ensures tree { OnOk result (tree.new ≡ after tree.old operation) }
{
    let reply = match operation {
        MapOp::Put(key, val) => Reply::number_or_empty(tree.put(key, val)?),
        MapOp::Del(key) => Reply::number_or_empty(tree.del(key)),
        MapOp::Get(key) => Reply::number_or_empty(tree.get(key)),
        MapOp::Rank(key) => Reply::Number(before + rank_of(tree, key)),
        MapOp::Nth(index) => {
            Reply::number_or_empty(tree.nth(u64::from(index).saturating_sub(before)))
        }
    };
    Ok(reply)
}

impl Pieces<Piece, Served> for RangePieces {
    ghost meets = { Meets };

    fn piece(alloc: Global, input: Piece) -> Result<Served, AllocError> {
        let Piece { range, operations } = input;
        let Range { mut tree, before } = range;
        let mut replies = VecDeque::with_capacity(alloc, operations.len())?;
        for operation in &operations {
            replies.push_back(serve_one(&mut tree, before, *operation)?)?;
        }
        Ok(Served { tree, replies })
    }
}
