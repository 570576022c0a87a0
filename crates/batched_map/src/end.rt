//! The end of a batch: the ranges of its pieces are joined.
ghost use Rattle.std.specs.Prelude.{◌≡◌, ◌<◌, ◌≤◌, length, IfOk};
ghost use Rattle.keyed_pieces.specs.Dealing.{queued};
ghost use Rattle.keyed_pieces.specs.Ranges.{side_by_side};
ghost use Rattle.rank_nodes.specs.Maps.{Ascends};
ghost use Rattle.batched_map.specs.Code.Pieces.{IsJoined, trees_left, replies_left};

use crate::piece::Served;
use rank_tree::RankTree;
use seq_objects::Reply;
use std::alloc::{AllocError, Global};
use std::collections::VecDeque;

/// Takes off and joins the last `count` trees, each half by itself first, so that trees of about one size are joined.
fn join_last(trees: &mut Vec<RankTree>, count: usize) -> Result<RankTree, AllocError>
    requires some { 0 < count }
    requires there { count ≤ length trees.old.items }
    requires ascends { Ascends (side_by_side trees.old.items) }
    ensures { IfOk result (λ tree. IsJoined trees.old.items trees.new.items count tree) }
{
    if count == 1 {
        let Some(tree) = trees.pop() else {
            unreachable!()
        };
        return Ok(tree);
    }
    let high = join_last(trees, count / 2)?;
    let low = join_last(trees, count - count / 2)?;
    let tree = RankTree::concat(low, high)?;
    Ok(tree)
}

/// The tree of the ranges of all pieces, in their order, and the replies of each piece.
pub(crate) fn join(
    alloc: Global,
    outs: Vec<Served>,
) -> Result<(RankTree, Vec<VecDeque<Reply>>), AllocError>
    requires some { 0 < length outs.items }
    requires ascends { Ascends (side_by_side (trees_left outs.items)) }
    ensures tree { IfOk result (λ p. p.0 ≡ side_by_side (trees_left outs.items)) }
    ensures replies { IfOk result (λ p. queued p.1.items ≡ replies_left outs.items) }
{
    let count = outs.len();
    let mut trees = Vec::with_capacity(alloc, count)?;
    let mut all = Vec::with_capacity(alloc, count)?;
    for out in outs {
        let Served { tree, replies } = out;
        trees.push(tree)?;
        all.push(replies)?;
    }
    let tree = join_last(&mut trees, count)?;
    Ok((tree, all))
}
