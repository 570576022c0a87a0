//! Cutting a tree at a key. Only the nodes on the path to the key are opened and all other subtrees move whole. Each
//! side is joined again on the way back up.
ghost use Rattle.std.specs.Prelude.{◌≡◌, ◌<◌, ◌^◌, IfOk};
ghost use Rattle.rank_nodes.specs.Maps.{Ascends};
ghost use Rattle.rank_nodes.specs.Nodes.{entries, depth, count, IsTree};
ghost use Rattle.rank_tree.specs.Cuts.{IsCut};

use crate::join::join;
use rank_nodes::Boxes;
use rank_nodes::leaf::cut_leaf;
use rank_nodes::node::{Rooted, Tree, two};
use std::alloc::AllocError;

/// Pairs a tree with its height.
#[inline]
fn rooted(tree: Tree, height: u64) -> Rooted
    ensures { result ≡ record { tree = tree; height = height } }
{
    Rooted { tree, height }
}

/// Cuts a leaf or an empty tree.
fn cut_bottom(tree: Tree, key: u32, boxes: &Boxes) -> Result<(Rooted, Rooted), AllocError>
    requires tree { IsTree tree }
    requires bottom { depth tree ≡ 0 }
    requires ascends { Ascends (entries tree) }
    ensures { IfOk result (λ p. IsCut key tree p.0 p.1) }
{
    match tree {
        Tree::Empty => Ok((Rooted::empty(), Rooted::empty())),
        Tree::Leaf(mut leaf) => {
            let after = cut_leaf(boxes.alloc, &mut leaf, key)?;
            Ok((rooted(Tree::Leaf(leaf), 0), rooted(Tree::Leaf(after), 0)))
        }
        Tree::Underfull(_) | Tree::Two(_) | Tree::Three(_) => unreachable!(),
    }
}

/// Cuts a tree into the entries whose keys are below `key` and the others, each as a tree.
#[tactic(auto, using(crate::proofs::Cutting::parts))]
pub fn cut_at(
    tree: Tree,
    height: u64,
    key: u32,
    boxes: &mut Boxes,
) -> Result<(Rooted, Rooted), AllocError>
    requires tree { IsTree tree }
    requires height { height ≡ depth tree }
    requires fits { count tree < 2 ^ 62 }
    requires ascends { Ascends (entries tree) }
    ensures { IfOk result (λ p. IsCut key tree p.0 p.1) }
{
    match tree {
        Tree::Two(mut node) => {
            let (first, low, second) = node.take_two();
            boxes.give(node);
            if key <= low.key {
                let (below, above) = cut_at(first, height - 1, key, boxes)?;
                Ok((below, join(above, low, rooted(second, height - 1), boxes)?))
            } else {
                let (below, above) = cut_at(second, height - 1, key, boxes)?;
                Ok((join(rooted(first, height - 1), low, below, boxes)?, above))
            }
        }
        Tree::Three(mut node) => {
            let (first, low, second, high, third) = node.take_three();
            if key <= low.key {
                let rest = rooted(two(node, second, high, third), height);
                let (below, above) = cut_at(first, height - 1, key, boxes)?;
                Ok((below, join(above, low, rest, boxes)?))
            } else if high.key < key {
                let rest = rooted(two(node, first, low, second), height);
                let (below, above) = cut_at(third, height - 1, key, boxes)?;
                Ok((join(rest, high, below, boxes)?, above))
            } else {
                boxes.give(node);
                let (below, above) = cut_at(second, height - 1, key, boxes)?;
                let below = join(rooted(first, height - 1), low, below, boxes)?;
                Ok((below, join(above, high, rooted(third, height - 1), boxes)?))
            }
        }
        Tree::Empty | Tree::Leaf(_) | Tree::Underfull(_) => cut_bottom(tree, key, boxes),
    }
}
