//! 2-3 tree join around an entry: the shallower tree moves whole to the edge of the deeper one, at the level where the
//! depths match.
ghost use Rattle.std.specs.Prelude.{◌≡◌, ◌+◌, ◌<◌, ◌^◌, ◌++◌, ◌∷◌, IfOk};
ghost use Rattle.rank_nodes.specs.Nodes.{entries, depth, count, IsTree, IsRooted, with_split, split_count, IsTreeWithSplit};

use rank_nodes::leaf::ROOM;
use rank_nodes::node::{Rooted, Split, Tree};
use rank_nodes::split_node::{grow_first, grow_root, grow_second, grow_third};
use rank_nodes::{Boxes, Entry};
use std::alloc::AllocError;
use std::mem;

/// Appends an entry and a tree of the same depth. If `low` is a leaf with room for all of it, nothing is split off.
fn join_equal(low: &mut Tree, entry: Entry, high: Tree) -> Result<Split, AllocError>
    requires low { IsTree low.old }
    requires high { IsTree high }
    requires level { depth low.old ≡ depth high }
    ensures entries { IfOk result (λ g. with_split low.new g ≡ entries low.old ++ entry ∷ entries high) }
    ensures split { IfOk result (λ g. IsTreeWithSplit (depth low.old) low.new g) }
    ensures count { IfOk result (λ g. split_count low.new g ≡ count low.old + 1 + count high) }
{
    match (low, &high) {
        (Tree::Leaf(leaf), Tree::Leaf(after)) if leaf.len() + after.len() < ROOM => {
            leaf.push(entry)?;
            leaf.extend_from_slice(after)?;
            Ok(Split::Fits)
        }
        (Tree::Leaf(leaf), Tree::Empty) if leaf.len() < ROOM => {
            leaf.push(entry)?;
            Ok(Split::Fits)
        }
        _ => Ok(Split::Splits(entry, high)),
    }
}

/// Appends an entry and `high` at the right edge of `low`, `levels` levels below its root.
fn join_right(
    low: &mut Tree,
    levels: u64,
    entry: Entry,
    high: Tree,
    boxes: &mut Boxes,
) -> Result<Split, AllocError>
    requires low { IsTree low.old }
    requires high { IsTree high }
    requires levels { depth low.old ≡ depth high + levels }
    requires fits { count low.old + 1 + count high < 2 ^ 63 }
    ensures entries { IfOk result (λ g. with_split low.new g ≡ entries low.old ++ entry ∷ entries high) }
    ensures split { IfOk result (λ g. IsTreeWithSplit (depth low.old) low.new g) }
    ensures count { IfOk result (λ g. split_count low.new g ≡ count low.old + 1 + count high) }
{
    if levels == 0 {
        return join_equal(low, entry, high);
    }
    let added = high.size() + 1;
    match low {
        Tree::Two(node) => {
            let split = join_right(&mut node.second, levels - 1, entry, high, boxes)?;
            boxes.hold(1)?;
            Ok(grow_second(low, added, split, &mut boxes.nodes))
        }
        Tree::Three(node) => {
            let split = join_right(&mut node.third, levels - 1, entry, high, boxes)?;
            boxes.hold(1)?;
            Ok(grow_third(low, added, split, &mut boxes.nodes))
        }
        Tree::Empty | Tree::Leaf(_) | Tree::Underfull(_) => unreachable!(),
    }
}

/// Prepends `low` and an entry at the left edge of `high`, `levels` levels below its root.
fn join_left(
    low: Tree,
    entry: Entry,
    high: &mut Tree,
    levels: u64,
    boxes: &mut Boxes,
) -> Result<Split, AllocError>
    requires low { IsTree low }
    requires high { IsTree high.old }
    requires levels { depth high.old ≡ depth low + levels }
    requires fits { count low + 1 + count high.old < 2 ^ 63 }
    ensures entries { IfOk result (λ g. with_split high.new g ≡ entries low ++ entry ∷ entries high.old) }
    ensures split { IfOk result (λ g. IsTreeWithSplit (depth high.old) high.new g) }
    ensures count { IfOk result (λ g. split_count high.new g ≡ count low + 1 + count high.old) }
{
    if levels == 0 {
        let right = mem::replace(high, low);
        return join_equal(high, entry, right);
    }
    let added = low.size() + 1;
    match high {
        Tree::Two(node) => {
            let split = join_left(low, entry, &mut node.first, levels - 1, boxes)?;
            boxes.hold(1)?;
            Ok(grow_first(high, added, split, &mut boxes.nodes))
        }
        Tree::Three(node) => {
            let split = join_left(low, entry, &mut node.first, levels - 1, boxes)?;
            boxes.hold(1)?;
            Ok(grow_first(high, added, split, &mut boxes.nodes))
        }
        Tree::Empty | Tree::Leaf(_) | Tree::Underfull(_) => unreachable!(),
    }
}

/// Joins two trees of any depths around an entry.
#[tactic(auto, using(rank_nodes::proofs::TreeLemmas::Depths::depth_within))]
pub fn join(
    mut low: Rooted,
    entry: Entry,
    mut high: Rooted,
    boxes: &mut Boxes,
) -> Result<Rooted, AllocError>
    requires low { IsRooted low }
    requires high { IsRooted high }
    requires fits { count low.tree + 1 + count high.tree < 2 ^ 63 }
    ensures entries { IfOk result (λ r. entries r.tree ≡ entries low.tree ++ entry ∷ entries high.tree) }
    ensures rooted { IfOk result (λ r. IsRooted r) }
    ensures count { IfOk result (λ r. count r.tree ≡ count low.tree + 1 + count high.tree) }
{
    if low.height >= high.height {
        let levels = low.height - high.height;
        let split = join_right(&mut low.tree, levels, entry, high.tree, boxes)?;
        boxes.hold(1)?;
        grow_root(&mut low, split, &mut boxes.nodes);
        Ok(low)
    } else {
        let levels = high.height - low.height;
        let split = join_left(low.tree, entry, &mut high.tree, levels, boxes)?;
        boxes.hold(1)?;
        grow_root(&mut high, split, &mut boxes.nodes);
        Ok(high)
    }
}
