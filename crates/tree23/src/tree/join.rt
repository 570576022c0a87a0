//! 2-3 tree join around a key: the shallower tree moves whole to the edge of the deeper one, at the level where the
//! depths match.
ghost use Rattle.std.specs.Prelude.{◌≡◌, ◌+◌, ◌<◌, ◌^◌, ◌++◌, ◌∷◌, length, IfOk, OnOk};
ghost use Rattle.tree_nodes.specs.Nodes.{keys, depth, IsTree, IsRooted, keys_with_split, IsTreeWithSplit};

use std::alloc::AllocError;
use std::mem;
use tree_nodes::Pool;
use tree_nodes::leaf::ROOM;
use tree_nodes::node::{Rooted, Split, Tree};
use tree_nodes::split_node::{grow_first, grow_root, grow_second, grow_third};

/// Appends a key and a tree of the same depth. If `low` is a leaf (or empty) and has room for all of it, nothing is
/// split off.
fn join_equal(low: &mut Tree, key: u32, high: Tree, pool: &mut Pool) -> Result<Split, AllocError>
    requires low { IsTree low.old }
    requires high { IsTree high }
    requires level { depth low.old ≡ depth high }
    ensures keys { IfOk result (λ g. keys_with_split low.new g ≡ keys low.old ++ key ∷ keys high) }
    ensures split { IfOk result (λ g. IsTreeWithSplit (depth low.old) low.new g) }
{
    if let Tree::Empty = low {
        *low = Tree::Leaf(pool.take_leaf()?);
    }
    match (low, &high) {
        (Tree::Leaf(leaf), Tree::Leaf(after)) if leaf.len() + after.len() < ROOM => {
            leaf.push(key)?;
            leaf.extend_from_slice(after)?;
            Ok(Split::Fits)
        }
        (Tree::Leaf(leaf), Tree::Empty) if leaf.len() < ROOM => {
            leaf.push(key)?;
            Ok(Split::Fits)
        }
        _ => Ok(Split::Splits(key, high)),
    }
}

/// Appends a key and `high` at the right edge of `low`, `levels` levels below its root.
fn join_right(
    low: &mut Tree,
    levels: u64,
    key: u32,
    high: Tree,
    pool: &mut Pool,
) -> Result<Split, AllocError>
    requires low { IsTree low.old }
    requires high { IsTree high }
    requires levels { depth low.old ≡ depth high + levels }
    ensures keys { IfOk result (λ g. keys_with_split low.new g ≡ keys low.old ++ key ∷ keys high) }
    ensures split { IfOk result (λ g. IsTreeWithSplit (depth low.old) low.new g) }
{
    if levels == 0 {
        return join_equal(low, key, high, pool);
    }
    match low {
        Tree::Two(node) => {
            let split = join_right(&mut node.second, levels - 1, key, high, pool)?;
            pool.hold(1)?;
            Ok(grow_second(low, split, &mut pool.nodes))
        }
        Tree::Three(node) => {
            let split = join_right(&mut node.third, levels - 1, key, high, pool)?;
            pool.hold(1)?;
            Ok(grow_third(low, split, &mut pool.nodes))
        }
        Tree::Empty | Tree::Leaf(_) | Tree::Underfull(_) => unreachable!(),
    }
}

/// Prepends `low` and a key at the left edge of `high`, `levels` levels below its root.
fn join_left(
    low: Tree,
    key: u32,
    high: &mut Tree,
    levels: u64,
    pool: &mut Pool,
) -> Result<Split, AllocError>
    requires low { IsTree low }
    requires high { IsTree high.old }
    requires levels { depth high.old ≡ depth low + levels }
    ensures keys { IfOk result (λ g. keys_with_split high.new g ≡ keys low ++ key ∷ keys high.old) }
    ensures split { IfOk result (λ g. IsTreeWithSplit (depth high.old) high.new g) }
{
    if levels == 0 {
        let right = mem::replace(high, low);
        return join_equal(high, key, right, pool);
    }
    match high {
        Tree::Two(node) => {
            let split = join_left(low, key, &mut node.first, levels - 1, pool)?;
            pool.hold(1)?;
            Ok(grow_first(high, split, &mut pool.nodes))
        }
        Tree::Three(node) => {
            let split = join_left(low, key, &mut node.first, levels - 1, pool)?;
            pool.hold(1)?;
            Ok(grow_first(high, split, &mut pool.nodes))
        }
        Tree::Empty | Tree::Leaf(_) | Tree::Underfull(_) => unreachable!(),
    }
}

/// Appends a key and `high`, a tree of any depth, to `low`.
#[tactic(auto, using(tree_nodes::proofs::TreeLemmas::Depths::depth_within))]
pub fn put_after(
    low: &mut Rooted,
    key: u32,
    mut high: Rooted,
    pool: &mut Pool,
) -> Result<(), AllocError>
    requires low { IsRooted low.old }
    requires high { IsRooted high }
    requires fits { length (keys low.old.tree) + length (keys high.tree) < 2 ^ 63 }
    ensures keys { OnOk result (keys low.new.tree ≡ keys low.old.tree ++ key ∷ keys high.tree) }
    ensures rooted { OnOk result (IsRooted low.new) }
{
    if low.height >= high.height {
        let levels = low.height - high.height;
        let split = join_right(&mut low.tree, levels, key, high.tree, pool)?;
        pool.hold(1)?;
        grow_root(low, split, &mut pool.nodes);
    } else {
        mem::swap(low, &mut high);
        let levels = low.height - high.height;
        let split = join_left(high.tree, key, &mut low.tree, levels, pool)?;
        pool.hold(1)?;
        grow_root(low, split, &mut pool.nodes);
    }
    Ok(())
}
