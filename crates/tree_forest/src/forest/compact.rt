//! Appending and compacting. Where a higher tree comes after lower ones, these are merged with one another or into it.
//! Compacting also merges three trees before another of their height into one, and then joins trees from the end while
//! there are too many.
ghost use Rattle.std.specs.Prelude.{◌≡◌, ◌+◌, ◌<◌, ◌^◌, ◌≤◌, ◌++◌, ◌∷◌, true, length, IfOk, IfSome, OnOk};
ghost use Rattle.tree_nodes.specs.Nodes.{keys, depth, IsTree, IsLeaf, IsRooted};
ghost use Rattle.tree23.specs.SideBySide.{entry_keys, in_order, AreTrees, AreKeyedTrees};
ghost use Rattle.tree_forest.specs.Forests.{tree_count};
ghost use Rattle.tree_forest.specs.Views.{most_trees};
ghost use Rattle.tree_forest.specs.Code.Merges.{if_merged, IsTakenOff};

use crate::pool::ForestPool;
use std::alloc::AllocError;
use tree_nodes::leaf::ROOM;
use tree_nodes::node::{Rooted, Tree, three, two};
use tree_nodes::remove::{pop_first, shrink_root};
use tree23::tree::join::put_after;
use tree23::trees::join::join_many;
use tree23::trees::{KeyedTree, Trees};

/// The most trees that a compacted forest has beside the first.
pub(crate) const MANY: usize = 64;

/// Takes the last entry off, if its tree is lower than `height`.
#[inline]
fn pop_lower(entries: &mut Vec<KeyedTree>, height: u64) -> Option<KeyedTree>
    ensures taken { IsTakenOff entries.old.items entries.new.items result }
    ensures lower { IfSome result (λ e. e.rooted.height < height) }
{
    match entries.last() {
        Some(last) if last.rooted.height < height => entries.pop(),
        _ => None,
    }
}

/// Takes the last entry off, if its tree has the height `height`.
#[inline]
fn pop_equal(entries: &mut Vec<KeyedTree>, height: u64) -> Option<KeyedTree>
    ensures taken { IsTakenOff entries.old.items entries.new.items result }
    ensures equal { IfSome result (λ e. e.rooted.height ≡ height) }
{
    match entries.last() {
        Some(last) if last.rooted.height == height => entries.pop(),
        _ => None,
    }
}

/// Merges two entries of equal height under one node, with the entry before them if that has the same height, and
/// pushes the result.
#[tactic(auto, using(tree23::proofs::SideBySideLemmas::KeyedTrees::entries))]
fn merge_equal(
    entries: &mut Vec<KeyedTree>,
    low: KeyedTree,
    high: KeyedTree,
    pool: &mut ForestPool,
) -> Result<(), AllocError>
    requires entries { AreKeyedTrees entries.old.items }
    requires low { IsRooted low.rooted }
    requires high { IsRooted high.rooted }
    requires height { high.rooted.height ≡ low.rooted.height }
    requires fits { low.rooted.height < 2 ^ 62 }
    ensures entries { OnOk result (AreKeyedTrees entries.new.items) }
    ensures keys { OnOk result (entry_keys entries.new.items
        ≡ entry_keys entries.old.items ++ low.key ∷ (keys low.rooted.tree ++ high.key ∷ keys high.rooted.tree)) }
    ensures count { OnOk result (length entries.new.items ≤ length entries.old.items + 1) }
{
    let node = pool.trees.take()?;
    let height = low.rooted.height;
    let (key, tree) = match pop_equal(entries, height) {
        None => (
            low.key,
            two(node, low.rooted.tree, high.key, high.rooted.tree),
        ),
        Some(first) => {
            let middle = low.rooted.tree;
            let last = high.rooted.tree;
            let tree = three(node, first.rooted.tree, low.key, middle, high.key, last);
            (first.key, tree)
        }
    };
    let height = height + 1;
    let rooted = Rooted { tree, height };
    entries.push(KeyedTree { key, rooted })?;
    Ok(())
}

/// Whether there are three entries at least, and the trees of the last three have the given height.
#[inline]
fn has_three_of(entries: &[KeyedTree], height: u64) -> bool {
    let count = entries.len();
    count >= 3
        && entries[count - 1].rooted.height == height
        && entries[count - 2].rooted.height == height
        && entries[count - 3].rooted.height == height
}

/// Merges the trees at the end of a row that are lower than the tree of `entry`. Two or three of equal height become
/// one higher tree of the row; a single one is joined with the entry. Returns the entry, which is not appended.
#[inline]
fn merge_lower(
    trees: &mut Trees,
    entry: KeyedTree,
    pool: &mut ForestPool,
) -> Result<KeyedTree, AllocError>
    requires trees { AreTrees trees.old }
    requires rooted { IsRooted entry.rooted }
    requires fits { length (in_order trees.old) + length (keys entry.rooted.tree) < 2 ^ 61 }
    ensures trees { OnOk result (AreTrees trees.new) }
    ensures rooted { IfOk result (λ e. IsRooted e.rooted) }
    ensures count { OnOk result (length trees.new.entries.items ≤ length trees.old.entries.items) }
    ensures keys { IfOk result (λ e. in_order trees.new ++ e.key ∷ keys e.rooted.tree
        ≡ in_order trees.old ++ entry.key ∷ keys entry.rooted.tree) }
{
    let mut merged = entry;
    while let Some(mut lower) = pop_lower(&mut trees.entries, merged.rooted.height) {
        match pop_equal(&mut trees.entries, lower.rooted.height) {
            Some(low) => merge_equal(&mut trees.entries, low, lower, pool)?,
            None => {
                put_after(
                    &mut lower.rooted,
                    merged.key,
                    merged.rooted,
                    &mut pool.trees,
                )?;
                merged = lower;
            }
        }
    }
    Ok(merged)
}

/// Whether the tree of the last entry is lower than `height`.
#[inline]
fn ends_lower(entries: &[KeyedTree], height: u64) -> bool {
    match entries.last() {
        Some(last) => last.rooted.height < height,
        None => false,
    }
}

/// Appends an entry, after a merge of the lower trees before it.
#[inline]
fn add(trees: &mut Trees, entry: KeyedTree, pool: &mut ForestPool) -> Result<(), AllocError>
    requires trees { AreTrees trees.old }
    requires rooted { IsRooted entry.rooted }
    requires fits { length (in_order trees.old) + length (keys entry.rooted.tree) < 2 ^ 61 }
    ensures trees { OnOk result (AreTrees trees.new) }
    ensures count { OnOk result (length trees.new.entries.items ≤ length trees.old.entries.items + 1) }
    ensures keys { OnOk result (in_order trees.new ≡ in_order trees.old ++ entry.key ∷ keys entry.rooted.tree) }
{
    let KeyedTree { key, rooted } = if ends_lower(&trees.entries, entry.rooted.height) {
        merge_lower(trees, entry, pool)?
    } else {
        entry
    };
    trees.push(key, rooted.tree, rooted.height)
}

/// Merges the last three entries into one, if the tree of each has the given height.
#[tactic(auto, using(tree23::proofs::SideBySideLemmas::KeyedTrees::entries))]
fn merge_three(
    entries: &mut Vec<KeyedTree>,
    height: u64,
    pool: &mut ForestPool,
) -> Result<(), AllocError>
    requires entries { AreKeyedTrees entries.old.items }
    requires fits { length (entry_keys entries.old.items) < 2 ^ 62 }
    ensures entries { OnOk result (AreKeyedTrees entries.new.items) }
    ensures keys { OnOk result (entry_keys entries.new.items ≡ entry_keys entries.old.items) }
{
    if has_three_of(entries, height) {
        if let Some(high) = pop_equal(entries, height) {
            match pop_equal(entries, height) {
                Some(low) => merge_equal(entries, low, high, pool)?,
                None => entries.push(high)?,
            }
        }
    }
    Ok(())
}

/// Appends the keys of the leaf `high` to the leaf `low`, if it has room for them. Returns whether it did.
fn merge_leaves(low: &mut Tree, high: &Tree) -> Result<bool, AllocError>
    requires low { IsTree low.old }
    requires high { IsTree high.now }
    ensures tree { OnOk result (IsTree low.new) }
    ensures depth { OnOk result (depth low.new ≡ depth low.old) }
    ensures bottom { IfOk result (λ merged. merged ≡ true → IsLeaf high.now) }
    ensures keys { IfOk result (λ merged. keys low.new ≡ keys low.old ++ if_merged merged (keys high.now)) }
{
    match low {
        Tree::Leaf(leaf) => match high {
            Tree::Leaf(after) if leaf.len() + after.len() <= ROOM => {
                leaf.extend_from_slice(after)?;
                Ok(true)
            }
            _ => Ok(false),
        },
        _ => Ok(false),
    }
}

/// Appends a leaf to the last tree, if that is a leaf with room for it. Returns whether it did.
fn merge_into_last(trees: &mut Trees, tree: &Tree) -> Result<bool, AllocError>
    requires trees { AreTrees trees.old }
    requires tree { IsTree tree.now }
    ensures trees { OnOk result (AreTrees trees.new) }
    ensures bottom { IfOk result (λ merged. merged ≡ true → IsLeaf tree.now) }
    ensures count { OnOk result (length trees.new.entries.items ≡ length trees.old.entries.items) }
    ensures keys { IfOk result (λ merged. in_order trees.new ≡ in_order trees.old ++ if_merged merged (keys tree.now)) }
{
    match trees.entries.pop() {
        None => merge_leaves(&mut trees.front.tree, tree),
        Some(mut last) => {
            let merged = merge_leaves(&mut last.rooted.tree, tree)?;
            trees.entries.push(last)?;
            Ok(merged)
        }
    }
}

/// Appends a tree that has no key before it. It replaces the tree of an empty row or is merged into a last leaf;
/// otherwise its first key becomes the separator.
fn add_front(trees: &mut Trees, front: Rooted, pool: &mut ForestPool) -> Result<(), AllocError>
    requires trees { AreTrees trees.old }
    requires front { IsRooted front }
    requires fits { length (in_order trees.old) + length (keys front.tree) < 2 ^ 61 }
    ensures trees { OnOk result (AreTrees trees.new) }
    ensures count { OnOk result (length trees.new.entries.items ≤ length trees.old.entries.items + 1) }
    ensures keys { OnOk result (in_order trees.new ≡ in_order trees.old ++ keys front.tree) }
{
    if let Tree::Empty = trees.front.tree {
        if trees.entries.is_empty() {
            trees.front = front;
            return Ok(());
        }
    }
    if merge_into_last(trees, &front.tree)? {
        pool.trees.give_leaf(front.tree);
        return Ok(());
    }
    let mut rooted = front;
    match pop_first(&mut rooted.tree) {
        None => Ok(()),
        Some(key) => {
            shrink_root(&mut rooted);
            add(trees, KeyedTree { key, rooted }, pool)
        }
    }
}

/// Appends the trees of `high` to those of `low`. Time: linear in the trees of `high` and in the heights that merges
/// pass.
pub(crate) fn append(low: &mut Trees, high: Trees, pool: &mut ForestPool) -> Result<(), AllocError>
    requires low { AreTrees low.old }
    requires high { AreTrees high }
    requires fits { length (in_order low.old) + length (in_order high) < 2 ^ 61 }
    ensures trees { OnOk result (AreTrees low.new) }
    ensures count { OnOk result (tree_count low.new ≤ tree_count low.old + tree_count high) }
    ensures keys { OnOk result (in_order low.new ≡ in_order low.old ++ in_order high) }
{
    let Trees { front, mut entries } = high;
    add_front(low, front, pool)?;
    entries.reverse();
    while let Some(entry) = entries.pop() {
        add(low, entry, pool)?;
    }
    pool.give_entries(entries);
    Ok(())
}

/// Reduces a row to `MANY + 1` trees at most: lower trees before a higher one are merged, three trees before another of
/// their height become one, and then the last trees are joined while there are too many.
pub(crate) fn compact(trees: Trees, pool: &mut ForestPool) -> Result<Trees, AllocError>
    requires trees { AreTrees trees }
    requires fits { length (in_order trees) < 2 ^ 61 }
    ensures trees { IfOk result (λ compacted. AreTrees compacted) }
    ensures count { IfOk result (λ compacted. tree_count compacted ≤ most_trees) }
    ensures keys { IfOk result (λ compacted. in_order compacted ≡ in_order trees) }
{
    let Trees { front, mut entries } = trees;
    let mut compacted = Trees {
        front,
        entries: pool.take_entries()?,
    };
    entries.reverse();
    while let Some(entry) = entries.pop() {
        let entry = merge_lower(&mut compacted, entry, pool)?;
        merge_three(&mut compacted.entries, entry.rooted.height, pool)?;
        compacted.entries.push(entry)?;
    }
    pool.give_entries(entries);
    join_many(&mut compacted, MANY, &mut pool.trees)?;
    Ok(compacted)
}
