//! In-place removal of a key.
//!
//! Memory: none.
ghost use Rattle.std.specs.Prelude.{◌≡◌, ◌<◌, [], ◌∷◌};
ghost use Rattle.key_sets.specs.Keys.{StrictlyAscends, has, without_key};
ghost use Rattle.tree_nodes.specs.Nodes.{keys, depth, IsTree, IsRooted, IsLoose, IsWide};
ghost use Rattle.tree_nodes.specs.Code.Removals.{IsRemoved, IsPopped, first_side, second_side, keys_but_low, keys_but_high};

use crate::leaf::{is_at, place};
use crate::node::{Rooted, Tree, two, underfull};
use crate::rebalance::rebalance;
use std::mem;

/// Removes the first child, which has no keys, and the low key, which is returned.
fn drop_first(tree: &mut Tree) -> u32
    requires tree { IsTree tree.old }
    requires some { 0 < depth tree.old }
    requires empty { keys (first_side tree.old) ≡ [] }
    ensures keys { keys tree.old ≡ result ∷ keys tree.new }
    ensures loose { IsLoose tree.new }
    ensures depth { depth tree.new ≡ depth tree.old }
{
    match mem::replace(tree, Tree::Empty) {
        Tree::Two(mut node) => {
            let (_, low, second) = node.take_two();
            *tree = underfull(node, second);
            low
        }
        Tree::Three(mut node) => {
            let (_, low, second, high, third) = node.take_three();
            *tree = two(node, second, high, third);
            low
        }
        Tree::Empty | Tree::Leaf(_) | Tree::Underfull(_) => unreachable!(),
    }
}

/// Removes the low key and the second child, which has no keys.
fn drop_low(tree: &mut Tree)
    requires tree { IsTree tree.old }
    requires some { 0 < depth tree.old }
    requires empty { keys (second_side tree.old) ≡ [] }
    ensures keys { keys tree.new ≡ keys_but_low tree.old }
    ensures loose { IsLoose tree.new }
    ensures depth { depth tree.new ≡ depth tree.old }
{
    *tree = match mem::replace(tree, Tree::Empty) {
        Tree::Two(mut node) => {
            let first = node.take_first();
            underfull(node, first)
        }
        Tree::Three(mut node) => {
            let (first, _, _, high, third) = node.take_three();
            two(node, first, high, third)
        }
        Tree::Empty | Tree::Leaf(_) | Tree::Underfull(_) => unreachable!(),
    };
}

/// Removes and returns the first key, if there is one. The root may be left `Underfull`.
#[tactic(auto, using(crate::proofs::TreeLemmas::Sides::short))]
pub fn pop_first(tree: &mut Tree) -> Option<u32>
    requires tree { IsTree tree.old }
    ensures popped { IsPopped tree.old tree.new result }
    ensures loose { IsLoose tree.new }
    ensures depth { depth tree.new ≡ depth tree.old }
{
    match tree {
        Tree::Empty => None,
        Tree::Leaf(leaf) => {
            if leaf.is_empty() {
                None
            } else {
                Some(leaf.remove(0))
            }
        }
        Tree::Two(node) => match pop_first(&mut node.first) {
            Some(key) => {
                rebalance(tree);
                Some(key)
            }
            None => Some(drop_first(tree)),
        },
        Tree::Three(node) => match pop_first(&mut node.first) {
            Some(key) => {
                rebalance(tree);
                Some(key)
            }
            None => Some(drop_first(tree)),
        },
        Tree::Underfull(_) => unreachable!(),
    }
}

/// Replaces an `Underfull` root by its only child.
pub fn shrink_root(rooted: &mut Rooted)
    requires loose { IsLoose rooted.old.tree }
    requires height { rooted.old.height ≡ depth rooted.old.tree }
    ensures keys { keys rooted.new.tree ≡ keys rooted.old.tree }
    ensures rooted { IsRooted rooted.new }
{
    if let Tree::Underfull(node) = &mut rooted.tree {
        rooted.tree = mem::replace(&mut node.first, Tree::Empty);
        rooted.height -= 1;
    }
}

/// Removes the low key of a node. The first key of the second child takes its place; if there is none, that child is
/// dropped.
#[tactic(auto, using(crate::proofs::TreeLemmas::Sides::short))]
fn remove_low(tree: &mut Tree)
    requires tree { IsTree tree.old }
    requires some { 0 < depth tree.old }
    ensures keys { keys tree.new ≡ keys_but_low tree.old }
    ensures loose { IsLoose tree.new }
    ensures depth { depth tree.new ≡ depth tree.old }
{
    match tree {
        Tree::Two(node) => match pop_first(&mut node.second) {
            Some(next) => {
                node.low = next;
                rebalance(tree);
            }
            None => drop_low(tree),
        },
        Tree::Three(node) => match pop_first(&mut node.second) {
            Some(next) => {
                node.low = next;
                rebalance(tree);
            }
            None => drop_low(tree),
        },
        Tree::Empty | Tree::Leaf(_) | Tree::Underfull(_) => unreachable!(),
    }
}

/// Removes the high key of a node with three children. The first key of the third child takes its place; if there is
/// none, that child is dropped.
#[tactic(auto, using(crate::proofs::TreeLemmas::Sides::short))]
fn remove_high(tree: &mut Tree)
    requires tree { IsTree tree.old }
    requires wide { IsWide tree.old }
    ensures keys { keys tree.new ≡ keys_but_high tree.old }
    ensures loose { IsLoose tree.new }
    ensures depth { depth tree.new ≡ depth tree.old }
{
    let Tree::Three(node) = tree else {
        unreachable!()
    };
    match pop_first(&mut node.third) {
        Some(next) => {
            node.high = next;
            rebalance(tree);
        }
        None => {
            let Tree::Three(mut node) = mem::replace(tree, Tree::Empty) else {
                unreachable!()
            };
            let (first, low, second) = node.take_two();
            *tree = two(node, first, low, second);
        }
    }
}

/// Removes the key from a leaf, and returns whether it was present.
#[inline]
#[tactic(auto, using(crate::proofs::TreeLemmas::Removing::removing_at))]
fn remove_in_leaf(leaf: &mut Vec<u32>, key: u32) -> bool
    requires ascends { StrictlyAscends leaf.old.items }
    ensures answer { result ≡ has key leaf.old.items }
    ensures keys { leaf.new.items ≡ without_key key leaf.old.items }
{
    let at = place(leaf, key);
    let found = is_at(leaf, at, key);
    if found {
        leaf.remove(at);
    }
    found
}

/// Removes the key, and returns whether it was present. The root may be left `Underfull`.
#[tactic(auto, using(crate::proofs::TreeLemmas::Removing::sides_ascend, crate::proofs::TreeLemmas::Sides::short))]
pub fn remove_in(tree: &mut Tree, key: u32) -> bool
    requires tree { IsTree tree.old }
    requires ascends { StrictlyAscends (keys tree.old) }
    ensures removed { IsRemoved key tree.old tree.new result }
    ensures loose { IsLoose tree.new }
    ensures depth { depth tree.new ≡ depth tree.old }
{
    match tree {
        Tree::Empty => false,
        Tree::Leaf(leaf) => remove_in_leaf(leaf, key),
        Tree::Two(node) => {
            if key < node.low {
                let found = remove_in(&mut node.first, key);
                rebalance(tree);
                found
            } else if node.low < key {
                let found = remove_in(&mut node.second, key);
                rebalance(tree);
                found
            } else {
                remove_low(tree);
                true
            }
        }
        Tree::Three(node) => {
            if key < node.low {
                let found = remove_in(&mut node.first, key);
                rebalance(tree);
                found
            } else if key == node.low {
                remove_low(tree);
                true
            } else if key < node.high {
                let found = remove_in(&mut node.second, key);
                rebalance(tree);
                found
            } else if key == node.high {
                remove_high(tree);
                true
            } else {
                let found = remove_in(&mut node.third, key);
                rebalance(tree);
                found
            }
        }
        Tree::Underfull(_) => unreachable!(),
    }
}
