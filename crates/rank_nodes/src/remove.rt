//! In-place removal of entries.
//!
//! Memory: none.
ghost use Rattle.std.specs.Prelude.{◌≡◌, ◌+◌, ◌<◌, ◌^◌, [], ◌∷◌, length};
ghost use Rattle.rank_nodes.specs.Maps.{Ascends};
ghost use Rattle.rank_nodes.specs.Nodes.{entries, depth, count, IsTree, IsRooted, IsLoose, IsWide};
ghost use Rattle.rank_nodes.specs.Code.Removals.{IsTaken, IsPopped, first_side, second_side, entries_but_low, entries_but_high, taken_by};

use crate::entry::Entry;
use crate::leaf::{place, value_in_leaf};
use crate::node::{Rooted, Tree, two, underfull};
use crate::rebalance::rebalance;
use std::mem;

/// Removes the first child, which has no entries, and the low entry, which is returned.
fn drop_first(tree: &mut Tree) -> Entry
    requires tree { IsTree tree.old }
    requires some { 0 < depth tree.old }
    requires empty { entries (first_side tree.old) ≡ [] }
    requires none { count (first_side tree.old) ≡ 0 }
    requires fits { count tree.old < 2 ^ 63 }
    ensures entries { entries tree.old ≡ result ∷ entries tree.new }
    ensures loose { IsLoose tree.new }
    ensures depth { depth tree.new ≡ depth tree.old }
    ensures count { count tree.new + 1 ≡ count tree.old }
{
    match mem::replace(tree, Tree::Empty) {
        Tree::Two(mut node) => {
            let (_, low, second) = node.take_two();
            *tree = underfull(node, second);
            low
        }
        Tree::Three(mut node) => {
            let (_, low, second, high, third) = node.take_three();
            *tree = two(node, second, high, third);
            low
        }
        Tree::Empty | Tree::Leaf(_) | Tree::Underfull(_) => unreachable!(),
    }
}

/// Removes the low entry and the second child, which has no entries.
fn drop_low(tree: &mut Tree)
    requires tree { IsTree tree.old }
    requires some { 0 < depth tree.old }
    requires empty { entries (second_side tree.old) ≡ [] }
    requires none { count (second_side tree.old) ≡ 0 }
    requires fits { count tree.old < 2 ^ 63 }
    ensures entries { entries tree.new ≡ entries_but_low tree.old }
    ensures loose { IsLoose tree.new }
    ensures depth { depth tree.new ≡ depth tree.old }
    ensures count { count tree.new + 1 ≡ count tree.old }
{
    *tree = match mem::replace(tree, Tree::Empty) {
        Tree::Two(mut node) => {
            let first = node.take_first();
            underfull(node, first)
        }
        Tree::Three(mut node) => {
            let (first, _, _, high, third) = node.take_three();
            two(node, first, high, third)
        }
        Tree::Empty | Tree::Leaf(_) | Tree::Underfull(_) => unreachable!(),
    };
}

/// Removes and returns the first entry, if there is one. The root may be left `Underfull`.
#[tactic(auto, using(crate::proofs::TreeLemmas::Sides::short))]
pub fn pop_first(tree: &mut Tree) -> Option<Entry>
    requires tree { IsTree tree.old }
    requires fits { count tree.old < 2 ^ 63 }
    ensures popped { IsPopped tree.old tree.new result }
    ensures loose { IsLoose tree.new }
    ensures depth { depth tree.new ≡ depth tree.old }
{
    match tree {
        Tree::Empty => None,
        Tree::Leaf(leaf) => {
            if leaf.is_empty() {
                None
            } else {
                Some(leaf.remove(0))
            }
        }
        Tree::Two(node) => match pop_first(&mut node.first) {
            Some(entry) => {
                node.size -= 1;
                rebalance(tree);
                Some(entry)
            }
            None => Some(drop_first(tree)),
        },
        Tree::Three(node) => match pop_first(&mut node.first) {
            Some(entry) => {
                node.size -= 1;
                rebalance(tree);
                Some(entry)
            }
            None => Some(drop_first(tree)),
        },
        Tree::Underfull(_) => unreachable!(),
    }
}

/// Replaces an `Underfull` root by its only child.
pub fn shrink_root(rooted: &mut Rooted)
    requires loose { IsLoose rooted.old.tree }
    requires height { rooted.old.height ≡ depth rooted.old.tree }
    ensures entries { entries rooted.new.tree ≡ entries rooted.old.tree }
    ensures rooted { IsRooted rooted.new }
{
    if let Tree::Underfull(node) = &mut rooted.tree {
        rooted.tree = mem::replace(&mut node.first, Tree::Empty);
        rooted.height -= 1;
    }
}

/// Removes the low entry of a node. The first entry of the second child takes its place; if there is none, that child
/// is dropped.
#[tactic(auto, using(crate::proofs::TreeLemmas::Sides::short))]
fn remove_low(tree: &mut Tree)
    requires tree { IsTree tree.old }
    requires fits { count tree.old < 2 ^ 63 }
    requires some { 0 < depth tree.old }
    ensures entries { entries tree.new ≡ entries_but_low tree.old }
    ensures loose { IsLoose tree.new }
    ensures depth { depth tree.new ≡ depth tree.old }
    ensures count { count tree.new + 1 ≡ count tree.old }
{
    match tree {
        Tree::Two(node) => match pop_first(&mut node.second) {
            Some(next) => {
                node.low = next;
                node.size -= 1;
                rebalance(tree);
            }
            None => drop_low(tree),
        },
        Tree::Three(node) => match pop_first(&mut node.second) {
            Some(next) => {
                node.low = next;
                node.size -= 1;
                rebalance(tree);
            }
            None => drop_low(tree),
        },
        Tree::Empty | Tree::Leaf(_) | Tree::Underfull(_) => unreachable!(),
    }
}

/// Removes the high entry of a node with three children. The first entry of the third child takes its place; if there
/// is none, that child is dropped.
#[tactic(auto, using(crate::proofs::TreeLemmas::Sides::short))]
fn remove_high(tree: &mut Tree)
    requires tree { IsTree tree.old }
    requires fits { count tree.old < 2 ^ 63 }
    requires wide { IsWide tree.old }
    ensures entries { entries tree.new ≡ entries_but_high tree.old }
    ensures loose { IsLoose tree.new }
    ensures depth { depth tree.new ≡ depth tree.old }
    ensures count { count tree.new + 1 ≡ count tree.old }
{
    let Tree::Three(node) = tree else {
        unreachable!()
    };
    match pop_first(&mut node.third) {
        Some(next) => {
            node.high = next;
            node.size -= 1;
            rebalance(tree);
        }
        None => {
            let Tree::Three(mut node) = mem::replace(tree, Tree::Empty) else {
                unreachable!()
            };
            let (first, low, second) = node.take_two();
            *tree = two(node, first, low, second);
        }
    }
}

/// Removes the key from a leaf, and returns its value if it was present.
#[inline]
fn remove_in_leaf(leaf: &mut Vec<Entry>, key: u32) -> Option<u32>
    requires ascends { Ascends leaf.old.items }
    ensures removed { IsTaken key leaf.old.items leaf.new.items result }
    ensures count { length leaf.new.items + taken_by result ≡ length leaf.old.items }
{
    let at = place(leaf, key);
    let was = value_in_leaf(leaf, at, key)?;
    leaf.remove(at);
    Some(was)
}

/// The number of entries that a removal took: 0 or 1.
#[inline]
fn taken(was: Option<u32>) -> u64
    ensures { result ≡ taken_by was }
{
    match was {
        Some(_) => 1,
        None => 0,
    }
}

/// Removes the key, and returns its value if it was present. The root may be left `Underfull`.
#[tactic(auto, using(crate::proofs::TreeLemmas::Removing::sides_ascend, crate::proofs::TreeLemmas::Sides::short))]
pub fn remove_in(tree: &mut Tree, key: u32) -> Option<u32>
    requires tree { IsTree tree.old }
    requires fits { count tree.old < 2 ^ 63 }
    requires ascends { Ascends (entries tree.old) }
    ensures removed { IsTaken key (entries tree.old) (entries tree.new) result }
    ensures loose { IsLoose tree.new }
    ensures depth { depth tree.new ≡ depth tree.old }
    ensures count { count tree.new + taken_by result ≡ count tree.old }
{
    match tree {
        Tree::Empty => None,
        Tree::Leaf(leaf) => remove_in_leaf(leaf, key),
        Tree::Two(node) => {
            let was = if key < node.low.key {
                remove_in(&mut node.first, key)
            } else if node.low.key < key {
                remove_in(&mut node.second, key)
            } else {
                let was = node.low.val;
                remove_low(tree);
                return Some(was);
            };
            node.size -= taken(was);
            rebalance(tree);
            was
        }
        Tree::Three(node) => {
            let was = if key < node.low.key {
                remove_in(&mut node.first, key)
            } else if key == node.low.key {
                let was = node.low.val;
                remove_low(tree);
                return Some(was);
            } else if key < node.high.key {
                remove_in(&mut node.second, key)
            } else if key == node.high.key {
                let was = node.high.val;
                remove_high(tree);
                return Some(was);
            } else {
                remove_in(&mut node.third, key)
            };
            node.size -= taken(was);
            rebalance(tree);
            was
        }
        Tree::Underfull(_) => unreachable!(),
    }
}
