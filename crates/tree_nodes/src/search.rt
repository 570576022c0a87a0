//! Search by one descent: for a key, for the next greater key, and for the first key.
ghost use Rattle.std.specs.Prelude.{◌≡◌, slice_get};
ghost use Rattle.key_sets.specs.Keys.{StrictlyAscends, has, least_above};
ghost use Rattle.tree_nodes.specs.Nodes.{keys, IsTree};

use crate::leaf::{is_at, place};
use crate::node::Tree;

/// Whether the tree has the key.
#[tactic(auto, using(key_sets::proofs::KeyLemmas::Beside::looking))]
pub fn find_in(tree: &Tree, key: u32) -> bool
    requires tree { IsTree tree.now }
    requires ascends { StrictlyAscends (keys tree.now) }
    ensures { result ≡ has key (keys tree.now) }
{
    match tree {
        Tree::Empty => false,
        Tree::Leaf(leaf) => is_at(leaf, place(leaf, key), key),
        Tree::Two(node) => {
            if key < node.low {
                find_in(&node.first, key)
            } else if node.low < key {
                find_in(&node.second, key)
            } else {
                true
            }
        }
        Tree::Three(node) => {
            if key < node.low {
                find_in(&node.first, key)
            } else if key == node.low || key == node.high {
                true
            } else if key < node.high {
                find_in(&node.second, key)
            } else {
                find_in(&node.third, key)
            }
        }
        Tree::Underfull(_) => unreachable!(),
    }
}

/// The least key of a leaf that is greater than `key`, if there is one.
#[inline]
fn next_in_leaf(leaf: &[u32], key: u32) -> Option<u32>
    requires ascends { StrictlyAscends leaf.now }
    ensures { result ≡ least_above key leaf.now }
{
    let at = place(leaf, key);
    let after = if is_at(leaf, at, key) { at + 1 } else { at };
    if after < leaf.len() {
        Some(leaf[after])
    } else {
        None
    }
}

/// The least key greater than `key`, if there is one.
#[tactic(auto, using(key_sets::proofs::KeyLemmas::Beside::nexts))]
pub fn next_in(tree: &Tree, key: u32) -> Option<u32>
    requires tree { IsTree tree.now }
    requires ascends { StrictlyAscends (keys tree.now) }
    ensures { result ≡ least_above key (keys tree.now) }
{
    match tree {
        Tree::Empty => None,
        Tree::Leaf(leaf) => next_in_leaf(leaf, key),
        Tree::Two(node) => {
            if key < node.low {
                match next_in(&node.first, key) {
                    Some(found) => Some(found),
                    None => Some(node.low),
                }
            } else {
                next_in(&node.second, key)
            }
        }
        Tree::Three(node) => {
            if key < node.low {
                match next_in(&node.first, key) {
                    Some(found) => Some(found),
                    None => Some(node.low),
                }
            } else if key < node.high {
                match next_in(&node.second, key) {
                    Some(found) => Some(found),
                    None => Some(node.high),
                }
            } else {
                next_in(&node.third, key)
            }
        }
        Tree::Underfull(_) => unreachable!(),
    }
}

/// The first key, if there is one: the least, where the keys ascend.
pub fn first_in(tree: &Tree) -> Option<u32>
    requires tree { IsTree tree.now }
    ensures { result ≡ slice_get (keys tree.now) 0 }
{
    match tree {
        Tree::Empty => None,
        Tree::Leaf(leaf) => leaf.first().copied(),
        Tree::Two(node) | Tree::Three(node) => match first_in(&node.first) {
            Some(key) => Some(key),
            None => Some(node.low),
        },
        Tree::Underfull(_) => unreachable!(),
    }
}
