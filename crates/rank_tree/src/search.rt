//! Search by one descent: for the value of a key, for its rank, and for the key at an index.
ghost use Rattle.std.specs.Prelude.{◌≡◌, ◌<◌, ◌≤◌, ◌^◌};
ghost use Rattle.rank_nodes.specs.Maps.{Ascends, value_at, rank_of, key_at};
ghost use Rattle.rank_nodes.specs.Nodes.{entries, count, IsTree};

use rank_nodes::leaf::{place, value_in_leaf};
use rank_nodes::node::Tree;

/// The value of the key, if present.
#[tactic(auto, using(rank_nodes::proofs::EntryLemmas::Beside::looking))]
pub fn get_in(tree: &Tree, key: u32) -> Option<u32>
    requires tree { IsTree tree.now }
    requires ascends { Ascends (entries tree.now) }
    ensures { result ≡ value_at key (entries tree.now) }
{
    match tree {
        Tree::Empty => None,
        Tree::Leaf(leaf) => value_in_leaf(leaf, place(leaf, key), key),
        Tree::Two(node) => {
            if key < node.low.key {
                get_in(&node.first, key)
            } else if node.low.key < key {
                get_in(&node.second, key)
            } else {
                Some(node.low.val)
            }
        }
        Tree::Three(node) => {
            if key < node.low.key {
                get_in(&node.first, key)
            } else if key == node.low.key {
                Some(node.low.val)
            } else if key < node.high.key {
                get_in(&node.second, key)
            } else if key == node.high.key {
                Some(node.high.val)
            } else {
                get_in(&node.third, key)
            }
        }
        Tree::Underfull(_) => unreachable!(),
    }
}

/// The number of keys below `key`.
#[tactic(auto, using(crate::proofs::Searching::ranks))]
pub fn rank_in(tree: &Tree, key: u32) -> u64
    requires tree { IsTree tree.now }
    requires fits { count tree.now < 2 ^ 63 }
    requires ascends { Ascends (entries tree.now) }
    ensures rank { result ≡ rank_of key (entries tree.now) }
    ensures within { result ≤ count tree.now }
{
    match tree {
        Tree::Empty => 0,
        Tree::Leaf(leaf) => place(leaf, key) as u64,
        Tree::Two(node) => {
            if key <= node.low.key {
                rank_in(&node.first, key)
            } else {
                node.first.size() + 1 + rank_in(&node.second, key)
            }
        }
        Tree::Three(node) => {
            if key <= node.low.key {
                rank_in(&node.first, key)
            } else if key <= node.high.key {
                node.first.size() + 1 + rank_in(&node.second, key)
            } else {
                node.first.size() + 1 + node.second.size() + 1 + rank_in(&node.third, key)
            }
        }
        Tree::Underfull(_) => unreachable!(),
    }
}

/// The key at index `i`, from 0, if there are more than `i` entries.
#[tactic(auto, using(crate::proofs::Searching::indices))]
pub fn nth_in(tree: &Tree, i: u64) -> Option<u32>
    requires tree { IsTree tree.now }
    ensures { result ≡ key_at i (entries tree.now) }
{
    match tree {
        Tree::Empty => None,
        Tree::Leaf(leaf) => match leaf.get(i as usize) {
            Some(entry) => Some(entry.key),
            None => None,
        },
        Tree::Two(node) => {
            let before = node.first.size();
            if i < before {
                nth_in(&node.first, i)
            } else if i == before {
                Some(node.low.key)
            } else {
                nth_in(&node.second, i - before - 1)
            }
        }
        Tree::Three(node) => {
            let before = node.first.size();
            if i < before {
                return nth_in(&node.first, i);
            }
            if i == before {
                return Some(node.low.key);
            }
            let left = i - before - 1;
            let middle = node.second.size();
            if left < middle {
                nth_in(&node.second, left)
            } else if left == middle {
                Some(node.high.key)
            } else {
                nth_in(&node.third, left - middle - 1)
            }
        }
        Tree::Underfull(_) => unreachable!(),
    }
}
