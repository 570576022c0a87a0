//! Repair after a removal: a child of a node may be left `Underfull`, with a single child of its own.
ghost use Rattle.std.specs.Prelude.{◌≡◌, ◌∷◌, ◌++◌, false};
ghost use Rattle.tree_nodes.specs.Nodes.{keys, depth, IsTree, IsLoose, keys_with_split, IsTreeWithSplit};
ghost use Rattle.tree_nodes.specs.Code.Removals.{has_one_side, IsPair, IsShort};

use crate::node::{Split, Tree, three, two, underfull};
use std::mem;

/// Repairs two siblings around a key, one of which may be `Underfull`. The underfull one takes a child from a sibling
/// with three, or is merged with a sibling that has two.
fn share(a: Tree, k: u32, b: Tree) -> (Tree, Split)
    requires pair { IsPair a b }
    requires level { depth b ≡ depth a }
    ensures keys { keys_with_split result.0 result.1 ≡ keys a ++ k ∷ keys b }
    ensures split { IsTreeWithSplit (depth a) result.0 result.1 }
{
    match (a, b) {
        (Tree::Underfull(mut left), Tree::Two(mut right)) => {
            let (first, low, second) = right.take_two();
            let tree = three(right, left.take_first(), k, first, low, second);
            (tree, Split::Fits)
        }
        (Tree::Underfull(mut left), Tree::Three(mut right)) => {
            let (first, low, second, high, third) = right.take_three();
            let x = left.take_first();
            let rest = two(right, second, high, third);
            (two(left, x, k, first), Split::Splits(low, rest))
        }
        (Tree::Two(mut left), Tree::Underfull(mut right)) => {
            let (first, low, second) = left.take_two();
            let tree = three(left, first, low, second, k, right.take_first());
            (tree, Split::Fits)
        }
        (Tree::Three(mut left), Tree::Underfull(mut right)) => {
            let (first, low, second, high, third) = left.take_three();
            let x = right.take_first();
            let rest = two(right, third, k, x);
            (two(left, first, low, second), Split::Splits(high, rest))
        }
        (a, b) => (a, Split::Splits(k, b)),
    }
}

/// Whether a root is `Underfull`.
#[inline]
fn has_one_side(tree: &Tree) -> bool
    ensures { result ≡ has_one_side tree.now }
{
    matches!(tree, Tree::Underfull(_))
}

/// Whether one of the fields holds an `Underfull` tree. If not, the node needs no repair.
#[inline]
#[tactic(auto, using(crate::proofs::TreeLemmas::Sides::whole))]
fn is_short(tree: &Tree) -> bool
    requires { IsShort tree.now }
    ensures { result ≡ false → IsTree tree.now }
{
    match tree {
        Tree::Two(node) | Tree::Three(node) => {
            has_one_side(&node.first) || has_one_side(&node.second) || has_one_side(&node.third)
        }
        Tree::Empty | Tree::Leaf(_) | Tree::Underfull(_) => unreachable!(),
    }
}

/// Restores the balance of a node after a removal from one of its children. The node itself may be left `Underfull`.
#[inline]
pub(crate) fn rebalance(tree: &mut Tree)
    requires { IsShort tree.old }
    ensures keys { keys tree.new ≡ keys tree.old }
    ensures loose { IsLoose tree.new }
    ensures depth { depth tree.new ≡ depth tree.old }
{
    if is_short(tree) {
        repair(tree);
    }
}

/// Repairs an `Underfull` child with `share`, which gets the last two children if the third is `Underfull`, and the
/// first two otherwise.
#[tactic(auto, using(crate::proofs::TreeLemmas::Sides::whole))]
fn repair(tree: &mut Tree)
    requires { IsShort tree.old }
    ensures keys { keys tree.new ≡ keys tree.old }
    ensures loose { IsLoose tree.new }
    ensures depth { depth tree.new ≡ depth tree.old }
{
    match mem::replace(tree, Tree::Empty) {
        Tree::Two(mut node) => {
            let (first, low, second) = node.take_two();
            *tree = match share(first, low, second) {
                (a, Split::Fits) => underfull(node, a),
                (a, Split::Splits(k, b)) => two(node, a, k, b),
            };
        }
        Tree::Three(mut node) => {
            let (first, low, second, high, third) = node.take_three();
            if has_one_side(&third) {
                match share(second, high, third) {
                    (b, Split::Fits) => *tree = two(node, first, low, b),
                    (b, Split::Splits(m, c)) => *tree = three(node, first, low, b, m, c),
                }
            } else {
                match share(first, low, second) {
                    (a, Split::Fits) => *tree = two(node, a, high, third),
                    (a, Split::Splits(k, b)) => *tree = three(node, a, k, b, high, third),
                }
            }
        }
        Tree::Empty | Tree::Leaf(_) | Tree::Underfull(_) => unreachable!(),
    }
}
