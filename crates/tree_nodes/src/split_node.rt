//! Absorbing a split: a node takes in what was split off one of its children, or splits in turn. A tree whose root
//! splits gets a new root.
ghost use Rattle.std.specs.Prelude.{◌≡◌, ◌+◌, ◌<◌, ◌≤◌, ◌^◌, length};
ghost use Rattle.tree_nodes.specs.Nodes.{keys, depth, IsRooted, keys_with_split, IsTreeWithSplit};
ghost use Rattle.tree_nodes.specs.Code.Insertions.{OnSplits, HasSplitFirst, HasSplitSecond, HasSplitThird, with_first_split, with_second_split, with_third_split, IsSpent, IsSplitWhereFull};

use crate::node::{Node, Rooted, Split, Tree, three, two};
use std::mem;

/// Inserts what was split off the first child after that child. A node with three children splits, and a box from
/// `boxes` takes the last two of the four.
#[inline]
pub fn grow_first(tree: &mut Tree, split: Split, boxes: &mut Vec<Box<Node>>) -> Split
    requires tree { HasSplitFirst split tree.old }
    requires boxes { OnSplits split (0 < length boxes.old.items) }
    ensures keys { keys_with_split tree.new result ≡ with_first_split split tree.old }
    ensures split { IsTreeWithSplit (depth tree.old) tree.new result }
    ensures boxes { IsSpent split result (length boxes.old.items) (length boxes.new.items) }
    ensures cause { IsSplitWhereFull split tree.old result }
{
    let Split::Splits(j, right) = split else {
        return Split::Fits;
    };
    match mem::replace(tree, Tree::Empty) {
        Tree::Two(mut node) => {
            let (first, low, second) = node.take_two();
            *tree = three(node, first, j, right, low, second);
            Split::Fits
        }
        Tree::Three(mut node) => {
            let Some(spare) = boxes.pop() else {
                unreachable!()
            };
            let (first, low, second, high, third) = node.take_three();
            *tree = two(node, first, j, right);
            Split::Splits(low, two(spare, second, high, third))
        }
        Tree::Empty | Tree::Leaf(_) | Tree::Underfull(_) => unreachable!(),
    }
}

/// Inserts what was split off the second child after that child, with a split as in `grow_first`.
#[inline]
pub fn grow_second(tree: &mut Tree, split: Split, boxes: &mut Vec<Box<Node>>) -> Split
    requires tree { HasSplitSecond split tree.old }
    requires boxes { OnSplits split (0 < length boxes.old.items) }
    ensures keys { keys_with_split tree.new result ≡ with_second_split split tree.old }
    ensures split { IsTreeWithSplit (depth tree.old) tree.new result }
    ensures boxes { IsSpent split result (length boxes.old.items) (length boxes.new.items) }
    ensures cause { IsSplitWhereFull split tree.old result }
{
    let Split::Splits(j, right) = split else {
        return Split::Fits;
    };
    match mem::replace(tree, Tree::Empty) {
        Tree::Two(mut node) => {
            let (first, low, second) = node.take_two();
            *tree = three(node, first, low, second, j, right);
            Split::Fits
        }
        Tree::Three(mut node) => {
            let Some(spare) = boxes.pop() else {
                unreachable!()
            };
            let (first, low, second, high, third) = node.take_three();
            *tree = two(node, first, low, second);
            Split::Splits(j, two(spare, right, high, third))
        }
        Tree::Empty | Tree::Leaf(_) | Tree::Underfull(_) => unreachable!(),
    }
}

/// Inserts what was split off the third child after that child, with a split as in `grow_first`.
#[inline]
pub fn grow_third(tree: &mut Tree, split: Split, boxes: &mut Vec<Box<Node>>) -> Split
    requires tree { HasSplitThird split tree.old }
    requires boxes { OnSplits split (0 < length boxes.old.items) }
    ensures keys { keys_with_split tree.new result ≡ with_third_split split tree.old }
    ensures split { IsTreeWithSplit (depth tree.old) tree.new result }
    ensures boxes { IsSpent split result (length boxes.old.items) (length boxes.new.items) }
    ensures cause { IsSplitWhereFull split tree.old result }
{
    let Split::Splits(j, right) = split else {
        return Split::Fits;
    };
    match mem::replace(tree, Tree::Empty) {
        Tree::Three(mut node) => {
            let Some(spare) = boxes.pop() else {
                unreachable!()
            };
            let (first, low, second, high, third) = node.take_three();
            *tree = two(node, first, low, second);
            Split::Splits(high, two(spare, third, j, right))
        }
        Tree::Empty | Tree::Leaf(_) | Tree::Underfull(_) | Tree::Two(_) => unreachable!(),
    }
}

/// Puts a tree and the part split off it under a new root, in a box from `boxes`. Without a split, nothing changes.
#[inline]
pub fn grow_root(rooted: &mut Rooted, split: Split, boxes: &mut Vec<Box<Node>>)
    requires split { IsTreeWithSplit rooted.old.height rooted.old.tree split }
    requires boxes { OnSplits split (0 < length boxes.old.items) }
    requires fits { rooted.old.height ≤ 2 ^ 63 }
    ensures keys { keys rooted.new.tree ≡ keys_with_split rooted.old.tree split }
    ensures rooted { IsRooted rooted.new }
    ensures height { rooted.new.height ≤ rooted.old.height + 1 }
{
    if let Split::Splits(k, right) = split {
        let Some(root) = boxes.pop() else {
            unreachable!()
        };
        let left = mem::replace(&mut rooted.tree, Tree::Empty);
        rooted.tree = two(root, left, k, right);
        rooted.height += 1;
    }
}
