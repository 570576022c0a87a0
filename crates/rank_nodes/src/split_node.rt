//! Absorbing growth: a node takes in what was split off one of its children, or splits in turn, and its size is
//! updated. A tree whose root splits gets a new root.
ghost use Rattle.std.specs.Prelude.{◌≡◌, ◌+◌, ◌<◌, ◌≤◌, ◌^◌, length};
ghost use Rattle.rank_nodes.specs.Nodes.{entries, depth, count, IsTree, IsRooted, with_split, split_count, IsTreeWithSplit};
ghost use Rattle.rank_nodes.specs.Code.Insertions.{OnSplits, kept_size, HasGrown, HasSplitFirst, HasSplitSecond, HasSplitThird, with_first_split, with_second_split, with_third_split, IsSpent};

use crate::node::{Node, Rooted, Split, Tree, three, two};
use std::mem;

/// Adds `added` to the size of a node one of whose children grew by as many entries without a split.
#[inline]
fn enlarge(tree: &mut Tree, added: u64)
    requires grown { HasGrown added tree.old }
    requires fits { kept_size tree.old + added < 2 ^ 63 }
    ensures entries { entries tree.new ≡ entries tree.old }
    ensures tree { IsTree tree.new }
    ensures depth { depth tree.new ≡ depth tree.old }
    ensures count { count tree.new ≡ kept_size tree.old + added }
{
    match tree {
        Tree::Two(node) => node.size += added,
        Tree::Three(node) => node.size += added,
        Tree::Empty | Tree::Leaf(_) | Tree::Underfull(_) => unreachable!(),
    }
}

/// Inserts what was split off the first child after that child, where the two have `added` entries more than the child
/// had. A node with three children splits, and a box from `boxes` takes the last two of the four.
#[inline]
pub fn grow_first(tree: &mut Tree, added: u64, split: Split, boxes: &mut Vec<Box<Node>>) -> Split
    requires tree { HasSplitFirst added split tree.old }
    requires fits { kept_size tree.old + added < 2 ^ 63 }
    requires boxes { OnSplits split (0 < length boxes.old.items) }
    ensures entries { with_split tree.new result ≡ with_first_split split tree.old }
    ensures split { IsTreeWithSplit (depth tree.old) tree.new result }
    ensures count { split_count tree.new result ≡ kept_size tree.old + added }
    ensures boxes { IsSpent split result (length boxes.old.items) (length boxes.new.items) }
{
    let Split::Splits(j, right) = split else {
        enlarge(tree, added);
        return Split::Fits;
    };
    match mem::replace(tree, Tree::Empty) {
        Tree::Two(mut node) => {
            let (first, low, second) = node.take_two();
            *tree = three(node, first, j, right, low, second);
            Split::Fits
        }
        Tree::Three(mut node) => {
            let Some(spare) = boxes.pop() else {
                unreachable!()
            };
            let (first, low, second, high, third) = node.take_three();
            *tree = two(node, first, j, right);
            Split::Splits(low, two(spare, second, high, third))
        }
        Tree::Empty | Tree::Leaf(_) | Tree::Underfull(_) => unreachable!(),
    }
}

/// Inserts what was split off the second child after that child, as in `grow_first`.
#[inline]
pub fn grow_second(tree: &mut Tree, added: u64, split: Split, boxes: &mut Vec<Box<Node>>) -> Split
    requires tree { HasSplitSecond added split tree.old }
    requires fits { kept_size tree.old + added < 2 ^ 63 }
    requires boxes { OnSplits split (0 < length boxes.old.items) }
    ensures entries { with_split tree.new result ≡ with_second_split split tree.old }
    ensures split { IsTreeWithSplit (depth tree.old) tree.new result }
    ensures count { split_count tree.new result ≡ kept_size tree.old + added }
    ensures boxes { IsSpent split result (length boxes.old.items) (length boxes.new.items) }
{
    let Split::Splits(j, right) = split else {
        enlarge(tree, added);
        return Split::Fits;
    };
    match mem::replace(tree, Tree::Empty) {
        Tree::Two(mut node) => {
            let (first, low, second) = node.take_two();
            *tree = three(node, first, low, second, j, right);
            Split::Fits
        }
        Tree::Three(mut node) => {
            let Some(spare) = boxes.pop() else {
                unreachable!()
            };
            let (first, low, second, high, third) = node.take_three();
            *tree = two(node, first, low, second);
            Split::Splits(j, two(spare, right, high, third))
        }
        Tree::Empty | Tree::Leaf(_) | Tree::Underfull(_) => unreachable!(),
    }
}

/// Inserts what was split off the third child after that child, as in `grow_first`.
#[inline]
pub fn grow_third(tree: &mut Tree, added: u64, split: Split, boxes: &mut Vec<Box<Node>>) -> Split
    requires tree { HasSplitThird added split tree.old }
    requires fits { kept_size tree.old + added < 2 ^ 63 }
    requires boxes { OnSplits split (0 < length boxes.old.items) }
    ensures entries { with_split tree.new result ≡ with_third_split split tree.old }
    ensures split { IsTreeWithSplit (depth tree.old) tree.new result }
    ensures count { split_count tree.new result ≡ kept_size tree.old + added }
    ensures boxes { IsSpent split result (length boxes.old.items) (length boxes.new.items) }
{
    let Split::Splits(j, right) = split else {
        enlarge(tree, added);
        return Split::Fits;
    };
    match mem::replace(tree, Tree::Empty) {
        Tree::Three(mut node) => {
            let Some(spare) = boxes.pop() else {
                unreachable!()
            };
            let (first, low, second, high, third) = node.take_three();
            *tree = two(node, first, low, second);
            Split::Splits(high, two(spare, third, j, right))
        }
        Tree::Empty | Tree::Leaf(_) | Tree::Underfull(_) | Tree::Two(_) => unreachable!(),
    }
}

/// Puts a tree and the part split off it under a new root, in a box from `boxes`. Without a split, nothing changes.
#[inline]
pub fn grow_root(rooted: &mut Rooted, split: Split, boxes: &mut Vec<Box<Node>>)
    requires split { IsTreeWithSplit rooted.old.height rooted.old.tree split }
    requires boxes { OnSplits split (0 < length boxes.old.items) }
    requires height { rooted.old.height ≤ 2 ^ 63 }
    requires fits { split_count rooted.old.tree split < 2 ^ 63 }
    ensures entries { entries rooted.new.tree ≡ with_split rooted.old.tree split }
    ensures rooted { IsRooted rooted.new }
    ensures height { rooted.new.height ≤ rooted.old.height + 1 }
    ensures count { count rooted.new.tree ≡ split_count rooted.old.tree split }
{
    if let Split::Splits(k, right) = split {
        let Some(root) = boxes.pop() else {
            unreachable!()
        };
        let left = mem::replace(&mut rooted.tree, Tree::Empty);
        rooted.tree = two(root, left, k, right);
        rooted.height += 1;
    }
}
