//! In-place insertion of a key. The first descent allocates no node. If it ends at a full leaf without the key, boxes
//! for every node that may be split are allocated, and a second descent inserts the key.
ghost use Rattle.std.specs.Prelude.{◌≡◌, length, ◌+◌, ◌<◌, ◌≤◌, ◌^◌, IfOk, OnErr};
ghost use Rattle.tree_nodes.specs.declared.node.Tree.TheVariants.{Empty};
ghost use Rattle.key_sets.specs.Keys.{StrictlyAscends};
ghost use Rattle.tree_nodes.specs.Nodes.{keys, depth, IsTree, IsLeaf, IsRooted, keys_with_split, IsTreeWithSplit};
ghost use Rattle.tree_nodes.specs.Code.Insertions.{IsInserted, IsOutcome, IsAnswer, OnSplits};

use crate::leaf::{ROOM, insert_in_halves, is_at, leaf_of, place};
use crate::node::{Node, Rooted, Split, Tree};
use crate::pool::Pool;
use crate::split_node::{grow_first, grow_root, grow_second, grow_third};
use std::alloc::{AllocError, Global};

/// The outcome of one descent.
#[derive(Drop)]
pub(crate) enum Outcome {
    /// The key was already present.
    Found,
    Added,
    /// Nothing changed: the key's leaf is full, and there are too few boxes for the splits.
    Full,
    /// Nothing changed: an allocation failed.
    OutOfMemory,
}

impl Outcome {
    /// Whether the key is new. `Full` and `OutOfMemory` both become `AllocError`.
    #[inline]
    fn answer(self) -> Result<bool, AllocError>
        ensures { IsAnswer self result }
    {
        match self {
            Outcome::Found => Ok(false),
            Outcome::Added => Ok(true),
            Outcome::Full | Outcome::OutOfMemory => Err(AllocError),
        }
    }
}

/// Inserts the key into a whole tree, and returns whether it is new.
pub fn insert_at_root(alloc: Global, root: &mut Rooted, key: u32) -> Result<bool, AllocError>
    requires rooted { IsRooted root.old }
    requires ascends { StrictlyAscends (keys root.old.tree) }
    requires fits { root.old.height < 2 ^ 63 }
    ensures rooted { IsRooted root.new }
    ensures ok { IfOk result (λ added. IsInserted key (keys root.old.tree) (keys root.new.tree) added) }
    ensures err { OnErr result (keys root.new.tree ≡ keys root.old.tree) }
{
    let mut no_boxes = Vec::new(alloc);
    let outcome = insert_with(alloc, root, key, &mut no_boxes);
    if let Outcome::Full = &outcome {
        let mut pool = Pool::new(alloc);
        pool.hold(root.height + 1)?;
        insert_with(alloc, root, key, &mut pool.nodes).answer()
    } else {
        outcome.answer()
    }
}

/// One descent from the root with the given boxes. If the root splits, the tree grows by a level.
#[inline]
#[tactic(auto, using(crate::proofs::TreeLemmas::Inserting::growing))]
fn insert_with(alloc: Global, root: &mut Rooted, key: u32, boxes: &mut Vec<Box<Node>>) -> Outcome
    requires rooted { IsRooted root.old }
    requires ascends { StrictlyAscends (keys root.old.tree) }
    requires fits { root.old.height ≤ 2 ^ 63 }
    ensures rooted { IsRooted root.new }
    ensures height { root.new.height ≤ root.old.height + 1 }
    ensures outcome { IsOutcome key (keys root.old.tree) (keys root.new.tree) result }
{
    let (outcome, split) = insert_in(alloc, &mut root.tree, key, 0, boxes);
    grow_root(root, split, boxes);
    outcome
}

/// Inserts into a subtree, from which a part may be split off. `above` is the number of nodes on the path above it.
/// When a part is split off, more than `above` boxes are left: one for each of those nodes, and one for a new root.
#[tactic(auto, using(crate::proofs::TreeLemmas::Inserting::growing))]
pub(crate) fn insert_in(
    alloc: Global,
    tree: &mut Tree,
    key: u32,
    above: usize,
    boxes: &mut Vec<Box<Node>>,
) -> (Outcome, Split)
    requires tree { IsTree tree.old }
    requires ascends { StrictlyAscends (keys tree.old) }
    requires fits { above + depth tree.old < 2 ^ 64 }
    ensures outcome { IsOutcome key (keys tree.old) (keys_with_split tree.new result.1) result.0 }
    ensures split { IsTreeWithSplit (depth tree.old) tree.new result.1 }
    ensures boxes { OnSplits result.1 (above < length boxes.new.items) }
{
    match tree {
        Tree::Empty | Tree::Leaf(_) => insert_in_leaf(alloc, tree, key, above, boxes.len()),
        Tree::Two(node) => {
            if key < node.low {
                let (outcome, split) = insert_in(alloc, &mut node.first, key, above + 1, boxes);
                (outcome, grow_first(tree, split, boxes))
            } else if node.low < key {
                let (outcome, split) = insert_in(alloc, &mut node.second, key, above + 1, boxes);
                (outcome, grow_second(tree, split, boxes))
            } else {
                (Outcome::Found, Split::Fits)
            }
        }
        Tree::Three(node) => {
            if key < node.low {
                let (outcome, split) = insert_in(alloc, &mut node.first, key, above + 1, boxes);
                (outcome, grow_first(tree, split, boxes))
            } else if key == node.low || key == node.high {
                (Outcome::Found, Split::Fits)
            } else if key < node.high {
                let (outcome, split) = insert_in(alloc, &mut node.second, key, above + 1, boxes);
                (outcome, grow_second(tree, split, boxes))
            } else {
                let (outcome, split) = insert_in(alloc, &mut node.third, key, above + 1, boxes);
                (outcome, grow_third(tree, split, boxes))
            }
        }
        Tree::Underfull(_) => unreachable!(),
    }
}

/// Inserts into a tree that is empty or a single leaf. A full leaf is split only if the boxes suffice for every node
/// above it and a new root.
fn insert_in_leaf(
    alloc: Global,
    tree: &mut Tree,
    key: u32,
    above: usize,
    boxes: usize,
) -> (Outcome, Split)
    requires bottom { IsLeaf tree.old }
    requires tree { IsTree tree.old }
    requires ascends { StrictlyAscends (keys tree.old) }
    ensures outcome { IsOutcome key (keys tree.old) (keys_with_split tree.new result.1) result.0 }
    ensures split { IsTreeWithSplit 0 tree.new result.1 }
    ensures boxes { OnSplits result.1 (above < boxes) }
{
    let Tree::Leaf(leaf) = tree else {
        return (insert_first(alloc, tree, key), Split::Fits);
    };
    let at = place(leaf, key);
    if is_at(leaf, at, key) {
        (Outcome::Found, Split::Fits)
    } else if leaf.len() < ROOM {
        match leaf.insert(at, key) {
            Ok(()) => (Outcome::Added, Split::Fits),
            Err(_) => (Outcome::OutOfMemory, Split::Fits),
        }
    } else if above < boxes {
        match insert_in_halves(alloc, leaf, at, key) {
            Ok((middle, after)) => (Outcome::Added, Split::Splits(middle, Tree::Leaf(after))),
            Err(_) => (Outcome::OutOfMemory, Split::Fits),
        }
    } else {
        (Outcome::Full, Split::Fits)
    }
}

/// Turns an empty tree into a leaf with the one key.
fn insert_first(alloc: Global, tree: &mut Tree, key: u32) -> Outcome
    requires empty { tree.old ≡ Empty }
    ensures outcome { IsOutcome key (keys tree.old) (keys tree.new) result }
    ensures tree { IsTree tree.new }
    ensures depth { depth tree.new ≡ 0 }
{
    match leaf_of(alloc, key) {
        Ok(leaf) => {
            *tree = Tree::Leaf(leaf);
            Outcome::Added
        }
        Err(_) => Outcome::OutOfMemory,
    }
}
