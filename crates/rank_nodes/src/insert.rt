//! In-place insertion of an entry, which replaces the one with its key if there is one. The first descent allocates no
//! node. If it ends at a full leaf without the key, boxes for every node that may be split are allocated, and a second
//! descent inserts the entry.
ghost use Rattle.std.specs.Prelude.{◌≡◌, length, ◌+◌, ◌<◌, ◌≤◌, ◌^◌, IfOk, OnErr};
ghost use Rattle.rank_nodes.specs.declared.node.Tree.TheVariants.{Empty};
ghost use Rattle.rank_nodes.specs.Maps.{Ascends};
ghost use Rattle.rank_nodes.specs.Nodes.{entries, depth, count, IsTree, IsLeaf, IsRooted, with_split, split_count, IsTreeWithSplit};
ghost use Rattle.rank_nodes.specs.declared.insert.Outcome.TheVariants.{Replaced};
ghost use Rattle.rank_nodes.specs.Code.Insertions.{IsPut, IsOutcome, IsAnswer, OnSplits, added_by};

use crate::boxes::Boxes;
use crate::entry::Entry;
use crate::leaf::{ROOM, insert_in_halves, leaf_of, place, value_in_leaf};
use crate::node::{Node, Rooted, Split, Tree};
use crate::split_node::{grow_first, grow_root, grow_second, grow_third};
use std::alloc::{AllocError, Global};

/// The outcome of one descent.
#[derive(Drop)]
pub(crate) enum Outcome {
    /// The key was present with this value, which was replaced.
    Replaced(u32),
    Added,
    /// Nothing changed: the key's leaf is full, and there are too few boxes for the splits.
    Full,
    /// Nothing changed: an allocation failed.
    OutOfMemory,
}

impl Outcome {
    /// The value that the key had, if any. `Full` and `OutOfMemory` both become `AllocError`.
    #[inline]
    fn answer(self) -> Result<Option<u32>, AllocError>
        ensures { IsAnswer self result }
    {
        match self {
            Outcome::Replaced(was) => Ok(Some(was)),
            Outcome::Added => Ok(None),
            Outcome::Full | Outcome::OutOfMemory => Err(AllocError),
        }
    }

    /// The number of new entries: 0 or 1.
    #[inline]
    fn added(&self) -> u64
        ensures { result ≡ added_by self.now }
    {
        match self {
            Outcome::Added => 1,
            Outcome::Replaced(_) | Outcome::Full | Outcome::OutOfMemory => 0,
        }
    }
}

/// Puts an entry into a whole tree, and returns the value that its key had, if any.
pub fn put_at_root(
    alloc: Global,
    root: &mut Rooted,
    entry: Entry,
) -> Result<Option<u32>, AllocError>
    requires rooted { IsRooted root.old }
    requires ascends { Ascends (entries root.old.tree) }
    requires height { root.old.height < 2 ^ 62 }
    requires fits { count root.old.tree < 2 ^ 62 }
    ensures rooted { IsRooted root.new }
    ensures ok { IfOk result (λ answer. IsPut entry.key entry.val (entries root.old.tree) (entries root.new.tree) answer) }
    ensures err { OnErr result (entries root.new.tree ≡ entries root.old.tree) }
{
    let mut no_boxes = Vec::new(alloc);
    let outcome = put_with(alloc, root, entry, &mut no_boxes);
    if let Outcome::Full = &outcome {
        let mut boxes = Boxes::new(alloc);
        boxes.hold(root.height + 1)?;
        put_with(alloc, root, entry, &mut boxes.nodes).answer()
    } else {
        outcome.answer()
    }
}

/// One descent from the root with the given boxes. If the root splits, the tree grows by a level.
#[inline]
#[tactic(auto, using(crate::proofs::TreeLemmas::Inserting::growing))]
fn put_with(alloc: Global, root: &mut Rooted, entry: Entry, boxes: &mut Vec<Box<Node>>) -> Outcome
    requires rooted { IsRooted root.old }
    requires ascends { Ascends (entries root.old.tree) }
    requires height { root.old.height < 2 ^ 63 }
    requires fits { count root.old.tree < 2 ^ 62 }
    ensures rooted { IsRooted root.new }
    ensures height { root.new.height ≤ root.old.height + 1 }
    ensures outcome { IsOutcome entry.key entry.val (entries root.old.tree) (entries root.new.tree) result }
{
    let (split, outcome) = insert_in(alloc, &mut root.tree, entry, 0, boxes);
    grow_root(root, split, boxes);
    outcome
}

/// Inserts into a subtree, from which a part may be split off. `above` is the number of nodes on the path above it.
/// When a part is split off, more than `above` boxes are left: one for each of those nodes, and one for a new root.
#[tactic(auto, using(crate::proofs::TreeLemmas::Inserting::growing))]
pub(crate) fn insert_in(
    alloc: Global,
    tree: &mut Tree,
    entry: Entry,
    above: usize,
    boxes: &mut Vec<Box<Node>>,
) -> (Split, Outcome)
    requires tree { IsTree tree.old }
    requires ascends { Ascends (entries tree.old) }
    requires levels { above + depth tree.old < 2 ^ 64 }
    requires fits { count tree.old < 2 ^ 62 }
    ensures outcome { IsOutcome entry.key entry.val (entries tree.old) (with_split tree.new result.0) result.1 }
    ensures split { IsTreeWithSplit (depth tree.old) tree.new result.0 }
    ensures count { split_count tree.new result.0 ≡ count tree.old + added_by result.1 }
    ensures boxes { OnSplits result.0 (above < length boxes.new.items) }
{
    match tree {
        Tree::Empty | Tree::Leaf(_) => insert_in_leaf(alloc, tree, entry, above, boxes.len()),
        Tree::Two(node) => {
            if entry.key < node.low.key {
                let (split, outcome) = insert_in(alloc, &mut node.first, entry, above + 1, boxes);
                (grow_first(tree, outcome.added(), split, boxes), outcome)
            } else if node.low.key < entry.key {
                let (split, outcome) = insert_in(alloc, &mut node.second, entry, above + 1, boxes);
                (grow_second(tree, outcome.added(), split, boxes), outcome)
            } else {
                (Split::Fits, replace(&mut node.low, entry))
            }
        }
        Tree::Three(node) => {
            if entry.key < node.low.key {
                let (split, outcome) = insert_in(alloc, &mut node.first, entry, above + 1, boxes);
                (grow_first(tree, outcome.added(), split, boxes), outcome)
            } else if entry.key == node.low.key {
                (Split::Fits, replace(&mut node.low, entry))
            } else if entry.key < node.high.key {
                let (split, outcome) = insert_in(alloc, &mut node.second, entry, above + 1, boxes);
                (grow_second(tree, outcome.added(), split, boxes), outcome)
            } else if entry.key == node.high.key {
                (Split::Fits, replace(&mut node.high, entry))
            } else {
                let (split, outcome) = insert_in(alloc, &mut node.third, entry, above + 1, boxes);
                (grow_third(tree, outcome.added(), split, boxes), outcome)
            }
        }
        Tree::Underfull(_) => unreachable!(),
    }
}

/// Overwrites an entry, and reports the value that it had.
#[inline]
fn replace(old: &mut Entry, entry: Entry) -> Outcome
    ensures entry { old.new ≡ entry }
    ensures outcome { result ≡ Replaced old.old.val }
{
    let was = old.val;
    *old = entry;
    Outcome::Replaced(was)
}

/// Inserts into a tree that is empty or a single leaf. A full leaf is split only if the boxes suffice for every node
/// above it and a new root.
fn insert_in_leaf(
    alloc: Global,
    tree: &mut Tree,
    entry: Entry,
    above: usize,
    boxes: usize,
) -> (Split, Outcome)
    requires bottom { IsLeaf tree.old }
    requires tree { IsTree tree.old }
    requires ascends { Ascends (entries tree.old) }
    ensures outcome { IsOutcome entry.key entry.val (entries tree.old) (with_split tree.new result.0) result.1 }
    ensures split { IsTreeWithSplit 0 tree.new result.0 }
    ensures count { split_count tree.new result.0 ≡ count tree.old + added_by result.1 }
    ensures boxes { OnSplits result.0 (above < boxes) }
{
    let Tree::Leaf(leaf) = tree else {
        return (Split::Fits, insert_first(alloc, tree, entry));
    };
    let at = place(leaf, entry.key);
    if let Some(was) = value_in_leaf(leaf, at, entry.key) {
        leaf[at] = entry;
        (Split::Fits, Outcome::Replaced(was))
    } else if leaf.len() < ROOM {
        match leaf.insert(at, entry) {
            Ok(()) => (Split::Fits, Outcome::Added),
            Err(_) => (Split::Fits, Outcome::OutOfMemory),
        }
    } else if above < boxes {
        match insert_in_halves(alloc, leaf, at, entry) {
            Ok((middle, after)) => (Split::Splits(middle, Tree::Leaf(after)), Outcome::Added),
            Err(_) => (Split::Fits, Outcome::OutOfMemory),
        }
    } else {
        (Split::Fits, Outcome::Full)
    }
}

/// Turns an empty tree into a leaf with the one entry.
fn insert_first(alloc: Global, tree: &mut Tree, entry: Entry) -> Outcome
    requires empty { tree.old ≡ Empty }
    ensures outcome { IsOutcome entry.key entry.val (entries tree.old) (entries tree.new) result }
    ensures tree { IsTree tree.new }
    ensures depth { depth tree.new ≡ 0 }
    ensures count { count tree.new ≡ added_by result }
{
    match leaf_of(alloc, entry) {
        Ok(leaf) => {
            *tree = Tree::Leaf(leaf);
            Outcome::Added
        }
        Err(_) => Outcome::OutOfMemory,
    }
}
