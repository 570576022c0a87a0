//! The nodes of a 2-3 tree, and how they are built from their children.
ghost use Rattle.std.specs.Prelude.{◌≡◌, ◌+◌, ◌<◌, ◌^◌, ◌++◌, ◌∷◌};
ghost use Rattle.rank_nodes.specs.Nodes.{entries, depth, count, IsTree, IsRooted, IsLoose, IsNarrow};
ghost use Rattle.rank_nodes.specs.declared.node.Tree.TheVariants.{Empty};

use crate::entry::Entry;
use std::mem;

/// A 2-3 tree: a leaf of entries, or a node over subtrees.
#[cycle(tree)]
#[derive(Drop)]
pub enum Tree {
    /// An empty leaf that owns no memory.
    Empty,
    /// A leaf, possibly without entries. `IsTree` bounds its length; that the keys ascend is a separate condition.
    Leaf(Box<Vec<Entry>>),
    /// One child, in `first`, and no entry: only between a removal and its repair.
    Underfull(Box<Node>),
    /// Two children around `low`.
    Two(Box<Node>),
    /// Three children around `low` and `high`.
    Three(Box<Node>),
}

/// The number of entries in the subtree, and the children and entries of a node. The `Tree` variant tells how many of
/// these are in use; all variants share this type, so that a node keeps its box when a child comes or goes.
#[cycle(tree)]
#[derive(Drop)]
pub struct Node {
    pub size: u64,
    pub first: Tree,
    pub low: Entry,
    pub second: Tree,
    pub high: Entry,
    pub third: Tree,
}

/// A tree and its height: the number of node levels above the leaves, 0 for a leaf.
#[derive(Drop)]
pub struct Rooted {
    pub tree: Tree,
    pub height: u64,
}

/// What is split off the right end of a tree, if anything.
#[derive(Drop)]
pub enum Split {
    /// Nothing is split off.
    Fits,
    /// The entry after the tree, and a tree of the same depth after that entry.
    Splits(Entry, Tree),
}

impl Tree {
    /// The number of entries, as the root stores it.
    #[inline]
    pub fn size(&self) -> u64
        requires tree { IsTree self.now }
        ensures { result ≡ count self.now }
    {
        match self {
            Tree::Empty => 0,
            Tree::Leaf(leaf) => leaf.len() as u64,
            Tree::Two(node) | Tree::Three(node) => node.size,
            Tree::Underfull(_) => unreachable!(),
        }
    }
}

impl Rooted {
    /// An empty tree, of height 0.
    ///
    /// Memory: none.
    #[inline]
    pub fn empty() -> Rooted
        ensures rooted { IsRooted result }
        ensures entries { result.tree ≡ Empty }
    {
        Rooted {
            tree: Tree::Empty,
            height: 0,
        }
    }
}

impl Node {
    /// Takes out the first child, and clears the node.
    #[inline]
    pub(crate) fn take_first(&mut self) -> Tree
        ensures { result ≡ self.old.first }
    {
        let Node { first, .. } = mem::replace(self, empty_node());
        first
    }

    /// Takes out the first two children and the entry between them, and clears the node.
    #[inline]
    pub fn take_two(&mut self) -> (Tree, Entry, Tree)
        ensures { result ≡ (self.old.first, self.old.low, self.old.second) }
    {
        let Node {
            first,
            low,
            second,
            ..
        } = mem::replace(self, empty_node());
        (first, low, second)
    }

    /// Takes out the three children and the entries between them, and clears the node.
    #[inline]
    pub fn take_three(&mut self) -> (Tree, Entry, Tree, Entry, Tree)
        ensures { result ≡ (self.old.first, self.old.low, self.old.second, self.old.high, self.old.third) }
    {
        let Node {
            first,
            low,
            second,
            high,
            third,
            ..
        } = mem::replace(self, empty_node());
        (first, low, second, high, third)
    }
}

/// A cleared node: its children are empty, and its size, keys and values are 0.
#[inline]
pub(crate) fn empty_node() -> Node {
    let nothing = Entry { key: 0, val: 0 };
    Node {
        size: 0,
        first: Tree::Empty,
        low: nothing,
        second: Tree::Empty,
        high: nothing,
        third: Tree::Empty,
    }
}

/// Puts one child into the given box, as an `Underfull` tree, whose `size` is not maintained.
pub(crate) fn underfull(mut node: Box<Node>, a: Tree) -> Tree
    requires a { IsTree a }
    ensures entries { entries result ≡ entries a }
    ensures loose { IsLoose result }
    ensures narrow { IsNarrow result }
    ensures depth { depth result ≡ depth a + 1 }
    ensures count { count result ≡ count a }
{
    *node = Node {
        first: a,
        ..empty_node()
    };
    Tree::Underfull(node)
}

/// Puts two trees of equal depth around an entry into the given box.
#[inline]
pub fn two(mut node: Box<Node>, a: Tree, k: Entry, b: Tree) -> Tree
    requires a { IsTree a }
    requires b { IsTree b }
    requires level { depth b ≡ depth a }
    requires fits { count a + count b < 2 ^ 63 }
    ensures entries { entries result ≡ entries a ++ k ∷ entries b }
    ensures tree { IsTree result }
    ensures loose { IsLoose result }
    ensures narrow { IsNarrow result }
    ensures depth { depth result ≡ depth a + 1 }
    ensures count { count result ≡ count a + 1 + count b }
{
    *node = Node {
        size: a.size() + 1 + b.size(),
        first: a,
        low: k,
        second: b,
        high: k,
        third: Tree::Empty,
    };
    Tree::Two(node)
}

/// Puts three trees of equal depth around two entries into the given box.
#[inline]
pub fn three(mut node: Box<Node>, a: Tree, k: Entry, b: Tree, m: Entry, c: Tree) -> Tree
    requires a { IsTree a }
    requires b { IsTree b }
    requires c { IsTree c }
    requires level_b { depth b ≡ depth a }
    requires level_c { depth c ≡ depth a }
    requires fits { count a + count b + count c < 2 ^ 63 }
    ensures entries { entries result ≡ entries a ++ k ∷ (entries b ++ m ∷ entries c) }
    ensures tree { IsTree result }
    ensures loose { IsLoose result }
    ensures depth { depth result ≡ depth a + 1 }
    ensures count { count result ≡ count a + 1 + count b + 1 + count c }
{
    *node = Node {
        size: a.size() + 1 + b.size() + 1 + c.size(),
        first: a,
        low: k,
        second: b,
        high: m,
        third: c,
    };
    Tree::Three(node)
}
