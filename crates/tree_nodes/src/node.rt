//! The nodes of a 2-3 tree, and how they are built from their children.
ghost use Rattle.std.specs.Prelude.{◌≡◌, ◌+◌, ◌<◌, ◌^◌, ◌++◌, ◌∷◌, length};
ghost use Rattle.tree_nodes.specs.Nodes.{keys, depth, IsTree, IsRooted, IsLoose, IsNarrow};
ghost use Rattle.tree_nodes.specs.declared.node.Tree.TheVariants.{Empty};

use std::mem;

/// A 2-3 tree: a leaf of keys, or a node over subtrees.
#[cycle(tree)]
#[derive(Drop)]
pub enum Tree {
    /// An empty leaf that owns no memory.
    Empty,
    /// A leaf, possibly without keys. `IsTree` bounds its length; that the keys ascend is a separate condition.
    Leaf(Box<Vec<u32>>),
    /// One child, in `first`, and no key: only between a removal and its repair.
    Underfull(Box<Node>),
    /// Two children around `low`.
    Two(Box<Node>),
    /// Three children around `low` and `high`.
    Three(Box<Node>),
}

/// The children and keys of a node. The `Tree` variant tells how many are in use; all variants share this type, so that
/// a node keeps its box when a child comes or goes.
#[cycle(tree)]
#[derive(Drop)]
pub struct Node {
    pub first: Tree,
    pub low: u32,
    pub second: Tree,
    pub high: u32,
    pub third: Tree,
}

/// A tree and its height: the number of node levels above the leaves, 0 for a leaf.
#[derive(Drop)]
pub struct Rooted {
    pub tree: Tree,
    pub height: u64,
}

/// What is split off the right end of a tree, if anything.
#[derive(Drop)]
pub enum Split {
    /// Nothing is split off.
    Fits,
    /// The key after the tree, and a tree of the same depth after that key.
    Splits(u32, Tree),
}

impl Tree {
    /// The number of keys, counted by a walk over all nodes and leaves.
    pub fn size(&self) -> u64
        requires tree { IsTree self.now }
        requires fits { length (keys self.now) < 2 ^ 64 }
        ensures { result ≡ length (keys self.now) }
    {
        match self {
            Tree::Empty => 0,
            Tree::Leaf(leaf) => leaf.len() as u64,
            Tree::Two(node) => node.first.size() + 1 + node.second.size(),
            Tree::Three(node) => {
                node.first.size() + 1 + node.second.size() + 1 + node.third.size()
            }
            Tree::Underfull(_) => unreachable!(),
        }
    }
}

impl Rooted {
    /// An empty tree, of height 0.
    ///
    /// Memory: none.
    #[inline]
    pub fn empty() -> Rooted
        ensures rooted { IsRooted result }
        ensures keys { result.tree ≡ Empty }
    {
        Rooted {
            tree: Tree::Empty,
            height: 0,
        }
    }
}

impl Node {
    /// Takes out the first child, and clears the node.
    #[inline]
    pub(crate) fn take_first(&mut self) -> Tree
        ensures { result ≡ self.old.first }
    {
        let Node { first, .. } = mem::replace(self, empty_node());
        first
    }

    /// Takes out the first two children and the key between them, and clears the node.
    #[inline]
    pub fn take_two(&mut self) -> (Tree, u32, Tree)
        ensures { result ≡ (self.old.first, self.old.low, self.old.second) }
    {
        let Node {
            first,
            low,
            second,
            ..
        } = mem::replace(self, empty_node());
        (first, low, second)
    }

    /// Takes out the three children and the keys between them, and clears the node.
    #[inline]
    pub fn take_three(&mut self) -> (Tree, u32, Tree, u32, Tree)
        ensures { result ≡ (self.old.first, self.old.low, self.old.second, self.old.high, self.old.third) }
    {
        let Node {
            first,
            low,
            second,
            high,
            third,
            ..
        } = mem::replace(self, empty_node());
        (first, low, second, high, third)
    }
}

/// A cleared node: its children are empty, and its keys are 0.
#[inline]
pub(crate) fn empty_node() -> Node {
    Node {
        first: Tree::Empty,
        low: 0,
        second: Tree::Empty,
        high: 0,
        third: Tree::Empty,
    }
}

/// Puts one child into the given box, as an `Underfull` tree.
pub(crate) fn underfull(mut node: Box<Node>, a: Tree) -> Tree
    requires a { IsTree a }
    ensures keys { keys result ≡ keys a }
    ensures loose { IsLoose result }
    ensures narrow { IsNarrow result }
    ensures depth { depth result ≡ depth a + 1 }
{
    *node = Node {
        first: a,
        ..empty_node()
    };
    Tree::Underfull(node)
}

/// Puts two trees of equal depth around a key into the given box.
#[inline]
pub fn two(mut node: Box<Node>, a: Tree, k: u32, b: Tree) -> Tree
    requires a { IsTree a }
    requires b { IsTree b }
    requires level { depth b ≡ depth a }
    ensures keys { keys result ≡ keys a ++ k ∷ keys b }
    ensures tree { IsTree result }
    ensures loose { IsLoose result }
    ensures narrow { IsNarrow result }
    ensures depth { depth result ≡ depth a + 1 }
{
    *node = Node {
        first: a,
        low: k,
        second: b,
        high: 0,
        third: Tree::Empty,
    };
    Tree::Two(node)
}

/// Puts three trees of equal depth around two keys into the given box.
#[inline]
pub fn three(mut node: Box<Node>, a: Tree, k: u32, b: Tree, m: u32, c: Tree) -> Tree
    requires a { IsTree a }
    requires b { IsTree b }
    requires c { IsTree c }
    requires level_b { depth b ≡ depth a }
    requires level_c { depth c ≡ depth a }
    ensures keys { keys result ≡ keys a ++ k ∷ (keys b ++ m ∷ keys c) }
    ensures tree { IsTree result }
    ensures loose { IsLoose result }
    ensures depth { depth result ≡ depth a + 1 }
{
    *node = Node {
        first: a,
        low: k,
        second: b,
        high: m,
        third: c,
    };
    Tree::Three(node)
}
