//! A pool of node boxes and leaves for reuse.
ghost use Rattle.std.specs.Prelude.{◌≡◌, ◌≤◌, [], length, IfOk, OnOk};
ghost use Rattle.tree_nodes.specs.Nodes.{IsLeaf};

use crate::leaf::empty_leaf;
use crate::node::{Node, Tree, empty_node};
use std::alloc::{AllocError, Global};

/// `give` keeps at most this many boxes, and `give_leaf` this many leaves.
const MOST: usize = 256;

/// Unused node boxes and leaves, which are taken before new ones are allocated. Their contents do not affect the keys
/// of any tree.
#[derive(Drop)]
pub struct Pool {
    pub nodes: Vec<Box<Node>>,
    leaves: Vec<Box<Vec<u32>>>,
    alloc: Global,
}

impl Pool {
    /// An empty pool.
    ///
    /// Memory: none.
    #[inline]
    pub fn new(alloc: Global) -> Pool {
        Pool {
            nodes: Vec::new(alloc),
            leaves: Vec::new(alloc),
            alloc,
        }
    }

    /// Keeps a node's box for reuse. The box is freed if the pool has `MOST` of them or cannot grow.
    #[inline]
    pub fn give(&mut self, node: Box<Node>) {
        if self.nodes.len() < MOST {
            if let Err(_) = self.nodes.push(node) {}
        }
    }

    /// A box for a node: from the pool if it has one, or newly allocated.
    #[inline]
    pub fn take(&mut self) -> Result<Box<Node>, AllocError> {
        match self.nodes.pop() {
            Some(node) => Ok(node),
            None => {
                let node = Box::new(self.alloc, empty_node())?;
                Ok(node)
            }
        }
    }

    /// Allocates node boxes until the pool has at least `count`.
    #[inline]
    pub fn hold(&mut self, count: u64) -> Result<(), AllocError>
        ensures { OnOk result (count ≤ length self.new.nodes.items) }
    {
        while (self.nodes.len() as u64) < count {
            let node = Box::new(self.alloc, empty_node())?;
            self.nodes.push(node)?;
        }
        Ok(())
    }

    /// Keeps a leaf for reuse. The leaf is freed if the pool has `MOST` of them or cannot grow.
    pub fn give_leaf(&mut self, tree: Tree)
        requires bottom { IsLeaf tree }
    {
        match tree {
            Tree::Leaf(leaf) => {
                if self.leaves.len() < MOST {
                    if let Err(_) = self.leaves.push(leaf) {}
                }
            }
            Tree::Empty => {}
            Tree::Underfull(_) | Tree::Two(_) | Tree::Three(_) => unreachable!(),
        }
    }

    /// An empty leaf: from the pool if it has one, or newly allocated.
    #[inline]
    pub fn take_leaf(&mut self) -> Result<Box<Vec<u32>>, AllocError>
        ensures { IfOk result (λ leaf. leaf.value.items ≡ []) }
    {
        match self.leaves.pop() {
            Some(mut leaf) => {
                leaf.clear();
                Ok(leaf)
            }
            None => empty_leaf(self.alloc),
        }
    }
}
